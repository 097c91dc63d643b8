// One heap, both collectors: the first in place, the second from a copy into a heap of its own. Every word, the record and the answer are
// compared.

#![tactic(auto)]

pub mod counts;

use collection::collect;
use counts::Sums;
use rules::{Control, Lent, Refusal, Refused};
use samples::making::record_of;
use second::{WHOLE, WITH_BOOKS, collect_again, lay_out};

// Whether the second collector finishes with the words and the record that the first one left. What stands behind its heap does not count.
fn finishes_so(old: &[u32], now: &[u32]) -> bool {
    let mut new = [0u32; WITH_BOOKS];
    collect_again(old, &mut new).is_ok() && new.starts_with(now)
}

// Whether the second collector lacks a page too.
fn lacks_too(old: &[u32]) -> bool {
    let mut new = [0u32; WITH_BOOKS];
    collect_again(old, &mut new).is_err()
}

// Whether a refusal is right: no word and no record changed, and for want of a page in both. A heap that the audit refuses is not for the
// second collector.
fn refuses_so(why: Refusal, old: &[u32], now: &[u32]) -> bool {
    now == old
        && match why {
            Refusal::NoPage => lacks_too(old),
            _ => true,
        }
}

// Whether the second collector makes of the old heap what the first one made of it.
fn agrees(answer: Result<Control, Refused>, old: &[u32], left: Lent<'_>) -> bool {
    let mut now = [0u32; WHOLE];
    lay_out(&mut now, left);
    match answer {
        Ok(_) => finishes_so(old, &now),
        Err(refused) => refuses_so(refused.why, old, &now),
    }
}

// Both collectors on one heap, and how it ended. The first one's words are left.
pub fn both(
    heap: &mut [u32],
    table: &mut [u32],
    roots: &mut [u32],
    consts: &[u32],
    c: Control,
    sums: &mut Sums,
) -> Result<Control, Refused> {
    let mut old = [0u32; WHOLE];
    lay_out(
        &mut old,
        Lent {
            heap,
            table,
            roots,
            consts,
            control: c,
        },
    );
    let answer = collect(heap, table, roots, consts, c);
    let left = Lent {
        heap,
        table,
        roots,
        consts,
        control: record_of(answer),
    };
    sums.ended(answer, c, agrees(answer, &old, left));
    answer
}
