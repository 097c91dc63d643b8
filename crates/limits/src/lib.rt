// The tests of every call: the lengths, then the record.

#![tactic(auto)]

ghost use Rattle.std.specs.Prelude.{◌≡◌, ◌/◌, ◌^◌, ◌≤◌, length, Ok, Err, MatchResult};
ghost use Rattle.rules.specs.Memory.{limits, store};
ghost use Rattle.rules.specs.Refusals.{Admitted, common};
ghost use Rattle.limits.specs.First.{first_tests, tests_of};

use pages::{page_count, page_words};
use rules::{Control, Lent, Refusal, Refused};

// Whether n and the four lengths are within their limits.
pub fn within_limits(n: u32, heap: usize, table: usize, roots: usize, consts: usize) -> bool
    ensures { result ≡ limits n heap table roots consts }
{
    if n < 4 {
        return false;
    }
    if 8 < n {
        return false;
    }
    let p = page_words(n);
    if heap % p != 0 {
        return false;
    }
    if heap < 2 * p {
        return false;
    }
    if 65536 < heap {
        return false;
    }
    if table != 256 {
        return false;
    }
    if 1024 < roots {
        return false;
    }
    consts <= 65535
}

// Whether the record passes the test of every call on a heap of h words.
fn common_test(h: usize, c: Control) -> bool
    requires { c.n ≤ 8 }
    ensures { result ≡ common (h / 2 ^ c.n) c }
{
    let pages = page_count(h, c.n);
    if 64 < c.regions {
        return false;
    }
    if pages < c.first as usize {
        return false;
    }
    if pages < c.count as usize {
        return false;
    }
    (c.first == 0) == (c.count == 0)
}

// The tests of every call, over the four lengths and the record.
pub fn first_tests(
    heap: usize,
    table: usize,
    roots: usize,
    consts: usize,
    c: Control,
) -> Result<(), Refused>
    ensures { result ≡ first_tests heap table roots consts c }
{
    if !within_limits(c.n, heap, table, roots, consts) {
        return Err(Refused {
            why: Refusal::Limits,
            control: c,
        });
    }
    if !common_test(heap, c) {
        return Err(Refused {
            why: Refusal::Broken(0),
            control: c,
        });
    }
    Ok(())
}

// What has passed the tests of every call: whoever holds one needs no test of lengths or record of its own.
#[derive(Clone, Copy)]
pub struct Admitted<'a> {
    pub lent: Lent<'a>,
    ghost fits: { Admitted (length lent.heap.now) (length lent.table.now) (length lent.roots.now) (length lent.consts.now) lent.control },
}

// What a call is lent, once it has passed the tests of every call.
pub fn admit<'a>(lent: Lent<'a>) -> Result<Admitted<'a>, Refused>
    ensures { MatchResult result
        (λ heap. (heap.lent ≡ lent.entry) × (tests_of (store lent.entry) ≡ Ok tt))
        (λ e. tests_of (store lent.entry) ≡ Err e) }
{
    first_tests(
        lent.heap.len(),
        lent.table.len(),
        lent.roots.len(),
        lent.consts.len(),
        lent.control,
    )?;
    Ok(Admitted { lent })
}
