// Rules 6 and 7 of the audit, and whether a region is held: tests of every root, and of every field of every record.

#![tactic(auto)]

ghost use Rattle.std.specs.Prelude.{◌≡◌, ◌≤◌, ◌<◌, length, ℕ, Bool};
ghost use Rattle.laws.specs.Lists.{all};
ghost use Rattle.rules.specs.Memory.{store};
ghost use Rattle.rules.specs.Refusals.{Paged};
ghost use Rattle.rules.specs.Audit.{records_pass, rule6 as rule6_of, rule7 as rule7_of};
ghost use Rattle.rules.specs.Calls.{points_into, let_go};

use conversions::{
    address_behind, address_page, origin_region, page_address, pointer_address, region_numbered,
};
use limits::Admitted;
use pages::{page_count, page_words};
use rows::{first_link, link_address};
use rules::{Lent, Region};
use values::{Memory, fits, good_word, is_record};

// Whether a word points into a page of region j.
fn points_into(heap: &[u32], n: u32, j: Region, w: u32) -> bool
    requires { Paged n (length heap.now) }
    ensures { result ≡ points_into n heap.now j.0 w }
{
    if w % 4 != 0 {
        return false;
    }
    let a = pointer_address(w);
    if heap.len() <= a.0 {
        return false;
    }
    let base = page_address(address_page(a, n), n);
    let origin = heap[base.0 + 1];
    origin != 0 && origin_region(origin).0 == j.0
}

// Whether each of the words passes the test.
fn words_pass<F: Fn(u32) -> bool>(words: &[u32], test: &F) -> bool
    ghost p: { ℕ → Bool }
    requires asked { F.IsAlwaysCallable test.now }
    requires told { (w : ℕ) (b : Bool) → F.post test.now w b → b ≡ p w }
    ensures { result ≡ all p words.now }
{
    words.iter().all(|w| test(*w))
}

// Whether each field of each record of the regions below a bound passes the test.
fn records_pass<F: Fn(u32) -> bool>(admitted: Admitted<'_>, below: usize, test: &F) -> bool
    ghost p: { ℕ → Bool }
    requires below { below ≤ 64 }
    requires asked { F.IsAlwaysCallable test.now }
    requires told { (w : ℕ) (b : Bool) → F.post test.now w b → b ≡ p w }
    ensures { let s = store admitted.entry.lent in result ≡ records_pass p s.ctl.n s.heap s.table below }
{
    let Lent {
        heap,
        table,
        control,
        ..
    } = admitted.lent;
    let n = control.n;
    let size = page_words(n);
    let pages = page_count(heap.len(), n) as u32;
    'regions: {
        for j in 0..below {
            let mut link = first_link(table, region_numbered(j), n);
            'pages: for _ in 0..pages {
                if link == 0 {
                    break 'pages;
                }
                if pages < link {
                    break 'pages;
                }
                let base = link_address(link, n);
                let end = address_behind(base, size);
                let mut at = address_behind(base, 2);
                'values: while at.0 < end.0 {
                    let i = at.0;
                    let head = heap[i];
                    if !fits(head, end.0 - (at.0 + 1)) {
                        break 'values;
                    }
                    let next = address_behind(at, 1 + (head / 8) as usize);
                    if !is_record(head) {
                        at = next;
                        continue 'values;
                    }
                    let first = address_behind(at, 1);
                    for w in &heap[first.0..next.0] {
                        if !test(*w) {
                            break 'regions false;
                        }
                    }
                    at = next;
                }
                let i = base.0;
                link = heap[i];
            }
        }
        true
    }
}

// Rule 6: each field of each record in the heap is a number or a good pointer.
pub fn rule6(admitted: Admitted<'_>) -> bool
    ensures { result ≡ rule6_of (store admitted.entry.lent) }
{
    let Lent {
        heap,
        consts,
        control,
        ..
    } = admitted.lent;
    let memory = Memory {
        heap,
        consts,
        c: control,
    };
    let good = move |w| good_word(memory, w);
    records_pass(admitted, control.regions as usize, &good)
}

// Rule 7: each root is a number or a good pointer.
pub fn rule7(admitted: Admitted<'_>) -> bool
    ensures { result ≡ rule7_of (store admitted.entry.lent) }
{
    let Lent {
        heap,
        roots,
        consts,
        control,
        ..
    } = admitted.lent;
    let memory = Memory {
        heap,
        consts,
        c: control,
    };
    let good = move |w| good_word(memory, w);
    words_pass(roots, &good)
}

// Whether no root, and no field of a record in a region below j, points into region j.
pub fn let_go(admitted: Admitted<'_>, j: Region) -> bool
    requires { j.0 ≤ 64 }
    ensures { let s = store admitted.entry.lent in result ≡ let_go s.ctl.n s.heap s.table s.roots j.0 }
{
    let Lent {
        heap,
        roots,
        control,
        ..
    } = admitted.lent;
    let apart = move |w| !points_into(heap, control.n, j, w);
    // as many regions lie below region j as its number says
    words_pass(roots, &apart) && records_pass(admitted, j.0, &apart)
}
