// Allocation: the tests of a value and of its region, and the value into the region.

#![tactic(auto)]

ghost use Rattle.std.specs.Prelude.{◌≡◌, ◌≤◌, ◌<◌, ℕ, List, length};
ghost use Rattle.laws.specs.Lists.{all};
ghost use Rattle.rules.specs.Memory.{lent};
ghost use Rattle.rules.specs.Words.{good_in};
ghost use Rattle.rules.specs.Refusals.{Paged, outcome};
ghost use Rattle.rules.specs.Calls.{row_fits, header_for, words_fit, allocate as allocate_of};

use conversions::address_behind;
use limits::first_tests;
use pages::page_words;
use placing::put_value;
use rows::{end_of, top_of};
use rules::{Control, Kind, Refusal, Refused, Region};
use values::{Memory, good_word};

// Whether region j's e and a are fit for an allocation: e is a multiple of P from P to NP, a lies from e-P+2 to e.
#[tactic(auto, using(laws::proofs::Tests::tests), unfolding(rules::specs::Calls::row_fits, rules::specs::Audit::top_fits))]
fn row_fits(heap: &[u32], table: &[u32], j: Region, n: u32) -> bool
    requires { (length table.now ≡ 256) × (j.0 < 64) × (4 ≤ n) × (n ≤ 8) }
    ensures { result ≡ row_fits n heap.now table.now j.0 }
{
    let p = page_words(n);
    let e = end_of(table, j);
    let a = top_of(table, j);
    e.0 % p == 0
        && p <= e.0
        && e.0 <= heap.len()
        && address_behind(e, 2).0 <= address_behind(a, p).0
        && a.0 <= e.0
}

// Whether each word is a number or a good pointer.
fn good_words(memory: Memory<'_>, words: &[u32]) -> bool
    ensures { let m = memory.entry in result ≡ all (good_in m.c.n m.c.regions m.heap.now m.consts.now) words.now }
{
    words.iter().all(|w| good_word(memory, *w))
}

// Whether the words may stand in a value of this kind.
fn words_fit(heap: &[u32], consts: &[u32], c: Control, kind: Kind, words: &[u32]) -> bool
    requires { (Paged c.n (length heap.now)) × (length consts.now ≤ 65535) }
    ensures { (t r : List ℕ) → result ≡ words_fit (lent heap.now t r consts.now c) kind words.now }
{
    match kind {
        Kind::Record => good_words(Memory { heap, consts, c }, words),
        Kind::Raw => true,
    }
}

// The header of a value of l words.
fn header_for(kind: Kind, l: usize) -> u32
    requires { l ≤ 65536 }
    ensures { result ≡ header_for kind l }
{
    match kind {
        Kind::Record => 8 * (l as u32) + 1,
        Kind::Raw => 8 * (l as u32) + 3,
    }
}

// A value of this kind, of these words, into region j.
pub fn allocate(
    heap: &mut [u32],
    table: &mut [u32],
    roots: &[u32],
    consts: &[u32],
    c: Control,
    j: Region,
    kind: Kind,
    words: &[u32],
) -> Result<(u32, Control), Refused>
    ensures { outcome result heap.new table.new roots.now consts.now ≡ allocate_of (lent heap.old table.old roots.now consts.now c) j.0 kind words.now }
{
    first_tests(heap.len(), table.len(), roots.len(), consts.len(), c)?;
    if c.regions as usize <= j.0 {
        return Err(Refused {
            why: Refusal::NoRegion,
            control: c,
        });
    }
    if !row_fits(heap, table, j, c.n) {
        return Err(Refused {
            why: Refusal::Broken(0),
            control: c,
        });
    }
    if page_words(c.n) - 3 < words.len() {
        return Err(Refused {
            why: Refusal::TooLong,
            control: c,
        });
    }
    if !words_fit(heap, consts, c, kind, words) {
        return Err(Refused {
            why: Refusal::NotGood,
            control: c,
        });
    }
    put_value(heap, table, c, j, header_for(kind, words.len()), words)
}
