// Headers, good pointers, and the value that a pointer names.

#![tactic(auto)]

ghost use Rattle.std.specs.Prelude.{◌≡◌, true, [], ◌+◌, ◌-◌, ◌/◌, ◌≤◌, ◌<◌, length};
ghost use Rattle.laws.specs.Lists.{at};
ghost use Rattle.rules.specs.Refusals.{Paged};
ghost use Rattle.rules.specs.Words.{fits as fits_in, is_record, vals_in, stands_at, good_heap, good_const, good_in, value_at, look as look_of};

use conversions::{address_behind, address_numbered, address_page, page_address, pointer_address};
use pages::{body_address, page_end};
use rules::{Address, Control};

// Whether h is the header of a value that fits into the m words that follow it.
#[tactic(auto, using(rules::proofs::Headers::fits_rec, rules::proofs::Headers::fits_raw, rules::proofs::Headers::fits_not))]
pub fn fits(h: u32, m: usize) -> bool
    ensures { result ≡ fits_in h m }
{
    matches!(h % 8, 1 | 3) && (h / 8) as usize <= m
}

// Whether h is a record's header.
pub fn is_record(h: u32) -> bool
    ensures { result ≡ is_record h }
{
    h % 8 == 1
}

// Whether stepping by headers, from one address up to another, lands on address a.
fn stands(words: &[u32], start: Address, end: Address, a: Address) -> bool
    requires { (end.0 ≤ length words.now) × (length words.now ≤ 65536) }
    ensures { result ≡ stands_at a.0 (vals_in words.now start.0 end.0) }
{
    let mut at = start;
    while at.0 < end.0 {
        let i = at.0;
        let h = words[i];
        if !fits(h, end.0 - (i + 1)) {
            return false;
        }
        if a.0 == at.0 {
            return true;
        }
        at = address_behind(at, 1 + (h / 8) as usize);
    }
    false
}

// Whether a pointer to heap address a is good.
pub fn good_heap(heap: &[u32], n: u32, regions: u32, a: Address) -> bool
    requires { Paged n (length heap.now) }
    ensures { result ≡ good_heap n regions heap.now a.0 }
{
    if heap.len() <= a.0 {
        return false;
    }
    let page = address_page(a, n);
    let base = page_address(page, n);
    let origin = heap[base.0 + 1];
    if origin < 1 {
        return false;
    }
    if regions < origin {
        return false;
    }
    let start = body_address(page, n);
    let end = page_end(page, n);
    stands(heap, start, end, a)
}

// Whether a pointer to constant address a is good.
pub fn good_const(consts: &[u32], a: Address) -> bool
    requires { length consts.now ≤ 65535 }
    ensures { result ≡ good_const consts.now a.0 }
{
    stands(
        consts,
        address_numbered(0),
        address_numbered(consts.len()),
        a,
    )
}

// What words are judged against: the heap and the constants, and the record that says the page exponent and the regions.
#[derive(Clone, Copy)]
pub struct Memory<'a> {
    pub heap: &'a [u32],
    pub consts: &'a [u32],
    pub c: Control,
    pub ghost paged: { Paged c.n (length heap.now) },
    pub ghost few: { length consts.now ≤ 65535 },
}

// Whether a word is a number or a good pointer. It is laid into its callers: the audit asks it of each root and each field, and called, it would have
// the memory copied for each of them.
#[inline(always)]
pub fn good_word(memory: Memory<'_>, w: u32) -> bool
    ensures { let m = memory.entry in result ≡ good_in m.c.n m.c.regions m.heap.now m.consts.now w }
{
    if w % 4 == 0 {
        return good_heap(
            memory.heap,
            memory.c.n,
            memory.c.regions,
            pointer_address(w),
        );
    }
    if w % 4 == 2 {
        return good_const(memory.consts, pointer_address(w));
    }
    true
}

// The part of no words.
pub fn nothing<'a>(memory: &'a [u32]) -> &'a [u32]
    ensures { result.now ≡ [] }
{
    &memory[0..0]
}

// The end of the value at `from` that has the header h.
fn value_end(from: usize, h: u32) -> usize
    requires { from < 9223372036854775808 }
    ensures { result ≡ from + 1 + h / 8 }
{
    from + 1 + (h / 8) as usize
}

// The value at address a, which fits: its header and words.
fn value_at<'a>(memory: &'a [u32], a: Address) -> &'a [u32]
    requires { (a.0 < length memory.now) × (fits_in (at memory.now a.0) (length memory.now - (a.0 + 1)) ≡ true) }
    ensures { result.now ≡ value_at memory.now a.0 }
{
    let from = a.0;
    let to = value_end(from, memory[from]);
    &memory[from..to]
}

// The value that a word points to, in the heap or in the constants; no words where it is no good pointer.
pub fn look<'a>(memory: Memory<'a>, w: u32) -> &'a [u32]
    ensures { let m = memory.entry in result.now ≡ look_of m.c.n m.c.regions m.heap.now m.consts.now w }
{
    let a = pointer_address(w);
    if w % 4 == 0 {
        if !good_heap(memory.heap, memory.c.n, memory.c.regions, a) {
            return nothing(memory.heap);
        }
        return value_at(memory.heap, a);
    }
    if w % 4 == 2 {
        if !good_const(memory.consts, a) {
            return nothing(memory.consts);
        }
        return value_at(memory.consts, a);
    }
    nothing(memory.heap)
}
