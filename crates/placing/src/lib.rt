// A value placed into a region: at its a, or in a page more that is taken and linked.

#![tactic(auto)]

ghost use Rattle.std.specs.Prelude.{◌≡◌, ◌+◌, ◌-◌, ◌^◌, ◌≤◌, ◌<◌, ℕ, suc, List, ◌∷◌, length, set};
ghost use Rattle.laws.specs.Lists.{put};
ghost use Rattle.rules.specs.Memory.{lent, page_count, page_link, page_end, body_address, region_origin, set_link, set_origin, end_of, top_of, set_end, set_top};
ghost use Rattle.rules.specs.Refusals.{Paged, outcome};
ghost use Rattle.rules.specs.Calls.{allocate_in};
ghost use Rattle.placing.specs.Placing.{Fit};

use conversions::{
    address_before, address_behind, address_pointer, link_page, page_address, page_link,
    region_origin,
};
use pages::{body_address, free_after, link_fits, page_end, page_words};
use rows::{end_of, set_end, set_top, top_of};
use rules::{Address, Control, Page, Refusal, Refused, Region};

// The words at address a.
fn put_words(heap: &mut [u32], a: Address, words: &[u32])
    requires { (a.0 + length words.now ≤ length heap.old) × (length heap.old ≤ 65536) }
    ensures { heap.new ≡ put heap.old a.0 words.now }
{
    let from = a.0;
    let to = from + words.len();
    heap[from..to].copy_from_slice(words);
}

// A value at region j's a, which is given.
fn store_value(
    heap: &mut [u32],
    table: &mut [u32],
    j: Region,
    a: Address,
    header: u32,
    words: &[u32],
)
    requires { (a.0 + length words.now + 1 ≤ length heap.old) × (length heap.old ≤ 65536) × (length table.old ≡ 256) × (j.0 < 64) }
    ensures { (heap.new ≡ put heap.old a.0 (header ∷ words.now)) × (table.new ≡ set_top table.old j.0 (a.0 + suc (length words.now))) }
{
    let i = a.0;
    heap[i] = header;
    put_words(heap, address_behind(a, 1), words);
    set_top(table, j, address_behind(a, words.len() + 1));
}

// The page at `start` becomes the one after the page at `before`: link 0 and its origin first, then the page before it is linked to it.
fn append_page(heap: &mut [u32], start: Address, origin: u32, before: Address, link: u32)
    requires { (start.0 + 1 < length heap.old) × (before.0 < length heap.old) × (length heap.old ≤ 65536) }
    ensures { heap.new ≡ set (set (set heap.old start.0 0) (start.0 + 1) origin) before.0 link }
{
    let i_start = start.0;
    let i_before = before.0;
    heap[i_start] = 0;
    heap[i_start + 1] = origin;
    heap[i_before] = link;
}

// Page k becomes region j's last page, after the one that ends at its e.
fn join_page(heap: &mut [u32], table: &mut [u32], j: Region, k: Page, n: u32)
    requires { (Paged n (length heap.old)) × (k.0 < page_count n heap.old) × (length table.old ≡ 256) × (j.0 < 64) × (2 ^ n ≤ end_of table.old j.0) × (end_of table.old j.0 ≤ length heap.old) }
    ensures { (heap.new ≡ set (set_origin n (set_link n heap.old k.0 0) k.0 (region_origin j.0)) (end_of table.old j.0 - 2 ^ n) (page_link k.0)) × (table.new ≡ set_top (set_end table.old j.0 (page_end n k.0)) j.0 (body_address n k.0)) }
{
    let start = page_address(k, n);
    let e = end_of(table, j);
    let before = address_before(e, page_words(n));
    append_page(heap, start, region_origin(j), before, page_link(k));
    set_end(table, j, page_end(k, n));
    set_top(table, j, body_address(k, n));
}

// A value into a page more of region j, which is taken and linked.
fn put_further(
    heap: &mut [u32],
    table: &mut [u32],
    c: Control,
    j: Region,
    header: u32,
    words: &[u32],
) -> Result<(u32, Control), Refused>
    requires { (Fit heap.old table.old c j.0 (length words.now)) × (end_of table.old j.0 < top_of table.old j.0 + suc (length words.now)) }
    ensures { (r k : List ℕ) → outcome result heap.new table.new r k ≡ allocate_in (lent heap.old table.old r k c) j.0 (header ∷ words.now) }
{
    if c.count == 0 {
        return Err(Refused {
            why: Refusal::NoPage,
            control: c,
        });
    }
    let k = link_page(c.first);
    if !link_fits(heap, k, c.n, c.count) {
        return Err(Refused {
            why: Refusal::Broken(0),
            control: c,
        });
    }
    let rest = free_after(heap, k, c);
    join_page(heap, table, j, k, c.n);
    let body = body_address(k, c.n);
    store_value(heap, table, j, body, header, words);
    Ok((address_pointer(body), rest))
}

// A value into region j: at its a if it fits before e, else into a page more.
pub fn put_value(
    heap: &mut [u32],
    table: &mut [u32],
    c: Control,
    j: Region,
    header: u32,
    words: &[u32],
) -> Result<(u32, Control), Refused>
    requires { Fit heap.old table.old c j.0 (length words.now) }
    ensures { (r k : List ℕ) → outcome result heap.new table.new r k ≡ allocate_in (lent heap.old table.old r k c) j.0 (header ∷ words.now) }
{
    let a = top_of(table, j);
    let e = end_of(table, j);
    let behind = address_behind(a, words.len() + 1);
    if e.0 < behind.0 {
        return put_further(heap, table, c, j, header, words);
    }
    store_value(heap, table, j, a, header, words);
    Ok((address_pointer(a), c))
}
