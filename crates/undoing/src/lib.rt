// The undoing of a collection that lacks a page. Each function does what its definition in motion says.

#![tactic(auto)]

ghost use Rattle.std.specs.Prelude.{◌≡◌, ◌≤◌, ◌<◌, length};
ghost use Rattle.laws.specs.Each.{after};
ghost use Rattle.rules.specs.Memory.{page_count};
ghost use Rattle.rules.specs.Refusals.{Paged};
ghost use Rattle.leaves.specs.Walks.{AllOf};
ghost use Rattle.motion.specs.Whole.{undo_value, undo_page, undo_headers, relink, relink_all};

use conversions::{address_behind, page_address, pointer_address, region_numbered};
use leaves::chain::Chain;
use leaves::size::Pages;
use leaves::{word, write};
use pages::{body_address, clear_page, page_end, page_words};
use rules::{Address, Page};

// A forward at x becomes the header that the copy has kept. The next value's address.
#[tactic(auto, unfolding(motion::specs::Whole::undo_of))]
fn undo_value(heap: &mut [u32], x: Address) -> Address
    requires { x.0 ≤ 4294967296 }
    ensures { after result.0 heap.new ≡ undo_value x.0 heap.old }
{
    let w = word(heap, x.0);
    if w % 2 == 1 {
        return address_behind(x, w / 8 + 1);
    }
    let copy = pointer_address(w as u32);
    let head = word(heap, copy.0);
    write(heap, x.0, head);
    address_behind(x, head / 8 + 1)
}

// The headers of page k.
fn undo_page(heap: &mut [u32], k: Page, n: u32)
    requires { (4 ≤ n) × (n ≤ 8) × (k.0 ≤ 65536) }
    ensures { heap.new ≡ undo_page n k.0 heap.old }
{
    let past = page_end(k, n);
    let mut x = body_address(k, n);
    for _ in 0..page_words(n) {
        if past.0 <= x.0 {
            return;
        }
        let w = word(heap, x.0);
        if w == 0 {
            return;
        }
        x = undo_value(heap, x);
    }
}

// The headers of all regions' pages.
#[tactic(auto, using(leaves::proofs::Walks::walked), unfolding(laws::specs::Each::steps))]
pub fn undo_headers(heap: &mut [u32], table: &[u32], regions: u32, pages: Pages)
    requires { 4 ≤ pages.n }
    ensures { heap.new ≡ undo_headers pages.n pages.count regions table.now heap.old }
{
    for i in 0..regions as usize {
        let mut chain = Chain::of_region(table, region_numbered(i), pages);
        while let Some(k) = chain.next(heap) {
            undo_page(heap, k, pages.n);
        }
    }
}

// Page k free again, with the link that its origin word has kept.
#[tactic(auto, unfolding(motion::specs::Whole::relink, rules::specs::Memory::origin))]
fn relink(heap: &mut [u32], k: Page, n: u32)
    requires { (Paged n (length heap.old)) × (k.0 < page_count n heap.old) }
    ensures { heap.new ≡ relink n k.0 heap.old }
{
    let start = page_address(k, n);
    let link = word(heap, start.0 + 1);
    clear_page(heap, k, n);
    write(heap, start.0, link);
}

// The pages that were taken, from the link `first` on, free again.
#[tactic(auto, using(leaves::proofs::Walks::walked))]
pub fn relink_all(heap: &mut [u32], first: u32, taken: usize, pages: Pages)
    requires { AllOf pages heap.old }
    ensures { heap.new ≡ relink_all pages.n taken pages.count first heap.old }
{
    let mut chain = Chain::from_link(first, taken, pages);
    while let Some(k) = chain.next_taken(heap) {
        relink(heap, k, pages.n);
    }
}
