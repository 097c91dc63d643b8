// The end of a collection that is done. Each function does what its definition in motion says.

#![tactic(auto)]

ghost use Rattle.std.specs.Prelude.{◌≡◌, ◌≤◌, ◌<◌, length};
ghost use Rattle.rules.specs.Memory.{page_count, row};
ghost use Rattle.rules.specs.Refusals.{Paged};
ghost use Rattle.motion.specs.Leaves.{desk};
ghost use Rattle.leaves.specs.Walks.{AllOf};
ghost use Rattle.motion.specs.Whole.{own, own_all, give_back, give_all, root_word, written_roots, written_table, record_by};

use conversions::{page_address, page_link, pointer_address, region_numbered, region_origin};
use leaves::chain::Chain;
use leaves::size::Pages;
use leaves::{link_start, low, word, write};
use motion::{FREE_FIRST, FREE_LAST, GIVEN, TAKEN};
use pages::clear_page;
use rules::{Control, Page, Region};

// Page k is one of region j's.
#[tactic(auto, unfolding(motion::specs::Whole::own))]
fn own(heap: &mut [u32], j: Region, k: Page, n: u32)
    requires { (n ≤ 8) × (j.0 ≤ 64) × (k.0 ≤ 65536) }
    ensures { heap.new ≡ own n j.0 k.0 heap.old }
{
    let start = page_address(k, n);
    write(heap, start.0 + 1, region_origin(j) as usize);
}

// The origins of all regions' new pages.
#[tactic(auto, using(leaves::proofs::Walks::walked), unfolding(laws::specs::Each::steps))]
pub fn own_all(heap: &mut [u32], notes: &[u32], regions: u32, pages: Pages)
    requires { regions ≤ 64 }
    ensures { heap.new ≡ own_all pages.n pages.count regions notes.now heap.old }
{
    for i in 0..regions as usize {
        let j = region_numbered(i);
        let mut chain = Chain::of_region(notes, j, pages);
        while let Some(k) = chain.next(heap) {
            own(heap, j, k, pages.n);
        }
    }
}

// Page k, cleared, at the back of the free list.
#[tactic(auto, unfolding(motion::specs::Whole::give_on, motion::specs::Whole::give_back))]
fn give_back(heap: &mut [u32], notes: &mut [u32], k: Page, n: u32)
    requires { (Paged n (length heap.old)) × (k.0 < page_count n heap.old) }
    ensures { desk heap.new notes.new ≡ give_back n k.0 (desk heap.old notes.old) }
{
    let first = word(notes, FREE_FIRST);
    let last = word(notes, FREE_LAST);
    let given = word(notes, GIVEN);
    let link = page_link(k) as usize;
    clear_page(heap, k, n);
    write(notes, GIVEN, low(given + 1));
    write(notes, FREE_LAST, link);
    if first == 0 {
        write(notes, FREE_FIRST, link);
        return;
    }
    let start = link_start(last, n);
    write(heap, start.0, link);
}

// The old pages of all regions, bottom region first, given back.
#[tactic(auto, using(leaves::proofs::Walks::walked), unfolding(laws::specs::Each::steps))]
pub fn give_all(heap: &mut [u32], notes: &mut [u32], table: &[u32], regions: u32, pages: Pages)
    requires { AllOf pages heap.old }
    ensures { desk heap.new notes.new ≡ give_all pages.n pages.count regions table.now (desk heap.old notes.old) }
{
    for i in 0..regions as usize {
        let mut chain = Chain::of_region(table, region_numbered(i), pages);
        while let Some(k) = chain.next(heap) {
            give_back(heap, notes, k, pages.n);
        }
    }
}

// The new word of a root.
#[tactic(auto, unfolding(motion::specs::Whole::root_word))]
fn root_word(heap: &[u32], w: u32) -> u32
    ensures { result ≡ root_word heap.now w }
{
    if w % 4 != 0 {
        return w;
    }
    word(heap, pointer_address(w).0) as u32
}

// The roots, by the forwards.
#[tactic(auto, using(laws::proofs::Copies::map_more))]
pub fn write_roots(heap: &[u32], roots: &mut [u32])
    ensures { roots.new ≡ written_roots heap.now roots.old }
{
    for w in roots.iter_mut() {
        *w = root_word(heap, *w);
    }
}

// The rows of the regions, from the notes.
pub fn write_table(table: &mut [u32], notes: &[u32], regions: u32)
    requires { (regions ≤ 64) × (row regions ≤ length table.old) × (row regions ≤ length notes.now) }
    ensures { table.new ≡ written_table regions notes.now table.old }
{
    let m = 4 * regions as usize;
    table[..m].copy_from_slice(&notes[..m]);
}

// The record, by the notes. The free pages are those that were free and were not taken, and those that were given back.
pub fn record_by(notes: &[u32], c: Control) -> Control
    ensures { result ≡ record_by c notes.now }
{
    let took = word(notes, TAKEN) as u32;
    let gave = word(notes, GIVEN) as u32;
    Control {
        first: word(notes, FREE_FIRST) as u32,
        last: word(notes, FREE_LAST) as u32,
        count: c.count.saturating_sub(took).wrapping_add(gave),
        ..c
    }
}
