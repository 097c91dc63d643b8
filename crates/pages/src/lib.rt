// The size and the number of pages, clearing a part and whether it is clear, a page as a part, clearing a page, taking a page.

#![tactic(auto)]

ghost use Rattle.std.specs.Prelude.{◌≡◌, ◌+◌, ◌-◌, ◌/◌, ◌^◌, ◌≤◌, ◌<◌, ℕ, List, length, replicate};
ghost use Rattle.std.proofs.Math.Option.{some};
ghost use Rattle.laws.specs.Lists.{zeros};
ghost use Rattle.rules.specs.Memory.{control, page_count, page_words, link, link_page, body_address, page_end};
ghost use Rattle.rules.specs.Refusals.{Paged};
ghost use Rattle.rules.specs.Pages.{last_if, link_fits, take_page, clear_page};
ghost use Rattle.pages.specs.Taking.{PageFree, run_of};

use conversions::{address_behind, page_address, region_origin};
use rules::{Address, Control, Page, Region};

// The words of a page.
pub fn page_words(n: u32) -> usize
    requires { (4 ≤ n) × (n ≤ 8) }
    ensures { result ≡ 2 ^ n }
{
    1usize << n
}

// The pages of a heap of h words.
pub fn page_count(h: usize, n: u32) -> usize
    requires { n ≤ 8 }
    ensures { result ≡ h / 2 ^ n }
{
    h >> n
}

// The address just past a page.
pub fn page_end(k: Page, n: u32) -> Address
    requires { (k.0 ≤ 65536) × (4 ≤ n) × (n ≤ 8) }
    ensures { result.0 ≡ page_end n k.0 }
{
    address_behind(page_address(k, n), page_words(n))
}

// The address of a page's third word.
pub fn body_address(k: Page, n: u32) -> Address
    requires { (k.0 ≤ 65536) × (n ≤ 8) }
    ensures { result.0 ≡ body_address n k.0 }
{
    address_behind(page_address(k, n), 2)
}

// Clears what it is lent.
pub fn clear(part: &mut [u32])
    ensures { part.new ≡ replicate (length part.old) 0 }
{
    part.fill(0);
}

// Whether all words of a part are 0.
pub fn all_zero(words: &[u32]) -> bool
    ensures { result ≡ zeros words.now }
{
    words.iter().all(|w| *w == 0)
}

// The place just past the page that starts at `from`.
fn past_page(from: usize, n: u32) -> usize
    requires { (4 ≤ n) × (n ≤ 8) × (from + 2 ^ n ≤ 65536) }
    ensures { result ≡ from + 2 ^ n }
{
    from + page_words(n)
}

// The words of page k, as a part of the heap.
pub fn page_part<'a>(heap: &'a [u32], n: u32, k: Page) -> &'a [u32]
    requires { (Paged n (length heap.now)) × (k.0 < page_count n heap.now) }
    ensures { (result.now ≡ page_words n heap.now k.0) × (length result.now ≤ 256) }
{
    let start = page_address(k, n);
    let from = start.0;
    let to = past_page(from, n);
    &heap[from..to]
}

// Clears page k: its words, and no others, are lent.
pub fn clear_page(heap: &mut [u32], k: Page, n: u32)
    requires { (Paged n (length heap.old)) × (k.0 < page_count n heap.old) }
    ensures { heap.new ≡ clear_page n heap.old k.0 }
{
    let start = page_address(k, n);
    let from = start.0;
    let to = past_page(from, n);
    clear(&mut heap[from..to]);
}

// Whether page k, the first of count free pages, has a link that fits: it is at most N, and 0 exactly when the page is the last.
pub fn link_fits(heap: &[u32], k: Page, n: u32, count: u32) -> bool
    requires { (Paged n (length heap.now)) × (k.0 < page_count n heap.now) }
    ensures { result ≡ link_fits n heap.now k.0 count }
{
    let start = page_address(k, n);
    let i = start.0;
    let link = heap[i];
    if page_count(heap.len(), n) < link as usize {
        return false;
    }
    (link == 0) == (count == 1)
}

// The record once page k, the first free one, is taken.
#[tactic(auto, using(rules::proofs::Pages::last_none, rules::proofs::Pages::last_stays), unfolding(rules::specs::Memory::link))]
pub fn free_after(heap: &[u32], k: Page, c: Control) -> Control
    requires { (PageFree (length heap.now) c) × (k.0 ≡ link_page c.first) }
    ensures { result ≡ control c.n c.regions (link c.n heap.now k.0) (last_if (c.count - 1) c.last) (c.count - 1) }
{
    let start = page_address(k, c.n);
    let i = start.0;
    let last = if c.count == 1 { 0 } else { c.last };
    Control {
        first: heap[i],
        last,
        count: c.count - 1,
        ..c
    }
}

// Page k, the first free one, becomes one of region j: link 0, then its origin.
pub fn take_page(heap: &mut [u32], k: Page, j: Region, c: Control) -> Control
    requires { (PageFree (length heap.old) c) × (k.0 ≡ link_page c.first) × (j.0 ≤ 64) }
    ensures run { (t : List ℕ) → some (k.0, run_of heap.new t result) ≡ take_page c.n j.0 (run_of heap.old t c) }
    ensures same { (result.n ≡ c.n) × (result.regions ≡ c.regions) }
{
    let rest = free_after(heap, k, c);
    let start = page_address(k, c.n);
    let i = start.0;
    heap[i] = 0;
    heap[i + 1] = region_origin(j);
    rest
}
