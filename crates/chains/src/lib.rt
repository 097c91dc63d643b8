// Rule 3: every page in exactly one chain.

#![tactic(auto)]

ghost use Rattle.std.specs.Prelude.{◌≡◌, ◌≤◌, ◌<◌, length};
ghost use Rattle.rules.specs.Memory.{store};
ghost use Rattle.rules.specs.Refusals.{Paged};
ghost use Rattle.rules.specs.Audit.{opens as opens_of, rule3 as rule3_of};
ghost use Rattle.chains.specs.Walked.{regions_chained, free_listed};

use conversions::{address_page, region_numbered, region_origin};
use limits::Admitted;
use pages::{page_count, page_words};
use rows::{first_link, first_of, link_address};
use rules::{Lent, Region};

// Whether a region's fp is the address of a page.
#[tactic(auto, using(laws::proofs::Tests::tests, rules::proofs::Limits::paged_size), unfolding(rules::specs::Audit::opens))]
fn opens(heap: &[u32], table: &[u32], j: Region, n: u32) -> bool
    requires { Paged n (length heap.now) × (length table.now ≡ 256) × (j.0 < 64) }
    ensures { result ≡ opens_of n heap.now table.now j.0 }
{
    let first = first_of(table, j);
    first.0 % page_words(n) == 0 && address_page(first, n).0 < page_count(heap.len(), n)
}

// The pages of the regions' chains, where each opens at a page, bears its region's origin and ends with link 0.
fn regions_chained(heap: &[u32], table: &[u32], n: u32, regions: usize) -> Option<usize>
    requires { Paged n (length heap.now) × (length table.now ≡ 256) × (regions ≤ 64) }
    ensures { result ≡ regions_chained n heap.now table.now regions }
{
    let pages = page_count(heap.len(), n) as u32;
    let mut passed: usize = 0;
    'regions: {
        for j in 0..regions {
            let region = region_numbered(j);
            if !opens(heap, table, region, n) {
                break 'regions None;
            }
            let origin = region_origin(region);
            let mut link = first_link(table, region, n);
            'pages: for _ in 0..pages {
                if link == 0 {
                    break 'pages;
                }
                if pages < link {
                    break 'pages;
                }
                let base = link_address(link, n);
                let i = base.0;
                if heap[i + 1] != origin {
                    break 'regions None;
                }
                passed += 1;
                link = heap[i];
            }
            if link != 0 {
                break 'regions None;
            }
        }
        Some(passed)
    }
}

// The pages of the free list and the link to the last of them, where they bear no origin and the list ends with link 0.
fn free_listed(heap: &[u32], n: u32, first: u32) -> Option<(usize, u32)>
    requires { Paged n (length heap.now) }
    ensures { result ≡ free_listed n heap.now first }
{
    let pages = page_count(heap.len(), n) as u32;
    let mut passed: usize = 0;
    let mut last: u32 = 0;
    let mut link = first;
    'pages: for _ in 0..pages {
        if link == 0 {
            break 'pages;
        }
        if pages < link {
            break 'pages;
        }
        let base = link_address(link, n);
        let i = base.0;
        if heap[i + 1] != 0 {
            return None;
        }
        passed += 1;
        last = link;
        link = heap[i];
    }
    if link != 0 {
        return None;
    }
    Some((passed, last))
}

// Rule 3: every page is in exactly one chain, a region's or the free list's, and the record agrees. Chains that end, whose pages bear
// their own origin, hold no page twice; so it is enough that their lengths add up to the pages that there are.
#[tactic(auto, using(laws::proofs::Tests::tests, crate::proofs::Three::three))]
pub fn rule3(admitted: Admitted<'_>) -> bool
    ensures { result ≡ rule3_of (store admitted.entry.lent) }
{
    let Lent {
        heap,
        table,
        control: c,
        ..
    } = admitted.lent;
    let Some(held) = regions_chained(heap, table, c.n, c.regions as usize) else {
        return false;
    };
    let Some((free, last)) = free_listed(heap, c.n, c.first) else {
        return false;
    };
    c.last == last && c.count as usize == free && held + free == page_count(heap.len(), c.n)
}
