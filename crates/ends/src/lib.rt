// Rules 4 and 9 of the audit: where each region ends, and that free pages are clean.

#![tactic(auto)]

ghost use Rattle.std.specs.Prelude.{◌≡◌, ◌≤◌, ◌<◌, length};
ghost use Rattle.rules.specs.Memory.{store};
ghost use Rattle.rules.specs.Audit.{top_fits, rule4 as rule4_of, rule9 as rule9_of};

use conversions::{address_behind, region_numbered};
use limits::Admitted;
use pages::{page_count, page_words};
use rows::{end_of, first_link, link_address, top_of};
use rules::{Lent, Region};
use table_words::zero_between;

// Whether a region's a lies from e-P+2 to e.
#[tactic(auto, using(laws::proofs::Tests::tests, rules::proofs::Limits::page_size), unfolding(rules::specs::Audit::top_fits))]
fn top_fits(table: &[u32], j: Region, n: u32) -> bool
    requires { (length table.now ≡ 256) × (j.0 < 64) × (4 ≤ n) × (n ≤ 8) }
    ensures { result ≡ top_fits n table.now j.0 }
{
    let end = end_of(table, j);
    let top = top_of(table, j);
    address_behind(end, 2).0 <= address_behind(top, page_words(n)).0 && top.0 <= end.0
}

// Rule 4: the chain's last page starts at e-P, a lies from e-P+2 to e.
pub fn rule4(admitted: Admitted<'_>) -> bool
    ensures { result ≡ rule4_of (store admitted.entry.lent) }
{
    let Lent {
        heap,
        table,
        control: c,
        ..
    } = admitted.lent;
    let n = c.n;
    let regions = c.regions as usize;
    let size = page_words(n);
    let pages = page_count(heap.len(), n) as u32;
    'regions: {
        for j in 0..regions {
            let region = region_numbered(j);
            if !top_fits(table, region, n) {
                break 'regions false;
            }
            let end = end_of(table, region);
            let mut link = first_link(table, region, n);
            'pages: for _ in 0..pages {
                if link == 0 {
                    break 'pages;
                }
                if pages < link {
                    break 'pages;
                }
                let base = link_address(link, n);
                let i = base.0;
                link = heap[i];
                if 0 < link {
                    continue 'pages;
                }
                if end.0 != address_behind(base, size).0 {
                    break 'regions false;
                }
            }
        }
        true
    }
}

// Rule 9: a free page is all zero but its link.
pub fn rule9(admitted: Admitted<'_>) -> bool
    ensures { result ≡ rule9_of (store admitted.entry.lent) }
{
    let Lent {
        heap,
        control: c,
        ..
    } = admitted.lent;
    let n = c.n;
    let first = c.first;
    let size = page_words(n);
    let pages = page_count(heap.len(), n) as u32;
    let mut link = first;
    'pages: for _ in 0..pages {
        if link == 0 {
            break 'pages;
        }
        if pages < link {
            break 'pages;
        }
        let base = link_address(link, n);
        if !zero_between(heap, address_behind(base, 1), address_behind(base, size)) {
            return false;
        }
        let i = base.0;
        link = heap[i];
    }
    true
}
