// Rule 5: values back to back, then zeros.

#![tactic(auto)]

ghost use Rattle.std.specs.Prelude.{◌≡◌, length};
ghost use Rattle.rules.specs.Memory.{store};
ghost use Rattle.rules.specs.Audit.{rule5 as rule5_of};

use conversions::{address_behind, region_numbered};
use limits::Admitted;
use pages::{page_count, page_words};
use rows::{first_link, link_address, top_of};
use rules::Lent;
use table_words::zero_between;
use values::fits;

// Rule 5: in each page of a region values stand back to back from the third word, then zeros; in the last page they end at a.
pub fn rule5(admitted: Admitted<'_>) -> bool
    ensures { result ≡ rule5_of (store admitted.entry.lent) }
{
    let Lent {
        heap,
        table,
        control: c,
        ..
    } = admitted.lent;
    let n = c.n;
    let regions = c.regions as usize;
    let size = page_words(n);
    let pages = page_count(heap.len(), n) as u32;
    'regions: {
        for j in 0..regions {
            let region = region_numbered(j);
            let top = top_of(table, region);
            let mut link = first_link(table, region, n);
            'pages: for _ in 0..pages {
                if link == 0 {
                    break 'pages;
                }
                if pages < link {
                    break 'pages;
                }
                let base = link_address(link, n);
                let end = address_behind(base, size);
                let mut at = address_behind(base, 2);
                'values: while at.0 < end.0 {
                    let i = at.0;
                    let head = heap[i];
                    if !fits(head, end.0 - (at.0 + 1)) {
                        break 'values;
                    }
                    at = address_behind(at, 1 + (head / 8) as usize);
                }
                if !zero_between(heap, at, end) {
                    break 'regions false;
                }
                let i = base.0;
                link = heap[i];
                if 0 < link {
                    continue 'pages;
                }
                if at.0 != top.0 {
                    break 'regions false;
                }
            }
        }
        true
    }
}
