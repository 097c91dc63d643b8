// The used words of a region: what its values take, headers included, on a heap that passes the audit.

#![tactic(auto)]

ghost use Rattle.std.specs.Prelude.{◌≡◌, ◌+◌, ◌≤◌, ◌<◌, length};
ghost use Rattle.rules.specs.Audit.{used_by};
ghost use Rattle.rules.specs.Calls.{used_words};
ghost use Rattle.rules.specs.Memory.{store};
ghost use Rattle.rules.specs.Refusals.{Paged};
ghost use Rattle.rules.specs.Words.{vals_in, used_of};

use audit::audit;
use conversions::{address_behind, link_page, page_address};
use pages::{body_address, page_count, page_end};
use rows::first_link;
use rules::{Address, Control, Lent, Refusal, Refused, Region};
use values::fits;

// The words that the values take that stand back to back from one address up to another.
fn values_used(words: &[u32], start: Address, end: Address) -> usize
    requires { (start.0 ≤ end.0) × (end.0 ≤ length words.now) × (length words.now ≤ 65536) }
    ensures { (result ≡ used_of (vals_in words.now start.0 end.0)) × (start.0 + result ≤ end.0) }
{
    let mut at = start;
    let mut used = 0;
    while at.0 < end.0 {
        let i = at.0;
        let head = words[i];
        if !fits(head, end.0 - (at.0 + 1)) {
            return used;
        }
        let fields = (head / 8) as usize;
        used = used + 1 + fields;
        at = address_behind(at, 1 + fields);
    }
    used
}

// The used words of region j: each page of its chain, and no more pages than there are, so that a ring would end too.
fn region_used(heap: &[u32], table: &[u32], n: u32, j: Region) -> u32
    requires { (Paged n (length heap.now)) × (length table.now ≡ 256) × (j.0 < 64) }
    ensures { result ≡ used_by n heap.now table.now j.0 }
{
    let pages = page_count(heap.len(), n) as u32;
    let mut used: u32 = 0;
    let mut link = first_link(table, j, n);
    'pages: for _ in 0..pages {
        if link == 0 {
            break 'pages;
        }
        if pages < link {
            break 'pages;
        }
        let page = link_page(link);
        let words = values_used(heap, body_address(page, n), page_end(page, n));
        used += words as u32;
        let base = page_address(page, n);
        let i = base.0;
        link = heap[i];
    }
    used
}

// The used words of region j, dead values too.
#[tactic(auto, using(crate::proofs::Asked::used_broken, crate::proofs::Asked::used_within, crate::proofs::Asked::used_no_region, crate::proofs::Asked::used_counted))]
pub fn used_words(lent: Lent<'_>, j: Region) -> Result<(u32, Control), Refused>
    ensures { result ≡ used_words (store lent.entry) j.0 }
{
    audit(lent)?;
    let c = lent.control;
    if c.regions as usize <= j.0 {
        return Err(Refused {
            why: Refusal::NoRegion,
            control: c,
        });
    }
    Ok((region_used(lent.heap, lent.table, c.n, j), c))
}
