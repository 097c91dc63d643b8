// Walks along the chains of a heap's pages.

ghost use Rattle.std.specs.Prelude.{◌≡◌, ◌<◌, MatchOption};
ghost use Rattle.rules.specs.Memory.{first_link, link, origin};
ghost use Rattle.leaves.specs.Walks.{Over, Passed, link_to};

use crate::size::Pages;
use crate::{first_of, word};
use conversions::{address_page, link_page, page_address};
use rules::{Page, Region};

// What is left of a walk along a chain: the page that comes next, if any, and how many pages may still be passed.
#[derive(Clone, Copy)]
pub struct Chain {
    pub page: Option<Page>,
    pub left: usize,
    pub pages: Pages,
}

// The page that a link names.
fn page_at(link: usize) -> Option<Page>
    requires { link < 4294967296 }
    ensures { link_to result ≡ link }
{
    if link == 0 {
        return None;
    }
    Some(link_page(link as u32))
}

impl Chain {
    // Region j's chain, by its row.
    pub fn of_region(rows: &[u32], j: Region, pages: Pages) -> Chain
        requires { j.0 < 4294967296 }
        ensures { (link_to result.page ≡ first_link pages.n rows.now j.0) × (result.left ≡ pages.count) × (result.pages ≡ pages) }
    {
        let fp = first_of(rows, j);
        Chain {
            page: Some(address_page(fp, pages.n)),
            left: pages.count,
            pages,
        }
    }

    // At most so many pages, from the one that a link names on.
    pub fn from_link(first: u32, most: usize, pages: Pages) -> Chain
        ensures { (link_to result.page ≡ first) × (result.left ≡ most) × (result.pages ≡ pages) }
    {
        Chain {
            page: page_at(first as usize),
            left: most,
            pages,
        }
    }

    // The page to pass, if it is one of the pages and may be passed.
    fn pass(&self) -> Option<Page>
        ensures { MatchOption result (Over self.now)
            (λ k. (0 < self.now.left) × (k.0 < self.now.pages.count) × (link_to self.now.page ≡ link_to (Some k))) }
    {
        let k = self.page?;
        if self.left == 0 || self.pages.count <= k.0 {
            return None;
        }
        Some(k)
    }

    // The next page. Its link is read at once, so that the page may be changed.
    pub fn next(&mut self, heap: &[u32]) -> Option<Page>
        ensures { MatchOption result ((self.new ≡ self.old) × Over self.old) (λ k. Passed self.old self.new k.0 (link self.old.pages.n heap.now k.0)) }
    {
        let k = self.pass()?;
        let start = page_address(k, self.pages.n);
        self.page = page_at(word(heap, start.0));
        self.left -= 1;
        Some(k)
    }

    // The next page of those that were taken: their origin words keep their links.
    pub fn next_taken(&mut self, heap: &[u32]) -> Option<Page>
        ensures { MatchOption result ((self.new ≡ self.old) × Over self.old) (λ k. Passed self.old self.new k.0 (origin self.old.pages.n heap.now k.0)) }
    {
        let k = self.pass()?;
        let start = page_address(k, self.pages.n);
        self.page = page_at(word(heap, start.0 + 1));
        self.left -= 1;
        Some(k)
    }
}
