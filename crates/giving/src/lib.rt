// Pages given back to the free list: one, and a region's chain.

#![tactic(auto)]

ghost use Rattle.std.specs.Prelude.{◌<◌, length};
ghost use Rattle.rules.specs.Memory.{page_count};
ghost use Rattle.rules.specs.Pages.{give_back};
ghost use Rattle.giving.specs.Giving.{Free, Left, give_chain};

use conversions::{link_page, page_link};
use pages::{clear_page, page_count};
use rows::link_address;
use rules::{Control, Page};

// Page k, cleared, at the back of the free list. The record with the list as it is then.
fn give_back(heap: &mut [u32], k: Page, c: Control) -> Control
    requires { (Free (length heap.old) 1 c) × (k.0 < page_count c.n heap.old) }
    ensures { Left (give_back c.n k.0) heap.old c heap.new result }
{
    let link = page_link(k);
    let given = Control {
        last: link,
        count: c.count + 1,
        ..c
    };
    clear_page(heap, k, c.n);
    if c.last == 0 {
        return Control {
            first: link,
            ..given
        };
    }
    let start = link_address(c.last, c.n);
    let i = start.0;
    heap[i] = link;
    given
}

// The pages from a link on, given back in the order of their chain. A page's link is read before the page is cleared.
pub fn give_chain(heap: &mut [u32], first: u32, c: Control) -> Control
    requires { Free (length heap.old) (page_count c.n heap.old) c }
    ensures { Left (give_chain c.n (page_count c.n heap.old) first) heap.old c heap.new result }
{
    let pages = page_count(heap.len(), c.n) as u32;
    let mut free = c;
    let mut link = first;
    'pages: for _ in 0..pages {
        if link == 0 {
            break 'pages;
        }
        if pages < link {
            break 'pages;
        }
        let k = link_page(link);
        let start = link_address(link, c.n);
        let i = start.0;
        link = heap[i];
        free = give_back(heap, k, free);
    }
    free
}
