// Setting up: all words 0, every root 1, and every page free, in rising order.

#![tactic(auto)]

ghost use Rattle.std.specs.Prelude.{◌≡◌, ◌*◌, ◌^◌, ◌≤◌, length, replicate};
ghost use Rattle.rules.specs.Memory.{page_count};
ghost use Rattle.rules.specs.Refusals.{Paged, outcome};
ghost use Rattle.rules.specs.Calls.{set_up, fresh_pages};

use conversions::{page_address, page_link, page_numbered};
use limits::within_limits;
use pages::{clear, page_count};
use rules::{Control, Refusal};

// Links the pages of a cleared heap in rising order.
fn list_pages(heap: &mut [u32], n: u32)
    requires { (Paged n (length heap.old)) × (2 * 2 ^ n ≤ length heap.old) × (heap.old ≡ replicate (length heap.old) 0) }
    ensures { heap.new ≡ fresh_pages n (page_count n heap.old) 0 }
{
    let last = page_count(heap.len(), n) - 1;
    for k in 0..last {
        let start = page_address(page_numbered(k), n);
        let i = start.0;
        heap[i] = page_link(page_numbered(k + 1));
    }
}

// A new heap: no region, each page free.
pub fn set_up(
    heap: &mut [u32],
    table: &mut [u32],
    roots: &mut [u32],
    consts: &[u32],
    n: u32,
) -> Result<Control, Refusal>
    ensures { outcome result heap.new table.new roots.new consts.now ≡ set_up n heap.old table.old roots.old consts.now }
{
    if !within_limits(n, heap.len(), table.len(), roots.len(), consts.len()) {
        return Err(Refusal::Limits);
    }
    let pages = page_count(heap.len(), n);
    clear(heap);
    list_pages(heap, n);
    clear(table);
    roots.fill(1);
    let last = page_link(page_numbered(pages - 1));
    Ok(Control {
        n,
        regions: 0,
        first: page_link(page_numbered(0)),
        last,
        count: pages as u32,
    })
}
