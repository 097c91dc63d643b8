// Push: a region more, with a page of its own.

#![tactic(auto)]

ghost use Rattle.std.specs.Prelude.{◌≡◌};
ghost use Rattle.rules.specs.Memory.{lent};
ghost use Rattle.rules.specs.Refusals.{outcome};
ghost use Rattle.rules.specs.Calls.{push as push_of};

use conversions::{link_page, page_address, region_numbered};
use limits::first_tests;
use pages::{body_address, link_fits, page_end, take_page};
use rows::set_row;
use rules::{Control, Refusal, Refused};

// A region more, with one page.
pub fn push(
    heap: &mut [u32],
    table: &mut [u32],
    roots: &[u32],
    consts: &[u32],
    c: Control,
) -> Result<Control, Refused>
    ensures { outcome result heap.new table.new roots.now consts.now ≡ push_of (lent heap.old table.old roots.now consts.now c) }
{
    first_tests(heap.len(), table.len(), roots.len(), consts.len(), c)?;
    if 64 <= c.regions {
        return Err(Refused {
            why: Refusal::RegionsFull,
            control: c,
        });
    }
    if c.count == 0 {
        return Err(Refused {
            why: Refusal::NoPage,
            control: c,
        });
    }
    let k = link_page(c.first);
    if !link_fits(heap, k, c.n, c.count) {
        return Err(Refused {
            why: Refusal::Broken(0),
            control: c,
        });
    }
    let j = region_numbered(c.regions as usize);
    let taken = take_page(heap, k, j, c);
    set_row(
        table,
        j,
        page_end(k, c.n),
        page_address(k, c.n),
        body_address(k, c.n),
        0,
    );
    let regions = c.regions + 1;
    Ok(Control { regions, ..taken })
}
