// Popping the top region: its pages go back to the free list, and its table words become 0.

#![tactic(auto)]

ghost use Rattle.std.specs.Prelude.{◌≡◌};
ghost use Rattle.rules.specs.Calls.{pop as pop_of};
ghost use Rattle.rules.specs.Memory.{lent};
ghost use Rattle.rules.specs.Refusals.{outcome};

use audit::audit;
use conversions::region_numbered;
use fields::let_go;
use giving::give_chain;
use limits::admit;
use rows::{clear_row, first_link};
use rules::{Control, Lent, Refusal, Refused};

// The top region's pages are free again, and its table words are 0. Refused while a root, or a field of a record in another region, points
// into it.
#[tactic(auto, using(crate::proofs::Popped::pop_early, crate::proofs::Popped::pop_broken, crate::proofs::Popped::passed_free, crate::proofs::Popped::pop_none, crate::proofs::Popped::pop_held, crate::proofs::Popped::pop_done))]
pub fn pop(
    heap: &mut [u32],
    table: &mut [u32],
    roots: &[u32],
    consts: &[u32],
    c: Control,
) -> Result<Control, Refused>
    ensures { outcome result heap.new table.new roots.now consts.now
        ≡ pop_of (lent heap.old table.old roots.now consts.now c) }
{
    let entered = Lent {
        heap,
        table,
        roots,
        consts,
        control: c,
    };
    let admitted = admit(entered)?;
    audit(entered)?;
    if c.regions == 0 {
        return Err(Refused {
            why: Refusal::NoRegion,
            control: c,
        });
    }
    let below = c.regions - 1;
    let j = region_numbered(below as usize);
    if !let_go(admitted, j) {
        return Err(Refused {
            why: Refusal::Held,
            control: c,
        });
    }
    let first = first_link(table, j, c.n);
    let free = give_chain(heap, first, c);
    clear_row(table, j);
    Ok(Control {
        regions: below,
        first: free.first,
        last: free.last,
        count: free.count,
        ..c
    })
}
