// The collection, as a call: the audit first, and then all living values copied, or everything as it was.

#![tactic(auto)]

ghost use Rattle.std.specs.Prelude.{◌≡◌};
ghost use Rattle.rules.specs.Collection.{collect as collect_of};
ghost use Rattle.rules.specs.Memory.{lent};
ghost use Rattle.rules.specs.Refusals.{outcome};

use audit::audit;
use collector::copy_living;
use rules::{Control, Lent, Refused};

// A finished collection leaves exactly the words of document 01. A refused one leaves every word and the record as they were, also where it
// ran out of pages halfway.
#[tactic(auto, using(crate::proofs::Judged::judged_broken, crate::proofs::Judged::judged_within, crate::proofs::Judged::judged_passing))]
pub fn collect(
    heap: &mut [u32],
    table: &mut [u32],
    roots: &mut [u32],
    consts: &[u32],
    c: Control,
) -> Result<Control, Refused>
    ensures { outcome result heap.new table.new roots.new consts.now
        ≡ collect_of (lent heap.old table.old roots.old consts.now c) }
{
    audit(Lent {
        heap,
        table,
        roots,
        consts,
        control: c,
    })?;
    copy_living(heap, table, roots, c)
}
