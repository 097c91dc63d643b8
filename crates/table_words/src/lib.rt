// Rule 2, on the words of the table; and whether words are 0.

#![tactic(auto)]

ghost use Rattle.std.specs.Prelude.{◌≡◌, ◌≤◌, length, eqb};
ghost use Rattle.std.proofs.Math.Seq.{slice};
ghost use Rattle.laws.specs.Lists.{zeros, all_below};
ghost use Rattle.rules.specs.Memory.{store, status_of};
ghost use Rattle.rules.specs.Audit.{rule2 as rule2_of};

use conversions::region_numbered;
use limits::Admitted;
use pages::all_zero;
use rows::status_of;
use rules::{Address, Lent};

// Whether the words from one address up to another are 0.
#[tactic(auto, using(crate::proofs::Between::between_none, crate::proofs::Between::between_lent))]
pub fn zero_between(words: &[u32], from: Address, to: Address) -> bool
    requires { to.0 ≤ length words.now }
    ensures { result ≡ zeros (slice from.0 to.0 words.now) }
{
    to.0 <= from.0 || all_zero(&words[from.0..to.0])
}

// Whether each region's b is 0.
fn idle(table: &[u32], regions: usize) -> bool
    requires { (length table.now ≡ 256) × (regions ≤ 64) }
    ensures { result ≡ all_below (λ j. eqb (status_of table.now j) 0) regions }
{
    (0..regions).all(|j| status_of(table, region_numbered(j)) == 0)
}

// Rule 2: R at most 64, table words past 4R are 0, each b is 0.
#[tactic(auto, using(laws::proofs::Tests::tests, laws::proofs::Parts::zeros_rest), unfolding(rules::specs::Audit::rule2))]
pub fn rule2(admitted: Admitted<'_>) -> bool
    ensures { result ≡ rule2_of (store admitted.entry.lent) }
{
    let Lent { table, control, .. } = admitted.lent;
    let regions = control.regions as usize;
    let rows = 4 * regions;
    all_zero(&table[rows..]) && idle(table, regions)
}
