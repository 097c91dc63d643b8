// The audit: the first broken rule, as an answer. Each rule is one nest of walks, in the crates below.

#![tactic(auto)]

ghost use Rattle.std.specs.Prelude.{◌≡◌, ◌<◌, MatchOption};
ghost use Rattle.rules.specs.Audit.{broken_rule};
ghost use Rattle.rules.specs.Calls.{audit as audit_of};
ghost use Rattle.rules.specs.Memory.{store};

use chains::rule3;
use constants::rule8;
use contents::rule5;
use ends::{rule4, rule9};
use fields::{rule6, rule7};
use limits::{Admitted, admit};
use rules::{Control, Lent, Refusal, Refused};
use table_words::rule2;

// The first broken rule.
fn broken_rule(admitted: Admitted<'_>) -> Option<u32>
    ensures { let first = broken_rule (store admitted.entry.lent) in
        MatchOption result (first ≡ 0) (λ rule. (rule ≡ first) × (0 < rule)) }
{
    if !rule2(admitted) {
        return Some(2);
    }
    if !rule3(admitted) {
        return Some(3);
    }
    if !rule4(admitted) {
        return Some(4);
    }
    if !rule5(admitted) {
        return Some(5);
    }
    if !rule6(admitted) {
        return Some(6);
    }
    if !rule7(admitted) {
        return Some(7);
    }
    if !rule8(admitted) {
        return Some(8);
    }
    if !rule9(admitted) {
        return Some(9);
    }
    None
}

// Whether all rules hold, and which is the first that does not.
pub fn audit(lent: Lent<'_>) -> Result<Control, Refused>
    ensures { result ≡ audit_of (store lent.entry) }
{
    match broken_rule(admit(lent)?) {
        Some(rule) => Err(Refused {
            why: Refusal::Broken(rule),
            control: lent.control,
        }),
        None => Ok(lent.control),
    }
}
