// Rule 8, on the constants.

#![tactic(auto)]

ghost use Rattle.std.specs.Prelude.{◌≡◌, ◌≤◌, length};
ghost use Rattle.laws.specs.Lists.{all};
ghost use Rattle.rules.specs.Memory.{store};
ghost use Rattle.rules.specs.Words.{const_vals, fields_pass};
ghost use Rattle.rules.specs.Audit.{filled, const_field, rule8 as rule8_of};

use conversions::{address_behind, address_numbered, pointer_address};
use limits::Admitted;
use rules::Lent;
use table_words::zero_between;
use values::{fits, good_const, is_record};

// Whether values stand back to back from constant 0, then zeros.
fn consts_filled(consts: &[u32]) -> bool
    requires { length consts.now ≤ 65535 }
    ensures { result ≡ filled 0 consts.now }
{
    let end = address_numbered(consts.len());
    let mut at = address_numbered(0);
    'values: while at.0 < end.0 {
        let i = at.0;
        let head = consts[i];
        if !fits(head, end.0 - (at.0 + 1)) {
            break 'values;
        }
        at = address_behind(at, 1 + (head / 8) as usize);
    }
    zero_between(consts, at, end)
}

// Whether a constant's field is a number or a good constant pointer.
#[tactic(auto, using(crate::proofs::Constants::field_heap, crate::proofs::Constants::field_const, crate::proofs::Constants::field_number))]
fn const_field(consts: &[u32], w: u32) -> bool
    requires { length consts.now ≤ 65535 }
    ensures { result ≡ const_field consts.now w }
{
    match w % 4 {
        0 => false,
        2 => good_const(consts, pointer_address(w)),
        _ => true,
    }
}

// Whether each field of each constant record is a number or a good constant pointer.
fn const_fields(consts: &[u32]) -> bool
    requires { length consts.now ≤ 65535 }
    ensures { result ≡ all (fields_pass (const_field consts.now)) (const_vals consts.now) }
{
    let end = address_numbered(consts.len());
    let mut at = address_numbered(0);
    'records: {
        'values: while at.0 < end.0 {
            let i = at.0;
            let head = consts[i];
            if !fits(head, end.0 - (at.0 + 1)) {
                break 'values;
            }
            let next = address_behind(at, 1 + (head / 8) as usize);
            if !is_record(head) {
                at = next;
                continue 'values;
            }
            let first = address_behind(at, 1);
            for w in &consts[first.0..next.0] {
                if !const_field(consts, *w) {
                    break 'records false;
                }
            }
            at = next;
        }
        true
    }
}

// Rule 8: constants are values back to back, then zeros, and their fields are numbers or good constant pointers.
#[tactic(auto, using(laws::proofs::Tests::tests), unfolding(rules::specs::Audit::rule8))]
pub fn rule8(admitted: Admitted<'_>) -> bool
    ensures { result ≡ rule8_of (store admitted.entry.lent) }
{
    let Lent { consts, .. } = admitted.lent;
    consts_filled(consts) && const_fields(consts)
}
