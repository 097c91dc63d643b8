// Assignment: a word into a field of a record.

#![tactic(auto)]

ghost use Rattle.std.specs.Prelude.{◌≡◌, List, ℕ, ◌≤◌, length};
ghost use Rattle.rules.specs.Calls.{assign_by, assign as assign_of};
ghost use Rattle.rules.specs.Memory.{lent};
ghost use Rattle.rules.specs.Refusals.{Paged, outcome};
ghost use Rattle.rules.specs.Words.{word_of};

use conversions::pointer_address;
use limits::first_tests;
use rules::{Control, Refusal, Refused};
use values::{Memory, good_const, good_heap, good_word, is_record};

// What assigning does after the first tests, whatever the table and the roots are: the target is judged first, then the field's number,
// then the word.
fn assign_into(
    heap: &mut [u32],
    consts: &[u32],
    c: Control,
    w: u32,
    field: usize,
    word: u32,
) -> Result<Control, Refused>
    requires { Paged c.n (length heap.old) × (length consts.now ≤ 65535) }
    ensures { (t u : List ℕ) → outcome result heap.new t u consts.now
        ≡ assign_by (lent heap.old t u consts.now c) (word_of w) field word }
{
    if w % 2 == 1 {
        return Err(Refused {
            why: Refusal::NoFields,
            control: c,
        });
    }
    let a = pointer_address(w);
    if w % 4 == 2 {
        if !good_const(consts, a) {
            return Err(Refused {
                why: Refusal::NotGood,
                control: c,
            });
        }
        return Err(Refused {
            why: Refusal::Constant,
            control: c,
        });
    }
    if !good_heap(heap, c.n, c.regions, a) {
        return Err(Refused {
            why: Refusal::NotGood,
            control: c,
        });
    }
    let i = a.0;
    let header = heap[i];
    if !is_record(header) {
        return Err(Refused {
            why: Refusal::NoFields,
            control: c,
        });
    }
    if (header / 8) as usize <= field {
        return Err(Refused {
            why: Refusal::NoSuch,
            control: c,
        });
    }
    if !good_word(Memory { heap, consts, c }, word) {
        return Err(Refused {
            why: Refusal::NotGood,
            control: c,
        });
    }
    heap[i + field + 1] = word;
    Ok(c)
}

// Field number `field` of the record that w points to becomes the word, which is a number or a good pointer.
pub fn assign(
    heap: &mut [u32],
    table: &[u32],
    roots: &[u32],
    consts: &[u32],
    c: Control,
    w: u32,
    field: usize,
    word: u32,
) -> Result<Control, Refused>
    ensures { outcome result heap.new table.now roots.now consts.now
        ≡ assign_of (lent heap.old table.now roots.now consts.now c) w field word }
{
    first_tests(heap.len(), table.len(), roots.len(), consts.len(), c)?;
    assign_into(heap, consts, c, w, field, word)
}
