// The calls on one value: fetching it, setting a root to it.

#![tactic(auto)]

ghost use Rattle.std.specs.Prelude.{◌≡◌};
ghost use Rattle.rules.specs.Calls.{fetch as fetch_of, fetch_refusal, set_root};
ghost use Rattle.rules.specs.Memory.{lent, store};
ghost use Rattle.rules.specs.Refusals.{outcome};

use limits::{admit, first_tests};
use rules::{Control, Lent, Refusal, Refused};
use values::{Memory, good_word, look, nothing};

// The value that a word points to, as a part of the heap or of the constants; an empty part where the call is refused.
pub fn fetch<'a>(lent: Lent<'a>, w: u32) -> &'a [u32]
    ensures { result.now ≡ fetch_of (store lent.entry) w }
{
    let Lent {
        heap,
        consts,
        control: c,
        ..
    } = lent;
    let Ok(_) = admit(lent) else {
        return nothing(heap);
    };
    look(Memory { heap, consts, c }, w)
}

// Whether a fetch is refused, and why.
pub fn fetch_refusal(lent: Lent<'_>, w: u32) -> Result<Control, Refused>
    ensures { result ≡ fetch_refusal (store lent.entry) w }
{
    admit(lent)?;
    let Lent {
        heap,
        consts,
        control: c,
        ..
    } = lent;
    let value = look(Memory { heap, consts, c }, w);
    if value.len() == 0 {
        return Err(Refused {
            why: Refusal::NotGood,
            control: c,
        });
    }
    Ok(c)
}

// Root number `root` becomes the word w, which is a number or a good pointer.
pub fn set_root(
    heap: &[u32],
    table: &[u32],
    roots: &mut [u32],
    consts: &[u32],
    c: Control,
    root: usize,
    w: u32,
) -> Result<Control, Refused>
    ensures { outcome result heap.now table.now roots.new consts.now
        ≡ set_root (lent heap.now table.now roots.old consts.now c) root w }
{
    first_tests(heap.len(), table.len(), roots.len(), consts.len(), c)?;
    if roots.len() <= root {
        return Err(Refused {
            why: Refusal::NoSuch,
            control: c,
        });
    }
    if !good_word(Memory { heap, consts, c }, w) {
        return Err(Refused {
            why: Refusal::NotGood,
            control: c,
        });
    }
    roots[root] = w;
    Ok(c)
}
