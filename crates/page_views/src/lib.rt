// A page by its number: its words as a part of the heap, and why there is none.

#![tactic(auto)]

ghost use Rattle.std.specs.Prelude.{◌≡◌};
ghost use Rattle.rules.specs.Memory.{store};
ghost use Rattle.rules.specs.Calls.{page_by_number, page_refusal};

use limits::admit;
use pages::{page_count, page_part};
use rules::{Control, Lent, Page, Refusal, Refused};

// The words of page k, as a part of the heap; an empty part where there is no such page.
pub fn page_by_number<'a>(lent: Lent<'a>, k: Page) -> &'a [u32]
    ensures { result.now ≡ page_by_number (store lent.entry) k.0 }
{
    let Lent {
        heap,
        control: c,
        ..
    } = lent;
    let Ok(_) = admit(lent) else {
        return &heap[0..0];
    };
    let pages = page_count(heap.len(), c.n);
    if pages <= k.0 {
        return &heap[0..0];
    }
    page_part(heap, c.n, k)
}

// Whether a page can be handed back by its number, and why not.
pub fn page_refusal(lent: Lent<'_>, k: Page) -> Result<Control, Refused>
    ensures { result ≡ page_refusal (store lent.entry) k.0 }
{
    admit(lent)?;
    let c = lent.control;
    if page_count(lent.heap.len(), c.n) <= k.0 {
        return Err(Refused {
            why: Refusal::NoSuch,
            control: c,
        });
    }
    Ok(c)
}
