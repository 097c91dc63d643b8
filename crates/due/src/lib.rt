// Whether a collection is due.

#![tactic(auto)]

ghost use Rattle.std.specs.Prelude.{◌≡◌};
ghost use Rattle.rules.specs.Memory.{store};
ghost use Rattle.rules.specs.Calls.{due_at, due as due_of};

use limits::admit;
use pages::page_count;
use rules::{Control, Lent, Refused};

// Whether a collection is due with so many of the pages free.
fn due_at(count: u32, pages: usize) -> bool
    ensures { result ≡ due_at count pages }
{
    3 * (count as usize) < pages
}

// Whether a collection is due.
pub fn due(lent: Lent<'_>) -> Result<(bool, Control), Refused>
    ensures { result ≡ due_of (store lent.entry) }
{
    admit(lent)?;
    let c = lent.control;
    Ok((due_at(c.count, page_count(lent.heap.len(), c.n)), c))
}
