// The collection at work: taking pages, moving values. Each function does what its definition in motion says, whatever the heap holds. What takes a desk
// at two places is laid into both: called, it would have the desk in memory, and read heap and notes from there again after each word that it writes.

#![tactic(auto)]

ghost use Rattle.std.specs.Prelude.{◌≡◌, ◌+◌, ◌≤◌, ◌<◌, true, is_ok, IfOk};
ghost use Rattle.std.specs.Result.{result_unwrap_or};
ghost use Rattle.laws.specs.Each.{after};
ghost use Rattle.motion.specs.Desks.{laid, Same};
ghost use Rattle.motion.specs.Run.{take_free, join_free, move_to, move_on, move as move_def, evacuate as evacuate_def};

use conversions::{address_behind, address_numbered, pointer_address};
use leaves::{
    copy, end_of, forward, link_start, low, region_at, set_end, set_top, top_of, wake, word, write,
};
use motion::{Desk, FREE_FIRST, NoPage, TAKEN};
use pages::page_words;
use rules::{Address, Region};

// ---- Pages.

// The first free page taken, if there is one: the link to it.
#[inline(always)]
#[tactic(auto, unfolding(motion::specs::Run::take_at, motion::specs::Run::take_on))]
pub fn take_page(desk: &mut Desk<'_>) -> Result<usize, NoPage>
    ensures taken { after (result_unwrap_or result 0) (laid desk.new) ≡ take_free desk.old.n (laid desk.old) }
    ensures link { IfOk result (λ link. (0 < link) × (link < 4294967296)) }
    ensures same { Same desk.old desk.new }
{
    let first = word(desk.notes(), FREE_FIRST);
    if first == 0 {
        return Err(NoPage);
    }
    let start = link_start(first, desk.n);
    let link = word(desk.heap(), start.0);
    write(desk.heap, start.0, 0);
    write(desk.heap, start.0 + 1, link);
    let count = word(desk.notes(), TAKEN);
    write(desk.notes, FREE_FIRST, link);
    write(desk.notes, TAKEN, low(count + 1));
    Ok(first)
}

// The first free page becomes region j's last: taken, and linked behind the one that ends at the region's e.
#[tactic(auto, unfolding(motion::specs::Run::join_on, motion::specs::Run::join_at))]
fn join_page(desk: &mut Desk<'_>, j: Region) -> Result<(), NoPage>
    requires { j.0 < 4294967296 }
    ensures joined { after (is_ok result) (laid desk.new) ≡ join_free desk.old.n j.0 (laid desk.old) }
    ensures same { Same desk.old desk.new }
{
    let end = end_of(desk.notes(), j);
    let link = take_page(desk)?;
    let p = page_words(desk.n);
    let start = link_start(link, desk.n);
    write(desk.heap, end.0.saturating_sub(p), link);
    set_end(desk.notes, j, address_behind(start, p));
    set_top(desk.notes, j, address_behind(start, 2));
    Ok(())
}

// ---- Moving values.

// The m words at a, at region j's a, which is b; the forward to them; the region is woken.
#[inline(always)]
#[tactic(auto, unfolding(motion::specs::Run::move_to))]
fn move_to(desk: &mut Desk<'_>, a: Address, m: usize, j: Region, b: Address)
    requires { (a.0 < 4294967296) × (m ≤ 4294967296) × (j.0 < 4294967296) × (b.0 < 4294967296) }
    ensures moved { after true (laid desk.new) ≡ move_to a.0 m j.0 b.0 (laid desk.old) }
    ensures same { Same desk.old desk.new }
{
    copy(desk.heap, a, b, m);
    forward(desk.heap, a, b);
    set_top(desk.notes, j, address_numbered(low(b.0 + m)));
    wake(desk.notes, j, b);
}

// The value of l words at a, into a page more of region j.
#[tactic(auto, unfolding(motion::specs::Run::move_on))]
fn move_further(desk: &mut Desk<'_>, a: Address, l: usize, j: Region) -> Result<(), NoPage>
    requires { (a.0 < 4294967296) × (l < 4294967296) × (j.0 < 4294967296) }
    ensures moved { after (is_ok result) (laid desk.new)
        ≡ move_on a.0 (l + 1) j.0 (join_free desk.old.n j.0 (laid desk.old)) }
    ensures same { Same desk.old desk.new }
{
    join_page(desk, j)?;
    let b = top_of(desk.notes(), j);
    move_to(desk, a, l + 1, j, b);
    Ok(())
}

// The value at a moved, if it is not yet: to its region's a if it fits before e, else into a page more.
#[inline(always)]
#[tactic(auto, unfolding(motion::specs::Run::move_of, motion::specs::Run::move_on, motion::specs::Run::room))]
pub fn move_value(desk: &mut Desk<'_>, a: Address) -> Result<(), NoPage>
    requires { a.0 < 4294967296 }
    ensures moved { after (is_ok result) (laid desk.new) ≡ move_def desk.old.n a.0 (laid desk.old) }
    ensures same { Same desk.old desk.new }
{
    let head = word(desk.heap(), a.0);
    if head % 2 == 0 {
        return Ok(());
    }
    let j = region_at(desk, a);
    let l = head / 8;
    let top = top_of(desk.notes(), j);
    let end = end_of(desk.notes(), j);
    if end.0 < top.0 + l + 1 {
        return move_further(desk, a, l, j);
    }
    move_to(desk, a, l + 1, j, top);
    Ok(())
}

// The word at x: its value moved, and the forward written there.
#[tactic(auto, unfolding(motion::specs::Run::evacuated, motion::specs::Run::evacuate_of, motion::specs::Run::evacuate))]
pub fn evacuate(desk: &mut Desk<'_>, x: Address) -> Result<(), NoPage>
    ensures moved { after (is_ok result) (laid desk.new) ≡ evacuate_def desk.old.n x.0 (laid desk.old) }
    ensures same { Same desk.old desk.new }
{
    let w = word(desk.heap(), x.0);
    if w % 4 != 0 {
        return Ok(());
    }
    let a = pointer_address(w as u32);
    move_value(desk, a)?;
    let new = word(desk.heap(), a.0);
    write(desk.heap, x.0, new);
    Ok(())
}
