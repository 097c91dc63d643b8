// The attempt of a collection: fresh pages, roots, the scan stack. Each function does what its definition in motion says.

#![tactic(auto)]

ghost use Rattle.std.specs.Prelude.{◌≡◌, ◌≤◌, ◌<◌, is_ok};
ghost use Rattle.laws.specs.Each.{after};
ghost use Rattle.motion.specs.Leaves.{desk, out};
ghost use Rattle.motion.specs.Desks.{laid, Same};
ghost use Rattle.motion.specs.Whole.{fresh as fresh_def, freshen as freshen_def, move_root, move_roots, work_stack, attempt as attempt_def};

use conversions::{address_behind, pointer_address, region_numbered};
use copying::{move_value, take_page};
use leaves::{link_start, pop, set_end, set_first, set_status, set_top};
use motion::{Desk, Entry, NoPage};
use pages::page_words;
use rules::Region;
use scan_stack::work;

// A fresh page for region j.
#[tactic(auto, unfolding(motion::specs::Whole::fresh_at, motion::specs::Whole::fresh_on, motion::specs::Whole::fresh))]
fn fresh(desk: &mut Desk<'_>, j: Region) -> Result<(), NoPage>
    requires { j.0 < 4294967296 }
    ensures fresh { after (is_ok result) (laid desk.new) ≡ fresh_def desk.old.n j.0 (laid desk.old) }
    ensures same { Same desk.old desk.new }
{
    let link = take_page(desk)?;
    let p = page_words(desk.n);
    let start = link_start(link, desk.n);
    set_end(desk.notes, j, address_behind(start, p));
    set_first(desk.notes, j, start);
    set_top(desk.notes, j, address_behind(start, 2));
    set_status(desk.notes, j, 0);
    Ok(())
}

// A fresh page for each region, bottom first.
#[tactic(auto, using(crate::proofs::Turns::fresh_more, crate::proofs::Turns::fresh_over, crate::proofs::Turns::fresh_end))]
fn freshen(desk: &mut Desk<'_>, regions: u32) -> Result<(), NoPage>
    ensures fresh { after (is_ok result) (laid desk.new) ≡ freshen_def desk.old.n regions (laid desk.old) }
    ensures same { Same desk.old desk.new }
{
    for j in 0..regions {
        fresh(desk, region_numbered(j as usize))?;
    }
    Ok(())
}

// The value of the root w moved.
#[tactic(auto, unfolding(motion::specs::Whole::move_root))]
fn move_root(desk: &mut Desk<'_>, w: u32) -> Result<(), NoPage>
    ensures moved { after (is_ok result) (laid desk.new) ≡ move_root desk.old.n w (laid desk.old) }
    ensures same { Same desk.old desk.new }
{
    if w % 4 != 0 {
        return Ok(());
    }
    move_value(desk, pointer_address(w))
}

// The values of the roots moved, in order.
#[tactic(auto, using(crate::proofs::Turns::root_more, crate::proofs::Turns::root_over, crate::proofs::Turns::root_end))]
fn move_roots(desk: &mut Desk<'_>, roots: &[u32]) -> Result<(), NoPage>
    ensures moved { after (is_ok result) (laid desk.new) ≡ move_roots desk.old.n roots.now (laid desk.old) }
    ensures same { Same desk.old desk.new }
{
    for w in roots {
        move_root(desk, *w)?;
    }
    Ok(())
}

// The scan stack worked, by at most `fuel` steps. The entry that is left, if they were not enough.
#[tactic(auto, unfolding(motion::specs::Whole::work_from))]
fn work_stack(desk: &mut Desk<'_>, fuel: usize) -> Result<Option<Entry>, NoPage>
    ensures worked { after result (laid desk.new) ≡ work_stack desk.old.n fuel (laid desk.old) }
    ensures same { Same desk.old desk.new }
{
    match pop(desk.notes) {
        Some(entry) => work(desk, entry, fuel),
        None => Ok(None),
    }
}

// Fresh pages, roots, scan stack. It fails where the pages are not enough.
#[tactic(auto, unfolding(motion::specs::Whole::work_done, motion::specs::Whole::roots_done, motion::specs::Whole::fresh_done))]
pub fn attempt(
    heap: &mut [u32],
    notes: &mut [u32],
    roots: &[u32],
    regions: u32,
    fuel: usize,
    n: u32,
) -> Result<(), NoPage>
    requires { (4 ≤ n) × (n ≤ 8) }
    ensures { out (is_ok result) heap.new notes.new ≡ attempt_def n regions fuel roots.now (desk heap.old notes.old) }
{
    let mut desk = Desk { heap, notes, n };
    freshen(&mut desk, regions)?;
    move_roots(&mut desk, roots)?;
    match work_stack(&mut desk, fuel)? {
        None => Ok(()),
        Some(_) => Err(NoPage),
    }
}
