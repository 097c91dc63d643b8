// The collection at work: the scan stack worked to its end, value by value. Each function does what its definition in motion says, whatever the
// heap holds.

#![tactic(auto)]

ghost use Rattle.std.specs.Prelude.{◌≡◌, ◌≤◌, ◌<◌, is_ok};
ghost use Rattle.laws.specs.Each.{after, each};
ghost use Rattle.motion.specs.Leaves.{Fitting, Narrow};
ghost use Rattle.motion.specs.Desks.{laid, Same};
ghost use Rattle.motion.specs.Run.{evacuate as evacuate_def, scan_value, next_page, next_scan};
ghost use Rattle.motion.specs.Run.{step as step_def, scanning, work as work_def};

use conversions::{address_behind, address_numbered};
use copying::evacuate;
use leaves::{link_start, low, pop, set_status, start_at, top_of, word};
use motion::{Desk, Entry, NoPage};
use pages::page_words;
use rules::Address;

// The l words from x on.
#[tactic(auto, using(crate::proofs::Fields::fields_more, crate::proofs::Fields::fields_over, crate::proofs::Fields::fields_end))]
fn scan_fields(desk: &mut Desk<'_>, x: Address, l: usize) -> Result<(), NoPage>
    requires { (x.0 ≤ 4294967296) × (l < 4294967296) }
    ensures scanned { after (is_ok result) (laid desk.new) ≡ each l (evacuate_def desk.old.n) x.0 (laid desk.old) }
    ensures same { Same desk.old desk.new }
{
    for i in 0..l {
        evacuate(desk, address_behind(x, i))?;
    }
    Ok(())
}

// The copy at s: a record's fields; raw words are not looked at.
#[tactic(auto, unfolding(motion::specs::Run::scan_of))]
fn scan_value(desk: &mut Desk<'_>, s: Address) -> Result<(), NoPage>
    requires { s.0 < 4294967296 }
    ensures scanned { after (is_ok result) (laid desk.new) ≡ scan_value desk.old.n s.0 (laid desk.old) }
    ensures same { Same desk.old desk.new }
{
    let w = word(desk.heap(), s.0);
    if w % 8 != 1 {
        return Ok(());
    }
    scan_fields(desk, address_behind(s, 1), w / 8)
}

// ---- The work.

// The third word of the page after that of s.
fn next_body(desk: &Desk<'_>, s: Address) -> Address
    ensures { (result.0 ≡ next_page desk.now.n s.0 desk.now.heap.now) × (result.0 ≤ 16777218) }
{
    let start = start_at(s, desk.n);
    let link = word(desk.heap, start.0);
    let next = link_start(link, desk.n);
    address_behind(next, 2)
}

// Where the scan goes on after the value at an entry.
#[tactic(auto, using(crate::proofs::Masks::off_pages), unfolding(motion::specs::Run::next_of))]
fn next_scan(desk: &Desk<'_>, at: Entry) -> Address
    requires { Fitting at }
    ensures { result.0 ≡ next_scan desk.now.n at.region.0 at.address.0 (laid desk.now) }
{
    let w = word(desk.heap, at.address.0);
    let top = top_of(desk.notes, at.region);
    let t = address_behind(at.address, w / 8 + 1);
    if t.0 == top.0 {
        return t;
    }
    if t.0 & (page_words(desk.n) - 1) == 0 || word(desk.heap, t.0) == 0 {
        return next_body(desk, at.address);
    }
    t
}

// One step, from the entry that is scanned: a value scanned, or the region left. The entry that is scanned then, if any is left.
#[tactic(auto, unfolding(motion::specs::Run::step_on, motion::specs::Run::step))]
fn one_step(desk: &mut Desk<'_>, at: Entry) -> Result<Option<Entry>, NoPage>
    requires { Fitting at }
    ensures step { after result (laid desk.new) ≡ step_def desk.old.n at.region.0 at.address.0 (laid desk.old) }
    ensures narrow { Narrow result }
    ensures same { Same desk.old desk.new }
{
    let region = at.region;
    let top = top_of(desk.notes(), region);
    if at.address.0 == top.0 {
        set_status(desk.notes, region, 0);
        return Ok(pop(desk.notes));
    }
    scan_value(desk, at.address)?;
    let next = next_scan(desk, at);
    let address = address_numbered(low(next.0));
    Ok(Some(Entry { region, address }))
}

// At most `fuel` steps from an entry on. The entry that is left, if they were not enough.
pub fn work(desk: &mut Desk<'_>, first: Entry, fuel: usize) -> Result<Option<Entry>, NoPage>
    requires { Fitting first }
    ensures worked { after result (laid desk.new)
        ≡ work_def desk.old.n fuel (scanning first.region.0 first.address.0 (laid desk.old)) }
    ensures same { Same desk.old desk.new }
{
    let mut at = first;
    for _ in 0..fuel {
        let Some(next) = one_step(desk, at)? else {
            return Ok(None);
        };
        at = next;
    }
    Ok(Some(at))
}
