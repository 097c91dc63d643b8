// The collection after its audit: the attempt, and then its end, done or undone.

#![tactic(auto)]

ghost use Rattle.std.specs.Prelude.{◌≡◌, List, ℕ, ◌≤◌, length};
ghost use Rattle.rules.specs.Memory.{lent, page_count};
ghost use Rattle.rules.specs.Refusals.{Paged, outcome};
ghost use Rattle.leaves.specs.Walks.{AllOf};
ghost use Rattle.motion.specs.Leaves.{desk};
ghost use Rattle.motion.specs.Whole.{undo as undo_def, done, working_collect};

use attempting::attempt;
use ending::{give_all, own_all, record_by, write_roots, write_table};
use leaves::size::Pages;
use leaves::word;
use motion::{FREE_FIRST, FREE_LAST, NOTES, NoPage, TAKEN};
use pages::page_count;
use rules::{Control, Refusal, Refused};
use undoing::{relink_all, undo_headers};

// The pages of a heap.
fn pages_of(heap: &[u32], n: u32) -> Pages
    requires { Paged n (length heap.now) }
    ensures { (result.n ≡ n) × AllOf result heap.now }
{
    Pages {
        count: page_count(heap.len(), n),
        n,
    }
}

// The heap as it was before the collection that took so many pages.
fn undo(heap: &mut [u32], table: &[u32], taken: usize, c: Control)
    requires { Paged c.n (length heap.old) }
    ensures { heap.new
        ≡ undo_def c.n taken (page_count c.n heap.old) c.regions c.first table.now heap.old }
{
    let pages = pages_of(heap, c.n);
    undo_headers(heap, table, c.regions, pages);
    relink_all(heap, c.first, taken, pages);
}

// The end of a collection that is done: the roots by their forwards, the new pages' origins, the old pages given back, the table. The new record.
fn finish(
    heap: &mut [u32],
    notes: &mut [u32],
    table: &mut [u32],
    roots: &mut [u32],
    c: Control,
) -> Control
    requires { (Paged c.n (length heap.old)) × (c.regions ≤ 64) × (length table.old ≡ 256) × (length notes.old ≡ 400) }
    ensures { (k : List ℕ) → outcome (Ok result) heap.new table.new roots.new k
        ≡ done (lent heap.old table.old roots.old k c) (page_count c.n heap.old) (desk heap.old notes.old) }
{
    let pages = pages_of(heap, c.n);
    write_roots(heap, roots);
    own_all(heap, notes, c.regions, pages);
    give_all(heap, notes, table, c.regions, pages);
    write_table(table, notes, c.regions);
    record_by(notes, c)
}

// The collection of a heap that has passed its tests: all living values copied and all else given back, or, where a page lacks, everything as it was.
#[tactic(auto, using(crate::proofs::Ended::lacks, crate::proofs::Ended::ends), unfolding(motion::specs::Whole::working_collect, motion::specs::Whole::ended, motion::specs::Leaves::begun_notes))]
pub fn copy_living(
    heap: &mut [u32],
    table: &mut [u32],
    roots: &mut [u32],
    c: Control,
) -> Result<Control, Refused>
    requires { (Paged c.n (length heap.old)) × (c.regions ≤ 64) × (length table.old ≡ 256) }
    ensures { (k : List ℕ) → outcome result heap.new table.new roots.new k
        ≡ working_collect (lent heap.old table.old roots.old k c) }
{
    let mut notes = [0u32; NOTES];
    notes[FREE_FIRST] = c.first;
    notes[FREE_LAST] = c.last;
    let fuel = 2 * heap.len();
    match attempt(heap, &mut notes, roots, c.regions, fuel, c.n) {
        Ok(()) => Ok(finish(heap, &mut notes, table, roots, c)),
        Err(NoPage) => {
            undo(heap, table, word(&notes, TAKEN), c);
            Err(Refused {
                why: Refusal::NoPage,
                control: c,
            })
        }
    }
}
