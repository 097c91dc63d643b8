// What the program "collect" prints: a refusal, or the image of a heap after its collection.

#![tactic(auto)]

ghost use Rattle.std.specs.Prelude.{◌≤◌, length};
ghost use Rattle.rules.specs.Memory.{lent, store};
ghost use Rattle.rules.specs.Image.{image_text, refusal_text};
ghost use Rattle.printing.specs.Printed.{longest, Printed, collected_from};

use collection::collect;
use conversions::{refusal_number, refusal_place};
use limits::Admitted;
use rules::{Control, Lent, Refusal};
use writing::{text_length, write_frame, write_text};

// The frame of a refusal, its number and its place.
pub fn print_refusal(why: Refusal, out: &mut [u8]) -> usize
    requires { longest ≤ length out.old }
    ensures { Printed (refusal_text why) out.old out.new result }
{
    let number = refusal_number(why);
    let place = refusal_place(why);
    let words = [number, place];
    write_frame(out, 0, 255, &words);
    23
}

// The image of a heap that the tests of every call pass.
fn print_image(heap: Admitted<'_>, out: &mut [u8]) -> usize
    requires { (length heap.lent.heap.now ≤ 4096)
        × (length heap.lent.consts.now ≤ 1024)
        × (longest ≤ length out.old) }
    ensures { Printed (image_text (store heap.entry.lent)) out.old out.new result }
{
    write_text(out, heap);
    text_length(heap)
}

// Collects, and prints the heap or the refusal.
pub fn print_collected(
    heap: &mut [u32],
    table: &mut [u32],
    roots: &mut [u32],
    consts: &[u32],
    c: Control,
    out: &mut [u8],
) -> usize
    requires { (length heap.old ≤ 4096) × (length consts.now ≤ 1024) × (longest ≤ length out.old) }
    ensures { Printed
        (collected_from (lent heap.old table.old roots.old consts.now c))
        out.old
        out.new
        result }
{
    match collect(heap, table, roots, consts, c) {
        Err(refused) => print_refusal(refused.why, out),
        Ok(after) => {
            let lent = Lent {
                heap,
                table,
                roots,
                consts,
                control: after,
            };
            print_image(Admitted { lent }, out)
        }
    }
}
