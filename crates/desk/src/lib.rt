// The work of the program "collect": from the bytes of an image to the bytes that it prints. The program only reads and writes.

#![tactic(auto)]

ghost use Rattle.std.specs.Prelude.{◌≡◌, true, ◌≤◌, ◌<◌, [], length};
ghost use Rattle.rules.specs.Image.{read_text, program_on, collect_program};
ghost use Rattle.scanning.specs.Places.{words_at};
ghost use Rattle.reading.specs.Parts.{head_from, lengths_fit};
ghost use Rattle.printing.specs.Printed.{longest, Printed};
ghost use Rattle.desk.specs.Taking.{takes_head};

use image::read_image;
use printing::{print_collected, print_refusal};
use reading::{Head, heap_words, read_head};
use rules::Refusal;

// Reads the image into parts of the lengths that its first frame says, collects, and prints.
fn print_read(
    text: &[u8],
    heap: &mut [u32],
    table: &mut [u32],
    roots: &mut [u32],
    consts: &mut [u32],
    out: &mut [u8],
) -> usize
    requires { (lengths_fit (head_from (words_at 8 text.now 6)) (length heap.old) (length table.old) (length roots.old) (length consts.old) ≡ true)
        × (length heap.old ≤ 4096)
        × (length consts.old ≤ 1024)
        × (longest ≤ length out.old) }
    ensures { Printed (program_on (read_text text.now)) out.old out.new result }
{
    match read_image(text, heap, table, roots, consts) {
        Err(why) => print_refusal(why, out),
        Ok(c) => print_collected(heap, table, roots, consts, c, out),
    }
}

// Whether a first frame asks for no more than there is room for.
#[tactic(auto, using(laws::proofs::Tests::tests), unfolding(crate::specs::Taking::takes_head))]
fn takes_head(h: Head) -> bool
    ensures { result ≡ takes_head h }
{
    h.n <= 8 && heap_words(h.pages, h.n) <= 4096 && h.roots <= 1024 && h.consts <= 1024
}

// Cuts the parts to the lengths that the first frame says, and goes on with them.
fn print_parts(
    text: &[u8],
    heap: &mut [u32],
    table: &mut [u32],
    roots: &mut [u32],
    consts: &mut [u32],
    out: &mut [u8],
) -> usize
    requires { (length heap.old ≡ 4096)
        × (length table.old ≡ 256)
        × (length roots.old ≡ 1024)
        × (length consts.old ≡ 1024)
        × (longest ≤ length out.old) }
    ensures { Printed (collect_program text.now) out.old out.new result }
{
    let h = read_head(text);
    if !takes_head(h) {
        return print_refusal(Refusal::Malformed(1), out);
    }
    let words = heap_words(h.pages, h.n);
    let r = h.roots as usize;
    let k = h.consts as usize;
    print_read(
        text,
        &mut heap[0..words],
        table,
        &mut roots[0..r],
        &mut consts[0..k],
        out,
    )
}

// The bytes that the program prints for a text, at the front of `out`; the answer is how many. Where `out` has no room for the longest text
// nothing is done. The heap lives on the stack.
pub fn collect_text(text: &[u8], out: &mut [u8]) -> usize
    ensures { (result ≤ length out.new)
        × (longest ≤ length out.old → Printed (collect_program text.now) out.old out.new result)
        × (length out.old < longest → Printed [] out.old out.new result) }
{
    if out.len() < 53084 {
        return 0;
    }
    let mut heap = [0u32; 4096];
    let mut table = [0u32; 256];
    let mut roots = [0u32; 1024];
    let mut consts = [0u32; 1024];
    print_parts(text, &mut heap, &mut table, &mut roots, &mut consts, out)
}
