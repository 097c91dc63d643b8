// A question. On a heap that a recipe makes:
//   audit              the first rule that is broken
//   collect            the collection, and what it left
//   free               the pages that are free before the collection, and after it
// and on the heap of an image's text, which is read:
//   read               the answer of the read
//   parts              the answer, and the parts
//   names              the answer, and the roots
//   write              the text of what was read, written into so many bytes
//   moved              the same after a collection
use audit::audit;
use collection::collect;
use image::{read_image, write_image};
use recipes::heaps::Parts;
use rules::{Lent, Refusal};
use std::io;
use std::io::Write;
use telling::lent;
use telling::say::{Answer, Given};

// Whether the heap of a question is read from the image's text.
pub fn reads(question: &str) -> bool {
    matches!(question, "read" | "parts" | "names" | "write" | "moved")
}

// The constants that the text is read into are those of the parts from then on.
fn read<'c>(
    parts: &mut Parts<'_, '_, '_, 'c>,
    consts: &'c mut [u32],
    text: &[u8],
) -> Result<Given, Refusal> {
    let answer = read_image(text, parts.heap, parts.table, parts.roots, consts);
    parts.consts = consts;
    parts.opened(answer)
}

fn collected(parts: &mut Parts<'_, '_, '_, '_>) -> Result<Given, Refusal> {
    let c = parts.control;
    let answer = collect(parts.heap, parts.table, parts.roots, parts.consts, c);
    parts.done(answer)
}

fn audits(out: &mut impl Write, lent: Lent<'_>) -> io::Result<()> {
    let answer = audit(lent).map(|_| Given::Done);
    writeln!(out, "{}", Answer(answer.map_err(|refused| refused.why)))
}

// A collection, and what it left.
fn collects(out: &mut impl Write, parts: &mut Parts<'_, '_, '_, '_>) -> io::Result<()> {
    let sum = lent::sum(parts.lent());
    let before = parts.control;
    let answer = Answer(collected(parts));
    write!(out, "{answer}")?;
    lent::report(out, sum, before, parts.lent())
}

// The pages that are free before a collection, and after it.
fn frees(out: &mut impl Write, parts: &mut Parts<'_, '_, '_, '_>) -> io::Result<()> {
    let before = parts.control.count;
    let _ = collected(parts);
    let after = parts.control.count;
    writeln!(out, "{before} {after}")
}

// The text that a write into so many bytes left at their start, or the refusal.
fn writes(out: &mut impl Write, lent: Lent<'_>, room: u32) -> io::Result<()> {
    let mut bytes = [0; 256];
    let lent_bytes = &mut bytes[..256.min(room as usize)];
    match write_image(lent, lent_bytes) {
        Ok((k, _)) => out.write_all(bytes.get(..k as usize).unwrap_or(&bytes)),
        Err(refused) => writeln!(out, "{}", Answer(Err(refused.why))),
    }
}

// The heap is made, and the question asked.
pub fn asks_heap(
    out: &mut impl Write,
    parts: &mut Parts<'_, '_, '_, '_>,
    recipe: &str,
    question: &str,
) -> io::Result<()> {
    parts.make(recipe);
    match question {
        "audit" => audits(out, parts.lent()),
        "collect" => collects(out, parts),
        "free" => frees(out, parts),
        _ => Ok(()),
    }
}

// The heap is read, and the question asked. A write is lent so many bytes, and after a collection begins on a line of its own.
pub fn asks_image<'c>(
    out: &mut impl Write,
    parts: &mut Parts<'_, '_, '_, 'c>,
    consts: &'c mut [u32],
    text: &[u8],
    question: &str,
    room: u32,
) -> io::Result<()> {
    let answer = Answer(read(parts, consts, text));
    match question {
        "read" => writeln!(out, "{answer}"),
        "parts" => {
            write!(out, "{answer}")?;
            lent::show(out, parts.lent())
        }
        "names" => {
            write!(out, "{answer}")?;
            lent::only_roots(out, parts.roots)
        }
        "moved" => {
            let _ = collected(parts);
            writeln!(out)?;
            writes(out, parts.lent(), room)
        }
        _ => writes(out, parts.lent(), room),
    }
}
