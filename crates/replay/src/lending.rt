// What is lent to a run of lines, and what those lines do to it.
ghost use Rattle.std.specs.Prelude.{◌≤◌, IfSome, IfOk};

use answers::memory::Memory;
use answers::{Answer, Outcome, tell};
use asking::ask;
use carrying_out::{change, make};
use requests::{Lengths, Request, read_lend, read_request};
use script::lines::{Lines, is_skipped};
use std::io;
use std::io::{Read, Write};

// The lengths that a line asks to lend, where parts can be as long as that.
fn read_lend_in(line: &[u8], room: Lengths) -> Option<Lengths>
    ensures heap { IfSome result (λ l. l.heap ≤ room.heap) }
    ensures table { IfSome result (λ l. l.table ≤ room.table) }
    ensures roots { IfSome result (λ l. l.roots ≤ room.roots) }
    ensures consts { IfSome result (λ l. l.consts ≤ room.consts) }
{
    let asked = read_lend(line)?;
    if asked.heap <= room.heap
        && asked.table <= room.table
        && asked.roots <= room.roots
        && asked.consts <= room.consts
    {
        return Some(asked);
    }
    None
}

// Carries out what a line asks for on the lent parts.
fn perform(line: &[u8], m: &mut Memory<'_>) -> Outcome {
    match read_request(line) {
        Some(Request::Make(asked)) => make(asked, m),
        Some(Request::Change(asked)) => change(asked, m),
        Some(Request::Ask(asked)) => ask(asked, m.lent()),
        None => Ok((Answer::Unknown, m.control)),
    }
}

// Carries out what a line asks for and writes its answer.
fn answer(to: &mut impl Write, line: &[u8], m: &mut Memory<'_>) -> io::Result<()> {
    let done = perform(line, m);
    let told = m.keep(done);
    tell(to, told, m.lent())
}

// Carries out lines on lent memory, up to one that asks to lend anew or to the input's end; what that line asks for.
pub fn run<R: Read>(
    lines: &mut Lines<'_, R>,
    to: &mut impl Write,
    buffer: &mut [u8],
    m: &mut Memory<'_>,
    room: Lengths,
) -> io::Result<Option<Lengths>>
    ensures heap { IfOk result (λ o. IfSome o (λ l. l.heap ≤ room.heap)) }
    ensures table { IfOk result (λ o. IfSome o (λ l. l.table ≤ room.table)) }
    ensures roots { IfOk result (λ o. IfSome o (λ l. l.roots ≤ room.roots)) }
    ensures consts { IfOk result (λ o. IfSome o (λ l. l.consts ≤ room.consts)) }
{
    for _ in 0..u64::MAX {
        let Some(line) = lines.next_line(buffer)? else {
            return Ok(None);
        };
        if is_skipped(line) {
            continue;
        }
        if let Some(asked) = read_lend_in(line, room) {
            writeln!(to, ".")?;
            to.flush()?;
            return Ok(Some(asked));
        }
        answer(to, line, m)?;
    }
    Ok(None)
}
