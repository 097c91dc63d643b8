// Replays a script of calls: one operation a line on standard input, one answer a line on standard output.
// Each call on a heap is one call of the library; the rest reads lines and writes answers.

#![tactic(auto)]

mod lending;

use answers::memory::Memory;
use lending::run;
use requests::Lengths;
use rules::Control;
use script::lines::Lines;
use script::output::Gathered;
use std::io;
use std::io::{Read, Write};

// Replays the script in memory that can be lent. Nothing says that the input ends, so its lines are counted, up to a number that no input meets.
fn replay<R: Read>(
    lines: &mut Lines<'_, R>,
    to: &mut impl Write,
    buffer: &mut [u8],
    heap: &mut [u32],
    table: &mut [u32],
    roots: &mut [u32],
    consts: &mut [u32],
) -> io::Result<()> {
    let room = Lengths {
        heap: heap.len(),
        table: table.len(),
        roots: roots.len(),
        consts: consts.len(),
    };
    let mut lent = Lengths {
        heap: 0,
        table: 0,
        roots: 0,
        consts: 0,
    };
    for _ in 0..u64::MAX {
        let mut memory = Memory {
            heap: &mut heap[..lent.heap],
            table: &mut table[..lent.table],
            roots: &mut roots[..lent.roots],
            consts: &mut consts[..lent.consts],
            control: Control {
                n: 0,
                regions: 0,
                first: 0,
                last: 0,
                count: 0,
            },
        };
        memory.clear();
        let Some(asked) = run(lines, to, buffer, &mut memory, room)? else {
            return Ok(());
        };
        lent = asked;
    }
    Ok(())
}

fn main(rt: HostRuntime) -> io::Result<()> {
    let mut heap = [0u32; 131072];
    let mut table = [0u32; 512];
    let mut roots = [0u32; 2000];
    let mut consts = [0u32; 70000];
    let mut line = [0u8; 131073];
    let mut chunk = [0u8; 65536];
    let mut gathered = [0u8; 4096];
    let mut source = rt.stdin();
    let mut to = rt.stdout();
    replay(
        &mut Lines::new(&mut source, &mut chunk),
        &mut Gathered::new(&mut to, &mut gathered),
        &mut line,
        &mut heap,
        &mut table,
        &mut roots,
        &mut consts,
    )
}
