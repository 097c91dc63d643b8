// Walking a path.

#![tactic(auto)]

ghost use Rattle.std.specs.Prelude.{◌≡◌};
ghost use Rattle.rules.specs.Calls.{walk_from, walk as walk_of};
ghost use Rattle.rules.specs.Memory.{store};
ghost use Rattle.rules.specs.Words.{look as look_of};
ghost use Rattle.paths.specs.Walking.{walked};

use limits::admit;
use rules::{Control, Lent, Refusal, Refused};
use values::{Memory, is_record, look};

// The word that a path ends on from the word w: one step is walked, and then the rest of it.
fn walk_from(memory: Memory<'_>, w: u32, path: &[u32]) -> Result<u32, Refusal>
    ensures { let m = memory.entry in walked result ≡ walk_from (look_of m.c.n m.c.regions m.heap.now m.consts.now) w path.now }
{
    if w % 2 == 1 {
        if path.is_empty() {
            return Ok(w);
        }
        return Err(Refusal::NoFields);
    }
    let met = look(memory, w);
    if met.is_empty() {
        return Err(Refusal::NotGood);
    }
    if path.is_empty() {
        return Ok(w);
    }
    if !is_record(met[0]) {
        return Err(Refusal::NoFields);
    }
    let field = path[0] as usize;
    if met.len() - 1 <= field {
        return Err(Refusal::NoSuch);
    }
    let next = met[field + 1];
    walk_from(memory, next, &path[1..])
}

// How many steps one run of the recursion takes.
const PIECE: usize = 256;

// The word that a path ends on from the word w. A long path is walked piece by piece, each from where the last one ended: a walk then takes no
// more of the stack than one piece does.
fn walk_pieces(memory: Memory<'_>, w: u32, path: &[u32]) -> Result<u32, Refusal>
    ensures { let m = memory.entry in walked result ≡ walk_from (look_of m.c.n m.c.regions m.heap.now m.consts.now) w path.now }
{
    let mut at = w;
    let mut rest = path;
    while let Some((piece, further)) = rest.split_at_checked(PIECE) {
        at = walk_from(memory, at, piece)?;
        rest = further;
    }
    walk_from(memory, at, rest)
}

// The word that a path ends on: a root's number, and the field numbers.
pub fn walk(lent: Lent<'_>, root: usize, path: &[u32]) -> Result<(u32, Control), Refused>
    ensures { result ≡ walk_of (store lent.entry) root path.now }
{
    admit(lent)?;
    let Lent {
        heap,
        roots,
        consts,
        control: c,
        ..
    } = lent;
    if roots.len() <= root {
        return Err(Refused {
            why: Refusal::NoSuch,
            control: c,
        });
    }
    match walk_pieces(Memory { heap, consts, c }, roots[root], path) {
        Ok(word) => Ok((word, c)),
        Err(why) => Err(Refused { why, control: c }),
    }
}
