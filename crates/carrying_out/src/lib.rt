// A request that may change lent words or the record, carried out: one call of the library each, on the lent parts.

#![tactic(auto)]

use answers::memory::Memory;
use answers::{Answer, Outcome, refused};
use requests::{Changing, Making, Part};
use rules::{Kind, Region};
use script::lists::{read_list, read_text};
use script::numbers;
use script::tokens::Tokens;

// An image is read from the text that a token spells.
fn read(m: &mut Memory<'_>, token: &[u8]) -> Outcome {
    let c = m.control;
    let mut bytes = [0u8; 262144];
    let Some(text) = read_text(token, &mut bytes) else {
        return Ok((Answer::Unknown, c));
    };
    let control = image::read_image(text, m.heap, m.table, m.roots, m.consts).map_err(|why| refused(
        why, c,
    ))?;
    Ok((Answer::Done, control))
}

fn set_up(m: &mut Memory<'_>, n: u32) -> Outcome {
    let c = m.control;
    let heap = &mut *m.heap;
    let table = &mut *m.table;
    let roots = &mut *m.roots;
    let consts = &mut *m.consts;
    let control = setting_up::set_up(heap, table, roots, consts, n).map_err(|why| refused(why, c))?;
    Ok((Answer::Done, control))
}

// Sets one word of a part, where it has such a word.
fn set_word(part: &mut [u32], i: usize, w: u32) -> Answer {
    if part.len() <= i {
        return Answer::Unknown;
    }
    part[i] = w;
    Answer::Quiet
}

// Sets one word of one of the parts.
fn poke(m: &mut Memory<'_>, part: Part, i: usize, w: u32) -> Answer {
    match part {
        Part::Heap => set_word(m.heap, i, w),
        Part::Table => set_word(m.table, i, w),
        Part::Roots => set_word(m.roots, i, w),
        Part::Consts => set_word(m.consts, i, w),
    }
}

// An operation that makes lent words or the record anew.
pub fn make(asked: Making<'_>, m: &mut Memory<'_>) -> Outcome {
    match asked {
        Making::Setup(n) => set_up(m, n),
        Making::Read(token) => read(m, token),
        Making::Poke(part, i, w) => Ok((poke(m, part, i, w), m.control)),
        Making::Ctl(new) => Ok((Answer::Quiet, new)),
    }
}

// The words that are left of the line are the value's.
fn allocate(m: &mut Memory<'_>, j: Region, kind: Kind, tokens: Tokens<'_>) -> Outcome {
    let c = m.control;
    let mut buffer = [0u32; 65536];
    let Some(words) = read_list(tokens, &mut buffer, numbers::word) else {
        return Ok((Answer::Unknown, c));
    };
    let heap = &mut *m.heap;
    let table = &mut *m.table;
    let roots = &mut *m.roots;
    let consts = &mut *m.consts;
    let (w, control) = allocation::allocate(heap, table, roots, consts, c, j, kind, words)?;
    Ok((Answer::Word(w), control))
}

// A call that changes lent words or the record.
pub fn change(asked: Changing<'_>, m: &mut Memory<'_>) -> Outcome {
    let c = m.control;
    let heap = &mut *m.heap;
    let table = &mut *m.table;
    let roots = &mut *m.roots;
    let consts = &mut *m.consts;
    let control = match asked {
        Changing::Push => regions::push(heap, table, roots, consts, c)?,
        Changing::Pop => release::pop(heap, table, roots, consts, c)?,
        Changing::Alloc(j, kind, words) => return allocate(m, j, kind, words),
        Changing::Assign(w, field, x) => {
            assignment::assign(heap, table, roots, consts, c, w, field, x)?
        }
        Changing::Root(i, w) => access::set_root(heap, table, roots, consts, c, i, w)?,
        Changing::Collect => collection::collect(heap, table, roots, consts, c)?,
    };
    Ok((Answer::Done, control))
}
