// The answers of operations, and how each is written.

#![tactic(auto)]

ghost use Rattle.std.specs.Prelude.{◌≡◌, [], ◌∷◌, OnOk, IfSome};
ghost use Rattle.std.specs.Io.KnownBytes.{Appends};
ghost use Rattle.script.specs.Hash.{hash_words};
ghost use Rattle.answers.specs.Outcomes.{short_line};

pub mod memory;

use conversions::{refusal_number, refusal_place};
use rules::{Control, Lent, Page, Refusal, Refused};
use script::hash;
use std::io;
use std::io::Write;

// What an operation answers. A value and a page are read when the answer is written.
#[derive(Clone, Copy)]
pub enum Answer {
    Unknown,
    Quiet,
    Done,
    Word(u32),
    Count(u32),
    Told(bool),
    Number(i32),
    Value(u32),
    Page(Page),
    Image(u32, u64),
}

// An answer and the record from then on, or why the call was refused and the record as it was given.
pub type Outcome = Result<(Answer, Control), Refused>;

// The refusal of a call that is given no record: the old one stays.
pub fn refused(why: Refusal, control: Control) -> Refused
    ensures why { result.why ≡ why }
    ensures control { result.control ≡ control }
{
    Refused { why, control }
}

// The hash of the lent words and the record.
fn hash_of(lent: Lent<'_>) -> u64
    ensures { let m = lent.entry in
        let c = m.control in
        let heap = hash_words 14695981039346656037 m.heap.now in
        let table = hash_words heap m.table.now in
        let roots = hash_words table m.roots.now in
        let consts = hash_words roots m.consts.now in
        result ≡ hash_words consts (c.n ∷ c.regions ∷ c.first ∷ c.last ∷ c.count ∷ []) }
{
    let c = lent.control;
    let heap = hash::words(hash::EMPTY, lent.heap);
    let table = hash::words(heap, lent.table);
    let roots = hash::words(table, lent.roots);
    let consts = hash::words(roots, lent.consts);
    hash::words(consts, &[c.n, c.regions, c.first, c.last, c.count])
}

// The words of a part, each after a space.
fn write_part(to: &mut impl Write, part: &[u32]) -> io::Result<()> {
    write!(to, "ok")?;
    for w in part {
        write!(to, " {w:x}")?;
    }
    Ok(())
}

// What a call answers, before the hash.
fn write_answer(to: &mut impl Write, answer: Answer, lent: Lent<'_>) -> io::Result<()> {
    match answer {
        Answer::Word(w) => write!(to, "ok {w:x}"),
        Answer::Count(k) => write!(to, "ok {k}"),
        Answer::Told(yes) => write!(to, "ok {}", u8::from(yes)),
        Answer::Number(i) => write!(to, "ok {i}"),
        Answer::Value(w) => write_part(to, access::fetch(lent, w)),
        Answer::Page(k) => write_part(to, page_views::page_by_number(lent, k)),
        Answer::Image(length, sum) => write!(to, "ok {length} {sum:016x}"),
        Answer::Done => write!(to, "ok"),
        Answer::Quiet | Answer::Unknown => Ok(()),
    }
}

// The end of a call's line.
fn write_hash(to: &mut impl Write, lent: Lent<'_>) -> io::Result<()> {
    let sum = hash_of(lent);
    writeln!(to, " #{sum:016x}")
}

// Writes the line of a call's answer.
fn tell_call(to: &mut impl Write, answer: Answer, lent: Lent<'_>) -> io::Result<()> {
    write_answer(to, answer, lent)?;
    write_hash(to, lent)
}

// Writes the line of a refusal.
fn tell_refusal(to: &mut impl Write, why: Refusal, lent: Lent<'_>) -> io::Result<()> {
    let number = refusal_number(why);
    let place = refusal_place(why);
    write!(to, "no {number} {place}")?;
    write_hash(to, lent)
}

// Writes the line of what an operation answers, or of why it was refused.
pub fn tell<W: Write>(to: &mut W, told: Result<Answer, Refusal>, lent: Lent<'_>) -> io::Result<()>
    ensures { OnOk result (IfSome (short_line told) (Appends (W.contents to.old) (W.contents to.new))) }
{
    match told {
        Ok(Answer::Quiet) => writeln!(to, ".")?,
        Ok(Answer::Unknown) => writeln!(to, "?")?,
        Ok(answer) => tell_call(to, answer, lent)?,
        Err(why) => tell_refusal(to, why, lent)?,
    }
    to.flush()
}
