// What operations are lent, and the record that they are given.
ghost use Rattle.std.specs.Prelude.{◌≡◌, length, replicate};
ghost use Rattle.answers.specs.Outcomes.{answer_of, record_of};

use crate::{Answer, Outcome};
use rules::{Control, Lent, Refusal, Refused};

// The four parts and the control record.
#[derive(Drop)]
pub struct Memory<'a> {
    pub heap: &'a mut [u32],
    pub table: &'a mut [u32],
    pub roots: &'a mut [u32],
    pub consts: &'a mut [u32],
    pub control: Control,
}

impl Memory<'_> {
    // Clears the four parts.
    pub fn clear(&mut self)
        ensures heap { self.new.heap.now ≡ replicate (length self.old.heap.now) 0 }
        ensures table { self.new.table.now ≡ replicate (length self.old.table.now) 0 }
        ensures roots { self.new.roots.now ≡ replicate (length self.old.roots.now) 0 }
        ensures consts { self.new.consts.now ≡ replicate (length self.old.consts.now) 0 }
        ensures record { self.new.control ≡ self.old.control }
    {
        self.heap.fill(0);
        self.table.fill(0);
        self.roots.fill(0);
        self.consts.fill(0);
    }

    // What a call that only reads is lent.
    pub fn lent(&self) -> Lent<'_>
        ensures heap { result.heap.now ≡ self.now.heap.now }
        ensures table { result.table.now ≡ self.now.table.now }
        ensures roots { result.roots.now ≡ self.now.roots.now }
        ensures consts { result.consts.now ≡ self.now.consts.now }
        ensures record { result.control ≡ self.now.control }
    {
        Lent {
            heap: self.heap,
            table: self.table,
            roots: self.roots,
            consts: self.consts,
            control: self.control,
        }
    }

    // Keeps the record that an operation leaves; what it answers, or why it was refused.
    pub fn keep(&mut self, done: Outcome) -> Result<Answer, Refusal>
        ensures answer { result ≡ answer_of done }
        ensures record { self.new.control ≡ record_of done }
        ensures heap { self.new.heap.now ≡ self.old.heap.now }
        ensures table { self.new.table.now ≡ self.old.table.now }
        ensures roots { self.new.roots.now ≡ self.old.roots.now }
        ensures consts { self.new.consts.now ≡ self.old.consts.now }
    {
        match done {
            Ok((answer, control)) => {
                self.control = control;
                Ok(answer)
            }
            Err(Refused { why, control }) => {
                self.control = control;
                Err(why)
            }
        }
    }
}
