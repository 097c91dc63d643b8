// What is printed: parts of words, answers.
use conversions::{refusal_number, refusal_place};
use rules::{Control, Refusal};
use std::fmt;

// A part in decimal without its trailing zeros, in parentheses, so that an empty one is seen.
#[derive(Clone, Copy)]
pub struct Words<'a>(pub &'a [u32]);

impl fmt::Display for Words<'_> {
    fn fmt<W: fmt::Write>(&self, f: &mut fmt::Formatter<W>) -> fmt::Result {
        let last = self.0.iter().rposition(|w| *w != 0);
        write!(f, "(")?;
        for (i, w) in self.0.iter().take(last.map_or(0, |i| i + 1)).enumerate() {
            if 0 < i {
                write!(f, " ")?;
            }
            write!(f, "{w}")?;
        }
        write!(f, ")")
    }
}

// The record: n, R, free first, free last, free count.
#[derive(Clone, Copy)]
pub struct Record(pub Control);

impl fmt::Display for Record {
    fn fmt<W: fmt::Write>(&self, f: &mut fmt::Formatter<W>) -> fmt::Result {
        let c = self.0;
        let words = [c.n, c.regions, c.first, c.last, c.count];
        write!(f, "{}", Words(&words))
    }
}

// What a call gave: nothing that it was asked for, a word or a count, yes or no.
#[derive(Clone, Copy)]
pub enum Given {
    Done,
    Word(u32),
    Told(bool),
}

// A call's answer: what it gave, or why it was refused.
#[derive(Clone, Copy)]
pub struct Answer(pub Result<Given, Refusal>);

impl fmt::Display for Answer {
    fn fmt<W: fmt::Write>(&self, f: &mut fmt::Formatter<W>) -> fmt::Result {
        match self.0 {
            Ok(Given::Done) => write!(f, "done"),
            Ok(Given::Word(w)) => write!(f, "{w}"),
            Ok(Given::Told(true)) => write!(f, "yes"),
            Ok(Given::Told(false)) => write!(f, "no"),
            Err(why) => {
                let number = refusal_number(why);
                let place = refusal_place(why);
                write!(f, "refused {number}, place {place}")
            }
        }
    }
}
