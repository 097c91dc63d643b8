// Words and values: "a whole number i from -2^30 to 2^30-1, stored as 2i+1 modulo 2^32".
use numbers::{number_of_word, word_of_number};
use std::io;
use std::io::Write;
use telling::say::Answer;

// The word of a number.
fn word_of(out: &mut impl Write, name: &str, i: i32) -> io::Result<()> {
    write!(out, "word of {name}: ")?;
    match word_of_number(i) {
        Ok(w) => writeln!(out, "{w:x}"),
        Err(why) => writeln!(out, "{}", Answer(Err(why))),
    }
}

// The number of a word.
fn number_of(out: &mut impl Write, w: u32) -> io::Result<()> {
    write!(out, "number of {w:x}: ")?;
    match number_of_word(w) {
        Ok(i) => writeln!(out, "{i}"),
        Err(why) => writeln!(out, "{}", Answer(Err(why))),
    }
}

fn words(out: &mut impl Write) -> io::Result<()> {
    word_of(out, "0", 0)?;
    word_of(out, "-1", -1)?;
    word_of(out, "2^30-1", 1073741823)?;
    word_of(out, "-2^30", -1073741824)?;
    word_of(out, "2^30", 1073741824)?;
    word_of(out, "-2^30-1", -1073741825)
}

pub fn soundings(out: &mut impl Write) -> io::Result<()> {
    writeln!(out, "Numbers")?;
    words(out)?;
    number_of(out, 1)?;
    number_of(out, 0xffffffff)?;
    number_of(out, 0x7fffffff)?;
    number_of(out, 0x80000001)?;
    number_of(out, 2)
}
