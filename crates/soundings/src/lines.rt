// Lines of the soundings:
//   push again: |on 32 256 2 0|push 1;|push 1
// The numbers are the lengths of the heap, the table, the roots and the constants.
use crate::asking::asks;
use recipes::cutting::{Line, first_words, line_of, numbers_of};
use recipes::heaps::{NO_RECORD, Parts};
use std::io;
use std::io::Write;

// A line, on parts whose words are all 7 and constants that are a record of the number 7, of the lengths that it names.
fn sounding(out: &mut impl Write, line: Line<'_>) -> io::Result<()> {
    let mut heap = [7; 2048];
    let mut table = [7; 257];
    let mut roots = [7; 1025];
    let mut consts = [9, 7];
    let mut row = [0; 16];
    numbers_of(line.numbers, &mut row);
    let mut parts = Parts {
        heap: first_words(&mut heap, row[0]),
        table: first_words(&mut table, row[1]),
        roots: first_words(&mut roots, row[2]),
        consts: first_words(&mut consts, row[3]),
        control: NO_RECORD,
    };
    write!(out, "{}", line.heading)?;
    asks(out, &mut parts, line.recipe, line.question)
}

// A text of lines.
pub fn all(out: &mut impl Write, lines: &str) -> io::Result<()> {
    for text in lines.lines() {
        if let Some(line) = line_of(text) {
            sounding(out, line)?;
        }
    }
    Ok(())
}
