// Lines of the soundings:
//   audit, R is 0: |on 32 1 2 7|label;control 0 2 2 1;|audit
//   read it with n 3: |on 32 1 0 0 202 13|3|read
// The numbers are the lengths of the heap, the roots and the constants, and the field of the constants' record. A question about an image's text
// needs no recipe and no constants: there the fourth number is how many bytes a write is lent, the fifth how many bytes of the text are read, and
// the sixth the place of a byte that is another: the one that stands where a recipe would.
use crate::asking::{asks_heap, asks_image, reads};
use recipes::cutting::{Line, first_words, line_of, numbers_of};
use recipes::heaps::{NO_RECORD, Parts};
use std::io;
use std::io::Write;

// The image's text with another byte at a place; the place 0 stands for none.
fn changed(image: &[u8; 256], at: u32, byte: Option<&u8>) -> [u8; 256] {
    let mut text = *image;
    if 0 < at
        && let (Some(place), Some(byte)) = (text.get_mut(at as usize), byte)
    {
        *place = *byte;
    }
    text
}

// A line, on parts whose words are all 7, and a record of one word.
fn sounding(out: &mut impl Write, image: &[u8; 256], line: Line<'_>) -> io::Result<()> {
    let mut row = [0; 16];
    numbers_of(line.numbers, &mut row);
    let mut heap = [7; 128];
    let mut table = [7; 256];
    let mut roots = [7; 4];
    let mut consts = [9, row[3]];
    let mut read = consts;
    let mut parts = Parts {
        heap: first_words(&mut heap, row[0]),
        table: &mut table,
        roots: first_words(&mut roots, row[1]),
        consts: first_words(&mut consts, row[2]),
        control: NO_RECORD,
    };
    write!(out, "{}", line.heading)?;
    if !reads(line.question) {
        return asks_heap(out, &mut parts, line.recipe, line.question);
    }
    let text = changed(image, row[5], line.recipe.as_bytes().first());
    let text = text.get(..row[4] as usize).unwrap_or(&text);
    let read = first_words(&mut read, row[2]);
    asks_image(out, &mut parts, read, text, line.question, row[3])
}

// A text of lines. The image's text is for the lines that ask about one.
pub fn all(out: &mut impl Write, image: &[u8; 256], lines: &str) -> io::Result<()> {
    for text in lines.lines() {
        if let Some(line) = line_of(text) {
            sounding(out, image, line)?;
        }
    }
    Ok(())
}
