// The images of data/: each is read, collected and written, and the text compared with its answer.

#![tactic(auto)]

ghost use Rattle.std.specs.Prelude.{◌≤◌};

use conversions::{refusal_number, refusal_place};
use image::{read_image, write_image};
use reading::{Head, judge};
use rules::{Control, Lent, Refusal};
use samples::census::add;
use script::filling::fill;
use std::fs::File;
use std::io::Write;
use std::rt::Files;
use std::{io, str};
use trials::both;
use trials::counts::Sums;
use writing::write_frame;

// The bytes of file number i; how many there are. A file that is missing has none.
fn read_numbered(rt: &impl Files, i: u32, ending: &str, text: &mut [u8]) -> io::Result<usize> {
    let mut path = [0u8; 16];
    let mut rest = &mut path[..];
    write!(rest, "{i:03}.{ending}")?;
    let Ok(name) = str::from_utf8(&path) else {
        return Ok(0);
    };
    let Ok(mut file) = File::open(rt, name.trim_end_matches('\0')) else {
        return Ok(0);
    };
    fill(&mut file, text)
}

// Whether the line that the program "collect" prints for a refusal is the expected text.
fn refused_so(why: Refusal, expected: &[u8]) -> bool {
    let mut out = [0u8; 23];
    write_frame(&mut out, 0, 255, &[refusal_number(why), refusal_place(why)]);
    out.as_slice() == expected
}

// Whether a heap's text is the expected one.
fn written_so(lent: Lent<'_>, expected: &[u8]) -> bool {
    let mut out = [0u8; 4096];
    match write_image(lent, &mut out) {
        Ok((k, _)) => out.get(..k as usize) == Some(expected),
        Err(_) => expected.is_empty(),
    }
}

// Both collectors on the heap that was read; whether the text of what the first one left, or its refusal's, is the expected one.
fn collected(
    heap: &mut [u32],
    table: &mut [u32],
    roots: &mut [u32],
    consts: &[u32],
    c: Control,
    expected: &[u8],
    sums: &mut Sums,
) -> bool {
    match both(heap, table, roots, consts, c, sums) {
        Ok(control) => written_so(
            Lent {
                heap,
                table,
                roots,
                consts,
                control,
            },
            expected,
        ),
        Err(refused) => refused_so(refused.why, expected),
    }
}

// The same of a text that is an image, read into lent parts of its lengths.
fn through(
    text: &[u8],
    heap: &mut [u32],
    table: &mut [u32],
    roots: &mut [u32],
    consts: &mut [u32],
    expected: &[u8],
    sums: &mut Sums,
) -> bool {
    match read_image(text, heap, table, roots, consts) {
        Ok(c) => collected(heap, table, roots, consts, c, expected, sums),
        Err(why) => refused_so(why, expected),
    }
}

// The lengths are those that the first frame states. An image that is too large is not as expected.
fn sized(text: &[u8], h: Head, expected: &[u8], sums: &mut Sums) -> bool {
    let words = (h.pages as usize) << (h.n % 16);
    let r = h.roots as usize;
    let k = h.consts as usize;
    let mut heap = [0u32; 4096];
    let mut table = [0u32; 256];
    let mut roots = [0u32; 1024];
    let mut consts = [0u32; 1024];
    if 4096 < words || 1024 < r || 1024 < k {
        return false;
    }
    through(
        text,
        &mut heap[..words],
        &mut table,
        &mut roots[..r],
        &mut consts[..k],
        expected,
        sums,
    )
}

// Whether a text comes out as the expected one.
fn answered(text: &[u8], expected: &[u8], sums: &mut Sums) -> bool {
    match judge(text) {
        Ok(h) => sized(text, h, expected, sums),
        Err(why) => refused_so(why, expected),
    }
}

// Whether the text of image number i comes out as its answer.
fn as_answered(rt: &impl Files, i: u32, text: &[u8], sums: &mut Sums) -> io::Result<bool> {
    let mut bytes = [0u8; 4096];
    let m = read_numbered(rt, i, "out", &mut bytes)?;
    Ok(
        bytes
            .get(..m)
            .is_some_and(|expected| answered(text, expected, sums)),
    )
}

// Image number i; false where there is none.
pub fn image_of(rt: &impl Files, i: u32, sums: &mut Sums) -> io::Result<bool> {
    let mut bytes = [0u8; 4096];
    let n = read_numbered(rt, i, "in", &mut bytes)?;
    if n == 0 {
        return Ok(false);
    }
    add(&mut sums.heaps, 1);
    if let Some(text) = bytes.get(..n)
        && !as_answered(rt, i, text, sums)?
    {
        add(&mut sums.texts_differ, 1);
    }
    Ok(true)
}
