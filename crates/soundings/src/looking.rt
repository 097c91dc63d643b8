// Questions that leave the parts as they are.
use access::{fetch, fetch_refusal};
use conversions::{page_numbered, region_numbered};
use due::due;
use page_views::{page_by_number, page_refusal};
use paths::walk;
use rules::{Control, Lent, Refused};
use std::io;
use std::io::Write;
use telling::say::{Answer, Given, Words};
use used::used_words;

// What a call gave, or its refusal.
fn told(answer: Result<Given, Refused>) -> Answer {
    Answer(answer.map_err(|refused| refused.why))
}

// What a call gave that counts or finds a word.
fn worded(answer: Result<(u32, Control), Refused>) -> Answer {
    told(answer.map(|(w, _)| Given::Word(w)))
}

// A value, and what the call says of it.
pub(crate) fn fetches(out: &mut impl Write, lent: Lent<'_>, w: u32) -> io::Result<()> {
    let value = Words(fetch(lent, w));
    let answer = told(fetch_refusal(lent, w).map(|_| Given::Done));
    writeln!(out, " {value}, {answer}")
}

// A page, how many words it has, and what the call says of it.
pub(crate) fn views(out: &mut impl Write, lent: Lent<'_>, k: u32) -> io::Result<()> {
    let k = page_numbered(k as usize);
    let page = page_by_number(lent, k);
    let answer = told(page_refusal(lent, k).map(|_| Given::Done));
    writeln!(out, " {}, words {}, {answer}", Words(page), page.len())
}

pub(crate) fn walks(
    out: &mut impl Write,
    lent: Lent<'_>,
    root: u32,
    path: &[u32],
) -> io::Result<()> {
    writeln!(out, "{}", worded(walk(lent, root as usize, path)))
}

pub(crate) fn asks_due(out: &mut impl Write, lent: Lent<'_>) -> io::Result<()> {
    writeln!(out, "{}", told(due(lent).map(|(yes, _)| Given::Told(yes))))
}

pub(crate) fn uses(out: &mut impl Write, lent: Lent<'_>, j: u32) -> io::Result<()> {
    let j = region_numbered(j as usize);
    writeln!(out, "{}", worded(used_words(lent, j)))
}
