// What a line asks for. Of a list of words, of a path and of a text a request holds the tokens.

#![tactic(auto)]

use conversions::{page_numbered, region_numbered};
use rules::{Control, Kind, Page, Region};
use script::numbers::{decimal, narrow, signed, small, word};
use script::tokens::Tokens;

// The four lent parts.
#[derive(Clone, Copy)]
pub enum Part {
    Heap,
    Table,
    Roots,
    Consts,
}

// How many words are lent of each part.
#[derive(Clone, Copy)]
pub struct Lengths {
    pub heap: usize,
    pub table: usize,
    pub roots: usize,
    pub consts: usize,
}

// The operations that make lent words and the record anew.
#[derive(Clone, Copy)]
pub enum Making<'a> {
    Poke(Part, usize, u32),
    Ctl(Control),
    Setup(u32),
    Read(&'a [u8]),
}

// The calls that change lent words or the record.
#[derive(Clone, Copy)]
pub enum Changing<'a> {
    Push,
    Pop,
    Alloc(Region, Kind, Tokens<'a>),
    Assign(u32, usize, u32),
    Root(usize, u32),
    Collect,
}

// The calls that change none.
#[derive(Clone, Copy)]
pub enum Asking<'a> {
    Fetch(u32),
    Page(Page),
    Walk(usize, Tokens<'a>),
    Audit,
    Due,
    Used(Region),
    Num(i64),
    Unnum(u32),
    Write(usize),
}

// What a line asks for, of lent parts.
#[derive(Clone, Copy)]
pub enum Request<'a> {
    Make(Making<'a>),
    Change(Changing<'a>),
    Ask(Asking<'a>),
}

// An index, a length or a number of regions: a decimal.
fn read_index(tokens: &mut Tokens<'_>) -> Option<usize> {
    Some(decimal(tokens.next()?)? as usize)
}

fn read_word(tokens: &mut Tokens<'_>) -> Option<u32> {
    word(tokens.next()?)
}

fn read_small(tokens: &mut Tokens<'_>) -> Option<u32> {
    small(tokens.next()?)
}

fn read_region(tokens: &mut Tokens<'_>) -> Option<Region> {
    Some(region_numbered(read_index(tokens)?))
}

fn read_part(tokens: &mut Tokens<'_>) -> Option<Part> {
    match tokens.next()? {
        b"heap" => Some(Part::Heap),
        b"table" => Some(Part::Table),
        b"roots" => Some(Part::Roots),
        b"consts" => Some(Part::Consts),
        _ => None,
    }
}

fn read_kind(tokens: &mut Tokens<'_>) -> Option<Kind> {
    match tokens.next()? {
        b"rec" => Some(Kind::Record),
        b"raw" => Some(Kind::Raw),
        _ => None,
    }
}

fn read_lengths(tokens: &mut Tokens<'_>) -> Option<Lengths> {
    Some(Lengths {
        heap: read_index(tokens)?,
        table: read_index(tokens)?,
        roots: read_index(tokens)?,
        consts: read_index(tokens)?,
    })
}

fn read_control(tokens: &mut Tokens<'_>) -> Option<Control> {
    Some(Control {
        n: read_small(tokens)?,
        regions: read_small(tokens)?,
        first: read_small(tokens)?,
        last: read_small(tokens)?,
        count: read_small(tokens)?,
    })
}

// The lengths that a line asks to lend, if it does.
pub fn read_lend(line: &[u8]) -> Option<Lengths> {
    let mut tokens = Tokens::of(line);
    let b"lend" = tokens.next()? else {
        return None;
    };
    let lengths = read_lengths(&mut tokens)?;
    if tokens.is_done() {
        Some(lengths)
    } else {
        None
    }
}

// The operations that make lent words and the record anew.
fn read_making<'a>(name: &[u8], tokens: &mut Tokens<'a>) -> Option<Making<'a>> {
    match name {
        b"poke" => Some(Making::Poke(read_part(tokens)?, read_index(tokens)?, read_word(tokens)?)),
        b"ctl" => Some(Making::Ctl(read_control(tokens)?)),
        b"setup" => Some(Making::Setup(narrow(decimal(tokens.next()?)?))),
        b"read" => Some(Making::Read(tokens.next()?)),
        _ => None,
    }
}

// The calls that change lent words or the record.
fn read_changing<'a>(name: &[u8], tokens: &mut Tokens<'a>) -> Option<Changing<'a>> {
    match name {
        b"push" => Some(Changing::Push),
        b"pop" => Some(Changing::Pop),
        b"alloc" => Some(Changing::Alloc(read_region(tokens)?, read_kind(tokens)?, tokens.rest())),
        b"assign" => Some(Changing::Assign(
            read_word(tokens)?,
            read_index(tokens)?,
            read_word(tokens)?,
        )),
        b"root" => Some(Changing::Root(read_index(tokens)?, read_word(tokens)?)),
        b"collect" => Some(Changing::Collect),
        _ => None,
    }
}

// The calls that change none.
fn read_asking<'a>(name: &[u8], tokens: &mut Tokens<'a>) -> Option<Asking<'a>> {
    match name {
        b"fetch" => Some(Asking::Fetch(read_word(tokens)?)),
        b"page" => Some(Asking::Page(page_numbered(read_index(tokens)?))),
        b"walk" => Some(Asking::Walk(read_index(tokens)?, tokens.rest())),
        b"audit" => Some(Asking::Audit),
        b"due" => Some(Asking::Due),
        b"used" => Some(Asking::Used(read_region(tokens)?)),
        b"num" => Some(Asking::Num(signed(tokens.next()?)?)),
        b"unnum" => Some(Asking::Unnum(read_word(tokens)?)),
        b"write" => Some(Asking::Write(read_index(tokens)?)),
        _ => None,
    }
}

// What the operation of a name asks for.
fn read_operation<'a>(name: &[u8], tokens: &mut Tokens<'a>) -> Option<Request<'a>> {
    if let Some(asked) = read_making(name, tokens) {
        return Some(Request::Make(asked));
    }
    if let Some(asked) = read_changing(name, tokens) {
        return Some(Request::Change(asked));
    }
    Some(Request::Ask(read_asking(name, tokens)?))
}

// What a line asks for, if it is an operation on lent parts.
pub fn read_request(line: &[u8]) -> Option<Request<'_>> {
    let mut tokens = Tokens::of(line);
    let request = read_operation(tokens.next()?, &mut tokens)?;
    if tokens.is_done() {
        Some(request)
    } else {
        None
    }
}
