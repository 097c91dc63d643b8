// The types that every call shares. What the words mean is in specs/, a file for each section of document 01.

#![tactic(auto)]

// A page's number.
#[derive(Clone, Copy)]
pub struct Page(pub usize);

// A region's number.
#[derive(Clone, Copy)]
pub struct Region(pub usize);

// The address of a word: of the heap or of the constants.
#[derive(Clone, Copy)]
pub struct Address(pub usize);

// The control record: page exponent, number of regions, and the free list as links (a page's number plus 1, or 0) with its count.
#[repr(C)]
#[derive(Clone, Copy, PartialEq, Eq)]
pub struct Control {
    pub n: u32,
    pub regions: u32,
    pub first: u32,
    pub last: u32,
    pub count: u32,
}

// Whether a value's words are numbers and pointers, or mean nothing to the collector.
#[derive(Clone, Copy)]
pub enum Kind {
    Record,
    Raw,
}

// Why a call was refused, in the order of document 01's numbers. What a case holds is its place.
#[derive(Clone, Copy)]
pub enum Refusal {
    Limits,
    Broken(u32),
    RegionsFull,
    NoPage,
    NoRegion,
    Held,
    NotGood,
    TooLong,
    NoFields,
    NoSuch,
    Constant,
    NoNumber,
    Malformed(u32),
}

// Why a call was refused, and the control record as it was given.
#[derive(Clone, Copy)]
pub struct Refused {
    pub why: Refusal,
    pub control: Control,
}

// What a call is lent to read, and the control record that it is given.
#[derive(Clone, Copy)]
pub struct Lent<'a> {
    pub heap: &'a [u32],
    pub table: &'a [u32],
    pub roots: &'a [u32],
    pub consts: &'a [u32],
    pub control: Control,
}
