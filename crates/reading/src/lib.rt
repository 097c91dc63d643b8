// The text of an image, read: a first pass judges every frame, a second one fills the parts.

#![tactic(auto)]

ghost use Rattle.std.specs.Prelude.{◌≡◌, true, ◌+◌, ◌*◌, ◌/◌, ◌^◌, ◌≤◌, ◌<◌, length, drop, replicate};
ghost use Rattle.laws.specs.Lists.{at};
ghost use Rattle.rules.specs.Refusals.{Paged};
ghost use Rattle.rules.specs.Image.{head_fits, expected, layout, read_frames, read_text};
ghost use Rattle.scanning.specs.Places.{words_at, after_frame, frame_fits};
ghost use Rattle.reading.specs.Parts.{rest_of, head_list, head_from, judged_as, control_of, part_at, pages_at, lengths_fit};

use conversions::{page_address, page_numbered};
use pages::page_words;
use rules::{Control, Refusal};
use scanning::{Cursor, frame_shape, number, part_frame};

// The first frame's words.
#[derive(Clone, Copy)]
pub struct Head {
    pub n: u32,
    pub pages: u32,
    pub regions: u32,
    pub first: u32,
    pub last: u32,
    pub count: u32,
    pub roots: u32,
    pub consts: u32,
}

// The control record that the first frame gives.
impl From<Head> for Control {
    ghost from_gives = { λ h r. r ≡ control_of h };

    fn from(h: Head) -> Control {
        Control {
            n: h.n,
            regions: h.regions,
            first: h.first,
            last: h.last,
            count: h.count,
        }
    }
}

// The frames of the pages, and nothing behind them.
#[tactic(auto, using(crate::proofs::Lines::pages_more, crate::proofs::Lines::pages_over))]
fn judge_pages(text: &[u8], c: Cursor, pages: usize, most: usize) -> Result<(), Refusal>
    requires { (c.at ≤ 2 ^ 32) × (c.line ≤ 5) × (pages ≤ 65536) }
    ensures { result ≡ rest_of (read_frames c.line (replicate pages (expected 5 most)) (drop c.at text.now)) }
{
    let mut here = c;
    for _ in 0..pages {
        here = part_frame(text, here, 5, most)?;
    }
    if here.at < text.len() {
        return Err(Refusal::Malformed(here.line));
    }
    Ok(())
}

// The words of the first frame.
#[tactic(auto, unfolding(scanning::specs::Places::words_at))]
pub fn read_head(text: &[u8]) -> Head
    ensures { result ≡ head_from (words_at 8 text.now 6) }
{
    Head {
        n: number(text, 6, 8),
        pages: number(text, 14, 8),
        regions: number(text, 22, 8),
        first: number(text, 30, 8),
        last: number(text, 38, 8),
        count: number(text, 46, 8),
        roots: number(text, 54, 8),
        consts: number(text, 62, 8),
    }
}

// How many words so many pages have.
pub fn heap_words(pages: u32, n: u32) -> usize
    requires { n ≤ 8 }
    ensures { result ≡ pages * 2 ^ n }
{
    (pages as usize) << n
}

// Whether n, N, R, roots and constants are within their limits.
#[tactic(auto, using(laws::proofs::Tests::tests), unfolding(rules::specs::Image::head_fits))]
fn head_fits(h: Head) -> bool
    ensures { result ≡ head_fits (head_list h) }
{
    4 <= h.n
        && h.n <= 8
        && 2 <= h.pages
        && heap_words(h.pages, h.n) <= 65536
        && h.regions <= 64
        && h.roots <= 1024
        && h.consts <= 65535
}

// Whether the text begins with a well formed first frame.
#[tactic(auto, using(laws::proofs::Tests::tests, crate::proofs::Heads::eight_words), unfolding(scanning::specs::Places::frame_fits))]
fn head_frame(text: &[u8]) -> bool
    ensures { result ≡ frame_fits 1 head_fits text.now 0 }
{
    frame_shape(text, 0, 1) && number(text, 2, 4) == 8 && head_fits(read_head(text))
}

// The frames behind a first frame.
fn judge_parts(text: &[u8], h: Head) -> Result<(), Refusal>
    requires { head_fits (head_list h) ≡ true }
    ensures { result ≡ rest_of (read_frames 2 (layout (head_list h)) (drop 71 text.now)) }
{
    let table = Cursor { at: 71, line: 2 };
    let roots = part_frame(text, table, 2, 4 * h.regions as usize)?;
    let consts = part_frame(text, roots, 3, h.roots as usize)?;
    let first = part_frame(text, consts, 4, h.consts as usize)?;
    judge_pages(text, first, h.pages as usize, page_words(h.n))
}

// The first pass: the first frame's words, or the line of the first malformed frame.
#[tactic(auto, using(crate::proofs::Heads::head_fits_lem, crate::proofs::Heads::judged_stop, crate::proofs::Heads::judged_on))]
pub fn judge(text: &[u8]) -> Result<Head, Refusal>
    ensures { result ≡ judged_as (read_text text.now) }
{
    if !head_frame(text) {
        return Err(Refusal::Malformed(1));
    }
    let h = read_head(text);
    judge_parts(text, h)?;
    Ok(h)
}

// Word i of the count words from a place on, 0 behind them.
#[tactic(auto, using(crate::proofs::Fills::words_outside, crate::proofs::Fills::words_inside))]
fn word_at(text: &[u8], from: usize, count: usize, i: usize) -> u32
    requires { (from ≤ 2 ^ 41) × (i ≤ 65536) }
    ensures { result ≡ at (words_at count text.now from) i }
{
    if i < count {
        number(text, from + 8 * i, 8)
    } else {
        0
    }
}

// Fills a part from the frame that begins at a place. The answer is the place behind the frame.
#[tactic(auto, using(crate::proofs::Fills::part_turn, crate::proofs::Fills::part_end))]
pub fn fill_part(text: &[u8], from: usize, part: &mut [u32]) -> usize
    requires { (from ≤ 2 ^ 40) × (length part.old ≤ 65536) }
    ensures { (part.new ≡ part_at (length part.old) text.now from)
        × (result ≡ after_frame text.now from)
        × (result ≤ from + 524287) }
{
    let count = number(text, from + 2, 4) as usize;
    for (i, word) in part.iter_mut().enumerate() {
        *word = word_at(text, from + 6, count, i);
    }
    from + 7 + 8 * count
}

// Fills the pages from the frames that begin at a place.
pub fn fill_pages(text: &[u8], from: usize, heap: &mut [u32], n: u32, pages: usize)
    requires { (from ≤ 2 ^ 32) × Paged n (length heap.old) × (pages ≡ length heap.old / 2 ^ n) }
    ensures { heap.new ≡ pages_at pages (2 ^ n) text.now from }
{
    let p = page_words(n);
    let mut i = from;
    for k in 0..pages {
        let start = page_address(page_numbered(k), n);
        let low = start.0;
        let high = low + p;
        i = fill_part(text, i, &mut heap[low..high]);
    }
}

// Whether the lent parts have exactly the lengths that the first frame says, and the table 256.
#[tactic(auto, using(laws::proofs::Tests::tests), unfolding(crate::specs::Parts::lengths_fit))]
pub fn lengths_fit(h: Head, heap: usize, table: usize, roots: usize, consts: usize) -> bool
    requires { h.n ≤ 8 }
    ensures { result ≡ lengths_fit h heap table roots consts }
{
    heap == heap_words(h.pages, h.n)
        && table == 256
        && roots == h.roots as usize
        && consts == h.consts as usize
}
