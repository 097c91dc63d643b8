// The text of an image by places: bytes, digits, numbers, and one frame. A byte outside the text is 0, which is neither a digit nor a
// newline, so that any bytes may be read at any place.

#![tactic(auto)]

ghost use Rattle.std.specs.Prelude.{◌≡◌, ◌+◌, ◌^◌, ◌≤◌, ◌<◌};
ghost use Rattle.laws.specs.Lists.{at};
ghost use Rattle.rules.specs.Image.{part_fits};
ghost use Rattle.scanning.specs.Places.{digit, all_digits, number_at, words_at, frame_shape, frame_step};

use rules::Refusal;

// Where a frame begins, and its line, from 1.
#[derive(Clone, Copy)]
pub struct Cursor {
    pub at: usize,
    pub line: u32,
}

// The byte at a place, 0 outside.
fn byte_at(text: &[u8], i: usize) -> u8
    ensures { result ≡ at text.now i }
{
    text.get(i).copied().unwrap_or(0)
}

// What a byte stands for as a digit.
#[tactic(auto, using(laws::proofs::Tests::tests), unfolding(crate::specs::Places::digit, rules::specs::Image::value_of))]
fn digit(b: u8) -> Option<u32>
    ensures { result ≡ digit b }
{
    match b {
        b'0'..=b'9' => Some((b - b'0') as u32),
        b'a'..=b'f' => Some((b - b'a') as u32 + 10),
        _ => None,
    }
}

// Whether m digits stand from a place on.
fn all_digits(text: &[u8], from: usize, m: usize) -> bool
    requires { from + m ≤ 2 ^ 63 }
    ensures { result ≡ all_digits m text.now from }
{
    (from..from + m).all(|i| digit(byte_at(text, i)).is_some())
}

// The number that m digits give; a byte that is no digit counts as 0.
pub fn number(text: &[u8], from: usize, m: u32) -> u32
    requires { (m ≤ 8) × (from ≤ 2 ^ 62) }
    ensures { (result ≡ number_at m 0 text.now from) × (result < 16 ^ m) }
{
    let mut v = 0;
    for i in from..from + m as usize {
        v = 16 * v + digit(byte_at(text, i)).unwrap_or(0);
    }
    v
}

// Whether a frame of a kind begins at a place: digits, the kind, as many words as it says, and the newline.
#[tactic(auto, using(laws::proofs::Tests::tests), unfolding(crate::specs::Places::frame_shape))]
pub fn frame_shape(text: &[u8], from: usize, kind: u32) -> bool
    requires { from ≤ 2 ^ 40 }
    ensures { result ≡ frame_shape kind text.now from }
{
    let count = number(text, from + 2, 4) as usize;
    all_digits(text, from, 6)
        && number(text, from, 2) == kind
        && all_digits(text, from + 6, 8 * count)
        && byte_at(text, from + 6 + 8 * count) == b'\n'
}

// Whether the count words from a place on fit a part: at most as many, and the last one not 0.
#[tactic(auto, using(laws::proofs::Tests::tests, crate::proofs::Frames::fits_long, crate::proofs::Frames::fits_none, crate::proofs::Frames::fits_last))]
fn part_fits(text: &[u8], from: usize, count: usize, most: usize) -> bool
    requires { (from ≤ 2 ^ 41) × (count ≤ 65536) }
    ensures { result ≡ part_fits most (words_at count text.now from) }
{
    count <= most && (count == 0 || number(text, from + 8 * (count - 1), 8) != 0)
}

// The frame of a part: the cursor behind it, or the line where it is malformed.
#[tactic(auto, using(laws::proofs::Tests::tests), unfolding(crate::specs::Places::frame_step, crate::specs::Places::frame_fits))]
pub fn part_frame(text: &[u8], c: Cursor, kind: u32, most: usize) -> Result<Cursor, Refusal>
    requires { (c.at ≤ 2 ^ 40) × (c.line ≤ 2 ^ 20) }
    ensures { result ≡ frame_step text.now c kind most }
{
    let count = number(text, c.at + 2, 4) as usize;
    if frame_shape(text, c.at, kind) && part_fits(text, c.at + 6, count, most) {
        Ok(Cursor {
            at: c.at + 7 + 8 * count,
            line: c.line + 1,
        })
    } else {
        Err(Refusal::Malformed(c.line))
    }
}
