// The text of an image, written: digits, words, frames, and the frames of a store. Each part is told where it begins; its length is
// counted beforehand by the functions at the end, so that nothing is written where the text does not fit.

#![tactic(auto)]

ghost use Rattle.std.specs.Prelude.{◌≡◌, ◌+◌, ◌-◌, ◌*◌, ◌/◌, ◌^◌, ◌≤◌, ◌<◌, ◌≢◌, ℕ, length, slice_index, EachIndex, MatchOption};
ghost use Rattle.std.proofs.lemmas.List.Edits.{sets};
ghost use Rattle.rules.specs.Memory.{store};
ghost use Rattle.rules.specs.Refusals.{Paged};
ghost use Rattle.rules.specs.Image.{digit_of, hex, hex_words, frame, trim, page_frames, image_text};

use conversions::page_numbered;
use limits::Admitted;
use pages::{page_count, page_part};

// The digit of a number below 16.
#[tactic(auto, using(laws::proofs::Tests::tests), unfolding(rules::specs::Image::digit_of))]
fn digit(d: u32) -> u8
    requires { d < 16 }
    ensures { result ≡ digit_of d }
{
    if d < 10 {
        return b'0' + d as u8;
    }
    b'a' + (d as u8 - 10)
}

// The last m digits of w.
#[tactic(auto, using(rules::proofs::Frames::digits_turn, rules::proofs::Frames::digits_end))]
fn write_digits(bytes: &mut [u8], at: usize, w: u32, m: u32)
    requires { (m ≤ 8) × (at + m ≤ length bytes.old) }
    ensures { bytes.new ≡ sets bytes.old at (hex m w) }
{
    let mut i = at;
    for behind in (0..m).rev() {
        bytes[i] = digit((w >> (4 * behind)) % 16);
        i += 1;
    }
}

// The words, eight digits each.
#[tactic(auto, using(rules::proofs::Frames::words_turn, rules::proofs::Frames::words_end))]
fn write_words(bytes: &mut [u8], at: usize, words: &[u32])
    requires { at + 8 * length words.now ≤ length bytes.old }
    ensures { bytes.new ≡ sets bytes.old at (hex_words words.now) }
{
    for (i, w) in words.iter().enumerate() {
        write_digits(bytes, at + 8 * i, *w, 8);
    }
}

// A frame: kind, word count, words, newline.
#[tactic(auto, using(rules::proofs::Frames::frame_sets))]
pub fn write_frame(bytes: &mut [u8], at: usize, kind: u32, words: &[u32])
    requires { (length words.now ≤ 65536) × (at + 7 + 8 * length words.now ≤ length bytes.old) }
    ensures { bytes.new ≡ sets bytes.old at (frame kind words.now) }
{
    let count = words.len();
    write_digits(bytes, at, kind, 2);
    write_digits(bytes, at + 2, count as u32, 4);
    write_words(bytes, at + 6, words);
    let end = at + 6 + 8 * count;
    bytes[end] = b'\n';
}

// The place of the last word that is not 0.
fn last_word(words: &[u32]) -> Option<usize>
    ensures { MatchOption result
        (EachIndex words.now (λ k. slice_index words.now k ≡ 0))
        (λ i. (i < length words.now)
        × (slice_index words.now i ≢ 0)
        × ((k : ℕ) → i < k → k < length words.now → slice_index words.now k ≡ 0)) }
{
    words.iter().rposition(|w| *w != 0)
}

// How many words stay when the trailing zeros are dropped.
fn kept(words: &[u32]) -> usize
    ensures { result ≡ length (trim words.now) }
{
    match last_word(words) {
        Some(last) => last + 1,
        None => 0,
    }
}

// The frame of a part, its trailing zeros dropped. The answer is where the frame ends.
#[tactic(auto, using(rules::proofs::Frames::length_trim, rules::proofs::Frames::trim_part))]
fn write_part(bytes: &mut [u8], at: usize, kind: u32, part: &[u32]) -> usize
    requires { (length part.now ≤ 65536) × (at + (7 + 8 * length (trim part.now)) ≤ length bytes.old) }
    ensures { (bytes.new ≡ sets bytes.old at (frame kind (trim part.now)))
        × (result ≡ at + (7 + 8 * length (trim part.now))) }
{
    let m = kept(part);
    write_frame(bytes, at, kind, &part[0..m]);
    at + 7 + 8 * m
}

// The frames of all pages.
#[tactic(auto, using(rules::proofs::Frames::pages_turn, rules::proofs::Frames::pages_room, rules::proofs::Frames::pages_text_end))]
fn write_pages(bytes: &mut [u8], at: usize, heap: &[u32], n: u32, pages: usize)
    requires { Paged n (length heap.now)
        × (pages ≡ length heap.now / 2 ^ n)
        × (at + length (page_frames n heap.now pages 0) ≤ length bytes.old) }
    ensures { bytes.new ≡ sets bytes.old at (page_frames n heap.now pages 0) }
{
    let mut i = at;
    for k in 0..pages {
        i = write_part(bytes, i, 5, page_part(heap, n, page_numbered(k)));
    }
}

// The whole text.
pub fn write_text(bytes: &mut [u8], heap: Admitted<'_>)
    requires { length (image_text (store heap.lent)) ≤ length bytes.old }
    ensures { bytes.new ≡ sets bytes.old 0 (image_text (store heap.entry.lent)) }
{
    let lent = heap.lent;
    let c = lent.control;
    let pages = page_count(lent.heap.len(), c.n);
    let head = [
        c.n,
        pages as u32,
        c.regions,
        c.first,
        c.last,
        c.count,
        lent.roots.len() as u32,
        lent.consts.len() as u32,
    ];
    let rows = 4 * c.regions as usize;
    write_frame(bytes, 0, 1, &head);
    let after_table = write_part(bytes, 71, 2, &lent.table[0..rows]);
    let after_roots = write_part(bytes, after_table, 3, lent.roots);
    let after_consts = write_part(bytes, after_roots, 4, lent.consts);
    write_pages(bytes, after_consts, lent.heap, c.n, pages);
}

// How long a part's frame is.
#[tactic(auto, using(rules::proofs::Frames::length_trim))]
fn part_length(part: &[u32]) -> usize
    requires { length part.now ≤ 65536 }
    ensures { (result ≡ 7 + 8 * length (trim part.now)) × (result ≤ 524295) }
{
    7 + 8 * kept(part)
}

// How long the frames of all pages are.
#[tactic(auto, using(rules::proofs::Frames::page_text, rules::proofs::Frames::pages_text_length, rules::proofs::Frames::pages_text_end))]
fn pages_length(heap: &[u32], n: u32, pages: usize) -> usize
    requires { Paged n (length heap.now) × (pages ≡ length heap.now / 2 ^ n) }
    ensures { (result ≡ length (page_frames n heap.now pages 0)) × (result ≤ 2055 * pages) }
{
    let mut total = 0;
    for k in 0..pages {
        total += part_length(page_part(heap, n, page_numbered(k)));
    }
    total
}

// How long the whole text is.
pub fn text_length(heap: Admitted<'_>) -> usize
    ensures { (result ≡ length (image_text (store heap.entry.lent))) × (result < 2 ^ 32) }
{
    let lent = heap.lent;
    let c = lent.control;
    let pages = page_count(lent.heap.len(), c.n);
    let rows = 4 * c.regions as usize;
    71 + part_length(&lent.table[0..rows])
        + part_length(lent.roots)
        + part_length(lent.consts)
        + pages_length(lent.heap, c.n, pages)
}
