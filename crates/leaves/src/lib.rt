// What the collection reads and writes: words, pages and regions by any number, rows, copies, the scan stack. Each function does what its definition in
// motion says, whatever the heap holds: what would leave a slice is not done, so that no fact about pages, regions or headers is wanted.

#![tactic(auto)]

ghost use Rattle.std.specs.Prelude.{◌≡◌, ◌-◌, ◌≤◌, ◌<◌, set, IfSome};
ghost use Rattle.laws.specs.Lists.{at};
ghost use Rattle.laws.specs.Each.{after};
ghost use Rattle.rules.specs.Memory.{address_page, link_page, end_of, first_of, top_of, status_of, set_end, set_first, set_top, set_status};
ghost use Rattle.motion.specs.Leaves.{low as low_def, page_start, region_on, apart as apart_def, copied, forwarded, wake as wake_def, pop as pop_def, Fitting};

use conversions::{
    address_numbered, address_page, address_pointer, link_page, origin_region, page_address,
    page_numbered, region_numbered,
};
use motion::{DEPTH, Desk, Entry, STACK};
use rules::{Address, Page, Region};

pub mod chain;
pub mod size;

// The word at i, 0 outside.
pub fn word(s: &[u32], i: usize) -> usize
    ensures { (result ≡ at s.now i) × (result < 4294967296) }
{
    s.get(i).map_or(0, |w| *w as usize)
}

// The word at i set, nothing outside.
pub fn write(s: &mut [u32], i: usize, v: usize)
    requires { v < 4294967296 }
    ensures { s.new ≡ set s.old i v }
{
    if i < s.len() {
        s[i] = v as u32;
    }
}

// A word's 32 bits.
pub fn low(v: usize) -> usize
    ensures { (result ≡ low_def v) × (result < 4294967296) }
{
    v % 4294967296
}

// The address of page k, and one past every heap where k is no page of any.
fn page_start(k: Page, n: u32) -> Address
    requires { n ≤ 8 }
    ensures { (result.0 ≡ page_start n k.0) × (result.0 ≤ 16777216) }
{
    if k.0 <= 65536 {
        return page_address(k, n);
    }
    address_numbered(16777216)
}

// The address of the page that a link names.
pub fn link_start(link: usize, n: u32) -> Address
    requires { (link < 4294967296) × (n ≤ 8) }
    ensures { (result.0 ≡ page_start n (link_page link)) × (result.0 ≤ 16777216) }
{
    if link == 0 {
        return page_start(page_numbered(0), n);
    }
    page_start(link_page(link as u32), n)
}

// The address of the page that an address lies in.
pub fn start_at(a: Address, n: u32) -> Address
    requires { n ≤ 8 }
    ensures { (result.0 ≡ page_start n (address_page n a.0)) × (result.0 ≤ 16777216) }
{
    page_start(address_page(a, n), n)
}

// The region of the page that an address lies in.
pub fn region_at(desk: &Desk<'_>, a: Address) -> Region
    ensures { (result.0 ≡ region_on desk.now.n a.0 desk.now.heap.now) × (result.0 < 4294967296) }
{
    let start = start_at(a, desk.n);
    let origin = word(desk.heap, start.0 + 1);
    if origin == 0 {
        return region_numbered(0);
    }
    origin_region(origin as u32)
}

// ---- The rows, of the table and of the notes.

// Region j's e.
pub fn end_of(rows: &[u32], j: Region) -> Address
    requires { j.0 < 4294967296 }
    ensures { (result.0 ≡ end_of rows.now j.0) × (result.0 < 4294967296) }
{
    address_numbered(word(rows, 4 * j.0))
}

// Region j's fp.
pub fn first_of(rows: &[u32], j: Region) -> Address
    requires { j.0 < 4294967296 }
    ensures { (result.0 ≡ first_of rows.now j.0) × (result.0 < 4294967296) }
{
    address_numbered(word(rows, 4 * j.0 + 1))
}

// Region j's a.
pub fn top_of(rows: &[u32], j: Region) -> Address
    requires { j.0 < 4294967296 }
    ensures { (result.0 ≡ top_of rows.now j.0) × (result.0 < 4294967296) }
{
    address_numbered(word(rows, 4 * j.0 + 2))
}

// Region j's b.
fn status_of(rows: &[u32], j: Region) -> usize
    requires { j.0 < 4294967296 }
    ensures { result ≡ status_of rows.now j.0 }
{
    word(rows, 4 * j.0 + 3)
}

pub fn set_end(rows: &mut [u32], j: Region, e: Address)
    requires { (j.0 < 4294967296) × (e.0 < 4294967296) }
    ensures { rows.new ≡ set_end rows.old j.0 e.0 }
{
    write(rows, 4 * j.0, e.0);
}

pub fn set_first(rows: &mut [u32], j: Region, fp: Address)
    requires { (j.0 < 4294967296) × (fp.0 < 4294967296) }
    ensures { rows.new ≡ set_first rows.old j.0 fp.0 }
{
    write(rows, 4 * j.0 + 1, fp.0);
}

pub fn set_top(rows: &mut [u32], j: Region, a: Address)
    requires { (j.0 < 4294967296) × (a.0 < 4294967296) }
    ensures { rows.new ≡ set_top rows.old j.0 a.0 }
{
    write(rows, 4 * j.0 + 2, a.0);
}

pub fn set_status(rows: &mut [u32], j: Region, b: usize)
    requires { (j.0 < 4294967296) × (b < 4294967296) }
    ensures { rows.new ≡ set_status rows.old j.0 b }
{
    write(rows, 4 * j.0 + 3, b);
}

// ---- Copying.

// Whether m words at a and m words at b lie within a size, and apart.
fn apart(m: usize, a: Address, b: Address, size: usize) -> bool
    requires { (m ≤ 4294967296) × (a.0 < 4294967296) × (b.0 < 4294967296) }
    ensures { result ≡ apart_def m a.0 b.0 size }
{
    a.0 + m <= size && b.0 + m <= size && (a.0 + m <= b.0 || b.0 + m <= a.0)
}

// The m words at a, at b as well, where both lie in the heap and apart.
pub fn copy(heap: &mut [u32], a: Address, b: Address, m: usize)
    requires { (a.0 < 4294967296) × (b.0 < 4294967296) × (m ≤ 4294967296) }
    ensures { heap.new ≡ copied m a.0 b.0 heap.old }
{
    if apart(m, a, b, heap.len()) {
        heap.copy_within(a.0..a.0 + m, b.0);
    }
}

// The pointer to b at a.
#[tactic(auto, unfolding(motion::specs::Leaves::forwarded))]
pub fn forward(heap: &mut [u32], a: Address, b: Address)
    ensures { heap.new ≡ forwarded a.0 b.0 heap.old }
{
    if b.0 <= 65536 {
        write(heap, a.0, address_pointer(b) as usize);
    }
}

// ---- The scan stack.

// The copy at b is region j's first unscanned one, if the region has none yet.
#[tactic(auto, unfolding(motion::specs::Leaves::wake_on))]
pub fn wake(notes: &mut [u32], j: Region, b: Address)
    requires { (j.0 < 4294967296) × (b.0 < 4294967296) }
    ensures { notes.new ≡ wake_def j.0 b.0 notes.old }
{
    let status = status_of(notes, j);
    if status != 0 {
        return;
    }
    let d = word(notes, DEPTH);
    set_status(notes, j, 1);
    write(notes, STACK + 2 * d, b.0);
    write(notes, STACK + 2 * d + 1, j.0);
    write(notes, DEPTH, low(d + 1));
}

// The entry that was pushed last.
#[tactic(auto, unfolding(motion::specs::Leaves::pop_on))]
pub fn pop(notes: &mut [u32]) -> Option<Entry>
    ensures { (after (Ok result) notes.new ≡ pop_def notes.old) × (IfSome result Fitting) }
{
    let i = word(notes, DEPTH).checked_sub(1)?;
    let address = address_numbered(word(notes, STACK + 2 * i));
    let region = region_numbered(word(notes, STACK + 2 * i + 1));
    write(notes, DEPTH, i);
    Some(Entry { region, address })
}
