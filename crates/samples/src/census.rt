// What stands in a heap, counted: so that a comparison can show which kinds of heap it met.
ghost use Rattle.std.specs.Prelude.{◌<◌, ◌≤◌};

use conversions::{address_behind, address_numbered, pointer_address};
use leaves::word;
use rules::Address;

// How many there are of each kind.
#[derive(Clone, Copy, Default)]
pub struct Census {
    // pages of regions, and of these the full ones
    pub pages: u32,
    pub full_pages: u32,
    pub records: u32,
    pub raw_values: u32,
    // values of no words
    pub bare_values: u32,
    // fields that are numbers, that point to constants and that point to values
    pub numbers: u32,
    pub to_constants: u32,
    pub to_values: u32,
    // of the last: to their own value, and to another that points back
    pub to_itself: u32,
    pub there_and_back: u32,
}

// So many more.
pub fn add(count: &mut u32, m: u32) {
    *count = count.wrapping_add(m);
}

// Whether a word points to a.
fn points_to(w: usize, a: Address) -> bool
    requires { w < 4294967296 }
{
    w % 4 == 0 && pointer_address(w as u32).0 == a.0
}

// Whether the record at b has a field that points to a.
fn points_back(heap: &[u32], b: Address, a: Address) -> bool
    requires { b.0 < 4294967296 }
{
    let header = word(heap, b.0);
    header % 8 == 1 && (0..header / 8).any(|i| points_to(word(heap, b.0 + 1 + i), a))
}

impl Census {
    // A pointer to a value, in the value at a.
    fn pointer(&mut self, heap: &[u32], a: Address, b: Address)
        requires { b.0 < 4294967296 }
    {
        add(&mut self.to_values, 1);
        if a.0 == b.0 {
            add(&mut self.to_itself, 1);
        } else if points_back(heap, b, a) {
            add(&mut self.there_and_back, 1);
        }
    }

    // A field of the value at a.
    fn field(&mut self, heap: &[u32], a: Address, w: usize)
        requires { w < 4294967296 }
    {
        match w % 4 {
            0 => self.pointer(heap, a, pointer_address(w as u32)),
            2 => add(&mut self.to_constants, 1),
            _ => add(&mut self.numbers, 1),
        }
    }

    // The value at a, whose header this is.
    fn value(&mut self, heap: &[u32], a: Address, header: usize)
        requires { (a.0 < 4294967296) × (header < 4294967296) }
    {
        if header < 8 {
            add(&mut self.bare_values, 1);
        }
        if header % 8 != 1 {
            add(&mut self.raw_values, 1);
            return;
        }
        add(&mut self.records, 1);
        for i in 0..header / 8 {
            self.field(heap, a, word(heap, a.0 + 1 + i));
        }
    }

    // The values from an address to the end of its page.
    fn values(&mut self, heap: &[u32], start: Address, end: Address)
        requires { end.0 < 4294967296 }
    {
        let mut at = start;
        while at.0 < end.0 {
            let header = word(heap, at.0);
            if header == 0 {
                return;
            }
            self.value(heap, at, header);
            at = address_behind(at, 1 + header / 8);
        }
        add(&mut self.full_pages, 1);
    }

    // The page from an address on, if it is a region's.
    fn page(&mut self, heap: &[u32], a: Address, p: usize)
        requires { (a.0 ≤ 65536) × (p ≤ 256) }
    {
        if word(heap, a.0 + 1) == 0 {
            return;
        }
        add(&mut self.pages, 1);
        self.values(heap, address_behind(a, 2), address_behind(a, p));
    }

    // Every page of p words.
    pub fn count(&mut self, heap: &[u32], p: usize)
        requires { (0 < p) × (p ≤ 256) }
    {
        for at in (0..heap.len().min(65536)).step_by(p) {
            self.page(heap, address_numbered(at), p);
        }
    }
}
