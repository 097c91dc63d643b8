// The size of a heap.

ghost use Rattle.std.specs.Prelude.{◌≤◌};

// How many pages a heap has, and their exponent.
#[derive(Clone, Copy)]
pub struct Pages {
    pub count: usize,
    pub n: u32,
    ghost few: { (count ≤ 65536) × (n ≤ 8) },
}
