// A fixed generator, so that every run makes the same heaps.
ghost use Rattle.std.specs.Prelude.{◌≤◌};

// The next number: xorshift of 32 bits. It never leaves 0, so it starts from another.
pub fn next(x: u32) -> u32 {
    let a = x ^ (x << 13);
    let b = a ^ (a >> 17);
    b ^ (b << 5)
}

// A number below m, or 0 where there is none.
pub fn below(x: u32, m: u32) -> u32
    ensures { result ≤ m }
{
    if m == 0 {
        return 0;
    }
    (x / 8) % m
}

// The start for sample i: far apart for neighbours.
pub fn start(i: u32) -> u32 {
    let a = i.wrapping_add(2654435769);
    next(next(next(a ^ (a << 7))))
}
