// What a sample is to be like: its page size, its pages, its regions, and how many pages stay free.
ghost use Rattle.std.specs.Prelude.{◌<◌, ◌≤◌};

use crate::chance::{below, next};

#[derive(Clone, Copy)]
pub struct Shape {
    pub n: u32,
    pub pages: u32,
    pub regions: u32,
    // pages that stay free
    pub keep: u32,
    pub roots: u32,
    // of four fields, so many are pointers to values
    pub pointers: u32,
}

// The pages of 65,536 words.
fn most_pages(n: u32) -> u32
    ensures { (0 < result) × (result ≤ 4096) }
{
    match n {
        4 => 4096,
        5 => 2048,
        6 => 1024,
        7 => 512,
        _ => 256,
    }
}

// Mostly a few pages, now and then all that a heap can have.
fn pages_for(x: u32, n: u32) -> u32 {
    let y = next(x);
    match below(x, 16) {
        0..=3 => 2 + below(y, 14),
        4..=13 => 8 + below(y, 120),
        14 => 2 + below(y, most_pages(n) - 1),
        _ => most_pages(n),
    }
}

fn regions_for(x: u32) -> u32 {
    let y = next(x);
    match below(x, 8) {
        0 => below(y, 2),
        1..=5 => 1 + below(y, 4),
        6 => 1 + below(y, 20),
        _ => 64,
    }
}

// A quarter of the samples are left with few free pages.
fn keep_for(x: u32, pages: u32, regions: u32) -> u32 {
    let y = next(x);
    match below(x, 4) {
        0 => below(y, 2 * (regions % 65) + 3),
        _ => below(y, pages),
    }
}

fn roots_for(x: u32) -> u32 {
    let y = next(x);
    match below(x, 16) {
        0 => 1024,
        _ => below(y, 12),
    }
}

// The shape of the sample with this start.
pub fn shape_of(x: u32) -> Shape {
    let a = next(x);
    let b = next(a);
    let c = next(b);
    let d = next(c);
    let n = 4 + below(x, 5) % 5;
    let pages = pages_for(a, n);
    let regions = regions_for(b);
    Shape {
        n,
        pages,
        regions,
        keep: keep_for(c, pages, regions),
        roots: roots_for(d),
        pointers: below(next(d), 5),
    }
}
