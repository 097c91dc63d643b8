// Compares the collector with a second one, independent in method, on many heaps made at random, and with the answers of outside images.

#![tactic(auto)]

mod report;

use outside_images::image_of;
use rules::Lent;
use samples::chance;
use samples::making::make;
use samples::shape::{Shape, shape_of};
use std::io;
use std::io::Write;
use std::rt::Files;
use trials::both;
use trials::counts::Sums;

// A sample made in lent parts, and tried: it is collected twice, and counted before and after.
fn tried(
    heap: &mut [u32],
    table: &mut [u32],
    roots: &mut [u32],
    consts: &[u32],
    x: u32,
    shape: Shape,
    sums: &mut Sums,
) {
    let c = make(heap, table, roots, consts, x, shape);
    sums.made(heap, roots, c);
    if let Ok(control) = both(heap, table, roots, consts, c, sums) {
        sums.left(Lent {
            heap,
            table,
            roots,
            consts,
            control,
        });
    }
}

// Sample number i. One of more words or roots than a heap may have is left out.
fn sample(i: u32, consts: &[u32], sums: &mut Sums) {
    let x = chance::start(i);
    let shape = shape_of(x);
    let words = (shape.pages as usize) << (shape.n % 16);
    let mut heap = [0u32; 65536];
    let mut table = [0u32; 256];
    let mut roots = [0u32; 1024];
    let (Some(heap), Some(roots)) = (heap.get_mut(..words), roots.get_mut(..shape.roots as usize))
    else {
        return;
    };
    tried(heap, &mut table, roots, consts, x, shape, sums);
}

fn samples_compared(out: &mut impl Write) -> io::Result<()> {
    // records of a number and of the first two, a raw "Sh", a record of no words
    let consts = [9u32, 7, 19, 83, 104, 17, 2, 10, 1, 0];
    let mut sums = Sums::default();
    for i in 0..4000 {
        sample(i, &consts, &mut sums);
    }
    report::samples(out, &sums)
}

fn images_compared(rt: &impl Files, out: &mut impl Write) -> io::Result<()> {
    let mut sums = Sums::default();
    for i in 0..1000 {
        if !image_of(rt, i, &mut sums)? {
            break;
        }
    }
    report::images(out, &sums)
}

fn main(rt: HostRuntime) -> io::Result<()> {
    let mut out = rt.stdout();
    samples_compared(&mut out)?;
    images_compared(&rt, &mut out)
}
