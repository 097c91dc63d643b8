// The soundings of document 01 on the audit, the collection and the image text, on real memory: each line asks the library one thing and
// prints what came. Standard input is the example of document 01: its heap of "Sh", before the collection.

#![tactic(auto)]

mod asking;
mod lines;
mod sections;

use script::filling::fill;
use std::io;
use std::io::Write;

fn soundings(out: &mut impl Write, image: &[u8; 256]) -> io::Result<()> {
    sections::auditing(out, image)?;
    sections::collecting(out, image)?;
    sections::slips(out, image)?;
    sections::images(out, image)
}

// Behind the image's text stand newlines, for the line that reads one too many.
fn main(rt: HostRuntime) -> io::Result<()> {
    let mut image = [10u8; 256];
    fill(&mut rt.stdin(), &mut image)?;
    soundings(&mut rt.stdout(), &image)
}
