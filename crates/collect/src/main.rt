// Reads an image on standard input and prints the collected one, or the refusal.

#![tactic(auto)]

use desk::collect_text;
use script::filling::fill;
use std::io::{self, Write};

fn main(rt: HostRuntime) -> io::Result<()> {
    // One byte more than the longest text that is taken, so that a longer one is seen to be longer.
    let mut text = [0u8; 53085];
    let mut out = [0u8; 53084];
    let n = fill(&mut rt.stdin(), &mut text)?;
    let m = collect_text(&text[..n], &mut out);
    rt.stdout().write_all(&out[0..m])
}
