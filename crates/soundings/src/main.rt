// The soundings of document 01 on the calls, on real memory: each line asks the library one thing and prints what came.

#![tactic(auto)]

mod asking;
mod changing;
mod converting;
mod lines;
mod looking;
mod sections;

use std::io;

fn main(rt: HostRuntime) -> io::Result<()> {
    let mut out = rt.stdout();
    converting::soundings(&mut out)?;
    sections::opening(&mut out)?;
    sections::storing(&mut out)?;
    sections::looking(&mut out)?;
    sections::popping(&mut out)
}
