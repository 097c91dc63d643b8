// The lent parts as they stand after a call.
ghost use Rattle.std.specs.Prelude.{◌<◌, ◌≡◌};
ghost use Rattle.telling.specs.Sums.{sum_of};

use crate::say::{Record, Words};
use rules::{Control, Lent};
use std::io;
use std::io::Write;

// The record, the table, the roots and the pages. Every heap that is shown has pages of 16 words, as those of document 01's soundings.
pub fn show(out: &mut impl Write, lent: Lent<'_>) -> io::Result<()> {
    let record = Record(lent.control);
    let table = Words(lent.table);
    let roots = Words(lent.roots);
    write!(
        out,
        "; record {record}, table {table}, roots {roots}, pages"
    )?;
    for page in lent.heap.chunks_exact(16) {
        write!(out, " {}", Words(page))?;
    }
    writeln!(out)
}

// The roots, where nothing else is to be seen.
pub fn only_roots(out: &mut impl Write, roots: &[u32]) -> io::Result<()> {
    writeln!(out, ", roots {}", Words(roots))
}

// A sum of the words in their order: what stood before a call is told from what stands after it.
pub fn sum(lent: Lent<'_>) -> u64
    ensures below { result < 4294967291 }
    ensures words { result ≡ sum_of lent.entry }
{
    let mut sum = 1;
    for w in lent.heap.iter().chain(lent.table).chain(lent.roots) {
        sum = (sum * 31 + u64::from(*w)) % 4294967291;
    }
    sum
}

// What a call left: that nothing changed, or the record and the parts.
pub fn report(
    out: &mut impl Write,
    before: u64,
    given: Control,
    after: Lent<'_>,
) -> io::Result<()> {
    if given == after.control && before == sum(after) {
        return writeln!(out, "; nothing changed");
    }
    show(out, after)
}
