// The report: what was met, and how it came out.
use samples::census::Census;
use std::io;
use std::io::Write;
use trials::counts::Sums;

fn shapes(out: &mut impl Write, sums: &Sums) -> io::Result<()> {
    let [.., n4, n5, n6, n7, n8] = sums.of_exponent;
    writeln!(out, "heaps {}", sums.heaps)?;
    writeln!(out, "  of pages of 16 words {n4}")?;
    writeln!(out, "  of pages of 32 words {n5}")?;
    writeln!(out, "  of pages of 64 words {n6}")?;
    writeln!(out, "  of pages of 128 words {n7}")?;
    writeln!(out, "  of pages of 256 words {n8}")?;
    writeln!(out, "  of no region {}", sums.of_no_region)?;
    writeln!(out, "  of 64 regions {}", sums.of_all_regions)?;
    writeln!(out, "  of 65,536 words {}", sums.of_all_words)?;
    writeln!(out, "  of 1,024 roots {}", sums.of_all_roots)?;
    writeln!(
        out,
        "  with fewer free pages than regions {}",
        sums.few_free
    )?;
    writeln!(out, "roots that point to values {}", sums.roots_to_values)
}

fn pages(out: &mut impl Write, c: &Census) -> io::Result<()> {
    writeln!(out, "  pages of regions {}", c.pages)?;
    writeln!(out, "  full pages {}", c.full_pages)
}

fn values(out: &mut impl Write, c: &Census) -> io::Result<()> {
    writeln!(out, "  records {}", c.records)?;
    writeln!(out, "  raw values {}", c.raw_values)?;
    writeln!(out, "  values of no words {}", c.bare_values)
}

fn fields(out: &mut impl Write, c: &Census) -> io::Result<()> {
    writeln!(out, "  fields that are numbers {}", c.numbers)?;
    writeln!(out, "  fields that point to constants {}", c.to_constants)?;
    writeln!(out, "  fields that point to values {}", c.to_values)?;
    writeln!(
        out,
        "  fields that point to their own value {}",
        c.to_itself
    )?;
    writeln!(
        out,
        "  fields that point to a value that points back {}",
        c.there_and_back
    )
}

// A census, under a title.
fn kinds(out: &mut impl Write, title: &str, c: &Census) -> io::Result<()> {
    writeln!(out, "{title}")?;
    pages(out, c)?;
    values(out, c)?;
    fields(out, c)
}

fn endings(out: &mut impl Write, sums: &Sums) -> io::Result<()> {
    writeln!(out, "finished {}", sums.finished)?;
    writeln!(out, "  that gained pages {}", sums.gained)?;
    writeln!(out, "  pages gained {}", sums.pages_gained)?;
    writeln!(out, "  that lost pages {}", sums.lost)?;
    writeln!(out, "  pages lost {}", sums.pages_lost)?;
    writeln!(
        out,
        "  that fail the audit afterwards {}",
        sums.broken_after
    )?;
    writeln!(out, "refused for want of a page {}", sums.no_page)?;
    writeln!(
        out,
        "  after each region had its fresh page {}",
        sums.no_page_later
    )?;
    writeln!(out, "refused else {}", sums.refused_else)?;
    writeln!(out, "differences {}", sums.differences)
}

pub fn samples(out: &mut impl Write, sums: &Sums) -> io::Result<()> {
    shapes(out, sums)?;
    kinds(out, "before the collections", &sums.before)?;
    kinds(out, "after those that finished", &sums.living)?;
    endings(out, sums)
}

pub fn images(out: &mut impl Write, sums: &Sums) -> io::Result<()> {
    writeln!(out, "images {}", sums.heaps)?;
    writeln!(out, "  finished {}", sums.finished)?;
    writeln!(out, "  refused for want of a page {}", sums.no_page)?;
    writeln!(out, "  refused else {}", sums.refused_else)?;
    writeln!(out, "  collectors that differ {}", sums.differences)?;
    writeln!(
        out,
        "  texts that differ from their answers {}",
        sums.texts_differ
    )
}
