// The lines, as `lines` reads them.
use crate::lines;
use std::io;
use std::io::Write;

// The heap of "Sh" passes; each line spoils it in one place, or two, and is told the first broken rule.
pub fn auditing(out: &mut impl Write, image: &[u8; 256]) -> io::Result<()> {
    writeln!(out, "The audit")?;
    lines::all(
        out,
        image,
        "audit, nothing spoiled: |on 32 1 2 7|label;|audit
audit, R is 65: |on 32 1 2 7|label;control 65 2 2 1;|audit
audit, free first is 3 of 2 pages: |on 32 1 2 7|label;control 1 3 2 1;|audit
audit, free count is 0 and free first 2: |on 32 1 2 7|label;control 1 2 2 0;|audit
audit, free count is 2: |on 32 1 2 7|label;control 1 2 2 2;|audit
audit, free last is 1: |on 32 1 2 7|label;control 1 2 1 1;|audit
audit, R is 0: |on 32 1 2 7|label;control 0 2 2 1;|audit
audit, b of region 0 is 1: |on 32 1 2 7|label;table 3 1;|audit
audit, the table word past 4R is 1: |on 32 1 2 7|label;table 4 1;|audit
audit, fp is 1: |on 32 1 2 7|label;table 1 1;|audit
audit, e is 32: |on 32 1 2 7|label;table 0 32;|audit
audit, a is 17: |on 32 1 2 7|label;table 2 17;|audit
audit, a is 7: |on 32 1 2 7|label;table 2 7;|audit
audit, page 0 links to page 1: |on 32 1 2 7|label;heap 0 2;|audit
audit, the free page has an origin: |on 32 1 2 7|label;heap 17 1;|audit
audit, a header is 20: |on 32 1 2 7|label;heap 2 20;|audit
audit, a word behind a is 1: |on 32 1 2 7|label;heap 9 1;|audit
audit, a field is 12: |on 32 1 2 7|label;heap 6 12;|audit
audit, a word of the free page is 1: |on 32 1 2 7|label;heap 20 1;|audit
audit, a root is 12: |on 32 1 2 7|label;spoil 0 12;|audit
audit, a constant's field is 8: |on 32 1 2 8|label;|audit
audit, a constant's field is 8 and a root is 12: |on 32 1 2 8|label;spoil 0 12;|audit
audit, a free page's word is 1 and a is 17: |on 32 1 2 7|label;heap 20 1;table 2 17;|audit\n",
    )
}

// The heap of "Sh"; then a record of itself, and two records, each the other's field. Of the lines with no value that the roots name:
// none at all; a raw value in region 1 and a record of it in region 0; none, and a free page is lacking before any root is looked at.
pub fn collecting(out: &mut impl Write, image: &[u8; 256]) -> io::Result<()> {
    writeln!(out, "The collection")?;
    lines::all(
        out,
        image,
        "collect \"Sh\": |on 32 1 2 7|label;|collect
collect a record of itself: |on 32 1 2 7|push 1;record 0 1;assign 8 0 8;name 0 8;|collect
collect two roots of one value: |on 32 2 2 7|push 1;record 0 1;record 0 8;assign 8 0 16;name 0 8;name 1 8;|collect
collect 7, 7, 10, 4 words, three pages free: |on 80 4 2 7|four;|collect
collect 7, 7, 10, 4 words, two pages free: |on 64 4 2 7|four;|collect
collect R 0, roots all numbers: |on 32 3 2 7||collect
collect no live value: |on 64 2 2 7|push 2;words 1 5;record 0 72;name 0 2;|collect
collect two empty regions, one page free: |on 48 1 2 7|push 2;|collect
collect a root that is 12: |on 32 1 2 7|label;spoil 0 12;|collect\n",
    )
}

// The slips that document 01 has seen elsewhere, in its order: on each heap a collector that makes the slip leaves other words.
//   A page that ends full: a record in region 1 and a record in region 0 that fills a page, each the other's field. The page after the full one
// is region 1's: the scan of region 0 is over where that page starts.
//   Full pages with pages behind: a value in each region that fills its page, and a value more in each, in a page more: in region 0 a record of
// the first. What stands at the end of region 0's full page is the link of region 1's, and looks like a header.
//   A region met while it is scanned: two records of numbers in region 0, in region 1 a record of the second, and a record of that one and of the
// first, which becomes a record of it. Region 0 is being scanned when its second value is copied: pushed again, its field would be evacuated
// twice.
//   Raw words: they are the pointers to the value itself, to its last word and past the heap.
//   Pages free before and after: the values do not fit as many pages after the collection as before.
pub fn slips(out: &mut impl Write, image: &[u8; 256]) -> io::Result<()> {
    writeln!(out, "Slips")?;
    lines::all(
        out,
        image,
        "collect a page that ends full: |on 64 1 2 7|push 2;record 1 1;record 0 72 1 1 1 1 1 1 1 1 1 1 1 1;assign 72 0 8;name 0 8;|collect
collect full pages with pages behind: |on 128 4 2 7|push 2;record 0 1 1 1 1 1 1 1 1 1 1 1 1 1;words 1 5 5 5 5 5 5 5 5 5 5 5 5 5;record 0 8;words 1 3;name 0 8;name 1 72;name 2 136;name 3 200;|collect
collect a region met while it is scanned: |on 64 1 2 7|push 2;record 0 1;record 0 3;record 1 16;record 0 72 8;assign 8 0 24;name 0 24;|collect
collect raw words 8 20 4000: |on 32 1 2 7|push 1;words 0 8 20 4000;name 0 8;|collect
collect with a page too few: |on 64 4 2 7|four;|collect
pages free before and after 7, 7, 10, 4 words: |on 80 4 2 7|four;|free\n",
    )
}

// The example of document 01 has 202 bytes.
pub fn images(out: &mut impl Write, image: &[u8; 256]) -> io::Result<()> {
    writeln!(out, "Image text")?;
    lines::all(
        out,
        image,
        "read the example: |on 32 1 0 0 202||parts
write it into 201 bytes: |on 32 1 0 201 202||write
collect and write it:|on 32 1 0 256 202||moved
read it into two roots: |on 32 2 0 0 202||names
read no text: |on 32 1 0 0 0||read
read its first line: |on 32 1 0 0 71||read
read it without its last byte: |on 32 1 0 0 201||read
read it with n 3: |on 32 1 0 0 202 13|3|read
read it with two frames of kind 05: |on 32 1 0 0 202 118|5|read
read it with a capital F: |on 32 1 0 0 202 193|F|read
read it with a zero word kept: |on 32 1 0 0 202 193|0|read
read it with a newline more: |on 32 1 0 0 203||read\n",
    )
}
