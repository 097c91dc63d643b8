// The image of document 01's example, written, read back and written again; then each kind of damage that the document names, done to it one
// at a time, with the number and the place that reading answers (0 0 where it is no damage).

#![tactic(auto)]

ghost use Rattle.std.specs.Prelude.{◌≤◌};

use conversions::{refusal_number, refusal_place};
use image::{read_image, write_image};
use rules::{Control, Lent, Refusal, Refused};
use std::io;
use std::io::Write;

// Where the lines behind the first begin, and where the text ends.
const TABLE: usize = 71;

const ROOTS: usize = 102;

const CONSTS: usize = 117;

const PAGE0: usize = 124;

const PAGE1: usize = 195;

const END: usize = 202;

fn main(rt: HostRuntime) -> io::Result<()> {
    let mut out = rt.stdout();
    let mut image = [0u8; 202];
    example(&mut out, &mut image)?;
    read_back(&mut out, &image)?;
    no_damage(&mut out, &image)?;
    other_bytes(&mut out, &image)?;
    kept_zeros(&mut out, &image)?;
    out_of_order(&mut out, &image)?;
    too_many_words(&mut out, &image)?;
    cut_short(&mut out, &image)?;
    missing(&mut out, &image)?;
    past_the_last(&mut out, &image)?;
    outside_limits(&mut out, &image)?;
    other_lengths(&mut out, &image)?;
    not_written(&mut out)
}

// The heap of the example: a raw value of two words and a record that names it, in the first of two pages.
fn example_heap() -> [u32; 32] {
    let mut heap = [0u32; 32];
    heap[1] = 1;
    heap[2] = 0x13;
    heap[3] = 0x53;
    heap[4] = 0x68;
    heap[5] = 0x11;
    heap[6] = 8;
    heap[7] = 0xf;
    heap
}

fn example_table() -> [u32; 256] {
    let mut table = [0u32; 256];
    table[0] = 16;
    table[2] = 8;
    table
}

fn example_control(first: u32) -> Control {
    Control {
        n: 4,
        regions: 1,
        first,
        last: 2,
        count: 1,
    }
}

// What writing the example answers, with h words of its heap, this free first and this word behind the table's row.
fn written(h: usize, first: u32, behind: u32, bytes: &mut [u8]) -> Result<(u32, Control), Refused>
    requires { h ≤ 32 }
{
    let heap = example_heap();
    let mut table = example_table();
    table[4] = behind;
    let lent = Lent {
        heap: &heap[..h],
        table: &table,
        roots: &[0x14],
        consts: &[],
        control: example_control(first),
    };
    write_image(lent, bytes)
}

// The example, written into bytes that it just fits.
fn example(out: &mut impl Write, bytes: &mut [u8; 202]) -> io::Result<()> {
    let answer = written(32, 2, 0, bytes);
    print_image(out, answer, bytes)
}

// Read into parts that hold other words, and written again.
fn read_back(out: &mut impl Write, image: &[u8; 202]) -> io::Result<()> {
    let mut heap = [7u32; 32];
    let mut table = [7u32; 256];
    let mut roots = [7u32; 1];
    let mut consts = [0u32; 0];
    let mut bytes = [0u8; 202];
    match read_image(image, &mut heap, &mut table, &mut roots, &mut consts) {
        Err(why) => answer(out, "read back", Err(why)),
        Ok(control) => {
            let lent = Lent {
                heap: &heap,
                table: &table,
                roots: &roots,
                consts: &consts,
                control,
            };
            let written = write_image(lent, &mut bytes);
            print_image(out, written, &bytes)
        }
    }
}

// Free first, last and count are not looked at, and a heap may have more regions than pages: both are the audit's questions.
fn no_damage(out: &mut impl Write, image: &[u8; 202]) -> io::Result<()> {
    damaged(out, "no damage", image, END, END, "")?;
    damaged(
        out,
        "free list unlooked at",
        image,
        30,
        54,
        "ffffffffffffffffffffffff",
    )?;
    damaged(out, "regions above pages", image, 22, 30, "00000003")
}

// "with any other byte"
fn other_bytes(out: &mut impl Write, image: &[u8; 202]) -> io::Result<()> {
    damaged(out, "upper-case digit", image, PAGE0 + 69, PAGE0 + 70, "F")?;
    damaged(
        out,
        "upper-case digit in a count",
        image,
        PAGE1,
        END,
        "05000A00000000000000000000000000000000000000000000000000000000000000000000000000000001\n",
    )?;
    damaged(out, "letter past f", image, TABLE + 29, TABLE + 30, "g")?;
    damaged(out, "space for a digit", image, ROOTS + 13, ROOTS + 14, " ")?;
    damaged(out, "carriage return", image, 70, 70, "\r")?;
    damaged(out, "empty line", image, ROOTS, ROOTS, "\n")?;
    damaged(out, "digit too many", image, CONSTS + 6, CONSTS + 6, "0")?;
    damaged(out, "two frames on a line", image, ROOTS - 1, ROOTS, "")
}

// "Kinds 02 to 05 drop their trailing zero words, and a frame that keeps one is malformed."
fn kept_zeros(out: &mut impl Write, image: &[u8; 202]) -> io::Result<()> {
    damaged(
        out,
        "kept zero, table",
        image,
        TABLE,
        ROOTS,
        "02000400000010000000000000000800000000\n",
    )?;
    damaged(
        out,
        "kept zero, roots",
        image,
        ROOTS,
        CONSTS,
        "03000100000000\n",
    )?;
    damaged(
        out,
        "kept zero, constants",
        image,
        62,
        PAGE0,
        "00000001\n020003000000100000000000000008\n03000100000014\n04000100000000\n",
    )?;
    damaged(
        out,
        "kept zero, page",
        image,
        PAGE1,
        END,
        "05000100000000\n",
    )
}

// "out of order"
fn out_of_order(out: &mut impl Write, image: &[u8; 202]) -> io::Result<()> {
    damaged(
        out,
        "roots before table",
        image,
        TABLE,
        CONSTS,
        "03000100000014\n020003000000100000000000000008\n",
    )?;
    damaged(
        out,
        "constants before roots",
        image,
        ROOTS,
        PAGE0,
        "040000\n03000100000014\n",
    )?;
    damaged(out, "first frame of kind 02", image, 0, 2, "02")?;
    damaged(out, "page of kind 06", image, PAGE1, PAGE1 + 2, "06")
}

// "with more words than its part"; the first frame has "always 8 words".
fn too_many_words(out: &mut impl Write, image: &[u8; 202]) -> io::Result<()> {
    damaged(
        out,
        "first frame, seven words",
        image,
        2,
        70,
        "000700000004000000020000000100000002000000020000000100000001",
    )?;
    damaged(
        out,
        "first frame, nine words",
        image,
        2,
        70,
        "0009000000040000000200000001000000020000000200000001000000010000000000000000",
    )?;
    damaged(
        out,
        "five table words",
        image,
        TABLE,
        ROOTS,
        "0200050000001000000000000000080000000000000001\n",
    )?;
    damaged(
        out,
        "two roots",
        image,
        ROOTS,
        CONSTS,
        "0300020000001400000001\n",
    )?;
    damaged(
        out,
        "one constant",
        image,
        CONSTS,
        PAGE0,
        "04000100000001\n",
    )?;
    damaged(
        out,
        "seventeen words in a page",
        image,
        PAGE1,
        END,
        "0500110000000000000000000000000000000000000000000000000000000000000000000000000000000000000000000000000000000000000000000000000000000000000000000001\n",
    )
}

// "cut short"
fn cut_short(out: &mut impl Write, image: &[u8; 202]) -> io::Result<()> {
    damaged(out, "digit short", image, PAGE0 + 69, PAGE0 + 70, "")?;
    damaged(out, "word short", image, PAGE0 + 62, PAGE0 + 70, "")?;
    damaged(
        out,
        "count one word short",
        image,
        PAGE0 + 2,
        PAGE0 + 6,
        "0007",
    )?;
    damaged(
        out,
        "count without words",
        image,
        PAGE1 + 2,
        PAGE1 + 6,
        "ffff",
    )?;
    damaged(out, "text cut in a line", image, CONSTS + 3, END, "")?;
    damaged(out, "no last newline", image, END - 1, END, "")
}

// "or missing"
fn missing(out: &mut impl Write, image: &[u8; 202]) -> io::Result<()> {
    damaged(out, "no text", image, 0, END, "")?;
    damaged(out, "no first frame", image, 0, TABLE, "")?;
    damaged(out, "first frame alone", image, TABLE, END, "")?;
    damaged(out, "no constants", image, CONSTS, PAGE0, "")?;
    damaged(out, "no last page", image, PAGE1, END, "")
}

// "or one past the last"
fn past_the_last(out: &mut impl Write, image: &[u8; 202]) -> io::Result<()> {
    damaged(out, "page past the last", image, END, END, "050000\n")?;
    damaged(out, "newline past the last", image, END, END, "\n")?;
    damaged(out, "digit past the last", image, END, END, "0")
}

// "in the first frame also n, N, R, roots or constants outside their limits"
fn outside_limits(out: &mut impl Write, image: &[u8; 202]) -> io::Result<()> {
    damaged(out, "n 3", image, 6, 14, "00000003")?;
    damaged(out, "n 9", image, 6, 14, "00000009")?;
    damaged(out, "N 1", image, 14, 22, "00000001")?;
    damaged(out, "N 4097", image, 14, 22, "00001001")?;
    damaged(out, "N that would wrap", image, 14, 22, "10000002")?;
    damaged(out, "R 65", image, 22, 30, "00000041")?;
    damaged(out, "1025 roots", image, 54, 62, "00000401")?;
    damaged(out, "65536 constants", image, 62, 70, "00010000")
}

// "14, then 1 unless the lent parts have exactly the stated lengths, the table 256"
fn other_lengths(out: &mut impl Write, image: &[u8; 202]) -> io::Result<()> {
    lengths(out, "heap a page short", image, 16, 256, 1, 0)?;
    lengths(out, "heap a page long", image, 48, 256, 1, 0)?;
    lengths(out, "table of 255", image, 32, 255, 1, 0)?;
    lengths(out, "two roots lent", image, 32, 256, 2, 0)?;
    lengths(out, "a constant lent", image, 32, 256, 1, 1)?;
    lengths(out, "14 before 1", b"", 16, 256, 1, 0)
}

// Writing tests the lengths, then the common test, then "table words past 4R not 0 give 2, text longer than the lent bytes 1".
fn not_written(out: &mut impl Write) -> io::Result<()> {
    writing(out, "text that just fits", 32, 2, 0, 202)?;
    writing(out, "text a byte too long", 32, 2, 0, 201)?;
    writing(out, "table past 4R", 32, 2, 1, 202)?;
    writing(out, "table before bytes", 32, 2, 1, 201)?;
    writing(out, "free first above N", 32, 3, 0, 202)?;
    writing(out, "heap of no whole pages", 31, 3, 1, 202)
}

// The image with its bytes from `from` to `to` replaced.
fn damaged(
    out: &mut impl Write,
    name: &str,
    image: &[u8; 202],
    from: usize,
    to: usize,
    new: &str,
) -> io::Result<()>
    requires { (from ≤ to) × (to ≤ 202) }
{
    let bytes = image[..from]
        .iter()
        .chain(new.as_bytes())
        .chain(&image[to..]);
    let mut text = [0u8; 512];
    for (place, byte) in text.iter_mut().zip(bytes) {
        *place = *byte;
    }
    let end = from + new.len() + (image.len() - to);
    lengths(out, name, text.get(..end).unwrap_or(&text), 32, 256, 1, 0)
}

// Reads a text into parts of these lengths.
fn lengths(
    out: &mut impl Write,
    name: &str,
    text: &[u8],
    h: usize,
    t: usize,
    r: usize,
    k: usize,
) -> io::Result<()>
    requires { (h ≤ 48) × (t ≤ 256) × (r ≤ 2) × (k ≤ 1) }
{
    let mut heap = [7u32; 48];
    let mut table = [7u32; 256];
    let mut roots = [7u32; 2];
    let mut consts = [7u32; 1];
    let read = read_image(
        text,
        &mut heap[..h],
        &mut table[..t],
        &mut roots[..r],
        &mut consts[..k],
    );
    answer(out, name, read)
}

// Writes the example with a heap of h words, another free first, a word behind the table's row and room for so many bytes.
fn writing(
    out: &mut impl Write,
    name: &str,
    h: usize,
    first: u32,
    behind: u32,
    room: usize,
) -> io::Result<()>
    requires { (h ≤ 32) × (room ≤ 202) }
{
    let mut bytes = [0u8; 202];
    let written = written(h, first, behind, &mut bytes[..room]);
    answer(out, name, written.map(|(_, c)| c).map_err(|e| e.why))
}

// The text that writing an image left at the start of these bytes.
fn print_image(
    out: &mut impl Write,
    written: Result<(u32, Control), Refused>,
    bytes: &[u8],
) -> io::Result<()> {
    match written {
        Err(refused) => answer(out, "written", Err(refused.why)),
        Ok((length, _)) => out.write_all(bytes.get(..length as usize).unwrap_or(&[])),
    }
}

// A line of a name, and a refusal's number and place, 0 0 where there is none.
fn answer(out: &mut impl Write, name: &str, answer: Result<Control, Refusal>) -> io::Result<()> {
    let (number, place) = match answer {
        Ok(_) => (0, 0),
        Err(why) => (refusal_number(why), refusal_place(why)),
    };
    writeln!(out, "{name}: {number} {place}")
}
