// The lines, as `lines` reads them.
use crate::lines;
use std::io;
use std::io::Write;

// Setting up and push.
pub fn opening(out: &mut impl Write) -> io::Result<()> {
    writeln!(out, "Setting up and push")?;
    lines::all(
        out,
        "set up P 16, N 2, two roots: |on 32 256 2 0||open 4
push: |on 32 256 2 0||push 1
push again: |on 32 256 2 0|push 1;|push 1
push with no page left: |on 32 256 2 0|push 2;|push 1
set up n 3: |on 64 256 2 0||open 3
set up n 9: |on 64 256 2 0||open 9
set up one page, P 64: |on 64 256 2 0||open 6
set up 40 words, P 16: |on 40 256 2 0||open 4
set up a table of 257 words: |on 32 257 2 0||open 4
set up 1,025 roots: |on 32 256 1025 0||open 4
push with 64 regions, a page free: |on 1040 256 2 0|push 64;|push 1\n",
    )
}

// Allocation, and whether a collection is due. Of the refusals 5 comes before 8, and 8 before 7.
pub fn storing(out: &mut impl Write) -> io::Result<()> {
    writeln!(out, "Allocation and due")?;
    lines::all(
        out,
        "allocate 13 words: |on 48 256 1 0|push 1;|record 0 1 1 1 1 1 1 1 1 1 1 1 1 1
allocate no words: |on 48 256 1 0|push 1;record 0 1 1 1 1 1 1 1 1 1 1 1 1 1;|record 0
allocate 14 words: |on 48 256 1 0|push 1;record 0 1 1 1 1 1 1 1 1 1 1 1 1 1;record 0;|record 0 1 1 1 1 1 1 1 1 1 1 1 1 1 1
allocate 14 words in region 1 of 1: |on 48 256 1 0|push 1;record 0 1 1 1 1 1 1 1 1 1 1 1 1 1;record 0;|record 1 1 1 1 1 1 1 1 1 1 1 1 1 1 1
allocate a record of 4: |on 48 256 1 0|push 1;record 0 1 1 1 1 1 1 1 1 1 1 1 1 1;record 0;|record 0 4
allocate 14 words 4: |on 48 256 1 0|push 1;record 0 1 1 1 1 1 1 1 1 1 1 1 1 1;record 0;|record 0 4 4 4 4 4 4 4 4 4 4 4 4 4 4
allocate raw words 4 8: |on 48 256 1 0|push 1;record 0 1 1 1 1 1 1 1 1 1 1 1 1 1;record 0;|words 0 4 8
allocate 13 words again: |on 48 256 1 0|push 1;record 0 1 1 1 1 1 1 1 1 1 1 1 1 1;record 0;words 0 4 8;|record 0 1 1 1 1 1 1 1 1 1 1 1 1 1
allocate no words, no page left: |on 48 256 1 0|push 1;record 0 1 1 1 1 1 1 1 1 1 1 1 1 1;record 0;words 0 4 8;record 0 1 1 1 1 1 1 1 1 1 1 1 1 1;|record 0
allocate where a is 1: |on 48 256 1 0|push 1;table 2 1;|record 0 1
due, 42 of 128 pages free: |on 2048 256 0 0|control 0 1 128 42;|due
due, 43 of 128 pages free: |on 2048 256 0 0|control 0 1 128 43;|due\n",
    )
}

// Fetch, page, walk, assign and set root, on the heap of "Sh" with a record of the number 7 in the constants.
pub fn looking(out: &mut impl Write) -> io::Result<()> {
    writeln!(out, "Fetch, page, walk, assign, set root")?;
    lines::all(
        out,
        "fetch 8:|on 32 256 1 2|label;|fetch 8
fetch 20:|on 32 256 1 2|label;|fetch 20
fetch 2:|on 32 256 1 2|label;|fetch 2
fetch 12:|on 32 256 1 2|label;|fetch 12
fetch 6:|on 32 256 1 2|label;|fetch 6
fetch 1:|on 32 256 1 2|label;|fetch 1
fetch 0:|on 32 256 1 2|label;|fetch 0
page 0:|on 32 256 1 2|label;|view 0
page 1:|on 32 256 1 2|label;|view 1
page 2:|on 32 256 1 2|label;|view 2
walk from root 0: |on 32 256 1 2|label;|go 0
walk from root 0 by 0: |on 32 256 1 2|label;|go 0 0
walk from root 0 by 1: |on 32 256 1 2|label;|go 0 1
walk from root 0 by 0, 0: |on 32 256 1 2|label;|go 0 0 0
walk from root 0 by 1, 0: |on 32 256 1 2|label;|go 0 1 0
walk from root 0 by 2: |on 32 256 1 2|label;|go 0 2
walk from root 1: |on 32 256 1 2|label;|go 1
walk from root 0, which is 12: |on 32 256 1 2|label;spoil 0 12;|go 0
assign 5 to field 1 of 20: |on 32 256 1 2|label;|assign 20 1 5
assign 20 to field 0 of 20: |on 32 256 1 2|label;assign 20 1 5;|assign 20 0 20
assign 1 to field 0 of 12: |on 32 256 1 2|label;|assign 12 0 1
assign 1 to field 0 of 6: |on 32 256 1 2|label;|assign 6 0 1
assign 1 to field 0 of 1: |on 32 256 1 2|label;|assign 1 0 1
assign 1 to field 0 of 2: |on 32 256 1 2|label;|assign 2 0 1
assign 1 to field 0 of 8: |on 32 256 1 2|label;|assign 8 0 1
assign 1 to field 2 of 20: |on 32 256 1 2|label;|assign 20 2 1
assign 12 to field 0 of 20: |on 32 256 1 2|label;|assign 20 0 12
root 0 to 8: |on 32 256 1 2|label;|name 0 8
root 0 to 2: |on 32 256 1 2|label;name 0 8;|name 0 2
root 1 to 8: |on 32 256 1 2|label;name 0 2;|name 1 8
root 0 to 12: |on 32 256 1 2|label;name 0 2;|name 0 12\n",
    )
}

// Used words and pop. A collection drops the dead value. In the two lines before the last a record in region 1 is its own field, and region 0
// has its pointer: first in a record, then as a raw word. In the last a region's pages go back in the order of their chain.
pub fn popping(out: &mut impl Write) -> io::Result<()> {
    writeln!(out, "Used words and pop")?;
    lines::all(
        out,
        "used words of region 0: |on 32 256 1 0|label;|used 0
used words of region 1 of 1: |on 32 256 1 0|label;|used 1
used words of region 0 with a dead value: |on 32 256 1 0|label;words 0 1;|used 0
used words of region 0 after a collection: |on 32 256 1 0|label;words 0 1;|collected 0
used words of region 1 of 1, a field being 12: |on 32 256 1 0|label;heap 6 12;|used 1
pop with no region: |on 32 256 1 0||end
pop while a root points into it: |on 32 256 1 0|label;|end
pop with a root that is 12: |on 32 256 1 0|label;spoil 0 12;|end
pop while a field points into it: |on 64 256 1 0|push 2;record 1 1;record 0 72;assign 72 0 72;|end
pop with its own field and a raw word: |on 64 256 1 0|push 2;record 1 1;words 0 72;assign 72 0 72;|end
pop of two pages: |on 48 256 1 0|push 1;words 0 5 5 5 5 5 5 5 5 5 5 5 5 5;words 0 5;|end\n",
    )
}
