// A second collector, written from document 01 and independent of the first in method. It reads the heap and never writes it: copies are
// numbered and listed region by region, forwards stand in a side table, and the pages are laid out anew in a second heap. It is there to be
// compared with the first, so it is plain; it is proved safe and ending.
//
// All that belongs to a heap stands in one slice, so that two of them can be compared word by word:
//   0 to 65535  the heap     65536 to 65791  its table     65792 to 66815  its roots
//   66816  n     66817  R     66818  how many roots     66819  free first     66820  free last     66821  free count
//
// The books of the collection stand behind the second heap, in its slice: two words for each region, the scan stack, four counters, four words
// for each word of the heap, and the list of free pages. The rows of the second table are kept where they stand.
//   66822 + 2j    region j's last copy, number plus 1
//   66823 + 2j    its next copy to scan, number plus 1, 0 where all are scanned
//   66950 to 67013  the scan stack: regions           67014  its depth
//   67015  copies made     67016  pages taken from the list of free ones     67017  pages on that list
//   67018 + 4a      where the value at a was copied to, 0 where it was not
//   67018 + 4i + 1  the address that copy i came from    67018 + 4i + 2  the address that it went to
//   67018 + 4i + 3  the next copy of its region, number plus 1, 0 where it is the last
//   329162 to 333257  the list of free pages, as links

#![tactic(auto)]

ghost use Rattle.std.specs.Prelude.{◌≡◌, ◌+◌, ◌≤◌, ◌<◌, IfOk, IfSome};

use rules::{Address, Control, Lent, Page, Region};

// The words of a heap with all that belongs to it, alone and with the books behind it.
pub const WHOLE: usize = 66822;

pub const WITH_BOOKS: usize = 333258;

// The places behind the heap.
const TABLE: usize = 65536;

const ROOTS: usize = 65792;

const EXPONENT: usize = 66816;

const REGIONS: usize = 66817;

const NAMED: usize = 66818;

const FIRST: usize = 66819;

const LAST: usize = 66820;

const COUNT: usize = 66821;

// The places of the books.
const LAST_COPY: usize = 66822;

const NEXT_COPY: usize = 66823;

const STACK: usize = 66950;

const DEPTH: usize = 67014;

const COPIED: usize = 67015;

const TAKEN: usize = 67016;

const LISTED: usize = 67017;

const SIDE: usize = 67018;

const FREE: usize = 329162;

// The word at a place, 0 outside.
fn get(words: &[u32], i: usize) -> usize
    ensures { result < 4294967296 }
{
    words.get(i).map_or(0, |w| *w as usize)
}

// A word stored, nothing outside.
fn put(words: &mut [u32], i: usize, w: u32) {
    if let Some(place) = words.get_mut(i) {
        *place = w;
    }
}

// A number stored as a word.
fn set(words: &mut [u32], i: usize, v: usize) {
    put(words, i, (v % 4294967296) as u32);
}

// ---- Pages, regions and addresses: each is made here only, from its number, from a word that stands for it, or from another of the three.

// The region of a number.
fn region_of(j: usize) -> Region
    ensures { result.0 ≡ j }
{
    Region(j)
}

// The address that a word says.
fn address_in(words: &[u32], i: usize) -> Address
    ensures { result.0 < 4294967296 }
{
    Address(get(words, i))
}

// The page that a link names.
fn named_page(link: usize) -> Option<Page>
    ensures { IfSome result (λ k. k.0 + 1 ≡ link) }
{
    link.checked_sub(1).map(Page)
}

// The link that names a page.
fn link_to(k: Page) -> usize
    requires { k.0 < 4294967296 }
    ensures { result ≤ 4294967296 }
{
    k.0 + 1
}

// The address m words behind another.
fn behind(a: Address, m: usize) -> Address
    requires { (a.0 < 4294967296) × (m ≤ 4294967296) }
    ensures { result.0 ≡ a.0 + m }
{
    Address(a.0 + m)
}

// The address that a pointer into the heap names.
fn named_address(w: usize) -> Address
    requires { w < 4294967296 }
    ensures { result.0 < 4294967296 }
{
    Address(w / 4)
}

// The pointer that names an address.
fn pointer_to(a: Address) -> usize
    requires { a.0 < 4294967296 }
{
    4 * a.0
}

// The origin of region j's pages.
fn origin_of(j: Region) -> usize
    requires { j.0 < 4294967296 }
{
    j.0 + 1
}

// The region whose pages have an origin.
fn region_from(origin: usize) -> Option<Region>
    ensures { IfSome result (λ j. j.0 + 1 ≡ origin) }
{
    origin.checked_sub(1).map(Region)
}

// ---- The collection.

// A page is lacking.
#[derive(Clone, Copy)]
pub struct NoPage;

// The heap that is read, the second heap with the books behind it, and the page exponent of both.
#[derive(Drop)]
struct Pass<'o, 'n> {
    old: &'o [u32],
    new: &'n mut [u32],
    n: usize,
}

impl Pass<'_, '_> {
    // The words of a page.
    fn size(&self) -> usize
        ensures { result < 65536 }
    {
        (1usize << (self.n % 16)) % 65536
    }

    // The first address of a page.
    fn base(&self, k: Page) -> Address
        ensures { result.0 < 4294967296 }
    {
        Address((k.0 << (self.n % 16)) % 4294967296)
    }

    // The page that an address lies in.
    fn page_at(&self, a: Address) -> Page
        ensures { result.0 < 4294967296 }
    {
        Page((a.0 >> (self.n % 16)) % 4294967296)
    }

    // m words from a on, copied into the second heap from b on.
    fn copy_words(&mut self, a: usize, b: usize, m: usize)
        requires { (a < 4294967296) × (b < 4294967296) × (m ≤ 4294967296) }
    {
        for i in 0..m {
            set(self.new, b + i, get(self.old, a + i));
        }
    }

    // A page at the end of the list of free pages, as a link.
    fn list_page(&mut self, link: usize) {
        let listed = get(self.new, LISTED);
        set(self.new, FREE + listed, link);
        set(self.new, LISTED, listed + 1);
    }

    // The pages of a chain, listed in its order; at most `most`.
    fn list_chain(&mut self, link: usize, most: usize) {
        let mut next = link;
        for _ in 0..most {
            let Some(k) = named_page(next) else {
                return;
            };
            self.list_page(next);
            next = get(self.old, self.base(k).0);
        }
    }

    // The page at a place of the list, as a link.
    fn listed_at(&self, i: usize) -> usize
        requires { i < 4294967296 }
        ensures { result < 4294967296 }
    {
        get(self.new, FREE + i)
    }

    // The next page of the list.
    fn take(&mut self) -> Result<Page, NoPage>
        ensures { IfOk result (λ k. k.0 < 4294967296) }
    {
        let taken = get(self.new, TAKEN);
        if get(self.new, LISTED) <= taken {
            return Err(NoPage);
        }
        set(self.new, TAKEN, taken + 1);
        named_page(self.listed_at(taken)).ok_or(NoPage)
    }

    // A taken page becomes region j's last: its origin written, the region's e and a set. Its first address.
    fn open(&mut self, j: Region, k: Page) -> Address
        requires { j.0 < 4294967296 }
    {
        let at = self.base(k);
        set(self.new, at.0 + 1, origin_of(j));
        let end = behind(at, self.size());
        set(self.new, TABLE + 4 * j.0, end.0);
        let top = behind(at, 2);
        set(self.new, TABLE + 4 * j.0 + 2, top.0);
        at
    }

    // Region j takes its first page.
    fn first_page(&mut self, j: Region) -> Result<(), NoPage>
        requires { j.0 < 4294967296 }
    {
        let k = self.take()?;
        let at = self.open(j, k);
        set(self.new, TABLE + 4 * j.0 + 1, at.0);
        Ok(())
    }

    // The page that ends at `end` linked to another.
    fn link_last(&mut self, end: Address, k: Page)
        requires { k.0 < 4294967296 }
    {
        if let Some(last) = end.0.checked_sub(self.size()) {
            set(self.new, last, link_to(k));
        }
    }

    // A page more for region j, to which its last one is linked.
    fn next_page(&mut self, j: Region, end: Address) -> Result<(), NoPage>
        requires { j.0 < 4294967296 }
    {
        let k = self.take()?;
        self.link_last(end, k);
        self.open(j, k);
        Ok(())
    }

    // Room for m words in region j: where it stands, or in a page more.
    fn make_room(&mut self, j: Region, m: usize) -> Result<(), NoPage>
        requires { (j.0 < 4294967296) × (m ≤ 4294967296) }
    {
        let end = address_in(self.new, TABLE + 4 * j.0);
        let top = address_in(self.new, TABLE + 4 * j.0 + 2);
        if top.0 + m <= end.0 {
            return Ok(());
        }
        self.next_page(j, end)
    }

    // Copy number i goes behind the copy that was the last of its region, number plus 1, if there was one.
    fn link_copy(&mut self, before: usize, i: usize)
        requires { (before < 4294967296) × (i < 4294967296) }
    {
        if 0 < before {
            set(self.new, SIDE + 4 * (before - 1) + 3, i + 1);
        }
    }

    // A region of which all was scanned has copy number i to scan, and goes on the stack.
    fn wake(&mut self, j: Region, i: usize)
        requires { (j.0 < 4294967296) × (i < 4294967296) }
    {
        if 0 < get(self.new, NEXT_COPY + 2 * j.0) {
            return;
        }
        set(self.new, NEXT_COPY + 2 * j.0, i + 1);
        let depth = get(self.new, DEPTH);
        set(self.new, STACK + depth, j.0);
        set(self.new, DEPTH, depth + 1);
    }

    // Copy number i goes to the end of region j's list.
    fn list_copy(&mut self, j: Region, i: usize)
        requires { (j.0 < 4294967296) × (i < 4294967296) }
    {
        let before = get(self.new, LAST_COPY + 2 * j.0);
        self.link_copy(before, i);
        set(self.new, LAST_COPY + 2 * j.0, i + 1);
        self.wake(j, i);
    }

    // The next copy's number; it is of the value at a, and stands at b.
    fn number_copy(&mut self, a: Address, b: Address) -> usize
        requires { a.0 < 4294967296 }
        ensures { result < 4294967296 }
    {
        set(self.new, SIDE + 4 * a.0, b.0);
        let i = get(self.new, COPIED);
        set(self.new, SIDE + 4 * i + 1, a.0);
        set(self.new, SIDE + 4 * i + 2, b.0);
        set(self.new, COPIED, i + 1);
        i
    }

    // The value at a copied into region j, whose first unused address b has room for its m words.
    fn copy_into(&mut self, a: Address, m: usize, j: Region)
        requires { (a.0 < 4294967296) × (m ≤ 4294967296) × (j.0 < 4294967296) }
    {
        let b = address_in(self.new, TABLE + 4 * j.0 + 2);
        self.copy_words(a.0, b.0, m);
        let top = behind(b, m);
        set(self.new, TABLE + 4 * j.0 + 2, top.0);
        let i = self.number_copy(a, b);
        self.list_copy(j, i);
    }

    // The value at a copied, if it was not yet.
    fn copy_value(&mut self, a: Address) -> Result<(), NoPage>
        requires { a.0 < 4294967296 }
    {
        if 0 < get(self.new, SIDE + 4 * a.0) {
            return Ok(());
        }
        let m = get(self.old, a.0) / 8 + 1;
        let at = self.base(self.page_at(a));
        let origin = get(self.old, at.0 + 1);
        if let Some(j) = region_from(origin) {
            self.make_room(j, m)?;
            self.copy_into(a, m, j);
        }
        Ok(())
    }

    // The word that stands for w after the collection.
    fn new_word(&self, w: usize) -> usize
        requires { w < 4294967296 }
    {
        if w % 4 != 0 {
            return w;
        }
        let a = named_address(w);
        pointer_to(address_in(self.new, SIDE + 4 * a.0))
    }

    // The value that a word points to copied, if it points into the heap.
    fn copy_named(&mut self, w: usize) -> Result<(), NoPage>
        requires { w < 4294967296 }
    {
        if w % 4 != 0 {
            return Ok(());
        }
        self.copy_value(named_address(w))
    }

    // The values that the m words from a on point to, in order.
    fn copy_all(&mut self, a: usize, m: usize) -> Result<(), NoPage>
        requires { (a ≤ 4294967296) × (m ≤ 4294967296) }
    {
        for i in 0..m {
            self.copy_named(get(self.old, a + i))?;
        }
        Ok(())
    }

    // The m words from a on as they are after the collection, from b on in the second heap.
    fn write_all(&mut self, a: usize, b: usize, m: usize)
        requires { (a ≤ 4294967296) × (b ≤ 4294967296) × (m ≤ 4294967296) }
    {
        for i in 0..m {
            let w = self.new_word(get(self.old, a + i));
            set(self.new, b + i, w);
        }
    }

    // Copy number i scanned: a record's fields; raw words stay as they were copied.
    fn scan_copy(&mut self, i: usize) -> Result<(), NoPage>
        requires { i < 4294967296 }
    {
        let a = address_in(self.new, SIDE + 4 * i + 1);
        let header = get(self.old, a.0);
        if header % 8 != 1 {
            return Ok(());
        }
        let m = header / 8;
        self.copy_all(a.0 + 1, m)?;
        let b = address_in(self.new, SIDE + 4 * i + 2);
        self.write_all(a.0 + 1, b.0 + 1, m);
        Ok(())
    }

    // The next copy of region j, number i, scanned; the one behind it is the next then.
    fn scan_next(&mut self, j: Region, i: usize) -> Result<(), NoPage>
        requires { (j.0 < 4294967296) × (i < 4294967296) }
    {
        self.scan_copy(i)?;
        let next = get(self.new, SIDE + 4 * i + 3);
        set(self.new, NEXT_COPY + 2 * j.0, next);
        Ok(())
    }

    // Region j scanned to its end: no more copies than a heap has words.
    fn scan_region(&mut self, j: Region) -> Result<(), NoPage>
        requires { j.0 < 4294967296 }
    {
        for _ in 0..TABLE {
            let i = get(self.new, NEXT_COPY + 2 * j.0);
            if i == 0 {
                return Ok(());
            }
            self.scan_next(j, i - 1)?;
        }
        Ok(())
    }

    // The regions on the stack, last pushed first, until it is empty: no more than a heap has words.
    fn scan_all(&mut self) -> Result<(), NoPage> {
        for _ in 0..TABLE {
            let depth = get(self.new, DEPTH);
            if depth == 0 {
                return Ok(());
            }
            set(self.new, DEPTH, depth - 1);
            let j = region_of(get(self.new, STACK - 1 + depth));
            self.scan_region(j)?;
        }
        Ok(())
    }

    // The free pages listed, and a first page taken for each region.
    fn start(&mut self, regions: usize) -> Result<(), NoPage>
        requires { regions ≤ 64 }
    {
        self.list_chain(get(self.old, FIRST), get(self.old, COUNT));
        for j in 0..regions {
            self.first_page(region_of(j))?;
        }
        Ok(())
    }

    // All that a root reaches copied into the second heap.
    fn copy_living(&mut self) -> Result<(), NoPage> {
        let named = get(self.old, NAMED);
        self.copy_all(ROOTS, named)?;
        self.write_all(ROOTS, ROOTS, named);
        self.scan_all()
    }

    // The old pages of every region, bottom first, behind the free ones.
    fn list_old(&mut self, regions: usize)
        requires { regions ≤ 64 }
    {
        for j in 0..regions {
            let first = address_in(self.old, TABLE + 4 * j + 1);
            self.list_chain(link_to(self.page_at(first)), TABLE);
        }
    }

    // The page at a place of the list linked to the next one.
    fn link_next(&mut self, i: usize)
        requires { i < 4294967295 }
    {
        if let Some(k) = named_page(self.listed_at(i)) {
            let at = self.base(k);
            let link = self.listed_at(i + 1);
            set(self.new, at.0, link);
        }
    }

    // The free list from place `taken` to the end, each page linked to the next and the last to none, and what is said of it behind the second
    // heap.
    fn write_free(&mut self, taken: usize, listed: usize)
        requires { (taken < listed) × (listed < 4294967296) }
    {
        for i in taken..listed - 1 {
            self.link_next(i);
        }
        let first = self.listed_at(taken);
        let last = self.listed_at(listed - 1);
        set(self.new, FIRST, first);
        set(self.new, LAST, last);
        set(self.new, COUNT, listed - taken);
    }

    // The free list after the collection: what was not taken, then the old pages.
    fn end_free(&mut self, regions: usize)
        requires { regions ≤ 64 }
    {
        self.list_old(regions);
        let taken = get(self.new, TAKEN);
        let listed = get(self.new, LISTED);
        if taken < listed {
            self.write_free(taken, listed);
        }
    }
}

// The collection of document 01 into a second heap with all that belongs to it, all 0 before, as the books are. The first is only read. A
// heap that passes the audit is wanted; of any other the answer means nothing. What is said of the heap, n, R and the number of roots, stays.
pub fn collect_again(old: &[u32], new: &mut [u32]) -> Result<(), NoPage> {
    let n = get(old, EXPONENT);
    let regions = get(old, REGIONS) % 65;
    let mut pass = Pass { old, new, n };
    pass.start(regions)?;
    pass.copy_living()?;
    pass.copy_words(EXPONENT, EXPONENT, 3);
    pass.end_free(regions);
    Ok(())
}

// The words of a part, from a place on.
fn lay(whole: &mut [u32], at: usize, part: &[u32])
    requires { at < 4294967296 }
{
    for (i, w) in part.iter().enumerate() {
        put(whole, at + i, *w);
    }
}

// The words of the record, and how many roots there are.
fn lay_record(whole: &mut [u32], c: Control, named: usize) {
    put(whole, EXPONENT, c.n);
    put(whole, REGIONS, c.regions);
    set(whole, NAMED, named);
    put(whole, FIRST, c.first);
    put(whole, LAST, c.last);
    put(whole, COUNT, c.count);
}

// A heap and all that belongs to it in one slice, which is all 0 before.
pub fn lay_out(whole: &mut [u32], lent: Lent<'_>) {
    lay(whole, 0, lent.heap);
    lay(whole, TABLE, lent.table);
    lay(whole, ROOTS, lent.roots);
    lay_record(whole, lent.control, lent.roots.len());
}
