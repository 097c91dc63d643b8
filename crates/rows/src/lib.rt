// The rows of the region table, read and written by name, and the addresses of the pages that links name.

#![tactic(auto)]

ghost use Rattle.std.specs.Prelude.{◌≡◌, ◌+◌, ◌-◌, ◌*◌, ◌/◌, ◌≤◌, ◌<◌, length};
ghost use Rattle.rules.specs.Memory.{page_address, link_page, end_of, first_of, top_of, status_of, set_end, set_top, set_row, first_link};

use conversions::{address_numbered, address_page, link_page, page_address, page_link};
use rules::{Address, Region};

// e: the address just past the region's last page.
pub fn end_of(table: &[u32], j: Region) -> Address
    requires { (length table.now ≡ 256) × (j.0 < 64) }
    ensures { (result.0 ≡ end_of table.now j.0) × (result.0 < 4294967296) }
{
    address_numbered(table[4 * j.0] as usize)
}

// fp: the address of the region's first page.
pub fn first_of(table: &[u32], j: Region) -> Address
    requires { (length table.now ≡ 256) × (j.0 < 64) }
    ensures { (result.0 ≡ first_of table.now j.0) × (result.0 < 4294967296) }
{
    address_numbered(table[4 * j.0 + 1] as usize)
}

// a: the first unused address in the region's last page.
pub fn top_of(table: &[u32], j: Region) -> Address
    requires { (length table.now ≡ 256) × (j.0 < 64) }
    ensures { (result.0 ≡ top_of table.now j.0) × (result.0 < 4294967296) }
{
    address_numbered(table[4 * j.0 + 2] as usize)
}

// b: 0 between calls.
pub fn status_of(table: &[u32], j: Region) -> u32
    requires { (length table.now ≡ 256) × (j.0 < 64) }
    ensures { result ≡ status_of table.now j.0 }
{
    table[4 * j.0 + 3]
}

// Another e for region j.
pub fn set_end(table: &mut [u32], j: Region, e: Address)
    requires { (length table.old ≡ 256) × (j.0 < 64) × (e.0 ≤ 65536) }
    ensures { table.new ≡ set_end table.old j.0 e.0 }
{
    let row = 4 * j.0;
    table[row] = e.0 as u32;
}

// Another a for region j.
pub fn set_top(table: &mut [u32], j: Region, a: Address)
    requires { (length table.old ≡ 256) × (j.0 < 64) × (a.0 ≤ 65536) }
    ensures { table.new ≡ set_top table.old j.0 a.0 }
{
    let row = 4 * j.0;
    table[row + 2] = a.0 as u32;
}

// The four table words of region j.
pub fn set_row(table: &mut [u32], j: Region, e: Address, fp: Address, a: Address, b: u32)
    requires { (length table.old ≡ 256) × (j.0 < 64) × (e.0 ≤ 65536) × (fp.0 ≤ 65536) × (a.0 ≤ 65536) }
    ensures { table.new ≡ set_row table.old j.0 e.0 fp.0 a.0 b }
{
    let row = 4 * j.0;
    table[row] = e.0 as u32;
    table[row + 1] = fp.0 as u32;
    table[row + 2] = a.0 as u32;
    table[row + 3] = b;
}

// The four table words of region j become 0.
pub fn clear_row(table: &mut [u32], j: Region)
    requires { (length table.old ≡ 256) × (j.0 < 64) }
    ensures { table.new ≡ set_row table.old j.0 0 0 0 0 }
{
    let row = 4 * j.0;
    table[row] = 0;
    table[row + 1] = 0;
    table[row + 2] = 0;
    table[row + 3] = 0;
}

// The link to the region's first page.
pub fn first_link(table: &[u32], j: Region, n: u32) -> u32
    requires { (length table.now ≡ 256) × (j.0 < 64) × (4 ≤ n) × (n ≤ 8) }
    ensures { result ≡ first_link n table.now j.0 }
{
    page_link(address_page(first_of(table, j), n))
}

// The address of the page that a link names.
pub fn link_address(link: u32, n: u32) -> Address
    requires { (0 < link) × (link ≤ 65536) × (n ≤ 8) }
    ensures { result.0 ≡ page_address n (link_page link) }
{
    page_address(link_page(link), n)
}
