// Every way to come by a page, a region or an address: by its number, from the one before it, from a stored form, or from another of the three.
// Nowhere else in the library is one made. And a refusal's number and place.

#![tactic(auto)]

ghost use Rattle.std.specs.Prelude.{◌≡◌, ◌+◌, ◌-◌, ◌≤◌, ◌<◌};
ghost use Rattle.rules.specs.Memory.{page_address, address_page, page_link, link_page, region_origin, origin_region};
ghost use Rattle.rules.specs.Words.{address_pointer, pointer_address};
ghost use Rattle.rules.specs.Refusals.{number_of, place_of};

use rules::{Address, Page, Refusal, Region};

// The page of a number.
pub fn page_numbered(k: usize) -> Page
    ensures { result.0 ≡ k }
{
    Page(k)
}

// The page behind page k.
pub fn next_page(k: Page) -> Page
    requires { k.0 < 4294967296 }
    ensures { result.0 ≡ k.0 + 1 }
{
    Page(k.0 + 1)
}

// The region of a number.
pub fn region_numbered(j: usize) -> Region
    ensures { result.0 ≡ j }
{
    Region(j)
}

// The address of a number.
pub fn address_numbered(i: usize) -> Address
    ensures { result.0 ≡ i }
{
    Address(i)
}

// The address so many words behind a.
pub fn address_behind(a: Address, words: usize) -> Address
    requires { (a.0 ≤ 4294967296) × (words ≤ 4294967296) }
    ensures { result.0 ≡ a.0 + words }
{
    Address(a.0 + words)
}

// The address so many words before a.
pub fn address_before(a: Address, words: usize) -> Address
    requires { words ≤ a.0 }
    ensures { result.0 ≡ a.0 - words }
{
    Address(a.0 - words)
}

// The address of a page's first word.
pub fn page_address(k: Page, n: u32) -> Address
    requires { (k.0 ≤ 65536) × (n ≤ 8) }
    ensures { result.0 ≡ page_address n k.0 }
{
    Address(k.0 << n)
}

// The page that an address lies in.
pub fn address_page(a: Address, n: u32) -> Page
    requires { n ≤ 8 }
    ensures { result.0 ≡ address_page n a.0 }
{
    Page(a.0 >> n)
}

// The link that names a page.
pub fn page_link(k: Page) -> u32
    requires { k.0 < 4294967295 }
    ensures { result ≡ page_link k.0 }
{
    k.0 as u32 + 1
}

// The page that a link names.
pub fn link_page(link: u32) -> Page
    requires { 0 < link }
    ensures { result.0 ≡ link_page link }
{
    Page(link as usize - 1)
}

// The origin of a region's pages.
pub fn region_origin(j: Region) -> u32
    requires { j.0 ≤ 64 }
    ensures { result ≡ region_origin j.0 }
{
    j.0 as u32 + 1
}

// The region whose pages have an origin.
pub fn origin_region(origin: u32) -> Region
    requires { 0 < origin }
    ensures { result.0 ≡ origin_region origin }
{
    Region(origin as usize - 1)
}

// The pointer to a heap address.
pub fn address_pointer(a: Address) -> u32
    requires { a.0 ≤ 65536 }
    ensures { result ≡ address_pointer a.0 }
{
    a.0 as u32 * 4
}

// The address that a pointer names, in the heap or in the constants.
pub fn pointer_address(w: u32) -> Address
    ensures { result.0 ≡ pointer_address w }
{
    Address((w / 4) as usize)
}

// Document 01's number of a refusal.
pub fn refusal_number(r: Refusal) -> u32
    ensures { result ≡ number_of r }
{
    match r {
        Refusal::Limits => 1,
        Refusal::Broken(_) => 2,
        Refusal::RegionsFull => 3,
        Refusal::NoPage => 4,
        Refusal::NoRegion => 5,
        Refusal::Held => 6,
        Refusal::NotGood => 7,
        Refusal::TooLong => 8,
        Refusal::NoFields => 9,
        Refusal::NoSuch => 10,
        Refusal::Constant => 12,
        Refusal::NoNumber => 13,
        Refusal::Malformed(_) => 14,
    }
}

// Document 01's place of a refusal: the rule, the line, or 0.
pub fn refusal_place(r: Refusal) -> u32
    ensures { result ≡ place_of r }
{
    match r {
        Refusal::Broken(rule) => rule,
        Refusal::Malformed(line) => line,
        _ => 0,
    }
}
