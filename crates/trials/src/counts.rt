// What was met, counted over all heaps.
ghost use Rattle.std.specs.Prelude.{◌≤◌, ◌<◌};

use audit::audit;
use rules::{Control, Lent, Refusal, Refused};
use samples::census::{Census, add};

// The sums, in the order in which they are reported.
#[derive(Clone, Copy, Default)]
pub struct Sums {
    // heaps, or images, and of these the ones of each page exponent
    pub heaps: u32,
    pub of_exponent: [u32; 9],
    pub of_no_region: u32,
    // of 64 regions, of 65,536 words, of 1,024 roots
    pub of_all_regions: u32,
    pub of_all_words: u32,
    pub of_all_roots: u32,
    // with fewer free pages than regions
    pub few_free: u32,
    // roots that point to values
    pub roots_to_values: u32,
    pub finished: u32,
    // heaps that gained or lost pages, and how many pages
    pub gained: u32,
    pub pages_gained: u32,
    pub lost: u32,
    pub pages_lost: u32,
    // finished heaps that fail the audit
    pub broken_after: u32,
    // refused for want of a page, of these after each region had its fresh page, and for another reason
    pub no_page: u32,
    pub no_page_later: u32,
    pub refused_else: u32,
    // heaps on which the collectors differ
    pub differences: u32,
    // images whose text differs from its answer
    pub texts_differ: u32,
    // what stood in the heaps before the collections, and after those that finished
    pub before: Census,
    pub living: Census,
}

fn add_if(count: &mut u32, holds: bool) {
    add(count, u32::from(holds));
}

// The words of a page.
fn page_words(n: u32) -> usize
    ensures { (0 < result) × (result ≤ 256) }
{
    match n {
        4 => 16,
        5 => 32,
        6 => 64,
        7 => 128,
        _ => 256,
    }
}

impl Sums {
    fn size(&mut self, words: usize, roots: usize, c: Control) {
        add(&mut self.heaps, 1);
        add(&mut self.of_exponent[c.n as usize % 9], 1);
        add_if(&mut self.of_all_words, words == 65536);
        add_if(&mut self.of_all_roots, roots == 1024);
    }

    fn regions(&mut self, c: Control) {
        add_if(&mut self.of_no_region, c.regions == 0);
        add_if(&mut self.of_all_regions, c.regions == 64);
        add_if(&mut self.few_free, c.count < c.regions);
    }

    // A sample before its collection.
    pub fn made(&mut self, heap: &[u32], roots: &[u32], c: Control) {
        self.size(heap.len(), roots.len(), c);
        self.regions(c);
        for w in roots {
            add_if(&mut self.roots_to_values, *w % 4 == 0);
        }
        self.before.count(heap, page_words(c.n));
    }

    // The free pages before a collection and after it.
    fn moved(&mut self, before: u32, after: u32) {
        if before < after {
            add(&mut self.gained, 1);
            add(&mut self.pages_gained, after - before);
        } else if after < before {
            add(&mut self.lost, 1);
            add(&mut self.pages_lost, before - after);
        }
    }

    // A collection that was refused; `later` where each region can have had its fresh page.
    fn refused(&mut self, why: Refusal, later: bool) {
        match why {
            Refusal::NoPage => {
                add(&mut self.no_page, 1);
                add_if(&mut self.no_page_later, later);
            }
            _ => add(&mut self.refused_else, 1),
        }
    }

    // How the collection of a heap with this record ended.
    pub fn ended(&mut self, answer: Result<Control, Refused>, c: Control, agree: bool) {
        add_if(&mut self.differences, !agree);
        match answer {
            Ok(after) => {
                add(&mut self.finished, 1);
                self.moved(c.count, after.count);
            }
            Err(refused) => self.refused(refused.why, c.regions <= c.count),
        }
    }

    // A sample after its collection: what is left is counted, and passes the audit.
    pub fn left(&mut self, lent: Lent<'_>) {
        self.living.count(lent.heap, page_words(lent.control.n));
        add_if(&mut self.broken_after, audit(lent).is_err());
    }
}
