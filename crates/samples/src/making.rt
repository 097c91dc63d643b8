// The calls that make a sample. A refused one changes nothing, so they can be asked at random.
ghost use Rattle.std.specs.Prelude.{◌<◌, ◌≤◌};

use crate::chance::{below, next};
use crate::shape::Shape;
use access::set_root;
use allocation::allocate;
use assignment::assign;
use conversions::region_numbered;
use leaves::{end_of, top_of, word, write};
use regions::push;
use rules::{Control, Kind, Refused, Region};
use setting_up::set_up;

// A sample that is being made: the lent parts and the record; where the generator stands; of four fields, how many are pointers to values; and
// the bag: a pool of 64 words, and room for the longest value. A part that a call only reads is lent to it as one that may be written.
#[derive(Drop)]
struct Making<'h, 't, 'r, 'c> {
    heap: &'h mut [u32],
    table: &'t mut [u32],
    roots: &'r mut [u32],
    consts: &'c [u32],
    c: Control,
    x: u32,
    pointers: u32,
    bag: [u32; 317],
}

// The record of no heap.
const NO_RECORD: Control = Control {
    n: 0,
    regions: 0,
    first: 0,
    last: 0,
    count: 0,
};

// The record that a call hands back.
pub fn record_of(answer: Result<Control, Refused>) -> Control {
    answer.unwrap_or_else(|refused| refused.control)
}

// A pointer to one of the constants.
fn constant(x: u32) -> u32 {
    match below(x, 4) {
        0 => 2,
        1 => 10,
        2 => 22,
        _ => 34,
    }
}

// The most words of a value in a page.
fn longest(n: u32) -> usize
    ensures { result < 4294967296 }
{
    match n {
        4 => 13,
        5 => 29,
        6 => 61,
        7 => 125,
        _ => 253,
    }
}

impl Making<'_, '_, '_, '_> {
    // The generator's next number.
    fn draw(&mut self) -> u32 {
        self.x = next(self.x);
        self.x
    }

    // One of the pool.
    fn pooled(&self, x: u32) -> u32 {
        self.bag[below(x, 64) as usize]
    }

    // A word for a field: a number, a pointer to a constant, or one of the pool.
    fn word_for(&self, x: u32, pointers: u32) -> u32 {
        let y = next(x);
        if below(x, 4) < pointers {
            return self.pooled(y);
        }
        if below(y, 3) == 0 {
            return constant(next(y));
        }
        2 * below(y, 1000000) + 1
    }

    // The first m words behind the pool become words for a value. Raw words may look like pointers.
    fn fill_words(&mut self, kind: Kind, m: usize)
        requires { m < 4294967296 }
    {
        let pointers = self.pointers;
        for i in 0..m {
            let x = self.draw();
            let w = match kind {
                Kind::Raw => x / 16,
                Kind::Record => self.word_for(x, pointers),
            };
            write(&mut self.bag, 64 + i, w as usize);
        }
    }

    // What is left of region j's last page, as the length of a value that fills it.
    fn rest_of(&self, j: Region) -> usize
        requires { j.0 < 4294967296 }
        ensures { result < 4294967296 }
    {
        let e = end_of(self.table, j);
        let a = top_of(self.table, j);
        if e.0 <= a.0 {
            return 0;
        }
        e.0 - a.0 - 1
    }

    // A length: mostly short; now and then the longest, or the one that fills region j's page to its end.
    fn length_for(&self, x: u32, j: Region) -> usize
        requires { j.0 < 4294967296 }
        ensures { result < 4294967296 }
    {
        match below(x, 16) {
            0 => longest(self.c.n),
            1 | 2 => self.rest_of(j),
            _ => below(next(x), 9) as usize,
        }
    }

    // A value more in region j, of the first m words behind the pool, if there is room for them; the pointer to it goes into the pool.
    fn store(&mut self, j: Region, kind: Kind, m: usize)
        requires { m < 4294967296 }
    {
        let (consts, c) = (self.consts, self.c);
        let roots = &mut *self.roots;
        let Some(words) = self.bag.get_mut(64..64 + m) else {
            return;
        };
        match allocate(self.heap, self.table, roots, consts, c, j, kind, words) {
            Ok((w, c)) => {
                self.c = c;
                self.bag[below(self.x, 64) as usize] = w;
            }
            Err(refused) => self.c = refused.control,
        }
    }

    fn one_value(&mut self) {
        let x = self.draw();
        let j = region_numbered(below(x, self.c.regions) as usize);
        let y = self.draw();
        let m = self.length_for(y, j);
        let kind = if below(next(y), 4) == 0 {
            Kind::Raw
        } else {
            Kind::Record
        };
        self.fill_words(kind, m);
        self.store(j, kind, m);
    }

    // A field of one of the pool becomes a word.
    fn assigned(&mut self, target: u32, field: usize, w: u32) {
        let (consts, c) = (self.consts, self.c);
        let (table, roots) = (&mut *self.table, &mut *self.roots);
        self.c = record_of(assign(self.heap, table, roots, consts, c, target, field, w));
    }

    // A field of one of the pool becomes a word: often the pointer to its own value.
    fn one_assign(&mut self) {
        let pointers = self.pointers;
        let x = self.draw();
        let target = self.pooled(x);
        let field = below(self.draw(), 9) as usize;
        let z = self.draw();
        let w = if below(z, 4) == 0 {
            target
        } else {
            self.word_for(z, pointers)
        };
        self.assigned(target, field, w);
    }

    // Two of the pool become each other's first field.
    fn one_pair(&mut self) {
        let x = self.draw();
        let a = self.pooled(x);
        let y = self.draw();
        let b = self.pooled(y);
        self.assigned(a, 0, b);
        self.assigned(b, 0, a);
    }

    // A step: a value more, a field, two fields.
    fn one_step(&mut self) {
        let x = self.draw();
        match below(x, 8) {
            0..=5 => self.one_value(),
            6 => self.one_assign(),
            _ => self.one_pair(),
        }
    }

    // So many regions, as far as there are pages.
    fn push_all(&mut self, regions: u32) {
        for _ in 0..regions {
            let (consts, c) = (self.consts, self.c);
            let roots = &mut *self.roots;
            self.c = record_of(push(self.heap, self.table, roots, consts, c));
        }
    }

    // Steps until no more pages are free than shall stay, and a few in any case.
    fn steps(&mut self, keep: u32) {
        for i in 0..40000u32 {
            if 12 < i && self.c.count <= keep {
                return;
            }
            self.one_step();
        }
    }

    // Each root becomes a word.
    fn name_roots(&mut self) {
        for i in 0..self.roots.len() {
            let x = self.draw();
            let w = self.word_for(x, 3);
            let (consts, c) = (self.consts, self.c);
            let (heap, table) = (&mut *self.heap, &mut *self.table);
            self.c = record_of(set_root(heap, table, self.roots, consts, c, i, w));
        }
    }
}

// The sample with the start x.
pub fn make(
    heap: &mut [u32],
    table: &mut [u32],
    roots: &mut [u32],
    consts: &[u32],
    x: u32,
    shape: Shape,
) -> Control {
    let c = set_up(heap, table, roots, consts, shape.n).unwrap_or(NO_RECORD);
    let mut making = Making {
        heap,
        table,
        roots,
        consts,
        c,
        x,
        pointers: shape.pointers,
        bag: [1; 317],
    };
    making.push_all(shape.regions);
    making.steps(shape.keep);
    making.name_roots();
    making.c
}
