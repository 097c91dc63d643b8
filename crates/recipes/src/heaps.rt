// Heaps made by the calls from a recipe, for soundings that begin with one. A recipe is steps; a step is a name, numbers, and a semicolon:
//   open 4;            setting up, with n
//   push 2;            so many regions more
//   record 0 8 15;     a record more in a region: the region, its words
//   words 0 83 104;    a raw value more
//   assign 8 0 15;     a field of the record that a word points to becomes a word
//   name 0 20;         a root becomes a word
// in front of them, where the heap is not to be a new one:
//   label;             the heap of document 01's image: "Sh", and a record of it and the number 7
//   four;              four raw values in two pages
// and what is done behind the calls:
//   heap 6 12;  table 3 1;  spoil 0 12;      a word of the heap, of the table, of the roots
//   control 1 2 2 1;                         R, free first, free last and free count of the record
ghost use Rattle.std.specs.Prelude.{◌≡◌, length, Ok, Err, IfOk, IfErr};
ghost use Rattle.recipes.specs.Heaps.{lengths};

use crate::cutting::{name_of, numbers_of};
use access::set_root;
use allocation::allocate;
use assignment::assign;
use conversions::region_numbered;
use regions::push;
use rules::{Control, Kind, Lent, Refusal, Refused};
use setting_up::set_up;
use telling::say::Given;

// The heap of document 01's image, in pages of 16 words: "Sh" at 2, its record at 5, which is root 0.
const LABEL: &str = "push 1;words 0 83 104;record 0 8 15;name 0 20;";

// Raw values of 7, 7, 10 and 4 words, headers counted, with roots that name the 10, 7, 7 and 4.
const FOUR: &str =
    "push 1;words 0 5 5 5 5 5 5;words 0 6 6 6 6 6 6;words 0 7 7 7 7 7 7 7 7 7;words 0 8 8 8;name 0 72;name 1 8;name 2 36;name 3 112;";

// The record of no heap, before one is set up.
pub const NO_RECORD: Control = Control {
    n: 0,
    regions: 0,
    first: 0,
    last: 0,
    count: 0,
};

// What the calls are lent, and the record that stands. A part that one call writes and another only reads is lent to both as one that may be written.
#[derive(Drop)]
pub struct Parts<'h, 't, 'r, 'c> {
    pub heap: &'h mut [u32],
    pub table: &'t mut [u32],
    pub roots: &'r mut [u32],
    pub consts: &'c [u32],
    pub control: Control,
}

// One word of a part changed behind the calls.
fn poke(part: &mut [u32], i: u32, w: u32) {
    if let Some(word) = part.get_mut(i as usize) {
        *word = w;
    }
}

impl Parts<'_, '_, '_, '_> {
    // What a call is lent that only reads.
    pub fn lent(&self) -> Lent<'_>
        ensures heap { result.heap.now ≡ self.now.heap.now }
        ensures table { result.table.now ≡ self.now.table.now }
        ensures roots { result.roots.now ≡ self.now.roots.now }
        ensures consts { result.consts.now ≡ self.now.consts.now }
        ensures record { result.control ≡ self.now.control }
    {
        Lent {
            heap: self.heap,
            table: self.table,
            roots: self.roots,
            consts: self.consts,
            control: self.control,
        }
    }

    // The record that a call hands back is the one that stands; what the call gave.
    fn kept(&mut self, answer: Result<(Given, Control), Refused>) -> Result<Given, Refusal>
        ensures ok { IfOk answer (λ a. (result ≡ Ok a.0) × (self.new ≡ record self.old { control = a.1 })) }
        ensures err { IfErr answer (λ r. (result ≡ Err r.why) × (self.new ≡ record self.old { control = r.control })) }
    {
        match answer {
            Ok((given, control)) => {
                self.control = control;
                Ok(given)
            }
            Err(refused) => {
                self.control = refused.control;
                Err(refused.why)
            }
        }
    }

    // A call that gives nothing but the record.
    pub fn done(&mut self, answer: Result<Control, Refused>) -> Result<Given, Refusal>
        ensures ok { IfOk answer (λ c. (result ≡ Ok Given.Done) × (self.new ≡ record self.old { control = c })) }
        ensures err { IfErr answer (λ r. (result ≡ Err r.why) × (self.new ≡ record self.old { control = r.control })) }
    {
        self.kept(answer.map(|control| (Given::Done, control)))
    }

    // A call that is given no record. A refused one leaves none.
    pub fn opened(&mut self, answer: Result<Control, Refusal>) -> Result<Given, Refusal>
        ensures ok { IfOk answer (λ c. (result ≡ Ok Given.Done) × (self.new ≡ record self.old { control = c })) }
        ensures err { IfErr answer (λ why. (result ≡ Err why) × (self.new ≡ record self.old { control = NO_RECORD })) }
    {
        self.done(answer.map_err(|why| Refused {
            why,
            control: NO_RECORD,
        }))
    }

    fn open(&mut self, n: u32) -> Result<Given, Refusal>
        ensures { lengths self.new ≡ lengths self.old }
    {
        let answer = set_up(self.heap, self.table, self.roots, self.consts, n);
        self.opened(answer)
    }

    // So many regions more, as far as there are pages.
    fn push(&mut self, regions: u32) -> Result<Given, Refusal>
        ensures { lengths self.new ≡ lengths self.old }
    {
        for _ in 0..regions {
            let c = self.control;
            let roots = &mut *self.roots;
            let answer = push(self.heap, self.table, roots, self.consts, c);
            self.done(answer)?;
        }
        Ok(Given::Done)
    }

    // A value more in region j.
    fn store(&mut self, kind: Kind, j: u32, words: &[u32]) -> Result<Given, Refusal>
        ensures { lengths self.new ≡ lengths self.old }
    {
        let c = self.control;
        let j = region_numbered(j as usize);
        let (roots, consts) = (&mut *self.roots, self.consts);
        let answer = allocate(self.heap, self.table, roots, consts, c, j, kind, words);
        self.kept(answer.map(|(w, control)| (Given::Word(w), control)))
    }

    // A field of the record that a word points to becomes a word.
    fn assign(&mut self, target: u32, field: u32, w: u32) -> Result<Given, Refusal>
        ensures { lengths self.new ≡ lengths self.old }
    {
        let c = self.control;
        let (table, roots, consts) = (&mut *self.table, &mut *self.roots, self.consts);
        let field = field as usize;
        let answer = assign(self.heap, table, roots, consts, c, target, field, w);
        self.done(answer)
    }

    // A root becomes a word.
    fn name(&mut self, root: u32, w: u32) -> Result<Given, Refusal>
        ensures { lengths self.new ≡ lengths self.old }
    {
        let c = self.control;
        let (heap, table, consts) = (&mut *self.heap, &mut *self.table, self.consts);
        let answer = set_root(heap, table, self.roots, consts, c, root as usize, w);
        self.done(answer)
    }

    // The record with another R, free first, free last and free count.
    fn set_control(&mut self, regions: u32, first: u32, last: u32, count: u32)
        ensures { lengths self.new ≡ lengths self.old }
    {
        let n = self.control.n;
        self.control = Control {
            n,
            regions,
            first,
            last,
            count,
        };
    }

    // What is done behind the calls. A name that stands for no such step does nothing.
    fn spoil(&mut self, name: &str, numbers: &[u32])
        ensures { lengths self.new ≡ lengths self.old }
    {
        match (name, numbers) {
            ("heap", [i, w]) => poke(self.heap, *i, *w),
            ("table", [i, w]) => poke(self.table, *i, *w),
            ("spoil", [i, w]) => poke(self.roots, *i, *w),
            ("control", [regions, first, last, count]) => {
                self.set_control(*regions, *first, *last, *count)
            }
            _ => {}
        }
    }

    // The step that a text is, and what its call gave.
    pub fn step(&mut self, text: &str) -> Result<Given, Refusal>
        ensures { lengths self.new ≡ lengths self.old }
    {
        let mut row = [0; 16];
        let name = name_of(text);
        let numbers = numbers_of(text, &mut row);
        match (name, numbers) {
            ("open", [n]) => self.open(*n),
            ("push", [regions]) => self.push(*regions),
            ("record", [j, words @ ..]) => self.store(Kind::Record, *j, words),
            ("words", [j, words @ ..]) => self.store(Kind::Raw, *j, words),
            ("assign", [target, field, w]) => self.assign(*target, *field, *w),
            ("name", [root, w]) => self.name(*root, *w),
            _ => {
                self.spoil(name, numbers);
                Ok(Given::Done)
            }
        }
    }

    // The steps of a recipe, in their order. One that is refused changes nothing.
    fn follow(&mut self, recipe: &str)
        ensures { lengths self.new ≡ lengths self.old }
    {
        for step in recipe.split(';') {
            let _ = self.step(step);
        }
    }

    // The heap that a recipe makes, in pages of 16 words.
    pub fn make(&mut self, recipe: &str)
        ensures { lengths self.new ≡ lengths self.old }
    {
        let _ = self.open(4);
        if recipe.starts_with("label;") {
            self.follow(LABEL);
        } else if recipe.starts_with("four;") {
            self.follow(FOUR);
        }
        self.follow(recipe);
    }
}
