// A question on a heap that a recipe makes. A question is a step of a recipe, one call of it (open, push, record, words, assign, name), or
//   end                pop: the newest region ends
// or, of those that leave the parts as they are,
//   fetch 8            the value that a word points to
//   view 0             a page
//   go 0 1 0           walk: the root, the fields
//   due                whether a collection is due
//   used 0             the used words of a region
//   collected 0        the same after a collection
use crate::{changing, looking};
use collection::collect;
use recipes::cutting::{name_of, numbers_of};
use recipes::heaps::Parts;
use std::io;
use std::io::Write;

// The heap that is collected.
fn collects(parts: &mut Parts<'_, '_, '_, '_>) {
    let c = parts.control;
    let answer = collect(parts.heap, parts.table, parts.roots, parts.consts, c);
    let _ = parts.done(answer);
}

// The heap is made, and the question asked. Parts that are to be set up are left as they are.
pub fn asks(
    out: &mut impl Write,
    parts: &mut Parts<'_, '_, '_, '_>,
    recipe: &str,
    question: &str,
) -> io::Result<()> {
    let mut row = [0; 16];
    let name = name_of(question);
    if name != "open" {
        parts.make(recipe);
    }
    if name == "collected" {
        collects(parts);
    }
    match (name, numbers_of(question, &mut row)) {
        ("fetch", [w]) => looking::fetches(out, parts.lent(), *w),
        ("view", [k]) => looking::views(out, parts.lent(), *k),
        ("go", [root, path @ ..]) => looking::walks(out, parts.lent(), *root, path),
        ("due", []) => looking::asks_due(out, parts.lent()),
        ("used" | "collected", [j]) => looking::uses(out, parts.lent(), *j),
        _ => changing::changes(out, parts, question),
    }
}
