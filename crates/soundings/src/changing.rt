// Questions that may change the parts: what the call answers, and what it left.
use recipes::cutting::name_of;
use recipes::heaps::Parts;
use release::pop;
use rules::Refusal;
use std::io;
use std::io::Write;
use telling::lent;
use telling::say::{Answer, Given};

fn pops(parts: &mut Parts<'_, '_, '_, '_>) -> Result<Given, Refusal> {
    let c = parts.control;
    let roots = &mut *parts.roots;
    let answer = pop(parts.heap, parts.table, roots, parts.consts, c);
    parts.done(answer)
}

// The call, and what it gave. But for a pop it is a step of a recipe.
fn called(parts: &mut Parts<'_, '_, '_, '_>, question: &str) -> Result<Given, Refusal> {
    match name_of(question) {
        "end" => pops(parts),
        _ => parts.step(question),
    }
}

// A call, and what it left: of a root that is named, the roots.
pub fn changes(
    out: &mut impl Write,
    parts: &mut Parts<'_, '_, '_, '_>,
    question: &str,
) -> io::Result<()> {
    let before = lent::sum(parts.lent());
    let given = parts.control;
    let answer = Answer(called(parts, question));
    write!(out, "{answer}")?;
    match name_of(question) {
        "name" => lent::only_roots(out, parts.roots),
        _ => lent::report(out, before, given, parts.lent()),
    }
}
