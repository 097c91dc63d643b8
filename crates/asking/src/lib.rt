// A request that changes no lent word, carried out: one call of the library each, on the lent parts.

#![tactic(auto)]

use answers::{Answer, Outcome, refused};
use requests::Asking;
use rules::{Lent, Refusal};
use script::hash;
use script::lists::read_list;
use script::numbers::{decimal, narrow};
use script::tokens::Tokens;

// A field number of a path, as a word.
fn field(token: &[u8]) -> Option<u32> {
    Some(narrow(decimal(token)?))
}

// The decimals that are left of the line are the path.
fn walk(lent: Lent<'_>, root: usize, fields: Tokens<'_>) -> Outcome {
    let mut words = [0u32; 65536];
    let Some(path) = read_list(fields, &mut words, field) else {
        return Ok((Answer::Unknown, lent.control));
    };
    let (w, control) = paths::walk(lent, root, path)?;
    Ok((Answer::Word(w), control))
}

// The word of a number. One that does not fit 32 bits is out of range.
fn word_of(i: i64) -> Result<u32, Refusal> {
    let i = i32::try_from(i).map_err(|_| Refusal::NoNumber)?;
    numbers::word_of_number(i)
}

// The image is written over k bytes that are all z.
fn write(lent: Lent<'_>, k: usize) -> Outcome {
    let mut bytes = [b'z'; 262144];
    if bytes.len() < k {
        return Ok((Answer::Unknown, lent.control));
    }
    let part = &mut bytes[..k];
    let (length, control) = image::write_image(lent, part)?;
    let sum = hash::bytes(hash::EMPTY, part);
    Ok((Answer::Image(length, sum), control))
}

// A call that changes no lent word.
pub fn ask(asked: Asking<'_>, lent: Lent<'_>) -> Outcome {
    let c = lent.control;
    match asked {
        Asking::Fetch(w) => Ok((Answer::Value(w), access::fetch_refusal(lent, w)?)),
        Asking::Page(k) => Ok((Answer::Page(k), page_views::page_refusal(lent, k)?)),
        Asking::Walk(root, fields) => walk(lent, root, fields),
        Asking::Audit => Ok((Answer::Done, audit::audit(lent)?)),
        Asking::Due => {
            let (yes, control) = due::due(lent)?;
            Ok((Answer::Told(yes), control))
        }
        Asking::Used(j) => {
            let (k, control) = used::used_words(lent, j)?;
            Ok((Answer::Count(k), control))
        }
        Asking::Num(i) => {
            let w = word_of(i).map_err(|why| refused(why, c))?;
            Ok((Answer::Word(w), c))
        }
        Asking::Unnum(w) => {
            let i = numbers::number_of_word(w).map_err(|why| refused(why, c))?;
            Ok((Answer::Number(i), c))
        }
        Asking::Write(k) => write(lent, k),
    }
}
