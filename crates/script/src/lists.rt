// What tokens list, read into a lent part.
ghost use Rattle.std.specs.Prelude.{◌≡◌, ◌≤◌, length, IfSome};
ghost use Rattle.std.specs.Option.{option_map};
ghost use Rattle.script.specs.Texts.{text_of};

use crate::numbers::byte;
use crate::tokens::Tokens;

// What the tokens up to the line's end spell, each by itself: as much of the part as they fill.
pub fn read_list<'a, T: Copy, F: Fn(&[u8]) -> Option<T>>(
    mut tokens: Tokens<'_>,
    part: &'a mut [T],
    read: F,
) -> Option<&'a [T]>
    requires { F.IsAlwaysCallable read }
    ensures { IfSome result (λ list. length list.now ≤ length part.old) }
{
    for k in 0..part.len() {
        let Some(token) = tokens.next() else {
            return Some(&part[..k]);
        };
        part[k] = read(token)?;
    }
    if tokens.is_done() { Some(part) } else { None }
}

// The bytes of a text, two hexadecimal digits each, or a dash where it has none.
#[tactic(auto, using(crate::proofs::Pairs::pairs_turn, crate::proofs::Pairs::pairs_none, crate::proofs::Pairs::pairs_end), unfolding(crate::specs::Texts::text_of, crate::specs::Texts::pairs_of))]
pub fn read_text<'a>(token: &[u8], bytes: &'a mut [u8]) -> Option<&'a [u8]>
    ensures { option_map (λ text. text.now) result ≡ text_of (length bytes.old) token.now }
{
    if token == b"-".as_slice() {
        return Some(&[]);
    }
    let (pairs, odd) = token.as_chunks::<2>();
    if pairs.is_empty() || !odd.is_empty() || bytes.len() < pairs.len() {
        return None;
    }
    for (k, pair) in pairs.iter().enumerate() {
        bytes[k] = byte(pair[0], pair[1])?;
    }
    Some(&bytes[..pairs.len()])
}
