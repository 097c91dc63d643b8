// Whole numbers as words, and words as whole numbers; how far a number is from 0.

#![tactic(auto)]

ghost use Rattle.std.specs.Prelude.{◌≡◌, nat_abs};
ghost use Rattle.rules.specs.Calls.{word_of_number, number_of_word};

use rules::Refusal;

// A whole number from -2^30 to 2^30-1 as a word, 2i+1 modulo 2^32.
pub fn word_of_number(i: i32) -> Result<u32, Refusal>
    ensures { result ≡ word_of_number i }
{
    if i < -1073741824 {
        return Err(Refusal::NoNumber);
    }
    if 1073741823 < i {
        return Err(Refusal::NoNumber);
    }
    Ok(i.cast_unsigned().wrapping_mul(2).wrapping_add(1))
}

// A word as a whole number: shifted to the right it is i again, with its sign.
#[tactic(auto, unfolding(rules::specs::Calls::number_of_word))]
pub fn number_of_word(w: u32) -> Result<i32, Refusal>
    ensures { result ≡ number_of_word w }
{
    if w % 2 == 0 {
        return Err(Refusal::NoNumber);
    }
    Ok(w.cast_signed() >> 1)
}

// How far a number is from 0.
pub fn magnitude(i: i32) -> u32
    ensures { result ≡ nat_abs i }
{
    i.unsigned_abs()
}
