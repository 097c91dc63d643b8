// The numbers that tokens spell: words in hexadecimal, and decimals.
ghost use Rattle.std.specs.Prelude.{◌≡◌, ◌<◌, ◌≤◌, ◌^◌, IfSome, min};
ghost use Rattle.script.specs.Numbers.{digit_value, number_of, decimal_of, small_of, signed_of, word_of, byte_of};

// It stands for every number that is larger.
const LARGE: u64 = 1 << 32;

// A digit's value, in lower case.
#[tactic(auto, using(crate::proofs::Digits::tests), unfolding(crate::specs::Numbers::digit_value))]
fn digit(b: u8) -> Option<u8>
    ensures value { result ≡ digit_value b }
    ensures small { IfSome result (λ d. d < 16) }
{
    match b {
        b'0'..=b'9' => Some(b - b'0'),
        b'a'..=b'f' => Some(b - b'a' + 10),
        _ => None,
    }
}

// A number of this base, of at least one digit.
fn number(token: &[u8], base: u8) -> Option<u64>
    requires { base ≤ 16 }
    ensures value { result ≡ number_of base token.now }
    ensures bound { IfSome result (λ x. x ≤ 2 ^ 32) }
{
    if token.is_empty() {
        return None;
    }
    let mut x = 0;
    for b in token {
        let d = digit(*b)?;
        if base <= d {
            return None;
        }
        x = LARGE.min(x * u64::from(base) + u64::from(d));
    }
    Some(x)
}

// A decimal. 2^32 stands for every number that is larger.
pub fn decimal(token: &[u8]) -> Option<u64>
    ensures value { result ≡ decimal_of token.now }
    ensures bound { IfSome result (λ x. x ≤ 2 ^ 32) }
{
    number(token, 10)
}

// A decimal of 32 bits.
#[tactic(auto, using(crate::proofs::Digits::tests), unfolding(crate::specs::Numbers::of_32_bits))]
pub fn small(token: &[u8]) -> Option<u32>
    ensures { result ≡ small_of token.now }
{
    u32::try_from(decimal(token)?).ok()
}

// A decimal with an optional minus sign. 2^32 and -2^32 stand for every number that is farther from zero.
#[tactic(auto, using(crate::proofs::Digits::signed_negative, crate::proofs::Digits::signed_positive))]
pub fn signed(token: &[u8]) -> Option<i64>
    ensures { result ≡ signed_of token.now }
{
    match token.strip_prefix(b"-") {
        Some(digits) => Some(-i64::try_from(decimal(digits)?).ok()?),
        None => i64::try_from(decimal(token)?).ok(),
    }
}

// A word of 32 bits, with no zero in front.
#[tactic(auto, using(crate::proofs::Digits::tests), unfolding(crate::specs::Numbers::of_32_bits, crate::specs::Numbers::word_of, crate::specs::Numbers::padded_by_zero))]
pub fn word(token: &[u8]) -> Option<u32>
    ensures { result ≡ word_of token.now }
{
    if let [b'0', _, ..] = token {
        return None;
    }
    u32::try_from(number(token, 16)?).ok()
}

// The word of a decimal, the largest where it does not fit.
pub fn narrow(x: u64) -> u32
    ensures { result ≡ min x 4294967295 }
{
    u32::try_from(x).unwrap_or(u32::MAX)
}

// The byte that two hexadecimal digits spell.
#[tactic(auto, unfolding(crate::specs::Numbers::byte_of))]
pub fn byte(high: u8, low: u8) -> Option<u8>
    ensures { result ≡ byte_of high low }
{
    Some(digit(high)? * 16 + digit(low)?)
}
