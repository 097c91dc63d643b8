// FNV-1a of 64 bits.
ghost use Rattle.std.specs.Prelude.{◌≡◌};
ghost use Rattle.script.specs.Hash.{hash_byte, hash_bytes, hash_words};

// The hash of no bytes.
pub const EMPTY: u64 = 14695981039346656037;

// FNV's prime.
const PRIME: u64 = 1099511628211;

// One byte more.
fn byte(h: u64, b: u8) -> u64
    ensures { result ≡ hash_byte h b }
{
    (h ^ u64::from(b)).wrapping_mul(PRIME)
}

// Bytes more.
pub fn bytes(h: u64, part: &[u8]) -> u64
    ensures { result ≡ hash_bytes h part.now }
{
    part.iter().fold(h, |sum, b| byte(sum, *b))
}

// Words more, of four bytes each, the lowest first.
pub fn words(h: u64, part: &[u32]) -> u64
    ensures { result ≡ hash_words h part.now }
{
    part.iter().fold(h, |sum, w| bytes(sum, &w.to_le_bytes()))
}
