// Bytes of a reader, put into a lent part.
ghost use Rattle.std.specs.Prelude.{◌≡◌, ◌≤◌, length, IfOk, OnErr};

use std::io;
use std::io::Read;

// Reads until the part is full or the input ends; how many bytes came. The only error is that of a read that fails: the part then holds what came
// before it, in as many bytes as it had.
pub fn fill(source: &mut impl Read, bytes: &mut [u8]) -> io::Result<usize>
    ensures ok { IfOk result (λ n. n ≤ length bytes.new) }
    ensures err { OnErr result (length bytes.new ≡ length bytes.old) }
{
    let mut n = 0;
    while n < bytes.len() {
        let more = source.read(&mut bytes[n..])?;
        if more == 0 {
            return Ok(n);
        }
        n += more;
    }
    Ok(n)
}
