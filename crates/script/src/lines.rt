// Lines of a reader, whose bytes come in chunks.
ghost use Rattle.std.specs.Prelude.{◌≡◌, ◌≤◌, ◌<◌, ◌-◌, length, take, drop, slice_index, max, false, IfOk, IfSome};

use std::io;
use std::io::Read;

// A reader, and the last chunk of it: the bytes from `from` to `end` are still to come. Once the input is over nothing more is read.
#[derive(Drop)]
pub struct Lines<'a, R> {
    source: &'a mut R,
    chunk: &'a mut [u8],
    from: usize,
    end: usize,
    is_over: bool,
    ghost inside: { end ≤ length chunk.now },
}

impl<'a, R: Read> Lines<'a, R> {
    pub fn new(source: &'a mut R, chunk: &'a mut [u8]) -> Lines<'a, R>
        ensures source { result.source.now ≡ source.old }
        ensures chunk { result.chunk.now ≡ chunk.old }
        ensures from { result.from ≡ 0 }
        ensures end { result.end ≡ 0 }
        ensures over { result.is_over ≡ false }
    {
        Lines {
            source,
            chunk,
            from: 0,
            end: 0,
            is_over: false,
        }
    }

    // The bytes of the chunk that are still to come.
    fn to_come(&self) -> &[u8]
        requires { self.now.from ≤ self.now.end }
        ensures { result.now ≡ take (self.now.end - self.now.from) (drop self.now.from self.now.chunk.now) }
    {
        &self.chunk[self.from..self.end]
    }

    // The next line without its newline, in a lent part, and nothing at the input's end. What is left of the chunk begins behind a newline.
    pub fn next_line<'l>(&mut self, line: &'l mut [u8]) -> io::Result<Option<&'l [u8]>>
        ensures line { IfOk result (λ told. IfSome told (λ text. length text.now ≤ max (length line.old) 1)) }
        ensures chunk { length self.new.chunk.now ≡ length self.old.chunk.now }
        ensures behind { IfOk result (λ told. IfSome told (λ _. let l = self.new in
            l.from < l.end → (0 < l.from) × (slice_index l.chunk.now (l.from - 1) ≡ 10))) }
    {
        if self.is_over {
            return Ok(None);
        }
        let mut used = 0;
        for _ in 0..u64::MAX {
            if self.end <= self.from {
                let end = self.source.read(self.chunk)?;
                self.from = 0;
                self.end = end;
                if end == 0 {
                    self.is_over = true;
                    break;
                }
            }
            let bytes = self.to_come();
            if let Some(n) = newline_in(bytes) {
                used = keep(&bytes[..n], line, used);
                self.from += n + 1;
                return Ok(Some(closed(line, used)));
            }
            used = keep(bytes, line, used);
            self.from = self.end;
        }
        if used == 0 {
            return Ok(None);
        }
        Ok(Some(closed(line, used)))
    }
}

// Where the first newline stands, if there is one.
fn newline_in(bytes: &[u8]) -> Option<usize>
    ensures { IfSome result (λ i. (i < length bytes.now) × (slice_index bytes.now i ≡ 10)) }
{
    bytes.iter().position(|b| *b == b'\n')
}

// Puts bytes after those that a line has, as many as it has room for; how many it has then.
fn keep(bytes: &[u8], line: &mut [u8], used: usize) -> usize
    requires { used ≤ length line.old }
    ensures { result ≤ length line.new }
{
    let n = bytes.len().min(line.len() - used);
    line[used..used + n].copy_from_slice(&bytes[..n]);
    used + n
}

// A line that fills its part was cut, and is a comment or no operation by its first byte.
fn closed(line: &[u8], used: usize) -> &[u8]
    ensures { length result.now ≤ max (length line.now) 1 }
{
    if used < line.len() {
        return &line[..used];
    }
    if line.starts_with(b"#") { b"#" } else { b"?" }
}

// Whether a line is blank or a comment.
pub fn is_skipped(line: &[u8]) -> bool {
    line.starts_with(b"#") || line.iter().all(|b| *b == b' ')
}
