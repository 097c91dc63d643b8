// Output, gathered in a lent buffer and written to a writer when that is full.
ghost use Rattle.std.specs.Prelude.{◌≡◌, ◌≤◌, length, IfOk};

use std::io;
use std::io::Write;

// The buffer's first bytes, up to `at`, are still to be written.
#[derive(Drop)]
pub struct Gathered<'a, W> {
    to: &'a mut W,
    buffer: &'a mut [u8],
    at: usize,
    ghost inside: { at ≤ length buffer.now },
}

impl<'a, W: Write> Gathered<'a, W> {
    pub fn new(to: &'a mut W, buffer: &'a mut [u8]) -> Gathered<'a, W>
        ensures to { result.to.now ≡ to.old }
        ensures buffer { result.buffer.now ≡ buffer.old }
        ensures at { result.at ≡ 0 }
    {
        Gathered { to, buffer, at: 0 }
    }
}

impl<W: Write> Write for Gathered<'_, W> {
    // Gathers as much of a text as there is room for, once what is gathered has been written where it leaves none.
    fn write(&mut self, text: &[u8]) -> io::Result<usize> {
        if self.buffer.len() <= self.at {
            self.flush()?;
        }
        let n = text.len().min(self.buffer.len() - self.at);
        self.buffer[self.at..self.at + n].copy_from_slice(&text[..n]);
        self.at += n;
        Ok(n)
    }

    fn flush(&mut self) -> io::Result<()> {
        let text = &self.buffer[..self.at];
        self.to.write_all(text)?;
        self.at = 0;
        self.to.flush()
    }
}
