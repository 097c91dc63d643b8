// A line's tokens, separated by single spaces.
ghost use Rattle.std.specs.Prelude.{◌≡◌, ◌+◌, ◌↔◌, Some, None, IsTrue, length};
ghost use Rattle.std.specs.Iterator.{at_most};
ghost use Rattle.std.specs.Option.{option_map_or};
ghost use Rattle.script.specs.Tokens.{line_left, first_space, TakesToken};

// The tokens that are still to come: what is left of the line from the next token on, and nothing past the last token.
#[derive(Clone, Copy)]
pub struct Tokens<'a> {
    rest: Option<&'a [u8]>,
}

impl<'a> Tokens<'a> {
    pub fn of(line: &'a [u8]) -> Tokens<'a>
        ensures { line_left result ≡ Some line.now }
    {
        Tokens { rest: Some(line) }
    }

    // All the tokens that are still to come.
    pub fn rest(&mut self) -> Tokens<'a>
        ensures all { line_left result ≡ line_left self.old }
        ensures none_left { line_left self.new ≡ None }
    {
        let rest = self.rest.take();
        Tokens { rest }
    }

    // Whether the line's last token has been read.
    pub fn is_done(&self) -> bool
        ensures { IsTrue result ↔ (line_left self.now ≡ None) }
    {
        self.rest.is_none()
    }
}

// Where the first space of a line stands.
fn first_space(line: &[u8]) -> Option<usize>
    ensures { result ≡ first_space line.now }
{
    line.iter().position(|b| *b == b' ')
}

impl<'a> Iterator for Tokens<'a> {
    type Item = &'a [u8];

    ghost next_gives = { TakesToken };

    ghost remaining = { λ s. at_most (option_map_or (λ r. 1 + length r.now) s.rest 0) };

    fn next(&mut self) -> Option<&'a [u8]> {
        let line = self.rest?;
        let Some(end) = first_space(line) else {
            self.rest = None;
            return Some(line);
        };
        self.rest = Some(&line[end + 1..]);
        Some(&line[..end])
    }
}
