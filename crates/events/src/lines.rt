//! The lines of an input.
ghost use Rattle.std.specs.Prelude.{◌≡◌, length};
ghost use Rattle.std.specs.Option.{option_map};
ghost use Rattle.events.specs.Input.{GivesLine};
ghost use Rattle.std.specs.Iterator.{at_most};

use memchr::memchr;

/// How many bytes of each line are read. They decide what it says.
const WIDTH: usize = 80;

/// The lines of an input, cut by byte 10 alone, the first 80 bytes of each.
///
/// Text after the last newline is a line unless it is empty.
// `bstr`'s `lines` drop a `\r` too. Its `lines_with_terminator`, and std's `split_inclusive`, which has no memchr, keep
// the newline, so that `next` would still cut each.
#[derive(Drop)]
pub struct Lines<'a> {
    rest: &'a [u8],
}

impl<'a> Lines<'a> {
    /// The lines of this input, from its first on.
    pub fn new(input: &'a [u8]) -> Lines<'a>
        ensures { result.rest.now ≡ input.now }
    {
        Lines { rest: input }
    }
}

impl<'a> Iterator for Lines<'a> {
    type Item = &'a [u8];

    ghost next_gives = { λ before r after. GivesLine before.rest.now (option_map (λ x. x.now) r) after.rest.now };

    ghost remaining = { λ s. at_most (length s.rest.now) };

    fn next(&mut self) -> Option<&'a [u8]> {
        let text = self.rest;
        if text.is_empty() {
            return None;
        }
        let (line, rest) = match memchr(b'\n', text) {
            Some(end) => (&text[..end], &text[end + 1..]),
            None => (text, &text[text.len()..]),
        };
        self.rest = rest;
        Some(&line[..line.len().min(WIDTH)])
    }
}
