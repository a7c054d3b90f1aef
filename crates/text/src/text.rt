//! A line of at most 128 bytes, put together from bytes and numbers without allocating.
ghost use Rattle.std.specs.Prelude.{◌≡◌, ◌≤◌, [], ◌∷◌, ◌++◌, length, decimal, OnOk};
ghost use Rattle.std.specs.Io.KnownBytes.{Appends};

use arrayvec::ArrayVec;
use itoa::Buffer;
use rules::Refusal;
use std::io;
use std::io::Write;

/// A line being put together, of at most 128 bytes. What would go beyond is cut off.
#[derive(Drop)]
pub struct Text {
    line: ArrayVec<u8, 128>,
    ghost short: { length line.items ≤ 128 },
}

impl Text {
    ghost use Rattle.text.specs.Texts.{spelt, kept, WritesToFront};

    /// A text of no bytes.
    pub fn new() -> Text
        ensures { spelt result ≡ [] }
    {
        let line = ArrayVec::new();
        Text { line }
    }

    /// Appends one byte.
    pub fn byte(&mut self, b: u8)
        ensures { spelt self.new ≡ kept (spelt self.old ++ b ∷ []) }
    {
        self.bytes(&[b]);
    }

    /// Appends some bytes.
    pub fn bytes(&mut self, more: &[u8])
        ensures { spelt self.new ≡ kept (spelt self.old ++ more.now) }
    {
        let fitting = more.len().min(self.line.remaining_capacity());
        let _fits = self.line.try_extend_from_slice(&more[..fitting]);
    }

    /// Appends a number in decimal, which takes 20 bytes at most.
    pub fn number(&mut self, n: u64)
        ensures short { length (decimal n) ≤ 20 }
        ensures text { spelt self.new ≡ kept (spelt self.old ++ decimal n) }
    {
        let mut buffer = Buffer::new();
        self.bytes(buffer.format(n).as_bytes());
    }

    /// The text's bytes.
    pub fn as_bytes(&self) -> &[u8]
        ensures { result.now ≡ spelt self.now }
    {
        self.line.as_slice()
    }

    /// Writes the text to the front of a borrowed buffer and returns its length. A buffer too short for it is refused,
    /// and stays as it was.
    pub fn write(&self, out: &mut [u8]) -> Result<usize, Refusal>
        ensures { WritesToFront (spelt self.now) out.old result out.new }
    {
        let line = self.as_bytes();
        let n = line.len();
        if out.len() < n {
            return Err(Refusal::BufferTooShort);
        }
        out[0..n].copy_from_slice(line);
        Ok(n)
    }

    /// Prints the text and a newline. They are handed on together, so that a buffer sends no line off before its newline.
    #[inline(always)]
    pub fn print<W: Write>(&self, out: &mut W) -> io::Result<()>
        ensures { OnOk result (Appends (W.contents out.old) (W.contents out.new) (spelt self.now ++ 10 ∷ [])) }
    {
        // The newline takes one place more than a text has.
        let mut line: ArrayVec<u8, 129> = ArrayVec::new();
        let _text_fits = line.try_extend_from_slice(self.as_bytes());
        let _newline_fits = line.try_push(b'\n');
        out.write_all(line.as_slice())
    }
}
