//! Values that are each a line of text.
ghost use Rattle.std.specs.Prelude.{◌≡◌, ℕ, ◌≤◌, List, [], ◌∷◌, ◌++◌, length, OnOk};
ghost use Rattle.std.specs.Io.KnownBytes.{Appends};
ghost use Rattle.text.specs.Texts.{WritesToFront, kept, spelt};

use crate::Text;
use rules::Refusal;
use std::io;
use std::io::Write;

/// A value with a line of its own, of at most 128 bytes.
///
/// `Display` would not do: `write!` never promises `Ok`, so `write` could not promise what the buffer then holds.
pub trait Line {
    /// The bytes of the line, without a newline.
    ghost spelling: { Self → List ℕ };

    /// Appends the line, without a newline, to a text. It takes 128 bytes at most.
    fn add_to(&self, text: &mut Text)
        ensures short { length (spelling self.now) ≤ 128 }
        ensures text { spelt text.new ≡ kept (spelt text.old ++ spelling self.now) };

    /// The line, without a newline.
    #[tactic(auto, using(crate::proofs::Kept::joined))]
    final fn line(&self) -> Text
        ensures { spelt result ≡ spelling self.now }
    {
        let mut text = Text::new();
        self.add_to(&mut text);
        text
    }

    /// Writes the line, without a newline, to the front of a borrowed buffer and returns its length, at most 128. A
    /// buffer too short for it is refused, and stays as it was.
    final fn write(&self, out: &mut [u8]) -> Result<usize, Refusal>
        ensures short { length (spelling self.now) ≤ 128 }
        ensures writes { WritesToFront (spelling self.now) out.old result out.new }
    {
        self.line().write(out)
    }

    /// Prints the line and a newline.
    #[inline(always)]
    #[tactic(auto, using(crate::proofs::Kept::joined))]
    final fn print<W: Write>(&self, out: &mut W) -> io::Result<()>
        ensures { OnOk result (Appends (W.contents out.old) (W.contents out.new) (spelling self.now ++ 10 ∷ [])) }
    {
        // In place: a text that a function returns is copied on its way.
        let mut line = Text::new();
        self.add_to(&mut line);
        line.print(out)
    }
}
