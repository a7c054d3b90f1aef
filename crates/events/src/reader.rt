//! A reader that goes over an event line from left to right, word by word, and stops at the first fault.
ghost use Rattle.std.specs.Prelude.{◌≡◌, ◌≤◌, [], length};
ghost use Rattle.events.specs.EventKinds.{number_count};
ghost use Rattle.events.specs.Reading.{CountsDigits};
ghost use Rattle.events.specs.declared.word.Due.TheVariants as due;

use crate::word::{Due, Form, Word};
use rules::{Fault, FaultKind};
use text::plain_number;

/// How many digits stand at the front.
fn digits(bytes: &[u8]) -> usize
    ensures { CountsDigits bytes.now result }
{
    bytes
        .iter()
        .position(|b| !b.is_ascii_digit())
        .unwrap_or(bytes.len())
}

/// A line and a cursor in it, which never passes its end.
#[derive(Drop)]
pub struct Reader<'a> {
    line: &'a [u8],
    at: usize,
    ghost within: { at ≤ length line.now },
}

impl<'a> Reader<'a> {
    ghost use Rattle.events.specs.Reading.{IsBehind, IsWordAt, ReadsWord, ReadsNumber, ReadsForm, ReadsNumbers, ReadsEnd};

    /// A reader at the start of a line.
    pub fn new(line: &'a [u8]) -> Reader<'a>
        ensures line { result.line.now ≡ line.now }
        ensures start { result.at ≡ 0 }
    {
        Reader { line, at: 0 }
    }

    /// The letter at the cursor, if one of the seven is there.
    fn letter(&self) -> Option<Word<'a>>
        ensures { IsWordAt due.Letter self.now.line.now self.now.at result }
    {
        let at = self.at;
        let first = *self.line.get(at)?;
        let form = Form::of(first as char)?;
        Some(Word::Letter {
            text: &self.line[at..at + 1],
            column: at + 1,
            form,
        })
    }

    /// The space at the cursor, if one is there.
    fn separator(&self) -> Option<Word<'a>>
        ensures { IsWordAt due.Separator self.now.line.now self.now.at result }
    {
        let at = self.at;
        (self.line.get(at) == Some(&b' ')).then(|| Word::Separator {
            text: &self.line[at..at + 1],
            column: at + 1,
        })
    }

    /// The number at the cursor, if one is there.
    fn number(&self) -> Option<Word<'a>>
        ensures { IsWordAt due.Number self.now.line.now self.now.at result }
    {
        let at = self.at;
        let end = at + digits(&self.line[at..]);
        let text = &self.line[at..end];
        let value = plain_number(text)?;
        Some(Word::Number {
            text,
            column: at + 1,
            value,
        })
    }

    /// The word at the cursor, which moves past it, if it is the word that is due. If not, the cursor stays.
    pub fn next_word(&mut self, due: Due) -> Result<Word<'a>, Fault>
        ensures line { self.new.line ≡ self.old.line }
        ensures cases { ReadsWord due self.old.line.now self.old.at result self.new.at }
    {
        let fault = Fault {
            kind: due.missing(),
            column: self.at + 1,
        };
        let word = match due {
            Due::Letter => self.letter(),
            Due::Separator => self.separator(),
            Due::Number => self.number(),
        };
        let word = word.ok_or(fault)?;
        self.at += word.text().len();
        Ok(word)
    }

    /// What the line's letter says. The reader is at the start of the line.
    pub(crate) fn form(&mut self) -> Result<Form, Fault>
        requires { self.old.at ≡ 0 }
        ensures line { self.new.line ≡ self.old.line }
        ensures cases { ReadsForm self.old.line.now result self.new.at }
    {
        // All words are one enum, so that a letter comes here is proved and not a matter of types.
        let Word::Letter { form, .. } = self.next_word(Due::Letter)? else {
            unreachable!()
        };
        Ok(form)
    }

    /// The next number, after its space.
    pub(crate) fn next_number(&mut self) -> Result<u32, Fault>
        ensures line { self.new.line ≡ self.old.line }
        ensures cases { ReadsNumber self.old.line.now self.old.at result self.new.at }
    {
        self.next_word(Due::Separator)?;
        // All words are one enum, so that a number comes here is proved and not a matter of types.
        let Word::Number { value, .. } = self.next_word(Due::Number)? else {
            unreachable!()
        };
        Ok(value)
    }

    /// The numbers of a line, in the first places of five. The reader is right behind the line's letter.
    pub(crate) fn numbers(&mut self, form: Form) -> Result<[u32; 5], Fault>
        requires { IsBehind self.old.line.now form.kind [] self.old.at × (form.count ≡ number_count form.kind) }
        ensures line { self.new.line ≡ self.old.line }
        ensures cases { ReadsNumbers self.old.line.now form.kind result self.new.at }
    {
        let mut numbers = [0; 5];
        for number in &mut numbers[..form.count] {
            *number = self.next_number()?;
        }
        Ok(numbers)
    }

    /// That the line ends at the cursor. Where it goes on, the fault is there.
    pub fn finish(&self) -> Result<(), Fault>
        ensures { ReadsEnd self.now.line.now self.now.at result }
    {
        if self.at < self.line.len() {
            return Err(Fault {
                kind: FaultKind::Excess,
                column: self.at + 1,
            });
        }
        Ok(())
    }
}
