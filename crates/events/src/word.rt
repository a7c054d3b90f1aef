//! The words of an event line, each a part of the line itself.
ghost use Rattle.std.specs.Prelude.{◌≡◌, ◌≢◌, MatchOption};
ghost use Rattle.events.specs.EventKinds.{EventKind, letter, number_count};

use rules::FaultKind;

/// What has to stand at the reader's cursor.
#[derive(Clone, Copy, PartialEq, Eq, Debug)]
pub enum Due {
    Letter,
    Separator,
    Number,
}

impl Due {
    ghost use Rattle.events.specs.Reading.{missing_kind};

    /// The kind of fault where no such word stands. (A conversion by `From` would not say that the word is missing.)
    pub fn missing(&self) -> FaultKind
        ensures { result ≡ missing_kind self.now }
    {
        match self {
            Due::Letter => FaultKind::Letter,
            Due::Separator => FaultKind::Space,
            Due::Number => FaultKind::Number,
        }
    }
}

/// The seven kinds of event.
#[derive(Clone, Copy, PartialEq, Eq, Debug)]
pub enum EventKind {
    Start,
    Admit,
    Ask,
    HandBack,
    Leave,
    Estimate,
    Clock,
}

/// What an event's letter says: the kind of event, and how many numbers follow.
#[derive(Clone, Copy, PartialEq, Eq, Debug)]
pub struct Form {
    pub kind: EventKind,
    pub count: usize,
}

impl Form {
    /// What a letter says, if it is one of the seven.
    pub(crate) fn of(c: char) -> Option<Form>
        ensures { MatchOption result ((k : EventKind) → letter k ≢ c)
            (λ f. (letter f.kind ≡ c) × (f.count ≡ number_count f.kind)) }
    {
        let (kind, count) = match c {
            'S' => (EventKind::Start, 2),
            'A' => (EventKind::Admit, 5),
            'Q' => (EventKind::Ask, 1),
            'H' => (EventKind::HandBack, 1),
            'L' => (EventKind::Leave, 1),
            'E' => (EventKind::Estimate, 3),
            'T' => (EventKind::Clock, 1),
            _ => return None,
        };
        Some(Form { kind, count })
    }
}

/// A word of an event line: its part of the line, its column, counted from 1, and what it says.
#[derive(Clone, Copy)]
pub enum Word<'a> {
    /// One of the seven letters.
    Letter {
        text: &'a [u8],
        column: usize,
        form: Form,
    },
    /// A number in decimal, without a leading zero, of at most 32 bits.
    Number {
        text: &'a [u8],
        column: usize,
        value: u32,
    },
    /// One space.
    Separator {
        text: &'a [u8],
        column: usize,
    },
}

impl<'a> Word<'a> {
    ghost use Rattle.events.specs.Reading.{text_of};

    /// The word's part of the line.
    pub fn text(&self) -> &'a [u8]
        ensures { result.now ≡ text_of self.now }
    {
        match self {
            Word::Letter { text, .. } | Word::Number { text, .. } | Word::Separator { text, .. } =>
                text,
        }
    }
}
