//! The eight calls on a broker, as plain values, and what they return.
ghost use Rattle.std.specs.Prelude.{◌≡◌};
ghost use Rattle.rules.specs.Answers.{slip_of};

/// How many frames a client says it uses, and the tick at which the estimate ends.
#[derive(Clone, Copy, PartialEq, Eq, Debug, Drop)]
pub struct Estimate {
    pub active: u32,
    pub end: u32,
}

/// The five numbers of a slip: the unit, the client that gets the frame, the frame, its former owner (0 for a free
/// frame), and the count of asks accepted so far, this one included, modulo 2^64.
// The numbers of a slip are plain, so the former owner of a free frame is 0 and not `None`.
#[derive(Clone, Copy, PartialEq, Eq, Debug, Drop)]
pub struct SlipNumbers {
    pub unit: u32,
    pub client: u32,
    pub frame: u32,
    pub former: u32,
    pub asks: u64,
}

/// An admission that is asked for: the client's number and its terms, as a planner sends them.
#[derive(Clone, Copy, PartialEq, Eq, Debug, Drop)]
pub struct Admission {
    pub client: u32,
    pub shares: u32,
    pub class: u32,
    pub minimum: u32,
    pub maximum: u32,
}

/// A call on a broker, with its numbers as a planner sends them.
#[derive(Clone, Copy, PartialEq, Eq, Debug, Drop)]
pub enum Call {
    /// Gives a new broker its unit number and its frames.
    // Two numbers and no struct: one is kept with the broker, and the other with its frames.
    Start { unit: u32, frames: u32 },
    /// Admits a client under its terms.
    Admit(Admission),
    /// Asks one frame for a client.
    Ask { client: u32 },
    /// Delivers a slip, which closes the passage.
    Deliver { slip: SlipNumbers },
    /// Hands the top frame of a client back.
    HandBack { client: u32 },
    /// Lets a client go with all its frames.
    Leave { client: u32 },
    /// Sets a client's estimate.
    // The number stands beside the estimate, since a client's record holds the estimate alone.
    SetEstimate { client: u32, estimate: Estimate },
    /// Sets the clock.
    SetClock { tick: u32 },
}

/// What an accepted call returns. A refused call returns its refusal, and changes nothing.
#[derive(Clone, Copy, PartialEq, Eq, Debug, Drop)]
pub enum Answer {
    /// Nothing more: a start, an admission, a delivery, an estimate.
    Done,
    /// The slip of an ask.
    Granted(SlipNumbers),
    /// The frame that was handed back.
    Frame(u32),
    /// How many frames a client gave up when it left, or how many estimates the clock ended.
    Count(u32),
}

impl Answer {
    /// The slip of an ask that is granted; no other answer has one.
    pub fn slip(&self) -> Option<SlipNumbers>
        ensures { result ≡ slip_of self.now }
    {
        match *self {
            Answer::Granted(slip) => Some(slip),
            _ => None,
        }
    }
}
