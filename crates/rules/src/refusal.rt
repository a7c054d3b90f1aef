//! What can be wrong with a line or a call. Each refusal has a number that planners and offices know it by.
ghost use Rattle.std.specs.Prelude.{◌≡◌};
ghost use Rattle.rules.specs.Numbers.{kind_number, number, Malformed};

/// What is wrong with an event line at the place where the reader stopped.
#[derive(Clone, Copy, PartialEq, Eq, Debug, Drop)]
pub enum FaultKind {
    /// The line does not begin with one of the event letters.
    Letter = 1,
    /// A space is due, and something else is there, or the end.
    Space = 2,
    /// Where a number has to begin there is no digit, or one that begins a number with a leading zero or of more than
    /// 32 bits.
    Number = 3,
    /// More stands on the line than its kind of event has numbers.
    Excess = 4,
}

impl FaultKind {
    /// The number that the kind is printed as.
    pub fn number(&self) -> u8
        ensures { result ≡ kind_number self.now }
    {
        *self as u8
    }
}

/// The first fault of an event line from the left: its kind, and its column, counted from 1.
#[derive(Clone, Copy, PartialEq, Eq, Debug, Drop)]
pub struct Fault {
    pub kind: FaultKind,
    pub column: usize,
}

/// Why a line or a call was refused.
#[derive(Clone, Copy, PartialEq, Eq, Debug, Drop)]
pub enum Refusal {
    /// A start with a unit number that is not 1 to 999, or not 1 to 4,096 frames.
    PoolOutOfRange,
    /// A client number is outside 1 to 256.
    ClientOutOfRange,
    /// The shares are outside 1 to 1,000,000.
    SharesOutOfRange,
    /// The class is above 9.
    ClassOutOfRange,
    /// The maximum is 0, or below the minimum.
    MaximumOutOfRange,
    /// The tax rate is above 99.
    RateOutOfRange,
    /// A frame count is not 1 to 4,096, or a tariff sheet has more than 4,096 places.
    CountOutOfRange,
    /// The buffer has fewer places than what is to be written.
    BufferTooShort,
    /// An event line is malformed, with the reader's fault.
    Malformed(Fault),
    /// A start on a pool that has frames.
    AlreadyStarted,
    /// A call that has to wait while a passage is open.
    PassageOpen,
    /// An admission of a number that is admitted already.
    AlreadyAdmitted,
    /// A client that is not admitted.
    NotAdmitted,
    /// An admission with a maximum above the pool's frames.
    MaximumAboveFrames,
    /// An admission after which the minimums together would exceed the pool's frames.
    MinimumsAboveFrames,
    /// An ask of a client that holds its maximum.
    AtMaximum,
    /// An ask that is outbid.
    Outbid,
    /// A hand-back where the client has nothing to hand back.
    HoldsNoFrame,
    /// An active count above the pool's frames.
    ActiveAboveFrames,
    /// An estimate that ends at or before the clock.
    EndNotAfterClock,
    /// A clock set before the present tick.
    TickBeforeClock,
    /// A delivery while no passage is open, or of a slip that is not the open passage's.
    NotTheOpenSlip,
}

impl Refusal {
    /// The number that the refusal is known by.
    pub fn number(&self) -> u8
        ensures { result ≡ number self.now }
    {
        // `Malformed` holds a fault, and the variants of such an enum have no numbers (refused: unsupported-discriminant).
        match self {
            Refusal::PoolOutOfRange => 1,
            Refusal::ClientOutOfRange => 2,
            Refusal::SharesOutOfRange => 3,
            Refusal::ClassOutOfRange => 4,
            Refusal::MaximumOutOfRange => 5,
            Refusal::RateOutOfRange => 6,
            Refusal::CountOutOfRange => 7,
            Refusal::BufferTooShort => 8,
            Refusal::Malformed(_) => 9,
            Refusal::AlreadyStarted => 11,
            Refusal::PassageOpen => 12,
            Refusal::AlreadyAdmitted => 13,
            Refusal::NotAdmitted => 14,
            Refusal::MaximumAboveFrames => 15,
            Refusal::MinimumsAboveFrames => 16,
            Refusal::AtMaximum => 17,
            Refusal::Outbid => 18,
            Refusal::HoldsNoFrame => 19,
            Refusal::ActiveAboveFrames => 20,
            Refusal::EndNotAfterClock => 21,
            Refusal::TickBeforeClock => 22,
            Refusal::NotTheOpenSlip => 23,
        }
    }
}

/// A malformed line is refused, and the refusal keeps the reader's fault whole.
impl From<Fault> for Refusal {
    ghost from_gives = { λ f r. r ≡ Malformed f };

    fn from(fault: Fault) -> Refusal {
        Refusal::Malformed(fault)
    }
}
