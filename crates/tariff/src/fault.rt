//! Why no sheet is printed.
ghost use Rattle.std.specs.Prelude.{◌≡◌};
ghost use Rattle.tariff.specs.Refused.{refused};

use rules::Refusal;
use thiserror::Error;

/// Why no sheet is printed.
#[derive(Clone, Copy, Debug, Drop, Error)]
pub enum Fault {
    /// An argument is no UTF-8.
    #[error("The arguments have to be plain text.")]
    Text,
    /// There are not three arguments.
    #[error("Give three arguments: a rate, an active count or -, and a length.")]
    Arguments,
    /// The first argument is no plain decimal number of at most 32 bits.
    #[error("The rate has to be a plain decimal number from 0 to 99.")]
    Rate,
    /// The second is neither such a number nor `-`.
    #[error("The active count has to be - or a plain decimal number from 0 to 4294967295.")]
    Active,
    /// The third is no such number.
    #[error("The length has to be a plain decimal number from 0 to 4096.")]
    Length,
    /// There is no taxed price at the rate.
    #[error("The rate is above 99.")]
    HighRate,
    /// There are not so many frames.
    #[error("The length is above 4096.")]
    LongSheet,
    /// The sheet is refused for another reason, which does not come about.
    #[error("The sheet is refused: {}.", .0.number())]
    Refused(Refusal),
    /// There is no memory for the text.
    #[error("There is no memory for the sheet.")]
    Memory,
}

/// The fault of a refused sheet says which number is too large.
impl From<Refusal> for Fault {
    ghost from_gives = { λ refusal fault. fault ≡ refused refusal };

    fn from(refusal: Refusal) -> Fault {
        match refusal {
            Refusal::RateOutOfRange => Fault::HighRate,
            Refusal::CountOutOfRange => Fault::LongSheet,
            _ => Fault::Refused(refusal),
        }
    }
}
