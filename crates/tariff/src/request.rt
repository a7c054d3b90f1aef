//! What the arguments ask for.
ghost use Rattle.std.specs.Prelude.{map, string_bytes};
ghost use Rattle.tariff.specs.Requests.{ReadsNumber, ReadsActive};
ghost use Rattle.tariff.specs.Faults.{ReadsThree, Reads};

use crate::fault::Fault;
use text::plain_number;

/// A sheet that is asked for: the rate and the active count or none of the taxed price, and how long the sheet is.
#[derive(Clone, Copy, Drop)]
pub struct Request {
    pub rate: u32,
    pub active: Option<u32>,
    pub length: u32,
}

/// The number that a word is in plain decimal: digits alone, with no zero in front of others, and at most 32 bits.
fn number(word: &str) -> Option<u32>
    ensures { ReadsNumber word.now result }
{
    plain_number(word.as_bytes())
}

/// The active count that a word gives, or none where it is `-`.
fn active_count(word: &str) -> Result<Option<u32>, Fault>
    ensures { ReadsActive word.now result }
{
    if word == "-" {
        return Ok(None);
    }
    Ok(Some(number(word).ok_or(Fault::Active)?))
}

impl Request {
    /// The request that a rate, an active count or `-`, and a length make.
    fn of(rate: &str, active: &str, length: &str) -> Result<Request, Fault>
        ensures { ReadsThree rate.now active.now length.now result }
    {
        Ok(Request {
            rate: number(rate).ok_or(Fault::Rate)?,
            active: active_count(active)?,
            length: number(length).ok_or(Fault::Length)?,
        })
    }

    /// The request that the words of a command line make.
    pub fn read(words: &[String]) -> Result<Request, Fault>
        ensures { Reads (map string_bytes words.now) result }
    {
        match words {
            [rate, active, length] => Request::of(rate, active, length),
            _ => Err(Fault::Arguments),
        }
    }
}
