//! The sheet as it is printed.
ghost use Rattle.std.specs.Prelude.{◌≡◌, ◌≤◌, ◌++◌, map, length, string_bytes, MatchResult};
ghost use Rattle.tariff.specs.declared.fault.Fault.TheVariants as fault;
ghost use Rattle.tariff.specs.Listings.{row, rows, Prints, Lists};

use crate::fault::Fault;
use crate::request::Request;
use price::tariff_sheet;
use std::alloc::Global;

/// A line for each place of a sheet: a count of frames, a space, and the bottom there.
fn lines(alloc: Global, sheet: &[u32]) -> Result<String, Fault>
    requires { length sheet.now ≤ 4_096 }
    ensures { MatchResult result (λ text. string_bytes text ≡ rows 1 sheet.now) (λ f. f ≡ fault.Memory) }
{
    let mut text = String::new(alloc);
    for (count, bottom) in (1u32..).zip(sheet) {
        writeln!(text, "{count} {bottom}").map_err(|_| Fault::Memory)?;
    }
    Ok(text)
}

/// The text of the sheet that is asked for, filled in a borrowed one, or why there is none.
fn sheet_text(alloc: Global, request: Request, sheet: &mut [u32]) -> Result<String, Fault>
    ensures { Prints request (length sheet.old) result }
{
    tariff_sheet(request.rate, request.active, sheet)?;
    lines(alloc, sheet)
}

/// The text that the program prints for its arguments, or why it prints none.
pub fn listing(alloc: Global, words: &[String]) -> Result<String, Fault>
    ensures { Lists (map string_bytes words.now) result }
{
    let request = Request::read(words)?;
    // a longer sheet is cut to 4,097 places, which are refused alike
    let places = request.length.min(4_097) as usize;
    // An array, since a `Vec` is made before the sheet is refused: a refusal could then be reported as want of memory.
    let mut sheet = [0; 4_097];
    sheet_text(alloc, request, &mut sheet[..places])
}
