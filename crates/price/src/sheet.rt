//! The tariff sheet of the taxed price.
ghost use Rattle.std.specs.Prelude.{◌≤◌, length};
ghost use Rattle.rules.specs.Prices.{Sheet};
ghost use Rattle.price.specs.Sheets.{FillsSheet};

use crate::taxed::TaxedPrice;
use rules::Refusal;

/// Writes the bottom at each count of frames into a sheet, from the count 1 on.
fn fill(price: &TaxedPrice, active: Option<u32>, sheet: &mut [u32])
    requires { length sheet.old ≤ 4_096 }
    ensures { Sheet price.now.rate active sheet.new }
{
    // Nothing can be proved about places written through `zip`.
    for (i, place) in sheet.iter_mut().enumerate() {
        *place = price.bottom(active, i as u32 + 1);
    }
}

/// Fills a sheet with the bottoms of the taxed price at this rate under an active count or none: place k - 1 gets the
/// bottom at k. A rate above 99 is refused, and then a sheet longer than 4,096. A refused sheet stays as it was.
pub fn tariff_sheet(rate: u32, active: Option<u32>, sheet: &mut [u32]) -> Result<(), Refusal>
    ensures { FillsSheet rate active sheet.old result sheet.new }
{
    let price = TaxedPrice::new(rate)?;
    if sheet.len() > 4_096 {
        return Err(Refusal::CountOutOfRange);
    }
    fill(&price, active, sheet);
    Ok(())
}
