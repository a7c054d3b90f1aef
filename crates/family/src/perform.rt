//! New brokers, and orders performed on them one after the other.
ghost use Rattle.std.specs.Prelude.{◌≡◌, ◌<◌, length, OnOk, OnErr, IfErr};
ghost use Rattle.rules.specs.declared.refusal.Refusal.TheVariants.{BufferTooShort};
ghost use Rattle.family.specs.Families.{Performed};
ghost use Rattle.family.specs.Orders.{Renewed};

use crate::orders::{Order, Outcome, obey};
use broker::PlainBroker;
use price::Price;
use rules::Refusal;

/// Makes every broker new, under its price.
fn renew_all<P: Price>(brokers: &mut [PlainBroker<P>])
    ensures { Renewed (length brokers.old) brokers.old brokers.new }
{
    for broker in brokers.iter_mut() {
        broker.renew();
    }
}

/// Makes every broker new under its price, performs the orders one after the other, each on the broker at its place, and
/// writes the outcome of each into its place. An order for a place without a broker has none and touches no broker. Places
/// beyond the outcomes stay as they were. Fewer places for outcomes than orders are refused, and nothing is done.
pub fn perform_all<P: Price>(
    brokers: &mut [PlainBroker<P>],
    orders: &[Order],
    outcomes: &mut [Outcome],
) -> Result<(), Refusal>
    ensures performed { OnOk result (Performed brokers.old orders.now outcomes.old brokers.new outcomes.new) }
    ensures short { IfErr result (λ r. (r ≡ BufferTooShort) × (length outcomes.old < length orders.now)) }
    ensures unchanged { OnErr result ((brokers.new ≡ brokers.old) × (outcomes.new ≡ outcomes.old)) }
{
    if outcomes.len() < orders.len() {
        return Err(Refusal::BufferTooShort);
    }
    renew_all(brokers);
    // Nothing can be proved about places written through a zip with the orders.
    for (i, order) in orders.iter().enumerate() {
        outcomes[i] = obey(brokers, *order);
    }
    Ok(())
}
