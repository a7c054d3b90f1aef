//! Slips as the values that have to be delivered.
use broker::Broker;
use price::Price;
use rules::{Refusal, SlipNumbers};

/// Asks for a frame and delivers the slip at once. A slip that was just granted is never handed back, which is proved.
pub(crate) fn ask_and_deliver<P: Price>(
    broker: &mut Broker<P>,
    client: u32,
) -> Result<SlipNumbers, Refusal> {
    let slip = broker.ask(client)?;
    let numbers = slip.numbers();
    broker.deliver(slip).unwrap();
    Ok(numbers)
}

/// Asks one broker for a frame, tries to deliver the slip to another, and delivers the slip that is handed back where
/// it belongs. The answer is what the other refused it with, or nothing where the other took it.
pub(crate) fn deliver_elsewhere_first<P: Price>(
    broker: &mut Broker<P>,
    other: &mut Broker<P>,
    client: u32,
) -> Result<Option<Refusal>, Refusal> {
    let slip = broker.ask(client)?;
    match other.deliver(slip) {
        Ok(()) => Ok(None),
        Err(undelivered) => {
            let refusal = undelivered.refusal;
            broker.deliver(undelivered.into_slip()).unwrap();
            Ok(Some(refusal))
        }
    }
}
