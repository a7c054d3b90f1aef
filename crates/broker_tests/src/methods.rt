//! The calls by their own methods, with slips that are values.
use crate::calls::*;
use crate::slips::{ask_and_deliver, deliver_elsewhere_first};
use broker::{Broker, PlainBroker};
use price::SharePrice;
use rules::{Answer, Call, Estimate, Refusal, SlipNumbers};
use std::test::Fail;

/// A broker of one frame, with a client that may hold it.
fn with_one_client(unit: u32) -> Result<Broker<SharePrice>, Refusal> {
    let mut broker = Broker::new(SharePrice);
    broker.start(unit, 1)?;
    broker.admit(admission(1, 1, 0, 0, 1))?;
    Ok(broker)
}

#[test]
fn a_delivered_slip_closes_its_passage(rt: HostRuntime) -> Result<(), Fail> {
    let mut broker = Broker::new(SharePrice);
    broker.start(7, 2)?;
    broker.admit(admission(1, 300, 0, 0, 2))?;
    broker.admit(admission(2, 100, 0, 0, 1))?;
    let first = SlipNumbers {
        unit: 7,
        client: 1,
        frame: 1,
        former: 0,
        asks: 1,
    };
    assert_eq!(rt; ask_and_deliver(&mut broker, 1), Ok(first));
    // a slip of the same five numbers, which another broker granted, is refused now
    let mut other = with_one_client(7)?;
    assert_eq!(rt;
        deliver_elsewhere_first(&mut other, &mut broker, 1),
        Ok(Some(Refusal::NotTheOpenSlip))
    );
    broker.estimate(1, Estimate { active: 1, end: 3 })?;
    let second = SlipNumbers {
        client: 2,
        frame: 2,
        asks: 2,
        ..first
    };
    assert_eq!(rt; ask_and_deliver(&mut broker, 2), Ok(second));
    assert_eq!(rt; broker.clock(3), Ok(1));
    assert_eq!(rt; broker.hand_back(1), Ok(1));
    assert_eq!(rt;
        ask_and_deliver(&mut broker, 2).err(),
        Some(Refusal::AtMaximum)
    );
    assert_eq!(rt;
        ask_and_deliver(&mut broker, 257).err(),
        Some(Refusal::ClientOutOfRange)
    );
    assert_eq!(rt; broker.leave(2), Ok(1));
    // the frame that came free last is on top, and a refused ask does not count
    let third = SlipNumbers {
        frame: 2,
        asks: 3,
        ..first
    };
    assert_eq!(rt; ask_and_deliver(&mut broker, 1), Ok(third));
    Ok(())
}

#[test]
fn a_refused_delivery_hands_the_slip_back(rt: HostRuntime) -> Result<(), Fail> {
    let mut broker = with_one_client(7)?;
    let mut other = Broker::new(SharePrice);
    assert_eq!(rt;
        deliver_elsewhere_first(&mut broker, &mut other, 1),
        Ok(Some(Refusal::NotTheOpenSlip))
    );
    assert_eq!(rt; broker.clock(1), Ok(0));
    Ok(())
}

#[test]
fn a_slip_is_judged_by_its_numbers(rt: HostRuntime) -> Result<(), Fail> {
    // another unit hands the slip back; the same five numbers close the passage of another broker
    for (unit, refusal, first, second) in [
        (
            8,
            Some(Refusal::NotTheOpenSlip),
            Ok(0),
            Err(Refusal::PassageOpen),
        ),
        (7, None, Err(Refusal::PassageOpen), Ok(0)),
    ] {
        let mut broker = with_one_client(7)?;
        let mut other = with_one_client(unit)?;
        let left = other.ask(1)?;
        assert_eq!(rt;
            deliver_elsewhere_first(&mut broker, &mut other, 1),
            Ok(refusal)
        );
        assert_eq!(rt; broker.clock(1), first);
        assert_eq!(rt; other.clock(1), second);
        // the slip that is left closes the passage that is open still
        let delivered = match first {
            Ok(_) => other.deliver(left),
            Err(_) => broker.deliver(left),
        };
        assert!(rt; delivered.is_ok());
        delivered.unwrap();
    }
    Ok(())
}

/// A broker of one frame with an open passage: its one client has asked.
fn with_open_passage(unit: u32) -> Result<PlainBroker<SharePrice>, Refusal> {
    let mut broker = PlainBroker::new(SharePrice);
    broker.perform(start(unit, 1))?;
    broker.perform(admit(1, 1, 0, 0, 1))?;
    broker.perform(ask(1))?;
    Ok(broker)
}

#[test]
fn plain_numbers_are_judged_as_a_slip_is(rt: HostRuntime) -> Result<(), Fail> {
    let slip = SlipNumbers {
        unit: 7,
        client: 1,
        frame: 1,
        former: 0,
        asks: 1,
    };
    // the same five numbers close the passage of another broker, and another unit's do not
    for (unit, delivered) in [(7, Ok(Answer::Done)), (8, Err(Refusal::NotTheOpenSlip))] {
        let mut broker = with_open_passage(unit)?;
        assert_eq!(rt; broker.perform(Call::Deliver { slip }), delivered);
    }
    Ok(())
}
