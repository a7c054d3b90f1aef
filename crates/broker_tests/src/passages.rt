//! What is refused and what is answered while a passage is open.
use crate::calls::*;
use crate::tested::*;
use price::SharePrice;
use rules::{Answer, Call, Refusal, SlipNumbers};

#[test]
fn an_open_passage_waits_for_its_slip(rt: HostRuntime) {
    let mut tested = Tested::new(&rt, SharePrice);
    tested.answers(&[
        (start(7, 3), Answer::Done),
        (admit(1, 300, 0, 0, 3), Answer::Done),
        (admit(2, 100, 0, 1, 3), Answer::Done),
        (clock(5), Answer::Count(0)),
    ]);
    tested.asks(&[(2, free(1)), (2, free(2)), (2, free(3))]);
    let slip = SlipNumbers {
        unit: 7,
        client: 1,
        frame: 3,
        former: 2,
        asks: 4,
    };
    tested.refuses(&[(Call::Deliver { slip }, Refusal::NotTheOpenSlip)]);
    assert_eq!(rt; tested.plain.perform(ask(1)), Ok(Answer::Granted(slip)));
    assert_eq!(rt; tested.broker().holding(1), Ok(1));
    assert_eq!(rt; tested.broker().holding(2), Ok(2));
    assert_eq!(rt; tested.broker().lowest_payer(), Some(2));
    tested.refuses(&[
        (start(7, 0), Refusal::PoolOutOfRange),
        (start(7, 3), Refusal::AlreadyStarted),
        (admit(3, 1, 10, 0, 1), Refusal::ClassOutOfRange),
        (admit(3, 1, 0, 0, 1), Refusal::PassageOpen),
        (ask(300), Refusal::ClientOutOfRange),
        (ask(3), Refusal::PassageOpen),
        (ask(1), Refusal::PassageOpen),
        (hand_back(1), Refusal::PassageOpen),
        (leave(1), Refusal::PassageOpen),
        (estimate(1, 4, 5), Refusal::PassageOpen),
        (clock(4), Refusal::PassageOpen),
        (clock(6), Refusal::PassageOpen),
    ]);
    for wrong in [
        SlipNumbers { unit: 8, ..slip },
        SlipNumbers { client: 2, ..slip },
        SlipNumbers { frame: 2, ..slip },
        SlipNumbers { former: 0, ..slip },
        SlipNumbers { asks: 3, ..slip },
    ] {
        tested.refuses(&[(Call::Deliver { slip: wrong }, Refusal::NotTheOpenSlip)]);
    }
    tested.answers(&[(Call::Deliver { slip }, Answer::Done)]);
    tested.refuses(&[(Call::Deliver { slip }, Refusal::NotTheOpenSlip)]);
    tested.answers(&[(clock(6), Answer::Count(0))]);
}
