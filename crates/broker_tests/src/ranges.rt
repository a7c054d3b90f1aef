//! The ends of the ranges, and the order of the refusals.
use crate::calls::*;
use crate::tested::*;
use price::SharePrice;
use rules::{Answer, Quote, Refusal};

#[test]
fn units_and_frames_of_a_start(rt: HostRuntime) {
    for (unit, frames) in [(1, 1), (999, 4_096)] {
        let mut tested = Tested::new(&rt, SharePrice);
        assert_eq!(rt; tested.broker().free_frames(), 0);
        tested.refuses(&[
            (start(0, 1), Refusal::PoolOutOfRange),
            (start(1_000, 1), Refusal::PoolOutOfRange),
            (start(1, 0), Refusal::PoolOutOfRange),
            (start(1, 4_097), Refusal::PoolOutOfRange),
            (ask(1), Refusal::NotAdmitted),
            (hand_back(1), Refusal::NotAdmitted),
            (leave(1), Refusal::NotAdmitted),
            (estimate(1, 0, 1), Refusal::NotAdmitted),
            (admit(1, 1, 0, 0, 1), Refusal::MaximumAboveFrames),
        ]);
        tested.answers(&[
            (clock(5), Answer::Count(0)),
            (start(unit, frames), Answer::Done),
        ]);
        assert_eq!(rt; tested.broker().free_frames(), frames);
        // the start leaves the clock
        tested.refuses(&[
            (start(1, 1), Refusal::AlreadyStarted),
            (start(1, 0), Refusal::PoolOutOfRange),
            (clock(4), Refusal::TickBeforeClock),
        ]);
    }
}

#[test]
fn terms_of_an_admission(rt: HostRuntime) {
    let mut tested = Tested::new(&rt, SharePrice);
    tested.answers(&[(start(1, 4), Answer::Done)]);
    tested.refuses(&[
        (admit(0, 0, 10, 1, 0), Refusal::ClientOutOfRange),
        (admit(257, 0, 10, 1, 0), Refusal::ClientOutOfRange),
        (admit(1, 0, 10, 1, 0), Refusal::SharesOutOfRange),
        (admit(1, 1_000_001, 10, 1, 0), Refusal::SharesOutOfRange),
        (admit(1, 1, 10, 1, 0), Refusal::ClassOutOfRange),
        (admit(1, 1, 256, 1, 0), Refusal::ClassOutOfRange),
        (admit(1, 1, 9, 0, 0), Refusal::MaximumOutOfRange),
        (admit(1, 1, 9, 6, 5), Refusal::MaximumOutOfRange),
        (admit(1, 1, 9, 5, 5), Refusal::MaximumAboveFrames),
    ]);
    tested.answers(&[
        (admit(1, 1, 9, 0, 1), Answer::Done),
        (admit(256, 1_000_000, 0, 3, 3), Answer::Done),
    ]);
    tested.refuses(&[
        (admit(1, 1, 10, 0, 1), Refusal::ClassOutOfRange),
        (admit(1, 1, 0, 5, 5), Refusal::AlreadyAdmitted),
        (admit(2, 1, 0, 2, 4), Refusal::MinimumsAboveFrames),
    ]);
    // the minimums come to the frames
    tested.answers(&[(admit(2, 1, 0, 1, 4), Answer::Done)]);
    tested.refuses(&[(admit(3, 1, 0, 1, 1), Refusal::MinimumsAboveFrames)]);
    tested.answers(&[
        (leave(256), Answer::Count(0)),
        (admit(256, 1, 0, 3, 4), Answer::Done),
    ]);
    for (after, next) in [
        (0, Some(1)),
        (1, Some(2)),
        (2, Some(256)),
        (255, Some(256)),
        (256, None),
        (u32::MAX, None),
    ] {
        assert_eq!(rt; tested.broker().next_client(after), next);
    }
}

#[test]
fn ends_of_estimates_and_ticks(rt: HostRuntime) {
    let mut tested = Tested::new(&rt, SharePrice);
    tested.answers(&[
        (start(1, 4), Answer::Done),
        (admit(1, 1, 0, 0, 4), Answer::Done),
        (admit(256, 1, 0, 0, 4), Answer::Done),
        (clock(7), Answer::Count(0)),
    ]);
    tested.refuses(&[
        (estimate(0, 5, 7), Refusal::ClientOutOfRange),
        (estimate(257, 5, 7), Refusal::ClientOutOfRange),
        (estimate(2, 5, 7), Refusal::NotAdmitted),
        (estimate(1, 5, 7), Refusal::ActiveAboveFrames),
        (estimate(1, 4, 7), Refusal::EndNotAfterClock),
        (clock(6), Refusal::TickBeforeClock),
    ]);
    tested.answers(&[
        (estimate(1, 4, 8), Answer::Done),
        (estimate(256, 0, u32::MAX), Answer::Done),
        (clock(7), Answer::Count(0)),
        (clock(8), Answer::Count(1)),
        (clock(u32::MAX - 1), Answer::Count(0)),
        (estimate(1, 0, u32::MAX), Answer::Done),
        (clock(u32::MAX), Answer::Count(2)),
        (clock(u32::MAX), Answer::Count(0)),
    ]);
    tested.refuses(&[
        (estimate(1, 0, u32::MAX), Refusal::EndNotAfterClock),
        (clock(0), Refusal::TickBeforeClock),
    ]);
}

#[test]
fn questions_on_clients_and_counts(rt: HostRuntime) {
    let mut tested = Tested::new(&rt, SharePrice);
    tested.answers(&[
        (start(1, 7), Answer::Done),
        (admit(1, 500, 0, 0, 1), Answer::Done),
        (admit(2, 300, 0, 0, 7), Answer::Done),
        (admit(256, 100, 0, 0, 7), Answer::Done),
    ]);
    for (client, share) in [
        (0, Err(Refusal::ClientOutOfRange)),
        (1, Ok(3)),
        (2, Ok(2)),
        (3, Err(Refusal::NotAdmitted)),
        (256, Ok(0)),
        (257, Err(Refusal::ClientOutOfRange)),
    ] {
        assert_eq!(rt; tested.broker().proportional_share(client), share);
        assert_eq!(rt; tested.broker().holding(client).err(), share.err());
    }
    for (client, count, refusal) in [
        (0, 0, Some(Refusal::ClientOutOfRange)),
        (257, 0, Some(Refusal::ClientOutOfRange)),
        (3, 0, Some(Refusal::CountOutOfRange)),
        (3, 4_097, Some(Refusal::CountOutOfRange)),
        (3, 1, Some(Refusal::NotAdmitted)),
        (2, 1, None),
        (256, 4_096, None),
    ] {
        assert_eq!(rt; tested.broker().price_at(client, count).err(), refusal);
    }
    let quote = Quote {
        class: 0,
        top: 300,
        bottom: 4_096,
    };
    assert_eq!(rt; tested.broker().price_at(2, 4_096), Ok(quote));
    tested.asks(&[
        (1, free(1)),
        (1, Err(Refusal::AtMaximum)),
        (0, Err(Refusal::ClientOutOfRange)),
    ]);
    tested.answers(&[(hand_back(1), Answer::Frame(1))]);
    tested.refuses(&[
        (hand_back(1), Refusal::HoldsNoFrame),
        (hand_back(3), Refusal::NotAdmitted),
        (leave(257), Refusal::ClientOutOfRange),
    ]);
}
