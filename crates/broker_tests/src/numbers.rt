//! The numbers that refusals are known by.
use rules::{Fault, FaultKind, Refusal};

#[test]
fn refusals_have_their_numbers(rt: HostRuntime) {
    let fault = Fault {
        kind: FaultKind::Letter,
        column: 1,
    };
    for (refusal, number) in [
        (Refusal::PoolOutOfRange, 1),
        (Refusal::ClientOutOfRange, 2),
        (Refusal::SharesOutOfRange, 3),
        (Refusal::ClassOutOfRange, 4),
        (Refusal::MaximumOutOfRange, 5),
        (Refusal::RateOutOfRange, 6),
        (Refusal::CountOutOfRange, 7),
        (Refusal::BufferTooShort, 8),
        (Refusal::Malformed(fault), 9),
        (Refusal::AlreadyStarted, 11),
        (Refusal::PassageOpen, 12),
        (Refusal::AlreadyAdmitted, 13),
        (Refusal::NotAdmitted, 14),
        (Refusal::MaximumAboveFrames, 15),
        (Refusal::MinimumsAboveFrames, 16),
        (Refusal::AtMaximum, 17),
        (Refusal::Outbid, 18),
        (Refusal::HoldsNoFrame, 19),
        (Refusal::ActiveAboveFrames, 20),
        (Refusal::EndNotAfterClock, 21),
        (Refusal::TickBeforeClock, 22),
        (Refusal::NotTheOpenSlip, 23),
    ] {
        assert_eq!(rt; refusal.number(), number);
    }
}
