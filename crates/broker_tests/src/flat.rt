//! A price that tells the same of every offer, so that only the last tests of the rank decide.
ghost use Rattle.broker_tests.specs.Flat.{flat, flat_is};

use crate::calls::*;
use crate::tested::*;
use price::{Price, ValidOffer};
use rules::{Answer, Quote, Refusal};

#[derive(Drop)]
struct FlatPrice;

impl Price for FlatPrice {
    ghost meaning = { λ _. flat };

    ghost lawful = { λ _. flat_is };

    fn quote(&self, _offer: ValidOffer) -> Quote {
        Quote {
            class: 0,
            top: 1,
            bottom: 1,
        }
    }
}

#[test]
fn equal_quotes_rank_by_client_and_then_by_count(rt: HostRuntime) {
    let mut tested = Tested::new(&rt, FlatPrice);
    tested.answers(&[
        (start(7, 3), Answer::Done),
        (admit(1, 1, 0, 0, 3), Answer::Done),
        (admit(2, 1_000_000, 9, 0, 3), Answer::Done),
        (admit(3, 1, 0, 1, 3), Answer::Done),
    ]);
    tested.asks(&[(1, free(1)), (2, free(2)), (2, free(3))]);
    // the higher number pays less, and a client's own bid at one frame more ranks below its bid
    assert_eq!(rt; tested.broker().lowest_payer(), Some(2));
    tested.asks(&[
        (2, Err(Refusal::Outbid)),
        (1, taken(3, 2)),
        (1, taken(2, 2)),
        (2, Err(Refusal::Outbid)),
    ]);
    // client 3 gets its minimum without a comparison; then client 1 is the lowest payer itself
    tested.asks(&[
        (3, taken(2, 1)),
        (3, Err(Refusal::Outbid)),
        (1, Err(Refusal::Outbid)),
    ]);
    assert_eq!(rt; tested.broker().lowest_payer(), Some(1));
}
