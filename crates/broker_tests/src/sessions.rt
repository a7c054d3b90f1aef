//! The sample sessions, and two brokers under one borrowed price.
use crate::calls::*;
use crate::tested::*;
use either::{Either, Right};
use price::{ClassPrice, Price, SharePrice, TaxedPrice, ValidOffer};
use rules::{Answer, Quote, Refusal};
use std::process::Abort;
use std::test::Fail;

fn quote(class: u32, top: u32, bottom: u32) -> Quote {
    Quote { class, top, bottom }
}

#[test]
fn session_under_the_share_price(rt: HostRuntime) -> Result<(), Fail> {
    let mut tested = Tested::new(&rt, SharePrice);
    tested.answers(&[
        (start(7, 3), Answer::Done),
        (admit(1, 300, 0, 0, 3), Answer::Done),
        (admit(2, 100, 0, 1, 3), Answer::Done),
    ]);
    tested.grants(&[
        Grant {
            client: 2,
            frame: 1,
            paying: quote(0, 100, 1),
            loss: None,
        },
        Grant {
            client: 2,
            frame: 2,
            paying: quote(0, 100, 2),
            loss: None,
        },
        Grant {
            client: 2,
            frame: 3,
            paying: quote(0, 100, 3),
            loss: None,
        },
        Grant {
            client: 1,
            frame: 3,
            paying: quote(0, 300, 1),
            loss: Some(Loss {
                from: 2,
                over: quote(0, 100, 3),
            }),
        },
        Grant {
            client: 1,
            frame: 2,
            paying: quote(0, 300, 2),
            loss: Some(Loss {
                from: 2,
                over: quote(0, 100, 2),
            }),
        },
    ])?;
    tested.refuses(&[(ask(1), Refusal::Outbid)]);
    assert_eq!(rt; tested.broker().free_frames(), 0);
    tested.holds(&[
        Held {
            client: 1,
            holding: 2,
            price: quote(0, 300, 2),
        },
        Held {
            client: 2,
            holding: 1,
            price: quote(0, 100, 1),
        },
    ]);
    Ok(())
}

/// A price of the tests' own that borrows the price that it tells: a broker takes any lawful price, also one that borrows.
#[derive(Drop)]
struct Borrowed<'a, P> {
    price: &'a P,
}

impl<'a, P: Price> Price for Borrowed<'a, P> {
    ghost meaning = { λ p. P.Price.meaning p.price.now };

    ghost lawful = { λ p. P.Price.lawful p.price.now };

    fn quote(&self, offer: ValidOffer) -> Quote {
        self.price.quote(offer)
    }
}

/// The session under the class price over the taxed price at 75.
fn runs_taxed_session<P: Price>(tested: &mut Tested<impl Abort, P>) -> Result<(), Fail> {
    tested.answers(&[
        (start(12, 4), Answer::Done),
        (admit(1, 100, 0, 0, 4), Answer::Done),
        (admit(2, 200, 0, 0, 4), Answer::Done),
        (admit(3, 50, 2, 0, 1), Answer::Done),
        (estimate(1, 1, 10), Answer::Done),
    ]);
    tested.grants(&[
        Grant {
            client: 1,
            frame: 1,
            paying: quote(0, 2500, 25),
            loss: None,
        },
        Grant {
            client: 1,
            frame: 2,
            paying: quote(0, 2500, 125),
            loss: None,
        },
        Grant {
            client: 2,
            frame: 3,
            paying: quote(0, 5000, 25),
            loss: None,
        },
        Grant {
            client: 2,
            frame: 4,
            paying: quote(0, 5000, 50),
            loss: None,
        },
        Grant {
            client: 2,
            frame: 2,
            paying: quote(0, 5000, 75),
            loss: Some(Loss {
                from: 1,
                over: quote(0, 2500, 125),
            }),
        },
        Grant {
            client: 3,
            frame: 2,
            paying: quote(2, 1250, 25),
            loss: Some(Loss {
                from: 2,
                over: quote(0, 5000, 75),
            }),
        },
    ])?;
    tested.answers(&[
        (clock(10), Answer::Count(1)),
        (hand_back(2), Answer::Frame(4)),
        (leave(3), Answer::Count(1)),
    ]);
    tested.refuses(&[(admit(3, 50, 2, 0, 5), Refusal::MaximumAboveFrames)]);
    assert_eq!(tested.rt; tested.broker().free_frames(), 2);
    tested.holds(&[
        Held {
            client: 1,
            holding: 1,
            price: quote(0, 2500, 25),
        },
        Held {
            client: 2,
            holding: 1,
            price: quote(0, 5000, 25),
        },
    ]);
    Ok(())
}

#[test]
fn sessions_of_two_brokers_under_one_borrowed_price(rt: HostRuntime) -> Result<(), Fail> {
    let price = ClassPrice::new(TaxedPrice::new(75)?);
    let mut first = Tested::new(&rt, Borrowed { price: &price });
    let mut second = Tested::new(&rt, Borrowed { price: &price });
    runs_taxed_session(&mut first)?;
    assert_eq!(rt; second.broker().free_frames(), 0);
    runs_taxed_session(&mut second)
}

#[test]
fn session_under_a_price_that_is_one_of_two(rt: HostRuntime) -> Result<(), Fail> {
    let price = ClassPrice::new(TaxedPrice::new(75)?);
    let other: Either<SharePrice, &ClassPrice<TaxedPrice>> = Right(&price);
    runs_taxed_session(&mut Tested::new(&rt, other))
}
