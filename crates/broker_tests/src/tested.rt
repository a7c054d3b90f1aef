//! A broker under test: rows of calls, with what each must give.
use crate::calls::ask;
use broker::{Broker, PlainBroker};
use price::Price;
use rules::{Answer, Call, Quote, Refusal};
use std::process::Abort;
use std::test::Fail;

/// A frame that a client gets, and its former owner, 0 for a free frame, as in a slip.
#[derive(Clone, Copy, PartialEq, Debug, Drop)]
pub struct Got {
    pub frame: u32,
    pub former: u32,
}

/// What a client gets of the free frames.
pub fn free(frame: u32) -> Result<Got, Refusal> {
    Ok(Got { frame, former: 0 })
}

/// What it gets of another client.
pub fn taken(frame: u32, former: u32) -> Result<Got, Refusal> {
    Ok(Got { frame, former })
}

/// A frame that a client gets, and the client's price with it.
#[derive(Drop)]
pub struct Grant {
    pub client: u32,
    pub frame: u32,
    pub paying: Quote,
    pub loss: Option<Loss>,
}

/// The former owner of a frame, and its price before the loss.
#[derive(Clone, Copy, Drop)]
pub struct Loss {
    pub from: u32,
    pub over: Quote,
}

/// How many frames a client holds, and its price there.
#[derive(Drop)]
pub struct Held {
    pub client: u32,
    pub holding: u32,
    pub price: Quote,
}

/// What the questions on one client return.
#[derive(Clone, Copy, PartialEq, Debug, Drop)]
struct ClientShown {
    holding: Result<u32, Refusal>,
    share: Result<u32, Refusal>,
    price: Result<Quote, Refusal>,
    next: Option<u32>,
}

/// What the questions return, on the clients that the tests admit.
#[derive(Clone, Copy, PartialEq, Debug, Drop)]
struct Shown {
    free: u32,
    lowest: Option<u32>,
    clients: [ClientShown; 4],
}

/// A broker that takes plain calls, and the runtime that a failed assertion ends by.
#[derive(Drop)]
pub struct Tested<'a, R: Abort, P: Price> {
    pub rt: &'a R,
    pub plain: PlainBroker<P>,
}

impl<'a, R: Abort, P: Price> Tested<'a, R, P> {
    pub fn new(rt: &'a R, price: P) -> Self {
        Tested {
            rt,
            plain: PlainBroker::new(price),
        }
    }

    /// The broker, for questions.
    pub fn broker(&self) -> &Broker<P> {
        self.plain.broker()
    }

    /// Makes each call, which is accepted, and compares its answer.
    pub fn answers(&mut self, rows: &[(Call, Answer)]) {
        for (call, answer) in rows {
            assert_eq!(self.rt; self.plain.perform(*call), Ok(*answer));
        }
    }

    fn client_shown(&self, client: u32) -> ClientShown {
        ClientShown {
            holding: self.broker().holding(client),
            share: self.broker().proportional_share(client),
            price: self.broker().price_at(client, 1),
            next: self.broker().next_client(client),
        }
    }

    fn shown(&self) -> Shown {
        Shown {
            free: self.broker().free_frames(),
            lowest: self.broker().lowest_payer(),
            clients: [0, 1, 2, 256].map(|client| self.client_shown(client)),
        }
    }

    /// Makes each call, compares its refusal, and looks that no question shows a change.
    pub fn refuses(&mut self, rows: &[(Call, Refusal)]) {
        let before = self.shown();
        for (call, refusal) in rows {
            assert_eq!(self.rt; self.plain.perform(*call), Err(*refusal));
            assert_eq!(self.rt; self.shown(), before);
        }
    }

    /// Makes the ask of each client, and compares what the client gets. Each slip is delivered at once.
    pub fn asks(&mut self, rows: &[(u32, Result<Got, Refusal>)]) {
        for (client, outcome) in rows {
            let answer = self.plain.perform(ask(*client));
            if let Ok(Answer::Granted(slip)) = answer {
                assert_eq!(self.rt;
                    self.plain.perform(Call::Deliver { slip }),
                    Ok(Answer::Done)
                );
            }
            let got = answer.map(|answer| {
                answer.slip().map(|slip| Got {
                    frame: slip.frame,
                    former: slip.former,
                })
            });
            assert_eq!(self.rt; got, outcome.map(Some));
        }
    }

    /// Makes the ask of each row, and compares the frame and its former owner, the client's price with the frame and the
    /// owner's price before the loss.
    pub fn grants(&mut self, rows: &[Grant]) -> Result<(), Fail> {
        for row in rows {
            if let Some(Loss { from, over }) = row.loss {
                assert_eq!(self.rt; self.broker().lowest_payer(), Some(from));
                let held = self.broker().holding(from)?;
                assert_eq!(self.rt; self.broker().price_at(from, held), Ok(over));
            }
            let got = Got {
                frame: row.frame,
                former: row.loss.map_or(0, |loss| loss.from),
            };
            self.asks(&[(row.client, Ok(got))]);
            let holding = self.broker().holding(row.client)?;
            assert_eq!(self.rt; self.broker().price_at(row.client, holding), Ok(row.paying));
        }
        Ok(())
    }

    /// Compares what each client holds, and its price there.
    pub fn holds(&self, rows: &[Held]) {
        for row in rows {
            assert_eq!(self.rt; self.broker().holding(row.client), Ok(row.holding));
            assert_eq!(self.rt;
                self.broker().price_at(row.client, row.holding),
                Ok(row.price)
            );
        }
    }
}
