//! The broker: a pool under a price.
ghost use Rattle.std.specs.Prelude.{◌≡◌, length, false, IfOk, IfErr};
ghost use Rattle.rules.specs.Refusals.{Replies};
ghost use Rattle.laws.specs.Broker.{new_broker, holding, share_of};
ghost use Rattle.laws.specs.Calls.{Start, Admit, Ask, Deliver, HandBack, Leave, SetEstimate, SetClock};
ghost use Rattle.laws.specs.Calls.{Done, Granted, Frame, Count, answered};
ghost use Rattle.laws.specs.Questions.{client_entries, price_entries, LowestIs};
ghost use Rattle.pool.specs.View.{IsNextClient};
ghost use Rattle.broker.specs.Bids.{KeepsBids, KeepsBids-prop};

use crate::bids::{self, Bids};
use crate::slip::{Slip, Undelivered};
use pool::Pool;
use price::{Price, ValidOffer};
use rules::{Admission, Estimate, Quote, Refusal, SlipNumbers};

/// A broker under a price, in fixed memory: its pool, and the bids, as its price tells them, of exactly the clients that hold
/// more than their minimums. The price never changes.
#[derive(Drop)]
pub struct Broker<P: Price> {
    price: P,
    pool: Pool,
    bids: Bids,
    ghost kept: { KeepsBids (P.Price.meaning price) pool bids } by { KeepsBids-prop (P.Price.meaning price) pool bids },
}

impl<P: Price> Broker<P> {
    ghost use Rattle.broker.specs.View.{meaning, view, Guaranteed, delivered, Opens, FindsSource, DropsAll, Stepped, IsPriceAt};

    /// A broker under a price, without frames and clients, at tick 0.
    pub fn new(price: P) -> Broker<P>
        ensures view { view result ≡ new_broker }
        ensures guarantees { Guaranteed (meaning result) }
        ensures price { result.price ≡ price }
    {
        Broker {
            price,
            pool: Pool::new(),
            bids: Bids::new(),
        }
    }

    /// Makes it a new broker again, under its price.
    pub(crate) fn renew(&mut self)
        ensures view { view self.new ≡ new_broker }
        ensures price { self.new.price ≡ self.old.price }
    {
        self.pool = Pool::new();
        self.bids = Bids::new();
    }

    /// Gives a new broker its unit number, 1 to 999, and its frames, 1 to 4,096, all of them free. Numbers out of range
    /// are refused, and then a broker that has frames already.
    pub fn start(&mut self, unit: u32, frames: u32) -> Result<(), Refusal>
        ensures { Stepped self.old (Start unit frames) (answered (λ _. Done) result) self.new }
    {
        self.pool.start(unit, frames)
    }

    /// Admits a client, 1 to 256, under its terms: shares of 1 to 1,000,000, a class of 0 to 9, a minimum and a maximum
    /// of frames. It starts with no frame and no estimate. Numbers out of range are refused, in this order (a maximum of 0 or
    /// below the minimum as well), then any client while a passage is open, one that is admitted already, a maximum above the
    /// frames, and a minimum with which all minimums together would exceed them.
    pub fn admit(&mut self, asked: Admission) -> Result<(), Refusal>
        ensures { Stepped self.old (Admit asked) (answered (λ _. Done) result) self.new }
    {
        self.pool.admit(asked)
    }

    /// Where the frame of a client's ask comes from: 0 where a frame is free, and else the lowest payer, if the client may
    /// take a frame from it.
    fn source(&self, client: u32) -> Result<u32, Refusal>
        ensures { FindsSource self.now client result }
    {
        let member = self.pool.asker(client)?;
        if self.pool.free_frames() > 0 {
            return Ok(0);
        }
        let Some(lowest) = self.bids.lowest() else {
            return Err(Refusal::Outbid);
        };
        let holding = self.pool.frames_of(client);
        if holding >= member.minimum {
            let bid = bids::bid(&self.price, client, member, holding + 1);
            if !bid.ranks_above(&lowest) {
                return Err(Refusal::Outbid);
            }
        }
        Ok(lowest.bid.client)
    }

    /// Grants a client a frame, by the plain numbers of its slip.
    pub(crate) fn grant(&mut self, client: u32) -> Result<SlipNumbers, Refusal>
        ensures step { Stepped self.old (Ask client) (answered Granted result) self.new }
        ensures opens { IfOk result (λ s. Opens client s self.new) }
    {
        let from = self.source(client)?;
        let slip = self.pool.grant(client, from).unwrap();
        self.bids.renew(&self.price, &self.pool, client);
        self.bids.renew(&self.price, &self.pool, slip.former);
        Ok(slip)
    }

    /// Asks for a frame: a free one, or else one of the lowest payer, if the client may take it. Returns a slip, which has
    /// to be delivered. A client number outside 1 to 256 is refused, then any client while a passage is open,
    /// one that is not admitted, one that holds its maximum, and one that is outbid.
    pub fn ask(&mut self, client: u32) -> Result<Slip, Refusal>
        ensures step { Stepped self.old (Ask client) (answered (λ s. Granted s.numbers) result) self.new }
        ensures opens { IfOk result (λ s. Opens client s.numbers self.new) }
        ensures unspent { IfOk result (λ s. s.spent ≡ false) }
    {
        let numbers = self.grant(client)?;
        Ok(Slip {
            numbers,
            spent: false,
        })
    }

    /// Closes the open passage, where these are the numbers of its slip. Any others are refused, and all while no passage is
    /// open.
    pub(crate) fn close(&mut self, slip: SlipNumbers) -> Result<(), Refusal>
        ensures { Stepped self.old (Deliver slip) (answered (λ _. Done) result) self.new }
    {
        self.pool.close(slip)
    }

    /// Delivers a slip, which closes its passage and spends the slip. While no passage is open, or another is, the slip is
    /// refused and handed back.
    pub fn deliver(&mut self, mut slip: Slip) -> Result<(), Undelivered>
        ensures step { Stepped self.old (Deliver slip.numbers) (delivered result) self.new }
        ensures slip { IfErr result (λ u. u.slip ≡ slip) }
    {
        if let Err(refusal) = self.close(slip.numbers) {
            return Err(Undelivered { refusal, slip });
        }
        slip.spent = true;
        Ok(())
    }

    /// Hands the top frame of a client's stack back to the free frames, and returns it. A client number outside 1 to 256
    /// is refused, then any client while a passage is open, one that is not admitted, and one that holds no frame.
    pub fn hand_back(&mut self, client: u32) -> Result<u32, Refusal>
        ensures { Stepped self.old (HandBack client) (answered Frame result) self.new }
    {
        let frame = self.pool.hand_back(client)?;
        self.bids.renew(&self.price, &self.pool, client);
        Ok(frame)
    }

    /// Lets a client go and frees its frames, the top one first, and returns how many. A client number outside 1 to 256 is
    /// refused, then any client while a passage is open, and one that is not admitted.
    pub fn leave(&mut self, client: u32) -> Result<u32, Refusal>
        ensures { Stepped self.old (Leave client) (answered Count result) self.new }
    {
        let frames = self.pool.leave(client)?;
        self.bids.renew(&self.price, &self.pool, client);
        Ok(frames)
    }

    /// Sets how many frames a client says it uses, and the tick at which that ends, in place of an earlier estimate. A
    /// client number outside 1 to 256 is refused, then any client while a passage is open, one that is not admitted, an
    /// active count above the frames, and an end at or before the clock.
    pub fn estimate(&mut self, client: u32, estimate: Estimate) -> Result<(), Refusal>
        ensures { Stepped self.old (SetEstimate client estimate) (answered (λ _. Done) result) self.new }
    {
        self.pool.estimate(client, estimate)?;
        self.bids.renew(&self.price, &self.pool, client);
        Ok(())
    }

    /// Drops every estimate that ends by a tick, and returns how many.
    fn drop_ended(&mut self, tick: u32) -> u32
        ensures { DropsAll tick self.old result self.new }
    {
        let mut dropped: u32 = 0;
        while let Some(client) = self.pool.drop_ended(tick) {
            self.bids.renew(&self.price, &self.pool, client);
            dropped += 1;
        }
        dropped
    }

    /// Sets the clock to a tick, drops every estimate that ends by then, and returns how many. Any tick is refused while a
    /// passage is open, and then one before the clock.
    pub fn clock(&mut self, tick: u32) -> Result<u32, Refusal>
        ensures { Stepped self.old (SetClock tick) (answered Count result) self.new }
    {
        self.pool.clockable(tick)?;
        let dropped = self.drop_ended(tick);
        self.pool.set_tick(tick);
        Ok(dropped)
    }

    /// How many frames a client holds. A client number outside 1 to 256 is refused, and then a client that is not admitted.
    pub fn holding(&self, client: u32) -> Result<u32, Refusal>
        ensures { Replies (client_entries (view self.now) client) (λ n. n ≡ holding (view self.now) client) result }
    {
        self.pool.holding(client)
    }

    /// A client's proportional share of the frames, rounded down. A client number outside 1 to 256 is refused, and then a
    /// client that is not admitted.
    pub fn proportional_share(&self, client: u32) -> Result<u32, Refusal>
        ensures { Replies (client_entries (view self.now) client) (λ n. n ≡ share_of (view self.now) client) result }
    {
        self.pool.proportional_share(client)
    }

    /// The lowest number above this one that an admitted client has, if any has one, so that all can be gone over by rising
    /// number from 0.
    pub fn next_client(&self, after: u32) -> Option<u32>
        ensures { IsNextClient (view self.now) after result }
    {
        self.pool.next_client(after)
    }

    /// How many frames are free.
    pub fn free_frames(&self) -> u32
        ensures { result ≡ length (view self.now).free }
    {
        self.pool.free_frames()
    }

    /// The price of a client at a count of frames, 1 to 4,096. A client number outside 1 to 256 is refused,
    /// then a count out of range, and then a client that is not admitted.
    pub fn price_at(&self, client: u32, count: u32) -> Result<Quote, Refusal>
        ensures { Replies (price_entries (view self.now) client count) (IsPriceAt self.now client count) result }
    {
        // The count is tested between the client's number and its admission, which `member` tests together.
        if !(1..=256).contains(&client) {
            return Err(Refusal::ClientOutOfRange);
        }
        if !(1..=4_096).contains(&count) {
            return Err(Refusal::CountOutOfRange);
        }
        let member = self.pool.member(client)?;
        let offer = ValidOffer::new(member.offer(count)).unwrap();
        Ok(self.price.quote(offer))
    }

    /// The lowest payer: the client whose bid at its holding ranks lowest among all that hold more than their minimums, or
    /// none where nobody does.
    pub fn lowest_payer(&self) -> Option<u32>
        ensures { LowestIs (meaning self.now) (view self.now) result }
    {
        self.bids.lowest().map(|lowest| lowest.bid.client)
    }
}
