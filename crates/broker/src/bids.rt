//! The bids of the clients that hold more than their minimums.
ghost use Rattle.std.specs.Prelude.{◌≡◌, ℕ, ◌≤◌, None};
ghost use Rattle.rules.specs.Rank as rank;
ghost use Rattle.pool.specs.Records.{offer_at};
ghost use Rattle.pool.specs.View.{view};

use heap::IndexedHeap;
use pool::{Member, Pool};
use price::{Price, ValidBid, ValidOffer};
use rules::{Bid, Quote};

/// Bids by client number, in fixed memory, the lowest first.
#[derive(Drop)]
pub(crate) struct Bids {
    heap: IndexedHeap<ValidBid, 257>,
}

/// The bid of a client at a count of frames.
pub(crate) fn bid<P: Price>(price: &P, client: u32, member: Member, count: u32) -> ValidBid
    requires { (1 ≤ count) × (count ≤ 4_096) }
    ensures { result.bid ≡ rank.bid (P.Price.meaning price.now) client member.minimum (offer_at member count) }
{
    let offer = ValidOffer::new(member.offer(count)).unwrap();
    ValidBid::new(price, client, member.minimum, offer)
}

impl Bids {
    ghost use Rattle.broker.specs.Bids.{bid_in, Renews, IsLowest};

    /// No bids yet.
    pub(crate) fn new() -> Bids
        ensures { (c : ℕ) → bid_in result c ≡ None }
    {
        let quote = Quote {
            class: 0,
            top: 0,
            bottom: 1,
        };
        let unused = Bid {
            client: 0,
            minimum: 0,
            count: 0,
            quote,
        };
        Bids {
            heap: IndexedHeap::new(ValidBid { bid: unused }),
        }
    }

    /// Renews the bid of a client of a pool: its bid at its holding, where it holds more than its minimum, and else none.
    /// Price and pool are borrowed one by one, since the broker is not whole while a bid is out of date.
    pub(crate) fn renew<P: Price>(&mut self, price: &P, pool: &Pool, client: u32)
        ensures { Renews (P.Price.meaning price.now) (view pool.now) client self.old self.new }
    {
        let holding = pool.frames_of(client);
        if let Ok(member) = pool.member(client)
            && holding > member.minimum
        {
            let bid = bid(price, client, member, holding);
            self.heap.put(client as usize, bid);
        } else {
            self.heap.take(client as usize);
        }
    }

    /// The lowest bid, if there is any.
    pub(crate) fn lowest(&self) -> Option<ValidBid>
        ensures { IsLowest (bid_in self.now) result }
    {
        self.heap.root().map(|(_, bid)| *bid)
    }
}
