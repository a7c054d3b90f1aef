//! Bids that the rank orders.
ghost use Rattle.std.specs.Prelude.{◌≡◌};
ghost use Rattle.rules.specs.Laws.{IsFraction};
ghost use Rattle.rules.specs.Offers.{InRange};
ghost use Rattle.rules.specs.Rank.{bid, above};

use crate::offer::ValidOffer;
use crate::price::Price;
use heap::Order;
use rules::Bid;

/// A bid whose quote is a fraction: the bottom is not 0, as under every price. Among such bids the rank is an order.
#[derive(Clone, Copy, Drop)]
pub struct ValidBid {
    pub bid: Bid,
    ghost fraction: { IsFraction bid.quote },
}

/// Whether a bid ranks above another: five tests, of which the first that separates the two decides. Fractions are compared
/// by their cross products, which fit 64 bits.
#[tactic(auto, unfolding(rules::specs::Rank::above, rules::specs::Rank::ranks))]
fn ranks_above(a: &Bid, b: &Bid) -> bool
    ensures { result ≡ above a.now b.now }
{
    let within = a.count <= a.minimum;
    if within != (b.count <= b.minimum) {
        return within;
    }
    if a.quote.class != b.quote.class {
        return a.quote.class > b.quote.class;
    }
    let first = a.quote.top as u64 * b.quote.bottom as u64;
    let second = b.quote.top as u64 * a.quote.bottom as u64;
    if first != second {
        return first > second;
    }
    if a.client != b.client {
        return a.client < b.client;
    }
    a.count < b.count
}

impl ValidBid {
    /// The bid that a client with this minimum makes by this offer, under a price. Its quote is in its ranges.
    pub fn new<P: Price>(price: &P, client: u32, minimum: u32, offer: ValidOffer) -> ValidBid
        ensures value { result.bid ≡ bid (P.Price.meaning price.now) client minimum offer.offer }
        ensures in_range { InRange result.bid.quote }
    {
        ValidBid {
            bid: Bid {
                client,
                minimum,
                count: offer.offer().count,
                quote: price.quote(offer),
            },
        }
    }

    /// Whether this bid ranks above another.
    pub fn ranks_above(&self, other: &ValidBid) -> bool
        ensures { result ≡ above self.now.bid other.now.bid }
    {
        ranks_above(&self.bid, &other.bid)
    }
}

/// Bids are the keys of a heap with the lowest bid at its root.
impl Order for ValidBid {
    ghost use Rattle.rules.proofs.RankIsOneOrder.{one_no_higher, no_higher_on};
    ghost use Rattle.price.specs.Bids.{leads};

    ghost leads = { leads };

    ghost total = { λ x y. one_no_higher x.bid y.bid };

    ghost chain = { λ x y z. no_higher_on x.bid y.bid z.bid x.fraction y.fraction z.fraction };

    fn no_later(&self, other: &ValidBid) -> bool {
        !self.ranks_above(other)
    }
}
