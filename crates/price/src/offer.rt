//! Offers that a client can make.
ghost use Rattle.std.specs.Prelude.{◌≡◌};
ghost use Rattle.rules.specs.Offers.{Valid};
ghost use Rattle.rules.specs.Refusals.{Replies, offer_entries};

use rules::{Offer, Refusal};

/// An offer whose shares, class and count of frames are in their ranges.
#[derive(Clone, Copy, Drop)]
pub struct ValidOffer {
    offer: Offer,
    ghost valid: { Valid offer },
}

impl ValidOffer {
    /// The offer, if its numbers are in their ranges. Shares outside 1 to 1,000,000, a class above 9 and a count outside 1 to
    /// 4,096 are refused, in this order.
    pub fn new(offer: Offer) -> Result<ValidOffer, Refusal>
        ensures { Replies (offer_entries offer) (λ o. o.offer ≡ offer) result }
    {
        if !(1..=1_000_000).contains(&offer.shares) {
            return Err(Refusal::SharesOutOfRange);
        }
        if offer.class > 9 {
            return Err(Refusal::ClassOutOfRange);
        }
        if !(1..=4_096).contains(&offer.count) {
            return Err(Refusal::CountOutOfRange);
        }
        Ok(ValidOffer { offer })
    }

    /// The offer, whose numbers are in their ranges.
    pub fn offer(&self) -> Offer
        ensures value { result ≡ self.now.offer }
        ensures valid { Valid result }
    {
        self.offer
    }
}
