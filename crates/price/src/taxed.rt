//! The price with a tax on idle frames (Waldspurger's idle memory tax).
ghost use Rattle.std.specs.Prelude.{◌≡◌, ◌≤◌};
ghost use Rattle.rules.specs.Prices.{taxed, taxed_bottom};
ghost use Rattle.rules.proofs.PricesAreLawful.{taxed_is};
ghost use Rattle.rules.specs.Refusals.{Replies, rate_entries};

use crate::offer::ValidOffer;
use crate::price::Price;
use rules::{Quote, Refusal};

/// The taxed price at a rate of at most 99 per cent, which never changes. It quotes class 0. In the bottom an active
/// frame counts 100 less the rate, and an idle one 100.
#[derive(Clone, Copy, Drop)]
pub struct TaxedPrice {
    rate: u32,
    ghost low_rate: { rate ≤ 99 },
}

impl TaxedPrice {
    /// The taxed price at a rate in per cent. A rate above 99 is refused.
    pub fn new(rate: u32) -> Result<TaxedPrice, Refusal>
        ensures { Replies (rate_entries rate) (λ p. p.rate ≡ rate) result }
    {
        if rate > 99 {
            return Err(Refusal::RateOutOfRange);
        }
        Ok(TaxedPrice { rate })
    }

    /// The bottom quoted at a count of frames under an active count or none.
    pub(crate) fn bottom(&self, active: Option<u32>, count: u32) -> u32
        requires { count ≤ 4_096 }
        ensures { result ≡ taxed_bottom self.now.rate active count }
    {
        let used = active.map_or(count, |active| count.min(active));
        (100 - self.rate) * used + 100 * (count - used)
    }
}

impl Price for TaxedPrice {
    ghost meaning = { λ p. taxed p.rate };

    ghost lawful = { λ p. taxed_is p.rate p.low_rate };

    fn quote(&self, offer: ValidOffer) -> Quote {
        let offer = offer.offer();
        Quote {
            class: 0,
            top: offer.shares * (100 - self.rate),
            bottom: self.bottom(offer.active, offer.count),
        }
    }
}
