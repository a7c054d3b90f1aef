//! The class price.
ghost use Rattle.std.specs.Prelude.{◌≡◌};
ghost use Rattle.rules.specs.Prices.{classed};
ghost use Rattle.rules.proofs.PricesAreLawful.{classed_is};

use crate::offer::ValidOffer;
use crate::price::Price;
use rules::Quote;

/// The price that quotes the client's class, and with it the fraction of another price, which never changes.
#[derive(Clone, Copy, Drop)]
pub struct ClassPrice<P> {
    below: P,
}

impl<P> ClassPrice<P> {
    /// The class price over another price.
    pub fn new(below: P) -> ClassPrice<P>
        ensures { result.below ≡ below }
    {
        ClassPrice { below }
    }
}

impl<P: Price> Price for ClassPrice<P> {
    ghost meaning = { λ p. classed (P.Price.meaning p.below) };

    ghost lawful = { λ p. classed_is (P.Price.meaning p.below) (P.Price.lawful p.below) };

    fn quote(&self, offer: ValidOffer) -> Quote {
        let below = self.below.quote(offer);
        Quote {
            class: offer.offer().class,
            ..below
        }
    }
}
