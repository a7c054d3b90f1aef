//! The share price.
ghost use Rattle.rules.specs.Prices.{share};
ghost use Rattle.rules.proofs.PricesAreLawful.{share_is};

use crate::offer::ValidOffer;
use crate::price::Price;
use rules::Quote;

/// The price by shares alone: class 0, shares over count.
#[derive(Clone, Copy, Drop)]
pub struct SharePrice;

impl Price for SharePrice {
    ghost meaning = { λ _. share };

    ghost lawful = { λ _. share_is };

    fn quote(&self, offer: ValidOffer) -> Quote {
        let offer = offer.offer();
        Quote {
            class: 0,
            top: offer.shares,
            bottom: offer.count,
        }
    }
}
