//! Prices: what each quotes for an offer, proved lawful; the rank of bids under any of them; and the tariff sheet of the
//! taxed price.
#![tactic(auto)]

mod bid;
mod class;
mod offer;
mod price;
mod share;
mod sheet;
mod taxed;

pub use bid::ValidBid;
pub use class::ClassPrice;
pub use offer::ValidOffer;
pub use price::Price;
pub use share::SharePrice;
pub use sheet::tariff_sheet;
pub use taxed::TaxedPrice;
