//! Borrowed prices, as a price over a table that several brokers read will be.
use crate::prices::{quotes, valid_offer};
use price::{Price, TaxedPrice};
use std::test::Fail;

#[test]
fn two_borrowed_prices_quote_as_the_one(rt: HostRuntime) -> Result<(), Fail> {
    let price = TaxedPrice::new(75)?;
    let first = &price;
    let second = &price;
    let offer = valid_offer(100, 0, Some(2), 4)?;
    let quote = price.quote(offer);
    quotes(&rt, &first, &[(offer, quote)]);
    quotes(&rt, &second, &[(offer, quote)]);
    Ok(())
}
