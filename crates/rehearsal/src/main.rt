//! Plays a written week of calls on three brokers at once, under the share price, the taxed price and the class price, and
//! prints each answer and where each broker comes to rest.
#![tactic(auto)]

mod plan;
mod show;
mod week;

use broker::PlainBroker;
use either::{Left, Right};
use plan::Plan;
use price::{ClassPrice, SharePrice, TaxedPrice};
use show::show_rest;
use std::io::{BufWriter, Write};
use week::{Day, friday, monday, tuesday, wednesday};

fn main(rt: HostRuntime) -> anyhow::Result<()> {
    let taxed = TaxedPrice::new(75).unwrap();
    let classed = ClassPrice::new(taxed);
    // One type of price for all three, since a `&dyn Price` is no price.
    let mut brokers = [
        PlainBroker::new(Left(SharePrice)),
        PlainBroker::new(Right(Left(taxed))),
        PlainBroker::new(Right(Right(classed))),
    ];
    let mut out = BufWriter::new(rt.alloc(), rt.stdout())?;
    writeln!(
        out,
        "call: under the share price; under the taxed price at 75; under the class price over it"
    )?;
    let mut plan = Plan {
        brokers: &mut brokers,
        orders: Vec::new(rt.alloc()),
        outcomes: Vec::new(rt.alloc()),
        lines: Vec::new(rt.alloc()),
    };
    plan.day(Day::Monday, &monday())?;
    plan.day(Day::Tuesday, &tuesday())?;
    plan.day(Day::Wednesday, &wednesday())?;
    plan.day_of_passage(Day::Thursday)?;
    plan.day(Day::Friday, &friday())?;
    plan.perform(rt.alloc(), &mut out)?;
    drop(plan);
    // The names stand beside the brokers, since `perform_all` takes a slice of brokers alone.
    for (name, broker) in ["share", "taxed", "class"].iter().zip(&brokers) {
        show_rest(name, broker.broker(), &mut out)?;
    }
    out.flush()?;
    Ok(())
}
