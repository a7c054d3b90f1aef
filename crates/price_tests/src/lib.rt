//! Worked examples of prices, rank and tariff sheet, and the ends of their ranges. They have a crate of their own,
//! since a crate with tests is proved twice.
#![tactic(auto)]

#[cfg(test)]
mod borrowed;
#[cfg(test)]
mod prices;
