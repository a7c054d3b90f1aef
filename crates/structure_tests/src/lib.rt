//! The heap and the ledger as their callers use them: the heap that keeps its records with a key of one number, and the
//! one over a borrowed slice with a key of two fields. These tests have a crate of their own, since a crate with tests
//! is proved twice.
#![tactic(auto)]

#[cfg(test)]
mod bids;
#[cfg(test)]
mod frames;
#[cfg(test)]
mod ticks;
