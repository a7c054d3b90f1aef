//! The broker called from without: under a price of the tests' own, at the ends of all ranges, while a passage is open,
//! and in the sample sessions. They have a crate of their own, since a crate with tests is proved twice.
#![tactic(auto)]

#[cfg(test)]
mod calls;
#[cfg(test)]
mod flat;
#[cfg(test)]
mod methods;
#[cfg(test)]
mod numbers;
#[cfg(test)]
mod passages;
#[cfg(test)]
mod ranges;
#[cfg(test)]
mod sessions;
mod slips;
#[cfg(test)]
mod tested;
