//! Examples of what a broker's program prints. They have a crate of their own, since a crate with tests is proved twice.
#![tactic(auto)]

#[cfg(test)]
mod printed;
#[cfg(test)]
mod runs;
#[cfg(test)]
mod writes;
