//! An indexed heap in one borrowed slice of records: one text for every kind of key.
//!
//! The heap is a map from owners, numbered below the slice's length, to keys, and gives an owner whose key no other
//! precedes. The caller keeps the records, say in an array, and how many owners are in, and passes both to each call;
//! an [`IndexedHeap`] keeps both itself. A change costs the logarithm of how many are in, allocates nothing and moves
//! no key.
//!
//! It is the binary heap of Williams (Algorithm 232, Heapsort, 1964), with each owner's place kept beside its key.
#![tactic(auto)]

mod indexed;
mod order;
mod records;

pub use indexed::IndexedHeap;
pub use order::Order;
pub use records::{Record, contains, key, put, root, take};
