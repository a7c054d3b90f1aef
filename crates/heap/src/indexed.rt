//! A heap that keeps its records and its count.
ghost use Rattle.std.specs.Prelude.{◌≡◌, ℕ, ◌<◌, Some, None, nat_eq};
ghost use Rattle.std.specs.Map.{update};
ghost use Rattle.heap.specs.Heaps.{Heap, IsRoot};

use super::{Order, Record};

/// A heap of the owners below N, in fixed memory: a map from owners to keys that gives an owner whose key no other
/// precedes.
// The memory is fixed, so all N records have a key from the start; the count says how many places are in use.
#[derive(Drop)]
pub struct IndexedHeap<K: Order, const N: usize> {
    records: [Record<K>; N],
    count: usize,
    ghost heap: { Heap K.Order.leads records count },
}

impl<K: Order + Copy, const N: usize> IndexedHeap<K, N> {
    ghost use Rattle.heap.specs.Indexed.{keys_in};

    /// Nobody is in yet. Each record needs a key from the start; this one is never returned.
    pub fn new(unused: K) -> IndexedHeap<K, N>
        ensures { (o : ℕ) → keys_in result o ≡ None }
    {
        let record = Record {
            key: unused,
            owner: 0,
            place: 0,
        };
        IndexedHeap {
            records: [record; N],
            count: 0,
        }
    }

    /// Gives an owner this key, whether or not it was in.
    pub fn put(&mut self, owner: usize, key: K)
        requires { owner < N }
        ensures { (o : ℕ) → keys_in self.new o ≡ update nat_eq (keys_in self.old) owner (Some key) o }
    {
        self.count = super::put(&mut self.records, self.count, owner, key);
    }

    /// Takes an owner out, if it is in.
    pub fn take(&mut self, owner: usize)
        ensures { (o : ℕ) → keys_in self.new o ≡ update nat_eq (keys_in self.old) owner None o }
    {
        self.count = super::take(&mut self.records, self.count, owner);
    }

    /// An owner whose key no key in the heap precedes, with that key, or none where nobody is in.
    pub fn root(&self) -> Option<(usize, &K)>
        ensures { IsRoot K.Order.leads N (keys_in self.now) result }
    {
        super::root(&self.records, self.count)
    }
}
