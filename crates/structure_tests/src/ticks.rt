//! Keys of one number, in a heap that keeps its records.
ghost use Rattle.std.specs.Prelude.{nat_le};
ghost use Rattle.std.proofs.Common.{rules};

use heap::{IndexedHeap, Order};

#[derive(Clone, Copy)]
struct Tick(u32);

// The earlier tick leads. The key of `pool` is like this one, but `pool` is built on what is tested here.
impl Order for Tick {
    ghost leads = { λ a b. nat_le a.0 b.0 };

    ghost total = { Prim.search rules };

    ghost chain = { Prim.search rules };

    fn no_later(&self, other: &Tick) -> bool {
        self.0 <= other.0
    }
}

/// Takes out the owner whose tick comes first.
fn take_first(ends: &mut IndexedHeap<Tick, 8>) -> Option<usize> {
    let (owner, _) = ends.root()?;
    ends.take(owner);
    Some(owner)
}

#[test]
fn the_earliest_comes_first(rt: HostRuntime) {
    let mut ends: IndexedHeap<Tick, 8> = IndexedHeap::new(Tick(0));
    ends.put(5, Tick(30));
    ends.put(2, Tick(10));
    ends.put(7, Tick(20));
    ends.put(2, Tick(40));
    for owner in [Some(7), Some(5), Some(2), None] {
        assert_eq!(rt; take_first(&mut ends), owner);
    }
}
