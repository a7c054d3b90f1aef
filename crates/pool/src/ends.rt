//! The ends of estimates, as the keys of a heap: the earliest leads.
ghost use Rattle.laws.proofs.Lines.{one_leads, leads_on};

use heap::Order;

/// The tick at which an estimate ends, as a key: the earlier leads. `u32` itself has no order of the heap, since which of two
/// numbers leads depends on what they count.
#[derive(Clone, Copy, Drop)]
pub struct End {
    pub(crate) tick: u32,
}

impl Order for End {
    ghost use Rattle.pool.specs.Ends.{leads};

    ghost leads = { leads };

    ghost total = { λ x y. one_leads x.tick y.tick };

    ghost chain = { λ x y z. leads_on x.tick y.tick z.tick };

    fn no_later(&self, other: &End) -> bool {
        self.tick <= other.tick
    }
}
