//! What the heap asks of keys.
ghost use Rattle.std.specs.Prelude.{◌≡◌, Bool, true, false};

/// An order of keys that is total and transitive. Two keys may tie, and then each leads the other.
// std's `Ord` wants `==` to hold where two keys tie, but two bids may tie and differ.
pub trait Order {
    // Whether the first key comes no later than the second.
    ghost leads: { Self → Self → Bool };

    /// Whether this key comes no later than the other.
    fn no_later(&self, other: &Self) -> bool
        ensures { result ≡ leads self.now other.now };

    // Of two keys one leads the other.
    ghost total: { (x y : Self) → leads x y ≡ false → leads y x ≡ true };

    // What leads a key leads all that this key leads.
    ghost chain: { (x y z : Self) → leads x y ≡ true → leads y z ≡ true → leads x z ≡ true };
}
