//! The record of an admitted client.
ghost use Rattle.std.specs.Prelude.{◌≡◌, ℕ, ◌^◌, ◌<◌, ◌≤◌, Some};
ghost use Rattle.laws.specs.Broker.{active_of};

use rules::{Estimate, Offer};

/// A client's terms as it was admitted, and its estimate where one is in force.
#[derive(Clone, Copy, Drop)]
pub struct Member {
    pub shares: u32,
    pub class: u32,
    pub minimum: u32,
    pub maximum: u32,
    pub estimate: Option<Estimate>,
    ghost some_shares: { 1 ≤ shares },
    ghost few_shares: { shares ≤ 1_000_000 },
    ghost low_class: { class ≤ 9 },
    ghost ordered: { minimum ≤ maximum },
    ghost few_frames: { maximum ≤ 4_096 },
    ghost small_active: { (a : ℕ) → active_of estimate ≡ Some a → a < 2 ^ 32 },
}

impl Member {
    ghost use Rattle.pool.specs.Records.{offer_at};

    /// The active count that is estimated, if one is.
    pub fn active(&self) -> Option<u32>
        ensures { result ≡ active_of self.now.estimate }
    {
        self.estimate.map(|estimate| estimate.active)
    }

    /// What it offers for so many frames.
    pub fn offer(&self, count: u32) -> Offer
        ensures { result ≡ offer_at self.now count }
    {
        Offer {
            shares: self.shares,
            class: self.class,
            active: self.active(),
            count,
        }
    }
}
