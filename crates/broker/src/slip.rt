//! Slips.
ghost use Rattle.std.specs.Prelude.{◌≡◌, true};

use rules::{Refusal, SlipNumbers};

/// The slip of an accepted ask, which may be let go only once a delivery has spent it. The mark is what its drop looks at.
pub struct Slip {
    pub(crate) numbers: SlipNumbers,
    pub(crate) spent: bool,
}

impl Drop for Slip {
    fn drop(self)
        requires { self.spent ≡ true }
    {
        let Slip {
            numbers: _,
            spent: _,
        } = self;
    }
}

impl Slip {
    /// The five numbers of the slip.
    pub fn numbers(&self) -> SlipNumbers
        ensures { result ≡ self.now.numbers }
    {
        self.numbers
    }
}

/// A refused delivery, which hands the slip back.
pub struct Undelivered {
    pub refusal: Refusal,
    pub slip: Slip,
}

impl Drop for Undelivered {
    fn drop(self)
        requires { self.slip.spent ≡ true }
    {
        let Undelivered {
            refusal: _,
            slip: _slip,
        } = self;
    }
}

impl Undelivered {
    /// The slip, to be delivered where it belongs.
    pub fn into_slip(self) -> Slip
        ensures { result ≡ self.slip }
    {
        let Undelivered { refusal: _, slip } = self;
        slip
    }
}
