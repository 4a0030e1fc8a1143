// A fault of any layer.
ghost use Rattle.std.specs.Prelude.{◌≡◌, Some};
ghost use Rattle.faults.specs.Printed.{printed};
ghost use Rattle.faults.specs.declared.refusal.Refusal.{Refusal};

use crate::refusal::Refusal;
use std::fmt;

// Why a call declines: each cause has one number and one layer, and a cause that wraps the fault of a lower layer has
// that fault's.
pub trait Reason: Copy {
    ghost refusal: { Self → Refusal };

    fn refusal(self) -> Refusal
        ensures { result ≡ refusal self };
}

// Where a call declines, and why.
#[derive(Clone, Copy, Debug, PartialEq, Eq)]
pub struct Fault<C> {
    pub place: usize,
    pub cause: C,
}

impl<C: Reason> Fault<C> {
    pub fn refusal(self) -> Refusal
        ensures { result ≡ C.refusal self.cause }
    {
        self.cause.refusal()
    }
}

impl<C: Reason> fmt::Display for Fault<C> {
    ghost output = { λ f. Some (printed (C.refusal f.cause) f.place) };

    fn fmt<W: fmt::Write>(&self, f: &mut fmt::Formatter<W>) -> fmt::Result {
        let number = self.refusal().number;
        let place = self.place;
        write!(f, "refused {number} at {place}")
    }
}
