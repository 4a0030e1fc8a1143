// Faults of the check: the bytes are no text.
ghost use Rattle.std.specs.Prelude.{◌≡◌};
ghost use Rattle.faults.specs.Numbers.{check_refusal};

use crate::fault::{self, Reason};
use crate::refusal::{Layer, Refusal};

#[derive(Clone, Copy, Debug, PartialEq, Eq)]
pub enum Cause {
    // the first byte of a char is 80–C1 or F5–FF
    NoFirst,
    // the bytes end inside a char that is allowed so far
    Ends,
    // a follower is not allowed there
    NoFollower,
}

pub type Fault = fault::Fault<Cause>;

impl Reason for Cause {
    ghost refusal = { check_refusal };

    fn refusal(self) -> Refusal {
        let number = match self {
            Cause::NoFirst => 1,
            Cause::Ends => 2,
            Cause::NoFollower => 3,
        };
        Refusal {
            number,
            layer: Layer::Check,
        }
    }
}
