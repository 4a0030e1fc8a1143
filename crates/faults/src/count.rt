// Faults of counting.
ghost use Rattle.std.specs.Prelude.{◌≡◌};
ghost use Rattle.faults.specs.Numbers.{count_refusal};
ghost use Rattle.faults.specs.declared.count.Cause.TheVariants.{Check};

use crate::check;
use crate::fault::{self, Reason};
use crate::refusal::{Layer, Refusal};

#[derive(Clone, Copy, Debug, PartialEq, Eq)]
pub enum Cause {
    Check(check::Fault),
    // the head is not below the number of lanes of the chunk kind
    Head,
}

pub type Fault = fault::Fault<Cause>;

impl Reason for Cause {
    ghost refusal = { count_refusal };

    fn refusal(self) -> Refusal {
        match self {
            Cause::Check(fault) => fault.refusal(),
            Cause::Head => Refusal {
                number: 4,
                layer: Layer::Count,
            },
        }
    }
}

// One impl for each pair of layers, since nothing is plainer: one over all causes would overlap `From<T> for T`.
impl From<check::Fault> for Fault {
    ghost from_gives = { λ f r. r ≡ record { place = f.place; cause = Check f } };

    fn from(fault: check::Fault) -> Fault {
        Fault {
            place: fault.place,
            cause: Cause::Check(fault),
        }
    }
}
