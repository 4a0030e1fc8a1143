// Faults of the cue program.
ghost use Rattle.std.specs.Prelude.{◌≡◌};
ghost use Rattle.faults.specs.Numbers.{cue_refusal};
ghost use Rattle.faults.specs.declared.cue.Cause.TheVariants.{Check, Count};

use crate::fault::{self, Reason};
use crate::refusal::{Layer, Refusal};
use crate::{check, count};

#[derive(Clone, Copy, Debug, PartialEq, Eq)]
pub enum Cause {
    Check(check::Fault),
    Count(count::Fault),
    // the kind of a record is not 1–6
    NoKind,
    // the file ends inside the body of a record
    Cut,
    // the text is above 16,384 bytes, or the cue file above 4,096
    TooLarge,
}

pub type Fault = fault::Fault<Cause>;

impl Reason for Cause {
    ghost refusal = { cue_refusal };

    fn refusal(self) -> Refusal {
        let number = match self {
            Cause::Check(fault) => return fault.refusal(),
            Cause::Count(fault) => return fault.refusal(),
            Cause::NoKind => 10,
            Cause::Cut => 11,
            Cause::TooLarge => 12,
        };
        Refusal {
            number,
            layer: Layer::Cue,
        }
    }
}

// One impl for each pair of layers, since nothing is plainer: one over all causes would overlap `From<T> for T`.
impl From<check::Fault> for Fault {
    ghost from_gives = { λ f r. r ≡ record { place = f.place; cause = Check f } };

    fn from(fault: check::Fault) -> Fault {
        Fault {
            place: fault.place,
            cause: Cause::Check(fault),
        }
    }
}

impl From<count::Fault> for Fault {
    ghost from_gives = { λ f r. r ≡ record { place = f.place; cause = Count f } };

    fn from(fault: count::Fault) -> Fault {
        Fault {
            place: fault.place,
            cause: Cause::Count(fault),
        }
    }
}
