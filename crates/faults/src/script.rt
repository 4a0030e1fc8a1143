// Faults of the editable script.
ghost use Rattle.std.specs.Prelude.{◌≡◌};
ghost use Rattle.faults.specs.Numbers.{script_refusal};
ghost use Rattle.faults.specs.declared.script.Cause.TheVariants.{Check, Count};

use crate::fault::{self, Reason};
use crate::refusal::{Layer, Refusal};
use crate::{check, count};

#[derive(Clone, Copy, Debug, PartialEq, Eq)]
pub enum Cause {
    Check(check::Fault),
    Count(count::Fault),
    // the place and the removed length together are above the text's length
    PastEnd,
    // the place, or else the end of what is removed, is no char start
    NoCharStart,
    // the result would be above 16,384 bytes
    TooLong,
    // 64 entries are held, or the removed lengths would be above 8,192 together
    NoRoom,
    // there is nothing to undo
    NothingToUndo,
}

pub type Fault = fault::Fault<Cause>;

impl Reason for Cause {
    ghost refusal = { script_refusal };

    fn refusal(self) -> Refusal {
        let number = match self {
            Cause::Check(fault) => return fault.refusal(),
            Cause::Count(fault) => return fault.refusal(),
            Cause::PastEnd => 5,
            Cause::NoCharStart => 6,
            Cause::TooLong => 7,
            Cause::NoRoom => 8,
            Cause::NothingToUndo => 9,
        };
        Refusal {
            number,
            layer: Layer::Script,
        }
    }
}

// One impl for each pair of layers, since nothing is plainer: one over all causes would overlap `From<T> for T`.
impl From<check::Fault> for Fault {
    ghost from_gives = { λ f r. r ≡ record { place = f.place; cause = Check f } };

    fn from(fault: check::Fault) -> Fault {
        Fault {
            place: fault.place,
            cause: Cause::Check(fault),
        }
    }
}

impl From<count::Fault> for Fault {
    ghost from_gives = { λ f r. r ≡ record { place = f.place; cause = Count f } };

    fn from(fault: count::Fault) -> Fault {
        Fault {
            place: fault.place,
            cause: Cause::Count(fault),
        }
    }
}
