// What ends a transcript early: a refusal, which is printed, or want of memory.
ghost use Rattle.std.specs.Prelude.{◌≡◌};
ghost use Rattle.cue.specs.declared.stop.Stop.TheVariants.{NoMemory, Refused};
ghost use Rattle.faults.specs.declared.cue.Cause.TheVariants.{Count};

use faults::count;
use faults::cue::Fault;
use std::alloc::AllocError;

#[derive(Drop)]
pub enum Stop {
    NoMemory(AllocError),
    Refused(Fault),
}

impl From<AllocError> for Stop {
    ghost from_gives = { λ e r. r ≡ NoMemory e };

    fn from(e: AllocError) -> Stop {
        Stop::NoMemory(e)
    }
}

impl From<Fault> for Stop {
    ghost from_gives = { λ f r. r ≡ Refused f };

    fn from(f: Fault) -> Stop {
        Stop::Refused(f)
    }
}

impl From<count::Fault> for Stop {
    ghost from_gives = { λ f r. r ≡ Refused (record { place = f.place; cause = Count f }) };

    fn from(f: count::Fault) -> Stop {
        Stop::Refused(Fault::from(f))
    }
}
