// The check: a checker that moves on its state and the next byte's kind together, and stops at the first fault.
ghost use Rattle.std.specs.Result.{MatchResult};
ghost use Rattle.utf8.specs.Checks.{Passed, Refused};
ghost use Rattle.utf8.specs.Steps.{Fresh, Stepped, Ended};

use crate::kind::ByteKind;
use faults::check::{Cause, Fault};

// What is due next.
#[derive(Clone, Copy, Debug, PartialEq, Eq)]
pub enum State {
    // a first byte
    First,
    // one follower, two, three
    One,
    Two,
    Three,
    // the followers after E0, ED, F0 and F4, of which the first is narrower
    AfterE0,
    AfterEd,
    AfterF0,
    AfterF4,
}

#[derive(Drop)]
pub struct Checker {
    state: State,
    // where the char that is being read begins
    first: usize,
}

impl Checker {
    pub fn new() -> Checker
        ensures { Fresh result }
    {
        Checker {
            state: State::First,
            first: 0,
        }
    }

    // Moves over a byte of this kind, which stands at this place; or says why not, and stays.
    pub fn step(&mut self, place: usize, kind: ByteKind) -> Result<(), Fault>
        ensures { Stepped self.old place kind result self.new }
    {
        let first = match self.state {
            State::First => place,
            _ => self.first,
        };
        let next = match (self.state, kind) {
            (State::First, ByteKind::One) => State::First,
            (State::First, ByteKind::Two) => State::One,
            (State::First, ByteKind::ThreeE0) => State::AfterE0,
            (State::First, ByteKind::Three) => State::Two,
            (State::First, ByteKind::ThreeEd) => State::AfterEd,
            (State::First, ByteKind::FourF0) => State::AfterF0,
            (State::First, ByteKind::Four) => State::Three,
            (State::First, ByteKind::FourF4) => State::AfterF4,
            (State::One, ByteKind::TailLow | ByteKind::TailMid | ByteKind::TailHigh) =>
                State::First,
            (State::Two, ByteKind::TailLow | ByteKind::TailMid | ByteKind::TailHigh) => State::One,
            (State::Three, ByteKind::TailLow | ByteKind::TailMid | ByteKind::TailHigh) =>
                State::Two,
            (State::AfterE0, ByteKind::TailHigh) => State::One,
            (State::AfterEd, ByteKind::TailLow | ByteKind::TailMid) => State::One,
            (State::AfterF0, ByteKind::TailMid | ByteKind::TailHigh) => State::Two,
            (State::AfterF4, ByteKind::TailLow) => State::Two,
            (State::First, _) => return Err(Fault {
                place: first,
                cause: Cause::NoFirst,
            }),
            (_, _) => return Err(Fault {
                place: first,
                cause: Cause::NoFollower,
            }),
        };
        self.state = next;
        self.first = first;
        Ok(())
    }

    // Whether the bytes may end here.
    pub fn end(&self) -> Result<(), Fault>
        ensures { Ended self.now result }
    {
        match self.state {
            State::First => Ok(()),
            _ => Err(Fault {
                place: self.first,
                cause: Cause::Ends,
            }),
        }
    }
}

// Whether the bytes are a text, and what and where the first fault is if they are not.
pub fn check(bytes: &[u8]) -> Result<(), Fault>
    ensures { MatchResult result (λ _. Passed bytes.now) (λ f. Refused bytes.now f) }
{
    let mut checker = Checker::new();
    for (place, byte) in bytes.iter().enumerate() {
        checker.step(place, ByteKind::from(*byte))?;
    }
    checker.end()
}
