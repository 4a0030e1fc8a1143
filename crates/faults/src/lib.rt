// What a call declines with: a fault of each layer, which holds the fault of a lower layer whole, and the number and
// layer that each cause has.
#![tactic(auto)]

pub mod check;
pub mod count;
pub mod cue;
pub mod fault;
pub mod refusal;
pub mod script;

pub use fault::{Fault, Reason};
