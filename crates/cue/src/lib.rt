// Cue files: their records, the place of each cue in a text, and what the program prints of them.
#![tactic(auto)]

pub mod kind;
pub mod place;
pub mod record;
mod stop;
pub mod transcript;
