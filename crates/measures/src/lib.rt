// The five measures of a text: chars, UTF-16 units, and lines by three sets of breaks.
#![tactic(auto)]

pub mod breaks;
pub mod chars;
pub mod examples;
pub mod lines;
pub mod lines_crlf;
pub mod lines_lf;
pub mod near;
mod rows;
pub mod utf16;
