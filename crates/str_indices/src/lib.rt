// Places in a text by bytes, chars, UTF-16 units and lines. Every call names a chunk kind and a head: the first bytes, as
// many as the head says, are counted singly, then whole chunks, then the rest singly. What it answers depends on neither.
// The modules stay alike in shape: their names, and those of their functions, are the Rust crate's.
#![tactic(auto)]

mod admit;
pub mod chars;
pub mod lines;
pub mod lines_crlf;
pub mod lines_lf;
pub mod utf16;

pub use line_rows::up_to::is_not_crlf_middle;
