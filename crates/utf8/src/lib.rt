// UTF-8 as RFC 3629 has it: the kinds of bytes, the check, and a text that was checked.
#![tactic(auto)]

pub mod checker;
pub mod examples;
pub mod held;
pub mod kind;
pub mod source;

pub use checker::check;
pub use held::Checked;
pub use source::Source;
