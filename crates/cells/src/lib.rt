// Measures of texts, and the plain walks that count, index and find starts by any of them.
#![tactic(auto)]

pub mod bytes;
pub mod line;
pub mod measure;
pub mod walk;

pub use line::LineMeasure;
pub use measure::Measure;
