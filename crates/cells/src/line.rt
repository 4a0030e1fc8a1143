// A measure of lines also tells the length of the break that ends each cell.
ghost use Rattle.std.specs.Prelude.{◌≡◌, ℕ, List};
ghost use Rattle.cells.specs.LineCells.{LawfulBreaks};

use crate::measure::Measure;
use utf8::Checked;

pub trait LineMeasure: Measure {
    // The length of the break that ends the cell which ends at a place; 0 where it has none, or no cell ends.
    ghost break_length: { List ℕ → ℕ → ℕ };

    fn break_length_at(&self, text: Checked<'_>, place: usize) -> usize
        ensures { result ≡ break_length text.entry.bytes.now place };

    ghost breaks: { LawfulBreaks Self.Measure.ends Self.Measure.weight break_length };
}
