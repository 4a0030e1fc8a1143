// The plain walks: one question to the measure for each byte. They are what the faster forms have to equal.
ghost use Rattle.std.specs.Prelude.{◌≡◌};
ghost use Rattle.cells.specs.Cells.{index, count, start};
ghost use Rattle.cells.specs.Starts.{OnlyStart};

use crate::measure::Measure;
use utf8::Checked;

// The summed weight of all cells.
pub fn count<M: Measure>(measure: &M, text: Checked<'_>) -> usize
    ensures { result ≡ count M.Measure.weight text.entry.bytes.now }
{
    index(measure, text, text.len())
}

// The summed weight of the cells that end at or before a place; past the length, the count.
pub fn index<M: Measure>(measure: &M, text: Checked<'_>, place: usize) -> usize
    ensures { result ≡ index M.Measure.weight text.entry.bytes.now place }
{
    let mut sum = 0;
    // no chain: by one, LF takes 2.4 times as long
    for p in 0..place.min(text.len()) {
        sum += measure.weight_at(text, p + 1);
    }
    sum
}

// Where index k begins: the length if k is above the count, else the end of the shortest run of first cells that
// has the greatest weight not above k.
pub fn start<M: Measure>(measure: &M, text: Checked<'_>, k: usize) -> usize
    ensures value { result ≡ start M.Measure.weight text.entry.bytes.now k }
    ensures only { OnlyStart M.Measure.ends M.Measure.weight text.entry.bytes.now k result }
{
    let len = text.len();
    let mut best = 0;
    let mut sum = 0;
    for p in 1..=len {
        let weight = measure.weight_at(text, p);
        sum += weight;
        if sum > k {
            return best;
        }
        if weight > 0 {
            best = p;
        }
    }
    if sum < k { len } else { best }
}
