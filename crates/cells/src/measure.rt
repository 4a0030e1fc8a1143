// A measure cuts each text into cells, each with a weight.
ghost use Rattle.std.specs.Prelude.{◌≡◌, ℕ, ◌-◌, Bool, List};
ghost use Rattle.cells.specs.Cells.{Lawful, index};

use chunk::ByteChunk;
use utf8::Checked;

pub trait Measure {
    // Whether a cell of a text ends at a place.
    ghost ends: { List ℕ → ℕ → Bool };

    // What the cell that ends at a place weighs, 0 where none does.
    ghost weight: { List ℕ → ℕ → ℕ };

    fn ends_at(&self, text: Checked<'_>, place: usize) -> bool
        ensures { result ≡ ends text.entry.bytes.now place };

    fn weight_at(&self, text: Checked<'_>, place: usize) -> usize
        ensures { result ≡ weight text.entry.bytes.now place };

    // The summed weight of the cells that end after place a and at or before place b, 0 if a is not below b; counted by
    // chunks of the kind K after the first `head` bytes, whatever that is. A place past the length stands for the length.
    // Every call names them all anew.
    fn sum<K: ByteChunk>(&self, text: Checked<'_>, a: usize, b: usize, head: usize) -> usize
        ensures { result ≡ index weight text.entry.bytes.now b - index weight text.entry.bytes.now a };

    ghost lawful: { Lawful ends weight };
}
