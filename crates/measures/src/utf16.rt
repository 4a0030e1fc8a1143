// The measure of UTF-16 units: each char is a cell, of weight 2 if it has four bytes, else 1.
ghost use Rattle.std.specs.Prelude.{◌≡◌, ◌-◌};
ghost use Rattle.cells.specs.Cells.{index};
ghost use Rattle.measures.specs.Chars.{char_ends, unit_weight, pair_weight};
ghost use Rattle.measures.specs.Counts.{fours};
ghost use Rattle.measures.specs.Charring.{unit_lawful};

use crate::chars::{Chars, char_ends};
use crate::near::byte_back;
use crate::rows::masked;
use cells::Measure;
use chunk::ByteChunk;
use counted::sum;
use scan::{Scan, count};
use utf8::Checked;

#[derive(Clone, Copy)]
pub struct Utf16;

// The rule of the chars of four bytes, which take a surrogate pair.
#[derive(Clone, Copy)]
pub struct Surrogates;

impl Scan for Surrogates {
    ghost hit = { fours };

    fn single(_far: u8, _near: u8, byte: u8) -> bool {
        byte >= 0xF0
    }

    #[tactic(auto, using(crate::proofs::Flags::fours_row))]
    fn flags<K: ByteChunk>(_far: K, _near: K, row: K) -> K {
        masked(row, 0xF0, 0xF0)
    }
}

// The number of chars of four bytes that end after place a and at or before place b: each is counted at its first byte,
// so that the last three bytes before b, where a cut text may hold a part of one, are left out.
#[tactic(auto, using(crate::proofs::Pairs::pairs_none, crate::proofs::Pairs::pairs_sum, utf8::proofs::Means::text_from_test))]
pub fn sum_surrogates<K: ByteChunk>(text: Checked<'_>, a: usize, b: usize, head: usize) -> usize
    ensures { result ≡ index pair_weight text.entry.bytes.now b - index pair_weight text.entry.bytes.now a }
{
    let bytes = text.bytes();
    let from = a.saturating_sub(3);
    let to = b.min(bytes.len()).saturating_sub(3);
    if from >= to {
        return 0;
    }
    count::<Surrogates, K>(bytes, from, to, head)
}

impl Measure for Utf16 {
    ghost ends = { char_ends };

    ghost weight = { unit_weight };

    ghost lawful = { unit_lawful };

    fn ends_at(&self, text: Checked<'_>, place: usize) -> bool {
        char_ends(text, place)
    }

    fn weight_at(&self, text: Checked<'_>, place: usize) -> usize {
        if !char_ends(text, place) {
            return 0;
        }
        if byte_back(text.bytes(), 4, place) >= 0xF0 {
            2
        } else {
            1
        }
    }

    #[tactic(auto, using(crate::proofs::Pairs::units_sum, crate::proofs::Pairs::chars_most, crate::proofs::Pairs::pairs_most, utf8::proofs::Means::text_from_test))]
    fn sum<K: ByteChunk>(&self, text: Checked<'_>, a: usize, b: usize, head: usize) -> usize {
        sum::<Chars, K>(text, a, b, head) + sum_surrogates::<K>(text, a, b, head)
    }
}
