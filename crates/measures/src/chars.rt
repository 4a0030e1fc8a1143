// The measure of chars: each char is a cell of weight 1.
ghost use Rattle.std.specs.Prelude.{◌≡◌};
ghost use Rattle.utf8.specs.Places.{follower};
ghost use Rattle.measures.specs.Chars.{char_ends, char_weight};
ghost use Rattle.measures.specs.CharCells.{CharCells};
ghost use Rattle.measures.specs.Counts.{leads, in_char};
ghost use Rattle.measures.specs.Charring.{char_lawful};
ghost use Rattle.measures.specs.Once.{chars_linked};

use crate::rows::masked;
use cells::Measure;
use chunk::ByteChunk;
use counted::{Counted, sum};
use scan::Scan;
use utf8::Checked;

#[derive(Clone, Copy)]
pub struct Chars;

// Whether a char ends at a place: at every char start but place 0.
pub fn char_ends(text: Checked<'_>, place: usize) -> bool
    ensures { result ≡ char_ends text.entry.bytes.now place }
{
    match text.bytes().get(place) {
        Some(byte) => place > 0 && !is_follower(*byte),
        None => place > 0 && place == text.len(),
    }
}

// Whether a byte goes on with a char that another began.
fn is_follower(byte: u8) -> bool
    ensures { result ≡ follower byte }
{
    byte >= 0x80 && byte <= 0xBF
}

impl Scan for Chars {
    ghost hit = { leads };

    fn single(_far: u8, _near: u8, byte: u8) -> bool {
        !is_follower(byte)
    }

    fn flags<K: ByteChunk>(_far: K, _near: K, row: K) -> K {
        K::splat(1).sub(masked(row, 0xC0, 0x80))
    }
}

impl Counted for Chars {
    ghost ends = { char_ends };

    ghost weight = { char_weight };

    ghost split = { in_char };

    ghost lawful = { char_lawful };

    ghost linked = { chars_linked };

    fn splits(_near: u8, byte: u8) -> bool {
        is_follower(byte)
    }
}

// The members stand here again: with `Measure` as a supertrait, `Counted` and `Measure::sum` would each need the other.
impl Measure for Chars {
    ghost ends = { char_ends };

    ghost weight = { char_weight };

    ghost lawful = { char_lawful };

    fn ends_at(&self, text: Checked<'_>, place: usize) -> bool {
        char_ends(text, place)
    }

    fn weight_at(&self, text: Checked<'_>, place: usize) -> usize {
        char_ends(text, place) as usize
    }

    fn sum<K: ByteChunk>(&self, text: Checked<'_>, a: usize, b: usize, head: usize) -> usize {
        sum::<Chars, K>(text, a, b, head)
    }
}

// The cells of chars and of UTF-16 units are the chars of the grammar.
#[tactic(auto, using(crate::specs::Charring::char_cells))]
pub fn cells_are_chars() -> u8
    ensures { CharCells }
{
    0
}
