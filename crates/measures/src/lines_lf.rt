// Lines that end after LF.
ghost use Rattle.std.specs.Prelude.{◌≡◌, refl};
ghost use Rattle.measures.specs.Breaks.{lf_breaks};
ghost use Rattle.measures.specs.Counts.{lf_hit, nowhere};
ghost use Rattle.measures.specs.Once.{lf_linked};

use crate::breaks::{Breaks, Lined};
use crate::near::{LF, byte_back};
use chunk::ByteChunk;
use scan::Scan;
use utf8::Checked;

// The break LF.
#[derive(Clone, Copy)]
pub struct Lf;

pub type LinesLf = Lined<Lf>;

// The value of that name, for a walk to borrow.
pub const LinesLf: LinesLf = Lined(Lf);

impl Scan for Lf {
    ghost hit = { lf_hit };

    fn single(_far: u8, _near: u8, byte: u8) -> bool {
        byte == LF
    }

    #[tactic(auto, using(crate::proofs::Flags::lf_row))]
    fn flags<K: ByteChunk>(_far: K, _near: K, row: K) -> K {
        row.cmp_eq_byte(LF)
    }
}

impl Breaks for Lf {
    ghost table = { lf_breaks };

    ghost split = { nowhere };

    ghost proper = { refl };

    ghost whole = { refl };

    ghost linked = { lf_linked };

    fn break_ends(text: Checked<'_>, place: usize) -> bool {
        byte_back(text.bytes(), 1, place) == LF
    }

    fn length_at(text: Checked<'_>, place: usize) -> usize {
        usize::from(Lf::break_ends(text, place))
    }

    fn splits(_near: u8, _byte: u8) -> bool {
        false
    }
}
