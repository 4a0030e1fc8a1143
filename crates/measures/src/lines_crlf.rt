// Lines that end after LF, CR and CR LF.
ghost use Rattle.std.specs.Prelude.{◌≡◌, refl};
ghost use Rattle.measures.specs.Breaks.{crlf_breaks};
ghost use Rattle.measures.specs.Counts.{crlf_hit, in_break};
ghost use Rattle.measures.specs.Once.{crlf_linked};

use crate::breaks::{Breaks, Lined};
use crate::near::{CR, LF, byte_back, crlf_before, in_crlf};
use chunk::ByteChunk;
use scan::Scan;
use utf8::Checked;

// The breaks LF, CR and CR LF.
#[derive(Clone, Copy)]
pub struct CrLf;

pub type LinesCrlf = Lined<CrLf>;

// The value of that name, for a walk to borrow.
pub const LinesCrlf: LinesCrlf = Lined(CrLf);

impl Scan for CrLf {
    ghost hit = { crlf_hit };

    fn single(_far: u8, near: u8, byte: u8) -> bool {
        (byte == CR) | ((byte == LF) & (near != CR))
    }

    fn flags<K: ByteChunk>(_far: K, near: K, row: K) -> K {
        // With `pairs`, the flags of LF are computed twice, and a count takes 239 ms in place of 219.
        let lf = row.cmp_eq_byte(LF);
        let cr = row.cmp_eq_byte(CR);
        let second = near.cmp_eq_byte(CR).bitand(lf);
        lf.add(cr).sub(second)
    }
}

impl Breaks for CrLf {
    ghost table = { crlf_breaks };

    ghost split = { in_break };

    ghost proper = { refl };

    ghost whole = { refl };

    ghost linked = { crlf_linked };

    fn break_ends(text: Checked<'_>, place: usize) -> bool {
        let bytes = text.bytes();
        let before = byte_back(bytes, 1, place);
        before == LF || before == CR && byte_back(bytes, 0, place) != LF
    }

    fn length_at(text: Checked<'_>, place: usize) -> usize {
        if !CrLf::break_ends(text, place) {
            return 0;
        }
        if crlf_before(text.bytes(), place) {
            2
        } else {
            1
        }
    }

    fn splits(near: u8, byte: u8) -> bool {
        in_crlf(near, byte)
    }
}
