// Lines as Unicode breaks them: after LF, VT, FF, CR, CR LF, NEL, LS and PS.
ghost use Rattle.std.specs.Prelude.{◌≡◌, refl};
ghost use Rattle.scan.specs.Marks.{mark, zip3};
ghost use Rattle.measures.specs.Breaks.{unicode_breaks};
ghost use Rattle.measures.specs.Counts.{unicode_hit, separator, in_break};
ghost use Rattle.measures.specs.Once.{unicode_linked};

use crate::breaks::{Breaks, Lined};
use crate::near::{CR, FF, LF, VT, byte_back, crlf_before, in_crlf};
use crate::rows::{masked, pairs};
use chunk::ByteChunk;
use scan::Scan;
use utf8::Checked;

// The breaks of Unicode.
#[derive(Clone, Copy)]
pub struct Unicode;

pub type Lines = Lined<Unicode>;

// The value of that name, for a walk to borrow.
pub const Lines: Lines = Lined(Unicode);

// 1 at the last byte of each LS and PS, 0 at any other byte.
#[tactic(auto, using(crate::proofs::Flags::separators_row))]
fn separators<K: ByteChunk>(far: K, near: K, row: K) -> K
    ensures { K.ByteChunk.lanes result ≡ zip3 (mark separator) (K.ByteChunk.lanes far) (K.ByteChunk.lanes near) (K.ByteChunk.lanes row) }
{
    pairs(far, 0xE2, near, 0x80).bitand(masked(row, 0xFE, 0xA8))
}

impl Scan for Unicode {
    ghost hit = { unicode_hit };

    fn single(far: u8, near: u8, byte: u8) -> bool {
        byte > 0x09 && byte < 0x0E && !in_crlf(near, byte)
            || near == 0xC2 && byte == 0x85
            || far == 0xE2 && near == 0x80 && (byte == 0xA8 || byte == 0xA9)
    }

    fn flags<K: ByteChunk>(far: K, near: K, row: K) -> K {
        row.bytes_between_127(0x09, 0x0E)
            .sub(pairs(near, CR, row, LF))
            .add(pairs(near, 0xC2, row, 0x85))
            .add(separators(far, near, row))
    }
}

impl Breaks for Unicode {
    ghost table = { unicode_breaks };

    ghost split = { in_break };

    ghost proper = { refl };

    ghost whole = { refl };

    ghost linked = { unicode_linked };

    fn break_ends(text: Checked<'_>, place: usize) -> bool {
        let bytes = text.bytes();
        match byte_back(bytes, 1, place) {
            CR => byte_back(bytes, 0, place) != LF,
            0x85 => byte_back(bytes, 2, place) == 0xC2,
            0xA8 | 0xA9 => byte_back(bytes, 2, place) == 0x80 && byte_back(bytes, 3, place) == 0xE2,
            before => before == LF || before == VT || before == FF,
        }
    }

    fn length_at(text: Checked<'_>, place: usize) -> usize {
        if !Unicode::break_ends(text, place) {
            return 0;
        }
        let bytes = text.bytes();
        if crlf_before(bytes, place) {
            return 2;
        }
        match byte_back(bytes, 1, place) {
            ..0x80 => 1,
            0x85 => 2,
            _ => 3,
        }
    }

    fn splits(near: u8, byte: u8) -> bool {
        in_crlf(near, byte)
    }
}
