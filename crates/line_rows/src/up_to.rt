// Breaks counted byte by byte, up to a limit.
ghost use Rattle.std.specs.Prelude.{◌≡◌, ◌<◌, not, length};
ghost use Rattle.measures.specs.Breaks.{in_crlf};
ghost use Rattle.line_rows.specs.Begins.{break_counts};
ghost use Rattle.line_rows.specs.Passing.{Passed};

use crate::near::{byte_at, separator_at};
use measures::near::{CR, FF, LF, VT, byte_back, in_crlf};

// Whether a break counts at a byte: its first one, or the LF of CR LF.
fn break_counts(bytes: &[u8], place: usize) -> bool
    requires { place < length bytes.now }
    ensures { result ≡ break_counts bytes.now place }
{
    let next = byte_at(bytes, place + 1);
    match bytes[place] {
        LF | VT | FF => true,
        CR => next != LF,
        0xC2 => next == 0x85,
        0xE2 => separator_at(bytes, place),
        _ => false,
    }
}

// Counts breaks up to a limit of bytes and one of breaks: how many there are, and how many bytes were passed.
pub fn count_breaks_up_to(bytes: &[u8], max_bytes: usize, max_breaks: usize) -> (usize, usize)
    ensures { Passed bytes.now max_bytes max_breaks result.0 result.1 }
{
    let limit = max_bytes.min(bytes.len());
    let mut count = 0;
    // by place, not by byte: a break shows in the two bytes after its first, too
    for place in 0..limit {
        if count == max_breaks {
            return (count, place);
        }
        count += break_counts(bytes, place) as usize;
    }
    (count, limit)
}

// Whether a place does not lie between CR and LF.
pub fn is_not_crlf_middle(byte_idx: usize, text: &[u8]) -> bool
    ensures { result ≡ not (in_crlf text.now byte_idx) }
{
    !in_crlf(byte_back(text, 1, byte_idx), byte_back(text, 0, byte_idx))
}
