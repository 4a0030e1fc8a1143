// The place of a cue in a checked text, by the calls of `str_indices` on words. No head is counted singly, so no call is
// refused.
ghost use Rattle.std.specs.Prelude.{◌≡◌, Ok};
ghost use Rattle.cue.specs.Places.{place_of, column_place};

use crate::record::Cue;
use faults::count::Fault;
use str_indices::{chars, lines, lines_crlf, lines_lf, utf16};
use utf8::Checked;
use word::Word;

// The place of a column in a line, but never past the next line's start; the length, if there is no such line.
pub fn column_place(text: Checked<'_>, line: u32, column: u32) -> Result<usize, Fault>
    ensures { result ≡ Ok (column_place text.entry.bytes.now line column) }
{
    let line = line as usize;
    let last = lines_crlf::count_breaks::<Word, _>(text, 0)?;
    if line > last {
        return Ok(text.len());
    }
    let from = lines_crlf::to_byte_idx::<Word, _>(text, line, 0)?;
    let before = utf16::from_byte_idx::<Word, _>(text, from, 0)?;
    // a sum past the largest `usize` is above every count, as that `usize` is
    let place = utf16::to_byte_idx::<Word, _>(text, before.saturating_add(column as usize), 0)?;
    let next = lines_crlf::to_byte_idx::<Word, _>(text, line + 1, 0)?;
    Ok(place.min(next))
}

pub fn place_of(text: Checked<'_>, cue: Cue) -> Result<usize, Fault>
    ensures { result ≡ Ok (place_of text.entry.bytes.now cue) }
{
    match cue {
        Cue::Chars(index) => chars::to_byte_idx::<Word, _>(text, index as usize, 0),
        Cue::Utf16(index) => utf16::to_byte_idx::<Word, _>(text, index as usize, 0),
        Cue::Lines(index) => lines::to_byte_idx::<Word, _>(text, index as usize, 0),
        Cue::LinesCrlf(index) => lines_crlf::to_byte_idx::<Word, _>(text, index as usize, 0),
        Cue::LinesLf(index) => lines_lf::to_byte_idx::<Word, _>(text, index as usize, 0),
        Cue::Column { line, column } => column_place(text, line, column),
    }
}
