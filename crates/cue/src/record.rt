// The records of a cue file: a byte of kind, then one or two little-endian numbers of four bytes.
ghost use Rattle.std.specs.Prelude.{◌≡◌, ◌+◌, ◌≤◌, length};
ghost use Rattle.cue.specs.Records.{kind_of, number_at, record_at};

use crate::kind::Kind;
use faults::cue::{Cause, Fault};

// What a cue names: an index of one measure, or a line of lines_crlf and a column in UTF-16 units.
#[derive(Clone, Copy, Debug, PartialEq, Eq)]
pub enum Cue {
    Chars(u32),
    Utf16(u32),
    Lines(u32),
    LinesCrlf(u32),
    LinesLf(u32),
    Column { line: u32, column: u32 },
}

#[derive(Clone, Copy, Debug, PartialEq, Eq)]
pub struct Record {
    pub cue: Cue,
    // where the next record begins
    pub next: usize,
}

impl Cue {
    pub fn kind(self) -> Kind
        ensures { result ≡ kind_of self }
    {
        match self {
            Cue::Chars(_) => Kind::Chars,
            Cue::Utf16(_) => Kind::Utf16,
            Cue::Lines(_) => Kind::Lines,
            Cue::LinesCrlf(_) => Kind::LinesCrlf,
            Cue::LinesLf(_) => Kind::LinesLf,
            Cue::Column { line: _, column: _ } => Kind::Column,
        }
    }
}

fn number_at(bytes: &[u8], at: usize) -> u32
    requires { at + 4 ≤ length bytes.now }
    ensures { result ≡ number_at bytes.now at }
{
    u32::from_le_bytes([bytes[at], bytes[at + 1], bytes[at + 2], bytes[at + 3]])
}

// The record that begins at a place; none at the file's end.
pub fn record_at(bytes: &[u8], at: usize) -> Result<Option<Record>, Fault>
    ensures { result ≡ record_at bytes.now at }
{
    let Some(first) = bytes.get(at) else {
        return Ok(None);
    };
    let kind = Kind::try_from(*first).map_err(|cause| Fault { place: at, cause })?;
    let size = kind.size();
    if bytes.len() - at < size {
        return Err(Fault {
            place: at,
            cause: Cause::Cut,
        });
    }
    let number = number_at(bytes, at + 1);
    let cue = match kind {
        Kind::Chars => Cue::Chars(number),
        Kind::Utf16 => Cue::Utf16(number),
        Kind::Lines => Cue::Lines(number),
        Kind::LinesCrlf => Cue::LinesCrlf(number),
        Kind::LinesLf => Cue::LinesLf(number),
        Kind::Column => Cue::Column {
            line: number,
            column: number_at(bytes, at + 5),
        },
    };
    Ok(Some(Record {
        cue,
        next: at + size,
    }))
}
