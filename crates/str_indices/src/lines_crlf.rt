// Index by lines that end with LF, CR or CR LF.
ghost use Rattle.std.specs.Prelude.{◌≡◌};
ghost use Rattle.cells.specs.Cells.{index, count, start};
ghost use Rattle.measures.specs.Breaks.{crlf_breaks, line_weight};
ghost use Rattle.str_indices.specs.Answers.{answer};

use crate::admit::admit;
use chunk::ByteChunk;
use counted::seek::start_of;
use counted::{count_of, index_of};
use faults::count::Fault;
use measures::lines_crlf::LinesCrlf;
use utf8::Source;

// Counts the line breaks of a text.
pub fn count_breaks<'a, K: ByteChunk, T: Source<'a>>(text: T, head: usize) -> Result<usize, Fault>
    ensures { result ≡ answer K.SIZE head (T.fault text) (count (line_weight crlf_breaks) (T.bytes text)) }
{
    let text = admit::<K, T>(text, head)?;
    Ok(count_of::<LinesCrlf, K>(text, head))
}

// The line index of a byte place: how many breaks end at or before it. Past the end, the count.
pub fn from_byte_idx<'a, K: ByteChunk, T: Source<'a>>(
    text: T,
    byte_idx: usize,
    head: usize,
) -> Result<usize, Fault>
    ensures { result ≡ answer K.SIZE head (T.fault text) (index (line_weight crlf_breaks) (T.bytes text) byte_idx) }
{
    let text = admit::<K, T>(text, head)?;
    Ok(index_of::<LinesCrlf, K>(text, byte_idx, head))
}

// The byte place where a line begins: 0, or right after a break. Past the last line, the length.
pub fn to_byte_idx<'a, K: ByteChunk, T: Source<'a>>(
    text: T,
    line_idx: usize,
    head: usize,
) -> Result<usize, Fault>
    ensures { result ≡ answer K.SIZE head (T.fault text) (start (line_weight crlf_breaks) (T.bytes text) line_idx) }
{
    let text = admit::<K, T>(text, head)?;
    Ok(start_of::<LinesCrlf, K>(text, line_idx, head))
}
