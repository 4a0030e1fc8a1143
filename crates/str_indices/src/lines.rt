// Index by lines as Unicode breaks them: after LF, VT, FF, CR, CR LF, NEL, LS and PS.
ghost use Rattle.std.specs.Prelude.{◌≡◌};
ghost use Rattle.cells.specs.Cells.{index, count, start};
ghost use Rattle.measures.specs.Breaks.{unicode_breaks, line_weight};
ghost use Rattle.str_indices.specs.Answers.{answer};

use crate::admit::admit;
use chunk::ByteChunk;
use faults::count::Fault;
use line_rows::routes::{count_breaks_impl, from_byte_idx_impl, to_byte_idx_impl};
pub use line_rows::up_to::count_breaks_up_to;
use utf8::Source;

// Counts the line breaks of a text.
pub fn count_breaks<'a, K: ByteChunk, T: Source<'a>>(text: T, head: usize) -> Result<usize, Fault>
    ensures { result ≡ answer K.SIZE head (T.fault text) (count (line_weight unicode_breaks) (T.bytes text)) }
{
    let text = admit::<K, T>(text, head)?;
    Ok(count_breaks_impl::<K>(text.bytes(), head))
}

// The line index of a byte place: how many breaks end at or before it. Past the end, the count.
pub fn from_byte_idx<'a, K: ByteChunk, T: Source<'a>>(
    text: T,
    byte_idx: usize,
    head: usize,
) -> Result<usize, Fault>
    ensures { result ≡ answer K.SIZE head (T.fault text) (index (line_weight unicode_breaks) (T.bytes text) byte_idx) }
{
    let text = admit::<K, T>(text, head)?;
    Ok(from_byte_idx_impl::<K>(text, byte_idx, head))
}

// The byte place where a line begins: 0, or right after a break. Past the last line, the length.
pub fn to_byte_idx<'a, K: ByteChunk, T: Source<'a>>(
    text: T,
    line_idx: usize,
    head: usize,
) -> Result<usize, Fault>
    ensures { result ≡ answer K.SIZE head (T.fault text) (start (line_weight unicode_breaks) (T.bytes text) line_idx) }
{
    let text = admit::<K, T>(text, head)?;
    Ok(to_byte_idx_impl::<K>(text, line_idx, head))
}
