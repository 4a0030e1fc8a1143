// Index by UTF-16 code units.
ghost use Rattle.std.specs.Prelude.{◌≡◌};
ghost use Rattle.cells.specs.Cells.{index, count, start};
ghost use Rattle.measures.specs.Chars.{unit_weight, pair_weight};
ghost use Rattle.str_indices.specs.Answers.{answer};

use crate::admit::admit;
use cells::Measure;
use chunk::ByteChunk;
use faults::count::Fault;
use measures::utf16::{Utf16, sum_surrogates};
use units::start_of;
use utf8::Source;

// Counts the units that a text takes in UTF-16.
pub fn count<'a, K: ByteChunk, T: Source<'a>>(text: T, head: usize) -> Result<usize, Fault>
    ensures { result ≡ answer K.SIZE head (T.fault text) (count unit_weight (T.bytes text)) }
{
    let text = admit::<K, T>(text, head)?;
    Ok(Utf16.sum::<K>(text, 0, text.len(), head))
}

// Counts the surrogate pairs that a text takes in UTF-16: its chars of four bytes.
pub fn count_surrogates<'a, K: ByteChunk, T: Source<'a>>(
    text: T,
    head: usize,
) -> Result<usize, Fault>
    ensures { result ≡ answer K.SIZE head (T.fault text) (count pair_weight (T.bytes text)) }
{
    let text = admit::<K, T>(text, head)?;
    Ok(sum_surrogates::<K>(text, 0, text.len(), head))
}

// The unit index of a byte place. Inside a char, the index of that char; past the end, the count.
pub fn from_byte_idx<'a, K: ByteChunk, T: Source<'a>>(
    text: T,
    byte_idx: usize,
    head: usize,
) -> Result<usize, Fault>
    ensures { result ≡ answer K.SIZE head (T.fault text) (index unit_weight (T.bytes text) byte_idx) }
{
    let text = admit::<K, T>(text, head)?;
    Ok(Utf16.sum::<K>(text, 0, byte_idx, head))
}

// The byte place where the char of a unit begins; past the end, the length.
pub fn to_byte_idx<'a, K: ByteChunk, T: Source<'a>>(
    text: T,
    utf16_idx: usize,
    head: usize,
) -> Result<usize, Fault>
    ensures { result ≡ answer K.SIZE head (T.fault text) (start unit_weight (T.bytes text) utf16_idx) }
{
    let text = admit::<K, T>(text, head)?;
    Ok(start_of::<K>(text, utf16_idx, head))
}
