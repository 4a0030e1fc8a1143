// Index by chars.
ghost use Rattle.std.specs.Prelude.{◌≡◌};
ghost use Rattle.cells.specs.Cells.{index, count, start};
ghost use Rattle.measures.specs.Chars.{char_weight};
ghost use Rattle.str_indices.specs.Answers.{answer};

use crate::admit::admit;
use chunk::ByteChunk;
use counted::seek::start_of;
use counted::{count_of, index_of};
use faults::count::Fault;
use measures::chars::Chars;
use utf8::Source;

// Counts the chars of a text.
pub fn count<'a, K: ByteChunk, T: Source<'a>>(text: T, head: usize) -> Result<usize, Fault>
    ensures { result ≡ answer K.SIZE head (T.fault text) (count char_weight (T.bytes text)) }
{
    let text = admit::<K, T>(text, head)?;
    Ok(count_of::<Chars, K>(text, head))
}

// The char index of a byte place. Inside a char, the index of that char; past the end, the count.
pub fn from_byte_idx<'a, K: ByteChunk, T: Source<'a>>(
    text: T,
    byte_idx: usize,
    head: usize,
) -> Result<usize, Fault>
    ensures { result ≡ answer K.SIZE head (T.fault text) (index char_weight (T.bytes text) byte_idx) }
{
    let text = admit::<K, T>(text, head)?;
    Ok(index_of::<Chars, K>(text, byte_idx, head))
}

// The byte place where a char begins; past the end, the length.
pub fn to_byte_idx<'a, K: ByteChunk, T: Source<'a>>(
    text: T,
    char_idx: usize,
    head: usize,
) -> Result<usize, Fault>
    ensures { result ≡ answer K.SIZE head (T.fault text) (start char_weight (T.bytes text) char_idx) }
{
    let text = admit::<K, T>(text, head)?;
    Ok(start_of::<Chars, K>(text, char_idx, head))
}
