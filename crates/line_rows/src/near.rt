// Bytes from a place on.
ghost use Rattle.std.specs.Prelude.{◌≡◌, ◌<◌, ◌≤◌, [], ◌∷◌, length, slice_index};
ghost use Rattle.utf8.specs.Places.{char_start};
ghost use Rattle.line_rows.specs.Begins.{begins_at, some_begins};
ghost use Rattle.line_rows.specs.Marks.{separators};
ghost use Rattle.line_rows.specs.Steps.{NextStart};

// The byte at a place; 0, which is in no break, past the end.
pub fn byte_at(text: &[u8], place: usize) -> u8
    ensures { result ≡ slice_index text.now place }
{
    text.get(place).copied().unwrap_or(0)
}

// Whether two bytes stand at a place.
pub fn pair_at(text: &[u8], place: usize, first: u8, second: u8) -> bool
    requires { place < length text.now }
    ensures { result ≡ begins_at (first ∷ second ∷ []) text.now place }
{
    byte_at(text, place) == first && byte_at(text, place + 1) == second
}

// Whether a separator of lines or of paragraphs stands at a place.
pub fn separator_at(text: &[u8], place: usize) -> bool
    requires { place < length text.now }
    ensures { result ≡ some_begins separators text.now place }
{
    pair_at(text, place, 0xE2, 0x80) && byte_at(text, place + 2) >> 1 == 0x54
}

// Whether a char may begin at a place of a text. Apart from `char_ends` of the measures: place 0 counts, and of any bytes.
pub fn is_char_start(text: &[u8], place: usize) -> bool
    ensures { result ≡ char_start text.now place }
{
    match text.get(place) {
        Some(byte) => place == 0 || !matches!(*byte, 0x80..=0xBF),
        None => place == text.len(),
    }
}

// The first char start from a place on.
pub fn next_char_start(text: &[u8], from: usize) -> usize
    requires { from ≤ length text.now }
    ensures { NextStart text.now from result }
{
    (from..text.len())
        .find(|place| is_char_start(text, *place))
        .unwrap_or(text.len())
}
