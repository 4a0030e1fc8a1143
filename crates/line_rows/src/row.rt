// The breaks that count in one row of a text, with a look at up to two bytes behind the row's end.
ghost use Rattle.std.specs.Prelude.{◌≡◌, ℕ, suc, ◌+◌, ◌/◌, ◌<◌, ◌≤◌, Bool, ◌&&◌, [], ◌∷◌, map, length, ◌==◌, nat_eq, slice_index};
ghost use Rattle.line_rows.specs.Begins.{begins_at, some_begins};
ghost use Rattle.line_rows.specs.Marks.{RowAt, Flagged, Marked, separators, break_marks};

use crate::near::{pair_at, separator_at};
use chunk::ByteChunk;
use measures::near::{CR, LF};

// Half of each byte, as `byte >> 1`.
fn halves<K: ByteChunk>(row: K) -> K
    ensures { K.lanes result ≡ map (λ x. x / 2) (K.lanes row) }
{
    row.shr(1).bitand(K::splat(!0x80))
}

// The flags whose next lane is a byte.
fn followed_by<K: ByteChunk>(row: K, flags: K, byte: u8) -> K
    requires { 0 < byte }
    ensures { (f : ℕ → Bool) → Flagged f (K.lanes flags) → Flagged (λ i. f i && slice_index (K.lanes row) (suc i) == byte) (K.lanes result) }
{
    flags.bitand(row.cmp_eq_byte(byte).shift_back_lex(1))
}

// The separators that stand in the row, where `first` flags its bytes E2.
fn separators_within<K: ByteChunk>(row: K, first: K) -> K
    requires { Flagged (λ i. nat_eq (slice_index (K.lanes row) i) 0xE2) (K.lanes first) }
    ensures { Flagged (some_begins separators (K.lanes row)) (K.lanes result) }
{
    let second = followed_by(row, first, 0x80);
    if second.is_zero() {
        return second;
    }
    second.bitand(halves(row).cmp_eq_byte(0x54).shift_back_lex(2))
}

// A row of a text, and where it begins.
#[derive(Drop)]
struct TextRow<'a, K: ByteChunk> {
    text: &'a [u8],
    place: usize,
    bytes: K,
    ghost at: { RowAt text.now place K.SIZE (K.lanes bytes) },
}

impl<'a, K: ByteChunk> TextRow<'a, K> {
    fn load(text: &'a [u8], place: usize) -> Self
        requires { place + K.SIZE ≤ length text.now }
        ensures text { result.text.now ≡ text.now }
        ensures place { result.place ≡ place }
    {
        TextRow {
            text,
            place,
            bytes: K::load(text, place),
        }
    }

    // Where two bytes begin in the row. Inlined, so that a row of sixteen bytes stays in registers.
    #[inline(always)]
    fn pairs(&self, first: u8, second: u8) -> K
        requires first { 0 < first }
        requires second { 0 < second }
        ensures { Marked (begins_at (first ∷ second ∷ []) self.now.text.now) self.now.place K.SIZE (K.lanes result) }
    {
        let flags = self.bytes.cmp_eq_byte(first);
        if flags.is_zero() {
            return flags;
        }
        let found = followed_by(self.bytes, flags, second);
        if pair_at(self.text, self.place + K::SIZE - 1, first, second) {
            return found.inc_nth_from_end_lex_byte(0);
        }
        found
    }

    // Where separators begin in the row.
    fn separators(&self) -> K
        ensures { Marked (some_begins separators self.now.text.now) self.now.place K.SIZE (K.lanes result) }
    {
        let first = self.bytes.cmp_eq_byte(0xE2);
        if first.is_zero() {
            return first;
        }
        let found = separators_within(self.bytes, first);
        let end = self.place + K::SIZE;
        if separator_at(self.text, end - 2) {
            return found.inc_nth_from_end_lex_byte(1);
        }
        if separator_at(self.text, end - 1) {
            return found.inc_nth_from_end_lex_byte(0);
        }
        found
    }
}

// Where breaks count in the row at a place: at their first byte, but CR LF at its LF.
pub fn count_breaks_in_chunk<K: ByteChunk>(text: &[u8], place: usize) -> K
    requires { place + K.SIZE ≤ length text.now }
    ensures { K.lanes result ≡ break_marks text.now place K.SIZE }
{
    let row = TextRow::<K>::load(text, place);
    let low = row.bytes.bytes_between_127(0x09, 0x0E);
    let long = row.pairs(0xC2, 0x85).add(row.separators());
    long.add(low).sub(row.pairs(CR, LF))
}
