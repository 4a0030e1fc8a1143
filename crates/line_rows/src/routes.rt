// The routes of the module `lines`: each byte of the head singly, whole rows, then each byte of the rest singly. None of
// them refuses a head: one above the length leaves no row.
ghost use Rattle.std.specs.Prelude.{◌≡◌, ◌+◌, ◌*◌, ◌<◌, ◌≤◌, length};
ghost use Rattle.cells.specs.Cells.{count, index, start};
ghost use Rattle.measures.specs.Breaks.{unicode_breaks, line_weight};
ghost use Rattle.line_rows.specs.Begins.{breaks_in};
ghost use Rattle.line_rows.specs.Passing.{Counted};

use crate::near::next_char_start;
use crate::row::count_breaks_in_chunk;
use crate::up_to::{count_breaks_up_to, is_not_crlf_middle};
use chunk::ByteChunk;
use utf8::Checked;

// The breaks that have ended at a place: those of the bytes before it, less the CR that counts alone where the place
// splits CR LF. A char that the place splits counts for nothing, so no step back to a char start is needed.
pub fn from_byte_idx_impl<K: ByteChunk>(text: Checked<'_>, byte_idx: usize, head: usize) -> usize
    ensures { result ≡ index (line_weight unicode_breaks) text.entry.bytes.now byte_idx }
{
    let bytes = text.bytes();
    let i = byte_idx.min(bytes.len());
    let count = count_breaks_impl::<K>(&bytes[..i], head);
    if is_not_crlf_middle(i, bytes) {
        count
    } else {
        count - 1
    }
}

// The breaks that count in so many rows, no more than one sum takes.
fn count_rows<K: ByteChunk>(text: &[u8], from: usize, rows: usize) -> usize
    requires few { rows ≤ K.MAX_ACC }
    requires room { from + rows * K.SIZE ≤ length text.now }
    ensures { breaks_in text.now from + result ≡ breaks_in text.now (from + rows * K.SIZE) }
{
    let mut acc = K::zero();
    for row in 0..rows {
        acc = acc.add(count_breaks_in_chunk::<K>(text, from + row * K::SIZE));
    }
    acc.sum_bytes()
}

// The breaks that count in any number of rows, in rounds.
fn count_rounds<K: ByteChunk>(text: &[u8], from: usize, rows: usize) -> usize
    requires { from + rows * K.SIZE ≤ length text.now }
    ensures { breaks_in text.now from + result ≡ breaks_in text.now (from + rows * K.SIZE) }
{
    let mut count = 0;
    for first in (0..rows).step_by(K::MAX_ACC) {
        let round = (rows - first).min(K::MAX_ACC);
        count += count_rows::<K>(text, from + first * K::SIZE, round);
    }
    count
}

// All breaks: the head byte by byte, whole rows, and the rest byte by byte.
pub fn count_breaks_impl<K: ByteChunk>(text: &[u8], head: usize) -> usize
    ensures { result ≡ count (line_weight unicode_breaks) text.now }
{
    let (in_head, from) = count_breaks_up_to(text, head, text.len());
    let rows = (text.len() - from) / K::SIZE;
    let in_rows = count_rounds::<K>(text, from, rows);
    let rest = &text[from + rows * K::SIZE..];
    in_head + in_rows + count_breaks_up_to(rest, rest.len(), rest.len()).0
}

// The way to where k breaks count: the place that it has come to, and how many count before it.
// Each crate that finds a start has its own way: one for all would need a trait for the facts and their laws, no plainer.
#[derive(Drop)]
struct Way<'a> {
    text: &'a [u8],
    k: usize,
    place: usize,
    count: usize,
    ghost within: { place ≤ length text.now },
    ghost counted: { Counted text.now k count place },
}

impl<'a> Way<'a> {
    // At the start of the text.
    fn new(text: &'a [u8], k: usize) -> Self
        ensures text { result.text.now ≡ text.now }
        ensures k { result.k ≡ k }
        ensures place { result.place ≡ 0 }
    {
        Way {
            text,
            k,
            place: 0,
            count: 0,
        }
    }

    // The same way, come to another place.
    fn at(self, place: usize, count: usize) -> Self
        requires within { place ≤ length self.text.now }
        requires counted { Counted self.text.now self.k count place }
        ensures text { result.text.now ≡ self.entry.text.now }
        ensures k { result.k ≡ self.entry.k }
        ensures place { result.place ≡ place }
        ensures count { result.count ≡ count }
    {
        Way {
            text: self.text,
            k: self.k,
            place,
            count,
        }
    }

    // Goes on byte by byte to a place, or to where k breaks count if that comes first.
    fn by_bytes(self, to: usize) -> Self
        requires order { self.place ≤ to }
        requires within { to ≤ length self.text.now }
        ensures text { result.text.now ≡ self.entry.text.now }
        ensures k { result.k ≡ self.entry.k }
        ensures within { result.place ≤ to }
        ensures all { result.count < result.k → result.place ≡ to }
    {
        let rest = &self.text[self.place..];
        let (more, passed) = count_breaks_up_to(rest, to - self.place, self.k - self.count);
        let place = self.place + passed;
        let count = self.count + more;
        self.at(place, count)
    }

    // Goes over so many rows at a time, as long as fewer than k breaks are counted with them.
    fn by_rows<K: ByteChunk>(self, rows: usize) -> Self
        requires some { 0 < rows }
        requires few { rows ≤ K.MAX_ACC }
        ensures text { result.text.now ≡ self.entry.text.now }
        ensures k { result.k ≡ self.entry.k }
        ensures stops { result.place + rows * K.SIZE ≤ length result.text.now → result.k ≤ breaks_in result.text.now (result.place + rows * K.SIZE) }
    {
        let step = rows * K::SIZE;
        let mut way = self;
        // no `for`: rows that reach k end it, and the place moves with the count
        while way.text.len() - way.place >= step {
            let place = way.place + step;
            let count = way.count + count_rows::<K>(way.text, way.place, rows);
            if count >= way.k {
                break;
            }
            way = way.at(place, count);
        }
        way
    }
}

// The start of a line: the head byte by byte, then whole rows, in rounds and one by one, then byte by byte to where the
// line's break counts, and on to where the char of that break ends.
pub fn to_byte_idx_impl<K: ByteChunk>(text: Checked<'_>, line_idx: usize, head: usize) -> usize
    ensures { result ≡ start (line_weight unicode_breaks) text.entry.bytes.now line_idx }
{
    let bytes = text.bytes();
    let way = Way::new(bytes, line_idx).by_bytes(head.min(bytes.len()));
    let way = way
        .by_rows::<K>(K::MAX_ACC)
        .by_rows::<K>(1)
        .by_bytes(bytes.len());
    next_char_start(bytes, way.place)
}
