// The start of a UTF-16 unit: the head byte by byte, then rounds of rows that cannot pass it, then rows, then bytes again.
#![tactic(auto)]

ghost use Rattle.std.specs.Prelude.{◌≡◌, ◌+◌, ◌*◌, ◌<◌, ◌≤◌, true, length};
ghost use Rattle.utf8.specs.FirstFault.{is_text};
ghost use Rattle.cells.specs.Cells.{start};
ghost use Rattle.measures.specs.Chars.{unit_weight};
ghost use Rattle.units.specs.Units.{unit, begun, Begun};

use chunk::ByteChunk;
use measures::chars::Chars;
use measures::utf16::Surrogates;
use scan::{Scan, round};
use utf8::Checked;

// How many units a byte begins, by rules that go by it alone.
fn units(byte: u8) -> usize
    ensures { result ≡ unit byte }
{
    Chars::single(0, 0, byte) as usize + Surrogates::single(0, 0, byte) as usize
}

// The units that begin in n rows from a place on.
fn units_in_rows<K: ByteChunk>(text: &[u8], place: usize, n: usize) -> usize
    requires few { n ≤ K.ByteChunk.MAX_ACC }
    requires room { place + n * K.ByteChunk.SIZE ≤ length text.now }
    ensures { begun text.now place + result ≡ begun text.now (place + n * K.ByteChunk.SIZE) }
{
    round::<Chars, K>(text, place, n) + round::<Surrogates, K>(text, place, n)
}

// The way to where unit k begins: the place that it has come to, and how many units begin before it, no more than k.
// Each crate that finds a start has its own way: one for all would need a trait for the facts and their laws, no plainer.
#[derive(Drop)]
struct Way<'a> {
    text: &'a [u8],
    k: usize,
    place: usize,
    count: usize,
    ghost sound: { is_text text.now ≡ true },
    ghost begun: { Begun text.now k place count },
}

impl<'a> Way<'a> {
    // At the start of the text.
    fn new(text: Checked<'a>, k: usize) -> Self
        ensures text { result.text.now ≡ text.entry.bytes.now }
        ensures k { result.k ≡ k }
        ensures place { result.place ≡ 0 }
    {
        Way {
            text: text.bytes(),
            k,
            place: 0,
            count: 0,
        }
    }

    // The same way, come to another place.
    fn at(self, place: usize, count: usize) -> Self
        requires { Begun self.text.now self.k place count }
        ensures text { result.text.now ≡ self.entry.text.now }
        ensures k { result.k ≡ self.entry.k }
        ensures place { result.place ≡ place }
        ensures count { result.count ≡ count }
    {
        Way {
            text: self.text,
            k: self.k,
            place,
            count,
        }
    }

    // Goes on byte by byte to a place, or to where more than k units have begun if that comes first.
    fn by_bytes(self, to: usize) -> Self
        requires order { self.place ≤ to }
        requires within { to ≤ length self.text.now }
        ensures text { result.text.now ≡ self.entry.text.now }
        ensures k { result.k ≡ self.entry.k }
        ensures within { result.place ≤ to }
        ensures stop { result.place < to → result.k < begun result.text.now (result.place + 1) }
    {
        let mut count = self.count;
        for (i, byte) in self.text[self.place..to].iter().enumerate() {
            let more = units(*byte);
            if count + more > self.k {
                let place = self.place + i;
                return self.at(place, count);
            }
            count += more;
        }
        self.at(to, count)
    }

    // Goes over rounds of rows that cannot pass unit k: a stretch begins at most one unit more than it has bytes, so a row
    // less than a sum takes.
    fn by_rounds<K: ByteChunk>(self) -> Self
        ensures text { result.text.now ≡ self.entry.text.now }
        ensures k { result.k ≡ self.entry.k }
    {
        let left = self.text.len() - self.place;
        let rows = ((self.k - self.count) / K::MAX_ACC).min(left / K::SIZE);
        let mut way = self;
        for first in (0..rows).step_by(K::MAX_ACC) {
            let n = (rows - first).min(K::MAX_ACC);
            let place = way.place + n * K::SIZE;
            let count = way.count + units_in_rows::<K>(way.text, way.place, n);
            way = way.at(place, count);
        }
        way
    }

    // Goes over single rows, as long as fewer than k units have begun.
    fn by_rows<K: ByteChunk>(self) -> Self
        ensures text { result.text.now ≡ self.entry.text.now }
        ensures k { result.k ≡ self.entry.k }
    {
        let mut way = self;
        // no `for`: a row that reaches k ends it, and the place moves with the count
        while way.text.len() - way.place >= K::SIZE {
            let place = way.place + K::SIZE;
            let count = way.count + units_in_rows::<K>(way.text, way.place, 1);
            if count >= way.k {
                break;
            }
            way = way.at(place, count);
        }
        way
    }
}

// Where the char of unit k begins.
pub fn start_of<K: ByteChunk>(text: Checked<'_>, k: usize, head: usize) -> usize
    ensures { result ≡ start unit_weight text.entry.bytes.now k }
{
    let head = head.min(text.len());
    let way = Way::new(text, k).by_bytes(head);
    if way.place < head {
        return way.place;
    }
    way.by_rounds::<K>()
        .by_rows::<K>()
        .by_bytes(text.len())
        .place
}
