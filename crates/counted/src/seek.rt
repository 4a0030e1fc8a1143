// The start of an index: the head byte by byte, then rows as long as the start lies past them, then bytes again.
ghost use Rattle.std.specs.Prelude.{◌≡◌, ◌+◌, ◌*◌, ◌<◌, ◌≤◌, true, length};
ghost use Rattle.utf8.specs.FirstFault.{is_text};
ghost use Rattle.cells.specs.Cells.{index, start};
ghost use Rattle.counted.specs.Linked.{Reached};

use crate::Counted;
use cells::bytes::byte_back;
use chunk::ByteChunk;
use scan::round;
use std::marker::PhantomData;
use utf8::Checked;

// The way to where k begins: the place that it has come to, and what is counted before it.
// Each crate that finds a start has its own way: one for all would need a trait for the facts and their laws, no plainer.
#[derive(Drop)]
struct Way<'a, C: Counted> {
    text: &'a [u8],
    k: usize,
    place: usize,
    count: usize,
    rule: PhantomData<C>,
    ghost sound: { is_text text.now ≡ true },
    ghost reached: { Reached C.Scan.hit C.Counted.weight text.now k place count },
}

impl<'a, C: Counted> Way<'a, C> {
    // At the start of the text.
    fn new(text: Checked<'a>, k: usize) -> Self
        ensures text { result.text.now ≡ text.entry.bytes.now }
        ensures k { result.k ≡ k }
        ensures place { result.place ≡ 0 }
    {
        Way {
            text: text.bytes(),
            k,
            place: 0,
            count: 0,
            rule: PhantomData,
        }
    }

    // The same way, come to another place.
    fn at(self, place: usize, count: usize) -> Self
        requires { Reached C.Scan.hit C.Counted.weight self.text.now self.k place count }
        ensures text { result.text.now ≡ self.entry.text.now }
        ensures k { result.k ≡ self.entry.k }
        ensures place { result.place ≡ place }
    {
        Way {
            text: self.text,
            k: self.k,
            place,
            count,
            rule: PhantomData,
        }
    }

    // Goes on byte by byte to a place, or to where k has ended if that comes first.
    fn walk(self, to: usize) -> Self
        requires order { self.place ≤ to }
        requires within { to ≤ length self.text.now }
        ensures text { result.text.now ≡ self.entry.text.now }
        ensures k { result.k ≡ self.entry.k }
        ensures within { result.place ≤ to }
        ensures stop { result.place < to → index C.Counted.weight result.text.now result.place ≡ result.k }
    {
        let mut far = byte_back(self.text, 2, self.place);
        let mut near = byte_back(self.text, 1, self.place);
        let mut count = self.count;
        for (i, byte) in self.text[self.place..to].iter().enumerate() {
            if count - C::splits(near, *byte) as usize == self.k {
                let place = self.place + i;
                return self.at(place, count);
            }
            count += C::single(far, near, *byte) as usize;
            far = near;
            near = *byte;
        }
        self.at(to, count)
    }

    // How many rows to go over at once, of those that are left: so many that k is not passed, but at least so many.
    fn rows_at_once<K: ByteChunk>(&self, least: usize) -> usize
        requires some { 0 < least }
        requires few { least ≤ 4 }
        requires room { self.now.place + least * K.ByteChunk.SIZE ≤ length self.now.text.now }
        ensures some { 0 < result }
        ensures few { result ≤ K.ByteChunk.MAX_ACC }
        ensures room { self.now.place + result * K.ByteChunk.SIZE ≤ length self.now.text.now }
    {
        let left = self.text.len() - self.place;
        let need = self.k.saturating_sub(self.count).saturating_sub(1);
        (left.min(need) / K::SIZE).min(K::MAX_ACC).max(least)
    }

    // Goes over whole rows, at least so many at once, as long as fewer than k are counted. Inlined, so that the way of a
    // short call stays in registers.
    #[inline(always)]
    fn skip<K: ByteChunk>(self, least: usize) -> Self
        requires some { 0 < least }
        requires few { least ≤ 4 }
        ensures text { result.text.now ≡ self.entry.text.now }
        ensures k { result.k ≡ self.entry.k }
    {
        let mut way = self;
        // no `for`: how far each round goes shows only inside it
        while way.text.len() - way.place >= least * K::SIZE {
            let n = way.rows_at_once::<K>(least);
            let place = way.place + n * K::SIZE;
            let count = way.count + round::<C, K>(way.text, way.place, n);
            if count >= way.k {
                break;
            }
            way = way.at(place, count);
        }
        way
    }
}

// Where index k begins.
pub fn start_of<C: Counted, K: ByteChunk>(text: Checked<'_>, k: usize, head: usize) -> usize
    ensures { result ≡ start C.Counted.weight text.entry.bytes.now k }
{
    let head = head.min(text.len());
    let way = Way::<C>::new(text, k).walk(head);
    if way.place < head {
        return way.place;
    }
    way.skip::<K>(4).skip::<K>(1).walk(text.len()).place
}
