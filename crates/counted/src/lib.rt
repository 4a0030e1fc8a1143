// Sums and starts, for every measure whose weights a rule counts.
#![tactic(auto)]

ghost use Rattle.std.specs.Prelude.{◌≡◌, ℕ, ◌-◌, Bool, List};
ghost use Rattle.cells.specs.Cells.{Lawful, index, count as weighed};
ghost use Rattle.counted.specs.Linked.{Linked, ahead};

pub mod seek;

use cells::bytes::byte_back;
use chunk::ByteChunk;
use scan::{Scan, count};
use utf8::Checked;

// A rule that counts each cell of a measure once.
pub trait Counted: Scan {
    ghost ends: { List ℕ → ℕ → Bool };

    ghost weight: { List ℕ → ℕ → ℕ };

    // Whether a place lies inside a cell that is counted before it, by the bytes before and after the place.
    ghost split: { ℕ → ℕ → Bool };

    fn splits(near: u8, byte: u8) -> bool
        ensures { result ≡ split near byte };

    ghost lawful: { Lawful ends weight };

    ghost linked: { Linked Self.Scan.hit weight split };
}

// What is counted before a place and has not ended there.
pub fn ahead_at<C: Counted>(text: &[u8], place: usize) -> usize
    ensures { result ≡ ahead C.Counted.split text.now place }
{
    C::splits(byte_back(text, 1, place), byte_back(text, 0, place)) as usize
}

// The summed weight of the cells that end after place a and at or before place b.
pub fn sum<C: Counted, K: ByteChunk>(text: Checked<'_>, a: usize, b: usize, head: usize) -> usize
    ensures { result ≡ index C.Counted.weight text.entry.bytes.now b - index C.Counted.weight text.entry.bytes.now a }
{
    let bytes = text.bytes();
    let to = b.min(bytes.len());
    if a >= to {
        return 0;
    }
    count::<C, K>(bytes, a, to, head) + ahead_at::<C>(bytes, a) - ahead_at::<C>(bytes, to)
}

// The index of a place.
pub fn index_of<C: Counted, K: ByteChunk>(text: Checked<'_>, place: usize, head: usize) -> usize
    ensures { result ≡ index C.Counted.weight text.entry.bytes.now place }
{
    sum::<C, K>(text, 0, place, head)
}

// The summed weight of all cells.
pub fn count_of<C: Counted, K: ByteChunk>(text: Checked<'_>, head: usize) -> usize
    ensures { result ≡ weighed C.Counted.weight text.entry.bytes.now }
{
    index_of::<C, K>(text, text.len(), head)
}
