// The count by chunks, written once for every chunk kind and every rule on a byte and the two before it.
#![tactic(auto)]

ghost use Rattle.std.specs.Prelude.{◌≡◌, ◌+◌, ◌-◌, ◌*◌, ◌<◌, ◌≤◌, ◌++◌, length, replicate, slice_index};
ghost use Rattle.scan.specs.Marks.{Rule, mark, zip3, counted};
ghost use Rattle.scan.specs.Rounds.{Added};

use chunk::ByteChunk;

// A rule that says which bytes of a text count. What it looks at goes apart, and not as one struct: most rules look at one
// or two of the three.
pub trait Scan: Copy {
    // Whether a byte counts, by the second byte before it, the one before it, and itself; 0 stands before the text.
    ghost hit: { Rule };

    fn single(far: u8, near: u8, byte: u8) -> bool
        ensures { result ≡ hit far near byte };

    // 1 at each byte of a row that counts, 0 at any other; the other two rows lie two bytes and one byte before it.
    fn flags<K: ByteChunk>(far: K, near: K, row: K) -> K
        ensures { K.ByteChunk.lanes result ≡ zip3 (mark hit) (K.ByteChunk.lanes far) (K.ByteChunk.lanes near) (K.ByteChunk.lanes row) };
}

// The byte some places before a place, 0 where there is none.
fn byte_before(text: &[u8], place: usize, back: usize) -> u8
    requires some { 0 < back }
    requires within { place ≤ length text.now }
    ensures { result ≡ slice_index (replicate back 0 ++ text.now) place }
{
    // By `get` it was slower, since the place is tested at each round: chars on sixteen lanes took 24.3 ms in place of 18.4.
    if place < back { 0 } else { text[place - back] }
}

// The count from a place to another, byte by byte.
fn singly<S: Scan>(text: &[u8], from: usize, to: usize) -> usize
    requires order { from ≤ to }
    requires within { to ≤ length text.now }
    ensures { result ≡ counted S.Scan.hit text.now from (to - from) }
{
    let mut far = byte_before(text, from, 2);
    let mut near = byte_before(text, from, 1);
    let mut count: usize = 0;
    for byte in &text[from..to] {
        count += S::single(far, near, *byte) as usize;
        far = near;
        near = *byte;
    }
    count
}

// The rows of a round so far: their flags added up, the last of them, and the row one byte before that.
#[derive(Clone, Copy)]
struct Rows<K> {
    sums: K,
    older: K,
    last: K,
}

impl<K: ByteChunk> Rows<K> {
    // No row yet, and the bytes before a place.
    fn before(text: &[u8], place: usize) -> Rows<K>
        requires { place ≤ length text.now }
        ensures { (hit : Rule) → Added hit text.now K.ByteChunk.SIZE place 0 (K.ByteChunk.lanes result.sums) (K.ByteChunk.lanes result.older) (K.ByteChunk.lanes result.last) }
    {
        Rows {
            sums: K::zero(),
            older: K::splat(byte_before(text, place, 2)),
            last: K::splat(byte_before(text, place, 1)),
        }
    }

    // Adds the flags of row i of those from a place on.
    fn add<S: Scan>(self, text: &[u8], from: usize, i: usize) -> Rows<K>
        requires room { from + (i + 1) * K.ByteChunk.SIZE ≤ length text.now }
        requires few { i < K.ByteChunk.MAX_ACC }
        requires so { Added S.Scan.hit text.now K.ByteChunk.SIZE from i (K.ByteChunk.lanes self.sums) (K.ByteChunk.lanes self.older) (K.ByteChunk.lanes self.last) }
        ensures { Added S.Scan.hit text.now K.ByteChunk.SIZE from (i + 1) (K.ByteChunk.lanes result.sums) (K.ByteChunk.lanes result.older) (K.ByteChunk.lanes result.last) }
    {
        let row = K::load(text, from + i * K::SIZE);
        let near = self.last.shift_across(row);
        let far = self.older.shift_across(near);
        let found = S::flags(far, near, row);
        Rows {
            sums: self.sums.add(found),
            older: near,
            last: row,
        }
    }
}

// A round: the count in n whole rows from a place on, with one sum at the end. No struct has text, place and number of rows:
// each round would have to make one anew, and show that it fits.
pub fn round<S: Scan, K: ByteChunk>(text: &[u8], from: usize, n: usize) -> usize
    requires few { n ≤ K.ByteChunk.MAX_ACC }
    requires room { from + n * K.ByteChunk.SIZE ≤ length text.now }
    ensures { result ≡ counted S.Scan.hit text.now from (n * K.ByteChunk.SIZE) }
{
    let mut rows = Rows::<K>::before(text, from);
    // A `for` over the fours was tried: on words, CR LF then takes 1.4 times as long.
    let mut done: usize = 0;
    while n - done >= 4 {
        rows = rows.add::<S>(text, from, done);
        rows = rows.add::<S>(text, from, done + 1);
        rows = rows.add::<S>(text, from, done + 2);
        rows = rows.add::<S>(text, from, done + 3);
        done += 4;
    }
    for i in done..n {
        rows = rows.add::<S>(text, from, i);
    }
    rows.sums.sum_bytes()
}

// How many of the rows in the bytes that are left go into one round: as many fours as a sum can take, while there are so many.
fn round_len(left: usize, size: usize, most: usize) -> usize
    requires some { 0 < size }
    requires room { size ≤ left }
    requires four { 4 ≤ most }
    ensures some { 0 < result }
    ensures few { result ≤ most }
    ensures fits { result * size ≤ left }
{
    (left / size).min(most - most % 4)
}

// The count from a place to another: the first `head` bytes singly, then whole rows, and the rest singly.
pub fn count<S: Scan, K: ByteChunk>(text: &[u8], from: usize, to: usize, head: usize) -> usize
    requires order { from ≤ to }
    requires within { to ≤ length text.now }
    ensures { result ≡ counted S.Scan.hit text.now from (to - from) }
{
    let size = K::SIZE;
    let start = from + head.min(to - from);
    let mut count = singly::<S>(text, from, start);
    let mut place = start;
    // Rounds by a `for` with `step_by` were tried: counting chars on sixteen lanes then takes a sixth longer.
    while to - place >= size {
        let n = round_len(to - place, size, K::MAX_ACC);
        count += round::<S, K>(text, place, n);
        place += n * size;
    }
    count + singly::<S>(text, place, to)
}
