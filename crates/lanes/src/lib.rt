// Sixteen bytes in an array, worked on one by one.
#![tactic(auto)]

ghost use Rattle.std.specs.Prelude.{◌≡◌, ℕ, ◌<◌, true, length, get_or, slice_index};
ghost use Rattle.chunk.specs.Rows.{is_row};
ghost use Rattle.chunk.proofs.Rows.{row_of};
ghost use Rattle.std.proofs.Common.{rules};

use chunk::ByteChunk;
use std::array;

const SIZE: usize = 16;

const LAST: usize = SIZE - 1;

#[derive(Clone, Copy)]
pub struct Lanes16 {
    bytes: [u8; SIZE],
    ghost row: { is_row 16 bytes ≡ true },
}

impl Lanes16 {
    // The row of sixteen bytes.
    fn of(row: &[u8]) -> Lanes16
        requires { length row.now ≡ 16 }
        ensures { result.bytes ≡ row.now }
    {
        let mut bytes = [0; SIZE];
        bytes.copy_from_slice(row);
        Lanes16 { bytes }
    }

    // The row whose lanes a function gives by their places.
    fn from_fn<F: Fn(usize) -> u8>(f: F) -> Lanes16
        requires { (i : ℕ) → i < 16 → F.pre f i }
        ensures { (i : ℕ) → i < 16 → F.post f i (slice_index result.bytes i) }
    {
        let bytes: [u8; SIZE] = array::from_fn(f);
        Lanes16::of(&bytes)
    }

    // The lane at a place, 0 past the last.
    pub fn lane(self, place: usize) -> u8
        ensures { result ≡ get_or self.bytes place 0 }
    {
        self.bytes.get(place).copied().unwrap_or(0)
    }
}

impl ByteChunk for Lanes16 {
    ghost lanes = { λ x. x.bytes };

    const SIZE: usize = SIZE;

    ghost SIZE = { 16 };

    const MAX_ACC: usize = 31;

    ghost MAX_ACC = { 31 };

    ghost wide = { Prim.search rules };

    ghost above = { Prim.search rules };

    ghost within = { Prim.search rules };

    ghost row = { λ x. row_of x.row };

    fn load(text: &[u8], place: usize) -> Lanes16 {
        Lanes16::of(&text[place..place + SIZE])
    }

    fn zero() -> Lanes16 {
        Lanes16 { bytes: [0; SIZE] }
    }

    fn splat(n: u8) -> Lanes16 {
        Lanes16 { bytes: [n; SIZE] }
    }

    fn is_zero(self) -> bool {
        self.bytes == [0; SIZE]
    }

    fn shift_back_lex(self, n: usize) -> Lanes16 {
        Lanes16::from_fn(|i| self.lane(i + n))
    }

    fn shift_across(self, other: Lanes16) -> Lanes16 {
        // no `from_fn`, which asks at each lane whether it is the first
        let mut bytes = [self.bytes[LAST]; SIZE];
        bytes[1..].copy_from_slice(&other.bytes[..LAST]);
        Lanes16 { bytes }
    }

    fn shr(self, n: usize) -> Lanes16 {
        Lanes16::from_fn(|i| self.bytes[i] >> n)
    }

    fn cmp_eq_byte(self, byte: u8) -> Lanes16 {
        Lanes16::from_fn(|i| (self.bytes[i] == byte) as u8)
    }

    fn bytes_between_127(self, a: u8, b: u8) -> Lanes16 {
        Lanes16::from_fn(|i| ((a < self.bytes[i]) & (self.bytes[i] < b)) as u8)
    }

    fn bitand(self, other: Lanes16) -> Lanes16 {
        Lanes16::from_fn(|i| self.bytes[i] & other.bytes[i])
    }

    fn add(self, other: Lanes16) -> Lanes16 {
        Lanes16::from_fn(|i| self.bytes[i] + other.bytes[i])
    }

    fn sub(self, other: Lanes16) -> Lanes16 {
        Lanes16::from_fn(|i| self.bytes[i] - other.bytes[i])
    }

    fn inc_nth_from_end_lex_byte(self, n: usize) -> Lanes16 {
        let mut bytes = self.bytes;
        bytes[LAST - n] += 1;
        Lanes16 { bytes }
    }

    fn dec_last_lex_byte(self) -> Lanes16 {
        let mut bytes = self.bytes;
        bytes[LAST] -= 1;
        Lanes16 { bytes }
    }

    fn sum_bytes(self) -> usize {
        self.bytes.iter().map(|lane| *lane as usize).sum()
    }
}
