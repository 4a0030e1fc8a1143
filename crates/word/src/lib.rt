// Eight bytes in a number of 64 bits, the first byte lowest.
#![tactic(auto)]

ghost use Rattle.std.specs.Prelude.{◌≡◌, slice_index};
ghost use Rattle.chunk.specs.Rows.{bytes_of};
ghost use Rattle.chunk.proofs.Digits.{bytes_row};
ghost use Rattle.std.proofs.Common.{rules};

use chunk::ByteChunk;

const SIZE: usize = 8;

const LAST: usize = SIZE - 1;

// 1 in every lane, the top bit of every lane, and every bit but those.
const ONES: u64 = u64::MAX / 0xff;

const HIGH: u64 = ONES << 7;

const LOW: u64 = !HIGH;

#[derive(Clone, Copy)]
pub struct Word {
    bits: u64,
}

impl Word {
    // The lane at a place, 0 past the last.
    pub fn lane(self, place: usize) -> u8
        ensures { result ≡ slice_index (bytes_of 8 self.bits) place }
    {
        self.bits.to_le_bytes().get(place).copied().unwrap_or(0)
    }
}

impl ByteChunk for Word {
    ghost lanes = { λ w. bytes_of 8 w.bits };

    const SIZE: usize = SIZE;

    ghost SIZE = { 8 };

    // Eight lanes of 31 sum up to 248, eight of 32 no longer fit the byte that `sum_bytes` reads.
    const MAX_ACC: usize = 31;

    ghost MAX_ACC = { 31 };

    ghost wide = { Prim.search rules };

    ghost above = { Prim.search rules };

    ghost within = { Prim.search rules };

    ghost row = { λ x. bytes_row 8 x.bits };

    fn load(text: &[u8], place: usize) -> Word {
        let mut bytes = [0; SIZE];
        bytes.copy_from_slice(&text[place..place + SIZE]);
        Word {
            bits: u64::from_le_bytes(bytes),
        }
    }

    fn zero() -> Word {
        Word { bits: 0 }
    }

    fn splat(n: u8) -> Word {
        Word {
            bits: ONES * n as u64,
        }
    }

    fn is_zero(self) -> bool {
        self.bits == 0
    }

    fn shift_back_lex(self, n: usize) -> Word {
        // A shift by every bit of the number leaves none.
        Word {
            bits: self.bits.unbounded_shr(n as u32 * 8),
        }
    }

    fn shift_across(self, other: Word) -> Word {
        Word {
            bits: (self.bits >> (LAST * 8)) | (other.bits << 8),
        }
    }

    fn shr(self, n: usize) -> Word {
        Word {
            bits: self.bits >> n,
        }
    }

    fn cmp_eq_byte(self, byte: u8) -> Word {
        // A lane is the byte where the rest is 0: its lower bits do not carry into the top bit, and that is not set.
        let rest = self.bits ^ (ONES * byte as u64);
        Word {
            bits: (!(((rest & LOW) + LOW) | rest) & HIGH) >> 7,
        }
    }

    fn bytes_between_127(self, a: u8, b: u8) -> Word {
        // What is asked shows in the top bit of each lane: below b, above a, and below 128.
        let low = self.bits & LOW;
        let under = ONES * (127 + b as u64) - low;
        let over = low + ONES * (127 - a as u64);
        Word {
            bits: ((under & !self.bits & over) & HIGH) >> 7,
        }
    }

    fn bitand(self, other: Word) -> Word {
        Word {
            bits: self.bits & other.bits,
        }
    }

    fn add(self, other: Word) -> Word {
        Word {
            bits: self.bits + other.bits,
        }
    }

    fn sub(self, other: Word) -> Word {
        Word {
            bits: self.bits - other.bits,
        }
    }

    fn inc_nth_from_end_lex_byte(self, n: usize) -> Word {
        Word {
            bits: self.bits + (1 << ((LAST - n) * 8)),
        }
    }

    fn dec_last_lex_byte(self) -> Word {
        Word {
            bits: self.bits - (1 << (LAST * 8)),
        }
    }

    fn sum_bytes(self) -> usize {
        // Byte k of the product is the sum of the lanes up to k, so none carries while the sum of all fits a byte.
        (self.bits.wrapping_mul(ONES) >> (LAST * 8)) as usize
    }
}
