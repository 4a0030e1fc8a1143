// A chunk: a row of bytes that is worked on at once. Routines are written once, above this trait.
#![tactic(auto)]

ghost use Rattle.std.specs.Prelude.{◌≡◌, ℕ, ◌+◌, ◌-◌, ◌<◌, ◌≤◌, List, map, length, replicate, bit_and, slice_index};
ghost use Rattle.std.specs.Simd.Lanes.{zip2, Each1, Each2, chunk, sum_l};
ghost use Rattle.chunk.specs.Rows.{Row, all_zero, is_byte, is_between, moved_back, moved_across, upper_bits, without_top, at_lane};

pub trait ByteChunk: Copy {
    // The bytes of the row, in text order.
    ghost lanes: { Self → List ℕ };

    // How many bytes a row has.
    const SIZE: usize;

    ghost SIZE: { ℕ };

    // The largest lane that `sum_bytes` takes: so many rows of flags may be added up before a sum.
    const MAX_ACC: usize;

    ghost MAX_ACC: { ℕ };

    // The next `SIZE` bytes of the text at a place.
    fn load(text: &[u8], place: usize) -> Self
        requires { place + SIZE ≤ length text.now }
        ensures { lanes result ≡ chunk place SIZE text.now };

    // 0 in every lane.
    fn zero() -> Self
        ensures { lanes result ≡ replicate SIZE 0 };

    // The byte n in every lane.
    fn splat(n: u8) -> Self
        ensures { lanes result ≡ replicate SIZE n };

    // Whether every lane is 0.
    fn is_zero(self) -> bool
        ensures { result ≡ all_zero (lanes self) };

    // Lane i becomes the old lane i + n, or 0 where there is none.
    fn shift_back_lex(self, n: usize) -> Self
        requires { n ≤ SIZE }
        ensures { lanes result ≡ moved_back n (lanes self) };

    // The last lane of self, then the lanes of other without its last.
    fn shift_across(self, other: Self) -> Self
        ensures { lanes result ≡ moved_across SIZE (lanes self) (lanes other) };

    // Each lane's bits n places lower. The top n bits of a lane are free: mask them before use.
    fn shr(self, n: usize) -> Self
        requires { n < 8 }
        ensures { without_top n (lanes result) ≡ upper_bits n (lanes self) };

    // 1 at each lane that is the byte, 0 at the others.
    fn cmp_eq_byte(self, byte: u8) -> Self
        ensures { lanes result ≡ map (is_byte byte) (lanes self) };

    // 1 at each lane strictly between a and b, 0 at the others, those from 128 up among them.
    fn bytes_between_127(self, a: u8, b: u8) -> Self
        requires { (a < b) × (b ≤ 127) }
        ensures { lanes result ≡ map (is_between a b) (lanes self) };

    // The bits that both lanes have.
    fn bitand(self, other: Self) -> Self
        ensures { lanes result ≡ zip2 bit_and (lanes self) (lanes other) };

    // The sum of each two lanes, where each is a byte.
    fn add(self, other: Self) -> Self
        requires { Each2 (λ x y. x + y < 256) (lanes self) (lanes other) }
        ensures { lanes result ≡ zip2 (λ x y. x + y) (lanes self) (lanes other) };

    // The difference of each two lanes, where none is below 0.
    fn sub(self, other: Self) -> Self
        requires { Each2 (λ x y. y ≤ x) (lanes self) (lanes other) }
        ensures { lanes result ≡ zip2 (λ x y. x - y) (lanes self) (lanes other) };

    // One more in the lane that is n before the last, where that is a byte.
    fn inc_nth_from_end_lex_byte(self, n: usize) -> Self
        requires { (n < SIZE) × (slice_index (lanes self) (SIZE - 1 - n) < 255) }
        ensures { lanes result ≡ at_lane (SIZE - 1 - n) (λ x. x + 1) (lanes self) };

    // One less in the last lane, where that is not below 0.
    fn dec_last_lex_byte(self) -> Self
        requires { 0 < slice_index (lanes self) (SIZE - 1) }
        ensures { lanes result ≡ at_lane (SIZE - 1) (λ x. x - 1) (lanes self) };

    // The sum of all lanes, where none is above `MAX_ACC`.
    fn sum_bytes(self) -> usize
        requires { Each1 (λ x. x ≤ MAX_ACC) (lanes self) }
        ensures { result ≡ sum_l (lanes self) };

    // A row has at least four lanes.
    ghost wide: { 4 ≤ SIZE };

    // A lane has room to count every lane of a row, and one more.
    ghost above: { SIZE < MAX_ACC };

    // What `sum_bytes` takes fits a byte.
    ghost within: { MAX_ACC ≤ 255 };

    // Every chunk is a row of `SIZE` bytes.
    ghost row: { (x : Self) → Row SIZE (lanes x) };
}
