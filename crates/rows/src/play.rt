// One case on one chunk kind: each step is made only where its limits hold, and there is no answer elsewhere.
ghost use Rattle.std.specs.Prelude.{◌≡◌, ◌+◌, ◌<◌, ◌≤◌, true};
ghost use Rattle.std.specs.Simd.Lanes.{Each1, Each2};

use crate::case::Step;
use crate::kind::Shown;

// Whether every two lanes have a byte as their sum.
fn sums_fit<K: Shown>(a: K, b: K) -> bool
    ensures { result ≡ true → Each2 (λ x y. x + y < 256) (K.ByteChunk.lanes a) (K.ByteChunk.lanes b) }
{
    (0..K::SIZE).all(|i| a.shown(i) <= 255 - b.shown(i))
}

// Whether no lane of b is above that of a.
fn differences_fit<K: Shown>(a: K, b: K) -> bool
    ensures { result ≡ true → Each2 (λ x y. y ≤ x) (K.ByteChunk.lanes a) (K.ByteChunk.lanes b) }
{
    (0..K::SIZE).all(|i| b.shown(i) <= a.shown(i))
}

// Whether no lane is above what a sum takes.
fn lanes_fit<K: Shown>(a: K) -> bool
    ensures { result ≡ true → Each1 (λ x. x ≤ K.ByteChunk.MAX_ACC) (K.ByteChunk.lanes a) }
{
    (0..K::SIZE).all(|i| a.shown(i) as usize <= K::MAX_ACC)
}

fn loaded<K: Shown>(text: &[u8], place: usize) -> Option<K> {
    (place <= text.len() && text.len() - place >= K::SIZE).then(|| K::load(text, place))
}

fn moved_back<K: Shown>(row: K, n: usize) -> Option<K> {
    (n <= K::SIZE).then(|| row.shift_back_lex(n))
}

// The lower bits that `shr` fixes: its free top bits are masked.
fn lowered<K: Shown>(row: K, n: usize) -> Option<K> {
    (n < 8).then(|| row.shr(n).bitand(K::splat(255 >> n)))
}

fn between<K: Shown>(row: K, a: u8, b: u8) -> Option<K> {
    (a < b && b < 128).then(|| row.bytes_between_127(a, b))
}

fn added<K: Shown>(row: K, other: K) -> Option<K> {
    sums_fit(row, other).then(|| row.add(other))
}

fn lessened<K: Shown>(row: K, other: K) -> Option<K> {
    differences_fit(row, other).then(|| row.sub(other))
}

fn increased<K: Shown>(row: K, n: usize) -> Option<K> {
    (n < K::SIZE && row.shown(K::SIZE - 1 - n) < 255).then(|| row.inc_nth_from_end_lex_byte(n))
}

fn decreased<K: Shown>(row: K) -> Option<K> {
    (row.shown(K::SIZE.saturating_sub(1)) > 0).then(|| row.dec_last_lex_byte())
}

fn summed<K: Shown>(row: K) -> Option<usize> {
    lanes_fit(row).then(|| row.sum_bytes())
}

// These three compare a row, a flag and a sum with bytes, so no `==` is derived.
fn same_row<K: Shown>(row: Option<K>, expected: Option<&[u8]>) -> bool {
    match (row, expected) {
        (Some(row), Some(bytes)) => bytes.len() == K::SIZE
            && bytes
                .iter()
                .enumerate()
                .all(|(i, byte)| row.shown(i) == *byte),
        (None, None) => true,
        _ => false,
    }
}

// A flag is a byte, 1 or 0.
fn same_flag(flag: bool, expected: Option<&[u8]>) -> bool {
    match expected {
        Some([byte]) => *byte == flag as u8,
        _ => false,
    }
}

// A sum is two bytes, the upper first.
fn same_sum(sum: Option<usize>, expected: Option<&[u8]>) -> bool {
    match (sum, expected) {
        (Some(sum), Some([upper, lower])) => u16::from_be_bytes([*upper, *lower]) as usize == sum,
        (None, None) => true,
        _ => false,
    }
}

fn byte_at(bytes: &[u8], i: usize) -> u8 {
    bytes.get(i).copied().unwrap_or(0)
}

fn agrees_on_two<K: Shown>(step: Step, row: K, other: K, expected: Option<&[u8]>) -> bool {
    match step {
        Step::ShiftAcross => same_row(Some(row.shift_across(other)), expected),
        Step::BitAnd => same_row(Some(row.bitand(other)), expected),
        Step::Add => same_row(added(row, other), expected),
        Step::Sub => same_row(lessened(row, other), expected),
        _ => false,
    }
}

fn agrees_on_one<K: Shown>(step: Step, row: K, y: &[u8], expected: Option<&[u8]>) -> bool {
    let n = byte_at(y, 0);
    match step {
        Step::IsZero => same_flag(row.is_zero(), expected),
        Step::ShiftBackLex => same_row(moved_back(row, n as usize), expected),
        Step::Shr => same_row(lowered(row, n as usize), expected),
        Step::CmpEqByte => same_row(Some(row.cmp_eq_byte(n)), expected),
        Step::BytesBetween127 => same_row(between(row, n, byte_at(y, 1)), expected),
        Step::IncNthFromEnd => same_row(increased(row, n as usize), expected),
        Step::DecLast => same_row(decreased(row), expected),
        Step::SumBytes => same_sum(summed(row), expected),
        _ => match loaded(y, 0) {
            Some(other) => agrees_on_two(step, row, other, expected),
            None => false,
        },
    }
}

// Whether the kind answers the step on its operands as expected. A row is the first bytes of an operand.
// A match, and no closures: the steps take operands of different types, and some give no row back.
pub fn agrees<K: Shown>(step: Step, x: &[u8], y: &[u8], expected: Option<&[u8]>) -> bool {
    let n = byte_at(y, 0);
    match step {
        Step::Load => same_row(loaded::<K>(x, n as usize), expected),
        Step::Zero => same_row(Some(K::zero()), expected),
        Step::Splat => same_row(Some(K::splat(n)), expected),
        _ => match loaded::<K>(x, 0) {
            Some(row) => agrees_on_one(step, row, y, expected),
            None => false,
        },
    }
}
