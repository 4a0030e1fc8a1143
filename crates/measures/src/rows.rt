// Flags of the bytes of a row.
ghost use Rattle.std.specs.Prelude.{◌≡◌, map};
ghost use Rattle.std.specs.Simd.Lanes.{zip2};
ghost use Rattle.measures.specs.Counts.{masked, pair};

use chunk::ByteChunk;

// 1 at each byte that has these bits under a mask, 0 at any other.
#[tactic(auto, using(crate::proofs::Flags::masked_lanes))]
pub fn masked<K: ByteChunk>(row: K, mask: u8, bits: u8) -> K
    ensures { K.ByteChunk.lanes result ≡ map (masked mask bits) (K.ByteChunk.lanes row) }
{
    row.bitand(K::splat(mask)).cmp_eq_byte(bits)
}

// 1 at each byte `second` that stands right after a byte `first`, 0 at any other; the row `near` lies one byte before.
#[tactic(auto, using(crate::proofs::Flags::paired))]
pub fn pairs<K: ByteChunk>(near: K, first: u8, row: K, second: u8) -> K
    ensures { K.ByteChunk.lanes result ≡ zip2 (pair first second) (K.ByteChunk.lanes near) (K.ByteChunk.lanes row) }
{
    near.cmp_eq_byte(first).bitand(row.cmp_eq_byte(second))
}
