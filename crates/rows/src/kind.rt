// A chunk kind whose lanes can be looked at.
ghost use Rattle.std.specs.Prelude.{◌≡◌, slice_index};

use chunk::ByteChunk;
use lanes::Lanes16;
use word::Word;

pub trait Shown: ByteChunk {
    // The lane at a place, 0 past the last.
    fn shown(self, place: usize) -> u8
        ensures { result ≡ slice_index (Self.ByteChunk.lanes self) place };
}

impl Shown for Word {
    fn shown(self, place: usize) -> u8 {
        self.lane(place)
    }
}

impl Shown for Lanes16 {
    fn shown(self, place: usize) -> u8 {
        self.lane(place)
    }
}
