// Lines by the breaks that end them: one measure for every table of breaks.
ghost use Rattle.std.specs.Prelude.{◌≡◌, ℕ, Bool, true, List};
ghost use Rattle.counted.specs.Linked.{Linked};
ghost use Rattle.measures.specs.Breaks.{broken, line_ends, line_weight, break_length};
ghost use Rattle.measures.specs.Lining.{all_proper, all_whole, line_lawful, line_breaks};

use cells::{LineMeasure, Measure};
use chunk::ByteChunk;
use counted::{Counted, sum};
use scan::Scan;
use utf8::Checked;

// A table of breaks, and the rule that counts each line they end once.
pub trait Breaks: Scan {
    // The breaks, each by its bytes.
    ghost table: { List (List ℕ) };

    // Whether a place lies inside a break that is counted before it, by the bytes before and after the place.
    ghost split: { ℕ → ℕ → Bool };

    // Whether a break ends at a place; none ends between CR and LF.
    fn break_ends(text: Checked<'_>, place: usize) -> bool
        ensures { result ≡ broken table text.entry.bytes.now place };

    // The length of the break that ends at a place; 0 where none does.
    fn length_at(text: Checked<'_>, place: usize) -> usize
        ensures { result ≡ break_length table text.entry.bytes.now place };

    fn splits(near: u8, byte: u8) -> bool
        ensures { result ≡ split near byte };

    // A break is a text of one to four bytes, none of them 00.
    ghost proper: { all_proper table ≡ true };

    // A break is one char of at most three bytes, or CR LF.
    ghost whole: { all_whole table ≡ true };

    ghost linked: { Linked Self.Scan.hit (line_weight table) split };
}

// The measure of lines that the breaks of a table end.
#[derive(Clone, Copy)]
pub struct Lined<B>(pub B);

impl<B: Breaks> Scan for Lined<B> {
    ghost hit = { B.hit };

    fn single(far: u8, near: u8, byte: u8) -> bool {
        B::single(far, near, byte)
    }

    fn flags<K: ByteChunk>(far: K, near: K, row: K) -> K {
        B::flags(far, near, row)
    }
}

impl<B: Breaks> Counted for Lined<B> {
    ghost ends = { line_ends B.table };

    ghost weight = { line_weight B.table };

    ghost split = { B.split };

    ghost lawful = { line_lawful B.table B.proper };

    ghost linked = { B.linked };

    fn splits(near: u8, byte: u8) -> bool {
        B::splits(near, byte)
    }
}

impl<B: Breaks> Measure for Lined<B> {
    ghost ends = { line_ends B.table };

    ghost weight = { line_weight B.table };

    ghost lawful = { line_lawful B.table B.proper };

    fn ends_at(&self, text: Checked<'_>, place: usize) -> bool {
        B::break_ends(text, place) || place > 0 && place == text.len()
    }

    fn weight_at(&self, text: Checked<'_>, place: usize) -> usize {
        B::break_ends(text, place) as usize
    }

    fn sum<K: ByteChunk>(&self, text: Checked<'_>, a: usize, b: usize, head: usize) -> usize {
        sum::<Lined<B>, K>(text, a, b, head)
    }
}

impl<B: Breaks> LineMeasure for Lined<B> {
    ghost break_length = { break_length B.table };

    ghost breaks = { line_breaks B.table B.proper B.whole };

    fn break_length_at(&self, text: Checked<'_>, place: usize) -> usize {
        B::length_at(text, place)
    }
}
