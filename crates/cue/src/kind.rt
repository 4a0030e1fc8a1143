// The kinds of cues.
ghost use Rattle.std.specs.Prelude.{◌≡◌};
ghost use Rattle.cue.specs.Kinds.{number_of, size_of, Numbered};

use faults::cue::Cause;

// Each has its number, with which a record begins.
#[derive(Clone, Copy, Debug, PartialEq, Eq)]
pub enum Kind {
    Chars,
    Utf16,
    Lines,
    LinesCrlf,
    LinesLf,
    Column,
}

impl Kind {
    // How many bytes a record of the kind takes.
    pub fn size(self) -> usize
        ensures { result ≡ size_of self }
    {
        match self {
            Kind::Column => 9,
            _ => 5,
        }
    }
}

impl From<Kind> for u8 {
    ghost from_gives = { λ kind number. number ≡ number_of kind };

    fn from(kind: Kind) -> u8 {
        match kind {
            Kind::Chars => 1,
            Kind::Utf16 => 2,
            Kind::Lines => 3,
            Kind::LinesCrlf => 4,
            Kind::LinesLf => 5,
            Kind::Column => 6,
        }
    }
}

impl TryFrom<u8> for Kind {
    type Error = Cause;

    ghost try_from_gives = { Numbered };

    fn try_from(number: u8) -> Result<Kind, Cause> {
        match number {
            1 => Ok(Kind::Chars),
            2 => Ok(Kind::Utf16),
            3 => Ok(Kind::Lines),
            4 => Ok(Kind::LinesCrlf),
            5 => Ok(Kind::LinesLf),
            6 => Ok(Kind::Column),
            _ => Err(Cause::NoKind),
        }
    }
}
