// Bytes near a place, and those that break lines.
ghost use Rattle.std.specs.Prelude.{◌≡◌};
ghost use Rattle.measures.specs.Breaks.{CRLF, ends_at};
ghost use Rattle.measures.specs.Counts.{in_break};

pub use cells::bytes::byte_back;

pub const LF: u8 = 0x0A;

pub const VT: u8 = 0x0B;

pub const FF: u8 = 0x0C;

pub const CR: u8 = 0x0D;

// Whether CR LF stands right before a place.
pub fn crlf_before(text: &[u8], place: usize) -> bool
    ensures { result ≡ ends_at CRLF text.now place }
{
    byte_back(text, 2, place) == CR && byte_back(text, 1, place) == LF
}

// Whether a place lies between CR and LF, by the bytes before and after it.
pub fn in_crlf(before: u8, after: u8) -> bool
    ensures { result ≡ in_break before after }
{
    before == CR && after == LF
}
