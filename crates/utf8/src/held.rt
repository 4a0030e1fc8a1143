// A text that was checked: always well formed.
ghost use Rattle.std.specs.Prelude.{◌≡◌, true, None, [], length, MatchResult};
ghost use Rattle.utf8.specs.Checks.{Passed, Refused, Taken};
ghost use Rattle.utf8.specs.FirstFault.{first_fault, is_text};

use crate::checker::check;
use faults::check::Fault;

#[derive(Clone, Copy)]
pub struct Checked<'a> {
    bytes: &'a [u8],
    ghost sound: { is_text bytes.now ≡ true },
    ghost faultless: { first_fault bytes.now ≡ None },
}

impl<'a> Checked<'a> {
    // The empty text.
    pub fn new() -> Checked<'a>
        ensures { result.bytes.now ≡ [] }
    {
        Checked { bytes: &[] }
    }

    // Holds these bytes from now on, if they are a text, and says how many they are; else keeps what it held.
    pub fn check(&mut self, bytes: &'a [u8]) -> Result<usize, Fault>
        ensures { Taken bytes.now self.old.bytes.now result self.new.bytes.now }
    {
        *self = Checked::try_from(bytes)?;
        Ok(bytes.len())
    }

    pub fn len(&self) -> usize
        ensures { result ≡ length self.now.bytes.now }
    {
        self.bytes.len()
    }

    pub fn bytes(&self) -> &'a [u8]
        ensures value { result.now ≡ self.now.bytes.now }
        ensures sound { is_text result.now ≡ true }
    {
        self.bytes
    }
}

impl<'a> TryFrom<&'a [u8]> for Checked<'a> {
    type Error = Fault;

    ghost try_from_gives = { λ b r. MatchResult r (λ t. Passed b.now × (t.bytes.now ≡ b.now)) (λ f. Refused b.now f) };

    fn try_from(bytes: &'a [u8]) -> Result<Checked<'a>, Fault> {
        check(bytes)?;
        Ok(Checked { bytes })
    }
}
