// What a call is asked of.
ghost use Rattle.std.specs.Prelude.{◌≡◌, ℕ, List, None, Some, Option, refl, MatchResult};
ghost use Rattle.faults.specs.Layers.{CheckFault};
ghost use Rattle.utf8.specs.FirstFault.{first_fault};

use crate::held::Checked;
use faults::check::Fault;

// A text that was checked, or bytes that the call checks first.
pub trait Source<'a>: Copy {
    ghost bytes: { Self → List ℕ };

    // The first fault of the bytes, if they are no text.
    ghost fault: { Self → Option CheckFault };

    fn text(self) -> Result<Checked<'a>, Fault>
        ensures { MatchResult result (λ t. (fault self ≡ None) × (t.bytes.now ≡ bytes self)) (λ f. fault self ≡ Some f) };

    ghost first: { (s : Self) → first_fault (bytes s) ≡ fault s };
}

impl<'a> Source<'a> for Checked<'a> {
    ghost bytes = { λ t. t.bytes.now };

    ghost fault = { λ t. None };

    ghost first = { λ t. t.faultless };

    fn text(self) -> Result<Checked<'a>, Fault> {
        Ok(self)
    }
}

impl<'a> Source<'a> for &'a [u8] {
    ghost bytes = { λ b. b.now };

    ghost fault = { λ b. first_fault b.now };

    ghost first = { λ b. refl };

    fn text(self) -> Result<Checked<'a>, Fault> {
        Checked::try_from(self)
    }
}
