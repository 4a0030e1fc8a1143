// What every call asks of its head and of its text.
ghost use Rattle.std.specs.Prelude.{◌≡◌, ◌<◌, ◌≤◌, MatchResult};
ghost use Rattle.str_indices.specs.Answers.{head_fault, Admitted, Declined};

use chunk::ByteChunk;
use faults::count::{Cause, Fault};
use utf8::{Checked, Source};

// Refuses a head that is not below the number of lanes.
fn head_below<K: ByteChunk>(head: usize) -> Result<(), Fault>
    ensures { MatchResult result (λ _. head < K.SIZE) (λ f. (K.SIZE ≤ head) × (f ≡ head_fault head)) }
{
    if head >= K::SIZE {
        return Err(Fault {
            place: head,
            cause: Cause::Head,
        });
    }
    Ok(())
}

// The text of a call, if its head is below the number of lanes and it is one.
pub fn admit<'a, K: ByteChunk, T: Source<'a>>(text: T, head: usize) -> Result<Checked<'a>, Fault>
    ensures { MatchResult result (λ t. Admitted K.SIZE head (T.fault text) (T.bytes text) t.bytes.now) (λ f. Declined K.SIZE head (T.fault text) f) }
{
    head_below::<K>(head)?;
    Ok(text.text()?)
}
