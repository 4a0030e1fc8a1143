// Bytes near a place.
ghost use Rattle.std.specs.Prelude.{◌≡◌};
ghost use Rattle.cells.specs.Near.{back};

// The byte some places before a place, with 0 the one after it; 0 where there is none.
#[tactic(auto, using(crate::proofs::Near::back_in, crate::proofs::Near::back_out))]
pub fn byte_back(text: &[u8], places: usize, place: usize) -> u8
    ensures { result ≡ back places text.now place }
{
    match place.checked_sub(places) {
        Some(at) => text.get(at).copied().unwrap_or(0),
        None => 0,
    }
}
