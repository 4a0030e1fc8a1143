// What a fault tells besides its place.

// The layer that found the fault.
#[derive(Clone, Copy, Debug, PartialEq, Eq)]
pub enum Layer {
    Check,
    Count,
    Script,
    Cue,
}

#[derive(Clone, Copy, Debug, PartialEq, Eq)]
pub struct Refusal {
    // a number and no enum: it is what users read, and causes already name the rest
    pub number: u8,
    pub layer: Layer,
}
