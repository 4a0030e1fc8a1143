// Worked examples of the five measures.
ghost use Rattle.std.specs.Prelude.{◌≡◌, true};
ghost use Rattle.measures.specs.Examples.{examples};

// The examples hold of the cells.
pub fn hold() -> u8
    ensures { examples ≡ true }
{
    0
}
