// Worked examples of the definitions.
ghost use Rattle.utf8.specs.Examples.{Examples};

// The examples hold.
pub fn hold() -> u8
    ensures { Examples }
{
    0
}
