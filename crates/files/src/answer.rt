// Answers of tests in a row: the first refusal stands.
ghost use Rattle.std.specs.Prelude.{◌≡◌};
ghost use Rattle.files.specs.Reading.{test, or_else};

use crate::Refusal;

// The number at place 0 where the test fails.
pub fn test(number: u64, holds: bool) -> Result<(), Refusal>
    ensures { result ≡ test number holds }
{
    if holds {
        Ok(())
    } else {
        Err(Refusal { number, place: 0 })
    }
}

// The earlier answer where it is a refusal.
pub fn or_else(earlier: Result<(), Refusal>, later: Result<(), Refusal>) -> Result<(), Refusal>
    ensures { result ≡ or_else earlier later }
{
    match earlier {
        Ok(()) => later,
        Err(_) => earlier,
    }
}
