// The numbers that document 01 gives to the answers, and that of the version.
#![tactic(auto)]

ghost use Rattle.std.specs.Prelude.{◌≡◌};
ghost use Rattle.definitions.specs.Answers.{outcome_number, version};

use definitions::Refusal;

// The number of what is done or refused: 0 where nothing is refused.
pub fn outcome(x: Result<(), Refusal>) -> u32
    ensures { result ≡ outcome_number x }
{
    match x {
        Ok(()) => 0,
        Err(r) => u32::from(r),
    }
}

// The version of the engine, as one number.
pub fn of_version() -> u32
    ensures { result ≡ version }
{
    9006000
}
