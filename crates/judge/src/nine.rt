//! Nine small sheets whose verdicts are shown from the definitions alone.
ghost use Rattle.std.specs.Prelude.{◌≡◌, length};
ghost use Rattle.judge.specs.Examples.{nine, AllRight};

/// How many small sheets stand in the table. Each has two verdicts there, by parts with full right 2 and by once, and
/// each is right: it is the first fault that the rules of refusal name, and the typing rules accept the sheet exactly
/// where it passes.
pub fn nine_sheets() -> usize
    ensures count { result ≡ length nine }
    ensures verdicts { AllRight }
{
    9
}
