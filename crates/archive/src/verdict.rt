// The archive's verdicts, each with its number. None of them is a return code.

ghost use Rattle.std.specs.Prelude.{◌≡◌};
ghost use Rattle.archive.specs.Verdict.{verdict_number};

#[derive(Clone, Copy, PartialEq, Eq, Debug)]
pub enum Verdict {
    Accepted = 0,
    Full = 50,
    Trailer = 51,
    Records = 52,
    NoMessage = 53,
    NoRecord = 54,
}

impl Verdict {
    // The verdict's number.
    pub fn number(self) -> u8
        ensures { result ≡ verdict_number self }
    {
        self as u8
    }
}
