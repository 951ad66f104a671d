//! How a run ended.

ghost use Rattle.std.specs.Prelude.{◌≡◌};
ghost use Rattle.run_parts.specs.Codes.{code_of};

/// How a run ended; the numbers are the exit codes.
#[derive(Clone, Copy, Debug, PartialEq, Eq)]
pub enum Status {
    /// The answer was written.
    Answered = 0,
    /// A limit was met, or the claim or the answer tree was rejected.
    Unanswered = 1,
    /// The input was refused.
    Refused = 2,
    /// The words of the command line ask for nothing.
    BadWords = 3,
    /// Memory was refused, or a device failed.
    Failed = 4,
}

impl Status {
    /// The exit code.
    pub fn code(self) -> u8
        ensures { result ≡ code_of self }
    {
        match self {
            Status::Answered => 0,
            Status::Unanswered => 1,
            Status::Refused => 2,
            Status::BadWords => 3,
            Status::Failed => 4,
        }
    }
}
