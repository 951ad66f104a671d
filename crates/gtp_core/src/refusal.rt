//! Why a command is refused.

ghost use Rattle.std.specs.Prelude.{◌≡◌};
ghost use Rattle.gtp_core.specs.Commands.{refusal_text};

/// Why a command is refused. The session is then as it was.
#[derive(Clone, Copy, Debug, PartialEq, Eq)]
pub enum Refusal {
    SyntaxError,
    UnknownCommand,
    UnacceptableSize,
    IllegalMove,
    CannotUndo,
    BadTargets,
    NoProblem,
}

impl Refusal {
    /// The text that is written for it.
    pub(crate) fn text(self) -> &'static [u8]
        ensures { result.now ≡ refusal_text self }
    {
        match self {
            Refusal::SyntaxError => b"syntax error",
            Refusal::UnknownCommand => b"unknown command",
            Refusal::UnacceptableSize => b"unacceptable size",
            Refusal::IllegalMove => b"illegal move",
            Refusal::CannotUndo => b"cannot undo",
            Refusal::BadTargets => b"bad targets",
            Refusal::NoProblem => b"no problem",
        }
    }
}
