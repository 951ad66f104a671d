//! What the words of a line ask for.

ghost use Rattle.std.specs.Prelude.{◌≡◌};
ghost use Rattle.gtp_core.specs.Commands.{said, truth};

use go_points::{Colour, PointSet, Size, Vertex};

/// What is answered whatever the session is.
#[derive(Clone, Copy, Debug, PartialEq, Eq)]
pub enum Saying {
    Nothing,
    ProtocolVersion,
    Name,
    Version,
    Yes,
    No,
    Names,
}

/// What the words of a line ask for.
#[derive(Clone, Copy, Debug)]
pub enum Command {
    Say(Saying),
    Quit,
    NewBoard(Size),
    ClearBoard,
    Play(Colour, Vertex),
    Genmove(Colour),
    Undo,
    Showboard,
    /// Sets the targets. An empty set means no targets.
    SetTargets(PointSet),
    SetRegion(PointSet),
    Solve(Colour),
    Within(u32),
}

impl Saying {
    /// Yes or no.
    pub(crate) fn truth(yes: bool) -> Saying
        ensures { result ≡ truth yes }
    {
        if yes { Saying::Yes } else { Saying::No }
    }

    /// The text.
    pub(crate) fn text(self) -> &'static [u8]
        ensures { result.now ≡ said self }
    {
        match self {
            Saying::Nothing => b"",
            Saying::ProtocolVersion => b"2",
            Saying::Name => b"tsumego",
            Saying::Version => b"1",
            Saying::Yes => b"true",
            Saying::No => b"false",
            Saying::Names =>
                b"protocol_version\nname\nversion\nknown_command\nlist_commands\nquit\nboardsize\nclear_board\nkomi\nplay\ngenmove\nundo\nshowboard\ntsu-target\ntsu-region\ntsu-solve\ntsu-within",
        }
    }
}
