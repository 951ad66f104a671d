//! The names of the commands.

ghost use Rattle.std.specs.Prelude.{◌≡◌};
ghost use Rattle.gtp_core.specs.Commands.{name_of};

/// A command, by its name. The names are in the order in which they are listed.
#[derive(Clone, Copy, Debug, PartialEq, Eq)]
pub enum CommandName {
    ProtocolVersion,
    Name,
    Version,
    KnownCommand,
    ListCommands,
    Quit,
    Boardsize,
    ClearBoard,
    Komi,
    Play,
    Genmove,
    Undo,
    Showboard,
    TsuTarget,
    TsuRegion,
    TsuSolve,
    TsuWithin,
}

/// The command with this name.
pub(crate) fn name_of(word: &[u8]) -> Option<CommandName>
    ensures { result ≡ name_of word.now }
{
    if word == b"protocol_version".as_slice() {
        Some(CommandName::ProtocolVersion)
    } else if word == b"name".as_slice() {
        Some(CommandName::Name)
    } else if word == b"version".as_slice() {
        Some(CommandName::Version)
    } else if word == b"known_command".as_slice() {
        Some(CommandName::KnownCommand)
    } else if word == b"list_commands".as_slice() {
        Some(CommandName::ListCommands)
    } else if word == b"quit".as_slice() {
        Some(CommandName::Quit)
    } else if word == b"boardsize".as_slice() {
        Some(CommandName::Boardsize)
    } else if word == b"clear_board".as_slice() {
        Some(CommandName::ClearBoard)
    } else if word == b"komi".as_slice() {
        Some(CommandName::Komi)
    } else if word == b"play".as_slice() {
        Some(CommandName::Play)
    } else if word == b"genmove".as_slice() {
        Some(CommandName::Genmove)
    } else if word == b"undo".as_slice() {
        Some(CommandName::Undo)
    } else if word == b"showboard".as_slice() {
        Some(CommandName::Showboard)
    } else if word == b"tsu-target".as_slice() {
        Some(CommandName::TsuTarget)
    } else if word == b"tsu-region".as_slice() {
        Some(CommandName::TsuRegion)
    } else if word == b"tsu-solve".as_slice() {
        Some(CommandName::TsuSolve)
    } else if word == b"tsu-within".as_slice() {
        Some(CommandName::TsuWithin)
    } else {
        None
    }
}
