//! Which byte may follow which, as a table of states and signs.

ghost use Rattle.std.specs.Prelude.{◌≡◌};
ghost use Rattle.sgf_text.specs.Bytes.{sign_of};
ghost use Rattle.sgf_text.specs.Followers.{transition, part};

/// What a byte of a text is to the format.
#[derive(Clone, Copy, Debug, PartialEq, Eq)]
pub enum Sign {
    White,
    Upper,
    Lower,
    OpenRound,
    CloseRound,
    Semicolon,
    OpenSquare,
    CloseSquare,
    Backslash,
    Other,
}

/// What was read last, apart from white space.
#[derive(Clone, Copy, Debug, PartialEq, Eq)]
pub enum ParserState {
    AfterOpen,
    AfterSemicolon,
    /// Inside a name, which has an upper-case letter or none yet.
    InIdent(bool),
    AfterIdent,
    InValue,
    AfterBackslash,
    AfterValue,
    AfterChild,
}

/// What a byte does in a state: it opens a tree, begins a node, closes a tree, leads on, or is not allowed.
#[derive(Clone, Copy, Debug, PartialEq, Eq)]
pub enum Transition {
    Opens,
    Begins,
    Closes,
    To(ParserState),
    Refused,
}

/// The sign of a byte.
pub fn sign_of(byte: u8) -> Sign
    ensures { result ≡ sign_of byte }
{
    match byte {
        9..=13 | b' ' => Sign::White,
        b'A'..=b'Z' => Sign::Upper,
        b'a'..=b'z' => Sign::Lower,
        b'(' => Sign::OpenRound,
        b')' => Sign::CloseRound,
        b';' => Sign::Semicolon,
        b'[' => Sign::OpenSquare,
        b']' => Sign::CloseSquare,
        b'\\' => Sign::Backslash,
        _ => Sign::Other,
    }
}

/// What may come after the ";" of a node or after a value: a letter, ";", "(" or ")".
fn part(sign: Sign) -> Transition
    ensures { result ≡ part sign }
{
    match sign {
        Sign::Upper => Transition::To(ParserState::InIdent(true)),
        Sign::Lower => Transition::To(ParserState::InIdent(false)),
        Sign::Semicolon => Transition::Begins,
        Sign::OpenRound => Transition::Opens,
        Sign::CloseRound => Transition::Closes,
        _ => Transition::Refused,
    }
}

/// What a byte does in a state.
pub fn follow(state: ParserState, sign: Sign) -> Transition
    ensures { result ≡ transition state sign }
{
    match (state, sign) {
        (ParserState::InValue, Sign::Backslash) => Transition::To(ParserState::AfterBackslash),
        (ParserState::InValue, Sign::CloseSquare) => Transition::To(ParserState::AfterValue),
        (ParserState::InValue, _) | (ParserState::AfterBackslash, _) => Transition::To(
            ParserState::InValue,
        ),
        (ParserState::InIdent(_), Sign::Upper) => Transition::To(ParserState::InIdent(true)),
        (ParserState::InIdent(has_upper), Sign::Lower) => Transition::To(ParserState::InIdent(
            has_upper,
        )),
        (ParserState::InIdent(true), Sign::White) => Transition::To(ParserState::AfterIdent),
        (ParserState::InIdent(false), _) => Transition::Refused,
        (_, Sign::White) => Transition::To(state),
        (
            ParserState::InIdent(true) | ParserState::AfterIdent | ParserState::AfterValue,
            Sign::OpenSquare,
        ) => Transition::To(ParserState::InValue),
        (ParserState::AfterSemicolon | ParserState::AfterValue, _) => part(sign),
        (ParserState::AfterOpen, Sign::Semicolon) => Transition::Begins,
        (ParserState::AfterChild, Sign::OpenRound) => Transition::Opens,
        (ParserState::AfterChild, Sign::CloseRound) => Transition::Closes,
        _ => Transition::Refused,
    }
}
