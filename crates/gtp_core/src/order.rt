//! What the words of a line ask for.

ghost use Rattle.std.specs.Prelude.{◌≡◌, ◌∷◌, ℕ, [], drop, IfOk, IfSome, Ok, Some, is_some};
ghost use Rattle.std.specs.List.{All};
ghost use Rattle.go_points.specs.Gtp.{vertex_named};
ghost use Rattle.go_points.specs.Place.{IsOn};
ghost use Rattle.gtp_core.specs.Lines.{number_named, words_of};
ghost use Rattle.gtp_core.specs.Words.{colour_named};
ghost use Rattle.gtp_core.specs.Commands as spec;
ghost use Rattle.gtp_core.specs.Private.Following.{FitsBoard, first_colour, size_numbered};

use crate::command::{Command, Saying};
use crate::line::{number_named, take_word};
use crate::name::{CommandName, name_of};
use crate::refusal::Refusal;
use crate::words::{colour_named, point_at};
use go_points::{Colour, PointSet, Size, Vertex, gtp_vertex};
use tsumego_problem::all_points;

/// What the words ask for, or why they are refused.
pub(crate) type Order = Result<Command, Refusal>;

/// The greatest number of turns of a decision.
const MAX_TURNS: u32 = 200;

/// What a line asks for. `word` is its first word, and `words` the rest.
pub(crate) fn order_of(size: Size, word: &[u8], words: &[u8]) -> Order
    ensures value { result ≡ spec.order_of size (word.now ∷ words_of words.now) }
    ensures fits { IfOk result (FitsBoard size) }
{
    match name_of(word) {
        Some(name) => order_named(size, name, words),
        None => Err(Refusal::UnknownCommand),
    }
}

/// What the further words ask of a command.
fn order_named(size: Size, name: CommandName, words: &[u8]) -> Order
    ensures value { result ≡ spec.order_named size name (words_of words.now) }
    ensures fits { IfOk result (FitsBoard size) }
{
    match name {
        CommandName::ProtocolVersion => Ok(Command::Say(Saying::ProtocolVersion)),
        CommandName::Name => Ok(Command::Say(Saying::Name)),
        CommandName::Version => Ok(Command::Say(Saying::Version)),
        CommandName::KnownCommand => known_order(words),
        CommandName::ListCommands => Ok(Command::Say(Saying::Names)),
        CommandName::Quit => Ok(Command::Quit),
        CommandName::Boardsize => size_order(words),
        CommandName::ClearBoard => Ok(Command::ClearBoard),
        CommandName::Komi => komi_order(words),
        CommandName::Play => play_order(words),
        CommandName::Genmove => genmove_order(words),
        CommandName::Undo => Ok(Command::Undo),
        CommandName::Showboard => Ok(Command::Showboard),
        CommandName::TsuTarget => target_order(size, words),
        CommandName::TsuRegion => region_order(size, words),
        CommandName::TsuSolve => solve_order(words),
        CommandName::TsuWithin => within_order(words),
    }
}

fn known_order(words: &[u8]) -> Order
    ensures value { result
        ≡ spec.with_first_word Some (words_of words.now)
        (λ word. Ok (Command.Say (spec.truth (is_some (spec.name_of word))))) }
    ensures fits { (n : ℕ) → IfOk result (FitsBoard n) }
{
    let Some((word, _)) = take_word(words) else {
        return Err(Refusal::SyntaxError);
    };
    Ok(Command::Say(Saying::truth(name_of(word).is_some())))
}

fn size_order(words: &[u8]) -> Order
    ensures value { result ≡ spec.with_first_word number_named (words_of words.now) spec.size_order }
    ensures fits { (n : ℕ) → IfOk result (FitsBoard n) }
{
    let Some((word, _)) = take_word(words) else {
        return Err(Refusal::SyntaxError);
    };
    let Some(number) = number_named(word) else {
        return Err(Refusal::SyntaxError);
    };
    match size_numbered(number) {
        Some(size) => Ok(Command::NewBoard(size)),
        None => Err(Refusal::UnacceptableSize),
    }
}

fn komi_order(words: &[u8]) -> Order
    ensures value { result
        ≡ spec.with_first_word Some (words_of words.now) (λ word. Ok (Command.Say Saying.Nothing)) }
    ensures fits { (n : ℕ) → IfOk result (FitsBoard n) }
{
    match take_word(words) {
        Some(_) => Ok(Command::Say(Saying::Nothing)),
        None => Err(Refusal::SyntaxError),
    }
}

fn play_order(words: &[u8]) -> Order
    ensures value { result
        ≡ spec.with_first_word colour_named (words_of words.now)
        (λ k. spec.with_first_word vertex_named (drop 1 (words_of words.now))
        (λ v. Ok (Command.Play k v))) }
    ensures fits { (n : ℕ) → IfOk result (FitsBoard n) }
{
    let Some((word, rest)) = take_word(words) else {
        return Err(Refusal::SyntaxError);
    };
    let Some((other, _)) = take_word(rest) else {
        return Err(Refusal::SyntaxError);
    };
    let Some(colour) = colour_named(word) else {
        return Err(Refusal::SyntaxError);
    };
    match gtp_vertex(other) {
        Some(vertex) => Ok(Command::Play(colour, vertex)),
        None => Err(Refusal::SyntaxError),
    }
}

fn genmove_order(words: &[u8]) -> Order
    ensures value { result
        ≡ spec.with_first_word colour_named (words_of words.now) (λ k. Ok (Command.Genmove k)) }
    ensures fits { (n : ℕ) → IfOk result (FitsBoard n) }
{
    match first_colour(words) {
        Some(colour) => Ok(Command::Genmove(colour)),
        None => Err(Refusal::SyntaxError),
    }
}

fn solve_order(words: &[u8]) -> Order
    ensures value { result
        ≡ spec.with_first_word colour_named (words_of words.now) (λ k. Ok (Command.Solve k)) }
    ensures fits { (n : ℕ) → IfOk result (FitsBoard n) }
{
    match first_colour(words) {
        Some(colour) => Ok(Command::Solve(colour)),
        None => Err(Refusal::SyntaxError),
    }
}

fn within_order(words: &[u8]) -> Order
    ensures value { result ≡ spec.with_first_word number_named (words_of words.now) spec.within_order }
    ensures fits { (n : ℕ) → IfOk result (FitsBoard n) }
{
    let Some((word, _)) = take_word(words) else {
        return Err(Refusal::SyntaxError);
    };
    match number_named(word) {
        Some(turns) if turns <= MAX_TURNS => Ok(Command::Within(turns)),
        _ => Err(Refusal::SyntaxError),
    }
}

/// The colour that the first word names.
fn first_colour(words: &[u8]) -> Option<Colour>
    ensures { result ≡ first_colour (words_of words.now) }
{
    let (word, _) = take_word(words)?;
    colour_named(word)
}

/// The size with this number of rows.
fn size_numbered(number: u32) -> Option<Size>
    ensures { result ≡ size_numbered number }
{
    if number <= 255 {
        Size::new(number as u8)
    } else {
        None
    }
}

/// The points that all the words name, each a point of the board.
fn points_named(size: Size, words: &[u8]) -> Option<PointSet>
    ensures value { result ≡ spec.with_points size [] (words_of words.now) }
    ensures on_board { IfSome result (All (IsOn size)) }
{
    let mut set = PointSet::new();
    let mut left = words;
    while let Some((word, rest)) = take_word(left) {
        let Some(Vertex::At { column, row }) = gtp_vertex(word) else {
            return None;
        };
        let point = point_at(size, column, row)?;
        set.insert(point);
        left = rest;
    }
    Some(set)
}

fn target_order(size: Size, words: &[u8]) -> Order
    ensures value { result
        ≡ spec.with_value (spec.with_points size [] (words_of words.now))
        (λ set. Ok (Command.SetTargets set)) }
    ensures fits { IfOk result (FitsBoard size) }
{
    match points_named(size, words) {
        Some(set) => Ok(Command::SetTargets(set)),
        None => Err(Refusal::SyntaxError),
    }
}

fn region_order(size: Size, words: &[u8]) -> Order
    ensures value { result
        ≡ spec.with_value (spec.region_named size (words_of words.now))
        (λ set. Ok (Command.SetRegion set)) }
    ensures fits { IfOk result (FitsBoard size) }
{
    match take_word(words) {
        None => Ok(Command::SetRegion(all_points(size))),
        Some(_) => match points_named(size, words) {
            Some(set) => Ok(Command::SetRegion(set)),
            None => Err(Refusal::SyntaxError),
        },
    }
}
