//! Names of turns and of what they are worth, as they are written.

ghost use Rattle.std.specs.Prelude.{◌≡◌, ◌++◌, IfOk, OnOk, string_bytes};
ghost use Rattle.first_moves.specs.Text.{before_text, point_text, turn_text, turn_texts, worth_text};
ghost use Rattle.first_moves.specs.declared.names.Names.TheVariants.{Coordinates as CoordinateNames};

use crate::judged::Judged;
use go_points::{Point, Size, Turn, to_gtp, to_sgf};
use std::alloc::{AllocError, Global};

/// How points are named.
#[derive(Clone, Copy, Debug, PartialEq, Eq)]
pub(crate) enum Names {
    /// As in SGF: `dc`.
    Letters,
    /// As at the edge of a board of this size: `D17`.
    Coordinates(Size),
}

/// The name of a point, or `pass`.
pub(crate) fn turn_name(alloc: Global, names: &Names, turn: Turn) -> Result<String, AllocError>
    ensures { IfOk result (λ name. string_bytes name ≡ turn_text names.now turn) }
{
    match turn {
        Turn::Pass => format!(in alloc; "pass"),
        Turn::At(point) => point_name(alloc, names, point),
    }
}

fn point_name(alloc: Global, names: &Names, point: Point) -> Result<String, AllocError>
    ensures { IfOk result (λ name. string_bytes name ≡ point_text names.now point) }
{
    match names {
        Names::Letters => name_of(alloc, to_sgf(point).as_slice()),
        Names::Coordinates(size) => name_at_edge(alloc, *size, point),
    }
}

/// The name as at the edge of the board, if the board has the point.
fn name_at_edge(alloc: Global, size: Size, point: Point) -> Result<String, AllocError>
    ensures { IfOk result
        (λ name. string_bytes name ≡ point_text (CoordinateNames size) point) }
{
    if size.holds(point) {
        name_of(alloc, to_gtp(size, point).as_slice())
    } else {
        name_of(alloc, to_sgf(point).as_slice())
    }
}

/// The letters and digits of a name, as a text.
fn name_of(alloc: Global, letters: &[u8]) -> Result<String, AllocError>
    ensures { IfOk result (λ name. string_bytes name ≡ letters.now) }
{
    match std::str::from_utf8(letters) {
        Ok(read) => read.to_string(alloc),
        // No name has such bytes.
        Err(_) => Err(AllocError),
    }
}

/// The names of the turns, each after a space.
fn turn_names(alloc: Global, names: &Names, turns: &[Turn]) -> Result<String, AllocError>
    ensures { IfOk result (λ text. string_bytes text ≡ turn_texts names.now turns.now) }
{
    let mut text = String::new(alloc);
    for i in 0..turns.len() {
        let name = turn_name(alloc, names, turns[i])?;
        push_text(&mut text, " ")?;
        push_text(&mut text, name.as_str())?;
    }
    Ok(text)
}

/// Appends the text.
pub(crate) fn push_text(text: &mut String, more: &str) -> Result<(), AllocError>
    ensures { OnOk result (string_bytes text.new ≡ string_bytes text.old ++ more.now) }
{
    text.push_str(more)?;
    Ok(())
}

/// What stands before the name of a turn that comes after others: `after dc eb: `. Nothing for a first turn.
pub(crate) fn before_text(
    alloc: Global,
    names: &Names,
    before: &[Turn],
) -> Result<String, AllocError>
    ensures { IfOk result (λ text. string_bytes text ≡ before_text names.now before.now) }
{
    if before.is_empty() {
        return Ok(String::new(alloc));
    }
    let turns = turn_names(alloc, names, before)?;
    format!(in alloc; "after{turns}: ")
}

/// What becomes of the mover.
pub(crate) fn worth_name(judged: &Judged) -> &'static str
    ensures { result.now ≡ worth_text judged.now }
{
    match judged {
        Judged::Right(_) => "wins",
        Judged::Refuted(_) => "loses",
        Judged::Ends => "loses",
        Judged::Unknown => "unknown",
    }
}
