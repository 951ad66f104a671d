//! What a first move does to a group, where that is proved, as lines for a reader.

ghost use Rattle.std.specs.Prelude.{◌≡◌, IfOk, string_bytes};
ghost use Rattle.group_status.specs.Lines.{BeginsWith, by_text, IsDecidedLine, IsMoveLine, IsWinnerByMoveLine, unsettled_text};

use crate::condition::condition_by_move;
use crate::names::point_name;
use crate::proof::{fate_line, won_line};
use crate::reasons::push_details;
use go_points::{Point, Size};
use proved_groups::{ProvenByMove, Unsettled};
use std::alloc::{AllocError, Global};
use tool_parts::colour_name;

/// What first moves decide, of all that is asked about a group.
#[derive(Clone, Copy)]
pub(crate) enum Decided<'a> {
    /// Each side decides it by moving first.
    Unsettled(Unsettled<'a>),
    /// The side that is asked about wins by moving first.
    Wins(&'a ProvenByMove),
}

/// The lines of a group of which this is decided.
pub(crate) fn decided_lines(
    alloc: Global,
    size: Size,
    target: Point,
    decided: &Decided<'_>,
) -> Result<String, AllocError>
    ensures { IfOk result
        (λ text. BeginsWith (IsDecidedLine size target decided.now) (string_bytes text)) }
{
    let line = decided_line(alloc, size, target, decided)?;
    let moves = match decided {
        Decided::Unsettled(both) => {
            let attack = move_lines(alloc, size, both.attack())?;
            let defence = move_lines(alloc, size, both.defence())?;
            format!(in alloc; "{attack}{defence}")?
        }
        Decided::Wins(proven) => move_lines(alloc, size, proven)?,
    };
    format!(in alloc; "{line}{moves}")
}

/// The first of these lines.
fn decided_line(
    alloc: Global,
    size: Size,
    target: Point,
    decided: &Decided<'_>,
) -> Result<String, AllocError>
    ensures { IfOk result (λ text. IsDecidedLine size target decided.now (string_bytes text)) }
{
    match decided {
        Decided::Unsettled(both) => unsettled_line(alloc, size, target, both),
        Decided::Wins(proven) => winner_line(alloc, size, target, proven),
    }
}

/// That each side decides the group by moving first.
pub(crate) fn unsettled_line(
    alloc: Global,
    size: Size,
    target: Point,
    both: &Unsettled<'_>,
) -> Result<String, AllocError>
    ensures { IfOk result (λ text. string_bytes text ≡ unsettled_text size target both.now) }
{
    let condition = condition_by_move(alloc, size, both.attack())?;
    fate_line(alloc, size, target, "unsettled", condition.as_str())
}

/// That the side wins whose first move decides.
fn winner_line(
    alloc: Global,
    size: Size,
    target: Point,
    proven: &ProvenByMove,
) -> Result<String, AllocError>
    ensures { IfOk result
        (λ text. IsWinnerByMoveLine size target proven.now (string_bytes text)) }
{
    let condition = condition_by_move(alloc, size, proven)?;
    won_line(alloc, size, target, proven.winner(), condition.as_str())
}

/// Who moves first, what happens then and by which move.
fn move_line(alloc: Global, size: Size, proven: &ProvenByMove) -> Result<String, AllocError>
    ensures { IfOk result (λ text. IsMoveLine size proven.now (string_bytes text)) }
{
    let mover = colour_name(proven.mover());
    let (first, word) = proven.end();
    let by_which = by_which(alloc, size, first)?;
    format!(in alloc; "  {mover} first: {word}{by_which} (proved)\n")
}

/// By which move, if one is known.
fn by_which(alloc: Global, size: Size, first: Option<Point>) -> Result<String, AllocError>
    ensures { IfOk result (λ text. string_bytes text ≡ by_text size first) }
{
    match first {
        Some(point) => {
            let name = point_name(alloc, size, point)?;
            format!(in alloc; ", by {name}")
        }
        None => Ok(String::new(alloc)),
    }
}

/// Who moves first, what happens then and by which move, and why.
pub(crate) fn move_lines(
    alloc: Global,
    size: Size,
    proven: &ProvenByMove,
) -> Result<String, AllocError>
    ensures { IfOk result
        (λ text. BeginsWith (IsMoveLine size proven.now) (string_bytes text)) }
{
    let line = move_line(alloc, size, proven)?;
    let mover = colour_name(proven.mover());
    let other = colour_name(proven.mover().opponent());
    let mut reasons = if proven.is_alive() {
        format!(in alloc;
            "    then nothing that {other} plays takes the kept stones, anywhere on the board, if {mover} answers in the region\n"
        )?
    } else {
        format!(in alloc;
            "    then, whatever {other} plays anywhere on the board, {mover} takes a stone of it by playing in the region\n"
        )?
    };
    push_details(alloc, &mut reasons, size, proven.finding(), "    ")?;
    format!(in alloc; "{line}{reasons}")
}
