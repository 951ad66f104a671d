//! How hard a problem with one right first turn is: a grade from 1 to 9 by what is found.

ghost use Rattle.std.specs.List.{All};
ghost use Rattle.std.specs.Prelude.{◌≡◌, true, IfOk, IfSome};
ghost use Rattle.first_moves.specs.Grade.{grade_of, is_refuted, winner_of};
ghost use Rattle.first_moves.specs.Graded.{HasTraps, IsTrap};

use crate::found::{Found, Settings, Solution, Tally, counted};
use crate::judged::Judged;
use crate::line::turn_made;
use crate::threat::threatens;
use crate::variation::{Variation, no_turns, variation_of};
use go_points::{Colour, Point, Size, Turn};
use run_parts::MAX_TURNS;
use short_proofs::{Reading, find_reading};
use std::alloc::{AllocError, Global};
use target_game::Problem;

/// So many points make a grade, of which this is the greatest.
const POINTS_OF_GRADE: usize = 4;

const MAX_GRADE: usize = 9;

/// The most stones lost that count.
const MAX_LOST: usize = 3;

/// A wrong first move that a player would try, and the line that refutes it.
#[derive(Drop)]
pub(crate) struct Trap {
    pub(crate) turn: Turn,
    pub(crate) refutation: Variation,
}

/// What is found of a problem with one right first turn: the line that shows it, and the wrong first moves that a player would try.
#[derive(Drop)]
pub(crate) struct Lesson {
    pub(crate) solution: Variation,
    pub(crate) traps: Vec<Trap>,
}

/// Who wins the problem, as far as that is known of its first turns.
pub(crate) fn winner_of(mover: Colour, tally: Tally) -> Option<Colour>
    ensures { result ≡ winner_of mover tally.solution tally.winning }
{
    if tally.winning > 0 {
        return Some(mover);
    }
    match tally.solution {
        Solution::Lost => Some(mover.opponent()),
        Solution::Unique => None,
        Solution::Several => None,
        Solution::Open => None,
    }
}

/// What is found of the problem. `None` if not one first turn is right and all others are refuted, or no short claim is found.
pub(crate) fn lesson_of(
    alloc: Global,
    problem: &Problem,
    found: &[Found],
    settings: &Settings,
) -> Result<Option<Lesson>, AllocError>
    ensures { IfOk result (HasTraps found.now) }
{
    match counted(found).solution {
        Solution::Unique => {}
        _ => return Ok(None),
    }
    let Some(solution) = shown(alloc, problem, problem.mover(), settings)? else {
        return Ok(None);
    };
    let traps = traps_of(alloc, problem, found, settings)?;
    Ok(Some(Lesson { solution, traps }))
}

/// The traps among the first turns.
fn traps_of(
    alloc: Global,
    problem: &Problem,
    found: &[Found],
    settings: &Settings,
) -> Result<Vec<Trap>, AllocError>
    ensures { IfOk result (λ traps. All (IsTrap found.now) traps.items) }
{
    let mut traps = Vec::new(alloc);
    for i in 0..found.len() {
        if let Some(trap) = trap_of(alloc, problem, &found[i], settings)? {
            traps.push(trap)?;
        }
    }
    Ok(traps)
}

/// The line by which this side wins, if a short claim of it is found.
fn shown(
    alloc: Global,
    problem: &Problem,
    winner: Colour,
    settings: &Settings,
) -> Result<Option<Variation>, AllocError> {
    let table = settings.budget.table;
    match find_reading(alloc, problem, settings.budget, MAX_TURNS)? {
        Reading::Wins {
            winner: found,
            turns: _,
            tree,
        } => {
            if found != winner {
                return Ok(None);
            }
            Ok(Some(variation_of(alloc, problem, winner, &tree, table)?))
        }
        Reading::TooLarge { winner: _, turn: _ } => Ok(None),
        Reading::Unknown { cause: _, steps: _ } => Ok(None),
    }
}

/// The first turn as a trap: if it is refuted, is a move beside a stone or across a corner from one, and threatens something.
fn trap_of(
    alloc: Global,
    problem: &Problem,
    one: &Found,
    settings: &Settings,
) -> Result<Option<Trap>, AllocError>
    ensures turn { IfOk result (λ o. IfSome o (λ t. t.turn ≡ one.now.turn)) }
    ensures refuted { IfOk result (λ o. IfSome o (λ t. is_refuted one.now.judged ≡ true)) }
{
    let Judged::Refuted(_) = &one.judged else {
        return Ok(None);
    };
    let turn = one.turn;
    if !is_tempting(alloc, problem, turn, settings)? {
        return Ok(None);
    }
    let refutation = refutation(alloc, problem, one.turn, settings)?;
    Ok(Some(Trap {
        turn: one.turn,
        refutation,
    }))
}

/// Whether a player would try the turn.
fn is_tempting(
    alloc: Global,
    problem: &Problem,
    turn: Turn,
    settings: &Settings,
) -> Result<bool, AllocError> {
    let Turn::At(point) = turn else {
        return Ok(false);
    };
    if !is_beside_stone(problem, point) {
        return Ok(false);
    }
    threatens(alloc, problem, Turn::At(point), settings.budget.table)
}

/// The line that refutes the turn; one without turns if no short claim is found.
fn refutation(
    alloc: Global,
    problem: &Problem,
    turn: Turn,
    settings: &Settings,
) -> Result<Variation, AllocError> {
    let Some(later) = turn_made(alloc, problem, turn)? else {
        return Ok(no_turns(alloc));
    };
    match shown(alloc, &later, later.mover(), settings)? {
        Some(found) => Ok(found),
        None => Ok(no_turns(alloc)),
    }
}

/// Whether a stone stands beside the point or across a corner from it.
fn is_beside_stone(problem: &Problem, point: Point) -> bool {
    let size = problem.size();
    for down in 0..3u8 {
        for right in 0..3u8 {
            if let Some(near) = moved(size, point, right, down) {
                if is_stone(problem, near) {
                    return true;
                }
            }
        }
    }
    false
}

/// The point so many columns and rows from the upper left neighbour of a point, if there is one.
fn moved(size: Size, point: Point, right: u8, down: u8) -> Option<Point> {
    let column = point.col().saturating_add(right).checked_sub(1)?;
    let row = point.row().saturating_add(down).checked_sub(1)?;
    size.point(column, row)
}

fn is_stone(problem: &Problem, point: Point) -> bool {
    let colouring = problem.colouring();
    if !colouring.size().holds(point) {
        return false;
    }
    !colouring.get(point).is_empty()
}

/// A point for each turn of the solution after the first, for each trap, and for each turn of the mean refutation; two for each
/// stone that the winner loses on the solution, up to three of them, and for a ko.
pub(crate) fn points(lesson: &Lesson) -> usize {
    let mut turns: usize = 0;
    for trap in &lesson.traps {
        turns = turns.saturating_add(trap.refutation.turns.len());
    }
    let traps = lesson.traps.len();
    let lost = lesson.solution.lost.min(MAX_LOST);
    let ko: usize = if has_ko(lesson) { 2 } else { 0 };
    let line = lesson.solution.turns.len().saturating_sub(1);
    line.saturating_add(traps)
        .saturating_add(mean(turns, traps))
        .saturating_add(2 * lost)
        .saturating_add(ko)
}

/// Whether a ko is taken on any of its lines.
pub(crate) fn has_ko(lesson: &Lesson) -> bool {
    if lesson.solution.has_ko {
        return true;
    }
    for trap in &lesson.traps {
        if trap.refutation.has_ko {
            return true;
        }
    }
    false
}

/// The mean of so many numbers with this sum, rounded; halves up.
fn mean(sum: usize, count: usize) -> usize {
    if count == 0 {
        return 0;
    }
    sum.saturating_add(count / 2) / count
}

/// The grade that so many points make.
pub(crate) fn grade_of(points: usize) -> usize
    ensures { result ≡ grade_of points }
{
    (points / POINTS_OF_GRADE + 1).min(MAX_GRADE)
}
