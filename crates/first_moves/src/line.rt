//! The line of a solution: what is found of the mover's later turns on it.

ghost use Rattle.std.specs.Prelude.{◌≡◌, ◌++◌, ◌∷◌, [], IfOk, IfSome};
ghost use Rattle.go_points.specs.Ply.{ply_of};
ghost use Rattle.target_game.specs.Legal.{legal_turns};
ghost use Rattle.target_game.specs.State.{GameProblem, start};
ghost use Rattle.first_moves.specs.Judged.{AreJudged, IsProblemAfter};
ghost use Rattle.first_moves.specs.Line.{AreLater, IsNext, IsPosition};

use crate::found::{Found, Settings, judge_turns};
use crate::judged::{Judged, problem_after};
use cert_check::Checked;
use go_points::Turn;
use run_parts::MAX_TURNS;
use solution_tree::{Answer, Expand, expand};
use std::alloc::{AllocError, Global};
use std::io::Write;
use target_game::{PlayState, Problem, State};

/// A position of the line: the turns since the problem that lead to it, and the problem there, with all earlier positions.
#[derive(Drop)]
pub(crate) struct Position {
    pub(crate) turns: Vec<Turn>,
    pub(crate) problem: Problem,
}

/// A position of the line in which the mover is to move again, its turn on the line, and what is found of each legal one.
#[derive(Drop)]
pub(crate) struct Later {
    pub(crate) position: Position,
    /// `None` stands for an answer tree that begins with no turn; such a position is not judged.
    pub(crate) turn: Option<Turn>,
    pub(crate) found: Vec<Found>,
}

/// The mover's later turns that were judged.
#[derive(Drop)]
pub(crate) struct Line {
    pub(crate) later: Vec<Later>,
    /// Whether the mover has no further turn on it.
    pub(crate) is_whole: bool,
}

/// What is found of the mover's turns from its second to its `depth`th on the line, which begins with the first turn that is
/// right, and goes on as the first line of the answer tree of its claim: the main line of the record. Without a right turn there
/// is none; one whose tree has more than 90,000 turns is not followed.
pub(crate) fn judge_line<N: Write>(
    alloc: Global,
    problem: &Problem,
    found: &[Found],
    depth: u64,
    settings: &Settings,
    notes: &mut N,
) -> Result<Line, AllocError>
    ensures { IfOk result (λ line. AreLater depth problem.now line.later.items) }
{
    let none = Vec::new(alloc);
    let Some(checked) = first_right(found) else {
        return Ok(Line {
            later: none,
            is_whole: true,
        });
    };
    match expand(alloc, checked, MAX_TURNS) {
        Ok(answer) => judge_along(alloc, problem, &answer, depth, settings, notes),
        Err(Expand::TooLarge) => Ok(Line {
            later: none,
            is_whole: false,
        }),
        Err(Expand::Memory) => Err(AllocError),
    }
}

/// The claim of the first turn that is right.
fn first_right<'a>(found: &'a [Found]) -> Option<&'a Checked> {
    for one in found {
        if let Judged::Right(checked) = &one.judged {
            return Some(checked);
        }
    }
    None
}

/// The same, along the first line of this answer tree of the problem.
fn judge_along<N: Write>(
    alloc: Global,
    problem: &Problem,
    answer: &Answer,
    depth: u64,
    settings: &Settings,
    notes: &mut N,
) -> Result<Line, AllocError>
    ensures { IfOk result (λ line. AreLater depth problem.now line.later.items) }
{
    let mut later = Vec::new(alloc);
    let turns = Vec::new(alloc);
    let start = problem.copy(alloc)?;
    let mut position = Position {
        turns,
        problem: start,
    };
    let mut part = answer;
    for _ in 1..depth {
        let Some((turn, reply, below)) = next_turns(part) else {
            break;
        };
        let Some(next) = position_after(alloc, &position, turn, reply)? else {
            break;
        };
        position = next;
        later.push(judge_position(alloc, &position, below, settings, notes)?)?;
        part = below;
    }
    Ok(Line {
        later,
        is_whole: next_turns(part).is_none(),
    })
}

/// The side's turn with which the answer tree begins, the other side's first reply, and the answer tree after both, which begins
/// with a turn again; none where the first line ends before that.
fn next_turns<'a>(answer: &'a Answer) -> Option<(Turn, Turn, &'a Answer)> {
    match answer {
        Answer::Turn(turn, after) => turns_from(*turn, after),
        _ => None,
    }
}

/// The same, with this turn before the other side's replies.
fn turns_from<'a>(turn: Turn, after: &'a Answer) -> Option<(Turn, Turn, &'a Answer)> {
    let Answer::Replies(replies) = after else {
        return None;
    };
    if replies.is_empty() {
        return None;
    }
    let (reply, below) = &replies[0];
    match below {
        Answer::Turn(_, _) => Some((turn, *reply, below)),
        _ => None,
    }
}

/// The turn with which the answer tree begins.
fn first_turn(answer: &Answer) -> Option<Turn> {
    match answer {
        Answer::Turn(turn, _) => Some(*turn),
        _ => None,
    }
}

/// The position after the two turns; none where there is none.
fn position_after(
    alloc: Global,
    position: &Position,
    turn: Turn,
    reply: Turn,
) -> Result<Option<Position>, AllocError>
    ensures turns { IfOk result
        (λ made. IfSome made (λ next. next.turns.items
        ≡ (position.now.turns.items ++ turn ∷ []) ++ reply ∷ [])) }
    ensures reached { IfOk result
        (λ made. IfSome made (λ next. (q : GameProblem) → IsPosition q position.now
        → IsPosition q next)) }
{
    match next_position(alloc, position, turn)? {
        Some(middle) => next_position(alloc, &middle, reply),
        None => Ok(None),
    }
}

/// The position after the turn; none where there is none.
fn next_position(
    alloc: Global,
    position: &Position,
    turn: Turn,
) -> Result<Option<Position>, AllocError>
    ensures { IfOk result (λ made. IfSome made (λ next. IsNext position.now turn next)) }
{
    // The prover takes a turn that was passed on as moved.
    let same = turn;
    match turn_made(alloc, &position.problem, same)? {
        Some(problem) => {
            let mut turns = position.turns.as_slice().to_vec(alloc)?;
            turns.push(turn)?;
            Ok(Some(Position { turns, problem }))
        }
        None => Ok(None),
    }
}

/// The problem after the turn; none where there is none.
pub(crate) fn turn_made(
    alloc: Global,
    problem: &Problem,
    turn: Turn,
) -> Result<Option<Problem>, AllocError>
    ensures { IfOk result
        (λ made. IfSome made (λ later. IsProblemAfter problem.now
        (ply_of problem.now.game.size turn) later)) }
{
    prove!(problem.place() < problem.history().len());
    let state = PlayState::of(alloc, problem)?;
    problem_after(alloc, problem, &state, turn)
}

/// What is found of the turns at the position, of which this answer tree is known.
fn judge_position<N: Write>(
    alloc: Global,
    position: &Position,
    known: &Answer,
    settings: &Settings,
    notes: &mut N,
) -> Result<Later, AllocError>
    ensures turns { IfOk result
        (λ later. later.position.turns.items ≡ position.now.turns.items) }
    ensures problem { IfOk result (λ later. later.position.problem ≡ position.now.problem) }
    ensures found { IfOk result
        (λ later. AreJudged later.position.problem
        (legal_turns (start later.position.problem)) later.found.items) }
{
    let turns = position.turns.as_slice();
    let found = judge_turns(
        alloc,
        &position.problem,
        turns,
        Some(known),
        settings,
        notes,
    )?;
    Ok(Later {
        position: Position {
            turns: turns.to_vec(alloc)?,
            problem: position.problem.copy(alloc)?,
        },
        turn: first_turn(known),
        found,
    })
}
