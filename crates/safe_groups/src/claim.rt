//! The judge of a whole claim for a problem.

ghost use Rattle.std.specs.Prelude.{◌≡◌, ◌≢◌, ◌*◌, ◌<◌, ℕ, [], length, slice_set, IsTrue, OnOk, IfOk};
ghost use Rattle.std.specs.List.{All};
ghost use Rattle.go_points.specs.declared.Cell.TheVariants.{Empty};
ghost use Rattle.go_points.specs.Grid.{cell_at, side_of};
ghost use Rattle.target_game.specs.State.{start};
ghost use Rattle.safe_groups.specs.Ground.{area_of, ground_at, state_at, AllSafe, HasReplies, HoldsFor, IsMoveFrom, IsSafeAs, IsSized};
ghost use Rattle.safe_groups.specs.Private.Verdict.{AreKept};

use crate::bodies::{Counts, judge_body};
use crate::fault::{Fault, Stop};
use crate::ground::Ground;
use crate::heads::{
    Heads, barred_points, first_turn, mark_answers, mark_held, number_groups, own_stones,
    read_heads, read_keeper,
};
use crate::lines::ClaimLines;
use crate::verdict::{Misfit, are_safe, are_safe_by_move, hold_for};
use go_points::{Cell, Colour, Colouring, Point};
use std::alloc::{AllocError, Global};
use std::io::Read;
use target_game::Problem;

/// What an accepted claim shows: these stones of the keeper's stand, if it answers, or if it first plays at this point.
#[derive(Clone, Copy, Debug)]
pub struct Verdict {
    pub keeper: Colour,
    pub first: Option<Point>,
    /// The stones, as the keeper's on a colouring.
    pub stones: Colouring,
}

/// The line at which a claim is refused, from 1, and why.
#[derive(Clone, Copy, Debug, PartialEq, Eq)]
pub struct Reject {
    pub line: u64,
    pub stop: Stop,
}

/// The fault of areas that are not those of the problem.
pub(crate) fn fault_of(misfit: Misfit) -> Fault {
    match misfit {
        Misfit::Board | Misfit::Order => Fault::BoardDiffers,
        Misfit::Target => Fault::TargetNotKept,
        Misfit::Past => Fault::PastBars,
    }
}

/// Judges the bodies of all areas, whose first states are given; the first line of the first has been read.
pub(crate) fn judge_bodies<R: Read>(
    alloc: Global,
    grounds: &[Ground],
    starts: &[Colouring],
    lines: &mut ClaimLines<'_, R>,
    counts: &mut Counts,
) -> Result<(), Stop>
    requires sized { (i : ℕ) → i < length grounds.now
        → IsSized (side_of (ground_at grounds.now i).cells) (ground_at grounds.now i) }
    requires given { (i p : ℕ) → i < length grounds.now
        → IsTrue ((area_of (ground_at grounds.now i)).gives p)
        → IsTrue ((area_of (ground_at grounds.now i)).kept p) }
    requires lengths { length grounds.now ≡ length starts.now }
    ensures { OnOk result ((i : ℕ) → i < length grounds.now
        → HasReplies (ground_at grounds.now i) (state_at starts.now i)) }
{
    for place in 0..grounds.len() {
        if place > 0 {
            lines.next_line()?;
        }
        judge_body(alloc, &grounds[place], &starts[place], lines, counts)?;
    }
    Ok(())
}

/// The states with this one at this place.
fn with_state(
    alloc: Global,
    begins: &[Colouring],
    place: usize,
    state: &Colouring,
) -> Result<Vec<Colouring>, AllocError>
    requires { place < length begins.now }
    ensures { IfOk result (λ v. v.items ≡ slice_set begins.now place state.now) }
{
    let mut states = Vec::new(alloc);
    states.extend_from_slice(begins)?;
    states[place] = *state;
    Ok(states)
}

/// Whether the defender is to move.
fn is_defender_to_move(problem: &Problem) -> bool
    ensures { IsTrue result → problem.now.mover ≡ problem.now.game.defender }
{
    Cell::Stone(problem.mover()).is_stone_of(problem.defender())
}

/// Judges the bodies where the keeper answers first, in this area.
fn judge_after_move<R: Read>(
    alloc: Global,
    problem: &Problem,
    grounds: &[Ground],
    begins: &[Colouring],
    place: usize,
    number: usize,
    lines: &mut ClaimLines<'_, R>,
    counts: &mut Counts,
) -> Result<(), Stop>
    requires holds { HoldsFor problem.now grounds.now begins.now }
    ensures mover { OnOk result (problem.now.mover ≡ problem.now.game.defender) }
    ensures place { OnOk result (place < length grounds.now) }
    ensures others { OnOk result ((i : ℕ) → i < length grounds.now → i ≢ place
        → HasReplies (ground_at grounds.now i) (state_at begins.now i)) }
    ensures moved { OnOk result
        (IsMoveFrom (ground_at grounds.now place) (state_at begins.now place) number) }
{
    if !is_defender_to_move(problem) {
        return Err(Stop::Fault(Fault::WrongSide));
    }
    if place >= grounds.len() || place >= begins.len() {
        return Err(Stop::Fault(Fault::TurnBarred));
    }
    let ground = &grounds[place];
    let begin = &begins[place];
    if number >= ground.size().area() || !ground.is_answer(number) {
        return Err(Stop::Fault(Fault::PastBars));
    }
    if !begin.cell(number).is_empty() {
        return Err(Stop::Fault(Fault::TurnBarred));
    }
    let after = ground.after_answer(begin, number);
    let Ok(starts) = with_state(alloc, begins, place, &after) else {
        return Err(Stop::Memory);
    };
    judge_bodies(alloc, grounds, starts.as_slice(), lines, counts)
}

/// Whether the areas keep all targets.
fn are_kept(problem: &Problem, keeper: Colour, heads: &Heads) -> bool {
    let size = problem.size();
    let stones = own_stones(heads, size, keeper);
    for target in problem.targets().iter() {
        if !size.holds(target) || stones.size() != size {
            return false;
        }
        if problem.defender() != keeper || !stones.get(target).is_stone_of(keeper) {
            return false;
        }
    }
    true
}

/// Makes the areas ready to be judged: their groups, what they lean on, and where they may answer. `first` is where the keeper plays
/// first; returns whether the past allows that.
pub(crate) fn prepare(
    problem: &Problem,
    keeper: Colour,
    first: Option<(usize, usize)>,
    heads: &mut Heads,
) -> bool {
    let size = problem.size();
    number_groups(heads);
    mark_held(heads, size);
    let stones = own_stones(heads, size, keeper);
    let barred = barred_points(problem, &stones, keeper);
    if let Some((_, number)) = first
        && number < barred.size().area()
        && !barred.cell(number).is_empty()
    {
        return false;
    }
    mark_answers(heads, &barred, size);
    true
}

/// Judges all lines.
fn judge_lines<R: Read>(
    alloc: Global,
    problem: &Problem,
    lines: &mut ClaimLines<'_, R>,
) -> Result<Verdict, Stop>
    ensures side { IfOk result (λ v. side_of v.stones ≡ problem.now.game.size) }
    ensures keeper { IfOk result (λ v. v.keeper ≡ problem.now.game.defender) }
    ensures targets { IfOk result (λ v. IsSafeAs v.first (start problem.now)) }
    ensures stones { IfOk result (λ v. AllSafe v.first (start problem.now) v.stones) }
{
    let size = problem.size();
    let keeper = read_keeper(lines, b"tsureply", size)?;
    let mut heads = read_heads(alloc, problem, keeper, lines)?;
    let first = first_turn(problem, keeper, &heads, lines)?;
    if heads.grounds.is_empty() || !lines.is(b"body", 1) {
        return Err(Stop::Fault(Fault::Malformed));
    }
    if !are_kept(problem, keeper, &heads) {
        return Err(Stop::Fault(Fault::TargetNotKept));
    }
    if !prepare(problem, keeper, first, &mut heads) {
        return Err(Stop::Fault(Fault::PastBars));
    }
    judge_areas(alloc, problem, &heads, first, lines)
}

/// Judges the bodies of these areas, and the end.
fn judge_areas<R: Read>(
    alloc: Global,
    problem: &Problem,
    heads: &Heads,
    first: Option<(usize, usize)>,
    lines: &mut ClaimLines<'_, R>,
) -> Result<Verdict, Stop>
    ensures side { IfOk result (λ v. side_of v.stones ≡ problem.now.game.size) }
    ensures keeper { IfOk result (λ v. v.keeper ≡ problem.now.game.defender) }
    ensures targets { IfOk result (λ v. IsSafeAs v.first (start problem.now)) }
    ensures stones { IfOk result (λ v. AllSafe v.first (start problem.now) v.stones) }
{
    let keeper = problem.defender();
    let grounds = heads.grounds.as_slice();
    let begins = heads.begins.as_slice();
    let stones = match hold_for(problem, grounds, begins) {
        Ok(stones) => stones,
        Err(misfit) => return Err(Stop::Fault(fault_of(misfit))),
    };
    let mut counts = Counts::new();
    match first {
        None => {
            judge_bodies(alloc, grounds, begins, lines, &mut counts)?;
            lines.end_here()?;
            are_safe(problem, grounds, begins, &stones);
            Ok(Verdict {
                keeper,
                first: None,
                stones,
            })
        }
        Some((place, number)) => {
            let size = problem.size();
            if number >= size.area() {
                return Err(Stop::Fault(Fault::TurnBarred));
            }
            let point = size.point_at(number);
            judge_after_move(
                alloc,
                problem,
                grounds,
                begins,
                place,
                number,
                lines,
                &mut counts,
            )?;
            lines.end_here()?;
            are_safe_by_move(problem, grounds, begins, &stones, place, point);
            Ok(Verdict {
                keeper,
                first: Some(point),
                stones,
            })
        }
    }
}

/// Judges the claim in these bytes and in what the reader has after them, for the problem. If it is accepted, the targets and all stones
/// that are told are safe by answers, whoever moves first; or, if a first move is told, once the defender, who is to move, has played it.
///
/// For each state it takes, at each point of the region, a few sweeps over the board.
pub fn judge<R: Read>(
    alloc: Global,
    problem: &Problem,
    front: &[u8],
    reader: &mut R,
) -> Result<Verdict, Reject>
    ensures side { IfOk result (λ v. side_of v.stones ≡ problem.now.game.size) }
    ensures keeper { IfOk result (λ v. v.keeper ≡ problem.now.game.defender) }
    ensures targets { IfOk result (λ v. IsSafeAs v.first (start problem.now)) }
    ensures stones { IfOk result (λ v. AllSafe v.first (start problem.now) v.stones) }
{
    let mut lines = match ClaimLines::new(alloc, front, reader) {
        Ok(lines) => lines,
        Err(stop) => return Err(Reject { line: 0, stop }),
    };
    match judge_lines(alloc, problem, &mut lines) {
        Ok(verdict) => Ok(verdict),
        Err(stop) => Err(Reject {
            line: lines.number(),
            stop,
        }),
    }
}
