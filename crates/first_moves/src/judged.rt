//! What is found about a first turn.

ghost use Rattle.std.specs.Prelude.{◌≡◌, ◌+◌, IfOk, IfSome, None};
ghost use Rattle.go_points.specs.Move.{after_move};
ghost use Rattle.go_points.specs.Place.{IsOn, number_of};
ghost use Rattle.go_points.specs.Ply.{ply_of};
ghost use Rattle.target_game.specs.State.{start};
ghost use Rattle.first_moves.specs.declared.judged.Judged.TheVariants.{Unknown};
ghost use Rattle.first_moves.specs.Judged.{IsProblemWith, IsProblemAfter, IsJudged};

use crate::claim::{claim_by, turn_before, winning_turn};
use cert_check::{Checked, Why, check_held};
use go_points::{Colouring, Point, Turn};
use pn_search::{Budget, Cause, Verdict, solve};
use proof_cert::Certificate;
use solution_tree::Answer;
use std::alloc::{AllocError, Global};
use target_game::{PlayState, Problem, State};

/// What is found about a legal first turn.
#[derive(Drop)]
pub(crate) enum Judged {
    /// The mover wins by it: a claim for the problem itself, which begins with the turn.
    Right(Checked),
    /// The other side wins: a claim for the problem after the turn.
    Refuted(Checked),
    /// The turn ends the game, and the other side has won.
    Ends,
    /// The search found no claim.
    Unknown,
}

/// The problem with this history and the other side to move.
pub(crate) fn problem_with(
    problem: &Problem,
    history: Vec<Colouring>,
    place: usize,
    passes: u64,
) -> Option<Problem>
    ensures { IfSome result (λ later. IsProblemWith problem.now history.items place passes later) }
{
    let mover = problem.mover().opponent();
    let targets = *problem.targets();
    let region = *problem.region();
    match Problem::new(history, place, mover, passes, targets, region) {
        Ok(later) => Some(later),
        Err(_) => None,
    }
}

/// The problem after the turn. `None` if there is no such problem.
pub(crate) fn problem_after(
    alloc: Global,
    problem: &Problem,
    state: &PlayState,
    turn: Turn,
) -> Result<Option<Problem>, AllocError>
    requires { state.now.state ≡ start problem.now }
    ensures { IfOk result
        (λ made. IfSome made (λ later. IsProblemAfter problem.now
        (ply_of problem.now.game.size turn) later)) }
{
    let mut history = problem.history().to_vec(alloc)?;
    match turn {
        Turn::Pass => Ok(problem_with(problem, history, problem.place(), problem.passes() + 1)),
        Turn::At(point) => {
            if !state.size().holds(point) {
                return Ok(None);
            }
            let Some(after) = colouring_after(state, point) else {
                return Ok(None);
            };
            let place = history.len();
            history.push(after)?;
            Ok(problem_with(problem, history, place, 0))
        }
    }
}

/// The colouring after the mover's move at the point. `None` if it is not an empty point of the region.
fn colouring_after(state: &PlayState, point: Point) -> Option<Colouring>
    requires { IsOn state.now.state.game.size point }
    ensures { IfSome result
        (λ after. after ≡ after_move state.now.state.game.size state.now.state.colouring
        state.now.state.mover (number_of state.now.state.game.size point)) }
{
    if state.is_open(point) {
        Some(state.result(point))
    } else {
        None
    }
}

/// What is found about a first turn, with a budget of its own.
pub(crate) fn judge(
    alloc: Global,
    problem: &Problem,
    state: &PlayState,
    turn: Turn,
    budget: Budget,
) -> Result<Judged, AllocError>
    requires { state.now.state ≡ start problem.now }
    ensures { IfOk result
        (λ found. IsJudged problem.now (ply_of problem.now.game.size turn) found) }
{
    // The prover takes a turn that was passed on as moved.
    let same = turn;
    let again = turn;
    let Some(child) = state.child(turn) else {
        return Ok(Judged::Unknown);
    };
    let mover = problem.mover();
    if let Some(winner) = child.winner {
        if winner == mover.opponent() {
            return Ok(Judged::Ends);
        }
        let claim = winning_turn(alloc, problem.size(), mover, same)?;
        return confirmed(alloc, problem, again, claim);
    }
    match problem_after(alloc, problem, state, same)? {
        Some(later) => searched(alloc, problem, again, later, budget),
        None => Ok(Judged::Unknown),
    }
}

/// What is found about a turn of which an answer tree may be known. If the tree begins with the turn, the claim that it spells is
/// checked first, and there is a search only if it spells none or the checker refuses it.
pub(crate) fn judge_with(
    alloc: Global,
    problem: &Problem,
    state: &PlayState,
    turn: Turn,
    known: Option<&Answer>,
    budget: Budget,
) -> Result<Judged, AllocError>
    requires { state.now.state ≡ start problem.now }
    ensures { IfOk result
        (λ found. IsJudged problem.now (ply_of problem.now.game.size turn) found) }
{
    // The prover takes a turn that was passed on as moved.
    let same = turn;
    let again = turn;
    if let Some(answer) = known {
        if begins_with(answer, turn) {
            let found = by_answer(alloc, problem, same, answer)?;
            if !is_unknown(&found) {
                return Ok(found);
            }
        }
    }
    judge(alloc, problem, state, again, budget)
}

/// Whether the answer tree begins with this turn of the side that wins.
fn begins_with(answer: &Answer, turn: Turn) -> bool {
    match answer {
        Answer::Turn(first, _) => *first == turn,
        _ => false,
    }
}

/// Whether nothing is known.
fn is_unknown(judged: &Judged) -> bool {
    match judged {
        Judged::Unknown => true,
        _ => false,
    }
}

/// What an answer tree that begins with the turn shows.
fn by_answer(
    alloc: Global,
    problem: &Problem,
    turn: Turn,
    answer: &Answer,
) -> Result<Judged, AllocError>
    ensures { IfOk result
        (λ found. IsJudged problem.now (ply_of problem.now.game.size turn) found) }
{
    match claim_by(alloc, problem.size(), problem.mover(), answer)? {
        Some(claim) => confirmed(alloc, problem, turn, claim),
        None => Ok(Judged::Unknown),
    }
}

/// What a search finds about the problem after a turn.
fn searched(
    alloc: Global,
    problem: &Problem,
    turn: Turn,
    later: Problem,
    budget: Budget,
) -> Result<Judged, AllocError>
    requires { IsProblemAfter problem.now (ply_of problem.now.game.size turn) later }
    ensures { IfOk result
        (λ found. IsJudged problem.now (ply_of problem.now.game.size turn) found) }
{
    match solve(alloc, later, budget) {
        Verdict::Wins(checked) => {
            if checked.winner() == problem.mover().opponent() {
                return Ok(Judged::Refuted(checked));
            }
            let same = turn;
            let claim = turn_before(alloc, same, checked.certificate())?;
            confirmed(alloc, problem, turn, claim)
        }
        Verdict::Unknown { cause, .. } => match cause {
            Cause::Memory => Err(AllocError),
            _ => Ok(Judged::Unknown),
        },
    }
}

/// The claim as one for the problem itself, if the checker accepts it, the mover wins by it, and it begins with the turn.
fn confirmed(
    alloc: Global,
    problem: &Problem,
    turn: Turn,
    claim: Certificate,
) -> Result<Judged, AllocError>
    ensures { IfOk result
        (λ found. IsJudged problem.now (ply_of problem.now.game.size turn) found) }
{
    let same = problem.copy(alloc)?;
    match check_held(alloc, same, claim) {
        Ok(checked) => Ok(begun(problem, turn, checked)),
        Err((reject, _same, _claim)) => without_claim(reject.why),
    }
}

/// What is found if the checker refuses a claim: nothing is known, unless memory was refused.
fn without_claim(why: Why) -> Result<Judged, AllocError>
    ensures { IfOk result (λ found. found ≡ Unknown) }
{
    match why {
        Why::Memory => Err(AllocError),
        _ => Ok(Judged::Unknown),
    }
}

/// Like `confirmed`, for a claim that was accepted.
fn begun(problem: &Problem, turn: Turn, checked: Checked) -> Judged
    requires { checked.problem ≡ problem.now }
    ensures { IsJudged problem.now (ply_of problem.now.game.size turn) result }
{
    let Some(first) = checked.first_turn() else {
        return Judged::Unknown;
    };
    if first == turn && checked.winner() == problem.mover() {
        return Judged::Right(checked);
    }
    Judged::Unknown
}
