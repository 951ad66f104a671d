//! What is found about all turns of a problem, and about the solution.

ghost use Rattle.std.specs.Prelude.{◌≡◌, IfOk};
ghost use Rattle.target_game.specs.Legal.{legal_turns};
ghost use Rattle.target_game.specs.State.{start};
ghost use Rattle.first_moves.specs.Judged.{AreJudged, IsReply, count, is_right, is_unknown, solution_of};

use crate::judged::{Judged, judge_with};
use crate::names::{Names, before_text, turn_name, worth_name};
use go_points::Turn;
use pn_search::Budget;
use sgf_text::write_bytes;
use solution_tree::Answer;
use std::alloc::{AllocError, Global};
use std::io::Write;
use target_game::{PlayState, Problem, TurnsLeft};

/// How turns are judged and told.
#[derive(Clone, Copy, Debug)]
pub(crate) struct Settings {
    /// The budget of the search after each turn.
    pub(crate) budget: Budget,
    pub(crate) names: Names,
    /// Whether each turn is told on standard error when it has been judged.
    pub(crate) progress: bool,
}

/// A legal turn, and what is found about it.
#[derive(Drop)]
pub(crate) struct Found {
    pub(crate) turn: Turn,
    pub(crate) judged: Judged,
    /// The reply that refutes it, the first turn of that claim.
    pub(crate) reply: Option<Turn>,
}

/// What is known about the solution.
#[derive(Clone, Copy, Debug, PartialEq, Eq)]
pub(crate) enum Solution {
    /// One turn wins, and every other turn is known to lose.
    Unique,
    /// Several turns win, and for every turn it is known who wins.
    Several,
    /// Every turn is known to lose.
    Lost,
    /// Nothing is known about some turn.
    Open,
}

/// How many of the turns win, about how many nothing is known, and what that says about the solution.
#[derive(Clone, Copy, Debug)]
pub(crate) struct Tally {
    pub(crate) solution: Solution,
    pub(crate) winning: usize,
    pub(crate) unknown: usize,
}

/// What is found about each legal turn of the mover, points ascending and then the pass, with a budget for each. A turn whose
/// answer tree is known needs no search. `before` are the turns since the first problem, which notes name.
pub(crate) fn judge_turns<N: Write>(
    alloc: Global,
    problem: &Problem,
    before: &[Turn],
    known: Option<&Answer>,
    settings: &Settings,
    notes: &mut N,
) -> Result<Vec<Found>, AllocError>
    ensures { IfOk result
        (λ found. AreJudged problem.now (legal_turns (start problem.now)) found.items) }
{
    prove!(problem.place() < problem.history().len());
    let state = PlayState::of(alloc, problem)?;
    let count = state.turns().len();
    let mut found = Vec::new(alloc);
    let mut turns_left = TurnsLeft::all();
    while let Some(turn) = state.next_left(&mut turns_left) {
        // The prover treats a turn that was passed on as moved.
        let same = turn;
        let again = turn;
        let judged = judge_with(alloc, problem, &state, turn, known, settings.budget)?;
        if settings.progress {
            let place = place_text(alloc, settings, before, found.len(), count)?;
            tell(alloc, settings, place.as_str(), same, &judged, notes)?;
        }
        let reply = reply_of(&judged);
        found.push(Found {
            turn: again,
            judged,
            reply,
        })?;
    }
    Ok(found)
}

/// The reply that refutes a turn, if a claim does.
fn reply_of(judged: &Judged) -> Option<Turn>
    ensures { IsReply judged.now result }
{
    match judged {
        Judged::Right(_) => None,
        Judged::Refuted(checked) => checked.first_turn(),
        Judged::Ends => None,
        Judged::Unknown => None,
    }
}

/// How far the turns after these are: `after dc eb: 2 of 5`.
fn place_text(
    alloc: Global,
    settings: &Settings,
    before: &[Turn],
    done: usize,
    count: usize,
) -> Result<String, AllocError> {
    let after = before_text(alloc, &settings.names, before)?;
    let number = done.saturating_add(1);
    format!(in alloc; "{after}{number} of {count}")
}

/// Says on `notes` how far the run is. It does not matter if a note cannot be written.
fn tell<N: Write>(
    alloc: Global,
    settings: &Settings,
    place: &str,
    turn: Turn,
    judged: &Judged,
    notes: &mut N,
) -> Result<(), AllocError> {
    let name = turn_name(alloc, &settings.names, turn)?;
    let worth = worth_name(judged);
    let line = format!(in alloc; "first_moves: {place}: {name} {worth}\n")?;
    let _ = write_bytes(line.as_bytes(), notes);
    Ok(())
}

/// What the turns say about the solution.
pub(crate) fn counted(found: &[Found]) -> Tally
    ensures winning { result.winning ≡ count is_right found.now }
    ensures unknown { result.unknown ≡ count is_unknown found.now }
    ensures solution { result.solution
        ≡ solution_of (count is_right found.now) (count is_unknown found.now) }
{
    let mut winning: usize = 0;
    let mut unknown: usize = 0;
    for i in 0..found.len() {
        match &found[i].judged {
            Judged::Right(_) => winning += 1,
            Judged::Unknown => unknown += 1,
            Judged::Refuted(_) => {}
            Judged::Ends => {}
        }
    }
    Tally {
        solution: solution_of(winning, unknown),
        winning,
        unknown,
    }
}

/// What these numbers of winning and unknown turns say about the solution.
fn solution_of(winning: usize, unknown: usize) -> Solution
    ensures { result ≡ solution_of winning unknown }
{
    if unknown > 0 {
        return Solution::Open;
    }
    match winning {
        0 => Solution::Lost,
        1 => Solution::Unique,
        _ => Solution::Several,
    }
}
