//! The entries of a claim of death: states with the killer to move, each with its move.

ghost use Rattle.std.specs.Prelude.{◌≡◌, ◌*◌, ◌<◌, ◌⊎◌, ℕ, [], length, IsTrue, IsFalse, IfOk, OnOk, slice_set};
ghost use Rattle.std.specs.List.{All};
ghost use Rattle.go_points.specs.declared.Cell.TheVariants.{Empty};
ghost use Rattle.go_points.specs.Grid.{cell_at, side_of};
ghost use Rattle.target_game.specs.State.{start};
ghost use Rattle.target_game.specs.Legal.{holds_point};
ghost use Rattle.safe_groups.specs.Areas.{after_answer, own};
ghost use Rattle.safe_groups.specs.Ground.{IsState};
ghost use Rattle.dead_groups.specs.Kills.{is_unsafe, IsLost, IsTaken};
ghost use Rattle.dead_groups.specs.Ground.{entries_of, kill_area, targets_of};
ghost use Rattle.dead_groups.specs.Private.Judged.{AreJudged, IsEntryBy, IsNew, IsSpared, MayBegin};

use crate::body::judge_all;
use crate::entries::is_taken;
use crate::states::{misfits, without_loose, without_unsafe};
use go_points::Colouring;
use safe_groups::{ClaimLines, Counts, Fault, Ground, Stop, count_state, spelled_state};
use std::alloc::AllocError;
use std::io::Read;
use target_game::Problem;

/// The entries that have been judged.
#[derive(Drop)]
pub(crate) struct EntryList {
    pub(crate) states: Vec<Colouring>,
    pub(crate) moves: Vec<usize>,
    /// Whether the killer is to move in the problem.
    pub(crate) moves_first: bool,
    /// Whether the killer may begin with one of them: the past bars none of those after it.
    pub(crate) is_begun: bool,
}

/// The state with a stone of the killer's at this point.
fn with_own(ground: &Ground, state: &Colouring, number: usize) -> Colouring
    requires side { side_of state.now ≡ side_of ground.now.cells }
    requires within { number < side_of ground.now.cells * side_of ground.now.cells }
    ensures value { result ≡ slice_set state.now number (own (kill_area ground.now)) }
    ensures side { side_of result ≡ side_of ground.now.cells }
{
    let mut placed = *state;
    placed.set(state.size().point_at(number), ground.own());
    placed
}

/// The state after the killer's move at this point.
fn entered(ground: &Ground, state: &Colouring, number: usize) -> Colouring
    requires side { side_of state.now ≡ side_of ground.now.cells }
    requires within { number < side_of ground.now.cells * side_of ground.now.cells }
    ensures value { result ≡ after_answer (kill_area ground.now) state.now number }
    ensures side { side_of result ≡ side_of ground.now.cells }
{
    without_loose(ground, &with_own(ground, state, number))
}

/// Whether the killer's stone at this point has a liberty in the region, or a kept stone.
fn stands_at(ground: &Ground, state: &Colouring, number: usize) -> bool
    requires side { side_of state.now ≡ side_of ground.now.cells }
    requires within { number < side_of ground.now.cells * side_of ground.now.cells }
    ensures { IsTrue result → IsFalse (is_unsafe (kill_area ground.now) state.now number) }
{
    without_unsafe(ground, state)
        .cell(number)
        .is_stone_of(ground.keeper)
}

/// Whether nothing that has occurred fits the state.
fn is_new(problem: &Problem, ground: &Ground, state: &Colouring) -> bool
    requires size { problem.now.game.size ≡ side_of ground.now.cells }
    requires state { IsState ground.now state.now }
    ensures { IsTrue result → IsNew (kill_area ground.now) problem.now.history state.now }
{
    for past in problem.history() {
        if !misfits(ground, past, state) {
            return false;
        }
    }
    true
}

/// Where the killer moves in the state, if it is an empty point of the region.
fn move_at(
    problem: &Problem,
    ground: &Ground,
    state: &Colouring,
    turn: Option<usize>,
) -> Result<usize, Fault>
    requires size { problem.now.game.size ≡ side_of ground.now.cells }
    requires side { side_of state.now ≡ side_of ground.now.cells }
    ensures within { IfOk result (λ x. x < side_of ground.now.cells * side_of ground.now.cells) }
    ensures empty { IfOk result (λ x. cell_at state.now x ≡ Empty) }
    ensures allowed { IfOk result (λ x. IsTrue (holds_point problem.now.game.region x)) }
{
    let Some(number) = turn else {
        return Err(Fault::TurnBarred);
    };
    let size = ground.size();
    if number >= size.area() || !ground.cells.cell(number).is_empty() {
        return Err(Fault::TurnBarred);
    }
    if !state.cell(number).is_empty() {
        return Err(Fault::TurnBarred);
    }
    if !problem.region().has(size.point_at(number)) {
        return Err(Fault::TurnBarred);
    }
    Ok(number)
}

/// An entry's state and move.
#[derive(Clone, Copy, Debug)]
struct Played {
    state: Colouring,
    number: usize,
}

/// The entry of the line.
fn read_entry<R: Read>(
    problem: &Problem,
    ground: &Ground,
    lines: &ClaimLines<'_, R>,
    counts: &mut Counts,
) -> Result<Played, Stop>
    requires size { problem.now.game.size ≡ side_of ground.now.cells }
    ensures state { IfOk result (λ it. IsState ground.now it.state) }
    ensures within { IfOk result
        (λ it. it.number < side_of ground.now.cells * side_of ground.now.cells) }
    ensures empty { IfOk result (λ it. cell_at it.state it.number ≡ Empty) }
    ensures allowed { IfOk result (λ it. IsTrue (holds_point problem.now.game.region it.number)) }
{
    if !lines.is(b"entry", 3) {
        return Err(Stop::Fault(Fault::Malformed));
    }
    let Some(state) = lines.word(1).and_then(|word| spelled_state(ground, word)) else {
        return Err(Stop::Fault(Fault::Malformed));
    };
    let turn = lines.turn_at(ground.size(), 2)?;
    count_state(counts)?;
    if !ground.is_state(&state) {
        return Err(Stop::Fault(Fault::Malformed));
    }
    if without_loose(ground, &state) != state {
        return Err(Stop::Fault(Fault::NoLiberty));
    }
    match move_at(problem, ground, &state, turn) {
        Ok(number) => Ok(Played { state, number }),
        Err(fault) => Err(Stop::Fault(fault)),
    }
}

/// The state after the killer's move, if its stone stands there.
fn result_of(ground: &Ground, state: &Colouring, number: usize) -> Result<Colouring, Fault>
    requires side { side_of state.now ≡ side_of ground.now.cells }
    requires within { number < side_of ground.now.cells * side_of ground.now.cells }
    ensures value { IfOk result (λ c. c ≡ after_answer (kill_area ground.now) state.now number) }
    ensures stands { IfOk result (λ c. IsFalse (is_unsafe (kill_area ground.now) c number)) }
    ensures state { IfOk result (λ c. IsState ground.now c) }
{
    let after = entered(ground, state, number);
    if !stands_at(ground, &after, number) {
        return Err(Fault::OwnStonesTaken);
    }
    if !ground.is_state(&after) {
        return Err(Fault::Malformed);
    }
    Ok(after)
}

/// Judges what an entry leads to: a target is taken, or all replies go on.
fn judge_result<R: Read>(
    ground: &Ground,
    targets: &Colouring,
    states: &[Colouring],
    after: &Colouring,
    lines: &mut ClaimLines<'_, R>,
    counts: &mut Counts,
) -> Result<(), Stop>
    requires targets { side_of targets.now ≡ side_of ground.now.cells }
    requires states { All (IsState ground.now) states.now }
    requires state { IsState ground.now after.now }
    ensures { OnOk result (IsTaken (kill_area ground.now) (targets_of ground.now targets.now) after.now
        ⊎ IsLost (kill_area ground.now) (targets_of ground.now targets.now)
        (entries_of states.now []) (length states.now) after.now) }
{
    lines.next_line()?;
    if lines.is(b"taken", 1) {
        if !is_taken(ground, targets, after) {
            return Err(Stop::Fault(Fault::NotWon));
        }
        return Ok(());
    }
    if !lines.is(b"all", 2) {
        return Err(Stop::Fault(Fault::Malformed));
    }
    let count = lines.number_at(1)?;
    if is_taken(ground, targets, after) {
        return Err(Stop::Fault(Fault::WrongSide));
    }
    judge_all(ground, targets, states, after, count, lines, counts)
}

impl EntryList {
    /// Whether the past does not count for an entry that leads to this state: the killer may begin before it, or with it.
    fn is_spared(
        &self,
        problem: &Problem,
        ground: &Ground,
        targets: &Colouring,
        played: &Played,
        after: &Colouring,
    ) -> bool
        requires judged { AreJudged problem.now ground.now (targets_of ground.now targets.now)
            self.now }
        requires board { side_of (start problem.now).colouring ≡ side_of ground.now.cells }
        requires state { IsState ground.now after.now }
        requires after { after.now
            ≡ after_answer (kill_area ground.now) played.now.state played.now.number }
        ensures { IsTrue result
            → IsSpared problem.now ground.now self.now played.now.state played.now.number }
    {
        if self.is_begun {
            return true;
        }
        if self.moves_first {
            return false;
        }
        ground.fits(problem.colouring(), after)
    }

    /// Whether the killer may begin with this entry, or before it.
    fn may_begin(
        &self,
        problem: &Problem,
        ground: &Ground,
        played: &Played,
        is_spared: bool,
    ) -> bool
        requires board { side_of (start problem.now).colouring ≡ side_of ground.now.cells }
        requires state { IsState ground.now played.now.state }
        requires spared { IsTrue is_spared
            → IsSpared problem.now ground.now self.now played.now.state played.now.number }
        ensures { IsTrue result
            → MayBegin problem.now ground.now self.now played.now.state played.now.number }
    {
        if is_spared {
            return true;
        }
        if !self.moves_first {
            return false;
        }
        ground.fits(problem.colouring(), &played.state)
    }

    /// Adds an entry.
    fn add(
        &mut self,
        problem: &Problem,
        ground: &Ground,
        targets: &Colouring,
        played: &Played,
        is_begun: bool,
    ) -> Result<(), AllocError>
        requires judged { AreJudged problem.now ground.now (targets_of ground.now targets.now)
            self.old }
        requires state { IsState ground.now played.now.state }
        requires allowed { IsTrue (holds_point problem.now.game.region played.now.number) }
        requires entry { IsEntryBy (kill_area ground.now) (targets_of ground.now targets.now)
            (entries_of self.old.states.items []) (length self.old.states.items)
            played.now.state played.now.number }
        requires past { IsSpared problem.now ground.now self.old played.now.state played.now.number
            ⊎ IsNew (kill_area ground.now) problem.now.history
            (after_answer (kill_area ground.now) played.now.state played.now.number) }
        requires begun { IsTrue is_begun
            → MayBegin problem.now ground.now self.old played.now.state played.now.number }
        ensures { OnOk result
            (AreJudged problem.now ground.now (targets_of ground.now targets.now) self.new) }
    {
        self.states.push(played.state)?;
        self.moves.push(played.number)?;
        self.is_begun = is_begun;
        Ok(())
    }

    /// Judges the entry of the line, and what it leads to, and adds it.
    pub(crate) fn judge_entry<R: Read>(
        &mut self,
        problem: &Problem,
        ground: &Ground,
        targets: &Colouring,
        lines: &mut ClaimLines<'_, R>,
        counts: &mut Counts,
    ) -> Result<(), Stop>
        requires judged { AreJudged problem.now ground.now (targets_of ground.now targets.now)
            self.old }
        requires size { problem.now.game.size ≡ side_of ground.now.cells }
        requires board { side_of (start problem.now).colouring ≡ side_of ground.now.cells }
        requires targets { side_of targets.now ≡ side_of ground.now.cells }
        ensures { OnOk result
            (AreJudged problem.now ground.now (targets_of ground.now targets.now) self.new) }
    {
        let played = read_entry(problem, ground, lines, counts)?;
        let after = match result_of(ground, &played.state, played.number) {
            Ok(after) => after,
            Err(fault) => return Err(Stop::Fault(fault)),
        };
        let is_spared = self.is_spared(problem, ground, targets, &played, &after);
        if !is_spared && !is_new(problem, ground, &after) {
            return Err(Stop::Fault(Fault::PastBars));
        }
        judge_result(
            ground,
            targets,
            self.states.as_slice(),
            &after,
            lines,
            counts,
        )?;
        let is_begun = self.may_begin(problem, ground, &played, is_spared);
        match self.add(problem, ground, targets, &played, is_begun) {
            Ok(()) => Ok(()),
            Err(_) => Err(Stop::Memory),
        }
    }
}
