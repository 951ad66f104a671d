//! The judge of a claim: its lines, one after another, until the first fault or the end.

ghost use Rattle.std.specs.Prelude.{◌≡◌, ◌≢◌, ◌*◌, ◌<◌, ℕ, List, [], length, get_or, IsTrue, OnOk, IfOk, Option, Some, None, is_some};
ghost use Rattle.std.specs.List.{All};
ghost use Rattle.go_points.specs.declared.Cell.TheVariants.{Empty};
ghost use Rattle.go_points.specs.Grid.{cell_at, side_of};
ghost use Rattle.target_game.specs.State.{start};
ghost use Rattle.safe_groups.specs.Areas.{clear_loose, IsAnswered};
ghost use Rattle.safe_groups.specs.Ground.{area_of, ground_at, state_at, states_of, AllSafe, AreJudged, AreStates, HasReplies, IsJudged, IsMoveAnswered, IsSafeAs, IsSettled, IsSized, IsState, IsStateAnswered};

use crate::fault::{Fault, Stop};
use crate::ground::Ground;
use crate::heads::cell_of;
use crate::lines::ClaimLines;
use crate::states::Exchange;
use go_points::{Cell, Colouring, Size};
use std::alloc::Global;
use std::io::Read;

/// The greatest number of states of a claim.
const MAX_STATES: usize = 65_535;

/// The greatest number of replies of a claim.
const MAX_REPLIES: usize = 10_000_000;

/// How many states and replies a claim has had.
#[derive(Clone, Copy, Debug)]
pub struct Counts {
    pub states: usize,
    pub replies: usize,
}

impl Counts {
    /// None so far.
    pub fn new() -> Counts {
        Counts {
            states: 0,
            replies: 0,
        }
    }
}

/// Counts one state more.
pub fn count_state(counts: &mut Counts) -> Result<(), Stop> {
    counts.states = counts.states.saturating_add(1);
    if counts.states > MAX_STATES {
        return Err(Stop::Fault(Fault::Limit));
    }
    Ok(())
}

/// Counts one reply more.
pub fn count_reply(counts: &mut Counts) -> Result<(), Stop> {
    counts.replies = counts.replies.saturating_add(1);
    if counts.replies > MAX_REPLIES {
        return Err(Stop::Fault(Fault::Limit));
    }
    Ok(())
}

/// The state that these letters spell, one for each point of the region.
pub fn spelled_state(ground: &Ground, word: &[u8]) -> Option<Colouring> {
    let mut state = ground.cells;
    let mut place: usize = 0;
    for number in 0..state.size().area() {
        if ground.cells.size().area() > number && ground.cells.cell(number).is_empty() {
            let cell = cell_of(word.get(place).copied().unwrap_or(b' '))?;
            if state.size().area() > number {
                state.set(state.size().point_at(number), cell);
            }
            place = place.saturating_add(1);
        }
    }
    if place == word.len() {
        Some(state)
    } else {
        None
    }
}

/// Puts a state into the list, if it is one of the area at rest.
fn add_state(
    ground: &Ground,
    state: &Colouring,
    states: &mut Vec<Colouring>,
    counts: &mut Counts,
) -> Result<(), Stop>
    requires sized { IsSized (side_of ground.now.cells) ground.now }
    requires states { AreStates ground.now states.old.items }
    ensures states { OnOk result (AreStates ground.now states.new.items) }
    ensures first { OnOk result ((0 < length states.old.items
        → get_or states.new.items 0 [] ≡ get_or states.old.items 0 [])) }
    ensures only { OnOk result (length states.old.items ≡ 0
        → get_or states.new.items 0 [] ≡ state.now) }
    ensures more { OnOk result (0 < length states.new.items) }
{
    count_state(counts)?;
    if !ground.is_state(state) {
        return Err(Stop::Fault(Fault::Malformed));
    }
    if !ground.is_at_rest(state) {
        return Err(Stop::Fault(Fault::NoLiberty));
    }
    match states.push(*state) {
        Ok(()) => Ok(()),
        Err(_) => Err(Stop::Memory),
    }
}

/// Reads the states of an area, the first of which is given, up to the line after the last.
fn read_states<R: Read>(
    alloc: Global,
    ground: &Ground,
    start: &Colouring,
    lines: &mut ClaimLines<'_, R>,
    counts: &mut Counts,
) -> Result<Vec<Colouring>, Stop>
    requires sized { IsSized (side_of ground.now.cells) ground.now }
    ensures states { IfOk result (λ v. AreStates ground.now v.items) }
    ensures first { IfOk result (λ v. get_or v.items 0 [] ≡ start.now) }
    ensures more { IfOk result (λ v. 0 < length v.items) }
{
    let mut states = Vec::new(alloc);
    add_state(ground, start, &mut states, counts)?;
    for _ in 0..MAX_STATES {
        lines.next_line()?;
        if !lines.is(b"state", 2) {
            return Ok(states);
        }
        let Some(state) = lines.word(1).and_then(|word| spelled_state(ground, word)) else {
            return Err(Stop::Fault(Fault::Malformed));
        };
        add_state(ground, &state, &mut states, counts)?;
    }
    Err(Stop::Fault(Fault::Limit))
}

/// How many replies are due in the state.
fn count_due(ground: &Ground, state: &Colouring) -> Result<usize, Stop>
    requires sized { IsSized (side_of ground.now.cells) ground.now }
    requires state { IsSettled ground.now state.now }
{
    let size = ground.size();
    let mut due: usize = 0;
    for number in 0..size.area() {
        match ground.exchange(state, number) {
            Exchange::Nothing => {}
            Exchange::Takes => {
                return Err(Stop::Fault(Fault::StonesTaken {
                    point: size.point_at(number),
                }));
            }
            Exchange::Leaves(_) => due = due.saturating_add(1),
        }
    }
    Ok(due)
}

/// Reads a reply's line, which has to be to the move at this point. Gives the answer, and the number of the state that is named.
fn read_reply<R: Read>(
    size: Size,
    number: usize,
    lines: &mut ClaimLines<'_, R>,
    counts: &mut Counts,
) -> Result<(Option<usize>, usize), Stop>
    requires { number < size * size }
{
    lines.next_line()?;
    if !lines.is(b"reply", 4) {
        return Err(Stop::Fault(Fault::Malformed));
    }
    let next = lines.number_at(3)?;
    let turn = lines.turn_at(size, 1)?;
    let answer = lines.turn_at(size, 2)?;
    count_reply(counts)?;
    if turn != Some(number) {
        return Err(Stop::Fault(Fault::ReplyDue {
            point: size.point_at(number),
        }));
    }
    Ok((answer, next))
}

/// Why the keeper may not answer at the point; none if he may.
fn answer_fault(ground: &Ground, left: &Colouring, answer: usize) -> Option<Fault>
    requires sized { IsSized (side_of ground.now.cells) ground.now }
    requires side { side_of left.now ≡ side_of ground.now.cells }
{
    if answer >= ground.size().area() || !ground.cells.cell(answer).is_empty() {
        return Some(Fault::TurnBarred);
    }
    if !left.cell(answer).is_empty() {
        return Some(Fault::TurnBarred);
    }
    if !ground.is_answer(answer) {
        return Some(Fault::PastBars);
    }
    None
}

/// Judges the reply to the move at this point, which leaves this of the state.
fn judge_reply<R: Read>(
    ground: &Ground,
    states: &[Colouring],
    left: &Colouring,
    number: usize,
    lines: &mut ClaimLines<'_, R>,
    counts: &mut Counts,
) -> Result<(), Stop>
    requires sized { IsSized (side_of ground.now.cells) ground.now }
    requires states { AreStates ground.now states.now }
    requires side { side_of left.now ≡ side_of ground.now.cells }
    requires clear { clear_loose (area_of ground.now) left.now ≡ left.now }
    requires within { number < side_of ground.now.cells * side_of ground.now.cells }
    ensures { OnOk result (IsAnswered (area_of ground.now) (states_of states.now) left.now) }
{
    let (answer, next) = read_reply(ground.size(), number, lines, counts)?;
    if let Some(point) = answer
        && let Some(fault) = answer_fault(ground, left, point)
    {
        return Err(Stop::Fault(fault));
    }
    if next == 0 || next > states.len() {
        return Err(Stop::Fault(Fault::NoSuchNumber));
    }
    if !ground.is_answered(states, left, answer, next - 1) {
        return Err(Stop::Fault(Fault::NotCovered));
    }
    Ok(())
}

/// Judges what a move at this point of the state comes to, with its reply if one is due.
fn judge_move<R: Read>(
    ground: &Ground,
    states: &[Colouring],
    state: &Colouring,
    number: usize,
    lines: &mut ClaimLines<'_, R>,
    counts: &mut Counts,
) -> Result<(), Stop>
    requires sized { IsSized (side_of ground.now.cells) ground.now }
    requires states { AreStates ground.now states.now }
    requires state { IsSettled ground.now state.now }
    requires listed { IsTrue (states_of states.now state.now) }
    requires within { number < side_of ground.now.cells * side_of ground.now.cells }
    ensures { OnOk result (cell_at state.now number ≡ Empty
        → IsMoveAnswered (area_of ground.now) (states_of states.now) state.now number) }
{
    match ground.exchange(state, number) {
        Exchange::Nothing => Ok(()),
        Exchange::Takes => Err(Stop::Fault(Fault::Malformed)),
        Exchange::Leaves(left) => judge_reply(ground, states, &left, number, lines, counts),
    }
}

/// Judges the replies to all moves in the state.
fn judge_moves<R: Read>(
    ground: &Ground,
    states: &[Colouring],
    state: &Colouring,
    lines: &mut ClaimLines<'_, R>,
    counts: &mut Counts,
) -> Result<(), Stop>
    requires sized { IsSized (side_of ground.now.cells) ground.now }
    requires states { AreStates ground.now states.now }
    requires state { IsSettled ground.now state.now }
    requires listed { IsTrue (states_of states.now state.now) }
    ensures { OnOk result
        (IsStateAnswered (area_of ground.now) (states_of states.now) state.now) }
{
    if !lines.is(b"all", 2) {
        return Err(Stop::Fault(Fault::Malformed));
    }
    let count = lines.number_at(1)?;
    let due = count_due(ground, state)?;
    if count != due {
        return Err(Stop::Fault(Fault::ReplyCount { due }));
    }
    for number in 0..ground.size().area() {
        judge_move(ground, states, state, number, lines, counts)?;
    }
    Ok(())
}

/// Judges a state, whose line has been read: nothing is to be answered in it, or each move is answered.
fn judge_state<R: Read>(
    ground: &Ground,
    states: &[Colouring],
    state: &Colouring,
    lines: &mut ClaimLines<'_, R>,
    counts: &mut Counts,
) -> Result<(), Stop>
    requires sized { IsSized (side_of ground.now.cells) ground.now }
    requires states { AreStates ground.now states.now }
    requires state { IsSettled ground.now state.now }
    requires listed { IsTrue (states_of states.now state.now) }
    ensures { OnOk result (IsJudged ground.now states.now state.now) }
{
    if !lines.is(b"rest", 1) {
        return judge_moves(ground, states, state, lines, counts);
    }
    if !ground.is_resting(state) {
        return Err(Stop::Fault(Fault::NotAtRest));
    }
    Ok(())
}

/// Judges all states; the line of the first has been read.
fn judge_states<R: Read>(
    ground: &Ground,
    states: &[Colouring],
    lines: &mut ClaimLines<'_, R>,
    counts: &mut Counts,
) -> Result<(), Stop>
    requires sized { IsSized (side_of ground.now.cells) ground.now }
    requires states { AreStates ground.now states.now }
    ensures { OnOk result (AreJudged ground.now states.now) }
{
    for place in 0..states.len() {
        judge_state(ground, states, &states[place], lines, counts)?;
        lines.next_line()?;
    }
    Ok(())
}

/// Judges the body of an area whose first state is given; its first line has been read.
pub(crate) fn judge_body<R: Read>(
    alloc: Global,
    ground: &Ground,
    start: &Colouring,
    lines: &mut ClaimLines<'_, R>,
    counts: &mut Counts,
) -> Result<(), Stop>
    requires sized { IsSized (side_of ground.now.cells) ground.now }
    requires given { (p : ℕ) → IsTrue ((area_of ground.now).gives p)
        → IsTrue ((area_of ground.now).kept p) }
    ensures { OnOk result (HasReplies ground.now start.now) }
{
    if !lines.is(b"body", 1) {
        return Err(Stop::Fault(Fault::Malformed));
    }
    let states = read_states(alloc, ground, start, lines, counts)?;
    judge_states(ground, states.as_slice(), lines, counts)?;
    if !lines.is(b"end", 1) {
        return Err(Stop::Fault(Fault::Malformed));
    }
    Ok(())
}
