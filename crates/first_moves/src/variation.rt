//! A line of play for people: the winner's turns of a short claim, and replies that threaten something. The answer tree of a full
//! claim goes on until something is captured, which people do not play out.

use crate::line::turn_made;
use crate::replies::{Reply, first_below, longest_below, replies_of};
use crate::threat::threatens;
use go_points::{Colour, Colouring, Point, Turn};
use sgf_text::Tree;
use std::alloc::{AllocError, Global};
use std::num::NonZeroUsize;
use target_game::{PlayState, Problem};
use tsumego_problem::first_marked;

/// The most turns of such a line, and the most replies that are tried for one that threatens something.
const MAX_LINE: u64 = 21;

const MAX_TRIED: u64 = 12;

/// A line of play for people.
#[derive(Drop)]
pub(crate) struct Variation {
    pub(crate) turns: Vec<Turn>,
    /// How many stones the winner loses on it.
    pub(crate) lost: usize,
    /// Whether a ko is taken on it.
    pub(crate) has_ko: bool,
}

/// What a move captures.
#[derive(Clone, Copy, Debug)]
struct Capture {
    stones: usize,
    /// Whether it is one stone, by a stone that is alone and has no further liberty.
    is_ko: bool,
}

/// The line without turns.
pub(crate) fn no_turns(alloc: Global) -> Variation {
    Variation {
        turns: Vec::new(alloc),
        lost: 0,
        has_ko: false,
    }
}

/// The line of this record for readers, in which this side wins the problem. It ends where no reply threatens anything, where the
/// record does, or where a target is captured.
pub(crate) fn variation_of(
    alloc: Global,
    problem: &Problem,
    winner: Colour,
    record: &Tree,
    table: NonZeroUsize,
) -> Result<Variation, AllocError> {
    let all = replies_of(alloc, problem.size(), record)?;
    let mut place = first_marked(record.nodes()).unwrap_or(0);
    let mut position = problem.copy(alloc)?;
    let mut turns = Vec::new(alloc);
    let mut lost: usize = 0;
    let mut has_ko = false;
    for _ in 0..MAX_LINE {
        let is_winners = position.mover() == winner;
        let replies = all.as_slice();
        let next = next_turn(alloc, &position, is_winners, replies, place, table)?;
        let Some((number, turn)) = next else {
            break;
        };
        // The prover takes a turn that was passed on as moved.
        let same = turn;
        let again = turn;
        let capture = capture_of(alloc, &position, turn)?;
        if !is_winners {
            lost = lost.saturating_add(capture.stones);
        }
        if capture.is_ko {
            has_ko = true;
        }
        turns.push(same)?;
        place = number;
        let Some(later) = turn_made(alloc, &position, again)? else {
            break;
        };
        position = later;
    }
    Ok(Variation {
        turns,
        lost,
        has_ko,
    })
}

/// The turn that the line goes on with below this node, and its number.
fn next_turn(
    alloc: Global,
    position: &Problem,
    is_winners: bool,
    replies: &[Reply],
    above: usize,
    table: NonZeroUsize,
) -> Result<Option<(usize, Turn)>, AllocError> {
    if is_winners {
        return Ok(first_below(replies, above));
    }
    let mut last = None;
    for _ in 0..MAX_TRIED {
        let Some((number, turn)) = longest_below(replies, above, last) else {
            return Ok(None);
        };
        let same = turn;
        if threatens(alloc, position, turn, table)? {
            return Ok(Some((number, same)));
        }
        last = Some(number);
    }
    Ok(None)
}

/// What the turn captures; nothing if it is no legal move.
fn capture_of(alloc: Global, position: &Problem, turn: Turn) -> Result<Capture, AllocError> {
    match turn {
        Turn::Pass => Ok(Capture {
            stones: 0,
            is_ko: false,
        }),
        Turn::At(point) => {
            prove!(position.place() < position.history().len());
            let state = PlayState::of(alloc, position)?;
            Ok(captured_at(&state, position.mover(), point))
        }
    }
}

/// The same of the mover's move at a point.
fn captured_at(state: &PlayState, mover: Colour, point: Point) -> Capture {
    let nothing = Capture {
        stones: 0,
        is_ko: false,
    };
    if !state.size().holds(point) {
        return nothing;
    }
    if !state.is_open(point) {
        return nothing;
    }
    let before = state.colouring();
    let after = state.result(point);
    let other = mover.opponent();
    let stones = stones_of(&before, other).saturating_sub(stones_of(&after, other));
    if stones != 1 {
        return Capture {
            stones,
            is_ko: false,
        };
    }
    Capture {
        stones,
        is_ko: is_in_atari_alone(&after, mover, point),
    }
}

/// How many stones of this colour there are.
fn stones_of(colouring: &Colouring, colour: Colour) -> usize {
    let size = colouring.size();
    let mut count: usize = 0;
    for number in 0..size.area() {
        if colouring.cell(number).is_stone_of(colour) {
            count = count.saturating_add(1);
        }
    }
    count
}

/// Whether the stone of this colour at the point is alone, and has one liberty.
fn is_in_atari_alone(colouring: &Colouring, colour: Colour, point: Point) -> bool {
    let size = colouring.size();
    if !size.holds(point) {
        return false;
    }
    let mut liberties: usize = 0;
    for near in point.neighbours(size) {
        if !size.holds(near) {
            return false;
        }
        let cell = colouring.get(near);
        if cell.is_stone_of(colour) {
            return false;
        }
        if cell.is_empty() {
            liberties = liberties.saturating_add(1);
        }
    }
    liberties == 1
}
