//! What the turns of a line say of it.

ghost use Rattle.std.specs.Prelude.{◌≡◌, ◌+◌, length, IfNone, IsTrue};
ghost use Rattle.std.specs.List.{list_all};
ghost use Rattle.first_moves.specs.Line.{IfUnique, has_one};

use crate::found::{Solution, Tally, counted};
use crate::line::Later;

/// What is known of a line. Turns are the mover's, counted from 1, which is the first one.
#[derive(Clone, Copy, Debug, PartialEq, Eq)]
pub(crate) enum LineSolution {
    /// At each of so many turns one wins, and every other is known to lose.
    Unique(usize),
    /// Several win at this turn, and at none before.
    Several(usize),
    /// At no turn several are known to win, and this is the first at which something is unknown: of so many.
    Open(usize, usize),
    /// Every first turn is known to lose, so there is no line.
    Lost,
}

/// What the first turns and those of the later ones say of the line.
pub(crate) fn line_solution(first: Tally, later: &[Later]) -> LineSolution
    ensures { IfUnique result (λ n. (n ≡ length later.now + 1) × (first.winning ≡ 1)
        × (first.unknown ≡ 0) × IsTrue (list_all has_one later.now)) }
{
    if first.winning > 1 {
        return LineSolution::Several(1);
    }
    if let Some(turn) = first_several(later) {
        return LineSolution::Several(turn);
    }
    if first.winning != 1 || first.unknown != 0 {
        return without_answer(first);
    }
    match first_open(later) {
        Some((turn, unknown)) => LineSolution::Open(turn, unknown),
        None => LineSolution::Unique(later.len().saturating_add(1)),
    }
}

/// What is known where no first turn is known to win.
fn without_answer(first: Tally) -> LineSolution
    ensures { IfUnique result (λ _. ⊥) }
{
    if first.solution == Solution::Lost {
        LineSolution::Lost
    } else {
        LineSolution::Open(1, first.unknown)
    }
}

/// The first later turn at which several win.
fn first_several(later: &[Later]) -> Option<usize> {
    for i in 0..later.len() {
        if counted(later[i].found.as_slice()).winning > 1 {
            return Some(i.saturating_add(2));
        }
    }
    None
}

/// The first later turn at which it is not so that one wins and every other is known to lose, and how many are unknown there.
fn first_open(later: &[Later]) -> Option<(usize, usize)>
    ensures { IfNone result (IsTrue (list_all has_one later.now)) }
{
    for i in 0..later.len() {
        let tally = counted(later[i].found.as_slice());
        if tally.winning != 1 || tally.unknown != 0 {
            return Some((i.saturating_add(2), tally.unknown));
        }
    }
    None
}
