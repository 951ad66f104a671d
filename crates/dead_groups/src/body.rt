//! The judge of the replies in a claim of death: what the other side's moves in a state lead to.

ghost use Rattle.std.specs.Prelude.{◌≡◌, ◌*◌, ◌<◌, ℕ, [], length, OnOk};
ghost use Rattle.std.specs.List.{All};
ghost use Rattle.go_points.specs.declared.Cell.TheVariants.{Empty};
ghost use Rattle.go_points.specs.Grid.{cell_at, side_of};
ghost use Rattle.safe_groups.specs.Ground.{IsState};
ghost use Rattle.dead_groups.specs.Kills.{IsFurther, IsLost};
ghost use Rattle.dead_groups.specs.Ground.{entries_of, kill_area, targets_of, IsMoveMet};

use crate::entries::{Outcome, attack, is_met};
use go_points::{Colouring, Size};
use safe_groups::{ClaimLines, Counts, Fault, Ground, Stop, count_reply};
use std::io::Read;

/// That a reply to this move is due, or to a pass.
fn reply_due(size: Size, turn: Option<usize>) -> Fault {
    match turn {
        Some(number) if number < size.area() => Fault::ReplyDue {
            point: size.point_at(number),
        },
        _ => Fault::PassDue,
    }
}

/// Reads a reply's line, which has to be to this move, or to a pass. Gives the number of the entry that is named.
fn read_reply<R: Read>(
    size: Size,
    turn: Option<usize>,
    lines: &mut ClaimLines<'_, R>,
    counts: &mut Counts,
) -> Result<usize, Stop> {
    lines.next_line()?;
    if !lines.is(b"reply", 3) {
        return Err(Stop::Fault(Fault::Malformed));
    }
    let next = lines.number_at(2)?;
    let read = lines.turn_at(size, 1)?;
    count_reply(counts)?;
    if read != turn {
        return Err(Stop::Fault(reply_due(size, turn)));
    }
    Ok(next)
}

/// Judges that the entry of this number, from 1, covers the state.
pub(crate) fn judge_cover(
    ground: &Ground,
    targets: &Colouring,
    states: &[Colouring],
    left: &Colouring,
    next: usize,
) -> Result<(), Stop>
    requires states { All (IsState ground.now) states.now }
    requires side { side_of left.now ≡ side_of ground.now.cells }
    ensures { OnOk result (IsFurther (kill_area ground.now) (targets_of ground.now targets.now)
        (entries_of states.now []) (length states.now) left.now) }
{
    if next == 0 || next > states.len() {
        return Err(Stop::Fault(Fault::NoSuchNumber));
    }
    if !is_met(ground, states, left, next - 1) {
        return Err(Stop::Fault(Fault::NotCovered));
    }
    Ok(())
}

/// Judges the reply to this move, or to a pass, which leaves this of the state.
fn judge_reply<R: Read>(
    ground: &Ground,
    targets: &Colouring,
    states: &[Colouring],
    left: &Colouring,
    turn: Option<usize>,
    lines: &mut ClaimLines<'_, R>,
    counts: &mut Counts,
) -> Result<(), Stop>
    requires states { All (IsState ground.now) states.now }
    requires side { side_of left.now ≡ side_of ground.now.cells }
    ensures { OnOk result (IsFurther (kill_area ground.now) (targets_of ground.now targets.now)
        (entries_of states.now []) (length states.now) left.now) }
{
    let next = read_reply(ground.size(), turn, lines, counts)?;
    judge_cover(ground, targets, states, left, next)
}

/// Judges what a move at this point of the state comes to, with its reply if one is due.
fn judge_move<R: Read>(
    ground: &Ground,
    targets: &Colouring,
    states: &[Colouring],
    state: &Colouring,
    number: usize,
    lines: &mut ClaimLines<'_, R>,
    counts: &mut Counts,
) -> Result<(), Stop>
    requires targets { side_of targets.now ≡ side_of ground.now.cells }
    requires states { All (IsState ground.now) states.now }
    requires state { IsState ground.now state.now }
    requires within { number < side_of ground.now.cells * side_of ground.now.cells }
    ensures { OnOk result (cell_at state.now number ≡ Empty
        → IsMoveMet (kill_area ground.now) (targets_of ground.now targets.now) states.now
        state.now number) }
{
    match attack(ground, targets, state, number) {
        Outcome::Nothing => Ok(()),
        Outcome::Taken => Ok(()),
        Outcome::Unsure => Err(Stop::Fault(Fault::UnsureLoss {
            point: ground.size().point_at(number),
        })),
        Outcome::Leaves(left) => {
            judge_reply(ground, targets, states, &left, Some(number), lines, counts)
        }
    }
}

/// How many replies are due in the state, the one to a pass included.
fn count_due(ground: &Ground, targets: &Colouring, state: &Colouring) -> Result<usize, Stop>
    requires targets { side_of targets.now ≡ side_of ground.now.cells }
    requires state { IsState ground.now state.now }
{
    let size = ground.size();
    let mut due: usize = 1;
    for number in 0..size.area() {
        match attack(ground, targets, state, number) {
            Outcome::Nothing => {}
            Outcome::Taken => {}
            Outcome::Unsure => {
                return Err(Stop::Fault(Fault::UnsureLoss {
                    point: size.point_at(number),
                }));
            }
            Outcome::Leaves(_) => due = due.saturating_add(1),
        }
    }
    Ok(due)
}

/// Judges the replies to all moves in the state.
fn judge_moves<R: Read>(
    ground: &Ground,
    targets: &Colouring,
    states: &[Colouring],
    state: &Colouring,
    lines: &mut ClaimLines<'_, R>,
    counts: &mut Counts,
) -> Result<(), Stop>
    requires targets { side_of targets.now ≡ side_of ground.now.cells }
    requires states { All (IsState ground.now) states.now }
    requires state { IsState ground.now state.now }
    ensures { OnOk result ((x : ℕ) → x < side_of ground.now.cells * side_of ground.now.cells
        → cell_at state.now x ≡ Empty → IsMoveMet (kill_area ground.now)
        (targets_of ground.now targets.now) states.now state.now x) }
{
    for number in 0..ground.size().area() {
        judge_move(ground, targets, states, state, number, lines, counts)?;
    }
    Ok(())
}

/// Judges so many replies in the state with the other side to move: whatever it does, one of the entries goes on.
///
/// For each point of the region it takes some ten sweeps over the board, twice.
pub(crate) fn judge_all<R: Read>(
    ground: &Ground,
    targets: &Colouring,
    states: &[Colouring],
    state: &Colouring,
    count: usize,
    lines: &mut ClaimLines<'_, R>,
    counts: &mut Counts,
) -> Result<(), Stop>
    requires targets { side_of targets.now ≡ side_of ground.now.cells }
    requires states { All (IsState ground.now) states.now }
    requires state { IsState ground.now state.now }
    ensures { OnOk result (IsLost (kill_area ground.now) (targets_of ground.now targets.now)
        (entries_of states.now []) (length states.now) state.now) }
{
    let due = count_due(ground, targets, state)?;
    if count != due {
        return Err(Stop::Fault(Fault::ReplyCount { due }));
    }
    judge_moves(ground, targets, states, state, lines, counts)?;
    judge_reply(ground, targets, states, state, None, lines, counts)
}
