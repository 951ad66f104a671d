//! The judge of a claim of death for a problem.

ghost use Rattle.std.specs.Prelude.{◌≡◌, ◌*◌, ◌<◌, ◌⊎◌, ℕ, length, IsTrue, IsFalse, IfOk, OnOk};
ghost use Rattle.go_points.specs.declared.Cell.TheVariants.{Stone};
ghost use Rattle.go_points.specs.Grid.{cell_at, opponent_of, side_of};
ghost use Rattle.target_game.specs.State.{start};
ghost use Rattle.target_game.specs.Legal.{holds_point};
ghost use Rattle.safe_groups.specs.Areas.{own};
ghost use Rattle.safe_groups.specs.Together.{IsKept};
ghost use Rattle.safe_groups.specs.Ground.{area_of, areas_of, ground_at, state_at, HasReplies, HoldsOn};
ghost use Rattle.dead_groups.specs.Ground.{kill_area, targets_of};
ghost use Rattle.dead_groups.specs.Claims.{AreDead};
ghost use Rattle.dead_groups.specs.Private.Judged.{AreJudged, IsAnswered, IsEntered, IsPlaced, IsRoot};

use crate::body::{judge_all, judge_cover};
use crate::entries::is_met;
use crate::entry_list::EntryList;
use crate::kill::{Kill, judge_kill, supposed_stones};
use go_points::{Colour, Colouring};
use safe_groups::{ClaimLines, Counts, Fault, Reject, Standing, Stop, judge_standing, read_keeper};
use std::alloc::Global;
use std::io::Read;
use target_game::Problem;

/// One more than the greatest number of entries of a claim.
const MAX_ENTRIES: usize = 65_536;

/// What an accepted claim shows: the killer takes one of these targets, as long as those of its stones stand that are only supposed
/// to.
#[derive(Clone, Copy, Debug)]
pub struct Verdict {
    pub killer: Colour,
    /// The targets, as the other side's stones on a colouring.
    pub targets: Colouring,
    /// Stones of the killer's, as its on a colouring, each of which is supposed to have a liberty outside the region.
    pub supposed: Colouring,
}

/// Whether the attacker is to move.
fn is_attacker_to_move(problem: &Problem) -> bool
    ensures attacker { IsTrue result → problem.now.mover ≡ opponent_of problem.now.game.defender }
    ensures defender { IsFalse result → problem.now.mover ≡ problem.now.game.defender }
{
    problem.mover() != problem.defender()
}

/// Reads and judges all entries, up to the line after the last.
fn judge_entries<R: Read>(
    alloc: Global,
    problem: &Problem,
    kill: &Kill,
    lines: &mut ClaimLines<'_, R>,
    counts: &mut Counts,
) -> Result<EntryList, Stop>
    requires placed { IsPlaced problem.now kill.now.ground kill.now.begin }
    requires side { side_of kill.now.targets ≡ side_of kill.now.ground.cells }
    ensures { IfOk result (λ l. AreJudged problem.now kill.now.ground
        (targets_of kill.now.ground kill.now.targets) l) }
{
    let mut list = EntryList {
        states: Vec::new(alloc),
        moves: Vec::new(alloc),
        moves_first: is_attacker_to_move(problem),
        is_begun: false,
    };
    for _ in 0..MAX_ENTRIES {
        lines.next_line()?;
        if lines.word(0) != Some(b"entry".as_slice()) {
            return Ok(list);
        }
        list.judge_entry(problem, &kill.ground, &kill.targets, lines, counts)?;
    }
    Err(Stop::Fault(Fault::Limit))
}

/// Judges that the board fits the entry of this number, from 1, with the attacker to move.
fn judge_use(problem: &Problem, kill: &Kill, list: &EntryList, next: usize) -> Result<(), Stop>
    requires placed { IsPlaced problem.now kill.now.ground kill.now.begin }
    requires judged { AreJudged problem.now kill.now.ground
        (targets_of kill.now.ground kill.now.targets) list.now }
    ensures { OnOk result (IsEntered problem.now kill.now.ground list.now) }
{
    if !list.moves_first || !is_attacker_to_move(problem) {
        return Err(Stop::Fault(Fault::WrongSide));
    }
    let states = list.states.as_slice();
    judge_cover(&kill.ground, &kill.targets, states, &kill.begin, next)?;
    if next == 0 || !is_met(&kill.ground, states, problem.colouring(), next - 1) {
        return Err(Stop::Fault(Fault::NotCovered));
    }
    Ok(())
}

/// Judges so many replies in the problem's own position, with the defender to move.
fn judge_answers<R: Read>(
    problem: &Problem,
    kill: &Kill,
    list: &EntryList,
    count: usize,
    lines: &mut ClaimLines<'_, R>,
    counts: &mut Counts,
) -> Result<(), Stop>
    requires placed { IsPlaced problem.now kill.now.ground kill.now.begin }
    requires side { side_of kill.now.targets ≡ side_of kill.now.ground.cells }
    requires judged { AreJudged problem.now kill.now.ground
        (targets_of kill.now.ground kill.now.targets) list.now }
    ensures { OnOk result (IsAnswered problem.now kill.now.ground
        (targets_of kill.now.ground kill.now.targets) list.now kill.now.begin) }
{
    if list.moves_first || is_attacker_to_move(problem) || problem.passes() > 0 {
        return Err(Stop::Fault(Fault::WrongSide));
    }
    judge_all(
        &kill.ground,
        &kill.targets,
        list.states.as_slice(),
        &kill.begin,
        count,
        lines,
        counts,
    )
}

/// Judges what the line says of the problem's own position.
fn judge_root<R: Read>(
    problem: &Problem,
    kill: &Kill,
    list: &EntryList,
    lines: &mut ClaimLines<'_, R>,
    counts: &mut Counts,
) -> Result<(), Stop>
    requires placed { IsPlaced problem.now kill.now.ground kill.now.begin }
    requires side { side_of kill.now.targets ≡ side_of kill.now.ground.cells }
    requires judged { AreJudged problem.now kill.now.ground
        (targets_of kill.now.ground kill.now.targets) list.now }
    ensures { OnOk result (IsRoot problem.now kill.now.ground
        (targets_of kill.now.ground kill.now.targets) list.now kill.now.begin) }
{
    if lines.is(b"use", 2) {
        let next = lines.number_at(1)?;
        return judge_use(problem, kill, list, next);
    }
    if !lines.is(b"all", 2) {
        return Err(Stop::Fault(Fault::Malformed));
    }
    let count = lines.number_at(1)?;
    judge_answers(problem, kill, list, count, lines, counts)
}

/// What has been judged shows that the targets are dead.
fn are_dead(
    problem: &Problem,
    standing: &Standing,
    kill: &Kill,
    list: &EntryList,
    supposed: &Colouring,
)
    requires holds { HoldsOn problem.now kill.now.ground.keeper standing.now.grounds.items
        standing.now.begins.items }
    requires replies { (i : ℕ) → i < length standing.now.grounds.items
        → HasReplies (ground_at standing.now.grounds.items i)
        (state_at standing.now.begins.items i) }
    requires kept { (p : ℕ) → cell_at standing.now.stones p ≡ Stone kill.now.ground.keeper
        → IsKept kill.now.ground.keeper (areas_of standing.now.grounds.items)
        (state_at standing.now.begins.items) p }
    requires apart { (i p : ℕ) → i < length standing.now.grounds.items
        → IsTrue ((area_of kill.now.ground).region p)
        → IsFalse ((area_of (ground_at standing.now.grounds.items i)).region p) }
    requires supposed { (p : ℕ) → IsTrue ((area_of kill.now.ground).kept p)
        → (cell_at standing.now.stones p ≡ own (kill_area kill.now.ground))
        ⊎ (cell_at supposed.now p ≡ own (kill_area kill.now.ground)) }
    requires placed { IsPlaced problem.now kill.now.ground kill.now.begin }
    requires judged { AreJudged problem.now kill.now.ground
        (targets_of kill.now.ground kill.now.targets) list.now }
    requires root { IsRoot problem.now kill.now.ground
        (targets_of kill.now.ground kill.now.targets) list.now kill.now.begin }
    ensures { AreDead (start problem.now) kill.now.targets supposed.now }
{
    let _history = problem.history();
}

/// Judges the lines after the areas.
fn judge_death<R: Read>(
    alloc: Global,
    problem: &Problem,
    killer: Colour,
    standing: &Standing,
    lines: &mut ClaimLines<'_, R>,
    counts: &mut Counts,
) -> Result<Verdict, Stop>
    requires side { side_of standing.now.stones ≡ problem.now.game.size }
    requires holds { HoldsOn problem.now killer standing.now.grounds.items
        standing.now.begins.items }
    requires replies { (i : ℕ) → i < length standing.now.grounds.items
        → HasReplies (ground_at standing.now.grounds.items i)
        (state_at standing.now.begins.items i) }
    requires kept { (p : ℕ) → cell_at standing.now.stones p ≡ Stone killer
        → IsKept killer (areas_of standing.now.grounds.items)
        (state_at standing.now.begins.items) p }
    ensures sides { IfOk result (λ v. (side_of v.targets ≡ problem.now.game.size)
        × (side_of v.supposed ≡ problem.now.game.size)) }
    ensures killer { IfOk result (λ v. v.killer ≡ opponent_of problem.now.game.defender) }
    ensures targets { IfOk result (λ v. (p : ℕ)
        → cell_at v.targets p ≡ Stone problem.now.game.defender
        → IsTrue (holds_point problem.now.game.targets p)) }
    ensures dead { IfOk result (λ v. AreDead (start problem.now) v.targets v.supposed) }
{
    let kill = judge_kill(problem, killer, standing.grounds.as_slice(), lines)?;
    let list = judge_entries(alloc, problem, &kill, lines, counts)?;
    judge_root(problem, &kill, &list, lines, counts)?;
    lines.next_line()?;
    if !lines.is(b"end", 1) {
        return Err(Stop::Fault(Fault::Malformed));
    }
    lines.end_here()?;
    let supposed = supposed_stones(&kill.ground, &standing.stones);
    are_dead(problem, standing, &kill, &list, &supposed);
    Ok(Verdict {
        killer,
        targets: kill.targets,
        supposed,
    })
}

/// Judges all lines.
fn judge_lines<R: Read>(
    alloc: Global,
    problem: &Problem,
    lines: &mut ClaimLines<'_, R>,
) -> Result<Verdict, Stop>
    ensures sides { IfOk result (λ v. (side_of v.targets ≡ problem.now.game.size)
        × (side_of v.supposed ≡ problem.now.game.size)) }
    ensures killer { IfOk result (λ v. v.killer ≡ opponent_of problem.now.game.defender) }
    ensures targets { IfOk result (λ v. (p : ℕ)
        → cell_at v.targets p ≡ Stone problem.now.game.defender
        → IsTrue (holds_point problem.now.game.targets p)) }
    ensures dead { IfOk result (λ v. AreDead (start problem.now) v.targets v.supposed) }
{
    let killer = read_keeper(lines, b"tsudeath", problem.size())?;
    let mut counts = Counts::new();
    let standing = judge_standing(alloc, problem, killer, lines, &mut counts)?;
    judge_death(alloc, problem, killer, &standing, lines, &mut counts)
}

/// Judges the claim of death in these bytes and in what the reader has after them, for the problem. If it is accepted, the attacker
/// takes one of the targets that are told, on the whole board, whatever the other side plays anywhere. Where stones are supposed, it
/// does so unless first a board comes on which one of these is gone, or has no liberty outside the region.
///
/// For each state it takes, at each point of the region, some twenty sweeps over the board.
pub fn judge<R: Read>(
    alloc: Global,
    problem: &Problem,
    front: &[u8],
    reader: &mut R,
) -> Result<Verdict, Reject>
    ensures sides { IfOk result (λ v. (side_of v.targets ≡ problem.now.game.size)
        × (side_of v.supposed ≡ problem.now.game.size)) }
    ensures killer { IfOk result (λ v. v.killer ≡ opponent_of problem.now.game.defender) }
    ensures targets { IfOk result (λ v. (p : ℕ)
        → cell_at v.targets p ≡ Stone problem.now.game.defender
        → IsTrue (holds_point problem.now.game.targets p)) }
    ensures dead { IfOk result (λ v. AreDead (start problem.now) v.targets v.supposed) }
{
    let mut lines = match ClaimLines::new(alloc, front, reader) {
        Ok(lines) => lines,
        Err(stop) => return Err(Reject { line: 0, stop }),
    };
    match judge_lines(alloc, problem, &mut lines) {
        Ok(verdict) => Ok(verdict),
        Err(stop) => Err(Reject {
            line: lines.number(),
            stop,
        }),
    }
}
