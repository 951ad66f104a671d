//! The killer's region in a claim of death, the targets in it, and the stones that are only supposed to stand.

ghost use Rattle.std.specs.Prelude.{◌≡◌, ◌*◌, ◌<◌, ◌⊎◌, ℕ, length, IsTrue, IsFalse, IfOk};
ghost use Rattle.go_points.specs.Grid.{cell_at, side_of};
ghost use Rattle.target_game.specs.Legal.{holds_point};
ghost use Rattle.safe_groups.specs.Areas.{own, theirs};
ghost use Rattle.safe_groups.specs.Ground.{area_of, ground_at};
ghost use Rattle.dead_groups.specs.Ground.{kill_area};
ghost use Rattle.dead_groups.specs.Private.Judged.{IsPlaced};

use go_points::{Cell, Colour, Colouring};
use safe_groups::{ClaimLines, Fault, Ground, Stop, area_of_line};
use std::io::Read;
use target_game::Problem;

/// The killer's region, with the state that the board fits, and the targets in it.
#[derive(Clone, Copy, Debug)]
pub(crate) struct Kill {
    pub(crate) ground: Ground,
    pub(crate) begin: Colouring,
    pub(crate) targets: Colouring,
}

/// A target at this point, if one is in the region.
fn target_at(problem: &Problem, ground: &Ground, number: usize) -> Cell
    requires size { problem.now.game.size ≡ side_of ground.now.cells }
    requires within { number < side_of ground.now.cells * side_of ground.now.cells }
    ensures { result ≡ theirs (kill_area ground.now)
        → IsTrue (holds_point problem.now.game.targets number) }
{
    if ground.cells.cell(number).is_empty()
        && problem.targets().has(ground.size().point_at(number))
    {
        ground.theirs()
    } else {
        Cell::Empty
    }
}

/// The targets in the region, as the other side's stones.
fn targets_in(problem: &Problem, ground: &Ground) -> Colouring
    requires size { problem.now.game.size ≡ side_of ground.now.cells }
    ensures side { side_of result ≡ side_of ground.now.cells }
    ensures targets { (p : ℕ) → cell_at result p ≡ theirs (kill_area ground.now)
        → IsTrue (holds_point problem.now.game.targets p) }
{
    let size = ground.size();
    let mut targets = Colouring::empty(size);
    for number in 0..size.area() {
        targets.set(size.point_at(number), target_at(problem, ground, number));
    }
    targets
}

/// A stone of the killer's where the region has a kept one, and these areas do not keep it.
fn supposed_at(ground: &Ground, stones: &Colouring, number: usize) -> Cell
    requires stones { side_of stones.now ≡ side_of ground.now.cells }
    requires within { number < side_of ground.now.cells * side_of ground.now.cells }
    ensures { IsTrue ((area_of ground.now).kept number)
        → (cell_at stones.now number ≡ own (kill_area ground.now))
        ⊎ (result ≡ own (kill_area ground.now)) }
{
    if ground.cells.cell(number) == ground.own() && stones.cell(number) != ground.own() {
        ground.own()
    } else {
        Cell::Empty
    }
}

/// The kept stones that these areas do not keep.
pub(crate) fn supposed_stones(ground: &Ground, stones: &Colouring) -> Colouring
    requires stones { side_of stones.now ≡ side_of ground.now.cells }
    ensures side { side_of result ≡ side_of ground.now.cells }
    ensures supposed { (p : ℕ) → IsTrue ((area_of ground.now).kept p)
        → (cell_at stones.now p ≡ own (kill_area ground.now))
        ⊎ (cell_at result p ≡ own (kill_area ground.now)) }
{
    let size = ground.size();
    let mut supposed = Colouring::empty(size);
    for number in 0..size.area() {
        supposed.set(size.point_at(number), supposed_at(ground, stones, number));
    }
    supposed
}

/// Whether the point is not in both regions.
fn is_apart_at(one: &Ground, other: &Ground, number: usize) -> bool
    requires sides { side_of other.now.cells ≡ side_of one.now.cells }
    requires within { number < side_of one.now.cells * side_of one.now.cells }
    ensures { IsTrue result → IsTrue ((area_of one.now).region number)
        → IsFalse ((area_of other.now).region number) }
{
    !one.cells.cell(number).is_empty() || !other.cells.cell(number).is_empty()
}

/// Whether the regions share no point.
fn is_apart(one: &Ground, other: &Ground) -> bool
    requires sides { side_of other.now.cells ≡ side_of one.now.cells }
    ensures { IsTrue result → (p : ℕ) → IsTrue ((area_of one.now).region p)
        → IsFalse ((area_of other.now).region p) }
{
    for number in 0..one.size().area() {
        if !is_apart_at(one, other, number) {
            return false;
        }
    }
    true
}

/// Whether the region shares no point with those of the areas.
fn are_apart(ground: &Ground, grounds: &[Ground]) -> bool
    requires sides { (i : ℕ) → i < length grounds.now
        → side_of (ground_at grounds.now i).cells ≡ side_of ground.now.cells }
    ensures { IsTrue result → (i p : ℕ) → i < length grounds.now
        → IsTrue ((area_of ground.now).region p)
        → IsFalse ((area_of (ground_at grounds.now i)).region p) }
{
    for place in 0..grounds.len() {
        if !is_apart(ground, &grounds[place]) {
            return false;
        }
    }
    true
}

/// Whether the ground is on the problem's board, the killer is the attacker, and the board fits the state.
fn is_placed(problem: &Problem, ground: &Ground, begin: &Colouring) -> bool
    ensures { IsTrue result → IsPlaced problem.now ground.now begin.now }
{
    if ground.size() != problem.size() || problem.colouring().size() != problem.size() {
        return false;
    }
    if !ground.theirs().is_stone_of(problem.defender()) {
        return false;
    }
    ground.is_state(begin) && ground.fits(problem.colouring(), begin)
}

/// Reads the killer's region, which is that of the line.
pub(crate) fn judge_kill<R: Read>(
    problem: &Problem,
    killer: Colour,
    grounds: &[Ground],
    lines: &ClaimLines<'_, R>,
) -> Result<Kill, Stop>
    requires sides { (i : ℕ) → i < length grounds.now
        → side_of (ground_at grounds.now i).cells ≡ problem.now.game.size }
    ensures killer { IfOk result (λ k. k.ground.keeper ≡ killer) }
    ensures placed { IfOk result (λ k. IsPlaced problem.now k.ground k.begin) }
    ensures apart { IfOk result (λ k. (i p : ℕ) → i < length grounds.now
        → IsTrue ((area_of k.ground).region p)
        → IsFalse ((area_of (ground_at grounds.now i)).region p)) }
    ensures side { IfOk result (λ k. side_of k.targets ≡ side_of k.ground.cells) }
    ensures targets { IfOk result (λ k. (p : ℕ) → cell_at k.targets p ≡ theirs (kill_area k.ground)
        → IsTrue (holds_point problem.now.game.targets p)) }
{
    let (ground, begin) = area_of_line(problem, killer, lines, b"kill", grounds)?;
    if !ground.own().is_stone_of(killer) || !is_placed(problem, &ground, &begin) {
        return Err(Stop::Fault(Fault::TargetNotInRegion));
    }
    if !are_apart(&ground, grounds) {
        return Err(Stop::Fault(Fault::PointNotFree));
    }
    let targets = targets_in(problem, &ground);
    if targets == Colouring::empty(ground.size()) {
        return Err(Stop::Fault(Fault::TargetNotInRegion));
    }
    Ok(Kill {
        ground,
        begin,
        targets,
    })
}
