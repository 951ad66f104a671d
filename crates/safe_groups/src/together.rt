//! Whether several areas may serve together: their regions share no point, and what an area leans on stands by another.

ghost use Rattle.std.specs.Prelude.{◌≡◌, ◌≢◌, ◌*◌, ◌<◌, ◌⊎◌, ℕ, length, IsTrue};
ghost use Rattle.std.specs.List.{All};
ghost use Rattle.go_points.specs.Grid.{cell_at, side_of};
ghost use Rattle.safe_groups.specs.Ground.{area_of, areas_of, ground_at, IsSized};
ghost use Rattle.safe_groups.specs.Together.{AreInOrder};
ghost use Rattle.safe_groups.specs.Private.Order.{GivesOther, IsInOrderAt, IsInOrder, KeepsEarlier, IsApart};

use crate::ground::Ground;
use go_points::Size;

/// Whether an area of an earlier group keeps the stone.
pub(crate) fn keeps_earlier(grounds: &[Ground], size: Size, group: usize, number: usize) -> bool
    requires sized { All (IsSized size) grounds.now }
    requires within { number < size * size }
    ensures { IsTrue result → KeepsEarlier grounds.now group number }
{
    for place in 0..grounds.len() {
        let ground = &grounds[place];
        if ground.group < group && ground.cells.cell(number).is_stone_of(ground.keeper) {
            return true;
        }
    }
    false
}

/// Whether another area of the group gives the stone a liberty.
fn gives_other(grounds: &[Ground], size: Size, group: usize, place: usize, number: usize) -> bool
    requires sized { All (IsSized size) grounds.now }
    requires within { number < size * size }
    ensures { IsTrue result → GivesOther grounds.now group place number }
{
    for other in 0..grounds.len() {
        let ground = &grounds[other];
        if other != place
            && ground.group == group
            && ground.gives.cell(number).is_stone_of(ground.keeper)
        {
            return true;
        }
    }
    false
}

/// Whether what the area at this place says of the point is so: a stone that is earlier is kept by an earlier group, one that is held is
/// earlier, or given a liberty by another area of the group, and one that it gives is kept.
fn is_in_order_at(grounds: &[Ground], size: Size, place: usize, number: usize) -> bool
    requires sized { All (IsSized size) grounds.now }
    requires within { number < size * size }
    requires place { place < length grounds.now }
    ensures { IsTrue result → IsInOrderAt grounds.now place number }
{
    let ground = &grounds[place];
    let is_earlier = ground.earlier.cell(number).is_stone_of(ground.keeper);
    if is_earlier && !keeps_earlier(grounds, size, ground.group, number) {
        return false;
    }
    if ground.gives.cell(number).is_stone_of(ground.keeper)
        && !ground.cells.cell(number).is_stone_of(ground.keeper)
    {
        return false;
    }
    !ground.held.cell(number).is_stone_of(ground.keeper)
        || is_earlier
        || gives_other(grounds, size, ground.group, place, number)
}

/// The same of each point.
fn is_in_order(grounds: &[Ground], size: Size, place: usize) -> bool
    requires sized { All (IsSized size) grounds.now }
    requires place { place < length grounds.now }
    ensures { IsTrue result → IsInOrder grounds.now size place }
{
    for number in 0..size.area() {
        if !is_in_order_at(grounds, size, place, number) {
            return false;
        }
    }
    true
}

/// Whether the regions of two areas share no point.
fn is_apart(one: &Ground, other: &Ground, size: Size) -> bool
    requires one { IsSized size one.now }
    requires other { IsSized size other.now }
    ensures { IsTrue result → IsApart one.now other.now }
{
    for number in 0..size.area() {
        if one.cells.cell(number).is_empty() && other.cells.cell(number).is_empty() {
            return false;
        }
    }
    true
}

/// Whether the region of the area at this place shares no point with those of the areas before it.
fn is_apart_from_earlier(grounds: &[Ground], size: Size, place: usize) -> bool
    requires sized { All (IsSized size) grounds.now }
    requires place { place < length grounds.now }
    ensures { IsTrue result → (j : ℕ) → j < place
        → IsApart (ground_at grounds.now place) (ground_at grounds.now j) }
{
    for other in 0..place {
        if !is_apart(&grounds[place], &grounds[other], size) {
            return false;
        }
    }
    true
}

/// Whether the areas may serve together.
///
/// For each pair of areas it looks at each point.
pub(crate) fn are_in_order(grounds: &[Ground], size: Size) -> bool
    requires sized { All (IsSized size) grounds.now }
    ensures { IsTrue result → AreInOrder (areas_of grounds.now) }
{
    for place in 0..grounds.len() {
        if !is_in_order(grounds, size, place) {
            return false;
        }
        if !is_apart_from_earlier(grounds, size, place) {
            return false;
        }
    }
    true
}
