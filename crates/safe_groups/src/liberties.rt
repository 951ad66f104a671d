//! Whether a stone keeps a liberty, which is looked for from the stone, and only until one is found.

ghost use Rattle.std.specs.Prelude.{◌≡◌, ◌≢◌, ◌*◌, ◌<◌, ◌⊎◌, ℕ, IsTrue};
ghost use Rattle.go_points.specs.declared.Cell.TheVariants.{Empty};
ghost use Rattle.go_points.specs.Grid.{adjacent, cell_at, same_cell, side_of};
ghost use Rattle.go_points.specs.Place.{Place, IsOn, number_of};
ghost use Rattle.go_points.specs.Points.{holds_place};
ghost use Rattle.safe_groups.specs.Areas.{own};
ghost use Rattle.safe_groups.specs.Ground.{area_of};
ghost use Rattle.safe_groups.specs.Private.Liberties.{IsNext, LastBeside, Lasts, NeedsNone};

use crate::ground::Ground;
use go_points::{Cell, Colouring, MAX_POINTS, Point, PointSet};

/// Whether two points hold the same.
fn are_same(cell: Cell, other: Cell) -> bool
    ensures { result ≡ same_cell cell other }
{
    cell == other
}

/// Whether a neighbour of the stone is empty. If none is, the stones of its colour beside it that have not been seen wait.
fn meets_empty(state: &Colouring, point: Point, seen: &mut PointSet, waiting: &mut PointSet) -> bool
    requires { IsOn (side_of state.now) point }
    ensures empty { IsTrue result → (e : ℕ)
        × IsTrue (adjacent (side_of state.now) (number_of (side_of state.now) point) e)
        × (cell_at state.now e ≡ Empty) }
    ensures waiting { (q : Place) → IsTrue (holds_place waiting.new q)
        → IsTrue (holds_place waiting.old q)
        ⊎ IsNext (side_of state.now) state.now (number_of (side_of state.now) point) q }
{
    let cell = state.get(point);
    let neighbours = point.neighbours(state.size());
    for neighbour in neighbours.as_slice() {
        let beside = state.get(*neighbour);
        if beside.is_empty() {
            return true;
        }
        if are_same(beside, cell) && !seen.has(*neighbour) {
            seen.insert(*neighbour);
            waiting.insert(*neighbour);
        }
    }
    false
}

impl Ground {
    /// Whether the stone needs no liberty: it is one of the keeper's that are held, or one of the other side's outside.
    fn needs_none(&self, state: &Colouring, number: usize) -> bool
        requires side { side_of state.now ≡ side_of self.now.cells }
        requires held { side_of self.now.held ≡ side_of self.now.cells }
        requires within { number < side_of self.now.cells * side_of self.now.cells }
        ensures { IsTrue result → NeedsNone (area_of self.now) state.now number }
    {
        if state.cell(number) == self.own() {
            return self.held.cell(number).is_stone_of(self.keeper);
        }
        self.is_outside(number)
    }

    /// Whether the stone reaches empty, or is joined to one that needs no liberty.
    pub(crate) fn lasts(&self, state: &Colouring, number: usize) -> bool
        requires side { side_of state.now ≡ side_of self.now.cells }
        requires held { side_of self.now.held ≡ side_of self.now.cells }
        requires within { number < side_of self.now.cells * side_of self.now.cells }
        requires stone { cell_at state.now number ≢ Empty }
        ensures { IsTrue result → Lasts (area_of self.now) state.now number }
    {
        let size = state.size();
        let start = size.point_at(number);
        let mut seen = PointSet::new();
        let mut waiting = PointSet::new();
        seen.insert(start);
        waiting.insert(start);
        for _ in 0..MAX_POINTS {
            let Some(point) = waiting.first() else {
                return false;
            };
            waiting.remove(point);
            if self.needs_none(state, point.number(size)) {
                return true;
            }
            if meets_empty(state, point, &mut seen, &mut waiting) {
                return true;
            }
        }
        false
    }

    /// Whether the point does not hold this, or the stone reaches empty, or is joined to one that needs no liberty.
    fn lasts_if(&self, state: &Colouring, number: usize, wanted: Cell) -> bool
        requires side { side_of state.now ≡ side_of self.now.cells }
        requires held { side_of self.now.held ≡ side_of self.now.cells }
        requires within { number < side_of self.now.cells * side_of self.now.cells }
        requires stone { wanted ≢ Empty }
        ensures { IsTrue result → cell_at state.now number ≡ wanted
            → Lasts (area_of self.now) state.now number }
    {
        if !are_same(state.cell(number), wanted) {
            return true;
        }
        self.lasts(state, number)
    }

    /// Whether each stone beside the point that holds this reaches empty, or is joined to one that needs no liberty.
    pub(crate) fn last_beside(&self, state: &Colouring, number: usize, wanted: Cell) -> bool
        requires side { side_of state.now ≡ side_of self.now.cells }
        requires held { side_of self.now.held ≡ side_of self.now.cells }
        requires within { number < side_of self.now.cells * side_of self.now.cells }
        requires stone { wanted ≢ Empty }
        ensures { IsTrue result → LastBeside (area_of self.now) state.now number wanted }
    {
        let size = state.size();
        let neighbours = size.point_at(number).neighbours(size);
        for neighbour in neighbours.as_slice() {
            let beside = neighbour.number(size);
            if !self.lasts_if(state, beside, wanted) {
                return false;
            }
        }
        true
    }

    /// Whether the keeper's stones are all round the point.
    pub(crate) fn is_enclosed(&self, state: &Colouring, number: usize) -> bool
        requires side { side_of state.now ≡ side_of self.now.cells }
        requires within { number < side_of self.now.cells * side_of self.now.cells }
        ensures { IsTrue result → (q : ℕ)
            → IsTrue (adjacent (side_of self.now.cells) number q)
            → cell_at state.now q ≡ own (area_of self.now) }
    {
        let size = state.size();
        let neighbours = size.point_at(number).neighbours(size);
        for neighbour in neighbours.as_slice() {
            if !are_same(state.get(*neighbour), self.own()) {
                return false;
            }
        }
        true
    }
}
