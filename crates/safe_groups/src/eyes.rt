//! States in which nothing is to be answered: each chain of the keeper's has two eyes, or leans on held stones.

ghost use Rattle.std.specs.Prelude.{◌≡◌, ◌*◌, ◌<◌, ◌⊎◌, ℕ, IsTrue, IsFalse, IfSome, if◌then◌else◌};
ghost use Rattle.go_points.specs.declared.Cell.TheVariants.{Empty};
ghost use Rattle.go_points.specs.Grid.{cell_at, same_cell, side_of};
ghost use Rattle.go_points.specs.Place.{Place, IsOn, number_of};
ghost use Rattle.go_points.specs.Points.{holds_place};
ghost use Rattle.safe_groups.specs.Areas.{own, theirs};
ghost use Rattle.safe_groups.specs.Eyes.{IsEye, IsResting, TwoEyes};
ghost use Rattle.safe_groups.specs.Ground.{area_of, marked, IsSized, IsState};
ghost use Rattle.safe_groups.specs.Private.Spaces.{alone_cell, space_cell, these, AreAlone, AreSpaces, AreEyePoints, AreBeside, IsEyePoint, IsFreeOf, IsOfChain, IsSafeAt, IsGivenAt, LeansOn};

use crate::ground::Ground;
use crate::near::near_chain;
use go_chains::ChainBoard;
use go_points::{Cell, Colouring, Point, PointSet};

/// Adds the stones of the chain at the point, if there is one.
fn add_chain(stones: &ChainBoard, point: Point, set: &mut PointSet)
    requires { IsOn (side_of stones.now) point }
    ensures { (q : Place) → IsTrue (holds_place set.new q) → IsTrue (holds_place set.old q)
        ⊎ IsOfChain (side_of stones.now) stones.now (number_of (side_of stones.now) point) q }
{
    let Some(chain) = stones.chain_of(point) else {
        return;
    };
    for stone in chain.iter() {
        set.insert(stone);
    }
}

impl Ground {
    /// What the point holds where only the keeper's stones are left.
    fn alone_cell(&self, state: &Colouring, number: usize) -> Cell
        requires side { side_of state.now ≡ side_of self.now.cells }
        requires within { number < side_of self.now.cells * side_of self.now.cells }
        ensures { result ≡ alone_cell (area_of self.now) state.now number }
    {
        if state.cell(number) == self.own() {
            self.own()
        } else {
            Cell::Empty
        }
    }

    /// What the point holds where the keeper's stones are taken away, and all other points hold stones of the other side.
    fn space_cell(&self, state: &Colouring, number: usize) -> Cell
        requires side { side_of state.now ≡ side_of self.now.cells }
        requires within { number < side_of self.now.cells * side_of self.now.cells }
        ensures { result ≡ space_cell (area_of self.now) state.now number }
    {
        if state.cell(number) == self.own() {
            Cell::Empty
        } else {
            self.theirs()
        }
    }

    /// The keeper's stones alone.
    fn alone(&self, state: &Colouring) -> Colouring
        requires { side_of state.now ≡ side_of self.now.cells }
        ensures side { side_of result ≡ side_of self.now.cells }
        ensures cells { AreAlone (area_of self.now) state.now result }
    {
        let size = state.size();
        let mut made = *state;
        for number in 0..size.area() {
            made.set(size.point_at(number), self.alone_cell(state, number));
        }
        made
    }

    /// The points between the keeper's stones, as chains of another colouring.
    fn spaces(&self, state: &Colouring) -> Colouring
        requires { side_of state.now ≡ side_of self.now.cells }
        ensures side { side_of result ≡ side_of self.now.cells }
        ensures cells { AreSpaces (area_of self.now) state.now result }
    {
        let size = state.size();
        let mut made = *state;
        for number in 0..size.area() {
            made.set(size.point_at(number), self.space_cell(state, number));
        }
        made
    }

    /// Whether the point, if it is on the board, is of the region and near the chain, and is not to be avoided.
    fn may_be_of_eye(&self, point: Point, near: &PointSet, avoided: &PointSet) -> bool
        ensures { IsTrue result → IsOn (side_of self.now.cells) point
            → IsEyePoint self.now near.now avoided.now (number_of (side_of self.now.cells) point) }
    {
        if !self.size().holds(point) {
            return true;
        }
        if !near.has(point) || avoided.has(point) {
            return false;
        }
        self.cells.get(point).is_empty()
    }

    /// Whether all these points are of the region and near the chain, and none is to be avoided.
    fn are_eye_points(&self, space: &PointSet, near: &PointSet, avoided: &PointSet) -> bool
        ensures { IsTrue result → AreEyePoints self.now space.now near.now avoided.now }
    {
        for point in space.iter() {
            if !self.may_be_of_eye(point, near, avoided) {
                return false;
            }
        }
        true
    }

    /// The eye of the chain of this stone that has the point of this number, if it is near the chain and no point of the eye is to be
    /// avoided; the points near the chain are given.
    fn eye_at(
        &self,
        state: &Colouring,
        spaces: &ChainBoard,
        stone: usize,
        near: &PointSet,
        avoided: &PointSet,
        number: usize,
    ) -> Option<PointSet>
        requires state { IsState self.now state.now }
        requires spaces { AreSpaces (area_of self.now) state.now spaces.now }
        requires side { side_of spaces.now ≡ side_of self.now.cells }
        requires near { AreBeside (area_of self.now) state.now stone near.now }
        requires within { number < side_of self.now.cells * side_of self.now.cells }
        ensures { IfSome result (λ eye. IsEye (area_of self.now) state.now stone
            (these (side_of self.now.cells) eye)
            × IsFreeOf (side_of self.now.cells) eye avoided.now) }
    {
        let Some(space) = spaces.chain_of(self.size().point_at(number)) else {
            return None;
        };
        if self.are_eye_points(&space, near, avoided) {
            Some(space)
        } else {
            None
        }
    }

    /// An eye of the chain of this stone, with no point that is to be avoided; the points near the chain are given.
    fn find_eye(
        &self,
        state: &Colouring,
        spaces: &ChainBoard,
        stone: usize,
        near: &PointSet,
        avoided: &PointSet,
    ) -> Option<PointSet>
        requires state { IsState self.now state.now }
        requires spaces { AreSpaces (area_of self.now) state.now spaces.now }
        requires side { side_of spaces.now ≡ side_of self.now.cells }
        requires near { AreBeside (area_of self.now) state.now stone near.now }
        ensures { IfSome result (λ eye. IsEye (area_of self.now) state.now stone
            (these (side_of self.now.cells) eye)
            × IsFreeOf (side_of self.now.cells) eye avoided.now) }
    {
        let size = self.size();
        for point in near.iter() {
            if size.holds(point) {
                let number = point.number(size);
                if let Some(eye) = self.eye_at(state, spaces, stone, near, avoided, number) {
                    return Some(eye);
                }
            }
        }
        None
    }

    /// Whether the chain has two eyes.
    fn has_two_eyes(
        &self,
        state: &Colouring,
        spaces: &ChainBoard,
        stone: usize,
        near: &PointSet,
    ) -> bool
        requires state { IsState self.now state.now }
        requires spaces { AreSpaces (area_of self.now) state.now spaces.now }
        requires side { side_of spaces.now ≡ side_of self.now.cells }
        requires near { AreBeside (area_of self.now) state.now stone near.now }
        ensures { IsTrue result → TwoEyes (area_of self.now) state.now stone }
    {
        let Some(first) = self.find_eye(state, spaces, stone, near, &PointSet::new()) else {
            return false;
        };
        let Some(_second) = self.find_eye(state, spaces, stone, near, &first) else {
            return false;
        };
        true
    }

    /// Whether the point of this number has one of the keeper's marks on the colouring, and is in the chain.
    fn marks_at(&self, marks: &Colouring, chain: &PointSet, number: usize) -> bool
        requires side { side_of marks.now ≡ side_of self.now.cells }
        requires within { number < side_of self.now.cells * side_of self.now.cells }
        ensures { IsTrue result → LeansOn self.now marks.now chain.now }
    {
        marks.cell(number).is_stone_of(self.keeper) && chain.has(self.size().point_at(number))
    }

    /// Whether one of the keeper's marks on the colouring is in the chain.
    fn marks_one(&self, marks: &Colouring, chain: &PointSet) -> bool
        requires { side_of marks.now ≡ side_of self.now.cells }
        ensures { IsTrue result → LeansOn self.now marks.now chain.now }
    {
        let size = self.size();
        for stone in chain.iter() {
            if size.holds(stone) && self.marks_at(marks, chain, stone.number(size)) {
                return true;
            }
        }
        false
    }

    /// Whether the chain of the stone, if it is one of the keeper's, has two eyes, or leans on a held stone.
    fn is_safe_at(
        &self,
        state: &Colouring,
        stones: &ChainBoard,
        spaces: &ChainBoard,
        stone: usize,
    ) -> bool
        requires state { IsState self.now state.now }
        requires held { side_of self.now.held ≡ side_of self.now.cells }
        requires stones { AreAlone (area_of self.now) state.now stones.now }
        requires stones_side { side_of stones.now ≡ side_of self.now.cells }
        requires spaces { AreSpaces (area_of self.now) state.now spaces.now }
        requires spaces_side { side_of spaces.now ≡ side_of self.now.cells }
        requires within { stone < side_of self.now.cells * side_of self.now.cells }
        ensures { IsTrue result → cell_at state.now stone ≡ own (area_of self.now)
            → IsSafeAt (area_of self.now) state.now stone }
    {
        if !state.cell(stone).is_stone_of(self.keeper) {
            return true;
        }
        let size = self.size();
        let Some(chain) = stones.chain_of(size.point_at(stone)) else {
            return false;
        };
        if self.marks_one(&self.held, &chain) {
            return true;
        }
        let near = near_chain(size, &chain);
        self.has_two_eyes(state, spaces, stone, &near)
    }

    /// Whether the chain of the stone, if it is given a liberty, has an eye, or leans on an earlier one.
    fn is_given_at(
        &self,
        state: &Colouring,
        stones: &ChainBoard,
        spaces: &ChainBoard,
        stone: usize,
    ) -> bool
        requires state { IsState self.now state.now }
        requires earlier { side_of self.now.earlier ≡ side_of self.now.cells }
        requires stones { AreAlone (area_of self.now) state.now stones.now }
        requires stones_side { side_of stones.now ≡ side_of self.now.cells }
        requires spaces { AreSpaces (area_of self.now) state.now spaces.now }
        requires spaces_side { side_of spaces.now ≡ side_of self.now.cells }
        requires within { stone < side_of self.now.cells * side_of self.now.cells }
        requires gives { side_of self.now.gives ≡ side_of self.now.cells }
        ensures { IsTrue result → IsTrue ((area_of self.now).gives stone)
            → IsGivenAt (area_of self.now) state.now stone }
    {
        if !self.gives.cell(stone).is_stone_of(self.keeper) {
            return true;
        }
        if !state.cell(stone).is_stone_of(self.keeper) {
            return false;
        }
        let size = self.size();
        let Some(chain) = stones.chain_of(size.point_at(stone)) else {
            return false;
        };
        if self.marks_one(&self.earlier, &chain) {
            return true;
        }
        let near = near_chain(size, &chain);
        let Some(_eye) = self.find_eye(state, spaces, stone, &near, &PointSet::new()) else {
            return false;
        };
        true
    }

    /// Whether all stones of the keeper's are safe for ever. Each chain is looked at once.
    fn all_safe(&self, state: &Colouring, stones: &ChainBoard, spaces: &ChainBoard) -> bool
        requires state { IsState self.now state.now }
        requires held { side_of self.now.held ≡ side_of self.now.cells }
        requires stones { AreAlone (area_of self.now) state.now stones.now }
        requires stones_side { side_of stones.now ≡ side_of self.now.cells }
        requires spaces { AreSpaces (area_of self.now) state.now spaces.now }
        requires spaces_side { side_of spaces.now ≡ side_of self.now.cells }
        ensures { IsTrue result → (p : ℕ) → cell_at state.now p ≡ own (area_of self.now)
            → IsSafeAt (area_of self.now) state.now p }
    {
        let size = state.size();
        let mut safe = PointSet::new();
        for number in 0..size.area() {
            let point = size.point_at(number);
            if safe.has(point) {
                continue;
            }
            if !self.is_safe_at(state, stones, spaces, number) {
                return false;
            }
            add_chain(stones, point, &mut safe);
        }
        true
    }

    /// Whether all stones that are given a liberty have one for ever.
    fn all_given(&self, state: &Colouring, stones: &ChainBoard, spaces: &ChainBoard) -> bool
        requires state { IsState self.now state.now }
        requires sized { IsSized (side_of self.now.cells) self.now }
        requires stones { AreAlone (area_of self.now) state.now stones.now }
        requires stones_side { side_of stones.now ≡ side_of self.now.cells }
        requires spaces { AreSpaces (area_of self.now) state.now spaces.now }
        requires spaces_side { side_of spaces.now ≡ side_of self.now.cells }
        ensures { IsTrue result → (p : ℕ) → IsTrue ((area_of self.now).gives p)
            → IsGivenAt (area_of self.now) state.now p }
    {
        for number in 0..self.gives.size().area() {
            if !self.is_given_at(state, stones, spaces, number) {
                return false;
            }
        }
        true
    }

    /// Whether nothing is to be answered in the state, which is at rest.
    ///
    /// For each of the keeper's stones it looks at the spaces beside its chain.
    pub fn is_resting(&self, state: &Colouring) -> bool
        requires state { IsState self.now state.now }
        requires sized { IsSized (side_of self.now.cells) self.now }
        ensures { IsTrue result → IsResting (area_of self.now) state.now }
    {
        if !self.is_clear(state) {
            return false;
        }
        let Ok(stones) = ChainBoard::from_colouring(&self.alone(state)) else {
            return false;
        };
        let Ok(spaces) = ChainBoard::from_colouring(&self.spaces(state)) else {
            return false;
        };
        if !self.all_safe(state, &stones, &spaces) {
            return false;
        }
        self.all_given(state, &stones, &spaces)
    }
}
