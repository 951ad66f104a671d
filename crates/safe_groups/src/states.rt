//! The states of a claim: whether each move of the other side is answered.

ghost use Rattle.std.specs.Prelude.{◌≡◌, ◌<◌, ◌*◌, ℕ, slice_set, IsTrue, IfSome, IfOk, Option, Some, None};
ghost use Rattle.go_points.specs.declared.Cell.TheVariants.{Empty};
ghost use Rattle.go_points.specs.Grid.{cell_at, side_of};
ghost use Rattle.safe_groups.specs.Areas.{after_answer, after_other, clear_loose, own, theirs, is_outside, IsAnswer, IsAnswered, IsKnown, Leans};
ghost use Rattle.safe_groups.specs.Ground.{area_of, states_of, AreStates, IsMoveAnswered, IsSettled, IsSized, IsState};
ghost use Rattle.safe_groups.specs.Private.Moves.{IsLeft};

use crate::ground::Ground;
use go_points::Colouring;

/// What a move of the other side in a state comes to.
#[derive(Clone, Copy, Debug)]
pub enum Exchange {
    /// The point is not empty, or the move changes nothing: no answer is due.
    Nothing,
    /// The move takes stones of the keeper's.
    Takes,
    /// The state that the move leaves.
    Leaves(Colouring),
}

impl Ground {
    /// Whether the colouring fits the state at this place of the list.
    pub fn is_known(&self, states: &[Colouring], colouring: &Colouring, place: usize) -> bool
        requires states { AreStates self.now states.now }
        requires side { side_of colouring.now ≡ side_of self.now.cells }
        ensures { IsTrue result
            → IsKnown (area_of self.now) (states_of states.now) colouring.now }
    {
        if place >= states.len() {
            return false;
        }
        self.fits(colouring, &states[place])
    }

    /// The colouring with one more stone of the keeper's.
    fn with_own(&self, state: &Colouring, number: usize) -> Colouring
        requires side { side_of state.now ≡ side_of self.now.cells }
        requires within { number < side_of self.now.cells * side_of self.now.cells }
        ensures value { result ≡ slice_set state.now number (own (area_of self.now)) }
        ensures side { side_of result ≡ side_of self.now.cells }
    {
        let mut placed = *state;
        placed.set(state.size().point_at(number), self.own());
        placed
    }

    /// The colouring with one more stone of the keeper's, without the loose stones of the other side's.
    pub fn after_answer(&self, state: &Colouring, number: usize) -> Colouring
        requires side { side_of state.now ≡ side_of self.now.cells }
        requires within { number < side_of self.now.cells * side_of self.now.cells }
        ensures value { result ≡ after_answer (area_of self.now) state.now number }
        ensures side { side_of result ≡ side_of self.now.cells }
    {
        self.without_loose(&self.with_own(state, number))
    }

    /// The same of a colouring without loose stones: mostly the answer takes none, as the stones beside it show.
    fn after_next_answer(&self, state: &Colouring, number: usize) -> Colouring
        requires side { side_of state.now ≡ side_of self.now.cells }
        requires held { side_of self.now.held ≡ side_of self.now.cells }
        requires within { number < side_of self.now.cells * side_of self.now.cells }
        requires clear { clear_loose (area_of self.now) state.now ≡ state.now }
        requires free { cell_at state.now number ≡ Empty }
        ensures value { result ≡ after_answer (area_of self.now) state.now number }
        ensures side { side_of result ≡ side_of self.now.cells }
    {
        let placed = self.with_own(state, number);
        if self.last_beside(&placed, number, self.theirs()) {
            return placed;
        }
        self.without_loose(&placed)
    }

    /// The state with a stone of the other side's at this point.
    fn with_theirs(&self, state: &Colouring, number: usize) -> Colouring
        requires side { side_of state.now ≡ side_of self.now.cells }
        requires within { number < side_of self.now.cells * side_of self.now.cells }
        ensures value { result ≡ slice_set state.now number (theirs (area_of self.now)) }
        ensures side { side_of result ≡ side_of self.now.cells }
    {
        let mut placed = *state;
        placed.set(state.size().point_at(number), self.theirs());
        placed
    }

    /// Whether the keeper may answer at this point of the region.
    pub fn is_answer(&self, number: usize) -> bool
        requires marks { side_of self.now.marks ≡ side_of self.now.cells }
        requires within { number < side_of self.now.cells * side_of self.now.cells }
        ensures { result ≡ (area_of self.now).answers number }
    {
        self.cells.cell(number).is_empty() && self.marks.cell(number).is_stone_of(self.keeper)
    }

    /// What the other side's move at this point of the state comes to.
    ///
    /// It looks at the stones beside the point, from each until a liberty is found; only a suicide of several stones takes a few sweeps
    /// over the board.
    pub fn exchange(&self, state: &Colouring, number: usize) -> Exchange
        requires state { IsSettled self.now state.now }
        requires held { side_of self.now.held ≡ side_of self.now.cells }
        requires within { number < side_of self.now.cells * side_of self.now.cells }
        ensures { IsLeft (area_of self.now) state.now number result }
    {
        if !state.cell(number).is_empty() {
            return Exchange::Nothing;
        }
        let placed = self.with_theirs(state, number);
        if !self.last_beside(&placed, number, self.own()) {
            return Exchange::Takes;
        }
        if self.lasts(&placed, number) {
            return Exchange::Leaves(placed);
        }
        if self.is_enclosed(state, number) {
            return Exchange::Nothing;
        }
        Exchange::Leaves(self.without_loose(&placed))
    }

    /// Whether what is left by a move of the other side fits the state at this place, or does so after this answer.
    pub fn is_answered(
        &self,
        states: &[Colouring],
        left: &Colouring,
        answer: Option<usize>,
        next: usize,
    ) -> bool
        requires states { AreStates self.now states.now }
        requires side { side_of left.now ≡ side_of self.now.cells }
        requires marks { side_of self.now.marks ≡ side_of self.now.cells }
        requires held { side_of self.now.held ≡ side_of self.now.cells }
        requires clear { clear_loose (area_of self.now) left.now ≡ left.now }
        ensures { IsTrue result
            → IsAnswered (area_of self.now) (states_of states.now) left.now }
    {
        let Some(number) = answer else {
            return self.is_known(states, left, next);
        };
        if number >= self.size().area() {
            return false;
        }
        if !self.is_answer(number) {
            return false;
        }
        if !left.cell(number).is_empty() {
            return false;
        }
        self.is_known(states, &self.after_next_answer(left, number), next)
    }
}
