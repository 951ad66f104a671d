//! Whether the areas of a claim are of a problem's board, and what follows if each of them has answers.

ghost use Rattle.std.specs.Prelude.{◌≡◌, ◌≢◌, ◌*◌, ◌<◌, ◌⊎◌, ℕ, List, map, length, get_or, IsTrue, IsFalse, OnOk, IfOk, Some, None};
ghost use Rattle.std.specs.List.{All, list_all};
ghost use Rattle.go_points.specs.Grid.{cell_at, side_of};
ghost use Rattle.go_points.specs.Place.{IsOn, number_of};
ghost use Rattle.go_points.specs.declared.Cell.TheVariants.{Stone};
ghost use Rattle.target_game.specs.State.{start};
ghost use Rattle.target_game.specs.Legal.{holds_point};
ghost use Rattle.safe_groups.specs.Areas.{own, IsAnswer};
ghost use Rattle.safe_groups.specs.Together.{IsKept, PastFits};
ghost use Rattle.safe_groups.specs.Ground.{AllSafe, area_of, areas_of, ground_at, state_at, BarsNone, HasReplies, HoldsFor, HoldsOn, IsOfBoard, IsSafeAs, IsSized, IsState, IsMoveFrom};
ghost use Rattle.safe_groups.specs.Private.Verdict.{AreKept, BarsNothing, LacksOne, StandsInOne};

use crate::ground::Ground;
use crate::together::are_in_order;
use go_points::{Cell, Colour, Colouring, Point, PointSet, Size};
use target_game::{Problem, all_hold};

/// Why the areas of a claim are not those of a problem.
#[derive(Clone, Copy, Debug, PartialEq, Eq)]
pub enum Misfit {
    /// An area is not one of this board, or the board does not fit it.
    Board,
    /// The areas cannot serve together.
    Order,
    /// A target is not kept.
    Target,
    /// An earlier position may bar an answer.
    Past,
}

impl Ground {
    /// Whether all colourings of the ground are of this size.
    pub fn is_sized(&self, size: Size) -> bool
        ensures { IsTrue result → IsSized size self.now }
    {
        if self.cells.size() != size {
            return false;
        }
        if self.marks.size() != size {
            return false;
        }
        if self.held.size() != size {
            return false;
        }
        if self.earlier.size() != size {
            return false;
        }
        self.gives.size() == size
    }

    /// Whether the keeper does not answer at the point, or it is in the region.
    fn is_allowed(&self, region: &PointSet, number: usize) -> bool
        requires marks { side_of self.now.marks ≡ side_of self.now.cells }
        requires region { All (IsOn (side_of self.now.cells)) region.now }
        requires within { number < side_of self.now.cells * side_of self.now.cells }
        ensures { IsTrue result → IsTrue ((area_of self.now).answers number)
            → IsTrue (holds_point (map (number_of (side_of self.now.cells)) region.now) number) }
    {
        if !self.is_answer(number) {
            return true;
        }
        region.has(self.size().point_at(number))
    }

    /// Whether each point at which the keeper answers is in the region.
    fn answers_within(&self, region: &PointSet) -> bool
        requires marks { side_of self.now.marks ≡ side_of self.now.cells }
        requires region { All (IsOn (side_of self.now.cells)) region.now }
        ensures { IsTrue result → (p : ℕ) → IsTrue ((area_of self.now).answers p)
            → IsTrue (holds_point (map (number_of (side_of self.now.cells)) region.now) p) }
    {
        for number in 0..self.size().area() {
            if !self.is_allowed(region, number) {
                return false;
            }
        }
        true
    }

    /// Whether the keeper has no stone in the colouring of the past, where he answers, that he does not have in the state.
    fn bars_none(&self, state: &Colouring, past: &Colouring) -> bool
        requires marks { side_of self.now.marks ≡ side_of self.now.cells }
        requires side { side_of state.now ≡ side_of self.now.cells }
        requires past { side_of past.now ≡ side_of self.now.cells }
        ensures { IsTrue result → BarsNone self.now state.now past.now }
    {
        for number in 0..self.size().area() {
            if self.is_answer(number)
                && past.cell(number) == self.own()
                && state.cell(number) != self.own()
            {
                return false;
            }
        }
        true
    }
}

/// Whether the ground is of the problem's board, this side keeps, and the board fits the state.
fn is_of_board(problem: &Problem, keeper: Colour, ground: &Ground, begin: &Colouring) -> bool
    requires { side_of (start problem.now).colouring ≡ problem.now.game.size }
    ensures { IsTrue result → IsOfBoard problem.now keeper ground.now begin.now }
{
    if !ground.is_sized(problem.size()) {
        return false;
    }
    if !ground.own().is_stone_of(keeper) {
        return false;
    }
    if !ground.is_state(begin) {
        return false;
    }
    if !ground.fits(problem.colouring(), begin) {
        return false;
    }
    ground.answers_within(problem.region())
}

/// The same of each area.
fn are_of_board(problem: &Problem, keeper: Colour, grounds: &[Ground], begins: &[Colouring]) -> bool
    requires { side_of (start problem.now).colouring ≡ problem.now.game.size }
    ensures lengths { IsTrue result → length grounds.now ≡ length begins.now }
    ensures each { IsTrue result → (i : ℕ) → i < length grounds.now
        → IsOfBoard problem.now keeper (ground_at grounds.now i) (state_at begins.now i) }
{
    if grounds.len() != begins.len() {
        return false;
    }
    for place in 0..grounds.len() {
        if !is_of_board(problem, keeper, &grounds[place], &begins[place]) {
            return false;
        }
    }
    true
}

/// Whether one of the keeper's stones stands at the point in one of the states.
fn stands_in_one(begins: &[Colouring], size: Size, keeper: Colour, number: usize) -> bool
    requires sized { All (λ c. side_of c ≡ size) begins.now }
    requires within { number < size * size }
    ensures { IsTrue result → StandsInOne keeper begins.now number }
{
    for place in 0..begins.len() {
        if begins[place].cell(number) == Cell::Stone(keeper) {
            return true;
        }
    }
    false
}

/// One of the keeper's stones where one stands in one of the states.
fn kept_cell(begins: &[Colouring], size: Size, keeper: Colour, number: usize) -> Cell
    requires sized { All (λ c. side_of c ≡ size) begins.now }
    requires within { number < size * size }
    ensures { result ≡ Stone keeper → StandsInOne keeper begins.now number }
{
    if stands_in_one(begins, size, keeper, number) {
        Cell::Stone(keeper)
    } else {
        Cell::Empty
    }
}

/// A colouring on which the keeper's stones are those that stand in one of the states.
pub fn kept_stones(begins: &[Colouring], size: Size, keeper: Colour) -> Colouring
    requires { All (λ c. side_of c ≡ size) begins.now }
    ensures side { side_of result ≡ size }
    ensures kept { AreKept keeper begins.now result }
{
    let mut stones = Colouring::empty(size);
    for number in 0..size.area() {
        let cell = kept_cell(begins, size, keeper, number);
        stones.set(size.point_at(number), cell);
    }
    stones
}

/// Whether a colouring of the past lacks one of the keeper's stones.
fn lacks_one(stones: &Colouring, past: &Colouring, keeper: Colour) -> bool
    requires { side_of past.now ≡ side_of stones.now }
    ensures { IsTrue result → LacksOne keeper stones.now past.now }
{
    for number in 0..stones.size().area() {
        if stones.cell(number) == Cell::Stone(keeper) && past.cell(number) != Cell::Stone(keeper) {
            return true;
        }
    }
    false
}

/// Whether the colouring of the past bars no answer of any area.
fn bars_nothing(grounds: &[Ground], begins: &[Colouring], size: Size, past: &Colouring) -> bool
    requires grounds { All (IsSized size) grounds.now }
    requires begins { All (λ c. side_of c ≡ size) begins.now }
    requires lengths { length grounds.now ≡ length begins.now }
    requires past { side_of past.now ≡ size }
    ensures { IsTrue result → BarsNothing grounds.now begins.now past.now }
{
    for place in 0..grounds.len() {
        if !grounds[place].bars_none(&begins[place], past) {
            return false;
        }
    }
    true
}

/// Whether this colouring of the past bars no answer: it lacks one of the stones that are kept, or has the keeper nowhere at an answer
/// where he is not now.
fn is_harmless(
    problem: &Problem,
    keeper: Colour,
    grounds: &[Ground],
    begins: &[Colouring],
    stones: &Colouring,
    past: &Colouring,
) -> bool
    requires grounds { All (IsSized problem.now.game.size) grounds.now }
    requires begins { All (λ c. side_of c ≡ problem.now.game.size) begins.now }
    requires lengths { length grounds.now ≡ length begins.now }
    requires stones { side_of stones.now ≡ problem.now.game.size }
    requires past { side_of past.now ≡ problem.now.game.size }
    ensures { IsTrue result → LacksOne keeper stones.now past.now
        ⊎ BarsNothing grounds.now begins.now past.now }
{
    if lacks_one(stones, past, keeper) {
        return true;
    }
    bars_nothing(grounds, begins, problem.size(), past)
}

/// Whether no colouring of the past bars an answer: each lacks one of the stones that are kept, or has the keeper nowhere at an answer
/// where he is not now.
fn past_fits(
    problem: &Problem,
    keeper: Colour,
    grounds: &[Ground],
    begins: &[Colouring],
    stones: &Colouring,
) -> bool
    requires grounds { All (IsSized problem.now.game.size) grounds.now }
    requires begins { All (λ c. side_of c ≡ problem.now.game.size) begins.now }
    requires lengths { length grounds.now ≡ length begins.now }
    requires stones { side_of stones.now ≡ problem.now.game.size }
    ensures { IsTrue result → All (λ q. LacksOne keeper stones.now q
        ⊎ BarsNothing grounds.now begins.now q) problem.now.history }
{
    for past in problem.history() {
        if !is_harmless(problem, keeper, grounds, begins, stones, past) {
            return false;
        }
    }
    true
}

/// Whether the areas, where this side keeps, are of the problem's board, and may serve together, and no earlier position bars an answer.
/// Gives the stones that are kept, as the keeper's on a colouring.
///
/// For each pair of areas it looks at each point, and for each colouring of the past at each point of each area.
pub fn hold_on(
    problem: &Problem,
    keeper: Colour,
    grounds: &[Ground],
    begins: &[Colouring],
) -> Result<Colouring, Misfit>
    ensures side { IfOk result (λ stones. side_of stones ≡ problem.now.game.size) }
    ensures holds { OnOk result (HoldsOn problem.now keeper grounds.now begins.now) }
    ensures kept { IfOk result (λ stones. AreKept keeper begins.now stones) }
{
    if problem.colouring().size() != problem.size() {
        return Err(Misfit::Board);
    }
    if !are_of_board(problem, keeper, grounds, begins) {
        return Err(Misfit::Board);
    }
    if !are_in_order(grounds, problem.size()) {
        return Err(Misfit::Order);
    }
    let stones = kept_stones(begins, problem.size(), keeper);
    if !past_fits(problem, keeper, grounds, begins, &stones) {
        return Err(Misfit::Past);
    }
    Ok(stones)
}

/// The same where the defender keeps, and whether all targets are kept.
pub fn hold_for(
    problem: &Problem,
    grounds: &[Ground],
    begins: &[Colouring],
) -> Result<Colouring, Misfit>
    ensures side { IfOk result (λ stones. side_of stones ≡ problem.now.game.size) }
    ensures holds { OnOk result (HoldsFor problem.now grounds.now begins.now) }
    ensures kept { IfOk result (λ stones. AreKept problem.now.game.defender begins.now stones) }
{
    let keeper = problem.defender();
    let stones = hold_on(problem, keeper, grounds, begins)?;
    if !all_hold(&stones, problem.targets(), Cell::Stone(keeper)) {
        return Err(Misfit::Target);
    }
    Ok(stones)
}

/// If each area has answers, the targets are safe, and so are all stones that are kept.
pub fn are_safe(problem: &Problem, grounds: &[Ground], begins: &[Colouring], stones: &Colouring)
    requires holds { HoldsFor problem.now grounds.now begins.now }
    requires kept { AreKept problem.now.game.defender begins.now stones.now }
    requires replies { (i : ℕ) → i < length grounds.now
        → HasReplies (ground_at grounds.now i) (state_at begins.now i) }
    ensures targets { IsSafeAs None (start problem.now) }
    ensures stones { AllSafe None (start problem.now) stones.now }
{}

/// The same, if the defender, who is to move, first plays at this point of one of the areas.
pub fn are_safe_by_move(
    problem: &Problem,
    grounds: &[Ground],
    begins: &[Colouring],
    stones: &Colouring,
    place: usize,
    first: Point,
)
    requires holds { HoldsFor problem.now grounds.now begins.now }
    requires kept { AreKept problem.now.game.defender begins.now stones.now }
    requires mover { problem.now.mover ≡ problem.now.game.defender }
    requires place { place < length grounds.now }
    requires others { (i : ℕ) → i < length grounds.now → i ≢ place
        → HasReplies (ground_at grounds.now i) (state_at begins.now i) }
    requires moved { IsMoveFrom (ground_at grounds.now place) (state_at begins.now place)
        (number_of problem.now.game.size first) }
    ensures targets { IsSafeAs (Some first) (start problem.now) }
    ensures stones { AllSafe (Some first) (start problem.now) stones.now }
{}
