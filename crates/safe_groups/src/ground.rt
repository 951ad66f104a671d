//! Local states of an area on a board: what stands, what vanishes, and which states a board fits.

ghost use Rattle.std.specs.Prelude.{◌≡◌, ◌*◌, ◌<◌, ◌⊎◌, ℕ, IsTrue, length};
ghost use Rattle.go_points.specs.declared.Cell.TheVariants.{Empty};
ghost use Rattle.go_points.specs.Grid.{cell_at, side_of};
ghost use Rattle.go_points.specs.Reach.{Reaches};
ghost use Rattle.safe_groups.specs.Areas.{is_outside, own, theirs, opened, clear_loose, IsWalled, IsAtRest, Leans, Rooted, Fits};
ghost use Rattle.safe_groups.specs.Ground.{area_of, lifted_cell, marked, part_cell, shut_cell, FitsAt, IsSized, IsState, IsWalledAt};

use go_points::{Cell, Colour, Colouring, MAX_SIZE, Size};
use go_turns::cleared;

/// An area of a board. On `cells` the kept stones are the keeper's, the region is empty, and every other point holds a stone of the
/// other side. On the other colourings stones of the keeper's mark points.
#[derive(Clone, Copy, Debug)]
pub struct Ground {
    pub cells: Colouring,
    /// The points at which the keeper answers.
    pub marks: Colouring,
    /// The stones that need no liberty here.
    pub held: Colouring,
    /// Those that are kept by the areas of earlier groups.
    pub earlier: Colouring,
    /// The kept stones that this area gives a liberty.
    pub gives: Colouring,
    /// The number of its group: areas of one group may lean on each other.
    pub group: usize,
    pub keeper: Colour,
}

impl Ground {
    pub fn size(&self) -> Size
        ensures value { result ≡ side_of self.now.cells }
        ensures full { length self.now.cells ≡ side_of self.now.cells * side_of self.now.cells }
    {
        self.cells.size()
    }

    /// What the keeper holds, and what the other side does.
    pub fn own(&self) -> Cell
        ensures { result ≡ own (area_of self.now) }
    {
        Cell::Stone(self.keeper)
    }

    pub fn theirs(&self) -> Cell
        ensures { result ≡ theirs (area_of self.now) }
    {
        Cell::Stone(self.keeper.opponent())
    }

    /// Whether the point is neither kept nor of the region.
    pub(crate) fn is_outside(&self, number: usize) -> bool
        requires { number < side_of self.now.cells * side_of self.now.cells }
        ensures { result ≡ is_outside (area_of self.now) number }
    {
        let cell = self.cells.cell(number);
        !cell.is_stone_of(self.keeper) && !cell.is_empty()
    }

    /// What the point holds in the first colouring if it is inside, otherwise in the second.
    fn part(&self, inside: &Colouring, outside: &Colouring, number: usize) -> Cell
        requires inside { side_of inside.now ≡ side_of self.now.cells }
        requires outside { side_of outside.now ≡ side_of self.now.cells }
        requires within { number < side_of self.now.cells * side_of self.now.cells }
        ensures { result ≡ part_cell (area_of self.now) inside.now outside.now number }
    {
        if self.is_outside(number) {
            outside.cell(number)
        } else {
            inside.cell(number)
        }
    }

    /// The colouring that is the first inside, and the second outside.
    fn patched(&self, inside: &Colouring, outside: &Colouring) -> Colouring
        requires inside { side_of inside.now ≡ side_of self.now.cells }
        requires outside { side_of outside.now ≡ side_of self.now.cells }
        ensures side { side_of result ≡ side_of self.now.cells }
        ensures full { length result ≡ side_of self.now.cells * side_of self.now.cells }
        ensures cells { (p : ℕ) → p < side_of self.now.cells * side_of self.now.cells
            → cell_at result p ≡ part_cell (area_of self.now) inside.now outside.now p }
    {
        let size = outside.size();
        let mut made = *outside;
        for number in 0..size.area() {
            made.set(size.point_at(number), self.part(inside, outside, number));
        }
        made
    }

    /// The state with nothing outside.
    fn opened(&self, state: &Colouring) -> Colouring
        requires { side_of state.now ≡ side_of self.now.cells }
        ensures value { result ≡ opened (area_of self.now) state.now }
        ensures side { side_of result ≡ side_of self.now.cells }
    {
        self.patched(state, &Colouring::empty(self.size()))
    }

    /// The state without the other side's stones that are neither rooted nor reach empty.
    pub(crate) fn without_loose(&self, state: &Colouring) -> Colouring
        requires { side_of state.now ≡ side_of self.now.cells }
        ensures value { result ≡ clear_loose (area_of self.now) state.now }
        ensures side { side_of result ≡ side_of self.now.cells }
    {
        let left = cleared(&self.opened(state), self.keeper.opponent());
        self.patched(&left, state)
    }

    /// What the point holds where the keeper's stones at these points are taken away.
    fn lifted(&self, state: &Colouring, points: &Colouring, number: usize) -> Cell
        requires side { side_of state.now ≡ side_of self.now.cells }
        requires points { side_of points.now ≡ side_of self.now.cells }
        requires within { number < side_of self.now.cells * side_of self.now.cells }
        ensures { result ≡ lifted_cell (area_of self.now) state.now points.now number }
    {
        let cell = state.cell(number);
        if points.cell(number).is_stone_of(self.keeper) && cell.is_stone_of(self.keeper) {
            Cell::Empty
        } else {
            cell
        }
    }

    /// The state with the keeper's stones at these points taken away: what is joined to them reaches empty there.
    fn without(&self, state: &Colouring, points: &Colouring) -> Colouring
        requires state { side_of state.now ≡ side_of self.now.cells }
        requires points { side_of points.now ≡ side_of self.now.cells }
        ensures side { side_of result ≡ side_of self.now.cells }
        ensures full { length result ≡ side_of self.now.cells * side_of self.now.cells }
        ensures cells { (p : ℕ) → p < side_of self.now.cells * side_of self.now.cells
            → cell_at result p ≡ lifted_cell (area_of self.now) state.now points.now p }
    {
        let size = state.size();
        let mut made = *state;
        for number in 0..size.area() {
            made.set(size.point_at(number), self.lifted(state, points, number));
        }
        made
    }

    /// Whether a stone of the keeper's that is wanted at the point leans on these points: it is one of them, or is left when those
    /// without a liberty are taken.
    fn leans_at(
        &self,
        state: &Colouring,
        wanted: &Colouring,
        points: &Colouring,
        left: &Colouring,
        number: usize,
    ) -> bool
        requires state { side_of state.now ≡ side_of self.now.cells }
        requires wanted { side_of wanted.now ≡ side_of self.now.cells }
        requires points { side_of points.now ≡ side_of self.now.cells }
        requires left { side_of left.now ≡ side_of self.now.cells }
        requires within { number < side_of self.now.cells * side_of self.now.cells }
        ensures { IsTrue result → cell_at wanted.now number ≡ own (area_of self.now)
            → (cell_at state.now number ≡ own (area_of self.now))
            × (IsTrue (marked self.now points.now number)
            ⊎ (cell_at left.now number ≡ own (area_of self.now))) }
    {
        if wanted.cell(number) != self.own() {
            return true;
        }
        if state.cell(number) != self.own() {
            return false;
        }
        points.cell(number).is_stone_of(self.keeper) || left.cell(number) == self.own()
    }

    /// Whether all wanted stones are there, and reach empty or lean on one of these points.
    fn all_lean(&self, state: &Colouring, wanted: &Colouring, points: &Colouring) -> bool
        requires state { side_of state.now ≡ side_of self.now.cells }
        requires wanted { side_of wanted.now ≡ side_of self.now.cells }
        requires points { side_of points.now ≡ side_of self.now.cells }
        ensures { IsTrue result → (p : ℕ) → cell_at wanted.now p ≡ own (area_of self.now)
            → (cell_at state.now p ≡ own (area_of self.now))
            × Leans (area_of self.now) (marked self.now points.now) state.now p }
    {
        let left = cleared(&self.without(state, points), self.keeper);
        for number in 0..wanted.size().area() {
            if !self.leans_at(state, wanted, points, &left, number) {
                return false;
            }
        }
        true
    }

    /// Whether all stones of the keeper's reach empty, or lean on held ones.
    pub(crate) fn stands(&self, state: &Colouring) -> bool
        requires state { side_of state.now ≡ side_of self.now.cells }
        requires held { side_of self.now.held ≡ side_of self.now.cells }
        ensures { IsTrue result → (p : ℕ) → cell_at state.now p ≡ own (area_of self.now)
            → Leans (area_of self.now) (area_of self.now).held state.now p }
    {
        self.all_lean(state, state, &self.held)
    }

    /// Whether all stones that the area gives a liberty reach empty, or lean on earlier ones.
    fn gives_all(&self, state: &Colouring) -> bool
        requires state { side_of state.now ≡ side_of self.now.cells }
        requires gives { side_of self.now.gives ≡ side_of self.now.cells }
        requires earlier { side_of self.now.earlier ≡ side_of self.now.cells }
        ensures { IsTrue result → (p : ℕ) → IsTrue ((area_of self.now).gives p)
            → Leans (area_of self.now) (area_of self.now).earlier state.now p }
    {
        self.all_lean(state, &self.gives, &self.earlier)
    }

    /// Whether no stone of the other side's is loose.
    pub(crate) fn is_clear(&self, state: &Colouring) -> bool
        requires { side_of state.now ≡ side_of self.now.cells }
        ensures { IsTrue result → clear_loose (area_of self.now) state.now ≡ state.now }
    {
        self.without_loose(state) == *state
    }

    /// Whether all stones of the keeper's, those that are given a liberty, and the other side's that are not rooted reach empty, or
    /// lean on the stones that they may lean on.
    pub fn is_at_rest(&self, state: &Colouring) -> bool
        requires state { IsState self.now state.now }
        requires sized { IsSized (side_of self.now.cells) self.now }
        ensures rest { IsTrue result → IsAtRest (area_of self.now) state.now }
        ensures clear { IsTrue result → clear_loose (area_of self.now) state.now ≡ state.now }
    {
        if !self.stands(state) {
            return false;
        }
        if !self.gives_all(state) {
            return false;
        }
        self.is_clear(state)
    }

    /// Whether the point holds what it has to in each state: what it holds on the ground, unless it is of the region.
    fn is_walled_at(&self, state: &Colouring, number: usize) -> bool
        requires side { side_of state.now ≡ side_of self.now.cells }
        requires within { number < side_of self.now.cells * side_of self.now.cells }
        ensures { IsTrue result → IsWalledAt (area_of self.now) state.now number }
    {
        let cell = self.cells.cell(number);
        cell.is_empty() || state.cell(number) == cell
    }

    /// Whether the colouring is a state of the area: as the ground but in the region.
    pub fn is_state(&self, state: &Colouring) -> bool
        ensures { IsTrue result → IsState self.now state.now }
    {
        let size = self.size();
        if state.size() != size {
            return false;
        }
        for number in 0..size.area() {
            if !self.is_walled_at(state, number) {
                return false;
            }
        }
        true
    }

    /// What the point holds with nothing outside, and with the keeper's stones where the state is empty.
    fn shut_cell(&self, state: &Colouring, number: usize) -> Cell
        requires side { side_of state.now ≡ side_of self.now.cells }
        requires within { number < side_of self.now.cells * side_of self.now.cells }
        ensures { result ≡ shut_cell (area_of self.now) state.now number }
    {
        if self.is_outside(number) {
            return Cell::Empty;
        }
        let cell = state.cell(number);
        if cell.is_empty() { self.own() } else { cell }
    }

    /// That colouring: in it nothing reaches empty but by the outside.
    fn shut(&self, state: &Colouring) -> Colouring
        requires { side_of state.now ≡ side_of self.now.cells }
        ensures side { side_of result ≡ side_of self.now.cells }
        ensures cells { (p : ℕ) → p < side_of self.now.cells * side_of self.now.cells
            → cell_at result p ≡ shut_cell (area_of self.now) state.now p }
    {
        let size = state.size();
        let mut made = *state;
        for number in 0..size.area() {
            made.set(size.point_at(number), self.shut_cell(state, number));
        }
        made
    }

    /// A colouring that holds stones of the other side only where they are rooted in the state.
    fn rooted_stones(&self, state: &Colouring) -> Colouring
        requires { IsState self.now state.now }
        ensures side { side_of result ≡ side_of self.now.cells }
        ensures rooted { (p : ℕ) → cell_at result p ≡ theirs (area_of self.now)
            → Rooted (area_of self.now) state.now p }
    {
        cleared(&self.shut(state), self.keeper.opponent())
    }

    /// Whether the board fits the state at this point, given the state's rooted stones.
    fn fits_at(
        &self,
        board: &Colouring,
        state: &Colouring,
        rooted: &Colouring,
        number: usize,
    ) -> bool
        requires board { side_of board.now ≡ side_of self.now.cells }
        requires state { side_of state.now ≡ side_of self.now.cells }
        requires side { side_of rooted.now ≡ side_of self.now.cells }
        requires within { number < side_of self.now.cells * side_of self.now.cells }
        requires rooted { (p : ℕ) → cell_at rooted.now p ≡ theirs (area_of self.now)
            → Rooted (area_of self.now) state.now p }
        ensures { IsTrue result → FitsAt (area_of self.now) board.now state.now number }
    {
        if self.is_outside(number) {
            return true;
        }
        let there = board.cell(number);
        let cell = state.cell(number);
        if there == cell {
            return true;
        }
        there.is_empty() && cell == self.theirs() && rooted.cell(number) == self.theirs()
    }

    /// Whether the board fits the state.
    pub fn fits(&self, board: &Colouring, state: &Colouring) -> bool
        requires state { IsState self.now state.now }
        requires side { side_of board.now ≡ side_of self.now.cells }
        ensures { IsTrue result → Fits (area_of self.now) board.now state.now }
    {
        if *board == *state {
            return true;
        }
        let rooted = self.rooted_stones(state);
        let size = board.size();
        for number in 0..size.area() {
            if !self.fits_at(board, state, &rooted, number) {
                return false;
            }
        }
        true
    }
}
