//! Local states of the killer's region on a board: what the other side's moves leave of them.

ghost use Rattle.std.specs.Prelude.{◌≡◌, ◌*◌, ◌<◌, ℕ, IsTrue, length, slice_set};
ghost use Rattle.go_points.specs.declared.Cell.TheVariants.{Empty};
ghost use Rattle.go_points.specs.Grid.{cell_at, side_of};
ghost use Rattle.safe_groups.specs.Areas.{own, theirs, Fits, clear_loose, opened};
ghost use Rattle.safe_groups.specs.Ground.{IsState};
ghost use Rattle.dead_groups.specs.Kills.{after_attack, clear_unsafe, freed, IsSureLoss};
ghost use Rattle.dead_groups.specs.Ground.{kill_area, masked_cell, IsRootedOn};

use go_points::{Cell, Colouring, Size};
use go_turns::cleared;
use safe_groups::Ground;

/// What the point holds in the one colouring where the mask holds this there, otherwise in the other.
fn masked_cell(
    mask: &Colouring,
    cell: Cell,
    there: &Colouring,
    elsewhere: &Colouring,
    number: usize,
) -> Cell
    requires mask { side_of mask.now ≡ side_of elsewhere.now }
    requires there { side_of there.now ≡ side_of elsewhere.now }
    requires within { number < side_of elsewhere.now * side_of elsewhere.now }
    ensures { result ≡ masked_cell mask.now cell there.now elsewhere.now number }
{
    if mask.cell(number) == cell {
        there.cell(number)
    } else {
        elsewhere.cell(number)
    }
}

/// The colouring that is the one where the mask holds this, and the other elsewhere.
fn masked(mask: &Colouring, cell: Cell, there: &Colouring, elsewhere: &Colouring) -> Colouring
    requires mask { side_of mask.now ≡ side_of elsewhere.now }
    requires there { side_of there.now ≡ side_of elsewhere.now }
    ensures side { side_of result ≡ side_of elsewhere.now }
    ensures full { length result ≡ side_of elsewhere.now * side_of elsewhere.now }
    ensures cells { (p : ℕ) → p < side_of elsewhere.now * side_of elsewhere.now
        → cell_at result p ≡ masked_cell mask.now cell there.now elsewhere.now p }
{
    let size = elsewhere.size();
    let mut made = *elsewhere;
    for number in 0..size.area() {
        let found = masked_cell(mask, cell, there, elsewhere, number);
        made.set(size.point_at(number), found);
    }
    made
}

/// A colouring that holds the same everywhere.
fn full_of(size: Size, cell: Cell) -> Colouring
    ensures side { side_of result ≡ size }
    ensures cells { (p : ℕ) → p < size * size → cell_at result p ≡ cell }
{
    let mut made = Colouring::empty(size);
    for number in 0..size.area() {
        made.set(size.point_at(number), cell);
    }
    made
}

/// The state with nothing at the kept stones.
pub fn freed(ground: &Ground, state: &Colouring) -> Colouring
    requires { side_of state.now ≡ side_of ground.now.cells }
    ensures value { result ≡ freed (kill_area ground.now) state.now }
    ensures side { side_of result ≡ side_of ground.now.cells }
{
    let none = Colouring::empty(state.size());
    masked(&ground.cells, ground.own(), &none, state)
}

/// The state without the killer's unsafe stones.
pub fn without_unsafe(ground: &Ground, state: &Colouring) -> Colouring
    requires { side_of state.now ≡ side_of ground.now.cells }
    ensures value { result ≡ clear_unsafe (kill_area ground.now) state.now }
    ensures side { side_of result ≡ side_of ground.now.cells }
{
    let left = cleared(&freed(ground, state), ground.keeper);
    masked(&ground.cells, ground.own(), state, &left)
}

/// The state with nothing outside.
fn opened(ground: &Ground, state: &Colouring) -> Colouring
    requires { side_of state.now ≡ side_of ground.now.cells }
    ensures value { result ≡ opened (kill_area ground.now) state.now }
    ensures side { side_of result ≡ side_of ground.now.cells }
{
    let none = Colouring::empty(state.size());
    masked(&ground.cells, ground.theirs(), &none, state)
}

/// The state without the other side's loose stones.
pub fn without_loose(ground: &Ground, state: &Colouring) -> Colouring
    requires { side_of state.now ≡ side_of ground.now.cells }
    ensures value { result ≡ clear_loose (kill_area ground.now) state.now }
    ensures side { side_of result ≡ side_of ground.now.cells }
{
    let left = cleared(&opened(ground, state), ground.keeper.opponent());
    masked(&ground.cells, ground.theirs(), state, &left)
}

/// The state with a stone of the other side's at this point.
fn with_theirs(ground: &Ground, state: &Colouring, number: usize) -> Colouring
    requires side { side_of state.now ≡ side_of ground.now.cells }
    requires within { number < side_of ground.now.cells * side_of ground.now.cells }
    ensures value { result ≡ slice_set state.now number (theirs (kill_area ground.now)) }
    ensures side { side_of result ≡ side_of ground.now.cells }
{
    let mut placed = *state;
    placed.set(state.size().point_at(number), ground.theirs());
    placed
}

/// The state after the other side's move at this point.
pub fn attacked(ground: &Ground, state: &Colouring, number: usize) -> Colouring
    requires side { side_of state.now ≡ side_of ground.now.cells }
    requires within { number < side_of ground.now.cells * side_of ground.now.cells }
    ensures value { result ≡ after_attack (kill_area ground.now) state.now number }
    ensures side { side_of result ≡ side_of ground.now.cells }
{
    let placed = with_theirs(ground, state, number);
    without_loose(ground, &without_unsafe(ground, &placed))
}

/// A colouring that inside holds stones of the other side wherever they are rooted in the state, and only where the state does.
fn rooted_stones(ground: &Ground, state: &Colouring) -> Colouring
    requires { side_of state.now ≡ side_of ground.now.cells }
    ensures side { side_of result ≡ side_of ground.now.cells }
    ensures rooted { IsRootedOn (kill_area ground.now) state.now result }
    ensures only { (p : ℕ) → cell_at result p ≡ theirs (kill_area ground.now)
        → cell_at state.now p ≡ theirs (kill_area ground.now) }
{
    let filled = masked(
        state,
        Cell::Empty,
        &full_of(state.size(), ground.own()),
        state,
    );
    cleared(&opened(ground, &filled), ground.keeper.opponent())
}

/// Whether each point that holds this in the one colouring does so in the other.
fn all_there(one: &Colouring, other: &Colouring, cell: Cell) -> bool
    requires { side_of other.now ≡ side_of one.now }
    ensures { IsTrue result → (p : ℕ) → p < side_of one.now * side_of one.now
        → cell_at one.now p ≡ cell → cell_at other.now p ≡ cell }
{
    for number in 0..one.size().area() {
        if one.cell(number) == cell && other.cell(number) != cell {
            return false;
        }
    }
    true
}

/// Whether all that the other side's move at this point takes is surely taken: no more of the killer's stones is left where the rooted
/// stones, and those outside, are taken away.
pub fn is_sure(ground: &Ground, state: &Colouring, number: usize) -> bool
    requires state { IsState ground.now state.now }
    requires within { number < side_of ground.now.cells * side_of ground.now.cells }
    ensures { IsTrue result → IsSureLoss (kill_area ground.now) state.now number }
{
    let bare = freed(ground, &with_theirs(ground, state, number));
    let rooted = rooted_stones(ground, state);
    let none = Colouring::empty(state.size());
    let open = opened(ground, &masked(&rooted, ground.theirs(), &none, &bare));
    let left = cleared(&open, ground.keeper);
    all_there(&left, &cleared(&bare, ground.keeper), ground.own())
}

/// Whether the board surely does not fit the state at this point, whatever is rooted there.
fn differs_at(ground: &Ground, board: &Colouring, state: &Colouring, number: usize) -> bool
    requires board { side_of board.now ≡ side_of ground.now.cells }
    requires state { IsState ground.now state.now }
    requires within { number < side_of ground.now.cells * side_of ground.now.cells }
    ensures { IsTrue result → Fits (kill_area ground.now) board.now state.now → ⊥ }
{
    if ground.cells.cell(number) == ground.theirs() {
        return false;
    }
    let there = board.cell(number);
    let cell = state.cell(number);
    if there == cell {
        return false;
    }
    if !there.is_empty() {
        return true;
    }
    cell != ground.theirs()
}

/// Whether the board differs so anywhere. Of nearly all boards of a game this is true, and it is soon asked.
fn differs(ground: &Ground, board: &Colouring, state: &Colouring) -> bool
    requires board { side_of board.now ≡ side_of ground.now.cells }
    requires state { IsState ground.now state.now }
    ensures { IsTrue result → Fits (kill_area ground.now) board.now state.now → ⊥ }
{
    for number in 0..state.size().area() {
        if differs_at(ground, board, state, number) {
            return true;
        }
    }
    false
}

/// Whether the board lacks a rooted stone of the state at this point.
fn lacks_rooted(
    ground: &Ground,
    board: &Colouring,
    state: &Colouring,
    rooted: &Colouring,
    number: usize,
) -> bool
    requires board { side_of board.now ≡ side_of ground.now.cells }
    requires state { IsState ground.now state.now }
    requires side { side_of rooted.now ≡ side_of ground.now.cells }
    requires within { number < side_of ground.now.cells * side_of ground.now.cells }
    requires rooted { IsRootedOn (kill_area ground.now) state.now rooted.now }
    ensures { IsTrue result → Fits (kill_area ground.now) board.now state.now → ⊥ }
{
    if differs_at(ground, board, state, number) {
        return true;
    }
    let is_outside = ground.cells.cell(number) == ground.theirs();
    if is_outside || state.cell(number) != ground.theirs() {
        return false;
    }
    board.cell(number).is_empty() && rooted.cell(number) != ground.theirs()
}

/// Whether the board surely does not fit the state.
pub fn misfits(ground: &Ground, board: &Colouring, state: &Colouring) -> bool
    requires board { side_of board.now ≡ side_of ground.now.cells }
    requires state { IsState ground.now state.now }
    ensures { IsTrue result → Fits (kill_area ground.now) board.now state.now → ⊥ }
{
    if differs(ground, board, state) {
        return true;
    }
    let rooted = rooted_stones(ground, state);
    for number in 0..state.size().area() {
        if lacks_rooted(ground, board, state, &rooted, number) {
            return true;
        }
    }
    false
}
