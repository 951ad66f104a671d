//! What the turn or the setup of a node does to a record.

ghost use Rattle.std.specs.Prelude.{◌≡◌, option_map, if◌then◌else◌, IfSome};
ghost use Rattle.go_points.specs.Grid.{side_of};
ghost use Rattle.go_points.specs.Points.{holds_place};
ghost use Rattle.go_points.specs.declared.Cell.TheVariants.{Empty, Stone};
ghost use Rattle.go_points.specs.declared.Colour.TheVariants.{Black, White};
ghost use Rattle.go_points.specs.Ply.{ply_of};
ghost use Rattle.tsumego_problem.specs.Walk.{assigned, turn_at, player_at, turned, set_to, changed, has_no_liberty};
ghost use Rattle.tsumego_problem.specs.Walked.{walk_of, StandsOn, IsSetupFault, IsNoLiberty, WalksTo};

use crate::fault::{ProblemFault, TurnFaultCause};
use crate::main_line::{has_setup, values_at};
use crate::named_points::points_at;
use crate::values::{read_colour, read_turn};
use go_points::{Cell, Colour, Colouring, Point, PointSet, Size, Turn};
use go_turns::{PlayRecord, TurnFault};
use sgf_text::SgfNode;

/// The turn of a node, and whose it is: the first value of B, or otherwise of W (SGF FF[4], "Move properties"). `None` if the node
/// has neither, or if the value is not a turn on a board of this size.
pub fn turn_at(size: Size, node: &SgfNode) -> Option<(Colour, Turn)>
    ensures value { option_map (λ t. (t.0, ply_of size t.1)) result ≡ turn_at size node.now }
    ensures on_board { IfSome result (λ t. StandsOn size (ply_of size t.1)) }
{
    if let Some(value) = values_at(b"B", node).first() {
        return match read_turn(size, value.as_slice()) {
            Some(turn) => Some((Colour::Black, turn)),
            None => None,
        };
    }
    if let Some(value) = values_at(b"W", node).first() {
        return match read_turn(size, value.as_slice()) {
            Some(turn) => Some((Colour::White, turn)),
            None => None,
        };
    }
    None
}

/// The colour that PL gives the next turn to.
pub(crate) fn player_at(node: &SgfNode) -> Option<Colour>
    ensures { result ≡ player_at node.now }
{
    match values_at(b"PL", node).first() {
        Some(value) => read_colour(value.as_slice()),
        None => None,
    }
}

/// What a point holds after these points were assigned.
fn cell_after(
    black: &PointSet,
    white: &PointSet,
    empty: &PointSet,
    point: Point,
    cell: Cell,
) -> Cell
    ensures { result ≡ if holds_place black.now point then Stone Black else
        (if holds_place white.now point then Stone White else
        (if holds_place empty.now point then Empty else cell)) }
{
    if black.has(point) {
        Cell::Stone(Colour::Black)
    } else if white.has(point) {
        Cell::Stone(Colour::White)
    } else if empty.has(point) {
        Cell::Empty
    } else {
        cell
    }
}

/// The colouring with the node's setup assigned.
pub fn assigned(size: Size, node: &SgfNode, colouring: &Colouring) -> Colouring
    requires { side_of colouring.now ≡ size }
    ensures value { result ≡ assigned size node.now colouring.now }
    ensures size { side_of result ≡ size }
{
    prove!(colouring.size() == size);
    let black = points_at(size, b"AB", node);
    let white = points_at(size, b"AW", node);
    let empty = points_at(size, b"AE", node);
    let mut after = *colouring;
    for number in 0..size.area() {
        let point = size.point_at(number);
        after.set(
            point,
            cell_after(&black, &white, &empty, point, colouring.get(point)),
        );
    }
    after
}

/// Plays the turn of the node with this number. Returns the colour to move afterwards.
fn play(
    played: &mut PlayRecord,
    size: Size,
    number: usize,
    mover: Colour,
    colour: Colour,
    turn: Turn,
) -> Result<Colour, ProblemFault>
    requires size { played.old.size ≡ size }
    requires on_board { StandsOn size (ply_of size turn) }
    ensures { WalksTo (turned size number colour (ply_of size turn) (walk_of played.old mover)) size
        played.new result }
{
    match played.play(colour, turn) {
        Ok(()) => Ok(colour.opponent()),
        Err(TurnFault::Occupied) => Err(ProblemFault::IllegalTurn {
            node: number,
            cause: TurnFaultCause::Occupied,
        }),
        Err(TurnFault::Repeats { earlier }) => Err(ProblemFault::IllegalTurn {
            node: number,
            cause: TurnFaultCause::Repeats { earlier },
        }),
        Err(TurnFault::Memory) => Err(ProblemFault::Memory),
        Err(_) => unreachable!(),
    }
}

/// What the fault of a setup says of the node with this number.
fn setup_fault(number: usize, fault: TurnFault) -> ProblemFault
    requires { IsSetupFault fault }
    ensures liberty { IsNoLiberty fault → result ≡ ProblemFault.NoLiberty number }
    ensures memory { fault ≡ TurnFault.Memory → result ≡ ProblemFault.Memory }
{
    match fault {
        TurnFault::NoLiberty { .. } => ProblemFault::NoLiberty { node: number },
        TurnFault::Memory => ProblemFault::Memory,
        _ => unreachable!(),
    }
}

/// Assigns the setup of the node with this number.
fn set_up(
    played: &mut PlayRecord,
    size: Size,
    number: usize,
    mover: Colour,
    node: &SgfNode,
) -> Result<Colour, ProblemFault>
    requires { played.old.size ≡ size }
    ensures { let c = assigned size node.now (walk_of played.old mover).present in WalksTo
        (set_to number node.now c (walk_of played.old mover) (has_no_liberty size c)) size
        played.new result }
{
    let after = assigned(size, node, &played.colouring());
    match played.set_up(&after) {
        Ok(()) => Ok(player_at(node).unwrap_or(mover)),
        Err(fault) => Err(setup_fault(number, fault)),
    }
}

/// Does what the node with this number says. Returns the colour to move afterwards.
pub(crate) fn change(
    played: &mut PlayRecord,
    size: Size,
    number: usize,
    mover: Colour,
    node: &SgfNode,
) -> Result<Colour, ProblemFault>
    requires { played.old.size ≡ size }
    ensures { WalksTo (changed size number node.now (walk_of played.old mover)) size played.new
        result }
{
    if let Some((colour, turn)) = turn_at(size, node) {
        return play(played, size, number, mover, colour, turn);
    }
    if has_setup(node) {
        return set_up(played, size, number, mover, node);
    }
    Ok(player_at(node).unwrap_or(mover))
}
