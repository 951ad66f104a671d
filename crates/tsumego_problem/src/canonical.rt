//! The canonical record of a problem.

ghost use Rattle.std.specs.Prelude.{◌≡◌, ◌++◌, ◌∷◌, ◌<◌, [], IfOk, OnOk, codes, map, length};
ghost use Rattle.std.specs.List.{All, list_all};
ghost use Rattle.go_points.specs.Grid.{points, side_of};
ghost use Rattle.go_points.specs.Place.{IsOn, number_of};
ghost use Rattle.go_points.specs.Ply.{ply_of};
ghost use Rattle.go_points.specs.declared.Turn.TheVariants.{At};
ghost use Rattle.target_game.specs.Legal.{holds_point};
ghost use Rattle.tsumego_problem.specs.Canonical.{canonical, past_nodes, history_nodes, present_nodes, pass_nodes, marks, turn_node, turn_value, colour_name, verdict_text, point_values, property};

use crate::setup_nodes::{changes_node, node_of, point_value, push_one, push_property, root_node};
use go_points::{Colour, Colouring, Point, PointSet, Size, Turn, to_sgf};
use sgf_text::{Bytes, Property, SgfNode, Tree};
use std::alloc::{AllocError, Global};
use target_game::Problem;

/// The nodes for these colourings: the root for the first, and for each later one what changes to it.
fn history_nodes(
    alloc: Global,
    size: Size,
    history: &[Colouring],
) -> Result<Vec<SgfNode>, AllocError>
    requires some { 0 < length history.now }
    requires sides { All (λ c. side_of c ≡ size) history.now }
    ensures { IfOk result (λ nodes. nodes.items ≡ history_nodes size history.now) }
{
    let mut nodes = Vec::new(alloc);
    nodes.push(root_node(alloc, size, &history[0])?)?;
    for place in 1..history.len() {
        let node = changes_node(alloc, size, &history[place - 1], &history[place])?;
        nodes.push(node)?;
    }
    Ok(nodes)
}

/// Appends one more node if the present colouring is not the last.
fn push_present(
    alloc: Global,
    problem: &Problem,
    nodes: &mut Vec<SgfNode>,
) -> Result<(), AllocError>
    ensures { OnOk result (nodes.new.items ≡ nodes.old.items ++ present_nodes problem.now) }
{
    let history = problem.history();
    let place = problem.place();
    let last = history.len() - 1;
    if place != last {
        let node = changes_node(alloc, problem.size(), &history[last], &history[place])?;
        nodes.push(node)?;
    }
    Ok(())
}

/// The name of the property for a turn of this side, which also names this side in PL.
fn colour_name(colour: Colour) -> &'static [u8]
    ensures { result.now ≡ colour_name colour }
{
    match colour {
        Colour::Black => b"B",
        Colour::White => b"W",
    }
}

/// The two letters of a point. A point that the board does not have gets the letters of the first point below the board.
fn letters_on(size: Size, point: Point) -> [u8; 2]
    ensures { result ≡ turn_value size (ply_of size (At point)) }
{
    let rows = size.rows();
    if size.holds(point) {
        to_sgf(point)
    } else {
        [b'a', b'a' + rows]
    }
}

/// The value of a turn: two letters, or nothing for a pass. A point that the board does not have is written as the first point
/// below the board.
fn turn_value(alloc: Global, size: Size, turn: Turn) -> Result<Vec<u8>, AllocError>
    ensures { IfOk result (λ value. value.items ≡ turn_value size (ply_of size turn)) }
{
    match turn {
        Turn::Pass => Ok(Vec::new(alloc)),
        Turn::At(point) => letters_on(size, point).as_slice().to_vec(alloc),
    }
}

/// The node of a turn: B or W, for the side that makes it, with the two letters of the point, or nothing for a pass (SGF FF[4], Go,
/// "Move"). A point that the board does not have is written as the first point below the board.
pub fn turn_node(
    alloc: Global,
    size: Size,
    colour: Colour,
    turn: Turn,
) -> Result<SgfNode, AllocError>
    ensures { IfOk result (λ node. node ≡ turn_node size colour (ply_of size turn)) }
{
    let value = turn_value(alloc, size, turn)?;
    let mut properties = Vec::new(alloc);
    push_one(
        alloc,
        &mut properties,
        colour_name(colour),
        value.as_slice(),
    )?;
    Ok(node_of(properties))
}

/// Appends the pass of the mover's opponent, if that is the last turn.
fn push_pass(alloc: Global, problem: &Problem, nodes: &mut Vec<SgfNode>) -> Result<(), AllocError>
    ensures { OnOk result (nodes.new.items ≡ nodes.old.items ++ pass_nodes problem.now) }
{
    if problem.passes() == 1 {
        let opponent = problem.mover().opponent();
        nodes.push(turn_node(alloc, problem.size(), opponent, Turn::Pass)?)?;
    }
    Ok(())
}

/// The nodes before the problem node of the canonical record: the root with FF, GM, SZ and the first colouring, a setup node for
/// each later colouring and for the present one if it is not the last, and the pass of the mover's opponent if that is the last
/// turn.
pub fn past_nodes(alloc: Global, problem: &Problem) -> Result<Vec<SgfNode>, AllocError>
    ensures { IfOk result (λ nodes. nodes.items ≡ past_nodes problem.now) }
{
    let mut nodes = history_nodes(alloc, problem.size(), problem.history())?;
    push_present(alloc, problem, &mut nodes)?;
    push_pass(alloc, problem, &mut nodes)?;
    Ok(nodes)
}

/// The letters of the points of a set.
fn point_values(alloc: Global, size: Size, set: &PointSet) -> Result<Vec<Bytes>, AllocError>
    requires { All (IsOn size) set.now }
    ensures { IfOk result
        (λ values. values.items ≡ point_values size (map (number_of size) set.now)) }
{
    let mut values = Vec::new(alloc);
    for point in set.iter() {
        values.push(point_value(alloc, point)?)?;
    }
    Ok(values)
}

/// Whether these are all points of the board.
fn are_all(size: Size, set: &PointSet) -> bool
    requires { All (IsOn size) set.now }
    ensures { result ≡ list_all (holds_point (map (number_of size) set.now)) (points size) }
{
    for number in 0..size.area() {
        if !set.has(size.point_at(number)) {
            return false;
        }
    }
    true
}

/// The properties of the problem node: PL, TR, and SQ if the region is not the whole board.
fn mark_properties(alloc: Global, problem: &Problem) -> Result<Vec<Property>, AllocError>
    ensures { IfOk result (λ properties. properties.items ≡ marks problem.now) }
{
    let size = problem.size();
    let region = problem.region();
    let mut properties = Vec::new(alloc);
    push_one(alloc, &mut properties, b"PL", colour_name(problem.mover()))?;
    let targets = point_values(alloc, size, problem.targets())?;
    push_property(alloc, &mut properties, b"TR", targets)?;
    if !are_all(size, region) {
        let region = point_values(alloc, size, region)?;
        push_property(alloc, &mut properties, b"SQ", region)?;
    }
    Ok(properties)
}

/// The problem node of the canonical record: PL, TR with the targets, and SQ with the region if it is not the whole board.
pub fn marks_node(alloc: Global, problem: &Problem) -> Result<SgfNode, AllocError>
    ensures { IfOk result (λ node. node ≡ marks problem.now) }
{
    Ok(node_of(mark_properties(alloc, problem)?))
}

/// What a solution record says of the winner.
fn verdict_text(winner: Colour) -> &'static [u8]
    ensures { result.now ≡ verdict_text winner }
{
    match winner {
        Colour::Black => b"Black wins",
        Colour::White => b"White wins",
    }
}

/// The problem node with the winner as a comment, which a solution record has.
pub fn marks_with_winner(
    alloc: Global,
    problem: &Problem,
    winner: Colour,
) -> Result<SgfNode, AllocError>
    ensures { IfOk result
        (λ node. node ≡ marks problem.now ++ property (codes "C") (verdict_text winner ∷ [])) }
{
    let mut properties = mark_properties(alloc, problem)?;
    push_one(alloc, &mut properties, b"C", verdict_text(winner))?;
    Ok(node_of(properties))
}

/// The canonical record of the problem: one sequence of nodes, with SGF FF[4] properties in this project's own order. It has the
/// root with FF, GM, SZ and the first colouring as AB and AW; for each later colouring a node with AB, AW and AE of the points that
/// change; one more if the present colouring is not the last; the pass of the mover's opponent if that is the last turn; and the
/// problem node with PL, TR and SQ, where SQ is left out if the region is the whole board. Points ascend, row by row. It fails only
/// if memory is refused.
pub fn problem_tree(alloc: Global, problem: &Problem) -> Result<Tree, AllocError>
    ensures { IfOk result (λ tree. tree ≡ canonical problem.now) }
{
    let mut nodes = past_nodes(alloc, problem)?;
    nodes.push(marks_node(alloc, problem)?)?;
    match Tree::new(nodes, Vec::new(alloc)) {
        Some(tree) => Ok(tree),
        None => unreachable!(),
    }
}
