//! What a picture shows of a record.

ghost use Rattle.std.specs.Prelude.{◌<◌, length};

use crate::names::push_name;
use go_chains::ChainBoard;
use go_points::{Cell, Colour, Colouring, Point, PointSet, Size, Turn, sgf_point};
use sgf_text::{SgfNode, Tree};
use std::alloc::{AllocError, Global};
use tool_parts::{colour_name, push_nodes, text_of};
use tsumego_problem::{
    ProblemFault, assigned, board_size, points_at, problem_node, read_problem, turn_at, values_at,
};

/// What a picture shows.
#[derive(Clone, Copy, Debug, PartialEq, Eq)]
pub struct View {
    /// The number of a node of the main line; by default the problem node.
    pub node: Option<usize>,
    /// How many of the turns after that node are shown too, numbered from 1.
    pub numbers: usize,
    /// Which marks are shown.
    pub marks: Shown,
}

/// Which marks a picture shows.
#[derive(Clone, Copy, Debug, PartialEq, Eq)]
pub enum Shown {
    All,
    /// All but the squares of the region.
    NoSquares,
    /// No marks and no labels.
    Nothing,
}

/// Why there is no picture.
#[derive(Clone, Copy, Debug, PartialEq, Eq)]
pub enum NoPicture {
    /// The board is not square, or too large; or there is no problem, if the caption has to say what is asked.
    NoProblem(ProblemFault),
    /// No node of the main line is marked.
    NoProblemNode,
    /// The main line has no such node.
    OffTheLine,
    Memory,
}

impl From<AllocError> for NoPicture {
    fn from(_: AllocError) -> NoPicture {
        NoPicture::Memory
    }
}

/// A short text at a point.
#[derive(Drop)]
pub struct Label {
    pub point: Point,
    pub text: String,
}

/// A board with its marks.
#[derive(Drop)]
pub struct Drawing {
    pub size: Size,
    pub stones: Colouring,
    pub triangles: PointSet,
    pub squares: PointSet,
    pub circles: PointSet,
    pub crosses: PointSet,
    pub labels: Vec<Label>,
    /// What is said below the board.
    pub caption: String,
    /// The numbered turns that have no stone of their own: a second move at a point, and passes.
    pub told: Vec<String>,
}

/// The drawing of a record: the board at the node of the view, made by the setups and the moves of the main line up to it. A move
/// that the rules refuse still puts its stone down.
///
/// The caption `auto` says what the problem asks.
pub fn drawing_of(
    alloc: Global,
    tree: &Tree,
    view: View,
    caption: &str,
) -> Result<Drawing, NoPicture> {
    let Some(size) = board_size(&tree.nodes()[0]) else {
        return Err(NoPicture::NoProblem(ProblemFault::Size));
    };
    let place = match view.node {
        Some(place) => place,
        None => match problem_node(tree) {
            Some(place) => place,
            None => return Err(NoPicture::NoProblemNode),
        },
    };
    let line = main_line(alloc, tree)?;
    if place >= line.len() {
        return Err(NoPicture::OffTheLine);
    }
    let mut drawing = drawn(alloc, size, line.as_slice(), place, view)?;
    drawing.caption = if caption == "auto" {
        task_of(alloc, tree)?
    } else {
        format!(in alloc; "{caption}")?
    };
    Ok(drawing)
}

/// Who is to move, and what is asked.
fn task_of(alloc: Global, tree: &Tree) -> Result<String, NoPicture> {
    let problem = match read_problem(alloc, tree) {
        Ok(problem) => problem,
        Err(ProblemFault::Memory) => return Err(NoPicture::Memory),
        Err(fault) => return Err(NoPicture::NoProblem(fault)),
    };
    let side = colour_name(problem.mover());
    let verb = if problem.mover() == problem.defender() {
        "save"
    } else {
        "capture"
    };
    Ok(format!(in alloc; "{side} to move. Can it {verb} the marked stones?")?)
}

/// The nodes of the main line, the first child tree at each branching.
fn main_line(alloc: Global, tree: &Tree) -> Result<Vec<SgfNode>, AllocError> {
    let mut line = Vec::new(alloc);
    let mut part = tree;
    loop {
        push_nodes(alloc, part.nodes(), &mut line)?;
        let Some(child) = part.children().first() else {
            return Ok(line);
        };
        part = child;
    }
}

/// The drawing of the node at this place.
fn drawn(
    alloc: Global,
    size: Size,
    line: &[SgfNode],
    place: usize,
    view: View,
) -> Result<Drawing, AllocError>
    requires { place < length line.now }
{
    let mut stones = Colouring::empty(size);
    for i in 0..place + 1 {
        stones = after_node(&stones, &line[i]);
    }
    let node = &line[place];
    let mut labels = Vec::new(alloc);
    if view.marks != Shown::Nothing {
        push_labels(alloc, size, node, &mut labels)?;
    }
    let later = &line[place + 1..];
    let mut told = Vec::new(alloc);
    let stones = numbered(alloc, &stones, later, view.numbers, &mut labels, &mut told)?;
    Ok(Drawing {
        size,
        stones,
        triangles: marked(size, b"TR", node, view),
        squares: marked(size, b"SQ", node, view),
        circles: marked(size, b"CR", node, view),
        crosses: marked(size, b"MA", node, view),
        labels,
        caption: String::new(alloc),
        told,
    })
}

/// The points with this mark.
fn marked(size: Size, name: &[u8], node: &SgfNode, view: View) -> PointSet {
    match view.marks {
        Shown::Nothing => PointSet::new(),
        Shown::NoSquares if name == b"SQ".as_slice() => PointSet::new(),
        _ => points_at(size, name, node),
    }
}

/// The stones after the node's setup and its move.
fn after_node(stones: &Colouring, node: &SgfNode) -> Colouring {
    let size = stones.size();
    let set = assigned(size, node, stones);
    match turn_at(size, node) {
        Some(played) => after_turn(&set, played.0, played.1),
        None => set,
    }
}

/// The stones after a turn.
fn after_turn(stones: &Colouring, colour: Colour, turn: Turn) -> Colouring {
    match turn {
        Turn::Pass => *stones,
        Turn::At(point) => after_move(stones, colour, point),
    }
}

/// The stones after a move. If the rules refuse it, its stone is only put down.
fn after_move(stones: &Colouring, colour: Colour, point: Point) -> Colouring {
    if let Ok(board) = ChainBoard::from_colouring(stones) {
        let mut board = board;
        if board.size().holds(point) && board.play(colour, point).is_ok() {
            return board.colouring();
        }
    }
    with_stone(stones, colour, point)
}

/// The stones with one more.
fn with_stone(stones: &Colouring, colour: Colour, point: Point) -> Colouring {
    let mut more = *stones;
    if more.size().holds(point) {
        more.set(point, Cell::Stone(colour));
    }
    more
}

/// What the point holds; `Empty` if the board does not have it.
pub(crate) fn cell_at(stones: &Colouring, point: Point) -> Cell {
    if stones.size().holds(point) {
        stones.get(point)
    } else {
        Cell::Empty
    }
}

/// The stones with those of the first `numbers` turns, each with its number, as in printed diagrams: captured stones stay where
/// they are, and a second move at a point is described in the text below, as passes are.
fn numbered(
    alloc: Global,
    stones: &Colouring,
    nodes: &[SgfNode],
    count: usize,
    labels: &mut Vec<Label>,
    told: &mut Vec<String>,
) -> Result<Colouring, AllocError> {
    let size = stones.size();
    let mut more = *stones;
    for i in 0..count.min(nodes.len()) {
        if let Some(played) = turn_at(size, &nodes[i]) {
            let number = i.saturating_add(1);
            more = with_number(alloc, &more, number, played.0, played.1, labels, told)?;
        }
    }
    Ok(more)
}

/// Adds the stone of the turn with this number, with a label, or describes the turn in the text below.
fn with_number(
    alloc: Global,
    stones: &Colouring,
    number: usize,
    colour: Colour,
    turn: Turn,
    labels: &mut Vec<Label>,
    told: &mut Vec<String>,
) -> Result<Colouring, AllocError> {
    let Turn::At(point) = turn else {
        told.push(format!(in alloc; "{number} passes")?)?;
        return Ok(*stones);
    };
    if cell_at(stones, point) != Cell::Empty {
        let mut text = format!(in alloc; "{number} at ")?;
        push_name(&mut text, stones.size(), point)?;
        told.push(text)?;
        return Ok(*stones);
    }
    let text = format!(in alloc; "{number}")?;
    labels.push(Label { point, text })?;
    Ok(with_stone(stones, colour, point))
}

/// Appends the labels of the node (SGF FF[4], LB).
fn push_labels(
    alloc: Global,
    size: Size,
    node: &SgfNode,
    into: &mut Vec<Label>,
) -> Result<(), AllocError> {
    for value in values_at(b"LB", node) {
        if let [column, row, b':', rest @ ..] = value.as_slice() {
            if let Some(point) = sgf_point(size, &[*column, *row]) {
                let text = text_of(alloc, rest)?;
                into.push(Label { point, text })?;
            }
        }
    }
    Ok(())
}
