//! What is found, as one record: the position, and for each side to move first the solution of the largest size that was decided,
//! with the stones that were placed.

use crate::answer_record::first_move_branch;
use crate::group::Group;
use crate::lines::push_end;
use crate::past::without_past;
use crate::question_lines::walls_text;
use crate::table::{Row, Table};
use crate::variation::{Question, alone, node_with, solved, tree_with};
use go_points::{Colour, PointSet, Turn, to_sgf as letters_of};
use group_words::{Finding, Side};
use proved_groups::FirstMoves;
use run_parts::MAX_TURNS;
use sgf_text::{Bytes, Property, SgfNode, Tree, Values};
use std::alloc::{AllocError, Global};
use target_game::Problem;
use tool_parts::{copy_properties, single};
use tsumego_problem::{past_nodes, turn_node};

/// What is found if one side moves first.
#[derive(Clone, Copy, Debug)]
pub(crate) struct Told {
    pub(crate) first: Side,
    pub(crate) finding: Finding,
}

/// The nodes of the position, the last of which has these marks and a comment.
pub(crate) fn shown_nodes(
    alloc: Global,
    before: &Problem,
    marks: &Marks,
    lines: &str,
) -> Result<Vec<SgfNode>, AllocError> {
    let mut nodes = past_nodes(alloc, before)?;
    let Some(last) = nodes.pop() else {
        return Err(AllocError);
    };
    let marked = marked_node(alloc, &last, marks)?;
    let mut properties = copy_properties(alloc, marked.as_slice())?;
    properties.push(single(alloc, b"C", without_line_end(lines.as_bytes()))?)?;
    nodes.push(node_with(properties)?)?;
    Ok(nodes)
}

/// The record of what is found, with these lines as the comment of its position.
pub(crate) fn solutions(
    alloc: Global,
    group: &Group,
    table: &Table,
    told: &[Told],
    first_moves: &FirstMoves,
    lines: &str,
) -> Result<Tree, AllocError> {
    let before = shown_past(alloc, group, table)?;
    let marks = Marks::of(group.position.stones(group.target), PointSet::new());
    let nodes = shown_nodes(alloc, &before, &marks, lines)?;
    let mut left = MAX_TURNS;
    let mut branches = Vec::new(alloc);
    for one in told {
        if first_moves
            .outright(one.first.colour(group.defender))
            .is_none()
        {
            branches.push(branch(alloc, group, table, &before, *one, &mut left)?)?;
        }
    }
    // What is proved comes last, so that the main line is a solution, which can be audited.
    for one in told {
        if let Some(proven) = first_moves.outright(one.first.colour(group.defender)) {
            branches.push(first_move_branch(alloc, group, proven)?)?;
        }
    }
    tree_with(nodes, branches)
}

/// The position in the record: with the group's past if that bars a turn, and otherwise alone.
fn shown_past(alloc: Global, group: &Group, table: &Table) -> Result<Problem, AllocError> {
    if table.rows.iter().any(|row| row.without_past.is_some()) {
        return group.problem.copy(alloc);
    }
    match without_past(alloc, &group.problem)? {
        Some(alone) => Ok(alone),
        None => group.problem.copy(alloc),
    }
}

/// The text without its last line end.
fn without_line_end(text: &[u8]) -> &[u8] {
    if text.is_empty() {
        return text;
    }
    &text[..text.len() - 1]
}

/// Marks on a board (SGF FF[4], "Markup properties").
#[derive(Clone, Copy)]
pub(crate) struct Marks {
    pub(crate) circles: PointSet,
    pub(crate) crosses: PointSet,
    /// Stones with the label `u`, and with the label `?`.
    pub(crate) unsettled: PointSet,
    pub(crate) open: PointSet,
}

impl Marks {
    /// Circles and crosses alone.
    pub(crate) fn of(circles: PointSet, crosses: PointSet) -> Marks {
        Marks {
            circles,
            crosses,
            unsettled: PointSet::new(),
            open: PointSet::new(),
        }
    }
}

/// The node with these marks as well.
pub(crate) fn marked_node(
    alloc: Global,
    node: &SgfNode,
    marks: &Marks,
) -> Result<SgfNode, AllocError> {
    let mut properties = copy_properties(alloc, node.as_slice())?;
    push_marks(alloc, b"CR", &marks.circles, &mut properties)?;
    push_marks(alloc, b"MA", &marks.crosses, &mut properties)?;
    let mut labels = Vec::new(alloc);
    push_labelled(alloc, &marks.unsettled, b":u", &mut labels)?;
    push_labelled(alloc, &marks.open, b":?", &mut labels)?;
    if !labels.is_empty() {
        properties.push(property(alloc, b"LB", labels)?)?;
    }
    node_with(properties)
}

/// Appends a mark of this name on each of the points, if there are any.
fn push_marks(
    alloc: Global,
    name: &[u8],
    set: &PointSet,
    properties: &mut Vec<Property>,
) -> Result<(), AllocError> {
    if set.is_empty() {
        return Ok(());
    }
    let mut values = Vec::new(alloc);
    push_labelled(alloc, set, b"", &mut values)?;
    properties.push(property(alloc, name, values)?)?;
    Ok(())
}

/// Appends the letters of each of the points, with this behind them.
fn push_labelled(
    alloc: Global,
    set: &PointSet,
    behind: &[u8],
    values: &mut Vec<Bytes>,
) -> Result<(), AllocError> {
    for point in set.iter() {
        let letters = letters_of(point);
        let mut text = letters.as_slice().to_vec(alloc)?;
        text.extend_from_slice(behind)?;
        values.push(Bytes::from_vec(text))?;
    }
    Ok(())
}

/// The property of this name with these values.
fn property(alloc: Global, name: &[u8], values: Vec<Bytes>) -> Result<Property, AllocError> {
    Ok(Property {
        ident: Bytes::from_vec(name.to_vec(alloc)?),
        values: Values::from_vec(values),
    })
}

/// The variation of a side that moves first: what is supposed, and the solution.
fn branch(
    alloc: Global,
    group: &Group,
    table: &Table,
    before: &Problem,
    told: Told,
    left: &mut usize,
) -> Result<Tree, AllocError> {
    let row = shown_row(group, table, told);
    let said = said_text(alloc, group, table, told, row)?;
    if let Some(row) = row {
        if let Some(problem) = problem_of(alloc, table, before, row)? {
            let question = Question {
                before,
                problem: &problem,
                budget: table.budget,
                said: said.as_str(),
            };
            return solved(alloc, &question, left);
        }
    }
    alone(alloc, said.as_str())
}

/// The row of the largest size whose winner is the one that was found; if there are several, the one that was asked first.
fn shown_row<'a>(group: &Group, table: &'a Table, told: Told) -> Option<&'a Row> {
    let mut largest: usize = 0;
    let mut found = None;
    for row in table.rows.as_slice() {
        if row.first == told.first
            && row.count > largest
            && told.finding.winner.is_some()
            && table.winner_at(row.place, group.defender) == told.finding.winner
        {
            largest = row.count;
            found = Some(row);
        }
    }
    found
}

/// What is found, which question the solution belongs to, and what is supposed there.
fn said_text(
    alloc: Global,
    group: &Group,
    table: &Table,
    told: Told,
    row: Option<&Row>,
) -> Result<String, AllocError> {
    let mut text = String::new(alloc);
    push_end(&mut text, group, table, told.first, &told.finding)?;
    if let Some(row) = row {
        let count = row.count;
        let name = row.walls.name();
        let supposed = walls_text(row.walls);
        write!(text, "\n{count} points, {name}: {supposed}")?;
    }
    Ok(text)
}

/// The problem of the row after the position that is shown. `None` if there is no such problem.
fn problem_of(
    alloc: Global,
    table: &Table,
    before: &Problem,
    row: &Row,
) -> Result<Option<Problem>, AllocError> {
    let Some(place) = row.place else {
        return Ok(None);
    };
    let Some(asked) = table.asked.get(place) else {
        return Ok(None);
    };
    let mut history = before.history().to_vec(alloc)?;
    let mut place = before.place();
    if *before.colouring() != *asked.problem.colouring() {
        place = history.len();
        history.push(*asked.problem.colouring())?;
    }
    let targets = *asked.problem.targets();
    let region = *asked.problem.region();
    match Problem::new(history, place, asked.problem.mover(), 0, targets, region) {
        Ok(problem) => Ok(Some(problem)),
        Err(_) => Ok(None),
    }
}
