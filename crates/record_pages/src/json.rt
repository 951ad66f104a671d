//! The data of a page to click, as JSON. docs/FORMATS.md describes the format.

ghost use Rattle.std.specs.Prelude.{◌≡◌, ◌++◌, IfOk, OnOk, string_bytes};
ghost use Rattle.record_pages.specs.Puzzle.{answer_text, side_text, winner_field, SaysAnswer};

use crate::json_notes::{push_labels, push_note, push_note_after_comma};
use crate::json_text::push_string;
use crate::lines::Cut;
use crate::page::{NoPage, is_of_problem, marked_node};
use crate::puzzle::{Answer, Branch, Puzzle, Worth, puzzle_of, worth_of};
use crate::returning::may_return;
use crate::titles::add_comment;
use crate::variations::is_right_turn;
use go_points::{Cell, Colour, Colouring, Point, PointSet, Size, Turn, sgf_point, to_sgf};
use sgf_text::{SgfNode, Tree};
use std::alloc::{AllocError, Global};
use target_game::Problem;
use tsumego_problem::{first_marked, turn_at, values_at};

/// The data of the record: its problem, who wins it, and each line, cut as `cut` says. Titles and comments are those of another
/// record with the same problem, if there is one. The last byte is a line feed.
///
/// What the audit refuses is refused, unless `shows_unaudited`: then it is shown as it is written, and said not to be audited.
pub fn page_json(
    alloc: Global,
    tree: &Tree,
    original: Option<&Tree>,
    cut: Cut,
    shows_unaudited: bool,
) -> Result<String, NoPage>
    ensures { IfOk result (λ text. SaysAnswer tree.now (string_bytes text)) }
{
    let puzzle = puzzle_of(alloc, tree, cut, shows_unaudited)?;
    if !is_of_problem(alloc, &puzzle.problem, original)? {
        return Err(NoPage::OtherProblem);
    }
    let mut text = String::new(alloc);
    push_problem(alloc, &mut text, &puzzle.problem)?;
    push_titles(alloc, &mut text, tree, original)?;
    let turns = turns_text(alloc, &puzzle, tree)?;
    push_winner(&mut text, puzzle.answer)?;
    text.push_str(turns.as_str())?;
    Ok(text)
}

fn side(colour: Colour) -> &'static str
    ensures { result.now ≡ side_text colour }
{
    match colour {
        Colour::Black => "black",
        Colour::White => "white",
    }
}

/// Begins the object with the parts of the problem.
fn push_problem(alloc: Global, text: &mut String, problem: &Problem) -> Result<(), AllocError> {
    let size = problem.size();
    let rows = size.rows();
    let mover = side(problem.mover());
    let passes = problem.passes();
    write!(
        text,
        "{{\"size\":{rows},\"mover\":\"{mover}\",\"passes\":{passes},\"rows\":"
    )?;
    push_board(text, problem.colouring())?;
    text.push_str(",\"targets\":")?;
    push_set(text, size, problem.targets())?;
    text.push_str(",\"region\":")?;
    push_set(text, size, problem.region())?;
    text.push_str(",\"past\":[")?;
    let past = may_return(alloc, problem)?;
    for i in 0..past.len() {
        if i > 0 {
            text.push(',')?;
        }
        push_board(text, &past[i])?;
    }
    text.push(']')
}

/// Appends a board, as a list of its rows.
fn push_board(text: &mut String, board: &Colouring) -> Result<(), AllocError> {
    let size = board.size();
    text.push('[')?;
    for number in 0..size.area() {
        let point = size.point_at(number);
        if point.col() == 0 {
            text.push_str(if number == 0 { "\"" } else { "\",\"" })?;
        }
        text.push(match board.cell(number) {
            Cell::Empty => '.',
            Cell::Stone(Colour::Black) => 'X',
            Cell::Stone(Colour::White) => 'O',
        })?;
    }
    text.push_str("\"]")
}

/// Appends the points of a set, as a list.
fn push_set(text: &mut String, size: Size, set: &PointSet) -> Result<(), AllocError> {
    text.push('[')?;
    let mut is_first = true;
    for number in 0..size.area() {
        let point = size.point_at(number);
        if set.has(point) {
            if !is_first {
                text.push(',')?;
            }
            is_first = false;
            text.push('"')?;
            push_point(text, point)?;
            text.push('"')?;
        }
    }
    text.push(']')
}

/// Appends the two letters of a point.
fn push_point(text: &mut String, point: Point) -> Result<(), AllocError> {
    for letter in to_sgf(point) {
        text.push(char::from(letter))?;
    }
    Ok(())
}

/// Appends the titles, comments and labels.
fn push_titles(
    alloc: Global,
    text: &mut String,
    record: &Tree,
    original: Option<&Tree>,
) -> Result<(), AllocError> {
    let root = match original {
        Some(other) => &other.nodes()[0],
        None => &record.nodes()[0],
    };
    for (name, key) in [
        (b"CA".as_slice(), "charset"),
        (b"GN".as_slice(), "name"),
        (b"EV".as_slice(), "event"),
        (b"SO".as_slice(), "source"),
    ] {
        if let Some(value) = values_at(name, root).first() {
            push_text(alloc, text, key, value.as_slice())?;
        }
    }
    match original {
        Some(other) => push_comments(alloc, text, other),
        None => Ok(()),
    }
}

/// Appends a key and its text.
fn push_text(alloc: Global, text: &mut String, key: &str, value: &[u8]) -> Result<(), AllocError> {
    write!(text, ",\"{key}\":")?;
    push_string(alloc, text, value)
}

/// Appends the comments of the root and of the problem node, and the labels of that node.
fn push_comments(alloc: Global, text: &mut String, other: &Tree) -> Result<(), AllocError> {
    let mut comment = Vec::new(alloc);
    if first_marked(other.nodes()) != Some(0) {
        add_comment(&other.nodes()[0], &mut comment)?;
    }
    let Some(node) = marked_node(other) else {
        return Ok(());
    };
    add_comment(node, &mut comment)?;
    if !comment.is_empty() {
        push_text(alloc, text, "comment", comment.as_slice())?;
    }
    push_labels(alloc, text, node)
}

/// Appends who wins, if the record says so as a whole.
fn push_winner(text: &mut String, answer: Answer) -> Result<(), AllocError>
    ensures { OnOk result (string_bytes text.new ≡ string_bytes text.old ++ answer_text answer) }
{
    match answer {
        Answer::Audited(winner) => push_side(text, winner),
        Answer::Unaudited(winner) => {
            push_side(text, winner)?;
            text.push_str(",\"unaudited\":true")
        }
        Answer::Judged => Ok(()),
    }
}

/// The turns, after a note of what nobody has audited, and the end of the object.
fn turns_text(alloc: Global, puzzle: &Puzzle, record: &Tree) -> Result<String, AllocError> {
    let mut text = String::new(alloc);
    if let Answer::Unaudited(_) = puzzle.answer
        && let Some(node) = marked_node(record)
    {
        text.push_str(",\"note\":")?;
        push_note(alloc, &mut text, node, false)?;
    }
    text.push_str(",\"turns\":[")?;
    let size = puzzle.problem.size();
    let judged = match puzzle.answer {
        Answer::Judged => Some(puzzle.problem.mover()),
        _ => None,
    };
    for i in 0..puzzle.branches.len() {
        if i > 0 {
            text.push(',')?;
        }
        push_branch(alloc, &mut text, size, &puzzle.branches[i], judged)?;
    }
    text.push_str("]}\n")?;
    Ok(text)
}

fn push_side(text: &mut String, winner: Colour) -> Result<(), AllocError>
    ensures { OnOk result (string_bytes text.new ≡ string_bytes text.old ++ winner_field winner) }
{
    let name = side(winner);
    write!(text, ",\"winner\":\"{name}\"")
}

/// Appends the turns that follow one another, and what follows them. `judged` is the side whose turns are said to be right or wrong.
fn push_branch(
    alloc: Global,
    text: &mut String,
    size: Size,
    branch: &Branch,
    judged: Option<Colour>,
) -> Result<(), AllocError> {
    let nodes = branch.lines.nodes.as_slice();
    let has_notes = !branch.is_audited;
    open_turns(alloc, text, size, nodes, judged.is_some(), has_notes)?;
    let right = right_side(nodes, judged);
    let children = branch.lines.children.as_slice();
    for i in 0..children.len() {
        if i > 0 || !nodes.is_empty() {
            text.push(',')?;
        }
        let child = &children[i];
        push_tree(
            alloc,
            text,
            size,
            child,
            right,
            i > 0 && is_also_right(size, right, child),
            has_notes,
        )?;
    }
    close_turns(text, nodes.len())
}

/// The side that is judged, if it wins by the first of the turns: then other turns of it may be right too.
fn right_side(nodes: &[SgfNode], judged: Option<Colour>) -> Option<Colour> {
    match worth_of(nodes.first()?) {
        Some(Worth::Wins) => judged,
        _ => None,
    }
}

/// Whether the tree begins with a turn of this side that is said to be right.
fn is_also_right(size: Size, right: Option<Colour>, tree: &Tree) -> bool {
    match right {
        Some(side) => is_right_turn(size, side, tree),
        None => false,
    }
}

/// Appends the tree, and what its first turn is worth if that is judged. Turns of `right` beside the first child of a node may be
/// right too. It recurses as deep as trees are nested.
fn push_tree(
    alloc: Global,
    text: &mut String,
    size: Size,
    tree: &Tree,
    right: Option<Colour>,
    is_judged: bool,
    has_notes: bool,
) -> Result<(), AllocError> {
    open_turns(alloc, text, size, tree.nodes(), is_judged, has_notes)?;
    let mut is_first = true;
    for child in tree.children() {
        text.push(',')?;
        let is_variation = !is_first && is_also_right(size, right, child);
        push_tree(alloc, text, size, child, right, is_variation, has_notes)?;
        is_first = false;
    }
    close_turns(text, tree.nodes().len())
}

/// Begins the lists of these turns, each within the one before. The first may say what it is worth. With notes, each has what its
/// node says, and what follows a turn that is judged is said not to be audited.
fn open_turns(
    alloc: Global,
    text: &mut String,
    size: Size,
    nodes: &[SgfNode],
    is_judged: bool,
    has_notes: bool,
) -> Result<(), AllocError> {
    for i in 0..nodes.len() {
        text.push_str(if i == 0 { "[\"" } else { ",[\"" })?;
        push_turn(text, size, &nodes[i])?;
        text.push('"')?;
        if i == 0 && is_judged {
            push_worth(text, worth_of(&nodes[i]))?;
        }
        if has_notes {
            push_note_after_comma(alloc, text, &nodes[i], i == 0 && is_judged)?;
        }
    }
    Ok(())
}

fn push_turn(text: &mut String, size: Size, node: &SgfNode) -> Result<(), AllocError> {
    match turn_at(size, node) {
        Some(played) => push_place(text, played.1),
        None => text.push_str("pass"),
    }
}

fn push_place(text: &mut String, turn: Turn) -> Result<(), AllocError> {
    match turn {
        Turn::At(point) => push_point(text, point),
        Turn::Pass => text.push_str("pass"),
    }
}

fn push_worth(text: &mut String, worth: Option<Worth>) -> Result<(), AllocError> {
    text.push_str(match worth {
        Some(Worth::Wins) => ",\"wins\"",
        Some(Worth::Loses) => ",\"loses\"",
        _ => ",\"unknown\"",
    })
}

/// Ends this many lists.
fn close_turns(text: &mut String, count: usize) -> Result<(), AllocError> {
    for _ in 0..count {
        text.push(']')?;
    }
    Ok(())
}
