//! Boards from their rows, and what is found of a stone.

use go_points::{Colour, Colouring, Point, Size};
use group_search::{Finding, GroupSearch, Limits, find_for_stone};
use std::alloc::{AllocError, Global};
use std::process::Abort;

/// The number of rows of all boards here.
const ROWS: u8 = 9;

/// The board whose first rows are these, which are empty from their ends on; no rows come after them.
pub(crate) fn board(
    rt: &impl Abort,
    alloc: Global,
    rows: &[&str],
) -> Result<Colouring, AllocError> {
    let size = Size::new(ROWS).expect(rt, "a size");
    let mut cells = Vec::new(alloc);
    for row in 0..ROWS as usize {
        let given = rows.get(row).copied().unwrap_or("").as_bytes();
        for column in 0..ROWS as usize {
            cells.push(given.get(column).copied().unwrap_or(b'.'))?;
        }
    }
    Ok(Colouring::from_text(size, cells.as_slice()).expect(rt, "a colouring"))
}

/// The point in this column and row, both from 0.
pub(crate) fn point(rt: &impl Abort, column: u8, row: u8) -> Point {
    let size = Size::new(ROWS).expect(rt, "a size");
    size.point(column, row).expect(rt, "a point")
}

/// What is found of the stone at the point, with this side to move.
pub(crate) fn asked(
    alloc: Global,
    board: &Colouring,
    stone: Point,
    mover: Option<Colour>,
) -> Result<Option<Finding>, AllocError> {
    find_for_stone(alloc, board, &[], mover, Limits::default(), stone)
}

/// All findings of a board.
pub(crate) fn all_of(
    alloc: Global,
    board: &Colouring,
    limits: Limits,
) -> Result<Vec<Finding>, AllocError> {
    let mut search = GroupSearch::new(alloc, board, &[], None, limits)?;
    let mut findings = Vec::new(alloc);
    for _ in 0..100 {
        match search.next_finding()? {
            Some(finding) => findings.push(finding)?,
            None => break,
        }
    }
    Ok(findings)
}
