//! White's group at the upper edge, around one eye shape, inside a wall of Black.

use crate::asked::{asked, board, point};
use go_points::{Colour, Point};
use group_search::Kind;
use std::alloc::{AllocError, Global};
use std::process::Abort;
use std::test::Fail;

/// Who may be to move: nobody in particular, or a side.
const MOVERS: [Option<Colour>; 3] = [None, Some(Colour::White), Some(Colour::Black)];

/// Whether White's stone at the second point of the first row lives or dies. `None` if nothing is found.
fn lives(
    rt: &impl Abort,
    alloc: Global,
    rows: &[&str],
    mover: Option<Colour>,
) -> Result<Option<bool>, AllocError> {
    let colouring = board(rt, alloc, rows)?;
    Ok(match asked(alloc, &colouring, point(rt, 1, 0), mover)? {
        Some(finding) => Some(!matches!(finding.kind, Kind::Dead | Kind::DeadWhile)),
        None => None,
    })
}

/// Whether the finding begins with a move at this point.
fn begins_at(
    rt: &impl Abort,
    alloc: Global,
    rows: &[&str],
    mover: Option<Colour>,
    vital: Point,
) -> Result<bool, AllocError> {
    let colouring = board(rt, alloc, rows)?;
    Ok(match asked(alloc, &colouring, point(rt, 1, 0), mover)? {
        Some(finding) => is_at(finding.first, vital),
        None => false,
    })
}

fn is_at(first: Option<Point>, vital: Point) -> bool {
    match first {
        Some(point) => point == vital,
        None => false,
    }
}

/// Asserts that whoever plays first in this column of the first row decides.
fn assert_decided(
    rt: &impl Abort,
    alloc: Global,
    rows: &[&str],
    column: u8,
) -> Result<(), AllocError> {
    let vital = point(rt, column, 0);
    assert_eq!(rt; lives(rt, alloc, rows, None)?, None);
    assert_eq!(rt; lives(rt, alloc, rows, Some(Colour::White))?, Some(true));
    assert_eq!(rt; lives(rt, alloc, rows, Some(Colour::Black))?, Some(false));
    assert!(rt; begins_at(rt, alloc, rows, Some(Colour::White), vital)?);
    assert!(rt; begins_at(rt, alloc, rows, Some(Colour::Black), vital)?);
    Ok(())
}

#[test]
fn three_in_a_row_are_decided_in_the_middle(rt: HostRuntime) -> Result<(), Fail> {
    let rows = ["XO...OX", "XOOOOOX", "XXXXXXX"];
    assert_decided(&rt, rt.alloc(), &rows, 3)?;
    Ok(())
}

#[test]
fn a_straight_four_lives(rt: HostRuntime) -> Result<(), Fail> {
    let rows = ["XO....OX", "XOOOOOOX", "XXXXXXXX"];
    for mover in MOVERS {
        assert_eq!(rt; lives(&rt, rt.alloc(), &rows, mover)?, Some(true));
    }
    Ok(())
}

#[test]
fn a_square_four_is_dead(rt: HostRuntime) -> Result<(), Fail> {
    let rows = ["XO..OX", "XO..OX", "XOOOOX", "XXXXXX"];
    for mover in MOVERS {
        assert_eq!(rt; lives(&rt, rt.alloc(), &rows, mover)?, Some(false));
    }
    Ok(())
}

#[test]
fn a_pyramid_four_is_decided_in_its_middle(rt: HostRuntime) -> Result<(), Fail> {
    let rows = ["XO...OX", "XOO.OOX", "XXOOOXX", ".XXXXX"];
    assert_decided(&rt, rt.alloc(), &rows, 3)?;
    Ok(())
}

#[test]
fn a_bulky_five_is_decided_where_three_points_meet(rt: HostRuntime) -> Result<(), Fail> {
    let rows = ["XO...OX", "XO..OOX", "XOOOOXX", "XXXXXX"];
    assert_decided(&rt, rt.alloc(), &rows, 3)?;
    Ok(())
}
