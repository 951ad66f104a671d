//! Lists of colourings of several sizes, read back.

use crate::expect::{expect_count, expect_same, expect_that};
use go_points::{Cell, Colour, Colouring, ColouringList, Size};
use std::alloc::{AllocError, Global};
use std::process::Abort;

/// A board with a black stone at its first point and one of this colour at its last.
fn board(rt: &impl Abort, rows: u8, last: Colour) -> Colouring {
    let size = Size::new(rows).expect(rt, "a size");
    let mut colouring = Colouring::empty(size);
    colouring.set(size.point_at(0), Cell::Stone(Colour::Black));
    colouring.set(size.point_at(size.area() - 1), Cell::Stone(last));
    colouring
}

/// Whether the list has this colouring at the index.
fn has_at(list: &ColouringList, index: usize, colouring: Colouring) -> bool {
    index < list.len() && list.is_at(index, &colouring)
}

/// Puts boards of these rows into a list and reads them back.
fn expect_back(rt: &impl Abort, alloc: Global, rows: &[u8]) -> Result<(), AllocError> {
    let mut list = ColouringList::new(alloc);
    expect_same(rt, list.last(), None);
    for row in rows {
        let colouring = board(rt, *row, Colour::White);
        list.push(&colouring)?;
        expect_same(rt, list.last(), Some(colouring));
    }
    expect_count(rt, list.len(), rows.len());
    for index in 0..rows.len() {
        let found = list.get(index);
        expect_same(rt, found, Some(board(rt, rows[index], Colour::White)));
        assert_ne!(rt; found, Some(board(rt, rows[index], Colour::Black)));
        expect_that(
            rt,
            has_at(&list, index, board(rt, rows[index], Colour::White)),
        );
        expect_that(
            rt,
            !has_at(&list, index, board(rt, rows[index], Colour::Black)),
        );
    }
    expect_same(rt, list.get(rows.len()), None);
    Ok(())
}

#[test]
fn lists_read_back(rt: HostRuntime) -> Result<(), AllocError> {
    expect_back(&rt, rt.alloc(), &[])?;
    expect_back(&rt, rt.alloc(), &[5, 5, 19, 19, 5])?;
    expect_back(&rt, rt.alloc(), &[20, 25, 20])
}

#[test]
fn narrow_and_wide_in_any_order(rt: HostRuntime) -> Result<(), AllocError> {
    expect_back(&rt, rt.alloc(), &[19, 20, 19, 25])?;
    expect_back(&rt, rt.alloc(), &[25, 5, 2, 19, 20, 5])
}

/// The board of this many rows without stones.
fn empty_board(rt: &impl Abort, rows: u8) -> Colouring {
    Colouring::empty(Size::new(rows).expect(rt, "a size"))
}

#[test]
fn empty_boards_of_two_sizes_differ(rt: HostRuntime) -> Result<(), AllocError> {
    let mut list = ColouringList::new(rt.alloc());
    list.push(&empty_board(&rt, 5))?;
    list.push(&empty_board(&rt, 20))?;
    expect_that(&rt, has_at(&list, 0, empty_board(&rt, 5)));
    expect_that(&rt, !has_at(&list, 0, empty_board(&rt, 6)));
    expect_that(&rt, !has_at(&list, 1, empty_board(&rt, 21)));
    Ok(())
}
