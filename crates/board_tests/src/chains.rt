//! Chains and liberties on small boards, by hand from the rules.

ghost use Rattle.go_points.specs.Grid.{side_of};
ghost use Rattle.go_points.specs.Place.{IsOn};

use crate::expect::{expect_same, expect_that};
use go_chains::{ChainBoard, NoLiberty, Occupied};
use go_points::{Cell, Colour, Colouring, Point, PointSet, Size};
use std::process::Abort;
use std::test::Fail;

fn painted(rt: &impl Abort, rows: u8, text: &str) -> Colouring {
    let size = Size::new(rows).expect(rt, "a size");
    Colouring::from_text(size, text.as_bytes()).expect(rt, "a colouring")
}

fn board(rt: &impl Abort, rows: u8, text: &str) -> ChainBoard {
    match ChainBoard::from_colouring(&painted(rt, rows, text)) {
        Ok(board) => board,
        Err(_) => panic!(rt; "every stone has a liberty"),
    }
}

fn at(rt: &impl Abort, board: &ChainBoard, column: u8, row: u8) -> Point
    ensures { IsOn (side_of board.now) result }
{
    board
        .size()
        .point(column, row)
        .expect(rt, "a point of the board")
}

// Whether the set holds the points of these columns and rows, and no others.
fn holds_just(set: &PointSet, size: Size, places: &[(u8, u8)]) -> bool {
    let mut wanted = PointSet::new();
    for place in places {
        let (column, row) = *place;
        if let Some(point) = size.point(column, row) {
            wanted.insert(point);
        }
    }
    *set == wanted
}

#[test]
fn a_captured_stone_gives_its_liberty_back(rt: HostRuntime) {
    let mut board = board(&rt, 3, "O.OXO....");
    let point = at(&rt, &board, 1, 0);
    expect_same(&rt, board.play(Colour::Black, point), Ok(1));
    expect_that(&rt, board.colouring() == painted(&rt, 3, ".XOXO...."));
    let point = at(&rt, &board, 0, 1);
    let liberties = board.liberties(point).expect(&rt, "a stone");
    expect_that(&rt, holds_just(&liberties, board.size(), &[(0, 0), (0, 2)]));
}

#[test]
fn a_chain_has_its_stones_and_liberties(rt: HostRuntime) {
    let board = board(&rt, 3, "XX.OX.O..");
    let point = at(&rt, &board, 0, 0);
    let chain = board.chain_of(point).expect(&rt, "a stone");
    expect_that(
        &rt,
        holds_just(&chain, board.size(), &[(0, 0), (1, 0), (1, 1)]),
    );
    let liberties = board.liberties(point).expect(&rt, "a stone");
    expect_that(
        &rt,
        holds_just(&liberties, board.size(), &[(2, 0), (2, 1), (1, 2)]),
    );
    let point = at(&rt, &board, 2, 2);
    expect_that(&rt, board.chain_of(point).is_none());
    expect_that(&rt, board.liberties(point).is_none());
}

#[test]
fn the_least_stone_without_liberty_is_named(rt: HostRuntime) {
    let wanted = painted(&rt, 3, "OX.X.....");
    match ChainBoard::from_colouring(&wanted) {
        Ok(_) => panic!(&rt; "the corner stone has no liberty"),
        Err(NoLiberty { point }) => {
            expect_same(&rt, (point.col(), point.row()), (0, 0));
        }
    }
}

#[test]
fn a_stone_on_a_stone_changes_nothing(rt: HostRuntime) {
    let mut board = board(&rt, 3, ".XOXO....");
    let point = at(&rt, &board, 1, 1);
    expect_same(&rt, board.play(Colour::Black, point), Err(Occupied));
    expect_that(&rt, board.colouring() == painted(&rt, 3, ".XOXO...."));
}

#[test]
fn a_last_liberty_makes_no_quiet_move(rt: HostRuntime) {
    let board = board(&rt, 3, "O.OXO....");
    expect_that(&rt, quiet(&rt, &board, Colour::White, 2, 2));
    expect_that(&rt, quiet(&rt, &board, Colour::White, 1, 0));
    expect_that(&rt, !quiet(&rt, &board, Colour::Black, 1, 0));
}

// Whether a move at this empty point is quiet.
fn quiet(rt: &impl Abort, board: &ChainBoard, colour: Colour, column: u8, row: u8) -> bool {
    let point = at(rt, board, column, row);
    match board.cell(point) {
        Cell::Empty => board.quiet(colour, point),
        Cell::Stone(_) => panic!(rt; "the point is empty"),
    }
}
