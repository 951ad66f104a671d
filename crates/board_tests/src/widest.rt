//! Moves on the widest board, counted, and setups that are refused.

use crate::expect::{expect_colouring, expect_same};
use crate::turns::{board, painted, point};
use go_points::{Cell, Colour, Colouring, MAX_SIZE, Point, Size};
use go_turns::*;
use std::process::Abort;

fn expect_taken(rt: &impl Abort, found: Option<u16>, wanted: Option<u16>) {
    assert_eq!(rt; found, wanted);
}

// Makes a move on the board, and returns the number of stones that it takes off, if the move can be made.
fn taken<B: Board>(board: &mut B, colour: Colour, point: Point) -> Option<u16> {
    if board.size().holds(point) {
        board.play(colour, point).ok()
    } else {
        None
    }
}

#[test]
fn moves_on_the_widest_board_count_what_they_take(rt: HostRuntime) {
    let size = board(&rt, MAX_SIZE);
    let last = MAX_SIZE - 1;
    let corner = point(&rt, size, last, last);
    let left = point(&rt, size, last - 1, last);
    let above = point(&rt, size, last, last - 1);
    let beyond = point(&rt, size, last, last - 2);
    let beside = point(&rt, size, last - 1, last - 1);
    let mut board = PlayBoard::new(size);
    expect_taken(&rt, taken(&mut board, Colour::White, corner), Some(0));
    expect_taken(&rt, taken(&mut board, Colour::White, corner), None);
    expect_taken(&rt, taken(&mut board, Colour::Black, left), Some(0));
    expect_taken(&rt, taken(&mut board, Colour::Black, above), Some(1));
    expect_taken(&rt, taken(&mut board, Colour::White, corner), Some(1));
    expect_taken(&rt, taken(&mut board, Colour::White, beyond), Some(0));
    expect_taken(&rt, taken(&mut board, Colour::White, beside), Some(0));
    expect_taken(&rt, taken(&mut board, Colour::White, corner), Some(1));
    expect_taken(&rt, taken(&mut board, Colour::Black, corner), None);
    expect_taken(&rt, taken(&mut board, Colour::Black, above), Some(1));
}

// The widest board, full of black stones except for the point in its middle.
fn nearly_full() -> Option<Colouring> {
    let size = Size::new(MAX_SIZE)?;
    let mut colouring = Colouring::empty(size);
    for number in 0..size.area() {
        let size = colouring.size();
        if number != size.area() / 2 && number < size.area() {
            colouring.set(size.point_at(number), Cell::Stone(Colour::Black));
        }
    }
    Some(colouring)
}

// What a move in the middle of that board takes off.
fn taken_in_the_middle<B: Board>(board: &mut B, colour: Colour) -> Option<u16> {
    let wanted = nearly_full()?;
    let size = board.size();
    if wanted.size() == size && board.assign(&wanted).is_ok() {
        taken(board, colour, size.point(MAX_SIZE / 2, MAX_SIZE / 2)?)
    } else {
        None
    }
}

#[test]
fn a_move_empties_the_widest_board(rt: HostRuntime) {
    let size = board(&rt, MAX_SIZE);
    let mut board = PlayBoard::new(size);
    expect_taken(
        &rt,
        taken_in_the_middle(&mut board, Colour::White),
        Some(624),
    );
    let mut plain = PlainBoard::new(size);
    expect_taken(
        &rt,
        taken_in_the_middle(&mut plain, Colour::White),
        Some(624),
    );
    expect_colouring(&rt, board.colouring(), plain.colouring());
    expect_taken(
        &rt,
        taken_in_the_middle(&mut board, Colour::Black),
        Some(625),
    );
    expect_taken(
        &rt,
        taken_in_the_middle(&mut plain, Colour::Black),
        Some(625),
    );
    expect_colouring(&rt, board.colouring(), Colouring::empty(size));
    expect_colouring(&rt, plain.colouring(), Colouring::empty(size));
}

#[test]
fn a_board_refuses_a_stone_without_liberty(rt: HostRuntime) {
    let size = board(&rt, 3);
    let centre = point(&rt, size, 1, 1);
    let mut board = PlayBoard::new(size);
    let crossed = painted(size, ".X.X.X.X.");
    let smothered = painted(size, ".X.XOX.X.");
    let size = board.size();
    if crossed.size() == size && smothered.size() == size {
        expect_same(&rt, board.assign(&crossed), Ok(()));
        expect_same(
            &rt,
            board.assign(&smothered),
            Err(NoLiberty { point: centre }),
        );
        expect_colouring(&rt, board.colouring(), crossed);
    }
    if board.size().holds(centre) {
        expect_same(&rt, board.cell(centre), Cell::Empty);
    }
}
