//! Both boards are asked the same questions, turn by turn, and give the same answers.

use crate::expect::expect_that;
use go_chains::ChainBoard;
use go_points::{Cell, Colour, Colouring, MAX_SIZE, Point, Size};
use go_turns::*;
use std::test::Fail;

// The next number of a linear congruential generator (Knuth's MMIX).
fn next(number: u64) -> u64 {
    number
        .wrapping_mul(6_364_136_223_846_793_005)
        .wrapping_add(1_442_695_040_888_963_407)
}

// What a board says of a move, and what it holds after it.
#[derive(PartialEq, Drop)]
struct Answer {
    quiet: Option<bool>,
    taken: Option<u16>,
    colouring: Colouring,
    key: u64,
}

fn move_on<B: Board>(board: &mut B, colour: Colour, number: usize) -> Answer {
    let size = board.size();
    let point = size.point_at(number % size.area());
    let quiet = if board.cell(point).is_empty() {
        Some(board.quiet(colour, point))
    } else {
        None
    };
    let taken = board.play(colour, point).ok();
    Answer {
        quiet,
        taken,
        colouring: board.colouring(),
        key: board.key(),
    }
}

// What a board says of a move. If the move is made twice, it is taken back in between.
fn turn_on<B: Board>(board: &mut B, colour: Colour, number: usize, is_made_twice: bool) -> Answer {
    if is_made_twice {
        let before = board.colouring();
        let size = board.size();
        let _taken = board.play(colour, size.point_at(number % size.area()));
        board.restore(&before);
    }
    move_on(board, colour, number)
}

// What a board says of another colouring, which is its own with another cell at one point.
fn change_on<B: Board>(board: &mut B, cell: Cell, number: usize) -> Option<Point> {
    let mut wanted = board.colouring();
    let size = wanted.size();
    wanted.set(size.point_at(number % size.area()), cell);
    match board.assign(&wanted) {
        Ok(()) => None,
        Err(fault) => Some(fault.point),
    }
}

// Whether both boards give the same answers for this many turns. Most turns are moves of random colours, some of which one board or
// the other takes back and makes again; now and then a point is changed.
fn agree(rows: u8, turns: u32, start: u64) -> bool {
    let Some(size) = Size::new(rows) else {
        return false;
    };
    let mut plain: PlainBoard = Board::new(size);
    let mut chained: ChainBoard = Board::new(size);
    let mut random = start;
    for turn in 0..turns {
        random = next(random);
        let number = (random >> 40) as usize;
        let colour = if random >> 39 & 1 == 0 {
            Colour::Black
        } else {
            Colour::White
        };
        let of_plain = turn_on(&mut plain, colour, number, turn % 5 == 0);
        if turn_on(&mut chained, colour, number, turn % 3 == 0) != of_plain {
            return false;
        }
        if turn % 8 == 7 {
            random = next(random);
            let number = (random >> 40) as usize;
            let cell = if random >> 39 & 1 == 0 {
                Cell::Empty
            } else {
                Cell::Stone(colour)
            };
            if change_on(&mut plain, cell, number) != change_on(&mut chained, cell, number) {
                return false;
            }
        }
    }
    plain.colouring() == chained.colouring()
}

#[test]
fn both_boards_answer_alike_on_nine_rows(rt: HostRuntime) -> Result<(), Fail> {
    expect_that(&rt, agree(9, 20_000, 1));
    Ok(())
}

#[test]
fn both_boards_answer_alike_on_two_and_three_rows(rt: HostRuntime) -> Result<(), Fail> {
    expect_that(&rt, agree(1, 100, 2));
    expect_that(&rt, agree(2, 3_000, 3));
    expect_that(&rt, agree(3, 6_000, 4));
    Ok(())
}

#[test]
fn both_boards_answer_alike_on_the_widest(rt: HostRuntime) -> Result<(), Fail> {
    expect_that(&rt, agree(MAX_SIZE, 1_500, 5));
    Ok(())
}
