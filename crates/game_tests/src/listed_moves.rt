//! The moves that the searches list, beside what each move leads to by the calls of the game.

use crate::expect::{expect_count, expect_same, expect_that};
use crate::positions::{Position, problem_of};
use go_points::{Cell, Colour, Colouring, MAX_SIZE, Point, PointSet, Size, Turn};
use state_proofs::{Line, Move, Play};
use std::alloc::Global;
use std::process::Abort;
use target_game::{PlayState, Problem};

// All points of a board of three rows, and of one of five.
const ALL_OF_THREE: &str = "aabacaabbbcbacbccc";

const ALL_OF_FIVE: &str = "aabacadaeaabbbcbdbebacbcccdcecadbdcdddedaebecedeee";

// The key of the colouring.
fn key_of(rt: &impl Abort, alloc: Global, problem: &Problem, colouring: &Colouring) -> u64 {
    let play = Play::at(alloc, problem, colouring, Colour::Black, 0).expect(rt, "a state");
    play.key().position
}

// The key after the move at the point, whether it is barred, and whether the attacker has won by it. `None` if it is no move at an
// open point that changes something.
fn wanted_at(
    rt: &impl Abort,
    alloc: Global,
    problem: &Problem,
    state: &PlayState,
    point: Point,
) -> Option<(u64, bool, bool)> {
    if !state.size().holds(point) || !state.is_open(point) {
        return None;
    }
    if let Some(child) = state.child(Turn::At(point)) {
        return Some((child.key, false, child.winner.is_some()));
    }
    let key = key_of(rt, alloc, problem, &state.result(point));
    if key == state.key() {
        None
    } else {
        Some((key, true, false))
    }
}

fn expect_move(rt: &impl Abort, found: Option<Move>, point: Point, wanted: (u64, bool, bool)) {
    let found = found.expect(rt, "a move");
    expect_same(rt, found.point, point);
    expect_that(rt, found.position == wanted.0);
    expect_that(rt, found.is_barred == wanted.1);
    expect_that(rt, found.wins == wanted.2);
}

// The moves that are listed at the start of the problem.
fn listed(rt: &impl Abort, alloc: Global, problem: &Problem) -> Vec<Move> {
    let line = Line::of(alloc, problem).expect(rt, "memory");
    let mut moves = Vec::new(alloc);
    line.list_moves(&mut moves).expect(rt, "memory");
    moves
}

// Expects the moves that are listed to be those of the state, and these numbers of them to be legal and to be barred.
fn expect_moves(rt: &impl Abort, alloc: Global, problem: &Problem, legal: usize, barred: usize) {
    let moves = listed(rt, alloc, problem);
    let state = PlayState::of(alloc, problem).expect(rt, "memory");
    let mut found: usize = 0;
    let mut found_barred: usize = 0;
    for number in 0..state.size().area() {
        let point = state.size().point_at(number);
        if let Some(wanted) = wanted_at(rt, alloc, problem, &state, point) {
            expect_move(rt, moves.get(found).copied(), point, wanted);
            found = found.saturating_add(1);
            if wanted.1 {
                found_barred = found_barred.saturating_add(1);
            }
        }
    }
    expect_count(rt, moves.len(), found);
    expect_count(rt, found_barred, barred);
    expect_count(rt, found.saturating_sub(barred), legal);
}

// A stone in a corner is taken back: of the 18 empty points one is barred, and at the corner a stone would change nothing.
#[test]
fn ko_is_barred(rt: HostRuntime) {
    let position = Position {
        rows: 5,
        texts: &[".XO..XO.O..XO............", ".XO..X.XO..XO............"],
        mover: Colour::White,
        passes: 0,
        targets: "ab",
        region: ALL_OF_FIVE,
    };
    let problem = problem_of(&rt, rt.alloc(), &position);
    expect_moves(&rt, rt.alloc(), &problem, 16, 1);
}

// One of the 23 moves takes the target.
#[test]
fn move_that_takes_the_target_wins(rt: HostRuntime) {
    let position = Position {
        rows: 5,
        texts: &["XO......................."],
        mover: Colour::White,
        passes: 0,
        targets: "aa",
        region: ALL_OF_FIVE,
    };
    let problem = problem_of(&rt, rt.alloc(), &position);
    expect_moves(&rt, rt.alloc(), &problem, 23, 0);
    let moves = listed(&rt, rt.alloc(), &problem);
    expect_same(&rt, moves.iter().filter(|it| it.wins).count(), 1);
}

// White may take two stones of its own off the board, but not one.
#[test]
fn suicide_of_two_stones_is_listed(rt: HostRuntime) {
    let position = Position {
        rows: 3,
        texts: &["O.XXXX.X."],
        mover: Colour::White,
        passes: 0,
        targets: "ca",
        region: ALL_OF_THREE,
    };
    let problem = problem_of(&rt, rt.alloc(), &position);
    expect_moves(&rt, rt.alloc(), &problem, 1, 0);
}

// On the widest board, with a stone in the last corner.
#[test]
fn moves_of_the_widest_board(rt: HostRuntime) {
    let size = Size::new(MAX_SIZE).expect(&rt, "a size");
    let corner = size
        .point(MAX_SIZE - 1, MAX_SIZE - 1)
        .expect(&rt, "a point");
    let mut colouring = Colouring::empty(size);
    colouring.set(corner, Cell::Stone(Colour::Black));
    let mut target = PointSet::new();
    target.insert(corner);
    let mut region = PointSet::new();
    for point in size.points() {
        region.insert(point);
    }
    let mut history = Vec::new(rt.alloc());
    history.push(colouring).expect(&rt, "memory");
    let problem = Problem::new(history, 0, Colour::White, 0, target, region).expect(
        &rt,
        "a problem",
    );
    expect_moves(&rt, rt.alloc(), &problem, 624, 0);
}
