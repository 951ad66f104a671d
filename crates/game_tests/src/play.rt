//! Play on small boards and on the widest, with results worked out by the rules.

use crate::expect::{
    expect_colour, expect_colouring, expect_count, expect_number, expect_optional_colour,
    expect_optional_count, expect_same, expect_that,
};
use crate::positions::{Position, board_of, history, points, problem_of};
use arrayvec::ArrayVec;
use go_points::{Cell, Colour, Colouring, MAX_SIZE, Point, PointSet, Size, Turn, sgf_point};
use std::alloc::Global;
use std::process::Abort;
use target_game::{AtFault, Child, MAX_TURNS, PlayState, Problem, TurnsLeft};

fn turn(rt: &impl Abort, letters: &str) -> Turn {
    let size = Size::new(3).expect(rt, "a size");
    Turn::At(sgf_point(size, letters.as_bytes()).expect(rt, "a point"))
}

// The start of a problem on 3 by 3 whose present colouring is the last of its history.
fn start(
    rt: &impl Abort,
    alloc: Global,
    texts: &[&str],
    mover: Colour,
    targets: &str,
    region: &str,
) -> PlayState {
    let position = Position {
        rows: 3,
        texts,
        mover,
        passes: 0,
        targets,
        region,
    };
    PlayState::of(alloc, &problem_of(rt, alloc, &position)).expect(rt, "memory")
}

// Makes a turn if it is legal, and returns whether it was.
fn play(state: &mut PlayState, turn: Turn) -> bool {
    if state.over().is_some() {
        return false;
    }
    match state.try_after(turn) {
        Ok(made) => made,
        Err(_) => false,
    }
}

// The turns that are left, taken one by one; each is made and taken back.
fn turns_one_by_one(state: &mut PlayState) -> ArrayVec<Turn, MAX_TURNS> {
    let mut all = ArrayVec::new();
    let mut left = TurnsLeft::all();
    for _ in 0..MAX_TURNS {
        if state.over().is_none() {
            if let Ok(Some(turn)) = state.after_next(&mut left) {
                state.back();
                if all.try_push(turn).is_err() {
                    return all;
                }
            }
        }
    }
    all
}

// Makes the move with these letters if it is legal, and returns whether it was.
fn play_at(rt: &impl Abort, state: &mut PlayState, letters: &str) -> bool {
    play(state, turn(rt, letters))
}

fn expect_turns(rt: &impl Abort, found: &[Turn], wanted: &[Turn]) {
    assert_eq!(rt; found, wanted);
}

// Expects the moves with these letters, two for each, and the pass to be the only legal turns.
fn expect_legal(rt: &impl Abort, state: &PlayState, letters: &str) {
    let mut wanted = ArrayVec::<Turn, MAX_TURNS>::new();
    for pair in letters.as_bytes().chunks(2) {
        let size = Size::new(3).expect(rt, "a size");
        let point = sgf_point(size, pair).expect(rt, "a point");
        expect_that(rt, wanted.try_push(Turn::At(point)).is_ok());
    }
    expect_that(rt, wanted.try_push(Turn::Pass).is_ok());
    expect_turns(rt, state.turns().as_slice(), wanted.as_slice());
}

// Expects the state to have these cells.
fn expect_cells(rt: &impl Abort, state: &PlayState, text: &str) {
    expect_colouring(rt, state.colouring(), board_of(rt, 3, text));
}

// Expects these cells to have occurred first at this place, or not at all.
fn expect_place(rt: &impl Abort, state: &PlayState, text: &str, place: Option<usize>) {
    expect_optional_count(rt, state.holds(&board_of(rt, 3, text)), place);
}

// Expects the move with these letters to lead to this.
fn expect_child(rt: &impl Abort, state: &PlayState, letters: &str, wanted: Option<Child>) {
    assert_eq!(rt; state.child(turn(rt, letters)), wanted);
}

#[test]
fn a_capture_wins_for_the_attacker(rt: HostRuntime) {
    let mut state = start(&rt, rt.alloc(), &["O..X....."], Colour::Black, "aa", "ba");
    expect_optional_colour(&rt, state.over(), None);
    expect_legal(&rt, &state, "ba");
    expect_same(&rt, state.next_turn(0), turn(&rt, "ba"));
    expect_same(&rt, state.next_turn(2), Turn::Pass);
    expect_that(&rt, play_at(&rt, &mut state, "ba"));
    expect_optional_colour(&rt, state.over(), Some(Colour::Black));
    expect_colour(&rt, state.mover(), Colour::White);
    expect_cells(&rt, &state, ".X.X.....");
    expect_that(&rt, state.turns().is_empty());
}

// The keys are exclusive ors of words that another program drew, from its own PCG64 seeded with the number 1.
#[test]
fn a_state_has_the_key_of_its_colouring(rt: HostRuntime) {
    let mut state = start(&rt, rt.alloc(), &["O..X....."], Colour::Black, "aa", "ba");
    expect_number(&rt, state.key(), 3_778_989_091_018_136_610);
    let capture = Child {
        key: 3_257_418_155_030_562_517,
        winner: Some(Colour::Black),
    };
    expect_child(&rt, &state, "ba", Some(capture));
    expect_child(&rt, &state, "ca", None);
    expect_that(&rt, play_at(&rt, &mut state, "ba"));
    expect_number(&rt, state.key(), 3_257_418_155_030_562_517);
    let other_mover = start(&rt, rt.alloc(), &["O..X....."], Colour::White, "aa", "ba");
    expect_number(&rt, other_mover.key(), 3_778_989_091_018_136_610);
}

#[test]
fn two_passes_win_for_the_defender(rt: HostRuntime) {
    let mut state = start(&rt, rt.alloc(), &["O..X....."], Colour::White, "aa", "ba");
    expect_that(&rt, play_at(&rt, &mut state, "ba"));
    expect_that(&rt, play(&mut state, Turn::Pass));
    expect_number(&rt, state.passes(), 1);
    expect_optional_colour(&rt, state.over(), None);
    let end = state.child(Turn::Pass);
    expect_optional_colour(&rt, end.and_then(|child| child.winner), Some(Colour::White));
    expect_that(&rt, play(&mut state, Turn::Pass));
    expect_optional_colour(&rt, state.over(), Some(Colour::White));
    expect_that(&rt, !play(&mut state, Turn::Pass));
}

#[test]
fn the_past_decides_at_a_ko(rt: HostRuntime) {
    let free = start(&rt, rt.alloc(), &["O.OXO...."], Colour::Black, "aa", "ba");
    expect_legal(&rt, &free, "ba");
    let mut barred = start(
        &rt,
        rt.alloc(),
        &[".XOXO....", "O.OXO...."],
        Colour::Black,
        "aa",
        "ba",
    );
    expect_legal(&rt, &barred, "");
    expect_turns(
        &rt,
        turns_one_by_one(&mut barred).as_slice(),
        [Turn::Pass].as_slice(),
    );
    expect_that(&rt, !play_at(&rt, &mut barred, "ba"));
    expect_cells(&rt, &barred, "O.OXO....");
    expect_colour(&rt, barred.mover(), Colour::Black);
    expect_child(&rt, &barred, "ba", None);
    expect_place(&rt, &barred, ".XOXO....", Some(0));
    expect_place(&rt, &barred, ".X.XO....", None);
}

// The state with only this colouring, after one pass, in a problem whose history bars the capture at the upper left.
fn alone(rt: &impl Abort, alloc: Global, text: &str) -> Result<PlayState, AtFault> {
    let problem = Problem::new(
        history(rt, alloc, 3, &[".XOXO....", "O.OXO...."]),
        1,
        Colour::White,
        0,
        points(rt, 3, "aa"),
        points(rt, 3, "ba"),
    )
    .expect(rt, "a problem");
    let colouring = board_of(rt, 3, text);
    expect_that(rt, colouring.size() == problem.size());
    PlayState::at(alloc, &problem, &colouring, Colour::Black, 1)
}

// Whether the fault names the point.
fn names(fault: AtFault, point: Point) -> bool {
    match fault {
        AtFault::NoLiberty { point: found } => found == point,
        AtFault::Memory => false,
    }
}

#[test]
fn a_colouring_alone_forgets_the_past(rt: HostRuntime) {
    let mut state = alone(&rt, rt.alloc(), "O.OXO....").expect(&rt, "a state");
    expect_colour(&rt, state.mover(), Colour::Black);
    expect_number(&rt, state.passes(), 1);
    expect_cells(&rt, &state, "O.OXO....");
    expect_place(&rt, &state, "O.OXO....", Some(0));
    expect_place(&rt, &state, ".XOXO....", None);
    expect_that(&rt, play_at(&rt, &mut state, "ba"));
    expect_cells(&rt, &state, ".XOXO....");
    expect_optional_colour(&rt, state.over(), Some(Colour::Black));
}

#[test]
fn a_colouring_alone_has_its_liberties(rt: HostRuntime) {
    let size = Size::new(3).expect(&rt, "a size");
    let second = sgf_point(size, b"ba").expect(&rt, "a point");
    // The white stone has black stones on both sides and below it.
    let found = alone(&rt, rt.alloc(), "XOX.X....");
    expect_that(&rt, found.is_err_and(|fault| names(fault, second)));
}

#[test]
fn a_state_begins_anew_in_the_same_game(rt: HostRuntime) {
    let size = Size::new(3).expect(&rt, "a size");
    let second = sgf_point(size, b"ba").expect(&rt, "a point");
    let mut state = alone(&rt, rt.alloc(), ".XOXO....").expect(&rt, "a state");
    let smothered = board_of(&rt, 3, "XOX.X....");
    expect_that(&rt, smothered.size() == state.size());
    let refused = state.restart(rt.alloc(), &smothered, Colour::White, 0);
    expect_that(&rt, refused.is_err_and(|fault| names(fault, second)));
    expect_cells(&rt, &state, ".XOXO....");
    expect_colour(&rt, state.mover(), Colour::Black);
    let taken = board_of(&rt, 3, "O.OXO....");
    expect_that(&rt, taken.size() == state.size());
    expect_that(
        &rt,
        state.restart(rt.alloc(), &taken, Colour::Black, 1).is_ok(),
    );
    expect_number(&rt, state.passes(), 1);
    expect_place(&rt, &state, ".XOXO....", None);
    expect_that(&rt, play_at(&rt, &mut state, "ba"));
    expect_optional_colour(&rt, state.over(), Some(Colour::Black));
}

#[test]
fn suicide_of_one_stone_is_no_turn(rt: HostRuntime) {
    let state = start(&rt, rt.alloc(), &[".XXXXXXX."], Colour::White, "bb", "aacc");
    expect_legal(&rt, &state, "");
}

#[test]
fn suicide_of_two_stones_is_a_turn_and_loses_the_targets(rt: HostRuntime) {
    let mut state = start(&rt, rt.alloc(), &["X.OOO...."], Colour::Black, "aa", "ba");
    expect_legal(&rt, &state, "ba");
    expect_that(&rt, play_at(&rt, &mut state, "ba"));
    expect_cells(&rt, &state, "..OOO....");
    expect_optional_colour(&rt, state.over(), Some(Colour::White));
}

#[test]
fn the_region_binds_both_sides(rt: HostRuntime) {
    let mut state = start(&rt, rt.alloc(), &["O........"], Colour::Black, "aa", "ba");
    expect_legal(&rt, &state, "ba");
    expect_that(&rt, !play_at(&rt, &mut state, "ab"));
    expect_that(&rt, play_at(&rt, &mut state, "ba"));
    expect_legal(&rt, &state, "");
}

#[test]
fn a_turn_is_taken_back_whole(rt: HostRuntime) {
    let mut state = start(&rt, rt.alloc(), &["O..X....."], Colour::Black, "aa", "bacc");
    expect_that(&rt, play(&mut state, Turn::Pass));
    let corner = Size::new(3)
        .expect(&rt, "a size")
        .point(2, 2)
        .expect(&rt, "a point");
    expect_that(
        &rt,
        state.over().is_none() && state.size().holds(corner) && state.may_move(corner),
    );
    if state.over().is_none() && state.size().holds(corner) && state.may_move(corner) {
        expect_that(&rt, state.after(Turn::At(corner)).is_ok());
        expect_cells(&rt, &state, "O..X....O");
        expect_number(&rt, state.passes(), 0);
        state.back();
    }
    expect_number(&rt, state.passes(), 1);
    expect_colour(&rt, state.mover(), Colour::White);
    expect_cells(&rt, &state, "O..X.....");
    expect_place(&rt, &state, "O..X....O", None);
}

// The start of a problem on the widest board with this colouring. Every point is in the region.
fn start_on_the_widest(
    rt: &impl Abort,
    alloc: Global,
    colouring: Colouring,
    target: Point,
) -> PlayState {
    let mut targets = PointSet::new();
    targets.insert(target);
    let mut region = PointSet::new();
    for point in Size::new(MAX_SIZE).expect(rt, "a size").points() {
        region.insert(point);
    }
    let mut history = Vec::new(alloc);
    history.push(colouring).expect(rt, "memory");
    let problem = Problem::new(history, 0, Colour::Black, 0, targets, region);
    PlayState::of(alloc, &problem.expect(rt, "a problem")).expect(rt, "memory")
}

#[test]
fn turns_on_the_widest_board(rt: HostRuntime) {
    let size = Size::new(MAX_SIZE).expect(&rt, "a size");
    let first = size.point(0, 0).expect(&rt, "a point");
    let mut colouring = Colouring::empty(size);
    if colouring.size().holds(first) {
        colouring.set(first, Cell::Stone(Colour::White));
    }
    let state = start_on_the_widest(&rt, rt.alloc(), colouring, first);
    let turns = state.turns();
    expect_count(&rt, turns.len(), 625);
    expect_same(&rt, turns.as_slice().last(), Some(&Turn::Pass));
    for number in 1..size.area() {
        expect_same(
            &rt,
            turns.as_slice().get(number - 1),
            Some(&Turn::At(size.point_at(number))),
        );
    }
}

// White's stones fill the widest board except for the last point, where Black takes all of them.
#[test]
fn a_capture_of_all_the_widest_board_holds(rt: HostRuntime) {
    let size = Size::new(MAX_SIZE).expect(&rt, "a size");
    let mut colouring = Colouring::empty(size);
    for number in 0..size.area() - 1 {
        let size = colouring.size();
        if number < size.area() {
            colouring.set(size.point_at(number), Cell::Stone(Colour::White));
        }
    }
    let last = size.point_at(size.area() - 1);
    let mut state = start_on_the_widest(&rt, rt.alloc(), colouring, size.point_at(0));
    expect_turns(
        &rt,
        state.turns().as_slice(),
        [Turn::At(last), Turn::Pass].as_slice(),
    );
    expect_that(&rt, play(&mut state, Turn::At(last)));
    expect_optional_colour(&rt, state.over(), Some(Colour::Black));
    let mut left = Colouring::empty(size);
    left.set(last, Cell::Stone(Colour::Black));
    expect_colouring(&rt, state.colouring(), left);
}
