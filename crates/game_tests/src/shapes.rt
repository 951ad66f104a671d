//! What the shapes of groups say about life and death. The answers were worked out by hand, from the rules in the documentation of
//! the questions.

use crate::expect::{expect_same, expect_that};
use crate::proof_numbers::problem;
use go_points::Colour;
use local_board::{Board, Eyes, LargeSet, PlaceSet, Position, Shapes, Side, SmallSet};
use std::alloc::Global;
use std::process::Abort;

// The board of a problem whose target Black defends, and its position.
fn shapes<S: PlaceSet>(
    rt: &impl Abort,
    alloc: Global,
    text: &str,
    target: &str,
    region: &str,
) -> (Shapes<S>, Position<S>) {
    let given = problem(rt, alloc, 5, &[text], Colour::White, target, region);
    let (board, position) = Board::of(alloc, &given).expect(rt, "memory");
    (Shapes::of(alloc, board), position)
}

fn is_alive(rt: &impl Abort, alloc: Global, text: &str, target: &str, region: &str) -> bool {
    let (mut small, position) = shapes::<SmallSet>(rt, alloc, text, target, region);
    let (mut large, same_position) = shapes::<LargeSet>(rt, alloc, text, target, region);
    let lives = small.is_alive(position);
    expect_same(rt, large.is_alive(same_position), lives);
    lives
}

fn eyes(rt: &impl Abort, alloc: Global, text: &str, target: &str, region: &str) -> Eyes {
    let (mut small, position) = shapes::<SmallSet>(rt, alloc, text, target, region);
    let (mut large, same_position) = shapes::<LargeSet>(rt, alloc, text, target, region);
    let eyes = small.eyes(position);
    expect_same(rt, large.eyes(same_position), eyes);
    eyes
}

#[test]
fn two_eyes_of_one_point_live(rt: HostRuntime) {
    let text = ".X.XOXXXXOOOOOO..........";
    expect_that(&rt, is_alive(&rt, rt.alloc(), text, "ab", "aaca"));
}

#[test]
fn one_eye_of_two_points_does_not_live(rt: HostRuntime) {
    let text = "..XO.XXXO.OOOO...........";
    expect_that(&rt, !is_alive(&rt, rt.alloc(), text, "ab", "aaba"));
}

// The eye at aa is between two chains that are not connected, and each chain has no more than one other eye.
#[test]
fn a_false_eye_does_not_count(rt: HostRuntime) {
    let text = ".X.XOXOXXOOOOOO..........";
    expect_that(&rt, !is_alive(&rt, rt.alloc(), text, "db", "aaca"));
}

#[test]
fn a_liberty_outside_the_region_lasts(rt: HostRuntime) {
    let text = "X........................";
    expect_that(&rt, is_alive(&rt, rt.alloc(), text, "aa", "cc"));
}

#[test]
fn a_space_whose_middle_the_attacker_holds_is_no_eye(rt: HostRuntime) {
    let text = "XXXXXX...XX.O.XX...XXXXXX";
    let region = "bbcbdbbcccdcbdcddd";
    expect_that(&rt, !is_alive(&rt, rt.alloc(), text, "aa", region));
}

// White takes aa at ba. A target that is off the board does not live.
#[test]
fn what_was_taken_does_not_live(rt: HostRuntime) {
    let alloc = rt.alloc();
    let text = "X....O...................";
    let (mut shapes, position) = shapes::<SmallSet>(&rt, alloc, text, "aa", "ba");
    let after = shapes.board.after(position, Side::Attacker, 1);
    expect_that(&rt, shapes.board.is_taken(after));
    expect_that(&rt, !shapes.is_alive(after));
}

#[test]
fn three_points_in_a_row_may_be_two_eyes(rt: HostRuntime) {
    let text = "...XOXXXXOOOOOO..........";
    expect_that(&rt, !eyes(&rt, rt.alloc(), text, "ab", "aabaca").is_dead);
}

#[test]
fn three_points_whose_middle_is_taken_are_one_eye(rt: HostRuntime) {
    let text = ".O.XOXXXXOOOOOO..........";
    expect_that(&rt, eyes(&rt, rt.alloc(), text, "ab", "aabaca").is_dead);
}

// The eye at ca is destroyed by a stone at da or at cb, where White cannot be taken: Black plays at one of them, White at the
// other.
#[test]
fn an_eye_beside_two_safe_points_is_destroyed(rt: HostRuntime) {
    let text = ".X..OXX.OOOOOOO..........";
    expect_that(&rt, eyes(&rt, rt.alloc(), text, "ab", "aacadacb").is_dead);
}

#[test]
fn a_way_out_by_two_ways_is_far(rt: HostRuntime) {
    let text = "X........................";
    let found = eyes(&rt, rt.alloc(), text, "aa", "baabbb");
    expect_that(&rt, !found.is_dead);
    expect_same(&rt, found.eye_points, 40);
}

#[test]
fn a_square_is_one_eye(rt: HostRuntime) {
    let text = "..XO...XO.XXXO.OOOO......";
    expect_that(&rt, eyes(&rt, rt.alloc(), text, "ac", "aabaabbb").is_dead);
}

// Two stones of White's across: Black takes one of them and then has two eyes.
#[test]
fn a_square_with_two_stones_across_may_be_two_eyes(rt: HostRuntime) {
    let text = "O.XO..OXO.XXXO.OOOO......";
    expect_that(&rt, !eyes(&rt, rt.alloc(), text, "ac", "aabaabbb").is_dead);
}
