//! Named shapes on small boards, by hand.

use go_chains::ChainBoard;
use go_points::{Colour, Colouring, PointSet, Size};
use pass_alive::is_pass_alive;
use std::process::Abort;
use std::test::Fail;

fn board(rt: &impl Abort, rows: u8, text: &str) -> ChainBoard {
    let size = Size::new(rows).expect(rt, "a size");
    let colouring = Colouring::from_text(size, text.as_bytes()).expect(rt, "a colouring");
    match ChainBoard::from_colouring(&colouring) {
        Ok(board) => board,
        Err(_) => panic!(rt; "every stone has a liberty"),
    }
}

// The points at which the text has an `x`.
fn marked(rt: &impl Abort, rows: u8, text: &str) -> PointSet {
    let size = Size::new(rows).expect(rt, "a size");
    let bytes = text.as_bytes();
    let mut set = PointSet::new();
    for number in 0..size.area() {
        if let Some(byte) = bytes.get(number) {
            if *byte == b'x' {
                set.insert(size.point_at(number));
            }
        }
    }
    set
}

fn expect_that(rt: &impl Abort, fact: bool) {
    assert!(rt; fact);
}

// Expects Black's target to live by its shape.
fn expect_life(rt: &impl Abort, rows: u8, text: &str, targets: &str, region: &str) {
    expect_that(rt, lives(rt, rows, text, targets, region));
}

// Expects it not to live by its shape.
fn expect_no_life(rt: &impl Abort, rows: u8, text: &str, targets: &str, region: &str) {
    expect_that(rt, !lives(rt, rows, text, targets, region));
}

// Whether Black's target lives by its shape.
fn lives(rt: &impl Abort, rows: u8, text: &str, targets: &str, region: &str) -> bool {
    is_pass_alive(
        &board(rt, rows, text),
        &marked(rt, rows, targets),
        Colour::Black,
        &marked(rt, rows, region),
    )
}

#[test]
fn two_eyes_live(rt: HostRuntime) {
    expect_life(&rt, 3, ".XXXXXXX.", "....x....", "xxxxxxxxx");
}

#[test]
fn three_in_a_row_are_one_eye(rt: HostRuntime) {
    expect_no_life(&rt, 3, "...XXXXXX", "....x....", "xxxxxxxxx");
}

#[test]
fn an_eye_that_suicide_empties_is_none(rt: HostRuntime) {
    let text = "O.XX..XXXXXXXXX.";
    expect_no_life(&rt, 4, text, "..x.............", "xxxxxxxxxxxxxxxx");
    let text = "..XX.OXXXXXXXXX.";
    expect_no_life(&rt, 4, text, "..x.............", "xxxxxxxxxxxxxxxx");
}

#[test]
fn a_lasting_liberty_lives(rt: HostRuntime) {
    expect_life(&rt, 3, "XXX......", "x........", "xxx......");
    expect_no_life(&rt, 3, "XXX......", "x........", "xxxxxx...");
}

#[test]
fn one_eye_is_not_two(rt: HostRuntime) {
    expect_no_life(&rt, 3, "..XXXXXXX", "....x....", "xxxxxxxxx");
}

#[test]
fn an_eye_beside_a_stone_that_lasts_is_none(rt: HostRuntime) {
    let text = ".XX.XXXOOOO.....";
    expect_no_life(&rt, 4, text, ".x..............", "x..x............");
    // Without that liberty outside, White's stones in the eye could be taken; but the eye is then the whole lower side.
    let text = ".XX.XXXOOOOOOOO.";
    expect_no_life(&rt, 4, text, ".x..............", "x..x...........x");
}

#[test]
fn a_stone_in_an_eye_is_part_of_it(rt: HostRuntime) {
    let text = ".XO.XXXXXXXXXXX.";
    expect_life(&rt, 4, text, ".x..............", "xxxxxxxxxxxxxxxx");
}

#[test]
fn chains_live_together_by_the_eyes_that_they_share(rt: HostRuntime) {
    let text = ".XX.X..XX..X.XX.";
    expect_life(&rt, 4, text, ".x..............", "xxxxxxxxxxxxxxxx");
    // Without one stone a chain has one eye, then its neighbours have one, and so on.
    let text = ".XX.X..XX..X.X..";
    expect_no_life(&rt, 4, text, ".x..............", "xxxxxxxxxxxxxxxx");
}

// Whether this colour's target, marked on a board of this many rows, lives by its shape round Black's two eyes on three rows.
fn lives_by_two_eyes(rt: &impl Abort, rows: u8, targets: &str, colour: Colour) -> bool {
    is_pass_alive(
        &board(rt, 3, ".XXXXXXX."),
        &marked(rt, rows, targets),
        colour,
        &marked(rt, 3, "xxxxxxxxx"),
    )
}

#[test]
fn a_target_off_the_board_or_without_a_stone_does_not_live(rt: HostRuntime) {
    for target in ["...x............", "............x..."] {
        expect_that(&rt, !lives_by_two_eyes(&rt, 4, target, Colour::Black));
    }
    expect_that(&rt, !lives_by_two_eyes(&rt, 3, "x........", Colour::Black));
    expect_that(&rt, !lives_by_two_eyes(&rt, 3, "....x....", Colour::White));
    expect_that(&rt, lives_by_two_eyes(&rt, 3, ".........", Colour::White));
}
