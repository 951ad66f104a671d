//! Claims that stones are safe by answers.
//!
//! On three rows White has `O.O`, `.OO` and Black the row below. Black's move at the left end of the second row is suicide of four
//! stones, and White answers there. The row below is then an eye of three points.

use go_points::{Colour, Colouring, PointSet, Size};
use safe_groups::{Fault, Stop, judge};
use std::alloc::Global;
use std::process::Abort;
use std::test::Fail;
use target_game::Problem;

const BOARD: &str = "O.O.OOXXX";

// White answers Black's move where it was, and then rests.
const CLAIM: &str =
    "tsureply 1 3 W\narea #.#.##XXX\nbody\nstate .O...\nall 1\nreply ab ab 2\nrest\nend\n";

// The same, without the state after the answer.
const WITHOUT_STATE: &str = "tsureply 1 3 W\narea #.#.##XXX\nbody\nall 1\nreply ab ab 1\nend\n";

// White passes in place of the answer.
const WITHOUT_ANSWER: &str =
    "tsureply 1 3 W\narea #.#.##XXX\nbody\nstate .O...\nall 1\nreply ab pass 2\nrest\nend\n";

// White is said to rest at once.
const WITHOUT_MOVES: &str = "tsureply 1 3 W\narea #.#.##XXX\nbody\nrest\nend\n";

// A stone that is kept is not there.
const OTHER_STONES: &str = "tsureply 1 3 W\narea ###.##XXX\nbody\nrest\nend\n";

fn colouring(rt: &impl Abort, text: &str) -> Colouring {
    let size = Size::new(3).expect(rt, "a size");
    Colouring::from_text(size, text.as_bytes()).expect(rt, "a colouring")
}

// The points at which the text has an `x`.
fn marked(rt: &impl Abort, text: &str) -> PointSet {
    let size = Size::new(3).expect(rt, "a size");
    let bytes = text.as_bytes();
    let mut set = PointSet::new();
    for number in 0..size.area() {
        if bytes.get(number).copied() == Some(b'x') {
            set.insert(size.point_at(number));
        }
    }
    set
}

// Black to move on the last of these boards, after the others; White's stone in the corner is the target.
fn problem(rt: &impl Abort, alloc: Global, boards: &[&str]) -> Problem {
    let mut history = Vec::new(alloc);
    for board in boards {
        history.push(colouring(rt, board)).expect(rt, "memory");
    }
    let place = history.len().saturating_sub(1);
    let target = marked(rt, "x........");
    let region = marked(rt, "xxxxxxxxx");
    Problem::new(history, place, Colour::Black, 0, target, region).expect(rt, "a problem")
}

// Expects that the claim is refused in this line, for this reason, after these boards.
fn expect_fault(
    rt: &impl Abort,
    alloc: Global,
    boards: &[&str],
    claim: &str,
    line: u64,
    fault: Fault,
) {
    let mut nothing = b"".as_slice();
    let problem = problem(rt, alloc, boards);
    match judge(alloc, &problem, claim.as_bytes(), &mut nothing) {
        Ok(verdict) => assert!(rt; verdict.keeper == Colour::Black),
        Err(reject) => {
            assert!(rt; reject.line == line);
            assert!(rt; reject.stop == Stop::Fault(fault));
        }
    }
}

// Expects that the claim is accepted on this board, and tells these stones.
fn expect_stones(rt: &impl Abort, alloc: Global, claim: &str, stones: &str) {
    let mut nothing = b"".as_slice();
    let problem = problem(rt, alloc, &[BOARD]);
    match judge(alloc, &problem, claim.as_bytes(), &mut nothing) {
        Ok(verdict) => {
            assert!(rt; verdict.keeper == Colour::White);
            assert!(rt; verdict.first.is_none());
            assert!(rt; verdict.stones == colouring(rt, stones));
        }
        Err(reject) => assert!(rt; reject.line == 0),
    }
}

#[test]
fn an_answer_keeps_the_group(rt: HostRuntime) {
    expect_stones(&rt, rt.alloc(), CLAIM, "O.O.OO...");
}

#[test]
fn the_state_after_the_answer_has_to_be_there(rt: HostRuntime) {
    expect_fault(
        &rt,
        rt.alloc(),
        &[BOARD],
        WITHOUT_STATE,
        5,
        Fault::NotCovered,
    );
}

#[test]
fn a_pass_is_no_answer(rt: HostRuntime) {
    expect_fault(
        &rt,
        rt.alloc(),
        &[BOARD],
        WITHOUT_ANSWER,
        6,
        Fault::NotCovered,
    );
}

#[test]
fn it_does_not_live_by_its_shape(rt: HostRuntime) {
    expect_fault(
        &rt,
        rt.alloc(),
        &[BOARD],
        WITHOUT_MOVES,
        4,
        Fault::NotAtRest,
    );
}

#[test]
fn what_is_kept_has_to_be_there(rt: HostRuntime) {
    expect_fault(
        &rt,
        rt.alloc(),
        &[BOARD],
        OTHER_STONES,
        2,
        Fault::KeptStoneMissing,
    );
}

#[test]
fn an_earlier_position_bars_the_answer(rt: HostRuntime) {
    let before = "O.OOOO...";
    expect_fault(&rt, rt.alloc(), &[before, BOARD], CLAIM, 6, Fault::PastBars);
}
