//! The search on boards where more points can change than a small set of places holds.

use crate::expect::{expect_same, expect_that};
use crate::positions::points;
use crate::proof_numbers::{accepted, problem};
use claim_maker::{MAX_TRIED, claim_without_lemmas};
use go_points::{Colour, Colouring, PointSet, Size};
use local_board::{MAX_SMALL, count_changing};
use local_search::prove;
use state_proofs::{Answers, Stop};
use std::alloc::Global;
use std::num::NonZeroUsize;
use std::process::Abort;
use target_game::Problem;

const ROWS: u8 = 12;

// White's aa is in atari, and both may play anywhere on twelve rows.
fn corner(rt: &impl Abort, alloc: Global, mover: Colour) -> Problem {
    let size = Size::new(ROWS).expect(rt, "a size");
    let mut text = [b'.'; 144];
    text[0] = b'O';
    text[12] = b'X';
    let mut all = PointSet::new();
    for number in 0..size.area() {
        all.insert(size.point_at(number));
    }
    let mut history = Vec::new(alloc);
    let present = Colouring::from_text(size, &text).expect(rt, "a text");
    history.push(present).expect(rt, "memory");
    let made = Problem::new(history, 0, mover, 0, points(rt, ROWS, "aa"), all);
    made.expect(rt, "a problem")
}

// White fills twelve rows but for aa, ba and ca, which are its eye space and all that is left to play.
const THREE_POINTS: &str = "...OOOOOOOOO\
    OOOOOOOOOOOO\
    OOOOOOOOOOOO\
    OOOOOOOOOOOO\
    OOOOOOOOOOOO\
    OOOOOOOOOOOO\
    OOOOOOOOOOOO\
    OOOOOOOOOOOO\
    OOOOOOOOOOOO\
    OOOOOOOOOOOO\
    OOOOOOOOOOOO\
    OOOOOOOOOOOO";

fn table(rt: &impl Abort) -> NonZeroUsize {
    NonZeroUsize::new(1_000).expect(rt, "a size")
}

// Black takes at ba, which is one step, whichever answer is wanted.
#[test]
fn a_capture_takes_one_step(rt: HostRuntime) {
    let alloc = rt.alloc();
    let problem = corner(&rt, alloc, Colour::Black);
    let changing = count_changing(alloc, &problem).expect(&rt, "memory");
    expect_that(&rt, changing > MAX_SMALL);
    for answers in [Answers::First, Answers::Short] {
        let left = expect_claim(&rt, alloc, &problem, answers, Colour::Black, 1);
        expect_same(&rt, left, 0);
    }
}

// Who takes ba has the group: with stones that can be taken a board is wide, too. The group lives by its shape after White's ba,
// but a wide board is not asked about shapes, so the claim has no leaves, and the checker of other claims accepts it.
#[test]
fn a_search_without_shapes_has_no_leaves(rt: HostRuntime) {
    let alloc = rt.alloc();
    for mover in [Colour::White, Colour::Black] {
        let filled = problem(&rt, alloc, ROWS, &[THREE_POINTS], mover, "ll", "aabaca");
        let changing = count_changing(alloc, &filled).expect(&rt, "memory");
        expect_that(&rt, changing > MAX_SMALL);
        for answers in [Answers::Short, Answers::Small] {
            let left = expect_claim(&rt, alloc, &filled, answers, mover, 10_000);
            expect_that(&rt, left < 10_000);
        }
    }
}

// Expects the claim of what is found with these steps to have this winner, no lemmas, and the checker's consent. Returns how many
// steps are left.
fn expect_claim(
    rt: &impl Abort,
    alloc: Global,
    problem: &Problem,
    answers: Answers,
    winner: Colour,
    steps: u64,
) -> u64 {
    let mut left = steps;
    let mut nodes = MAX_TRIED;
    match prove(alloc, problem, table(rt), answers, &mut left) {
        Ok(shared) => match claim_without_lemmas(alloc, problem, &shared, &mut nodes) {
            Ok(claim) => {
                expect_same(rt, claim.winner, winner);
                expect_same(rt, accepted(rt, alloc, problem, claim), 0);
            }
            Err(_) => panic!(rt; "a claim"),
        },
        Err(_) => panic!(rt; "a proof"),
    }
    left
}

// White gets out at ba, and nobody sees the end of that in a hundred steps.
#[test]
fn too_few_steps_find_nothing(rt: HostRuntime) {
    let alloc = rt.alloc();
    let problem = corner(&rt, alloc, Colour::White);
    let mut left = 100;
    let found = prove(alloc, &problem, table(&rt), Answers::First, &mut left);
    expect_that(&rt, found.err() == Some(Stop::Steps));
    expect_same(&rt, left, 0);
}
