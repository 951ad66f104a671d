//! Full search on boards of three rows, with every claim and every step worked out by hand. More claims of such boards are rows.

use crate::expect::{expect_same, expect_that};
use crate::positions::{Position, points, problem_of};
use full_search::first_win;
use go_points::Colour;
use pn_search::{Budget, Verdict, solve};
use proof_cert::{Certificate, Version, write_cert};
use std::alloc::Global;
use std::num::NonZeroUsize;
use std::process::Abort;
use target_game::{Problem, Within, decide_within};

// The problem on 3 by 3 whose present colouring is the last of its history.
fn problem(
    rt: &impl Abort,
    alloc: Global,
    texts: &[&str],
    mover: Colour,
    target: &str,
    region: &str,
) -> Problem {
    let position = Position {
        rows: 3,
        texts,
        mover,
        passes: 0,
        targets: target,
        region,
    };
    problem_of(rt, alloc, &position)
}

fn budget(rt: &impl Abort, steps: u64) -> Budget {
    Budget {
        steps,
        table: NonZeroUsize::new(100).expect(rt, "a size"),
    }
}

// Whether the claim is the one of this text.
fn is_claim(rt: &impl Abort, alloc: Global, certificate: &Certificate, text: &str) -> bool {
    let mut out = Vec::new(alloc);
    write_cert(certificate, &mut out).expect(rt, "memory");
    out.as_slice() == text.as_bytes()
}

// Whether full search finds the claim of this text with exactly this many steps, of which it makes `made`, and nothing with one
// fewer. Within k turns it meets no more states than a (k + 1)th of the steps.
fn finds(
    rt: &impl Abort,
    alloc: Global,
    problem: &Problem,
    steps: u64,
    made: u64,
    text: &str,
) -> bool {
    let mut fewer = steps.saturating_sub(1);
    let nothing = first_win(alloc, problem, 0, &mut fewer).expect(rt, "memory");
    if nothing.is_some() {
        return false;
    }
    let mut left = steps;
    let Some((winner, main)) = first_win(alloc, problem, 0, &mut left).expect(rt, "memory") else {
        return false;
    };
    let certificate = Certificate {
        version: Version::One,
        size: problem.size(),
        winner,
        lemmas: Vec::new(alloc),
        main,
    };
    left == steps.saturating_sub(made) && is_claim(rt, alloc, &certificate, text)
}

// White's aa is in atari, and Black takes it. Only the start is expanded, once; the start and the state after the move are met.
#[test]
fn a_capture_of_one_turn(rt: HostRuntime) {
    let alloc = rt.alloc();
    let text = "tsucert 1 3 B\nmain\nplay ba\nwon\nend\n";
    let corner = problem(&rt, alloc, &["O..X....."], Colour::Black, "aa", "ba");
    expect_that(&rt, finds(&rt, alloc, &corner, 4, 1, text));
}

// White to move fills ba, and two passes follow. Within one turn the start is expanded; within two turns, also the states after ba
// and after the pass; within three turns, the start, the state after ba and the one after Black's pass. Three, five and three
// states are met, and a third of 15 steps is five.
#[test]
fn a_liberty_filled(rt: HostRuntime) {
    let alloc = rt.alloc();
    let text = "tsucert 1 3 W\nmain\nplay ba\nall 1\nreply pass\nplay pass\nwon\nend\n";
    let corner = problem(&rt, alloc, &["O..X....."], Colour::White, "aa", "ba");
    expect_that(&rt, finds(&rt, alloc, &corner, 15, 7, text));
}

// Black may not take the ko again, so it passes, and White passes: the start, and then the start and the state after it. Two
// states are met within one turn, and two within two.
#[test]
fn a_ko_that_is_barred(rt: HostRuntime) {
    let alloc = rt.alloc();
    let text = "tsucert 1 3 W\nmain\nall 1\nreply pass\nplay pass\nwon\nend\n";
    let texts = [".XOXO....", "O.OXO...."];
    let barred = problem(&rt, alloc, &texts, Colour::Black, "aa", "ba");
    expect_that(&rt, finds(&rt, alloc, &barred, 6, 3, text));
}

// Both of White's moves are suicides of one stone, so White may only pass.
#[test]
fn no_move_is_legal(rt: HostRuntime) {
    let alloc = rt.alloc();
    let text = "tsucert 1 3 B\nmain\nall 1\nreply pass\nplay pass\nwon\nend\n";
    let eyes = problem(&rt, alloc, &[".XXXXXXX."], Colour::White, "bb", "aacc");
    expect_that(&rt, finds(&rt, alloc, &eyes, 6, 3, text));
}

// With no states nothing is decided, at any depth.
#[test]
fn no_states_decide_nothing(rt: HostRuntime) {
    let alloc = rt.alloc();
    let corner = problem(&rt, alloc, &["O..X....."], Colour::Black, "aa", "ba");
    let now = decide_within(alloc, &corner, 0, 0).expect(&rt, "memory");
    expect_that(&rt, now == Within::Limit);
    let later = decide_within(alloc, &corner, 200, 0).expect(&rt, "memory");
    expect_that(&rt, later == Within::Limit);
}

// With no steps nothing is found, and the problem is handed back.
#[test]
fn a_problem_is_handed_back(rt: HostRuntime) {
    let alloc = rt.alloc();
    let texts = [".XOXO....", "O.OXO...."];
    let barred = problem(&rt, alloc, &texts, Colour::Black, "aa", "ba");
    match solve(alloc, barred, budget(&rt, 0)) {
        Verdict::Wins(_) => panic!(&rt; "no claim"),
        Verdict::Unknown {
            problem: rest,
            cause: _,
            steps,
        } => {
            expect_same(&rt, steps, 0);
            expect_same(&rt, rest.history().len(), 2);
            expect_same(&rt, rest.place(), 1);
            expect_same(&rt, rest.mover(), Colour::Black);
            expect_same(&rt, rest.passes(), 0);
            expect_that(&rt, *rest.targets() == points(&rt, 3, "aa"));
            expect_that(&rt, *rest.region() == points(&rt, 3, "ba"));
        }
    }
}

// Only the steps above the floor count: with 14 steps the fifth state within two turns is one too many, after four steps.
#[test]
fn full_search_stops_at_its_floor(rt: HostRuntime) {
    let alloc = rt.alloc();
    let corner = problem(&rt, alloc, &["O..X....."], Colour::White, "aa", "ba");
    let mut left = 100;
    expect_that(
        &rt,
        first_win(alloc, &corner, 86, &mut left)
            .expect(&rt, "memory")
            .is_none(),
    );
    expect_same(&rt, left, 96);
    let mut enough = 100;
    expect_that(
        &rt,
        first_win(alloc, &corner, 85, &mut enough)
            .expect(&rt, "memory")
            .is_some(),
    );
    expect_same(&rt, enough, 93);
}
