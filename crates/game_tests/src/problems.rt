//! Problems: their parts, and why they are refused.

use crate::expect::{
    expect_colour, expect_colouring, expect_count, expect_number, expect_same, expect_that,
};
use crate::positions::{board_of, history, points};
use go_points::{Cell, Colour, Colouring, MAX_SIZE, PointSet, Size};
use std::alloc::Global;
use std::process::Abort;
use target_game::{BadProblem, MAX_HISTORY, Problem};

// The refusal of a problem on 3 by 3, if it is refused.
fn refusal(
    rt: &impl Abort,
    alloc: Global,
    texts: &[&str],
    place: usize,
    passes: u64,
    targets: &str,
    region: &str,
) -> Option<BadProblem> {
    let all = history(rt, alloc, 3, texts);
    match Problem::new(
        all,
        place,
        Colour::Black,
        passes,
        points(rt, 3, targets),
        points(rt, 3, region),
    ) {
        Ok(_) => None,
        Err(fault) => Some(fault),
    }
}

fn expect_refusal(rt: &impl Abort, found: Option<BadProblem>, wanted: Option<BadProblem>) {
    assert_eq!(rt; found, wanted);
}

#[test]
fn each_refusal_comes_alone(rt: HostRuntime) {
    let alloc = rt.alloc();
    let fine = ["O..X....."];
    let fine = fine.as_slice();
    expect_refusal(&rt, refusal(&rt, alloc, fine, 0, 1, "aa", "ba"), None);
    expect_refusal(
        &rt,
        refusal(&rt, alloc, &[], 0, 0, "aa", "ba"),
        Some(BadProblem::BadPlace),
    );
    expect_refusal(
        &rt,
        refusal(&rt, alloc, fine, 1, 0, "aa", "ba"),
        Some(BadProblem::BadPlace),
    );
    expect_refusal(
        &rt,
        refusal(&rt, alloc, fine, 0, 0, "", "ba"),
        Some(BadProblem::BadTargets),
    );
    expect_refusal(
        &rt,
        refusal(&rt, alloc, fine, 0, 0, "cc", "ba"),
        Some(BadProblem::BadTargets),
    );
    expect_refusal(
        &rt,
        refusal(&rt, alloc, fine, 0, 0, "aaab", "ba"),
        Some(BadProblem::BadTargets),
    );
    expect_refusal(
        &rt,
        refusal(&rt, alloc, fine, 0, 2, "aa", "ba"),
        Some(BadProblem::Ended),
    );
    expect_refusal(
        &rt,
        refusal(&rt, alloc, fine, 0, 0, "aa", ""),
        Some(BadProblem::EmptyRegion),
    );
    let dead = ["OX.X.....", "O..X....."];
    expect_refusal(
        &rt,
        refusal(&rt, alloc, &dead, 1, 0, "aa", "ba"),
        Some(BadProblem::NoLiberty),
    );
    let twice = ["O..X.....", ".........", "O..X....."];
    expect_refusal(
        &rt,
        refusal(&rt, alloc, &twice, 2, 0, "aa", "ba"),
        Some(BadProblem::Repeated),
    );
}

#[test]
fn the_earlier_refusal_is_named(rt: HostRuntime) {
    let alloc = rt.alloc();
    let fine = ["O..X....."];
    let fine = fine.as_slice();
    expect_refusal(
        &rt,
        refusal(&rt, alloc, fine, 1, 2, "", ""),
        Some(BadProblem::BadPlace),
    );
    expect_refusal(
        &rt,
        refusal(&rt, alloc, fine, 0, 2, "cc", ""),
        Some(BadProblem::BadTargets),
    );
    expect_refusal(
        &rt,
        refusal(&rt, alloc, fine, 0, 2, "aa", ""),
        Some(BadProblem::Ended),
    );
    let dead = ["OX.X.....", "O..X.....", "O..X....."];
    expect_refusal(
        &rt,
        refusal(&rt, alloc, &dead, 1, 0, "aa", ""),
        Some(BadProblem::EmptyRegion),
    );
    expect_refusal(
        &rt,
        refusal(&rt, alloc, &dead, 1, 0, "aa", "ba"),
        Some(BadProblem::NoLiberty),
    );
}

#[test]
fn a_colouring_of_another_size_is_refused(rt: HostRuntime) {
    let mut all = history(&rt, rt.alloc(), 3, &["O..X....."]);
    all.push(Colouring::empty(Size::new(2).expect(&rt, "a size")))
        .expect(&rt, "memory");
    match Problem::new(
        all,
        5,
        Colour::Black,
        0,
        points(&rt, 3, "aa"),
        points(&rt, 3, "ba"),
    ) {
        Ok(_) => expect_that(&rt, false),
        Err(fault) => expect_same(&rt, fault, BadProblem::OtherSize),
    }
}

// This many colourings of the widest board, all different: each has a black stone at one point and a white one at another.
fn long_history(rt: &impl Abort, alloc: Global, count: usize) -> Vec<Colouring> {
    let size = Size::new(MAX_SIZE).expect(rt, "a size");
    let mut all = Vec::new(alloc);
    for number in 0..count {
        let black = number / (size.area() - 1);
        let white = black + 1 + number % (size.area() - 1);
        let mut colouring = Colouring::empty(size);
        if black < size.area() {
            colouring.set(size.point_at(black), Cell::Stone(Colour::Black));
        }
        colouring.set(
            size.point_at(white % size.area()),
            Cell::Stone(Colour::White),
        );
        all.push(colouring).expect(rt, "memory");
    }
    all
}

#[test]
fn a_history_has_a_thousand_colourings_at_most(rt: HostRuntime) {
    let mut targets = PointSet::new();
    let size = Size::new(MAX_SIZE).expect(&rt, "a size");
    targets.insert(size.point(0, 0).expect(&rt, "a point"));
    let fits = long_history(&rt, rt.alloc(), MAX_HISTORY);
    expect_that(
        &rt,
        Problem::new(fits, 0, Colour::White, 0, targets, targets).is_ok(),
    );
    let long = long_history(&rt, rt.alloc(), MAX_HISTORY + 1);
    match Problem::new(long, 0, Colour::White, 0, targets, targets) {
        Ok(_) => expect_that(&rt, false),
        Err(fault) => expect_same(&rt, fault, BadProblem::LongHistory),
    }
}

#[test]
fn a_problem_tells_its_parts(rt: HostRuntime) {
    let all = history(&rt, rt.alloc(), 3, &[".XOXO....", "O.OXO...."]);
    let made = Problem::new(
        all,
        1,
        Colour::Black,
        1,
        points(&rt, 3, "aa"),
        points(&rt, 3, "bacc"),
    );
    let made = made.expect(&rt, "a problem");
    let problem = made.copy(rt.alloc()).expect(&rt, "memory");
    expect_same(&rt, problem.size().rows(), 3);
    expect_count(&rt, problem.history().len(), 2);
    expect_count(&rt, problem.place(), 1);
    expect_colouring(&rt, *problem.colouring(), board_of(&rt, 3, "O.OXO...."));
    expect_colour(&rt, problem.mover(), Colour::Black);
    expect_number(&rt, problem.passes(), 1);
    expect_colour(&rt, problem.defender(), Colour::White);
    expect_same(&rt, *problem.targets(), points(&rt, 3, "aa"));
    expect_same(&rt, *problem.region(), points(&rt, 3, "bacc"));
}

#[test]
fn refusals_have_texts(rt: HostRuntime) {
    let rows: [(BadProblem, &str); 8] = [
        (BadProblem::OtherSize, "other size"),
        (BadProblem::BadPlace, "bad place"),
        (BadProblem::BadTargets, "bad targets"),
        (BadProblem::Ended, "ended"),
        (BadProblem::EmptyRegion, "empty region"),
        (BadProblem::LongHistory, "long history"),
        (BadProblem::NoLiberty, "no liberty"),
        (BadProblem::Repeated, "repeated"),
    ];
    for (fault, text) in rows {
        let shown = format!(in rt.alloc(); "{fault}").expect(&rt, "memory");
        expect_same(&rt, shown.as_str(), text);
    }
}
