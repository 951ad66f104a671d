//! What values of records stand for, on boards of every size, and what the faults of a record are called.

use crate::expect::{expect_same, expect_text, expect_that};
use go_points::{MAX_SIZE, Size, Turn, to_sgf};
use sgf_text::read_tree;
use std::alloc::Global;
use std::process::Abort;
use tsumego_problem::{ProblemFault, SingleProperty, TurnFaultCause, points_at, read_turn};

fn expect_turn(rt: &impl Abort, found: Option<Turn>, wanted: Option<Turn>) {
    assert_eq!(rt; found, wanted);
}

#[test]
fn reads_moves_at_every_point_of_every_board(rt: HostRuntime) {
    for rows in 1..MAX_SIZE + 1 {
        let size = Size::new(rows).expect(&rt, "a size");
        for number in 0..size.area() {
            let point = size.point_at(number);
            expect_turn(&rt, read_turn(size, &to_sgf(point)), Some(Turn::At(point)));
        }
    }
}

#[test]
fn reads_tt_as_a_point_where_it_is_one(rt: HostRuntime) {
    for rows in 1..MAX_SIZE + 1 {
        let size = Size::new(rows).expect(&rt, "a size");
        let turn = match size.point(19, 19) {
            Some(point) => Turn::At(point),
            None => Turn::Pass,
        };
        expect_turn(&rt, read_turn(size, b"tt"), Some(turn));
        expect_turn(&rt, read_turn(size, b" tt "), Some(turn));
        expect_same(&rt, turn == Turn::Pass, rows <= 19);
    }
}

// Whether AB of the first node has no points on a board of 3 by 3.
fn has_no_points(alloc: Global, rt: &impl Abort, text: &[u8]) -> bool {
    let size = Size::new(3).expect(rt, "a size");
    let (tree, _end) = read_tree(alloc, text).expect(rt, "a tree");
    let nodes = tree.nodes();
    points_at(size, b"AB", &nodes[0]).is_empty()
}

// A value that is no point takes the others of its property along.
#[test]
fn a_bad_point_leaves_none(rt: HostRuntime) {
    let alloc = rt.alloc();
    let bad: [&[u8]; 6] = [
        b"(;AB[])",
        b"(;AB[cb:ba])",
        b"(;AB[aa][da])",
        b"(;AB[aa:])",
        b"(;AB[aa :bb])",
        b"(;AB[tt])",
    ];
    for text in bad {
        expect_that(&rt, has_no_points(alloc, &rt, text));
    }
}

#[test]
fn faults_have_texts(rt: HostRuntime) {
    let property = SingleProperty::PL;
    let cause = TurnFaultCause::Repeats { earlier: 3 };
    let rows: [(ProblemFault, &str); 7] = [
        (ProblemFault::Game, "game"),
        (ProblemFault::NoProblemNode, "no problem node"),
        (
            ProblemFault::ManyValues { property, node: 2 },
            "many values of PL",
        ),
        (
            ProblemFault::IllegalTurn { node: 2, cause },
            "illegal turn: repeats 3",
        ),
        (ProblemFault::NoLiberty { node: 0 }, "no liberty"),
        (ProblemFault::LongHistory { node: 0 }, "long history"),
        (ProblemFault::Memory, "out of memory"),
    ];
    for (fault, text) in rows {
        expect_text(
            &rt,
            format!(in rt.alloc(); "{fault}")
                .expect(&rt, "memory")
                .as_str(),
            text,
        );
    }
}
