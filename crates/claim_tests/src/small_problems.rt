//! Problems on small boards, and the answers to texts of claims for them.

use cert_check::{Reject, Why, check};
use go_points::{Colour, Colouring, Point, PointSet, Size};
use proof_cert::ReaderSource;
use std::alloc::Global;
use std::process::Abort;
use target_game::Problem;

pub(crate) fn point(rt: &impl Abort, rows: u8, column: u8, row: u8) -> Point {
    Size::new(rows)
        .expect(rt, "a size")
        .point(column, row)
        .expect(rt, "a point")
}

fn points(rt: &impl Abort, rows: u8, places: &[(u8, u8)]) -> PointSet {
    let mut set = PointSet::new();
    for (column, row) in places {
        set.insert(point(rt, rows, *column, *row));
    }
    set
}

// These colourings have occurred, the first is the present one, and the target is the upper left point.
pub(crate) fn problem(
    alloc: Global,
    rt: &impl Abort,
    rows: u8,
    texts: &[&str],
    mover: Colour,
    region: &[(u8, u8)],
) -> Problem {
    let size = Size::new(rows).expect(rt, "a size");
    let mut history = Vec::new(alloc);
    for text in texts {
        let colouring = Colouring::from_text(size, text.as_bytes()).expect(rt, "a colouring");
        history.push(colouring).expect(rt, "memory");
    }
    Problem::new(
        history,
        0,
        mover,
        0,
        points(rt, rows, &[(0, 0)]),
        points(rt, rows, region),
    )
    .expect(rt, "a problem")
}

// Black's only turn in the region would bring back a colouring that has occurred.
pub(crate) fn barred_by_the_past(alloc: Global, rt: &impl Abort) -> Problem {
    problem(
        alloc,
        rt,
        3,
        &["O.OXO....", ".XOXO...."],
        Colour::Black,
        &[(1, 0)],
    )
}

// The answer to a text.
pub(crate) fn judged(alloc: Global, problem: &Problem, text: &[u8]) -> Result<Colour, Reject> {
    check(
        alloc,
        problem,
        &mut ReaderSource::new(problem.size(), text, b"".as_slice()),
    )
}

pub(crate) fn refused(place: u64, why: Why) -> Result<Colour, Reject> {
    Err(Reject { place, why })
}

// Expects this answer. (The prover does not accept a `Reject` passed by value for a type parameter.)
pub(crate) fn expect_judged(
    rt: &impl Abort,
    found: Result<Colour, Reject>,
    wanted: Result<Colour, Reject>,
) {
    assert_eq!(rt; found, wanted);
}
