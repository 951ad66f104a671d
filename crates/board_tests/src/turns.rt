//! Games on small boards and on the widest, with results worked out by the rules.

ghost use Rattle.go_points.specs.Place.{IsOn};

use crate::expect::{
    expect_colouring, expect_count, expect_number, expect_optional_colour, expect_optional_count,
    expect_same, expect_that,
};
use go_points::{Cell, Colour, Colouring, Point, Size, Turn, sgf_point};
use go_turns::*;
use std::alloc::Global;
use std::process::Abort;

// The colouring with this text: `.` for empty, `X` for black, `O` for white, row by row.
pub fn painted(size: Size, text: &str) -> Colouring {
    let mut colouring = Colouring::empty(size);
    for (number, byte) in text.as_bytes().iter().enumerate() {
        let size = colouring.size();
        if number < size.area() {
            let cell = match *byte {
                b'X' => Cell::Stone(Colour::Black),
                b'O' => Cell::Stone(Colour::White),
                _ => Cell::Empty,
            };
            colouring.set(size.point_at(number), cell);
        }
    }
    colouring
}

fn at(size: Size, column: u8, row: u8) -> Turn {
    match size.point(column, row) {
        Some(point) => Turn::At(point),
        None => Turn::Pass,
    }
}

pub fn board(rt: &impl Abort, rows: u8) -> Size {
    Size::new(rows).expect(rt, "a size")
}

pub fn point(rt: &impl Abort, size: Size, column: u8, row: u8) -> Point
    ensures { IsOn size result }
{
    size.point(column, row).expect(rt, "a point")
}

pub fn expect_done(rt: &impl Abort, found: Result<(), TurnFault>, wanted: Result<(), TurnFault>) {
    assert_eq!(rt; found, wanted);
}

fn empty_record(rt: &impl Abort, alloc: Global, size: Size) -> PlayRecord {
    PlayRecord::new(alloc, &Colouring::empty(size)).expect(rt, "memory")
}

// Expects the move of this colour in this column and row to have this outcome.
fn expect_played(
    rt: &impl Abort,
    record: &mut PlayRecord,
    colour: Colour,
    place: (u8, u8),
    wanted: Result<(), TurnFault>,
) {
    let turn = at(record.size(), place.0, place.1);
    expect_done(rt, record.play(colour, turn), wanted);
}

// Expects the record to be at these cells.
fn expect_cells(rt: &impl Abort, record: &PlayRecord, text: &str) {
    expect_colouring(rt, record.colouring(), painted(record.size(), text));
}

#[test]
fn a_ko_may_not_be_retaken(rt: HostRuntime) {
    let size = board(&rt, 3);
    let mut record = empty_record(&rt, rt.alloc(), size);
    expect_played(&rt, &mut record, Colour::Black, (1, 0), Ok(()));
    expect_played(&rt, &mut record, Colour::White, (2, 0), Ok(()));
    expect_played(&rt, &mut record, Colour::Black, (0, 1), Ok(()));
    expect_played(&rt, &mut record, Colour::White, (1, 1), Ok(()));
    expect_played(&rt, &mut record, Colour::White, (0, 0), Ok(()));
    expect_cells(&rt, &record, "O.OXO....");
    expect_played(
        &rt,
        &mut record,
        Colour::Black,
        (1, 0),
        Err(TurnFault::Repeats { earlier: 4 }),
    );
    expect_cells(&rt, &record, "O.OXO....");
    expect_count(&rt, record.seen().len(), 6);
    expect_done(&rt, record.undo(), Ok(()));
    expect_cells(&rt, &record, ".XOXO....");
    expect_count(&rt, record.seen().len(), 5);
    expect_played(&rt, &mut record, Colour::White, (0, 0), Ok(()));
    expect_cells(&rt, &record, "O.OXO....");
}

#[test]
fn two_stones_may_die_by_their_own_move(rt: HostRuntime) {
    let size = board(&rt, 3);
    let mut record = empty_record(&rt, rt.alloc(), size);
    expect_played(&rt, &mut record, Colour::Black, (0, 0), Ok(()));
    expect_played(&rt, &mut record, Colour::White, (0, 1), Ok(()));
    expect_played(&rt, &mut record, Colour::White, (1, 1), Ok(()));
    expect_played(&rt, &mut record, Colour::White, (2, 0), Ok(()));
    expect_cells(&rt, &record, "X.OOO....");
    expect_played(&rt, &mut record, Colour::Black, (1, 0), Ok(()));
    expect_cells(&rt, &record, "..OOO....");
    expect_played(&rt, &mut record, Colour::White, (1, 0), Ok(()));
    expect_played(
        &rt,
        &mut record,
        Colour::Black,
        (0, 0),
        Err(TurnFault::Repeats { earlier: 6 }),
    );
    expect_played(
        &rt,
        &mut record,
        Colour::Black,
        (1, 1),
        Err(TurnFault::Occupied),
    );
    expect_optional_colour(&rt, record.last_colour(), Some(Colour::White));
}

#[test]
fn one_point_has_no_legal_move(rt: HostRuntime) {
    let size = board(&rt, 1);
    let mut record = empty_record(&rt, rt.alloc(), size);
    expect_played(
        &rt,
        &mut record,
        Colour::Black,
        (0, 0),
        Err(TurnFault::Repeats { earlier: 0 }),
    );
    expect_optional_colour(&rt, record.last_colour(), None);
    expect_done(&rt, record.undo(), Err(TurnFault::CannotUndo));
    expect_done(&rt, record.play(Colour::White, Turn::Pass), Ok(()));
    expect_done(&rt, record.play(Colour::Black, Turn::Pass), Ok(()));
    expect_number(&rt, record.passes(), 2);
    expect_optional_colour(&rt, record.last_colour(), Some(Colour::Black));
    expect_done(&rt, record.undo(), Ok(()));
    expect_number(&rt, record.passes(), 1);
    expect_optional_colour(&rt, record.last_colour(), Some(Colour::White));
    let wide = board(&rt, 2);
    expect_done(
        &rt,
        record.play(Colour::Black, at(wide, 1, 0)),
        Err(TurnFault::OffBoard),
    );
    expect_same(&rt, record.size(), size);
}

#[test]
fn a_stone_without_liberty_is_taken(rt: HostRuntime) {
    let size = board(&rt, 2);
    let mut record = empty_record(&rt, rt.alloc(), size);
    expect_played(&rt, &mut record, Colour::Black, (0, 0), Ok(()));
    expect_played(&rt, &mut record, Colour::White, (1, 0), Ok(()));
    expect_played(&rt, &mut record, Colour::Black, (1, 1), Ok(()));
    expect_cells(&rt, &record, "X..X");
    expect_played(
        &rt,
        &mut record,
        Colour::White,
        (0, 1),
        Err(TurnFault::Repeats { earlier: 3 }),
    );
    expect_played(
        &rt,
        &mut record,
        Colour::White,
        (1, 0),
        Err(TurnFault::Repeats { earlier: 3 }),
    );
}

#[test]
fn a_past_forbids(rt: HostRuntime) {
    let size = board(&rt, 3);
    let empty = Colouring::empty(size);
    let corner = painted(size, "X........");
    if corner.size() == empty.size() && empty != corner {
        let mut record = PlayRecord::with_history(rt.alloc(), &[empty, corner], 0, 1).expect(
            &rt, "memory",
        );
        expect_colouring(&rt, record.colouring(), empty);
        expect_number(&rt, record.passes(), 1);
        expect_played(
            &rt,
            &mut record,
            Colour::Black,
            (0, 0),
            Err(TurnFault::Repeats { earlier: 1 }),
        );
        expect_played(&rt, &mut record, Colour::White, (0, 0), Ok(()));
        expect_number(&rt, record.passes(), 0);
    }
}

#[test]
fn a_smothered_opening_is_refused(rt: HostRuntime) {
    let size = board(&rt, 3);
    let point = point(&rt, size, 1, 1);
    let refused = PlayRecord::new(rt.alloc(), &painted(size, ".X.XOX.X.")).err();
    expect_same(&rt, refused, Some(TurnFault::NoLiberty { point }));
}

#[test]
fn a_record_begins_anew(rt: HostRuntime) {
    let size = board(&rt, 3);
    let corner = painted(size, "X........");
    let mut record = PlayRecord::new(rt.alloc(), &corner).expect(&rt, "memory");
    expect_played(&rt, &mut record, Colour::White, (1, 1), Ok(()));
    let smothered = painted(size, ".X.XOX.X.");
    expect_that(&rt, smothered.size() == record.size());
    let point = point(&rt, size, 1, 1);
    expect_done(
        &rt,
        record.reopen(rt.alloc(), &smothered, 0),
        Err(TurnFault::NoLiberty { point }),
    );
    expect_cells(&rt, &record, "X...O....");
    expect_count(&rt, record.seen().len(), 2);
    let other = painted(size, "X.O......");
    expect_that(&rt, other.size() == record.size());
    expect_done(&rt, record.reopen(rt.alloc(), &other, 1), Ok(()));
    expect_colouring(&rt, record.colouring(), other);
    expect_number(&rt, record.passes(), 1);
    expect_optional_colour(&rt, record.last_colour(), None);
    expect_optional_count(&rt, record.seen().holds(&corner), None);
    expect_optional_count(&rt, record.seen().holds(&other), Some(0));
    expect_done(&rt, record.undo(), Err(TurnFault::CannotUndo));
}

#[test]
fn a_setup_is_a_step(rt: HostRuntime) {
    let size = board(&rt, 2);
    let upper_left = point(&rt, size, 0, 0);
    let upper_right = point(&rt, size, 1, 0);
    let lower_left = point(&rt, size, 0, 1);
    let beyond = point(&rt, board(&rt, 3), 2, 0);
    let black = Cell::Stone(Colour::Black);
    let white = Cell::Stone(Colour::White);
    let mut record = empty_record(&rt, rt.alloc(), size);
    expect_done(&rt, record.play(Colour::White, Turn::Pass), Ok(()));
    expect_done(
        &rt,
        record.setup(&[
            (upper_left, white),
            (upper_left, black),
            (upper_right, white),
        ]),
        Ok(()),
    );
    expect_cells(&rt, &record, "XO..");
    expect_number(&rt, record.passes(), 0);
    expect_optional_colour(&rt, record.last_colour(), Some(Colour::White));
    expect_done(
        &rt,
        record.setup(&[(lower_left, white)]),
        Err(TurnFault::NoLiberty { point: upper_left }),
    );
    expect_done(
        &rt,
        record.setup(&[(lower_left, white), (beyond, black)]),
        Err(TurnFault::OffBoard),
    );
    expect_cells(&rt, &record, "XO..");
    expect_done(
        &rt,
        record.setup(&[(upper_left, Cell::Empty), (upper_right, Cell::Empty)]),
        Ok(()),
    );
    expect_count(&rt, record.seen().len(), 2);
    expect_done(&rt, record.undo(), Ok(()));
    expect_done(&rt, record.undo(), Ok(()));
    expect_count(&rt, record.seen().len(), 1);
    expect_number(&rt, record.passes(), 1);
}

#[test]
fn a_turn_is_made_just_where_it_is_legal(rt: HostRuntime) {
    let size = board(&rt, 3);
    let mut record = PlayRecord::new(rt.alloc(), &painted(size, ".XOXO....")).expect(
        &rt,
        "liberties",
    );
    expect_same(
        &rt,
        record.play_if_legal(Colour::White, at(size, 1, 0)).ok(),
        Some(false),
    );
    expect_same(
        &rt,
        record.play_if_legal(Colour::White, at(size, 0, 0)).ok(),
        Some(true),
    );
    expect_same(
        &rt,
        record.play_if_legal(Colour::Black, at(size, 1, 0)).ok(),
        Some(false),
    );
    expect_cells(&rt, &record, "O.OXO....");
    expect_count(&rt, record.seen().len(), 2);
    expect_same(
        &rt,
        record.play_if_legal(Colour::Black, Turn::Pass).ok(),
        Some(true),
    );
    expect_number(&rt, record.passes(), 1);
}

#[test]
fn faults_have_texts(rt: HostRuntime) {
    let point = sgf_point(Size::new(3).expect(&rt, "a size"), b"aa").expect(&rt, "a point");
    let rows: [(TurnFault, &str); 6] = [
        (TurnFault::OffBoard, "off the board"),
        (TurnFault::Occupied, "occupied"),
        (TurnFault::Repeats { earlier: 12 }, "repeats 12"),
        (TurnFault::NoLiberty { point }, "no liberty"),
        (TurnFault::CannotUndo, "cannot undo"),
        (TurnFault::Memory, "out of memory"),
    ];
    for (fault, text) in rows {
        expect_same(
            &rt,
            format!(in rt.alloc(); "{fault}")
                .expect(&rt, "memory")
                .as_str(),
            text,
        );
    }
}
