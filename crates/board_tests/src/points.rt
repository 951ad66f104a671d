//! Small boards by hand, from the rules.

ghost use Rattle.go_points.specs.Place.{IsOn};

use crate::expect::{
    expect_colour, expect_colouring, expect_count, expect_point, expect_same, expect_that,
};
use go_points::{
    Cell, Colour, Colouring, MAX_SIZE, Point, PointSet, Size, Turn, Vertex, gtp_vertex, sgf_point,
    to_gtp, to_sgf,
};
use std::cmp::Ordering;
use std::process::Abort;

fn board(rt: &impl Abort, rows: u8) -> Size {
    Size::new(rows).expect(rt, "a size")
}

fn at(rt: &impl Abort, size: Size, column: u8, row: u8) -> Point
    ensures { IsOn size result }
{
    size.point(column, row).expect(rt, "a point of the board")
}

fn expect_text(rt: &impl Abort, found: &[u8], wanted: &[u8]) {
    assert_eq!(rt; found, wanted);
}

fn expect_reading(rt: &impl Abort, found: Option<Colouring>, wanted: Option<Colouring>) {
    assert_eq!(rt; found, wanted);
}

fn expect_vertex(rt: &impl Abort, found: Option<Vertex>, wanted: Option<Vertex>) {
    assert_eq!(rt; found, wanted);
}

// Expects the neighbours to have these columns and rows.
fn expect_beside(rt: &impl Abort, size: Size, column: u8, row: u8, wanted: &[(u8, u8)]) {
    let found = at(rt, size, column, row).neighbours(size);
    let found = found.as_slice();
    expect_count(rt, found.len(), wanted.len());
    for (point, place) in found.iter().zip(wanted) {
        expect_same(rt, (point.col(), point.row()), *place);
    }
}

#[test]
fn sizes(rt: HostRuntime) {
    expect_same(&rt, Size::new(0), None);
    expect_same(&rt, Size::new(MAX_SIZE + 1), None);
    expect_same(&rt, board(&rt, MAX_SIZE).rows(), MAX_SIZE);
    let size = board(&rt, 3);
    expect_count(&rt, size.area(), 9);
    expect_point(&rt, size.point(3, 0), None);
    expect_point(&rt, size.point(0, 3), None);
    expect_that(&rt, !board(&rt, 2).holds(at(&rt, size, 2, 1)));
    expect_that(&rt, size.holds(at(&rt, size, 2, 1)));
}

#[test]
fn points_by_row(rt: HostRuntime) {
    let size = board(&rt, 3);
    let point = at(&rt, size, 1, 2);
    expect_that(&rt, point.number(size) == 7);
    expect_same(&rt, size.point_at(7), point);
    let mut points = board(&rt, 2).points();
    for (column, row) in [(0, 0), (1, 0), (0, 1), (1, 1)] {
        expect_point(&rt, points.next(), Some(at(&rt, size, column, row)));
    }
    expect_point(&rt, points.next(), None);
}

#[test]
fn neighbours_on_small_boards(rt: HostRuntime) {
    expect_beside(&rt, board(&rt, 1), 0, 0, &[]);
    expect_beside(&rt, board(&rt, 2), 0, 0, &[(1, 0), (0, 1)]);
    expect_beside(&rt, board(&rt, 2), 1, 1, &[(1, 0), (0, 1)]);
    expect_beside(&rt, board(&rt, 3), 1, 1, &[(1, 0), (0, 1), (2, 1), (1, 2)]);
    expect_beside(&rt, board(&rt, 3), 2, 1, &[(2, 0), (1, 1), (2, 2)]);
}

#[test]
fn neighbours_on_the_widest_board(rt: HostRuntime) {
    let size = board(&rt, MAX_SIZE);
    let last = MAX_SIZE - 1;
    expect_beside(&rt, size, last, 0, &[(last - 1, 0), (last, 1)]);
    expect_beside(&rt, size, last, last, &[(last, last - 1), (last - 1, last)]);
    expect_beside(&rt, size, 0, 9, &[(0, 8), (1, 9), (0, 10)]);
    expect_beside(&rt, size, 9, 9, &[(9, 8), (8, 9), (10, 9), (9, 10)]);
}

#[test]
fn cells(rt: HostRuntime) {
    expect_colour(&rt, Colour::Black.opponent(), Colour::White);
    expect_colour(&rt, Colour::White.opponent(), Colour::Black);
    expect_that(&rt, Cell::Empty.is_empty());
    expect_that(&rt, !Cell::Stone(Colour::White).is_empty());
    expect_that(&rt, Cell::Stone(Colour::White).is_stone_of(Colour::White));
    expect_that(&rt, !Cell::Stone(Colour::White).is_stone_of(Colour::Black));
    expect_same(&rt, Turn::default(), Turn::Pass);
}

#[test]
fn texts(rt: HostRuntime) {
    let size = board(&rt, 3);
    let mut colouring = Colouring::empty(size);
    colouring.set(at(&rt, size, 2, 0), Cell::Stone(Colour::White));
    colouring.set(at(&rt, size, 0, 1), Cell::Stone(Colour::Black));
    let text = colouring.to_text(rt.alloc()).expect(&rt, "memory");
    expect_text(&rt, text.as_slice(), b"..OX.....".as_slice());
    expect_reading(
        &rt,
        Colouring::from_text(size, text.as_slice()),
        Some(colouring),
    );
    expect_same(&rt, colouring.size(), size);
}

#[test]
fn texts_that_are_no_colourings(rt: HostRuntime) {
    let size = board(&rt, 2);
    expect_reading(&rt, Colouring::from_text(size, b"..."), None);
    expect_reading(&rt, Colouring::from_text(size, b"....."), None);
    expect_reading(&rt, Colouring::from_text(size, b"...x"), None);
    expect_reading(&rt, Colouring::from_text(size, b"..0."), None);
    expect_reading(&rt, Colouring::from_text(size, b""), None);
}

#[test]
fn order_of_colourings(rt: HostRuntime) {
    let one = board(&rt, 1);
    let two = board(&rt, 2);
    let rising = [
        Colouring::from_text(one, b".").expect(&rt, "a text"),
        Colouring::from_text(two, b"....").expect(&rt, "a text"),
        Colouring::from_text(two, b"...X").expect(&rt, "a text"),
        Colouring::from_text(two, b"..O.").expect(&rt, "a text"),
        Colouring::from_text(two, b"..X.").expect(&rt, "a text"),
        Colouring::from_text(one, b"O").expect(&rt, "a text"),
        Colouring::from_text(two, b"O...").expect(&rt, "a text"),
        Colouring::from_text(one, b"X").expect(&rt, "a text"),
    ];
    for (i, low) in rising.iter().enumerate() {
        for (j, high) in rising.iter().enumerate() {
            expect_same(&rt, low.cmp(high), i.cmp(&j));
            expect_same(&rt, low.partial_cmp(high), Some(i.cmp(&j)));
            expect_same(&rt, low == high, i == j);
        }
    }
}

#[test]
fn letters(rt: HostRuntime) {
    let size = board(&rt, 3);
    expect_point(&rt, sgf_point(size, b"aa"), size.point(0, 0));
    expect_point(&rt, sgf_point(size, b"bc"), size.point(1, 2));
    expect_same(&rt, to_sgf(at(&rt, size, 1, 2)), *b"bc");
    for text in [b"ad", b"da", b"tt", b"Aa", b"aA", b"a`", b"a1", b"  "] {
        expect_point(&rt, sgf_point(size, text), None);
    }
    expect_point(&rt, sgf_point(size, b""), None);
    expect_point(&rt, sgf_point(size, b"a"), None);
    expect_point(&rt, sgf_point(size, b"aaa"), None);
}

#[test]
fn letters_of_every_point_of_every_board(rt: HostRuntime) {
    for rows in 1..MAX_SIZE + 1 {
        let size = board(&rt, rows);
        for row in 0..rows {
            for column in 0..rows {
                let point = at(&rt, size, column, row);
                expect_point(&rt, sgf_point(size, &to_sgf(point)), Some(point));
            }
        }
    }
}

#[test]
fn letters_of_a_pass_name_a_point_on_boards_over_nineteen_rows(rt: HostRuntime) {
    for rows in 1..MAX_SIZE + 1 {
        let size = board(&rt, rows);
        expect_point(&rt, sgf_point(size, b"tt"), size.point(19, 19));
        expect_same(&rt, sgf_point(size, b"tt").is_some(), rows >= 20);
    }
}

#[test]
fn sets(rt: HostRuntime) {
    let size = board(&rt, MAX_SIZE);
    let last = MAX_SIZE - 1;
    let mut set = PointSet::new();
    expect_that(&rt, set.is_empty());
    expect_point(&rt, set.first(), None);
    for (column, row) in [(last, last), (7, 3), (0, 0), (6, 3), (7, 3), (2, 0)] {
        set.insert(at(&rt, size, column, row));
    }
    expect_count(&rt, set.len(), 5);
    let mut left = set.iter();
    for (column, row) in [(0, 0), (2, 0), (6, 3), (7, 3), (last, last)] {
        expect_point(&rt, left.next(), Some(at(&rt, size, column, row)));
    }
    expect_point(&rt, left.next(), None);
    expect_that(&rt, set.has(at(&rt, size, 6, 3)));
    expect_that(&rt, !set.has(at(&rt, size, 3, 6)));
}

#[test]
fn sets_that_lose_points(rt: HostRuntime) {
    let size = board(&rt, 3);
    let mut set = PointSet::new();
    set.insert(at(&rt, size, 1, 1));
    let one = set;
    set.insert(at(&rt, size, 2, 0));
    assert_ne!(rt; set, one);
    set.remove(at(&rt, size, 0, 0));
    set.remove(at(&rt, size, 2, 0));
    expect_same(&rt, set, one);
    expect_point(&rt, set.first(), size.point(1, 1));
    set.remove(at(&rt, size, 1, 1));
    expect_same(&rt, set, PointSet::new());
}

#[test]
fn sets_from_a_point_on(rt: HostRuntime) {
    let size = board(&rt, MAX_SIZE);
    let last = MAX_SIZE - 1;
    let mut set = PointSet::new();
    expect_point(&rt, set.first_from(at(&rt, size, 0, 0)), None);
    for (column, row) in [(2, 0), (6, 3), (7, 3), (last, last)] {
        set.insert(at(&rt, size, column, row));
    }
    for (from, found) in [
        ((0, 0), (2, 0)),
        ((2, 0), (2, 0)),
        ((3, 0), (6, 3)),
        ((0, 3), (6, 3)),
        ((7, 3), (7, 3)),
        ((8, 3), (last, last)),
        ((last, last), (last, last)),
    ] {
        let point = set.first_from(at(&rt, size, from.0, from.1));
        expect_point(&rt, point, Some(at(&rt, size, found.0, found.1)));
    }
    set.remove(at(&rt, size, last, last));
    expect_point(&rt, set.first_from(at(&rt, size, 8, 3)), None);
}

#[test]
fn vertices(rt: HostRuntime) {
    for (text, column, row) in [
        (b"A1".as_slice(), 0, 0),
        (b"a1".as_slice(), 0, 0),
        (b"b03".as_slice(), 1, 2),
        (b"h8".as_slice(), 7, 7),
        (b"J9".as_slice(), 8, 8),
        (b"j11".as_slice(), 8, 10),
        (b"T19".as_slice(), 18, 18),
        (b"Z25".as_slice(), 24, 24),
    ] {
        expect_vertex(&rt, gtp_vertex(text), Some(Vertex::At { column, row }));
    }
    for text in [b"pass".as_slice(), b"PASS".as_slice(), b"Pass".as_slice()] {
        expect_vertex(&rt, gtp_vertex(text), Some(Vertex::Pass));
    }
    for text in [
        b"".as_slice(),
        b"a".as_slice(),
        b"a0".as_slice(),
        b"a00".as_slice(),
        b"a26".as_slice(),
        b"a001".as_slice(),
        b"a1b".as_slice(),
        b"i5".as_slice(),
        b"I5".as_slice(),
        b"11".as_slice(),
        b"@1".as_slice(),
        b"[1".as_slice(),
        b"`1".as_slice(),
        b"{1".as_slice(),
        b"a/".as_slice(),
        b"a:".as_slice(),
        b"pas".as_slice(),
        b"passe".as_slice(),
    ] {
        expect_vertex(&rt, gtp_vertex(text), None);
    }
}

#[test]
fn texts_of_vertices(rt: HostRuntime) {
    let three = board(&rt, 3);
    expect_text(
        &rt,
        to_gtp(three, at(&rt, three, 1, 0)).as_slice(),
        b"B3".as_slice(),
    );
    let size = board(&rt, MAX_SIZE);
    expect_text(
        &rt,
        to_gtp(size, at(&rt, size, 24, 0)).as_slice(),
        b"Z25".as_slice(),
    );
    expect_text(
        &rt,
        to_gtp(size, at(&rt, size, 7, 15)).as_slice(),
        b"H10".as_slice(),
    );
    expect_text(
        &rt,
        to_gtp(size, at(&rt, size, 0, 24)).as_slice(),
        b"A1".as_slice(),
    );
    let nineteen = board(&rt, 19);
    expect_text(
        &rt,
        to_gtp(nineteen, at(&rt, nineteen, 8, 0)).as_slice(),
        b"J19".as_slice(),
    );
}

#[test]
fn vertices_of_every_point_of_every_board(rt: HostRuntime) {
    for rows in 1..MAX_SIZE + 1 {
        let size = board(&rt, rows);
        for row in 0..rows {
            for column in 0..rows {
                let text = to_gtp(size, at(&rt, size, column, row));
                let vertex = Vertex::At {
                    column,
                    row: rows - 1 - row,
                };
                expect_vertex(&rt, gtp_vertex(text.as_slice()), Some(vertex));
            }
        }
    }
}

#[test]
fn colourings_differ_from_a_point_on(rt: HostRuntime) {
    let size = board(&rt, MAX_SIZE);
    let last = MAX_SIZE - 1;
    let mut one = Colouring::empty(size);
    let mut other = Colouring::empty(size);
    one.set(at(&rt, size, 2, 0), Cell::Stone(Colour::Black));
    other.set(at(&rt, size, 2, 0), Cell::Stone(Colour::White));
    other.set(at(&rt, size, last, last), Cell::Stone(Colour::White));
    expect_count(&rt, one.next_difference(&other, 0), 2);
    expect_count(&rt, one.next_difference(&other, 3), 624);
    expect_that(&rt, one.next_difference(&other, 625) >= size.area());
    expect_that(&rt, one.next_difference(&one, 0) >= size.area());
}

#[test]
fn the_widest_board_full_but_for_a_point(rt: HostRuntime) {
    let size = board(&rt, MAX_SIZE);
    let mut text = Vec::new(rt.alloc());
    for number in 0..size.area() {
        text.push(if number == 312 {
            b'.'
        } else if number % 2 == 0 {
            b'X'
        } else {
            b'O'
        })
        .expect(&rt, "memory");
    }
    let colouring = Colouring::from_text(size, text.as_slice()).expect(&rt, "a text");
    let back = colouring.to_text(rt.alloc()).expect(&rt, "memory");
    expect_text(&rt, back.as_slice(), text.as_slice());
    let mut full = colouring;
    let middle = at(&rt, full.size(), 12, 12);
    full.set(middle, Cell::Stone(Colour::White));
    assert_ne!(rt; full, colouring);
    expect_that(&rt, colouring < full);
    let middle = at(&rt, full.size(), 12, 12);
    full.set(middle, Cell::Empty);
    expect_colouring(&rt, full, colouring);
}
