//! The lines of short claims, read and written.

use crate::claims::size_of;
use crate::expect::{expect_bytes, expect_number, expect_that};
use go_points::{Colour, Turn};
use proof_cert::{
    Certificate, Line, Node, NodeSource, ReaderSource, SourceFault, Version, write_short,
};
use std::process::Abort;

const CLAIM: &str = "tsushort 1 3 W\nmain\nplay ba\nalive\nend\n";

fn expect_line(rt: &impl Abort, found: Option<Line>, wanted: Option<Line>) {
    assert_eq!(rt; found, wanted);
}

fn expect_next(
    rt: &impl Abort,
    found: Result<Option<Line>, SourceFault>,
    wanted: Result<Option<Line>, SourceFault>,
) {
    assert_eq!(rt; found, wanted);
}

fn short_line(rt: &impl Abort, text: &str) -> Option<Line> {
    Line::from_short_text(size_of(rt, 3), text.as_bytes())
}

fn middle_of_the_first_row(rt: &impl Abort) -> Turn {
    Turn::At(size_of(rt, 3).point(1, 0).expect(rt, "a point"))
}

#[test]
fn first_lines_and_leaves_of_short_claims(rt: HostRuntime) {
    let header = Line::Header {
        version: Version::Two,
        size: 19,
        winner: Colour::Black,
    };
    expect_line(&rt, short_line(&rt, "tsushort 1 19 B"), Some(header));
    expect_line(&rt, short_line(&rt, "alive"), Some(Line::Use(0)));
    expect_line(&rt, short_line(&rt, "won"), Some(Line::Won));
    expect_line(&rt, short_line(&rt, "use 7"), Some(Line::Use(7)));
    expect_line(
        &rt,
        short_line(&rt, "reply pass"),
        Some(Line::Reply(Turn::Pass)),
    );
}

#[test]
fn bytes_that_spell_no_line_of_a_short_claim(rt: HostRuntime) {
    for text in [
        "tsucert 1 3 B",
        "tsucert 2 3 B",
        "tsushort 2 3 B",
        "tsushort 1 0 B",
        "tsushort 1 3 b",
        "tsushort 1 3 B ",
        "use 0",
        "alive ",
        "alive 1",
        "Alive",
        "",
    ] {
        expect_line(&rt, short_line(&rt, text), None);
    }
}

#[test]
fn ordinary_claims_have_no_such_lines(rt: HostRuntime) {
    for text in ["tsushort 1 3 B", "alive", "use 0"] {
        expect_line(&rt, Line::from_text(size_of(&rt, 3), text.as_bytes()), None);
    }
}

#[test]
fn a_reader_of_a_short_claim(rt: HostRuntime) {
    let mut nothing = b"".as_slice();
    let mut source = ReaderSource::of_short(size_of(&rt, 3), CLAIM.as_bytes(), &mut nothing);
    for _ in 0..3 {
        expect_that(&rt, source.next().is_ok());
        expect_that(&rt, !source.is_alive());
    }
    expect_next(&rt, source.next(), Ok(Some(Line::Use(0))));
    expect_that(&rt, source.is_alive());
    expect_next(&rt, source.next(), Ok(Some(Line::End)));
    expect_that(&rt, !source.is_alive());
    expect_next(&rt, source.next(), Ok(None));
    expect_number(&rt, source.line_number(), 5);
    let mut ordinary = ReaderSource::new(size_of(&rt, 3), CLAIM.as_bytes(), &mut nothing);
    expect_next(&rt, ordinary.next(), Err(SourceFault::Malformed));
}

#[test]
fn a_short_claim_is_written_as_it_is_read(rt: HostRuntime) {
    let alloc = rt.alloc();
    let below = Box::new(alloc, Node::Use(0)).expect(&rt, "memory");
    let certificate = Certificate {
        version: Version::Two,
        size: size_of(&rt, 3),
        winner: Colour::White,
        lemmas: Vec::new(alloc),
        main: Node::Play(middle_of_the_first_row(&rt), below),
    };
    let mut text = Vec::new(alloc);
    expect_that(&rt, write_short(&certificate, &mut text).is_ok());
    expect_bytes(&rt, text.as_slice(), CLAIM.as_bytes());
}
