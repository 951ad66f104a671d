//! Lines that a reader gives, however it cuts its bytes, and where it fails.

use crate::expect::{expect_count, expect_number, expect_that};
use crate::pieces::Pieces;
use go_points::{Colour, MAX_POINTS, MAX_SIZE, Size, Turn};
use proof_cert::{Line, MAX_LINE, NodeSource, ReaderSource, SourceFault, Version};
use std::io::Read;
use std::process::Abort;

const CLAIM: &str =
    "tsucert 1 3 B\nlemma B 0 O.OXO....\nnot .XOXO....\nplay ba\nwon\nend\nmain\nuse 1\nend\n";

fn three(rt: &impl Abort) -> Size {
    Size::new(3).expect(rt, "a size")
}

// How many lines come before the end or the fault, and the fault.
fn count<R: Read + Drop>(size: Size, reader: R) -> (u64, Option<SourceFault>) {
    let mut source = ReaderSource::new(size, b"".as_slice(), reader);
    for lines in 0..100_000u64 {
        match source.next() {
            Ok(Some(_)) => {}
            Ok(None) => return (lines, None),
            Err(fault) => return (lines, Some(fault)),
        }
    }
    (100_000, None)
}

fn expect_line(
    rt: &impl Abort,
    found: Result<Option<Line>, SourceFault>,
    wanted: Result<Option<Line>, SourceFault>,
) {
    assert_eq!(rt; found, wanted);
}

fn expect_feeds(
    rt: &impl Abort,
    found: (u64, Option<SourceFault>),
    wanted: (u64, Option<SourceFault>),
) {
    assert_eq!(rt; found, wanted);
}

#[test]
fn the_same_lines_however_the_bytes_are_cut(rt: HostRuntime) {
    for piece in [1, 2, 7, 4_096] {
        let pieces = Pieces {
            left: CLAIM.as_bytes(),
            piece,
            fails: false,
        };
        let mut source = ReaderSource::new(three(&rt), b"".as_slice(), pieces);
        expect_line(
            &rt,
            source.next(),
            Ok(Some(Line::Header {
                version: Version::One,
                size: 3,
                winner: Colour::Black,
            })),
        );
        for _ in 0..3 {
            expect_that(&rt, source.next().is_ok());
        }
        expect_line(&rt, source.next(), Ok(Some(Line::Won)));
        expect_number(&rt, source.line_number(), 5);
        for line in [Line::End, Line::Main, Line::Use(1), Line::End] {
            expect_line(&rt, source.next(), Ok(Some(line)));
        }
        expect_line(&rt, source.next(), Ok(None));
        expect_number(&rt, source.line_number(), 9);
    }
}

#[test]
fn a_reader_that_fails(rt: HostRuntime) {
    let size = three(&rt);
    let bytes = CLAIM.as_bytes();
    let mut feeds = 0u64;
    for end in 0..bytes.len() {
        let left = &bytes[..end];
        let pieces = Pieces {
            left,
            piece: 5,
            fails: true,
        };
        expect_feeds(&rt, count(size, pieces), (feeds, Some(SourceFault::Read)));
        let cut = Pieces {
            left,
            piece: 5,
            fails: false,
        };
        let is_whole = left.is_empty() || left[left.len() - 1] == b'\n';
        let fault = if is_whole {
            None
        } else {
            Some(SourceFault::Malformed)
        };
        expect_feeds(&rt, count(size, cut), (feeds, fault));
        if bytes[end] == b'\n' {
            feeds = feeds.saturating_add(1);
        }
    }
}

#[test]
fn the_longest_line(rt: HostRuntime) {
    let size = Size::new(MAX_SIZE).expect(&rt, "a size");
    let mut text = Vec::new(rt.alloc());
    text.extend_from_slice(b"lemma B 0 ").expect(&rt, "memory");
    for _ in 0..MAX_POINTS {
        text.push(b'.').expect(&rt, "memory");
    }
    expect_count(&rt, text.len(), 635);
    expect_count(&rt, MAX_LINE, 635);
    let mut longer = text.clone().expect(&rt, "memory");
    text.push(b'\n').expect(&rt, "memory");
    let malformed = (0, Some(SourceFault::Malformed));
    expect_feeds(&rt, count(size, longer.as_slice()), malformed);
    longer.push(b'.').expect(&rt, "memory");
    expect_feeds(&rt, count(size, longer.as_slice()), malformed);
    longer.push(b'\n').expect(&rt, "memory");
    expect_feeds(&rt, count(size, text.as_slice()), (1, None));
    expect_feeds(&rt, count(size, longer.as_slice()), malformed);
}

#[test]
fn a_fault_stays(rt: HostRuntime) {
    let mut source = ReaderSource::new(
        three(&rt),
        b"".as_slice(),
        b"won\n\nplay pass\n".as_slice(),
    );
    expect_line(&rt, source.next(), Ok(Some(Line::Won)));
    for _ in 0..3 {
        expect_line(&rt, source.next(), Err(SourceFault::Malformed));
    }
    expect_number(&rt, source.line_number(), 2);
    let mut good = ReaderSource::new(three(&rt), b"".as_slice(), b"play pass\n".as_slice());
    expect_line(&rt, good.next(), Ok(Some(Line::Play(Turn::Pass))));
}

// A line may begin in the bytes that are held and end in the reader's.
#[test]
fn the_same_lines_wherever_the_front_ends(rt: HostRuntime) {
    let bytes = CLAIM.as_bytes();
    for end in 0..bytes.len() {
        let pieces = Pieces {
            left: &bytes[end..],
            piece: 3,
            fails: false,
        };
        let mut source = ReaderSource::new(three(&rt), &bytes[..end], pieces);
        for _ in 0..8 {
            expect_that(&rt, source.next().is_ok());
        }
        expect_line(&rt, source.next(), Ok(Some(Line::End)));
        expect_line(&rt, source.next(), Ok(None));
    }
}
