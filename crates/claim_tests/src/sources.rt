//! The checker over a reader that fails after its bytes.

use crate::small_problems::{expect_judged, problem, refused};
use cert_check::{Reject, Why, check};
use go_points::Colour;
use proof_cert::ReaderSource;
use std::alloc::Global;
use std::io;
use std::io::{ErrorKind, Read};
use std::process::Abort;

// Gives a text in pieces of seven bytes, and then fails.
#[derive(Drop)]
struct Failing<'a> {
    left: &'a [u8],
}

impl<'a> Read for Failing<'a> {
    ghost use Rattle.std.specs.Prelude.{Some};

    ghost remaining = { λ r. Some r.left.now };

    fn read(&mut self, buf: &mut [u8]) -> io::Result<usize> {
        if self.left.is_empty() {
            return Err(io::Error::from(ErrorKind::Other));
        }
        let count = self.left.len().min(buf.len()).min(7);
        let (front, rest) = self.left.split_at(count);
        buf[..count].copy_from_slice(front);
        self.left = rest;
        Ok(count)
    }
}

// Gives a text, and then the same line for ever, a line at a time.
#[derive(Drop)]
struct Endless<'a> {
    left: &'a [u8],
    line: &'a [u8],
}

impl<'a> Read for Endless<'a> {
    ghost use Rattle.std.specs.Prelude.{None};

    ghost remaining = { λ r. None };

    fn read(&mut self, buf: &mut [u8]) -> io::Result<usize> {
        if self.left.is_empty() {
            self.left = self.line;
        }
        let count = self.left.len().min(buf.len());
        let (front, rest) = self.left.split_at(count);
        buf[..count].copy_from_slice(front);
        self.left = rest;
        Ok(count)
    }
}

// The answer if these bytes come, and then a read fails.
fn answer_behind(rt: &impl Abort, alloc: Global, text: &str) -> Result<Colour, Reject> {
    let problem = problem(alloc, rt, 3, &["O..X....."], Colour::Black, &[(1, 0)]);
    let reader = Failing {
        left: text.as_bytes(),
    };
    let mut source = ReaderSource::new(problem.size(), b"".as_slice(), reader);
    check(alloc, &problem, &mut source)
}

#[test]
fn a_line_that_cannot_be_read(rt: HostRuntime) {
    let none = answer_behind(&rt, rt.alloc(), "");
    expect_judged(&rt, none, refused(1, Why::Read));
    let some = answer_behind(&rt, rt.alloc(), "tsucert 1 3 B\nmain\nplay ba\n");
    expect_judged(&rt, some, refused(4, Why::Read));
    let part = answer_behind(&rt, rt.alloc(), "tsucert 1 3 B\nmain\nplay b");
    expect_judged(&rt, part, refused(3, Why::Read));
    let whole = answer_behind(&rt, rt.alloc(), "tsucert 1 3 B\nmain\nplay ba\nwon\nend\n");
    expect_judged(&rt, whole, refused(6, Why::Read));
}

#[test]
fn faults_before_a_line_that_cannot_be_read(rt: HostRuntime) {
    let faulty = answer_behind(&rt, rt.alloc(), "tsucert 1 3 B\nmain\nplay pass\nwon\n");
    expect_judged(&rt, faulty, refused(4, Why::NotWon));
    let more = answer_behind(
        &rt,
        rt.alloc(),
        "tsucert 1 3 B\nmain\nplay ba\nwon\nend\nmain\n",
    );
    expect_judged(&rt, more, refused(6, Why::TextAfterEnd));
    let malformed = answer_behind(&rt, rt.alloc(), "tsucert 1 3 B\nmain\nplay\n");
    expect_judged(&rt, malformed, refused(3, Why::Malformed));
}

// White would have to reply to the first pass, so the second one is refused, and no line after it is asked for.
#[test]
fn passes_for_ever(rt: HostRuntime) {
    let alloc = rt.alloc();
    let problem = problem(alloc, &rt, 3, &["O..X....."], Colour::Black, &[(1, 0)]);
    let reader = Endless {
        left: b"tsucert 1 3 B\nmain\n".as_slice(),
        line: b"play pass\n".as_slice(),
    };
    let mut source = ReaderSource::new(problem.size(), b"".as_slice(), reader);
    expect_judged(
        &rt,
        check(alloc, &problem, &mut source),
        refused(4, Why::WrongSide),
    );
}
