//! Runs over memory and over devices that fail.

use crate::devices::{Endless, Faulty, Pieces};
use crate::expect::{expect_status, expect_text, expect_that};
use crate::run::run;
use counted_devices::Counting;
use run_parts::Status;
use std::alloc::Global;
use std::io::ErrorKind;
use std::process::Abort;

// The outcome of these words and this input.
pub fn outcome(alloc: Global, words: &[&str], input: &[u8]) -> (Status, Vec<u8>) {
    let mut reader = Counting::new(input);
    let mut writer = Counting::new(Vec::new(alloc));
    let status = run(alloc, words, &mut reader, &mut writer);
    (status, writer.inner)
}

// Expects this status and this text from the program for these words and this input.
pub fn answers(
    rt: &impl Abort,
    alloc: Global,
    words: &[&str],
    input: &str,
    status: Status,
    text: &str,
) {
    let (ended, written) = outcome(alloc, words, input.as_bytes());
    assert_eq!(rt; ended, status, "{input}");
    assert_eq!(rt; written.as_slice(), text.as_bytes(), "{input}");
}

// Expects this status and this text for a command and an input, in pieces of a few bytes or of many.
fn answers_pieces(
    rt: &impl Abort,
    alloc: Global,
    command: &str,
    input: &str,
    status: Status,
    text: &str,
) {
    for piece in [1, 2, 7, 4_096] {
        let mut reader = Counting::new(Pieces {
            left: input.as_bytes(),
            piece,
        });
        let mut writer = Counting::new(Vec::new(alloc));
        let ended = run(alloc, &["tsumego", command], &mut reader, &mut writer);
        expect_status(rt, ended, status);
        expect_text(rt, writer.inner.as_slice(), text);
    }
}

// Inputs of several commands, and what is said of them.
const INPUTS: [(&str, &str, Status, &str); 6] = [
    (
        "check",
        "(;FF[4]GM[1]SZ[3]AB[ab]AW[aa][ca][bb]PL[B]TR[aa]SQ[ba]) \r\ntsucert 1 3 B\nlemma B 0 O.OXO....\nnot .XOXO....\nplay ba\nwon\nend\nmain\nuse 1\nend\n",
        Status::Answered,
        "wins Black\n",
    ),
    (
        "check",
        "(;FF[4]GM[1]SZ[3]AB[ab]AW[aa]PL[B]TR[aa]SQ[ba])\ntsucert 1 3 B\nmain\nplay ba\nwon\nend\n\n",
        Status::Unanswered,
        "rejected line 6: C16 text after the end\n",
    ),
    (
        "check",
        "(;FF[4]SZ[3]AB[aa)",
        Status::Refused,
        "refused: sgf 2 syntax at 18\n",
    ),
    (
        "audit",
        "(;FF[4]GM[1]SZ[3]AB[ab]AW[aa];PL[W]TR[aa]SQ[ba]C[White wins];W[ba];B[];W[])\n",
        Status::Answered,
        "wins White\n",
    ),
    (
        "solve",
        "(;FF[4]GM[1]SZ[3]AB[ab]AW[aa]PL[B]TR[aa]SQ[ba])",
        Status::Answered,
        "(;FF[4]GM[1]SZ[3]AB[ab]AW[aa];PL[B]TR[aa]SQ[ba]C[Black wins];B[ba])\n",
    ),
    (
        "gtp",
        "boardsize 3\nplay b a2\nplay w a3\ntsu-target a3\ntsu-region b3\ntsu-solve b\n4 genmove b\nundo\nshowboard\n",
        Status::Answered,
        "=\n\n=\n\n=\n\n=\n\n=\n\n= win B3\n\n=4 B3\n\n=\n\n= O..\nX..\n...\n\n",
    ),
];

// However an input is cut into pieces, what is said of it is the same.
#[test]
fn inputs_in_pieces(rt: HostRuntime) {
    for (command, input, status, text) in INPUTS {
        answers_pieces(&rt, rt.alloc(), command, input, status, text);
    }
}

const CAPTURE: &str = "(;FF[4]GM[1]SZ[3]AB[ab]AW[aa]PL[B]TR[aa]SQ[ba])\n";

const CAPTURE_CLAIM: &str = "tsucert 1 3 B\nmain\nplay ba\nwon\nend\n";

// Words that give no command are answered before anything is read, so that nobody waits for a terminal.
#[test]
fn other_words_read_nothing(rt: HostRuntime) {
    for word in ["--help", "--version", "chek"] {
        let mut reader = Counting::new("abc".as_bytes());
        let mut writer = Counting::new(Vec::new(rt.alloc()));
        let status = run(rt.alloc(), &["tsumego", word], &mut reader, &mut writer);
        expect_status(&rt, status, Status::BadWords);
        expect_text(&rt, reader.inner, "abc");
    }
}

// The bytes before the record count too: it has to end within the first 1,048,576 bytes of the input, and its first node to begin.
#[test]
fn skipped_bytes_count(rt: HostRuntime) {
    let alloc = rt.alloc();
    // The line feed after the record need not be among them.
    let room = 1_048_577usize.saturating_sub(CAPTURE.len());
    let rows: [(usize, &str, Status, &str); 4] = [
        (room, CAPTURE, Status::Answered, "neither\n"),
        (
            room.saturating_add(1),
            CAPTURE,
            Status::Refused,
            "refused: sgf 3 too long\n",
        ),
        (
            1_048_574,
            "(;",
            Status::Refused,
            "refused: sgf 2 syntax at 1048576\n",
        ),
        (1_048_575, "(;", Status::Refused, "refused: sgf 1 no tree\n"),
    ];
    for (count, record, status, text) in rows {
        let mut input = Vec::new(alloc);
        for _ in 0..count {
            input.push(b'a').expect(&rt, "memory");
        }
        input
            .extend_from_slice(record.as_bytes())
            .expect(&rt, "memory");
        let (ended, written) = outcome(alloc, &["tsumego", "within", "0"], input.as_slice());
        expect_status(&rt, ended, status);
        expect_text(&rt, written.as_slice(), text);
    }
}

// White space may separate record and claim, up to a bound.
#[test]
fn white_space_past_the_bound_is_a_failed_read(rt: HostRuntime) {
    let alloc = rt.alloc();
    let malformed = "rejected line 1: C01 malformed\n";
    // The record is followed by a line feed, which is white space too.
    let rows: [(usize, &str, Status, &str); 4] = [
        (1_048_575, CAPTURE_CLAIM, Status::Answered, "wins Black\n"),
        (1_048_576, CAPTURE_CLAIM, Status::Failed, "failed: read\n"),
        (1_048_575, "", Status::Unanswered, malformed),
        (1_048_576, "", Status::Failed, "failed: read\n"),
    ];
    for (more, claim, status, text) in rows {
        let mut input = Vec::new(alloc);
        input
            .extend_from_slice(CAPTURE.as_bytes())
            .expect(&rt, "memory");
        for _ in 0..more {
            input.push(b'\n').expect(&rt, "memory");
        }
        input
            .extend_from_slice(claim.as_bytes())
            .expect(&rt, "memory");
        let (ended, written) = outcome(alloc, &["tsumego", "check"], input.as_slice());
        expect_status(&rt, ended, status);
        expect_text(&rt, written.as_slice(), text);
    }
}

// What the program says of a text and then one byte for ever.
fn endless(
    rt: &impl Abort,
    alloc: Global,
    words: &[&str],
    left: &str,
    byte: u8,
    status: Status,
    text: &str,
) {
    let mut reader = Counting::new(Endless {
        left: left.as_bytes(),
        byte,
    });
    let mut writer = Counting::new(Vec::new(alloc));
    expect_status(rt, run(alloc, words, &mut reader, &mut writer), status);
    expect_text(rt, writer.inner.as_slice(), text);
}

#[test]
fn a_reader_that_never_ends(rt: HostRuntime) {
    let alloc = rt.alloc();
    let check = ["tsumego", "check"];
    let within = ["tsumego", "within", "1"];
    let rows: [(&[&str], &str, u8, Status, &str); 6] = [
        (
            &check,
            "",
            b'a',
            Status::Refused,
            "refused: sgf 1 no tree\n",
        ),
        (
            &check,
            "(;C[",
            b'a',
            Status::Refused,
            "refused: sgf 3 too long\n",
        ),
        (
            &check,
            CAPTURE,
            b'a',
            Status::Unanswered,
            "rejected line 1: C01 malformed\n",
        ),
        (&check, CAPTURE, b'\n', Status::Failed, "failed: read\n"),
        (&within, CAPTURE, b' ', Status::Answered, "wins Black\n"),
        (&within, CAPTURE, b')', Status::Answered, "wins Black\n"),
    ];
    for (words, left, byte, status, text) in rows {
        endless(&rt, alloc, words, left, byte, status, text);
    }
}

// A read that fails before the input has ended is reported, whatever was read before it.
#[test]
fn a_failed_read_is_told(rt: HostRuntime) {
    let alloc = rt.alloc();
    let mut input = Vec::new(alloc);
    input
        .extend_from_slice(CAPTURE.as_bytes())
        .expect(&rt, "memory");
    input
        .extend_from_slice(CAPTURE_CLAIM.as_bytes())
        .expect(&rt, "memory");
    for call in 0..input.len() {
        let failing = [call as u64];
        let mut reader = Counting::new(Faulty {
            inner: Pieces {
                left: input.as_slice(),
                piece: 1,
            },
            calls: 0,
            failing: &failing,
            kind: ErrorKind::Other,
        });
        let mut writer = Counting::new(Vec::new(alloc));
        expect_status(
            &rt,
            run(alloc, &["tsumego", "check"], &mut reader, &mut writer),
            Status::Failed,
        );
        expect_text(&rt, writer.inner.as_slice(), "failed: read\n");
    }
}

// The claim comes after more white space than is read with the record, and a read fails in it.
#[test]
fn a_failed_read_in_a_claim_is_told(rt: HostRuntime) {
    let alloc = rt.alloc();
    let mut input = Vec::new(alloc);
    input
        .extend_from_slice(CAPTURE.as_bytes())
        .expect(&rt, "memory");
    for _ in 0..1_048_560 {
        input.push(b' ').expect(&rt, "memory");
    }
    input
        .extend_from_slice(CAPTURE_CLAIM.as_bytes())
        .expect(&rt, "memory");
    let rows: [(&[u64], Status, &str); 3] = [
        (&[], Status::Answered, "wins Black\n"),
        (&[30], Status::Failed, "failed: read\n"),
        (&[50], Status::Failed, "failed: read\n"),
    ];
    for (failing, status, text) in rows {
        let mut reader = Counting::new(Faulty {
            inner: Pieces {
                left: input.as_slice(),
                piece: 65_536,
            },
            calls: 0,
            failing,
            kind: ErrorKind::Other,
        });
        let mut writer = Counting::new(Vec::new(alloc));
        expect_status(
            &rt,
            run(alloc, &["tsumego", "check"], &mut reader, &mut writer),
            status,
        );
        expect_text(&rt, writer.inner.as_slice(), text);
    }
}

#[test]
fn a_failed_write_has_its_status_alone(rt: HostRuntime) {
    let mut reader = Counting::new("".as_bytes());
    let mut writer = Counting::new(Faulty {
        inner: Vec::new(rt.alloc()),
        calls: 0,
        failing: &[0],
        kind: ErrorKind::Other,
    });
    expect_status(
        &rt,
        run(rt.alloc(), &["tsumego", "check"], &mut reader, &mut writer),
        Status::Failed,
    );
    expect_that(&rt, writer.inner.inner.is_empty());
}
