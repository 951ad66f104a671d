//! What is counted of devices that fail, and how often an interrupted one is asked again.

use crate::answer::write_text;
use crate::devices::Faulty;
use crate::expect::{expect_number, expect_status, expect_text, expect_that};
use crate::run::run;
use counted_devices::Counting;
use run_parts::Status;
use std::alloc::{AllocError, Global};
use std::io::{ErrorKind, Read};
use std::process::Abort;

const INPUT: &str =
    "(;FF[4]GM[1]SZ[3]AB[ab]AW[aa]PL[B]TR[aa]SQ[ba])\ntsucert 1 3 B\nmain\nplay ba\nwon\nend\n";

// The numbers of the first calls.
fn first(alloc: Global, count: u64) -> Result<Vec<u64>, AllocError> {
    let mut calls = Vec::new(alloc);
    for call in 0..count {
        calls.push(call)?;
    }
    Ok(calls)
}

// A reader that is interrupted this often, and then gives a claim that is accepted.
fn reads(rt: &impl Abort, alloc: Global, interrupts: u64, status: Status, text: &str) {
    let calls = first(alloc, interrupts).expect(rt, "memory");
    let mut reader = Counting::new(Faulty {
        inner: INPUT.as_bytes(),
        calls: 0,
        failing: calls.as_slice(),
        kind: ErrorKind::Interrupted,
    });
    let mut writer = Counting::new(Vec::new(alloc));
    expect_status(
        rt,
        run(alloc, &["tsumego", "check"], &mut reader, &mut writer),
        status,
    );
    expect_text(rt, writer.inner.as_slice(), text);
    expect_number(rt, reader.faults(), 0);
    expect_number(rt, u64::from(reader.interrupts()), interrupts);
}

#[test]
fn a_reader_is_asked_again_a_thousand_times(rt: HostRuntime) {
    reads(&rt, rt.alloc(), 1_000, Status::Answered, "wins Black\n");
    reads(&rt, rt.alloc(), 1_001, Status::Failed, "failed: read\n");
}

// A writer that is interrupted this often.
fn writes(rt: &impl Abort, alloc: Global, interrupts: u64, status: Status, text: &str) {
    let calls = first(alloc, interrupts).expect(rt, "memory");
    let mut reader = Counting::new(INPUT.as_bytes());
    let mut writer = Counting::new(Faulty {
        inner: Vec::new(alloc),
        calls: 0,
        failing: calls.as_slice(),
        kind: ErrorKind::Interrupted,
    });
    expect_status(
        rt,
        run(alloc, &["tsumego", "check"], &mut reader, &mut writer),
        status,
    );
    expect_text(rt, writer.inner.inner.as_slice(), text);
    expect_number(rt, writer.faults(), 0);
    expect_number(rt, u64::from(writer.interrupts()), interrupts);
}

#[test]
fn a_writer_is_asked_again_a_thousand_times(rt: HostRuntime) {
    writes(&rt, rt.alloc(), 1_000, Status::Answered, "wins Black\n");
    writes(&rt, rt.alloc(), 1_001, Status::Failed, "");
}

#[test]
fn each_failed_call_is_counted_once(rt: HostRuntime) {
    let mut reader = Counting::new(Faulty {
        inner: "abc".as_bytes(),
        calls: 0,
        failing: &[1, 2],
        kind: ErrorKind::Other,
    });
    let mut byte = [0u8; 1];
    for wanted in [0u64, 1, 2, 2, 2] {
        let _result = reader.read(&mut byte);
        expect_number(&rt, reader.faults(), wanted);
        expect_number(&rt, u64::from(reader.interrupts()), 0);
    }
}

// However much is written at once, and to a device that takes all of it, no failure is counted.
#[test]
fn a_write_of_two_megabytes_is_no_failure(rt: HostRuntime) {
    let mut bytes = Vec::new(rt.alloc());
    for _ in 0..2_000_000 {
        bytes.push(b'.').expect(&rt, "memory");
    }
    let mut writer = Counting::new(Vec::new(rt.alloc()));
    let status = write_text(&mut writer, bytes.as_slice(), Status::Answered);
    expect_status(&rt, status, Status::Answered);
    expect_number(&rt, writer.faults(), 0);
    expect_that(&rt, writer.inner.len() == 2_000_000);
}
