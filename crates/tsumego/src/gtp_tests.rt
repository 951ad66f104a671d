//! Sessions over devices that fail, and what is flushed.

use crate::devices::{Faulty, Flushable};
use crate::expect::{expect_number, expect_status, expect_text, expect_that};
use crate::run::run;
use counted_devices::Counting;
use run_parts::Status;
use std::alloc::Global;
use std::io::ErrorKind;
use std::process::Abort;

// A session whose reader fails at its second call, and whose writer fails at these calls.
fn fails(
    rt: &impl Abort,
    alloc: Global,
    reads: &[u64],
    writes: &[u64],
    text: &str,
    faults: (u64, u64),
) {
    let mut reader = Counting::new(Faulty {
        inner: "name\nprotocol_version\n".as_bytes(),
        calls: 0,
        failing: reads,
        kind: ErrorKind::Other,
    });
    let mut writer = Counting::new(Faulty {
        inner: Vec::new(alloc),
        calls: 0,
        failing: writes,
        kind: ErrorKind::Other,
    });
    expect_status(
        rt,
        run(alloc, &["tsumego", "gtp"], &mut reader, &mut writer),
        Status::Failed,
    );
    expect_text(rt, writer.inner.inner.as_slice(), text);
    expect_number(rt, reader.faults(), faults.0);
    expect_number(rt, writer.faults(), faults.1);
}

#[test]
fn a_session_ends_for_a_device_that_has_failed(rt: HostRuntime) {
    let alloc = rt.alloc();
    fails(&rt, alloc, &[0], &[], "failed: read\n", (1, 0));
    fails(
        &rt,
        alloc,
        &[1],
        &[],
        "= tsumego\n\n= 2\n\nfailed: read\n",
        (1, 0),
    );
    fails(&rt, alloc, &[], &[0], "", (0, 1));
    fails(&rt, alloc, &[], &[1], "= tsumego\n\n", (0, 1));
}

// A client at the other end of a pipe waits for what is flushed.
#[test]
fn each_reply_of_a_session_is_flushed(rt: HostRuntime) {
    let mut reader = Counting::new("name\nprotocol_version\n".as_bytes());
    let mut writer = Counting::new(Flushable {
        written: 0,
        flushed: 0,
    });
    expect_status(
        &rt,
        run(rt.alloc(), &["tsumego", "gtp"], &mut reader, &mut writer),
        Status::Answered,
    );
    expect_that(&rt, writer.inner.flushed == "= tsumego\n\n= 2\n\n".len());
}
