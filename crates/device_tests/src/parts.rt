//! What the libraries of the helper programs copy, read, write and put in order.

use crate::expect::{expect_bytes, expect_that, expect_written};
use record_pages::descending;
use run_parts::Status;
use sgf_text::read_tree;
use std::alloc::AllocError;
use std::process::Abort;
use tool_parts::{Output, copy_tree, read_whole, write_output};

const RECORD: &str = "(;SZ[9]C[a\\]b];B[aa](;W[bb](;B[])(;B[cc]LB[dd:A][ee:B]))(;W[]))";

fn expect_code(rt: &impl Abort, status: Status, code: u8) {
    assert_eq!(rt; status.code(), code);
}

#[test]
fn a_copy_has_the_same_text(rt: HostRuntime) {
    let alloc = rt.alloc();
    let (tree, _end) = read_tree(alloc, RECORD.as_bytes())
        .ok()
        .expect(&rt, "a tree");
    let copy = copy_tree(alloc, &tree).ok().expect(&rt, "memory");
    let mut writer = Vec::new(alloc);
    let ended = write_output(&mut writer, Ok(Output::Record(copy)));
    expect_code(&rt, ended, 0);
    let wanted = format!(in alloc; "{RECORD}\n").ok().expect(&rt, "memory");
    expect_written(&rt, writer, wanted.as_str());
}

#[test]
fn the_input_is_read_to_its_end(rt: HostRuntime) {
    let alloc = rt.alloc();
    let mut long = Vec::new(alloc);
    for i in 0..200_000u32 {
        long.push((i % 251) as u8).ok().expect(&rt, "memory");
    }
    let mut reader = long.as_slice();
    let mut bytes = Vec::new(alloc);
    let whole = read_whole(&mut reader, &mut bytes)
        .ok()
        .expect(&rt, "memory");
    expect_that(&rt, whole);
    expect_bytes(&rt, bytes.as_slice(), long.as_slice());
}

#[test]
fn what_failed_is_said(rt: HostRuntime) {
    let mut writer = Vec::new(rt.alloc());
    let ended = write_output(&mut writer, Err(AllocError));
    expect_code(&rt, ended, 4);
    expect_bytes(&rt, writer.as_slice(), b"failed: memory\n");
}

#[test]
fn exit_codes(rt: HostRuntime) {
    expect_code(&rt, Status::Answered, 0);
    expect_code(&rt, Status::Unanswered, 1);
    expect_code(&rt, Status::Refused, 2);
    expect_code(&rt, Status::BadWords, 3);
    expect_code(&rt, Status::Failed, 4);
}

#[test]
fn greatest_first(rt: HostRuntime) {
    let order = descending(rt.alloc(), &[1, 3, 0, 3, 2])
        .ok()
        .expect(&rt, "memory");
    assert_eq!(rt; order.as_slice(), [1, 3, 4, 0, 2].as_slice());
}
