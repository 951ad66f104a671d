//! Claims as large as the format allows, and one part larger.

use crate::claims::{size_of, written};
use crate::expect::expect_that;
use proof_cert::{SourceFault, read_cert};
use std::alloc::Global;
use std::process::Abort;

/// A claim of this many turns in a row.
fn line_of_play(rt: &impl Abort, alloc: Global, turns: usize) -> Vec<u8> {
    let mut text = b"tsucert 1 3 B\nmain\n".to_vec(alloc).expect(rt, "memory");
    for _ in 0..turns {
        text.extend_from_slice(b"play pass\n").expect(rt, "memory");
    }
    text.extend_from_slice(b"won\nend\n").expect(rt, "memory");
    text
}

#[test]
fn reads_as_deep_as_a_claim_may_be(rt: HostRuntime) {
    let alloc = rt.alloc();
    let deepest = line_of_play(&rt, alloc, 1_999);
    let certificate = read_cert(alloc, size_of(&rt, 3), deepest.as_slice()).expect(&rt, "a claim");
    expect_that(
        &rt,
        written(&rt, alloc, &certificate).as_slice() == deepest.as_slice(),
    );
    let deeper = line_of_play(&rt, alloc, 2_000);
    let read = read_cert(alloc, size_of(&rt, 3), deeper.as_slice());
    expect_that(&rt, matches!(read, Err(SourceFault::Malformed)));
}

/// A claim of this many lemmas.
fn many_lemmas(rt: &impl Abort, alloc: Global, lemmas: usize) -> Vec<u8> {
    let mut text = b"tsucert 1 1 B\n".to_vec(alloc).expect(rt, "memory");
    for _ in 0..lemmas {
        text.extend_from_slice(b"lemma B 0 .\nwon\nend\n")
            .expect(rt, "memory");
    }
    text.extend_from_slice(b"main\nwon\nend\n")
        .expect(rt, "memory");
    text
}

#[test]
fn reads_as_many_lemmas_as_a_claim_may_have(rt: HostRuntime) {
    let alloc = rt.alloc();
    let most = many_lemmas(&rt, alloc, 65_535);
    let certificate = read_cert(alloc, size_of(&rt, 1), most.as_slice()).expect(&rt, "a claim");
    expect_that(
        &rt,
        written(&rt, alloc, &certificate).as_slice() == most.as_slice(),
    );
    let more = many_lemmas(&rt, alloc, 65_536);
    let read = read_cert(alloc, size_of(&rt, 1), more.as_slice());
    expect_that(&rt, matches!(read, Err(SourceFault::Malformed)));
}
