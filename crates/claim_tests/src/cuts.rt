//! Claims that are cut off after each of their bytes.

use crate::small_problems::{barred_by_the_past, expect_judged, judged, problem, refused};
use cert_check::Why;
use go_points::Colour;
use std::alloc::Global;
use std::process::Abort;
use target_game::Problem;

const WITHOUT_LEMMAS: &[u8] =
    b"tsucert 1 2 B\nmain\nall 2\nreply ab\nplay pass\nall 1\nreply pass\nwon\nreply pass\nplay pass\nwon\nend\n";

const WITH_A_LIST: &[u8] =
    b"tsucert 1 3 B\nlemma B 0 O.OXO....\nnot .XOXO....\nplay ba\nwon\nend\nmain\nuse 1\nend\n";

const WITH_A_PAST: &[u8] =
    b"tsucert 2 3 W\nlemma B 0 O.OXO....\nhad .XOXO....\nall 1\nreply pass\nplay pass\nwon\nend\nmain\nuse 1\nend\n";

// Expects each front of the claim to be malformed in the line in which it ends.
fn expect_fronts_malformed(rt: &impl Abort, alloc: Global, problem: &Problem, claim: &[u8]) {
    let mut place = 1u64;
    for length in 0..claim.len() {
        let cut = judged(alloc, problem, &claim[..length]);
        expect_judged(rt, cut, refused(place, Why::Malformed));
        if claim[length] == b'\n' {
            place = place.saturating_add(1);
        }
    }
}

#[test]
fn a_claim_without_lemmas(rt: HostRuntime) {
    let alloc = rt.alloc();
    let quiet = problem(alloc, &rt, 2, &["X..."], Colour::White, &[(0, 1)]);
    expect_fronts_malformed(&rt, alloc, &quiet, WITHOUT_LEMMAS);
}

#[test]
fn a_lemma_with_a_list(rt: HostRuntime) {
    let alloc = rt.alloc();
    let open = problem(alloc, &rt, 3, &["O.OXO...."], Colour::Black, &[(1, 0)]);
    expect_fronts_malformed(&rt, alloc, &open, WITH_A_LIST);
}

#[test]
fn a_lemma_that_needs_a_past(rt: HostRuntime) {
    let alloc = rt.alloc();
    let closed = barred_by_the_past(alloc, &rt);
    expect_fronts_malformed(&rt, alloc, &closed, WITH_A_PAST);
}
