//! Claims that are made into one lemma, by the rules of the format.

use crate::expect::expect_same;
use crate::small_problems::{barred_by_the_past, problem};
use cert_check::{Lift, MAX_LISTED, MAX_NODES, check_held, lift};
use go_points::Colour;
use proof_cert::{read_cert, write_cert};
use std::alloc::Global;
use std::process::Abort;
use target_game::Problem;

// The text of the lifted claim for the problem, or why the claim is not lifted. The lifted claim is valid for the same problem.
fn lifted(alloc: Global, rt: &impl Abort, problem: Problem, claim: &str) -> Result<Vec<u8>, Lift> {
    let again = problem.copy(alloc).expect(rt, "memory");
    let certificate = read_cert(alloc, problem.size(), claim.as_bytes()).expect(rt, "a claim");
    let Ok(checked) = check_held(alloc, problem, certificate) else {
        panic!(rt; "a valid claim");
    };
    let winner = checked.winner();
    let certificate = match lift(alloc, &checked) {
        Ok(certificate) => certificate,
        Err(fault) => return Err(fault),
    };
    let mut text = Vec::new(alloc);
    write_cert(&certificate, &mut text).expect(rt, "memory");
    match check_held(alloc, again, certificate) {
        Ok(anew) => expect_same(rt, anew.winner(), winner),
        Err(_) => panic!(rt; "valid for the same problem"),
    }
    Ok(text)
}

fn becomes(alloc: Global, rt: &impl Abort, problem: Problem, claim: &str, wanted: &str) {
    match lifted(alloc, rt, problem, claim) {
        Ok(text) => expect_same(rt, text.as_slice(), wanted.as_bytes()),
        Err(_) => panic!(rt; "a lifted claim"),
    }
}

#[test]
fn a_reply_that_the_past_bars(rt: HostRuntime) {
    let alloc = rt.alloc();
    let closed = barred_by_the_past(alloc, &rt);
    becomes(
        alloc,
        &rt,
        closed,
        "tsucert 1 3 W\nmain\nall 1\nreply pass\nplay pass\nwon\nend\n",
        "tsucert 2 3 W\nlemma B 0 O.OXO....\nhad .XOXO....\nall 1\nreply pass\nplay pass\nwon\nend\nmain\nuse 1\nend\n",
    )
}

#[test]
fn colourings_of_the_past_that_no_reply_gives_stay_out(rt: HostRuntime) {
    let alloc = rt.alloc();
    let other = problem(
        alloc,
        &rt,
        3,
        &["O.OXO....", ".........", ".XOXO....", "X........"],
        Colour::Black,
        &[(1, 0)],
    );
    becomes(
        alloc,
        &rt,
        other,
        "tsucert 1 3 W\nmain\nall 1\nreply pass\nplay pass\nwon\nend\n",
        "tsucert 2 3 W\nlemma B 0 O.OXO....\nhad .XOXO....\nall 1\nreply pass\nplay pass\nwon\nend\nmain\nuse 1\nend\n",
    )
}

#[test]
fn a_suicide_of_one_stone_is_no_past(rt: HostRuntime) {
    let alloc = rt.alloc();
    let shut = problem(alloc, &rt, 3, &["X.XXXX.XX"], Colour::White, &[(1, 0)]);
    becomes(
        alloc,
        &rt,
        shut,
        "tsucert 1 3 B\nmain\nall 1\nreply pass\nplay pass\nwon\nend\n",
        "tsucert 1 3 B\nlemma W 0 X.XXXX.XX\nall 1\nreply pass\nplay pass\nwon\nend\nmain\nuse 1\nend\n",
    )
}

#[test]
fn results_ascend_and_stand_once(rt: HostRuntime) {
    let alloc = rt.alloc();
    let two = problem(alloc, &rt, 2, &["X..."], Colour::White, &[(1, 0), (0, 1)]);
    becomes(
        alloc,
        &rt,
        two,
        "tsucert 1 2 B\nmain\nall 3\nreply ba\nplay ab\nall 1\nreply pass\nplay pass\nwon\nreply ab\nplay ba\nall 1\nreply pass\nplay pass\nwon\nreply pass\nplay pass\nwon\nend\n",
        "tsucert 1 2 B\nlemma W 0 X...\nnot XOX.\nnot XXO.\nall 3\nreply ba\nplay ab\nall 1\nreply pass\nplay pass\nwon\nreply ab\nplay ba\nall 1\nreply pass\nplay pass\nwon\nreply pass\nplay pass\nwon\nend\nmain\nuse 1\nend\n",
    )
}

#[test]
fn claims_with_lemmas_are_not_lifted(rt: HostRuntime) {
    let alloc = rt.alloc();
    let open = problem(alloc, &rt, 3, &["O..X....."], Colour::Black, &[(1, 0)]);
    let claim =
        "tsucert 1 3 B\nlemma B 0 O..X.....\nnot .X.X.....\nplay ba\nwon\nend\nmain\nuse 1\nend\n";
    match lifted(alloc, &rt, open, claim) {
        Ok(_) => panic!(&rt; "a claim with a lemma"),
        Err(fault) => expect_same(&rt, fault, Lift::HasLemmas),
    }
}

// A claim of one lemma is refused with `Limit` exactly if it would pass one of these limits, as the clauses of `lift` say.
#[test]
fn the_limits_of_a_lifted_claim(rt: HostRuntime) {
    expect_same(&rt, MAX_NODES, 10_000_000);
    expect_same(&rt, MAX_LISTED, 1_000_000);
}
