//! What `solve` writes, put to the other commands.

use crate::expect::expect_that;
use crate::tests::{answers, outcome};
use run_parts::Status;
use std::alloc::Global;
use std::process::Abort;

// What `solve` writes when these words follow it.
fn written(rt: &impl Abort, alloc: Global, words: &[&str], record: &str) -> String {
    let (status, written) = outcome(alloc, words, record.as_bytes());
    assert_eq!(rt; status, Status::Answered, "{record}");
    String::from_utf8(written).ok().expect(rt, "a text")
}

// Whether `audit` and `check` accept what `solve` writes, for the same side.
fn is_accepted(rt: &impl Abort, alloc: Global, record: &str, text: &str) {
    let tree = written(rt, alloc, &["tsumego", "solve"], record);
    answers(
        rt,
        alloc,
        &["tsumego", "audit"],
        tree.as_str(),
        Status::Answered,
        text,
    );
    let claim = written(rt, alloc, &["tsumego", "solve", "--proof"], record);
    answers(
        rt,
        alloc,
        &["tsumego", "check"],
        claim.as_str(),
        Status::Answered,
        text,
    );
}

#[test]
fn what_is_written_is_accepted(rt: HostRuntime) {
    let records: [(&str, &str); 5] = [
        ("(;FF[4]SZ[3]AW[aa]PL[B]TR[aa]SQ[bc][cc])", "wins White\n"),
        (
            "(;SZ[5]AB[ba][da][ab][bb][cb][db]AW[ee]PL[B]TR[ee]SQ[aa][ca])",
            "wins White\n",
        ),
        (
            "(;FF[4]GM[1]SZ[3]AB[ab]AW[aa]PL[B]TR[aa]SQ[ba])",
            "wins Black\n",
        ),
        (
            "(;FF[4]GM[1]SZ[3]AB[ba][ab]AW[ca][bb]PL[W];W[aa]TR[aa]SQ[ba][cc])",
            "wins White\n",
        ),
        // A stone with two liberties in the corner, and room around it.
        (
            "(;FF[4]SZ[4]AB[ca][cb][ac][bc]AW[aa]PL[B]TR[aa]SQ[ba][ab][bb])",
            "wins Black\n",
        ),
    ];
    for (record, text) in records {
        is_accepted(&rt, rt.alloc(), record, text);
    }
}

// Black may play at aa, at ca, or pass, and White may only pass: both orders of Black's moves meet, in a state with two turns.
const TWO_MOVES: &str = "(;SZ[5]AB[ba][da][ab][bb][cb][db]AW[ee]PL[B]TR[ee]SQ[aa][ca])";

// Black may play at aa, at ca, at ea, or pass, and White may only pass: the orders of two moves meet, and a third may follow.
const ORDERS: &str = "(;SZ[5]AB[ba][da][ab][bb][cb][db][eb]AW[ee]PL[B]TR[ee]SQ[aa][ca][ea])";

// Where no state with three turns or more occurs at several places, the lowest one with two becomes a lemma.
#[test]
fn a_written_claim_shares_its_states(rt: HostRuntime) {
    let claim = written(&rt, rt.alloc(), &["tsumego", "solve", "--proof"], TWO_MOVES);
    expect_that(&rt, claim.as_str().contains("\nlemma "));
    expect_that(&rt, claim.as_str().contains("\nuse 1\n"));
}

// States with three turns or more that occur at several places become lemmas: in ORDERS those after two of Black's three moves. A
// claim that has lemmas is not made into one lemma.
#[test]
fn a_claim_that_has_lemmas_is_not_lifted(rt: HostRuntime) {
    for record in [TWO_MOVES, ORDERS] {
        let claim = written(&rt, rt.alloc(), &["tsumego", "solve", "--proof"], record);
        expect_that(&rt, claim.as_str().contains("\nlemma "));
        expect_that(&rt, claim.as_str().contains("\nuse 1\n"));
        expect_that(&rt, !claim.as_str().ends_with("main\nuse 1\nend\n"));
        answers(
            &rt,
            rt.alloc(),
            &["tsumego", "solve", "--proof", "--lift"],
            record,
            Status::Answered,
            claim.as_str(),
        );
    }
}
