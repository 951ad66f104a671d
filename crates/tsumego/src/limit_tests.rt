//! Inputs that are as large as a limit allows, or a part larger, from the formats.

use crate::tests::answers;
use run_parts::Status;
use std::alloc::Global;
use std::process::Abort;

const CHECK: [&str; 2] = ["tsumego", "check"];

// A claim of this many lemmas, all alike. Main uses the last one that it may use.
fn many_lemmas(alloc: Global, rt: &impl Abort, count: usize) -> String {
    let mut input = String::new(alloc);
    input
        .push_str("(;FF[4]GM[1]SZ[3]AB[ab]AW[aa]PL[B]TR[aa]SQ[ba])\ntsucert 1 3 B\n")
        .expect(rt, "memory");
    for _ in 0..count {
        input
            .push_str("lemma W 0 .X.X.....\nwon\nend\n")
            .expect(rt, "memory");
    }
    input
        .push_str("main\nplay ba\nuse 65535\nend\n")
        .expect(rt, "memory");
    input
}

#[test]
fn a_claim_has_at_most_65535_lemmas(rt: HostRuntime) {
    let alloc = rt.alloc();
    let most = many_lemmas(alloc, &rt, 65_535);
    answers(
        &rt,
        alloc,
        &CHECK,
        most.as_str(),
        Status::Answered,
        "wins Black\n",
    );
    let more = many_lemmas(alloc, &rt, 65_536);
    let refused = "rejected line 196607: C15 limit\n";
    answers(
        &rt,
        alloc,
        &CHECK,
        more.as_str(),
        Status::Unanswered,
        refused,
    );
}

// A record whose nodes give this many colourings, all different: the stones of the first row count in binary.
fn many_colourings(alloc: Global, rt: &impl Abort, count: usize) -> String {
    let mut record = String::new(alloc);
    record.push_str("(;AB[as]").expect(rt, "memory");
    for number in 1..count {
        record.push(';').expect(rt, "memory");
        add_points(rt, &mut record, "AB", number, 1);
        add_points(rt, &mut record, "AE", number, 0);
    }
    record.push_str("TR[as])").expect(rt, "memory");
    record
}

// A property with the points of the first row whose digit of the number is this one.
fn add_points(rt: &impl Abort, record: &mut String, name: &str, number: usize, digit: usize) {
    record.push_str(name).expect(rt, "memory");
    let mut left = number;
    for column in ["a", "c", "e", "g", "i", "k", "m", "o", "q", "s"] {
        if left % 2 == digit {
            record.push_str("[").expect(rt, "memory");
            record.push_str(column).expect(rt, "memory");
            record.push_str("a]").expect(rt, "memory");
        }
        left /= 2;
    }
}

#[test]
fn a_history_has_at_most_a_thousand_colourings(rt: HostRuntime) {
    let whole = many_colourings(rt.alloc(), &rt, 1000);
    answers(
        &rt,
        rt.alloc(),
        &["tsumego", "within", "0"],
        whole.as_str(),
        Status::Answered,
        "neither\n",
    );
    let long = many_colourings(rt.alloc(), &rt, 1001);
    answers(
        &rt,
        rt.alloc(),
        &["tsumego", "within", "0"],
        long.as_str(),
        Status::Refused,
        "refused: problem 14 long history at node 1000\n",
    );
}
