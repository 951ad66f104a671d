//! How solutions are written.

use crate::expect::{expect_bytes, expect_count, expect_size, expect_stop};
use cert_check::{Checked, check_held};
use go_points::{Point, Size, Turn, sgf_point};
use proof_cert::read_cert;
use sgf_text::{read_tree, write_tree};
use solution_tree::{Answer, Expand, expand, to_sgf};
use std::alloc::Global;
use std::process::Abort;
use tsumego_problem::read_problem;

/// Black may not take back at ba, since the colouring after it has occurred.
const RECORD: &[u8] = b"(;FF[4]GM[1]SZ[3]AB[ba][ab]AW[ca][bb];AW[aa]AE[ba];PL[B]TR[aa]SQ[ba][cc])";

/// White wins: after a move at cc white fills ba, and after any pass white passes.
const CLAIM: &[u8] =
    b"tsucert 1 3 W\nmain\nall 2\nreply cc\nplay ba\nall 1\nreply pass\nplay pass\nwon\nreply pass\nplay pass\nwon\nend\n";

fn checked(alloc: Global, rt: &impl Abort) -> Checked {
    checked_claim(alloc, rt, RECORD, CLAIM)
}

fn checked_claim(alloc: Global, rt: &impl Abort, record: &[u8], claim: &[u8]) -> Checked {
    let (tree, _end) = read_tree(alloc, record).expect(rt, "a tree");
    let problem = read_problem(alloc, &tree).expect(rt, "a problem");
    let size = problem.size();
    let Ok(certificate) = read_cert(alloc, size, claim) else {
        panic!(rt; "a claim");
    };
    match check_held(alloc, problem, certificate) {
        Ok(checked) => checked,
        Err(_) => panic!(rt; "a valid claim"),
    }
}

fn point(rt: &impl Abort, letters: &[u8]) -> Point {
    let size = Size::new(19).expect(rt, "a size");
    sgf_point(size, letters).expect(rt, "a point")
}

fn turn(rt: &impl Abort, alloc: Global, first: Turn, below: Answer) -> Answer {
    Answer::Turn(first, Box::new(alloc, below).expect(rt, "memory"))
}

fn replies(rt: &impl Abort, alloc: Global, first: Turn, below: Answer) -> Vec<(Turn, Answer)> {
    let mut all = Vec::new(alloc);
    all.push((first, below)).expect(rt, "memory");
    all
}

/// The text below the problem node.
fn below(alloc: Global, rt: &impl Abort, answer: &Answer) -> Vec<u8> {
    let checked = checked(alloc, rt);
    let mut text = Vec::new(alloc);
    write_tree(
        &to_sgf(alloc, &checked, answer).expect(rt, "memory"),
        &mut text,
    )
    .expect(rt, "memory");
    let front =
        b"(;FF[4]GM[1]SZ[3]AB[ba][ab]AW[ca][bb];AW[aa]AE[ba];PL[B]TR[aa]SQ[ba][cc]C[White wins]";
    match text.as_slice().strip_prefix(front.as_slice()) {
        Some(rest) => rest.to_vec(alloc).expect(rt, "memory"),
        None => panic!(rt; "the record before the answers"),
    }
}

#[test]
fn writes_an_answer_tree(rt: HostRuntime) {
    let alloc = rt.alloc();
    let last = turn(&rt, alloc, Turn::Pass, Answer::Won);
    let passed = Answer::Replies(replies(&rt, alloc, Turn::Pass, last));
    let filled = turn(&rt, alloc, Turn::At(point(&rt, b"ba")), passed);
    let mut all = replies(&rt, alloc, Turn::At(point(&rt, b"cc")), filled);
    all.push((Turn::Pass, turn(&rt, alloc, Turn::Pass, Answer::Won)))
        .expect(&rt, "memory");
    let written = below(alloc, &rt, &Answer::Replies(all));
    expect_bytes(
        &rt,
        written.as_slice(),
        b"(;B[cc];W[ba];B[];W[])(;B[];W[]))".as_slice(),
    );
}

// These are not answer trees of the problem, but each has a record.
#[test]
fn writes_any_answers(rt: HostRuntime) {
    let alloc = rt.alloc();
    let none = below(alloc, &rt, &Answer::Replies(Vec::new(alloc)));
    expect_bytes(&rt, none.as_slice(), b")".as_slice());
    let won = below(alloc, &rt, &Answer::Won);
    expect_bytes(&rt, won.as_slice(), b")".as_slice());
    let past = turn(&rt, alloc, Turn::At(point(&rt, b"ss")), Answer::Won);
    let written = below(alloc, &rt, &past);
    expect_bytes(&rt, written.as_slice(), b";B[ad])".as_slice());
}

// Each of the levels is 22 bytes: `(;B[aa];W[])` and `(;B[];W[]` with the next level and `)`.
#[test]
fn writes_branches_within_branches(rt: HostRuntime) {
    let alloc = rt.alloc();
    let mut tree = Answer::Won;
    for _ in 0..2_000 {
        let first = turn(&rt, alloc, Turn::Pass, Answer::Won);
        let mut all = replies(&rt, alloc, Turn::At(point(&rt, b"aa")), first);
        all.push((Turn::Pass, turn(&rt, alloc, Turn::Pass, tree)))
            .expect(&rt, "memory");
        tree = Answer::Replies(all);
    }
    expect_count(&rt, below(alloc, &rt, &tree).len(), 44_001);
}

// `;B[];W[]` fifty thousand times, and the bracket that ends the record.
#[test]
fn writes_a_long_line(rt: HostRuntime) {
    let alloc = rt.alloc();
    let mut line = Answer::Won;
    for _ in 0..50_000 {
        line = turn(
            &rt,
            alloc,
            Turn::Pass,
            Answer::Replies(replies(&rt, alloc, Turn::Pass, line)),
        );
    }
    expect_size(&rt, line.size(), Some(100_000));
    expect_count(&rt, below(alloc, &rt, &line).len(), 400_001);
}

// The claim's answer tree for the record has two turns, and this is the record with it.
fn expands_to_two_turns(
    alloc: Global,
    rt: &impl Abort,
    record: &[u8],
    claim: &[u8],
    solution: &[u8],
) {
    let checked = checked_claim(alloc, rt, record, claim);
    let Ok(answer) = expand(alloc, &checked, 2) else {
        panic!(rt; "a tree of two turns");
    };
    let mut text = Vec::new(alloc);
    write_tree(
        &to_sgf(alloc, &checked, &answer).expect(rt, "memory"),
        &mut text,
    )
    .expect(rt, "memory");
    expect_bytes(rt, text.as_slice(), solution);
    expect_stop(rt, expand(alloc, &checked, 1).err(), Some(Expand::TooLarge));
}

// The lemma also answers a move at bc, which repeats an earlier position: the tree leaves it out.
#[test]
fn leaves_out_a_barred_reply(rt: HostRuntime) {
    expands_to_two_turns(
        rt.alloc(),
        &rt,
        b"(;SZ[3]AB[bc]AW[aa];AE[bc]PL[B]TR[aa]SQ[bc])",
        b"tsucert 1 3 W\nlemma B 0 O........\nall 2\nreply bc\nplay pass\nall 1\nreply pass\nwon\nreply pass\nplay pass\nwon\nend\nmain\nuse 1\nend\n",
        b"(;FF[4]GM[1]SZ[3]AB[bc]AW[aa];AE[bc];PL[B]TR[aa]SQ[bc]C[White wins];B[];W[])",
    )
}

// White has just taken the ko. The lemma has no answer to a move at ba, since it needs a past that bars it.
#[test]
fn leaves_out_a_reply_that_a_lemma_s_past_bars(rt: HostRuntime) {
    expands_to_two_turns(
        rt.alloc(),
        &rt,
        b"(;FF[4]GM[1]SZ[3]AB[ba][ab]AW[ca][bb]PL[W];W[aa]TR[aa]SQ[ba])",
        b"tsucert 2 3 W\nlemma B 0 O.OXO....\nhad .XOXO....\nall 1\nreply pass\nplay pass\nwon\nend\nmain\nuse 1\nend\n",
        b"(;FF[4]GM[1]SZ[3]AB[ba][ab]AW[ca][bb];AW[aa]AE[ba];PL[B]TR[aa]SQ[ba]C[White wins];B[];W[])",
    )
}
