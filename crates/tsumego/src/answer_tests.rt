//! What is written of a claim whose answer tree is large.

use crate::answer::answer;
use crate::expect::{expect_status, expect_text, expect_that};
use cert_check::{Checked, check_held};
use counted_devices::Counting;
use proof_cert::read_cert;
use run_parts::Status;
use sgf_text::read_tree;
use std::alloc::{AllocError, Global};
use std::process::Abort;
use tsumego_problem::read_problem;

// Black may only move on the last row, and White passes: nothing can be captured.
const LAST_ROW: &[u8] = b"(;FF[4]SZ[9]AW[aa]PL[B]TR[aa]SQ[ai:hi])";

const CANONICAL: &[u8] =
    b"(;FF[4]GM[1]SZ[9]AW[aa];PL[B]TR[aa]SQ[ai][bi][ci][di][ei][fi][gi][hi])\n";

// The points of the last row, as they are written in a vertex.
const COLUMNS: [&str; 8] = ["ai", "bi", "ci", "di", "ei", "fi", "gi", "hi"];

fn push(claim: &mut Vec<u8>, text: &str) -> Result<(), AllocError> {
    claim.extend_from_slice(text.as_bytes())?;
    Ok(())
}

// The stone on each column in a set of stones.
const STONES: [usize; 8] = [1, 2, 4, 8, 16, 32, 64, 128];

// Black's turns when it has these stones: after each, White passes, and the lemma of the larger set goes on.
fn push_replies(
    alloc: Global,
    claim: &mut Vec<u8>,
    numbers: &[usize],
    stones: usize,
) -> Result<(), AllocError> {
    let due = 9u32.saturating_sub(stones.count_ones());
    push(claim, format!(in alloc; "all {due}\n")?.as_str())?;
    for column in 0..8usize {
        let larger = stones | STONES[column];
        if larger != stones && larger < numbers.len() {
            let at = COLUMNS[column];
            let number = numbers[larger];
            let text = format!(in alloc; "reply {at}\nplay pass\nuse {number}\n")?;
            push(claim, text.as_str())?;
        }
    }
    push(claim, "reply pass\n")
}

// The cells of these stones, and of the target in the corner.
fn push_cells(claim: &mut Vec<u8>, stones: usize) -> Result<(), AllocError> {
    push(claim, "O")?;
    for _ in 1..72usize {
        push(claim, ".")?;
    }
    for column in 0..8usize {
        let cell = if stones | STONES[column] == stones {
            "X"
        } else {
            "."
        };
        push(claim, cell)?;
    }
    push(claim, ".\n")
}

// All sets of stones except the empty one, larger ones first.
fn sets(alloc: Global) -> Result<Vec<usize>, AllocError> {
    let mut all = Vec::new(alloc);
    for fewer in 0..8u32 {
        for stones in 1..256usize {
            if stones.count_ones().saturating_add(fewer) == 8 {
                all.push(stones)?;
            }
        }
    }
    Ok(all)
}

// The number of the lemma of each set.
fn numbers(alloc: Global, order: &[usize]) -> Result<Vec<usize>, AllocError> {
    let mut all = Vec::new(alloc);
    for stones in 0..256usize {
        let place = order.iter().position(|set| *set == stones);
        all.push(place.unwrap_or(0).saturating_add(1))?;
    }
    Ok(all)
}

// The lemma of these stones.
fn push_lemma(
    alloc: Global,
    claim: &mut Vec<u8>,
    numbers: &[usize],
    stones: usize,
) -> Result<(), AllocError> {
    push(claim, "lemma B 1 ")?;
    push_cells(claim, stones)?;
    push_replies(alloc, claim, numbers, stones)?;
    push(claim, "won\nend\n")
}

// A claim for White with a lemma for each set of black stones.
fn claim_text(alloc: Global) -> Result<Vec<u8>, AllocError> {
    let order = sets(alloc)?;
    let numbers = numbers(alloc, order.as_slice())?;
    let mut claim = Vec::new(alloc);
    push(&mut claim, "tsucert 1 9 W\n")?;
    for stones in order.iter() {
        push_lemma(alloc, &mut claim, numbers.as_slice(), *stones)?;
    }
    push(&mut claim, "main\n")?;
    push_replies(alloc, &mut claim, numbers.as_slice(), 0)?;
    push(&mut claim, "play pass\nwon\nend\n")?;
    Ok(claim)
}

// The claim, checked.
fn checked(rt: &impl Abort, alloc: Global, claim: &[u8]) -> Checked {
    let (tree, _) = read_tree(alloc, LAST_ROW).ok().expect(rt, "a tree");
    let problem = read_problem(alloc, &tree).ok().expect(rt, "a problem");
    let certificate = read_cert(alloc, problem.size(), claim)
        .ok()
        .expect(rt, "a claim");
    check_held(alloc, problem, certificate)
        .ok()
        .expect(rt, "a valid claim")
}

// Whether the claim is written whole as a proof. A claim that has lemmas is not made into one lemma.
fn is_written_whole(rt: &impl Abort, alloc: Global, checked: &Checked, claim: &[u8], lift: bool) {
    let mut proof = Counting::new(Vec::new(alloc));
    let ended = answer(alloc, checked, true, lift, &mut proof);
    expect_status(rt, ended, Status::Answered);
    expect_that(rt, proof.inner.as_slice().starts_with(CANONICAL));
    expect_that(rt, proof.inner.as_slice().ends_with(claim));
    let whole = CANONICAL.len().saturating_add(claim.len());
    expect_that(rt, proof.inner.len() == whole);
}

// Its answer tree has 328,802 turns.
#[test]
fn a_large_tree_is_not_written_but_its_claim_is(rt: HostRuntime) {
    let alloc = rt.alloc();
    let claim = claim_text(alloc).expect(&rt, "memory");
    let checked = checked(&rt, alloc, claim.as_slice());
    let mut tree = Counting::new(Vec::new(alloc));
    let ended = answer(alloc, &checked, false, false, &mut tree);
    expect_status(&rt, ended, Status::Unanswered);
    expect_text(&rt, tree.inner.as_slice(), "unknown: tree too large\n");
    is_written_whole(&rt, alloc, &checked, claim.as_slice(), false);
    is_written_whole(&rt, alloc, &checked, claim.as_slice(), true);
}
