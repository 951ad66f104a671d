//! The search for a checked claim.

ghost use Rattle.std.specs.Prelude.{◌≡◌, ◌≢◌, ◌≤◌, ◌<◌, IfOk, IfErr};
ghost use Rattle.pn_search.specs.Search.{IfWins, IfUnknown, IsHard, cause_told, full_steps};
ghost use Rattle.pn_search.specs.Private.Confirmable.{IsConfirmable};
ghost use Rattle.state_proofs.specs.declared.stop.Stop.TheVariants as stops;
ghost use Rattle.pn_search.specs.declared.verdict.Cause.TheVariants.{Steps, Memory};

use crate::verdict::{Budget, Cause, Verdict};
use cert_check::{Checked, Why, check_held};
use claim_maker::{
    Choice, MAX_TRIED, Pasts, Saving, claim_with_lemmas, claim_without_lemmas, share_tree,
};
use full_search::first_win;
use go_points::{Colour, MAX_SIZE};
use proof_cert::{Certificate, Node, Version};
use state_proofs::{Answers, MAX_STATES, Refusal, Shared, Stop};
use std::alloc::Global;
use target_game::Problem;

/// The greatest number of steps of full search.
const MAX_FULL_STEPS: u64 = 10_000_000;

/// The least number of turns of a lemma: a smaller one is shorter where it is used.
pub(crate) const LEMMA_TURNS: u64 = 3;

/// The least number of turns of the lemma that a claim gets if it would have none.
const ONLY_LEMMA_TURNS: u64 = 2;

/// The choice of lemmas that makes the shortest claims in the least time.
const SHORT_CLAIMS: Choice = Choice {
    pasts: Pasts::Needed,
    least: LEMMA_TURNS,
    saving: Saving::Half,
    otherwise: Some(ONLY_LEMMA_TURNS),
};

/// The same without lemmas that need a past.
const WITHOUT_PASTS: Choice = Choice {
    pasts: Pasts::None,
    ..SHORT_CLAIMS
};

/// The choices of lemmas that are tried, in this order, until the checker accepts a claim: those that make the shortest claims in the
/// least time, those that list little, all, which make the fewest nodes, and those that need no past.
const CHOICES: [Choice; 4] = [
    SHORT_CLAIMS,
    Choice {
        saving: Saving::Four,
        ..SHORT_CLAIMS
    },
    Choice {
        least: 0,
        saving: Saving::Any,
        ..SHORT_CLAIMS
    },
    WITHOUT_PASTS,
];

/// A checked claim, or why there is none, with the problem handed back.
type Found = Result<Checked, (Problem, Cause)>;

/// Searches for a claim of either side that the checker accepts for the problem.
///
/// A tenth of the steps is kept for full search of all legal play within 0, 1, 2 and so on up to 200 turns, which comes first. The
/// search by proof numbers gets all the steps that this leaves, and makes its answer small with some of those that are left then.
/// The same problem and budget give the same verdict, unless memory is refused.
pub fn solve(alloc: Global, problem: Problem, budget: Budget) -> Verdict
    ensures problem { IfWins result (λ c. c.problem ≡ problem) }
    ensures kept { IfUnknown result (λ rest cause steps. rest ≡ problem) }
    ensures most { IfUnknown result (λ rest cause steps. steps ≤ budget.steps) }
    ensures all { IfUnknown result (λ rest cause steps. cause ≡ Steps → steps ≡ budget.steps) }
    ensures begun { IfUnknown result (λ rest cause steps. cause ≢ Memory
        → 20 ≤ budget.steps → 1 ≤ steps) }
    ensures hard { IfUnknown result (λ rest cause steps. cause ≢ Memory
        → IsHard problem budget.steps) }
{
    solve_for(alloc, problem, budget, Answers::Small)
}

/// Like `solve`, for an answer of this kind. The first answer comes sooner, which is enough if nobody reads its tree. The answer for
/// a short claim is here the first one: `find_short` makes short claims.
pub fn solve_for(alloc: Global, problem: Problem, budget: Budget, answers: Answers) -> Verdict
    ensures problem { IfWins result (λ c. c.problem ≡ problem) }
    ensures kept { IfUnknown result (λ rest cause steps. rest ≡ problem) }
    ensures most { IfUnknown result (λ rest cause steps. steps ≤ budget.steps) }
    ensures all { IfUnknown result (λ rest cause steps. cause ≡ Steps → steps ≡ budget.steps) }
    ensures begun { IfUnknown result (λ rest cause steps. cause ≢ Memory
        → 20 ≤ budget.steps → 1 ≤ steps) }
    ensures hard { IfUnknown result (λ rest cause steps. cause ≢ Memory
        → IsHard problem budget.steps) }
{
    let mut left = budget.steps;
    match searched(alloc, problem, budget, answers, &mut left) {
        Ok(checked) => Verdict::Wins(checked),
        Err((problem, cause)) => Verdict::Unknown {
            problem,
            cause,
            steps: budget.steps - left,
        },
    }
}

/// The steps that full search has.
pub(crate) fn steps_of_full_search(steps: u64) -> u64
    ensures { result ≡ full_steps steps }
{
    (steps / 10).min(MAX_FULL_STEPS)
}

/// What both searches find. Each of them lowers the steps that are left.
fn searched(
    alloc: Global,
    problem: Problem,
    budget: Budget,
    answers: Answers,
    left: &mut u64,
) -> Found
    requires { left.old ≡ budget.steps }
    ensures ok { IfOk result (λ c. c.problem ≡ problem) }
    ensures err { IfErr result (λ r. r.0 ≡ problem) }
    ensures fewer { left.new ≤ left.old }
    ensures all { IfErr result (λ r. r.1 ≡ Steps → left.new ≡ 0) }
    ensures begun { IfErr result (λ r. r.1 ≢ Memory → 20 ≤ budget.steps → left.new < left.old) }
    ensures hard { IfErr result (λ r. r.1 ≢ Memory → IsHard problem budget.steps) }
{
    let floor = *left - steps_of_full_search(budget.steps);
    match first_win(alloc, &problem, floor, left) {
        Ok(Some((winner, main))) => confirmed(alloc, problem, winner, main),
        Ok(None) => searched_by_numbers(alloc, problem, budget, answers, left),
        Err(_) => Err((problem, Cause::Memory)),
    }
}

/// The claim of what the search by proof numbers finds. If the claim of a first answer passes a limit, a smaller answer is searched
/// for.
fn searched_by_numbers(
    alloc: Global,
    problem: Problem,
    budget: Budget,
    answers: Answers,
    left: &mut u64,
) -> Found
    ensures ok { IfOk result (λ c. c.problem ≡ problem) }
    ensures err { IfErr result (λ r. r.0 ≡ problem) }
    ensures fewer { left.new ≤ left.old }
    ensures all { IfErr result (λ r. r.1 ≡ Steps → left.new ≡ 0) }
{
    match claimed(alloc, problem, budget, answers, left) {
        Ok(checked) => Ok(checked),
        Err((problem, Cause::Limit)) => match answers {
            Answers::First | Answers::Short => claimed_smaller(alloc, problem, budget, left),
            Answers::Small => Err((problem, Cause::Limit)),
        },
        Err((problem, cause)) => Err((problem, cause)),
    }
}

/// The claim of a smaller answer, if that of the first one passes a limit.
fn claimed_smaller(alloc: Global, problem: Problem, budget: Budget, left: &mut u64) -> Found
    ensures ok { IfOk result (λ c. c.problem ≡ problem) }
    ensures err { IfErr result (λ r. r.0 ≡ problem) }
    ensures fewer { left.new ≤ left.old }
    ensures cause { IfErr result (λ r. r.1 ≢ Steps) }
{
    match claimed(alloc, problem, budget, Answers::Small, left) {
        Ok(checked) => Ok(checked),
        Err((problem, Cause::Steps)) => Err((problem, Cause::Limit)),
        Err((problem, cause)) => Err((problem, cause)),
    }
}

/// The claim of an answer of this kind.
fn claimed(
    alloc: Global,
    problem: Problem,
    budget: Budget,
    answers: Answers,
    left: &mut u64,
) -> Found
    ensures ok { IfOk result (λ c. c.problem ≡ problem) }
    ensures err { IfErr result (λ r. r.0 ≡ problem) }
    ensures fewer { left.new ≤ left.old }
    ensures all { IfErr result (λ r. r.1 ≡ Steps → left.new ≡ 0) }
{
    match proofs_of(alloc, &problem, budget, without_leaves(answers), left) {
        Ok(shared) => confirmed_in_turn(alloc, problem, shared),
        Err(stop) => Err((problem, cause_of_stop(stop))),
    }
}

/// The kind of answer from which the checker takes claims: it knows no leaves.
fn without_leaves(answers: Answers) -> Answers {
    match answers {
        Answers::First | Answers::Short => Answers::First,
        Answers::Small => Answers::Small,
    }
}

/// The proofs that the search by proof numbers finds.
pub(crate) fn proofs_of(
    alloc: Global,
    problem: &Problem,
    budget: Budget,
    answers: Answers,
    left: &mut u64,
) -> Result<Shared, Stop>
    ensures fewer { left.new ≤ left.old }
    ensures all { IfErr result (λ stop. stop ≡ stops.Steps → left.new ≡ 0) }
{
    local_search::prove(alloc, problem, budget.table, answers, left)
}

/// The claim of the tree that full search found, with lemmas that may need a past if the checker accepts it, otherwise with those
/// that need none, and at last without.
fn confirmed(alloc: Global, problem: Problem, winner: Colour, main: Node) -> Found
    ensures ok { IfOk result (λ c. c.problem ≡ problem) }
    ensures err { IfErr result (λ r. r.0 ≡ problem) }
    ensures cause { IfErr result (λ r. r.1 ≢ Steps) }
    ensures refused { IfErr result (λ r. r.1 ≢ Memory → IsConfirmable problem winner main → ⊥) }
{
    match share_tree(alloc, &problem, winner, &main) {
        Err(_) => confirmed_plainly(alloc, problem, winner, main),
        Ok(shared) => {
            let mut nodes = MAX_TRIED;
            let claim = claim_with_lemmas(alloc, &problem, &shared, SHORT_CLAIMS, &mut nodes);
            match accepted(alloc, problem, claim) {
                Ok(checked) => Ok(checked),
                Err((problem, _)) => confirmed_without_pasts(alloc, problem, &shared, winner, main),
            }
        }
    }
}

/// The claim of the tree that full search found, with lemmas that need no past if the checker accepts it, otherwise without.
fn confirmed_without_pasts(
    alloc: Global,
    problem: Problem,
    shared: &Shared,
    winner: Colour,
    main: Node,
) -> Found
    ensures ok { IfOk result (λ c. c.problem ≡ problem) }
    ensures err { IfErr result (λ r. r.0 ≡ problem) }
    ensures cause { IfErr result (λ r. r.1 ≢ Steps) }
    ensures refused { IfErr result (λ r. r.1 ≢ Memory → IsConfirmable problem winner main → ⊥) }
{
    let mut nodes = MAX_TRIED;
    let claim = claim_with_lemmas(alloc, &problem, shared, WITHOUT_PASTS, &mut nodes);
    match accepted(alloc, problem, claim) {
        Ok(checked) => Ok(checked),
        Err((problem, _)) => confirmed_plainly(alloc, problem, winner, main),
    }
}

/// The claim of the proofs with lemmas, in the first of the choices for which the checker accepts it, otherwise without. All choices
/// share the nodes that may be tried.
fn confirmed_in_turn(alloc: Global, problem: Problem, shared: Shared) -> Found
    ensures ok { IfOk result (λ c. c.problem ≡ problem) }
    ensures err { IfErr result (λ r. r.0 ≡ problem) }
    ensures cause { IfErr result (λ r. r.1 ≢ Steps) }
{
    if shared.proofs.len() > MAX_STATES {
        return Err((problem, Cause::Limit));
    }
    let mut rest = problem;
    let mut nodes = MAX_TRIED;
    for choice in CHOICES {
        let claim = claim_with_lemmas(alloc, &rest, &shared, choice, &mut nodes);
        match accepted(alloc, rest, claim) {
            Ok(checked) => return Ok(checked),
            Err((problem, _)) => rest = problem,
        }
    }
    let claim = claim_without_lemmas(alloc, &rest, &shared, &mut nodes);
    accepted(alloc, rest, claim)
}

/// The claim, if it could be written and the checker accepts it.
fn accepted(alloc: Global, problem: Problem, claim: Result<Certificate, Refusal>) -> Found
    ensures ok { IfOk result (λ c. c.problem ≡ problem) }
    ensures err { IfErr result (λ r. r.0 ≡ problem) }
    ensures cause { IfErr result (λ r. r.1 ≢ Steps) }
{
    match claim {
        Ok(certificate) => match check_held(alloc, problem, certificate) {
            Ok(checked) => Ok(checked),
            Err((reject, problem, _)) => Err((problem, cause_of(reject.why))),
        },
        Err(refusal) => Err((problem, cause_of_refusal(refusal))),
    }
}

/// The claim of the tree that full search found, without lemmas.
fn confirmed_plainly(alloc: Global, problem: Problem, winner: Colour, main: Node) -> Found
    ensures ok { IfOk result (λ c. c.problem ≡ problem) }
    ensures err { IfErr result (λ r. r.0 ≡ problem) }
    ensures cause { IfErr result (λ r. r.1 ≢ Steps) }
    ensures refused { IfErr result (λ r. r.1 ≢ Memory → IsConfirmable problem winner main → ⊥) }
{
    prove!(problem.size().rows() <= MAX_SIZE);
    let certificate = Certificate {
        version: Version::One,
        size: problem.size(),
        winner,
        lemmas: Vec::new(alloc),
        main,
    };
    match check_held(alloc, problem, certificate) {
        Ok(checked) => Ok(checked),
        Err((reject, problem, _)) => Err((problem, cause_of(reject.why))),
    }
}

/// Why there is no verdict, if the checker refused the claim without lemmas for this reason.
fn cause_of(why: Why) -> Cause
    ensures { result ≡ cause_told why }
{
    match why {
        Why::Limit => Cause::Limit,
        Why::Memory => Cause::Memory,
        _ => Cause::NotConfirmed,
    }
}

/// Why there is no verdict, if the search by proof numbers stopped for this reason.
pub(crate) fn cause_of_stop(stop: Stop) -> Cause
    ensures { result ≡ Steps → stop ≡ stops.Steps }
{
    match stop {
        Stop::Steps => Cause::Steps,
        Stop::Refused(refusal) => cause_of_refusal(refusal),
    }
}

/// Why there is no verdict, if a claim could not be written for this reason.
pub(crate) fn cause_of_refusal(refusal: Refusal) -> Cause
    ensures { result ≢ Steps }
{
    match refusal {
        Refusal::Memory => Cause::Memory,
        Refusal::Limit => Cause::Limit,
        Refusal::Fault => Cause::NotConfirmed,
    }
}
