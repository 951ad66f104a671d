//! The search for a short claim, whose leaves are states where the defender lives by the shape of his stones.
//!
//! Nothing is promised of such a claim: it is to be given to the judge of short claims.

ghost use Rattle.std.specs.Prelude.{◌≡◌, ◌≢◌, ◌≤◌, IfErr};
ghost use Rattle.pn_search.specs.declared.verdict.Cause.TheVariants.{Steps, Memory};

use crate::search::{
    LEMMA_TURNS, cause_of_refusal, cause_of_stop, proofs_of, steps_of_full_search,
};
use crate::verdict::{Budget, Cause};
use claim_maker::{Choice, MAX_TRIED, Pasts, Saving, claim_with_lemmas, claim_without_lemmas};
use full_search::first_win;
use go_points::Colour;
use local_board::{MAX_SMALL, count_changing};
use proof_cert::{Certificate, Node, Version};
use state_proofs::{Answers, MAX_STATES, Refusal, Shared};
use std::alloc::Global;
use target_game::Problem;

/// Whom a short claim is for, which decides what its lemmas have to save.
#[derive(Clone, Copy, Debug, PartialEq, Eq)]
pub enum Audience {
    /// The judge. With few lists a claim is short, and takes him little time and memory.
    Judge,
    /// Readers. What is shown of a claim goes on at a lemma only once, so all that can be are lemmas.
    Readers,
}

impl Audience {
    /// What a lemma has to save, in the order in which it is tried until a claim passes no limit.
    fn savings(self) -> [Saving; 3] {
        match self {
            Audience::Judge => [Saving::Half, Saving::Four, Saving::Any],
            Audience::Readers => [Saving::Any, Saving::Half, Saving::Four],
        }
    }
}

/// Searches for a short claim of either side: by proof numbers where few points can change, since the leaves make its trees shorter
/// than those of full search, and else as `solve` does, with a tenth of the steps for full search first. At most `left` steps are
/// made, and `left` falls by those that are. If the cause is `Cause::Steps`, none is left.
pub fn find_short(
    alloc: Global,
    problem: &Problem,
    audience: Audience,
    budget: Budget,
    left: &mut u64,
) -> Result<Certificate, Cause>
    ensures fewer { left.new ≤ left.old }
    ensures all { IfErr result (λ cause. cause ≡ Steps → left.new ≡ 0) }
{
    let Ok(changing) = count_changing(alloc, problem) else {
        return Err(Cause::Memory);
    };
    if changing > MAX_SMALL {
        let floor = left.saturating_sub(steps_of_full_search(budget.steps));
        match first_win(alloc, problem, floor, left) {
            Ok(Some((winner, main))) => return Ok(claim_of_tree(alloc, problem, winner, main)),
            Ok(None) => {}
            Err(_) => return Err(Cause::Memory),
        }
    }
    match proofs_of(alloc, problem, budget, Answers::Short, left) {
        Ok(shared) => claim_of_proofs(alloc, problem, audience, &shared),
        Err(stop) => Err(cause_of_stop(stop)),
    }
}

/// The claim of the tree that full search found, which has no leaves.
fn claim_of_tree(alloc: Global, problem: &Problem, winner: Colour, main: Node) -> Certificate {
    Certificate {
        version: Version::One,
        size: problem.size(),
        winner,
        lemmas: Vec::new(alloc),
        main,
    }
}

/// The claim of the proofs with lemmas, or without any if each such claim would pass a limit.
fn claim_of_proofs(
    alloc: Global,
    problem: &Problem,
    audience: Audience,
    shared: &Shared,
) -> Result<Certificate, Cause>
    ensures cause { IfErr result (λ cause. cause ≢ Steps) }
{
    if shared.proofs.len() > MAX_STATES {
        return Err(Cause::Limit);
    }
    let mut nodes = MAX_TRIED;
    for saving in audience.savings() {
        let choice = Choice {
            pasts: Pasts::Needed,
            least: LEMMA_TURNS,
            saving,
            otherwise: None,
        };
        match claim_with_lemmas(alloc, problem, shared, choice, &mut nodes) {
            Ok(certificate) => return Ok(certificate),
            Err(Refusal::Limit) => {}
            Err(refusal) => return Err(cause_of_refusal(refusal)),
        }
    }
    match claim_without_lemmas(alloc, problem, shared, &mut nodes) {
        Ok(certificate) => Ok(certificate),
        Err(refusal) => Err(cause_of_refusal(refusal)),
    }
}
