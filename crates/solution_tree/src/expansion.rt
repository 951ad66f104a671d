//! The answer tree that a checked claim gives at the problem's start.

ghost use Rattle.std.specs.Prelude.{◌≡◌, ◌≤◌, ◌<◌, IsTrue, IfOk, IfErr};
ghost use Rattle.target_game.specs.Answers.{answer_size, answers};
ghost use Rattle.target_game.specs.State.{start};
ghost use Rattle.proof_cert.specs.Certificate.{claim_of};
ghost use Rattle.cert_check.specs.Expand.{expand};
ghost use Rattle.solution_tree.specs.declared.fault.Expand.TheVariants.{TooLarge};
ghost use Rattle.solution_tree.specs.Answer.{answer_of};
ghost use Rattle.solution_tree.specs.Private.Opened.{expanded};

use crate::answer::Answer;
use crate::fault::Expand;
use crate::opened::{OpenTurn, Part, step};
use cert_check::Checked;
use cert_check::laws::valid_claims_answer;
use std::alloc::Global;
use target_game::{PlayState, State};

/// Walks through the whole tree of the claim, and returns it if trees are kept; otherwise, what is returned says nothing. It takes
/// memory only for the line of play, the replies that are still to come, and what is kept, and ends at the first turn past the limit.
fn walk(alloc: Global, keep: bool, checked: &Checked, limit: usize) -> Result<Answer, Expand>
    ensures tree { IfOk result (λ a. IsTrue keep
        → answer_of checked.now.problem.game.size a ≡ expanded checked.now) }
    ensures answers { IfOk result (λ a. IsTrue (answers (claim_of checked.now.certificate).winner
        (start checked.now.problem) (expanded checked.now))) }
    ensures size { IfOk result (λ a. answer_size (expanded checked.now) ≤ limit) }
    ensures large { IfErr result (λ e. e ≡ TooLarge → limit < answer_size (expanded checked.now)) }
{
    valid_claims_answer();
    let _winner = checked.winner();
    let problem = checked.problem();
    prove!(problem.place() < problem.history().len());
    let Ok(mut state) = State::of(alloc, problem) else {
        return Err(Expand::Memory);
    };
    let mut opened = Vec::new(alloc);
    let mut node = &checked.certificate().main;
    let mut left = limit;
    loop {
        match step(alloc, keep, checked, node, &mut state, &mut opened) {
            Err(_) => return Err(Expand::Memory),
            Ok(Part::Finished(tree)) => return Ok(tree),
            Ok(Part::Claimed(below)) => {
                if left == 0 {
                    return Err(Expand::TooLarge);
                }
                left -= 1;
                node = below;
            }
        }
    }
}

/// The answer tree that the claim gives at the start of its problem, with all earlier positions: each use of a lemma is replaced by
/// the lemma's body, and only the replies that are legal there stay. Refused if it has more turns than `limit`; the turns are
/// counted first, so no memory is allocated for a tree that is refused.
pub fn expand(alloc: Global, checked: &Checked, limit: usize) -> Result<Answer, Expand>
    ensures tree { IfOk result
        (λ a. answer_of checked.now.problem.game.size a
        ≡ expand (claim_of checked.now.certificate) (start checked.now.problem)) }
    ensures answers { IfOk result
        (λ a. IsTrue (answers (claim_of checked.now.certificate).winner (start checked.now.problem)
        (answer_of checked.now.problem.game.size a))) }
    ensures size { IfOk result
        (λ a. answer_size (expand (claim_of checked.now.certificate) (start checked.now.problem))
        ≤ limit) }
    ensures large { IfErr result (λ e. e ≡ TooLarge
        → limit < answer_size
        (expand (claim_of checked.now.certificate) (start checked.now.problem))) }
{
    if let Err(refusal) = walk(alloc, false, checked, limit) {
        return Err(refusal);
    }
    walk(alloc, true, checked, limit)
}
