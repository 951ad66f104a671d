//! A claim without lemmas, made into one lemma with a past.

ghost use Rattle.std.specs.Prelude.{◌≡◌, ◌<◌, ◌↔◌, ◌||◌, Err, IfOk, length, nat_le, nat_lt};
ghost use Rattle.proof_cert.specs.Certificate.{claim_of, node_of};
ghost use Rattle.proof_cert.specs.Claim.{Claim, IsWithinLimits, max_listed, max_nodes};
ghost use Rattle.proof_cert.specs.Stage.{version_number};
ghost use Rattle.cert_check.specs.Checked.{IsChecked};
ghost use Rattle.cert_check.specs.Lift.{IsLifted};
ghost use Rattle.cert_check.specs.Private.Results.{claim_with, version_for};

use crate::held_claim::Checked;
use crate::laws::lifted_claims_are_right;
use crate::lift_fault::Lift;
use crate::results::{Results, results_of};
use crate::sorting::put_in_order;
use go_points::{Colouring, MAX_SIZE};
use proof_cert::{Certificate, Lemma, MAX_LISTED, MAX_NODES, Node, Version};
use std::alloc::{AllocError, Global};

/// The version of a claim whose lemmas need these colourings.
fn version_with(had: &[Colouring]) -> Version
    ensures { version_number result ≡ version_for had.now }
{
    if had.is_empty() {
        return Version::One;
    }
    Version::Two
}

/// The claim of one lemma, at the problem's state, with these lists and this tree.
fn claim_of_lemma(
    alloc: Global,
    checked: &Checked,
    had: Vec<Colouring>,
    absent: Vec<Colouring>,
    body: Node,
) -> Result<Certificate, AllocError>
    ensures { IfOk result
        (λ c. claim_of c ≡ claim_with checked.now.problem checked.now.certificate.winner had.items
        absent.items (node_of checked.now.problem.game.size body)) }
{
    let problem = checked.problem();
    let version = version_with(had.as_slice());
    let mut lemmas = Vec::new(alloc);
    lemmas.push(Lemma {
        mover: problem.mover(),
        passes: problem.passes() as u8,
        root: *problem.colouring(),
        had,
        absent,
        body,
    })?;
    Ok(Certificate {
        version,
        size: problem.size(),
        winner: checked.certificate().winner,
        lemmas,
        main: Node::Use(1),
    })
}

/// Whether a claim of one lemma would pass a limit, if its tree has this many nodes and its lists have this many colourings. Main
/// has one more node.
pub(crate) fn passes_limit(nodes: u32, listed: usize) -> bool
    ensures { result ≡ (nat_le max_nodes nodes || nat_lt max_listed listed) }
{
    nodes >= MAX_NODES || listed > MAX_LISTED as usize
}

/// The claim as one lemma that main uses. The lemma can be shared wherever the position of the problem comes about again with a
/// similar past.
///
/// The lemma has the claim's tree. The results of the winner's moves in the tree must not have occurred, and the results that
/// barred replies in the tree would have given must have occurred. It is refused with `Limit` if a claim of one lemma with these
/// lists would pass a limit, and with `HasLemmas` if the claim has lemmas.
///
/// It takes the time to play through the tree, with one move at each empty point of the region wherever the other side is to move,
/// and to sort the results.
pub fn lift(alloc: Global, checked: &Checked) -> Result<Certificate, Lift>
    ensures lifted { IfOk result
        (λ c. IsLifted checked.now.problem (claim_of checked.now.certificate) (claim_of c)) }
    ensures valid { IfOk result (λ c. IsChecked checked.now.problem (claim_of c)) }
    ensures winner { IfOk result (λ c. c.winner ≡ checked.now.certificate.winner) }
    ensures lemmas { (result ≡ Err Lift.HasLemmas)
        ↔ (0 < length checked.now.certificate.lemmas.items) }
    ensures limit { result ≡ Err Lift.Limit → (y : Claim)
        → IsLifted checked.now.problem (claim_of checked.now.certificate) y → IsWithinLimits y → ⊥ }
{
    let _winner = checked.winner();
    let problem = checked.problem();
    prove!(problem.size().rows() <= MAX_SIZE);
    prove!(problem.place() < problem.history().len());
    if !checked.certificate().lemmas.is_empty() {
        return Err(Lift::HasLemmas);
    }
    let Ok(results) = results_of(alloc, checked) else {
        return Err(Lift::Memory);
    };
    let Results {
        plays: mut absent,
        barred: mut had,
        nodes,
    } = results;
    put_in_order(&mut had);
    put_in_order(&mut absent);
    if passes_limit(nodes, had.len() + absent.len()) {
        return Err(Lift::Limit);
    }
    lifted_claims_are_right();
    let Ok(body) = checked.certificate().main.copy(alloc) else {
        return Err(Lift::Memory);
    };
    match claim_of_lemma(alloc, checked, had, absent, body) {
        Ok(certificate) => Ok(certificate),
        Err(_) => Err(Lift::Memory),
    }
}
