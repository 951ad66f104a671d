//! Claims held in memory, checked once and for all.

ghost use Rattle.std.specs.Prelude.{◌≡◌, ◌⊎◌, IfOk, IfErr};
ghost use Rattle.target_game.specs.State.{start};
ghost use Rattle.target_game.specs.Wins.{Wins};
ghost use Rattle.proof_cert.specs.Certificate.{claim_of};
ghost use Rattle.cert_check.specs.declared.reject.Why.TheVariants.{Memory, Read};
ghost use Rattle.cert_check.specs.Meaning.{KeepsPromises};
ghost use Rattle.cert_check.specs.Checked.{IsChecked, verdict_on};
ghost use Rattle.cert_check.specs.Stage.{Rejects};

use crate::checker::check;
use crate::reject::{Reject, Why};
use go_points::{Colour, MAX_SIZE};
use proof_cert::laws::{lines_given_of_claim, one_claim_of_text};
use proof_cert::{Certificate, HeldSource};
use std::alloc::Global;
use std::marker::Model;
use target_game::Problem;

/// A problem with a claim that is valid for it and within the limits. Only `check_held` makes one.
#[derive(Drop)]
pub struct Checked {
    winner: Colour,
    problem: Problem,
    certificate: Certificate,
}

impl Model for Checked {
    ghost use Rattle.std.specs.Prelude.{◌≡◌};
    ghost use Rattle.proof_cert.specs.Certificate.{claim_of};
    ghost use Rattle.cert_check.specs.Checked.{CheckedClaim, IsChecked};
    ghost use Rattle.proof_cert.specs.contracts.certificate.Node as node;
    ghost use Rattle.std.specs.Coded.{codes};

    ghost Value = { CheckedClaim };

    ghost coded = { Prim.hlevel (codes, node.the_row.coded) };

    ghost view = { λ a. record { problem = a.problem; certificate = a.certificate } };

    ghost invariant = { λ a. IsChecked a.problem (claim_of a.certificate)
        × (a.winner ≡ (claim_of a.certificate).winner) };
}

impl Checked {
    /// Who wins the problem. Each lemma of the claim holds whatever the past, as long as everything that it says must have occurred
    /// has occurred, and nothing that it says must not have.
    pub fn winner(&self) -> Colour
        ensures winner { result ≡ (claim_of self.now.certificate).winner }
        ensures wins { Wins result (start self.now.problem) }
        ensures lemmas { KeepsPromises self.now.problem (claim_of self.now.certificate) }
        ensures checked { IsChecked self.now.problem (claim_of self.now.certificate) }
    {
        prove!(self.problem.place() < self.problem.history().len());
        self.winner
    }

    pub fn problem(&self) -> &Problem
        ensures { result.now ≡ self.now.problem }
    {
        &self.problem
    }

    pub fn certificate(&self) -> &Certificate
        ensures { result.now ≡ self.now.certificate }
    {
        &self.certificate
    }
}

/// Who wins according to the certificate, or its first fault.
fn judge_held(alloc: Global, problem: &Problem, certificate: &Certificate) -> Result<Colour, Reject>
    ensures ok { IfOk result (λ x. IsChecked problem.now (claim_of certificate.now)
        × ((claim_of certificate.now).winner ≡ x)) }
    ensures err { IfErr result
        (λ e. (e.why ≡ Memory) ⊎ (IsChecked problem.now (claim_of certificate.now) → ⊥)) }
    ensures fault { IfErr result
        (λ e. Rejects problem.now.game.size (verdict_on problem.now (claim_of certificate.now)) e) }
    ensures read { IfErr result (λ e. e.why ≡ Read → ⊥) }
{
    prove!(problem.size().rows() <= MAX_SIZE);
    prove!(certificate.size.rows() <= MAX_SIZE);
    if certificate.size != problem.size() {
        return Err(Reject {
            place: 1,
            why: Why::SizeDiffers,
        });
    }
    lines_given_of_claim();
    one_claim_of_text();
    check(alloc, problem, &mut HeldSource::new(alloc, certificate))
}

/// The certificate, checked for the problem, exactly if it is valid for it and within the limits; otherwise its first fault, with
/// the problem and the certificate handed back. If memory is refused, that is the fault, and it says nothing about the certificate.
/// The fault is never that the lines could not be read.
pub fn check_held(
    alloc: Global,
    problem: Problem,
    certificate: Certificate,
) -> Result<Checked, (Reject, Problem, Certificate)>
    ensures problem { IfOk result (λ k. k.problem ≡ problem) }
    ensures certificate { IfOk result (λ k. k.certificate ≡ certificate) }
    ensures kept { IfErr result (λ r. (r.1 ≡ problem) × (r.2 ≡ certificate)) }
    ensures err { IfErr result
        (λ r. (r.0.why ≡ Memory) ⊎ (IsChecked problem (claim_of certificate) → ⊥)) }
    ensures fault { IfErr result
        (λ r. Rejects problem.game.size (verdict_on problem (claim_of certificate)) r.0) }
    ensures read { IfErr result (λ r. r.0.why ≡ Read → ⊥) }
{
    match judge_held(alloc, &problem, &certificate) {
        Ok(winner) => Ok(Checked {
            winner,
            problem,
            certificate,
        }),
        Err(reject) => Err((reject, problem, certificate)),
    }
}
