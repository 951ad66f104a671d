//! A short claim that is found and accepted.

ghost use Rattle.std.specs.Prelude.{IfOk};
ghost use Rattle.target_game.specs.State.{start};
ghost use Rattle.target_game.specs.Wins.{Wins};
ghost use Rattle.short_proofs.specs.Proved.{HasWinner};
ghost use Rattle.short_proofs.specs.Says.{IsAccepted};

use crate::first_turn::first_turn;
use cert_check::{Why, check_short};
use go_points::{Colour, Turn};
use pass_alive::lives_at;
use pn_search::{Audience, Budget, Cause, find_short};
use proof_cert::{Certificate, Node, ReaderSource, Version, write_short};
use std::alloc::{AllocError, Global};
use target_game::Problem;

/// What a search for a short claim found.
#[derive(Drop)]
pub enum Proved {
    /// This side wins: the judge accepts the text, which is the short claim of this certificate. `turn` is the winner's first turn in
    /// it, if the winner moves first.
    Wins {
        winner: Colour,
        turn: Option<Turn>,
        text: Vec<u8>,
        certificate: Certificate,
    },
    /// Nothing is known, for this cause, after so many steps.
    Unknown {
        cause: Cause,
        steps: u64,
    },
}

/// Searches for a short claim of either side that its judge accepts. It fails only if memory is refused. The same problem, audience
/// and budget give the same answer.
pub fn prove(
    alloc: Global,
    problem: &Problem,
    audience: Audience,
    budget: Budget,
) -> Result<Proved, AllocError>
    ensures { IfOk result (HasWinner problem.now) }
{
    if lives_at(problem, problem.colouring()) {
        return judged(alloc, problem, living(alloc, problem), 0);
    }
    let mut left = budget.steps;
    match find_short(alloc, problem, audience, budget, &mut left) {
        Ok(certificate) => judged(alloc, problem, certificate, budget.steps - left),
        Err(Cause::Memory) => Err(AllocError),
        Err(cause) => Ok(Proved::Unknown {
            cause,
            steps: budget.steps - left,
        }),
    }
}

/// The short claim that only says so.
fn living(alloc: Global, problem: &Problem) -> Certificate {
    Certificate {
        version: Version::Two,
        size: problem.size(),
        winner: problem.defender(),
        lemmas: Vec::new(alloc),
        main: Node::Use(0),
    }
}

/// What the judge says of the certificate's text.
pub(crate) fn judged(
    alloc: Global,
    problem: &Problem,
    certificate: Certificate,
    steps: u64,
) -> Result<Proved, AllocError>
    ensures { IfOk result (HasWinner problem.now) }
{
    let mut text = Vec::new(alloc);
    if write_short(&certificate, &mut text).is_err() {
        return Err(AllocError);
    }
    match winner_of(alloc, problem, text.as_slice()) {
        Ok(winner) => Ok(Proved::Wins {
            winner,
            turn: first_turn(&certificate),
            text,
            certificate,
        }),
        Err(Why::Memory) => Err(AllocError),
        Err(Why::Limit) => Ok(Proved::Unknown {
            cause: Cause::Limit,
            steps,
        }),
        Err(_) => Ok(Proved::Unknown {
            cause: Cause::NotConfirmed,
            steps,
        }),
    }
}

/// Who wins according to the short claim of these bytes, or why it is not accepted.
fn winner_of(alloc: Global, problem: &Problem, claim: &[u8]) -> Result<Colour, Why>
    ensures accepted { IfOk result (IsAccepted problem.now claim.now) }
    ensures wins { IfOk result (λ x. Wins x (start problem.now)) }
{
    let mut nothing = b"".as_slice();
    let mut source = ReaderSource::of_short(problem.size(), claim, &mut nothing);
    match check_short(alloc, problem, &mut source) {
        Ok(winner) => Ok(winner),
        Err(reject) => Err(reject.why),
    }
}
