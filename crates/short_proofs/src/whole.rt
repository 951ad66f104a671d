//! Claims by answers, which hold on the whole board: found for a problem, and judged before they count.

ghost use Rattle.std.specs.Prelude.{IfOk, IsFalse, IsTrue};
ghost use Rattle.short_proofs.specs.Says.{IsSafeOrDead};
ghost use Rattle.short_proofs.specs.Proved.{HasClaim};

use go_points::Point;
use group_search::{Finding, Limits, find_for_stone};
use safe_groups::{Reject, Stop};
use std::alloc::{AllocError, Global};
use target_game::Problem;

/// What the search for a claim by answers comes to.
#[derive(Drop)]
pub(crate) enum Found {
    /// The text of a claim that the judge accepts for the problem.
    Claim(Vec<u8>),
    /// Something was found, but the judge does not accept it: answers that the problem's region or targets do not allow.
    Refused,
    /// Nothing was found with these steps.
    Nothing,
}

/// Searches for a claim by answers about the first target, and gives what is found to the judge.
pub(crate) fn find_claim(alloc: Global, problem: &Problem, steps: u64) -> Result<Found, AllocError>
    ensures { IfOk result (HasClaim problem.now) }
{
    let Some(target) = problem.targets().first() else {
        return Ok(Found::Nothing);
    };
    match find(alloc, problem, steps, target)? {
        Some(claim) => confirmed(alloc, problem, claim),
        None => Ok(Found::Nothing),
    }
}

/// The text of what is found about the target.
fn find(
    alloc: Global,
    problem: &Problem,
    steps: u64,
    target: Point,
) -> Result<Option<Vec<u8>>, AllocError> {
    let limits = Limits {
        all_steps: steps,
        ..Limits::default()
    };
    let board = problem.colouring();
    let mover = Some(problem.mover());
    let found = find_for_stone(alloc, board, problem.history(), mover, limits, target)?;
    copied(alloc, &found)
}

/// A copy of the finding's claim.
fn copied(alloc: Global, found: &Option<Finding>) -> Result<Option<Vec<u8>>, AllocError> {
    match found {
        Some(finding) => copy_of(alloc, finding.claim.as_slice()),
        None => Ok(None),
    }
}

fn copy_of(alloc: Global, bytes: &[u8]) -> Result<Option<Vec<u8>>, AllocError> {
    let mut text = Vec::new(alloc);
    text.extend_from_slice(bytes)?;
    Ok(Some(text))
}

/// The claim, if the judge accepts it for the problem.
fn confirmed(alloc: Global, problem: &Problem, claim: Vec<u8>) -> Result<Found, AllocError>
    ensures { IfOk result (HasClaim problem.now) }
{
    if is_accepted(alloc, problem, claim.as_slice())? {
        Ok(Found::Claim(claim))
    } else {
        Ok(Found::Refused)
    }
}

/// Whether the judge of its kind accepts the claim for the problem.
fn is_accepted(alloc: Global, problem: &Problem, claim: &[u8]) -> Result<bool, AllocError>
    ensures { IfOk result (λ is. IsTrue is → IsSafeOrDead problem.now) }
{
    let mut nothing = b"".as_slice();
    if claim.starts_with(b"tsudeath ") {
        return match dead_groups::judge(alloc, problem, claim, &mut nothing) {
            Ok(_) => Ok(true),
            Err(reject) => refused(&reject),
        };
    }
    match safe_groups::judge(alloc, problem, claim, &mut nothing) {
        Ok(_) => Ok(true),
        Err(reject) => refused(&reject),
    }
}

/// That the claim is not accepted, unless memory ran out.
fn refused(reject: &Reject) -> Result<bool, AllocError>
    ensures { IfOk result IsFalse }
{
    if reject.stop == Stop::Memory {
        return Err(AllocError);
    }
    Ok(false)
}
