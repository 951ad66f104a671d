//! The checker of claims, over any source of lines. It holds none of the lines.

ghost use Rattle.std.specs.Prelude.{◌≡◌, Bool, List, Some, None, IfOk, IfErr};
ghost use Rattle.go_points.specs.declared.Cell.{Cell as SpecCell};
ghost use Rattle.target_game.specs.State.{start};
ghost use Rattle.target_game.specs.Wins.{Wins};
ghost use Rattle.cert_check.specs.declared.reject.Why.TheVariants.{Memory, Read};
ghost use Rattle.cert_check.specs.Body.{Why as SpecWhy};
ghost use Rattle.cert_check.specs.Stage.{why_value};
ghost use Rattle.cert_check.specs.Checks.{Accepts, AcceptsBy, AsksTo, RejectsAt, RejectsAtBy, FailsAt, FailsAtBy, IsReached, IsReachedBy};
ghost use Rattle.cert_check.specs.Private.Judging.{IsToldBy};

use crate::judge::Judge;
use crate::kind::Kind;
use crate::reject::{Reject, Why};
use go_points::Colour;
use proof_cert::{NodeSource, SourceFault};
use std::alloc::Global;
use target_game::Problem;

/// More lines than any claim has.
const MOST_LINES: u64 = 9_223_372_036_854_775_807;

/// Who wins the problem according to the claim whose lines the source gives, or the first fault. Lines are taken until one is
/// faulty or the source has ended, and none is held: the source is not asked for a line after the faulty one. If memory is refused
/// or a line cannot be read, that is the fault, and no line before it is faulty.
pub fn check<S: NodeSource>(
    alloc: Global,
    problem: &Problem,
    source: &mut S,
) -> Result<Colour, Reject>
    ensures ok { IfOk result (λ x. Accepts S.gives (S.size source.old) problem.now source.old x) }
    ensures wins { IfOk result (λ x. Wins x (start problem.now)) }
    ensures err { S.fault source.old ≡ None
        → IfErr result (λ e. (why : SpecWhy) → why_value problem.now.game.size e.why ≡ Some why
        → RejectsAt S.gives (S.size source.old) problem.now source.old e.place why) }
    ensures read { S.fault source.old ≡ None
        → IfErr result (λ e. e.why ≡ Read
        → FailsAt S.gives S.number (S.size source.old) problem.now source.old e.place) }
    ensures memory { S.fault source.old ≡ None
        → IfErr result (λ e. e.why ≡ Memory
        → IsReached S.gives (S.size source.old) problem.now source.old e.place) }
    ensures asked { S.fault source.old ≡ None
        → IfErr result (λ e. AsksTo S.gives source.old e.place source.new) }
{
    prove!(problem.place() < problem.history().len());
    check_by(alloc, problem, Kind::Ordinary, source)
}

/// Who wins according to a claim of this kind. Any shape that tells where the targets may be said to live gives the same verdict.
pub(crate) fn check_by<S: NodeSource>(
    alloc: Global,
    problem: &Problem,
    kind: Kind,
    source: &mut S,
) -> Result<Colour, Reject>
    ensures ok { (shape : List SpecCell → Bool)
        → IsToldBy kind problem.now.game shape
        → IfOk result
        (λ x. AcceptsBy shape S.gives (S.size source.old) problem.now source.old x) }
    ensures err { (shape : List SpecCell → Bool)
        → IsToldBy kind problem.now.game shape
        → S.fault source.old ≡ None
        → IfErr result (λ e. (why : SpecWhy) → why_value problem.now.game.size e.why ≡ Some why
        → RejectsAtBy shape S.gives (S.size source.old) problem.now source.old e.place why) }
    ensures read { (shape : List SpecCell → Bool)
        → IsToldBy kind problem.now.game shape
        → S.fault source.old ≡ None
        → IfErr result (λ e. e.why ≡ Read
        → FailsAtBy shape S.gives S.number (S.size source.old) problem.now source.old e.place) }
    ensures memory { (shape : List SpecCell → Bool)
        → IsToldBy kind problem.now.game shape
        → S.fault source.old ≡ None
        → IfErr result (λ e. e.why ≡ Memory
        → IsReachedBy shape S.gives (S.size source.old) problem.now source.old e.place) }
    ensures asked { S.fault source.old ≡ None
        → IfErr result (λ e. AsksTo S.gives source.old e.place source.new) }
{
    let Ok(mut judge) = Judge::new(alloc, problem) else {
        return Err(Reject {
            place: 1,
            why: Why::Memory,
        });
    };
    for count in 0..MOST_LINES {
        match source.next() {
            Ok(Some(line)) => {
                if let Err(reject) = judge.take(kind, &line) {
                    return Err(reject);
                }
            }
            Ok(None) => return judge.end(),
            Err(SourceFault::Malformed) => return Err(judge.malformed()),
            Err(SourceFault::Memory) => return Err(judge.reject(Why::Memory)),
            Err(SourceFault::Read) => return Err(judge.reject(Why::Read)),
        }
    }
    Err(judge.reject(Why::Memory))
}
