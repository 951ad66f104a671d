//! The checker of short claims, whose leaves may also be states where the targets live by their shape.

ghost use Rattle.std.specs.Prelude.{◌≡◌, Bool, List, Some, None, IfOk, IfErr};
ghost use Rattle.go_points.specs.declared.Cell.{Cell as SpecCell};
ghost use Rattle.target_game.specs.State.{start};
ghost use Rattle.target_game.specs.Wins.{Wins};
ghost use Rattle.pass_alive.specs.Told.{Tells};
ghost use Rattle.cert_check.specs.declared.reject.Why.TheVariants.{Memory, Read};
ghost use Rattle.cert_check.specs.Body.{Why as SpecWhy};
ghost use Rattle.cert_check.specs.Stage.{why_value};
ghost use Rattle.cert_check.specs.Checks.{AcceptsBy, AsksTo, RejectsAtBy, FailsAtBy, IsReachedBy};

use crate::checker::check_by;
use crate::kind::Kind;
use crate::laws::accepted_short_sides_win;
use crate::reject::Reject;
use go_points::Colour;
use pass_alive::laws::shapes_can_be_told;
use proof_cert::NodeSource;
use std::alloc::Global;
use target_game::Problem;
use target_game::laws::{not_both_win, winner_exists};

/// As `check`, of a short claim. In it, `Line::Use(0)` says that the targets live by their shape: nobody has won, fewer than two
/// passes have just been made, the claim's winner is the defender, and no play of the other side ever takes the targets. It is
/// refused as `LemmaNotLower`. Each such line takes the time of `is_pass_alive`.
pub fn check_short<S: NodeSource>(
    alloc: Global,
    problem: &Problem,
    source: &mut S,
) -> Result<Colour, Reject>
    ensures ok { (shape : List SpecCell → Bool)
        → Tells problem.now.game shape
        → IfOk result
        (λ x. AcceptsBy shape S.gives (S.size source.old) problem.now source.old x) }
    ensures wins { IfOk result (λ x. Wins x (start problem.now)) }
    ensures err { (shape : List SpecCell → Bool)
        → Tells problem.now.game shape
        → S.fault source.old ≡ None
        → IfErr result (λ e. (why : SpecWhy) → why_value problem.now.game.size e.why ≡ Some why
        → RejectsAtBy shape S.gives (S.size source.old) problem.now source.old e.place why) }
    ensures read { (shape : List SpecCell → Bool)
        → Tells problem.now.game shape
        → S.fault source.old ≡ None
        → IfErr result (λ e. e.why ≡ Read
        → FailsAtBy shape S.gives S.number (S.size source.old) problem.now source.old e.place) }
    ensures memory { (shape : List SpecCell → Bool)
        → Tells problem.now.game shape
        → S.fault source.old ≡ None
        → IfErr result (λ e. e.why ≡ Memory
        → IsReachedBy shape S.gives (S.size source.old) problem.now source.old e.place) }
    ensures asked { S.fault source.old ≡ None
        → IfErr result (λ e. AsksTo S.gives source.old e.place source.new) }
{
    prove!(problem.place() < problem.history().len());
    shapes_can_be_told();
    winner_exists();
    not_both_win();
    accepted_short_sides_win();
    check_by(alloc, problem, Kind::Short, source)
}
