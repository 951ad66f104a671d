//! What each side's first move does to a group whose fate is not proved as it is.

ghost use Rattle.std.specs.Prelude.{◌≡◌, ◌⊎◌, IfOk, IfSome, IsTrue, Some};
ghost use Rattle.go_points.specs.Place.{Place};
ghost use Rattle.proved_groups.specs.Proven.{problem_by_move, AreOfOneStone, Dies, IsOfStoneByMove, LivesBy};

use crate::asking::proven_by_move;
use crate::proven::ProvenByMove;
use go_points::{Colour, Point};
use std::alloc::{AllocError, Global};
use target_game::Problem;

/// What is proved of a group by a first move: that the attacker takes it, and that the defender saves it.
#[derive(Drop)]
pub struct FirstMoves {
    defender: Colour,
    attack: Option<ProvenByMove>,
    defence: Option<ProvenByMove>,
    ghost same: { ∥ IfSome attack (λ a. IfSome defence (AreOfOneStone a)) ∥₁ },
}

/// The attack by which a group dies, and the defence by which the same group lives: who moves first decides it.
#[derive(Clone, Copy)]
pub struct Unsettled<'a> {
    attack: &'a ProvenByMove,
    defence: &'a ProvenByMove,
    ghost dies: { Dies attack.now.claim },
    ghost lives: { ∥ ((m : Place) × LivesBy defence.now.claim m) ∥₁ },
    ghost same: { ∥ AreOfOneStone attack.now defence.now ∥₁ },
}

impl<'a> Unsettled<'a> {
    /// That the other side takes the group by moving first.
    pub fn attack(&self) -> &'a ProvenByMove
        ensures { result ≡ self.now.attack }
    {
        self.attack
    }

    /// That its owner saves it by moving first.
    pub fn defence(&self) -> &'a ProvenByMove
        ensures { result ≡ self.now.defence }
    {
        self.defence
    }
}

impl FirstMoves {
    /// What is proved of the group of the stone at the point, which is the defender's, by the first move of either side, or of this one
    /// alone.
    pub fn of(
        alloc: Global,
        problem: &Problem,
        point: Point,
        defender: Colour,
        first: Option<Colour>,
        steps: u64,
    ) -> Result<FirstMoves, AllocError>
        ensures attack { IfOk result (λ m. IfSome m.attack
            (IsOfStoneByMove problem.now point)) }
        ensures defence { IfOk result (λ m. IfSome m.defence
            (IsOfStoneByMove problem.now point)) }
    {
        let attacker = defender.opponent();
        let attack = by_mover(alloc, problem, point, attacker, first, false, steps)?;
        let defence = by_mover(alloc, problem, point, defender, first, true, steps)?;
        Ok(FirstMoves {
            defender,
            attack,
            defence,
        })
    }

    /// What is proved by the first move of this side.
    pub fn by(&self, mover: Colour) -> Option<&ProvenByMove>
        ensures kept { IfSome result (λ p. (self.now.attack ≡ Some p.now)
            ⊎ (self.now.defence ≡ Some p.now)) }
        ensures mover { IfSome result (λ p. (problem_by_move p.now.claim).mover ≡ mover) }
    {
        let kept = if mover == self.defender {
            self.defence.as_ref()
        } else {
            self.attack.as_ref()
        };
        match kept {
            Some(proven) if proven.mover() == mover => Some(proven),
            _ => None,
        }
    }

    /// The same, if nothing is supposed for it.
    pub fn outright(&self, mover: Colour) -> Option<&ProvenByMove> {
        match self.by(mover) {
            Some(proven) if proven.supposed().is_empty() => Some(proven),
            _ => None,
        }
    }

    /// The attack and the defence, if each side decides the group by moving first.
    pub fn both(&self) -> Option<Unsettled<'_>>
        ensures { IfSome result (λ both. (self.now.attack ≡ Some both.attack.now)
            × (self.now.defence ≡ Some both.defence.now)) }
    {
        match (self.attack.as_ref(), self.defence.as_ref()) {
            (Some(attack), Some(defence)) if is_taken_and_saved(attack, defence) => {
                Some(Unsettled { attack, defence })
            }
            _ => None,
        }
    }
}

/// Whether stones die by the one, and stones live by the other.
fn is_taken_and_saved(attack: &ProvenByMove, defence: &ProvenByMove) -> bool
    ensures { IsTrue result → Dies attack.now.claim × ((m : Place) × LivesBy defence.now.claim m) }
{
    !attack.is_alive() && defence.is_alive()
}

/// What is proved by the first move of this side, that the group lives or else that it dies, if that side is asked about.
fn by_mover(
    alloc: Global,
    problem: &Problem,
    point: Point,
    mover: Colour,
    first: Option<Colour>,
    is_life: bool,
    steps: u64,
) -> Result<Option<ProvenByMove>, AllocError>
    ensures { IfOk result (λ o. IfSome o (IsOfStoneByMove problem.now point)) }
{
    if let Some(one) = first {
        if one != mover {
            return Ok(None);
        }
    }
    match proven_by_move(alloc, problem, point, mover, steps)? {
        Some(proven) if proven.is_alive() == is_life => Ok(Some(proven)),
        _ => Ok(None),
    }
}
