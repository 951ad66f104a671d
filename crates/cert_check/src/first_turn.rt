//! The first turn of a claim that was checked.

ghost use Rattle.std.specs.Prelude.{◌≡◌, ℕ, [], Some, IfSome, map, option_map, is_some};
ghost use Rattle.go_points.specs.Ply.{ply_of};
ghost use Rattle.target_game.specs.State.{GameState, start};
ghost use Rattle.proof_cert.specs.Certificate.{claim_of, lemma_of, node_of};
ghost use Rattle.cert_check.specs.Body.{is_to_move};
ghost use Rattle.cert_check.specs.Expand.{answers_behind, expand_node, first_turn, first_turn_of};
ghost use Rattle.cert_check.specs.Laws.{IsFirstTurn};

use crate::held_claim::Checked;
use crate::laws::first_turns_win;
use go_points::Turn;
use proof_cert::{Lemma, Node};

impl Checked {
    /// The claim's first turn, if the winner is to move and nobody has won: it is legal, and the winner wins after it. Otherwise
    /// `None`. Each lemma is looked at once at most.
    pub fn first_turn(&self) -> Option<Turn>
        ensures value { option_map (ply_of self.now.problem.game.size) result
            ≡ first_turn (claim_of self.now.certificate) (start self.now.problem) }
        ensures due { is_some result
            ≡ is_to_move (claim_of self.now.certificate).winner (start self.now.problem) }
        ensures wins { IfSome result
            (λ t. IsFirstTurn self.now.problem (claim_of self.now.certificate)
            (ply_of self.now.problem.game.size t)) }
    {
        first_turns_win();
        let _winner = self.winner();
        let certificate = self.certificate();
        prove!(self.problem().place() < self.problem().history().len());
        first_of(certificate.lemmas.as_slice(), &certificate.main)
    }
}

/// The first turn of a tree that may use these lemmas.
fn first_of(lemmas: &[Lemma], node: &Node) -> Option<Turn>
    ensures { (n : ℕ) (s : GameState)
        → option_map (ply_of n) result
        ≡ first_turn_of (expand_node (answers_behind [] (map (lemma_of n) lemmas.now))
        (node_of n node.now) s) }
{
    let mut part = node;
    let mut below = lemmas.len();
    loop {
        match part {
            Node::Won => return None,
            Node::All(_) => return None,
            Node::Play(turn, _) => return Some(*turn),
            Node::Use(number) => {
                let number = *number as usize;
                if number == 0 || number > below {
                    return None;
                }
                below = number - 1;
                part = &lemmas[below].body;
            }
        }
    }
}
