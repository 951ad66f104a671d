//! The first turn of a claim's winner.

use go_points::Turn;
use proof_cert::{Certificate, Node};

/// The turn that the winner makes first, if the winner moves first.
pub(crate) fn first_turn(certificate: &Certificate) -> Option<Turn> {
    let lemmas = certificate.lemmas.as_slice();
    let mut node = &certificate.main;
    for _ in 0..=lemmas.len() {
        match node {
            Node::Play(turn, _) => return Some(*turn),
            Node::Use(number) => {
                node = &lemmas.get((*number as usize).checked_sub(1)?)?.body;
            }
            Node::Won | Node::All(_) => return None,
        }
    }
    None
}
