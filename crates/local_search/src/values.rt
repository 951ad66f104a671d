//! How much a turn is worth when a settled state is played out: how large the proof after it may become.

use crate::expanding::step_at;
use crate::finish::Finish;
use crate::frame::{State, side_of};
use local_board::{PlaceSet, Room, Side, Step};
use state_proofs::key_after_move;

/// A number that grows by this much for each point of room, and where it stops.
#[derive(Clone, Copy)]
struct Growth {
    times: u64,
    over: u64,
}

/// The growth for a living state, by the attacker's room, and for a dead one, by the defender's room.
const LIFE: Growth = Growth { times: 5, over: 4 };

const DEATH: Growth = Growth {
    times: 13,
    over: 10,
};

const FIRST_VALUE: u64 = 1 << 12;

const MOST_VALUE: u64 = 1 << 50;

/// The greatest number of branches below a known turn that is taken.
const MAX_KNOWN_DEPTH: u16 = 1_000;

/// A turn by which a settled state may be played out.
#[derive(Clone, Copy)]
pub(crate) struct Turned {
    pub(crate) step: Step,
    pub(crate) value: u64,
    pub(crate) room: Room,
}

impl Turned {
    /// A turn that is worse than all others.
    pub(crate) fn worst() -> Turned {
        Turned {
            step: Step::Pass,
            value: u64::MAX,
            room: Room::most(),
        }
    }

    /// Whether it leaves less than the other.
    pub(crate) fn is_before(self, other: Turned) -> bool {
        self.value < other.value || self.value == other.value && self.room < other.room
    }
}

/// What a state counts for with this much room.
fn value_of_room(growth: Growth, room: u32) -> u64 {
    let mut value = FIRST_VALUE;
    for _ in 0..room {
        if value >= MOST_VALUE {
            return value;
        }
        value = value.saturating_mul(growth.times) / growth.over.max(1);
    }
    value
}

impl<S: PlaceSet> Finish<S> {
    /// The places where the mover may have moves.
    pub(crate) fn playable(&self, state: State<S>) -> S {
        let board = &self.search.shapes.board;
        board.empty(state.position).and(board.region())
    }

    /// How many states a proof that begins with this one may have: the states after a turn of the mover that have no proof yet, and
    /// this one, each as often as its room says. If it is more than `most`, the result is some number above that.
    pub(crate) fn value(&self, state: State<S>, room: u32, most: u64) -> u64 {
        let side = side_of(self.search.attacker, state.key.mover);
        let one = match side {
            Side::Attacker => value_of_room(LIFE, room),
            Side::Defender => value_of_room(DEATH, room),
        };
        let mut value = one;
        let quiet = self.search.shapes.board.quiet(state.position).of(side);
        for place in self.playable(state).places() {
            if value > most {
                return value;
            }
            if self.is_new_after(state, side, place, quiet) {
                value = value.saturating_add(one);
            }
        }
        value
    }

    /// Whether the state after the side's move at this place has no proof yet.
    fn is_new_after(&self, state: State<S>, side: Side, place: usize, quiet: S) -> bool {
        let board = &self.search.shapes.board;
        let proofs = &self.search.proofs;
        let key = state.key.position;
        match board.played_key(state.position, key, side, place, quiet) {
            Some(position) => !proofs.knows(key_after_move(state.key, position)),
            None => false,
        }
    }

    /// The mover's turn to a state that is already proved for him, by the fewest turns. `None` if there is no such turn.
    pub(crate) fn known_turn(&self, state: State<S>) -> Option<(Step, u32)> {
        let side = side_of(self.search.attacker, state.key.mover);
        let mut best = None;
        let mut least = u64::MAX;
        for place in self.playable(state).places() {
            let after = self.search.after_move_at(state, side, place);
            if after.position != state.position && !self.search.past.has(after.key.position) {
                if let Some((number, turns)) = self.known_proof(state, after) {
                    if turns < least {
                        least = turns;
                        best = Some((step_at(place), number));
                    }
                }
            }
        }
        self.better_by_pass(state, side, best, least)
    }

    /// The known turn, or the defender's pass if that is better.
    fn better_by_pass(
        &self,
        state: State<S>,
        side: Side,
        best: Option<(Step, u32)>,
        least: u64,
    ) -> Option<(Step, u32)> {
        if side == Side::Attacker || state.key.passes > 0 {
            return best;
        }
        let after = self.search.after(state, Step::Pass);
        match self.known_proof(state, after) {
            Some((number, turns)) if turns < least => Some((Step::Pass, number)),
            _ => best,
        }
    }

    /// The proof for the mover of a state after one of his turns, and the number of its turns.
    fn known_proof(&self, state: State<S>, after: State<S>) -> Option<(u32, u64)> {
        let number = self.search.proof_after(after.key)?;
        let proof = self.search.proofs.get(number)?;
        if proof.winner == state.key.mover && proof.depth <= MAX_KNOWN_DEPTH {
            Some((number, proof.turns))
        } else {
            None
        }
    }
}
