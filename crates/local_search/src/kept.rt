//! The moves of states that were expanded: a state that comes back is not expanded again while its moves are kept.

use indexmap::IndexMap;
use local_board::Step;
use pn_table::Key;
use std::alloc::{AllocError, Global};
use std::mem;

/// How many moves a list holds before the next is begun.
const ROOM: usize = 400_000;

/// What was found of the state after a turn.
#[derive(Clone, Copy, Debug, PartialEq, Eq)]
pub(crate) enum Finding {
    Nothing,
    /// How many points are left there where the defender could have an eye.
    Eyes(u8),
    /// The questions were asked, and nothing was certain. Few of them depend on the past, so they are not asked again.
    Open,
    OpenWithEyes(u8),
}

impl Finding {
    pub(crate) fn of(eye_points: Option<u8>, is_open: bool) -> Finding {
        match eye_points {
            Some(eye_points) if is_open => Finding::OpenWithEyes(eye_points),
            Some(eye_points) => Finding::Eyes(eye_points),
            None if is_open => Finding::Open,
            None => Finding::Nothing,
        }
    }

    /// How many points for eyes are left, if that was asked.
    pub(crate) fn eye_points(self) -> Option<u8> {
        match self {
            Finding::Eyes(eye_points) | Finding::OpenWithEyes(eye_points) => Some(eye_points),
            Finding::Nothing | Finding::Open => None,
        }
    }

    /// Whether nothing was certain.
    pub(crate) fn is_open(self) -> bool {
        matches!(self, Finding::Open | Finding::OpenWithEyes(_))
    }
}

/// A turn of a state, and the position after it.
#[derive(Clone, Copy)]
pub(crate) struct KeptMove {
    pub(crate) position: u64,
    pub(crate) step: Step,
    pub(crate) finding: Finding,
}

/// The turns of a state, in the newer list.
#[derive(Clone, Copy)]
pub(crate) struct KeptState {
    first: usize,
    pub(crate) count: usize,
}

/// The latest states that were expanded, in two lists of their turns: when the newer is full it becomes the older, and what the
/// older held is forgotten.
#[derive(Drop)]
pub(crate) struct KeptMoves {
    states: IndexMap<Key, KeptState>,
    moves: Vec<KeptMove>,
    older_states: IndexMap<Key, KeptState>,
    older_moves: Vec<KeptMove>,
}

impl KeptMoves {
    pub(crate) fn new(alloc: Global) -> KeptMoves {
        KeptMoves {
            states: IndexMap::new(alloc),
            moves: Vec::new(alloc),
            older_states: IndexMap::new(alloc),
            older_moves: Vec::new(alloc),
        }
    }

    /// Forgets all.
    pub(crate) fn forget(&mut self) {
        self.states.clear();
        self.moves.clear();
        self.older_states.clear();
        self.older_moves.clear();
    }

    /// The turns of the state, if they are kept.
    pub(crate) fn find(&mut self, key: Key) -> Result<Option<KeptState>, AllocError> {
        if let Some(state) = self.states.get(&key).copied() {
            return Ok(Some(state));
        }
        let Some(state) = self.older_states.get(&key).copied() else {
            return Ok(None);
        };
        let first = self.moves.len();
        for place in 0..state.count {
            if let Some(kept) = self
                .older_moves
                .get(state.first.saturating_add(place))
                .copied()
            {
                self.add(kept)?;
            }
        }
        Ok(Some(self.keep(key, first)?))
    }

    /// Begins the turns of a state, and returns the place of the first of them.
    pub(crate) fn begin(&mut self) -> usize {
        if self.moves.len() >= ROOM {
            mem::swap(&mut self.moves, &mut self.older_moves);
            mem::swap(&mut self.states, &mut self.older_states);
            self.moves.clear();
            self.states.clear();
        }
        self.moves.len()
    }

    /// Adds a turn of the state that was begun last.
    pub(crate) fn add(&mut self, kept: KeptMove) -> Result<(), AllocError> {
        // Its parts are named, since the prover has to see the type of its turn here.
        let step: Step = kept.step;
        self.moves.push(KeptMove {
            step,
            position: kept.position,
            finding: kept.finding,
        })?;
        Ok(())
    }

    /// Keeps the state whose turns were added from this place on.
    pub(crate) fn keep(&mut self, key: Key, first: usize) -> Result<KeptState, AllocError> {
        let state = KeptState {
            first,
            count: self.moves.len().saturating_sub(first),
        };
        self.states.insert(key, state)?;
        Ok(state)
    }

    /// The turn at this place of the state.
    pub(crate) fn get(&self, state: KeptState, place: usize) -> Option<KeptMove> {
        self.moves.get(state.first.saturating_add(place)).copied()
    }

    /// Notes what was found of the state after this turn, which is looked for from this place on. Returns the place after it.
    pub(crate) fn note(
        &mut self,
        state: KeptState,
        from: usize,
        step: Step,
        finding: Finding,
    ) -> usize {
        for place in from..state.count {
            let at = state.first.saturating_add(place);
            if at < self.moves.len() && self.moves[at].step == step {
                self.moves[at].finding = finding;
                return place + 1;
            }
        }
        state.count
    }
}
