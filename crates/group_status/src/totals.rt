//! How many stones of a board live, die, or are open.

use group_words::{Fate, Judgement, Word};
use std::alloc::{AllocError, Global};

/// What is said of a group.
#[derive(Clone, Copy, Debug, PartialEq, Eq)]
pub(crate) enum Said {
    /// It is proved to be alive.
    Proved,
    Alive,
    Dead,
    Unsettled,
    /// No status is named.
    Open,
}

impl Said {
    /// What the procedures say of a group.
    pub(crate) fn of(judged: &Judgement) -> Said {
        if judged.word.rank() > Word::Likely.rank() {
            return Said::Open;
        }
        match judged.fate {
            Fate::Alive => Said::Alive,
            Fate::Dead => Said::Dead,
            Fate::Unsettled => Said::Unsettled,
            Fate::Unknown => Said::Open,
        }
    }
}

/// The stones of a board, by what is said of their groups.
#[derive(Clone, Copy, Debug)]
pub(crate) struct Totals {
    proved: usize,
    alive: usize,
    dead: usize,
    unsettled: usize,
    open: usize,
}

impl Totals {
    pub(crate) fn none() -> Totals {
        Totals {
            proved: 0,
            alive: 0,
            dead: 0,
            unsettled: 0,
            open: 0,
        }
    }

    /// Counts so many stones of a group.
    pub(crate) fn add(&mut self, said: Said, stones: usize) {
        match said {
            Said::Proved => self.proved = self.proved.saturating_add(stones),
            Said::Alive => self.alive = self.alive.saturating_add(stones),
            Said::Dead => self.dead = self.dead.saturating_add(stones),
            Said::Unsettled => self.unsettled = self.unsettled.saturating_add(stones),
            Said::Open => self.open = self.open.saturating_add(stones),
        }
    }

    /// The line of the totals.
    pub(crate) fn line(&self, alloc: Global) -> Result<String, AllocError> {
        let proved = self.proved;
        let alive = self.alive.saturating_add(proved);
        let dead = self.dead;
        let unsettled = self.unsettled;
        let open = self.open;
        format!(in alloc;
            "stones: {alive} alive ({proved} proved), {dead} dead, {unsettled} unsettled, {open} open\n"
        )
    }
}
