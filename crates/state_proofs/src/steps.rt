//! The steps that are left of a budget, and the rounds of loops that they pay for.
//!
//! A search does most of its work where it opens a state for the first time, and that is a step. What it does between two steps is
//! bounded by the steps too: each step pays for 1,024 rounds of loops, and a state that is opened again uses as many of them as an
//! eighth of a step pays for. Where none is left, one more step is made for them. So all loops that use one budget have together no
//! more rounds than its `work` at the start.
//!
//! Where no state is opened for the first time for long, two lines of play hand the work to each other, and mostly for ever. So
//! states that are opened again cost whole steps then, and such a search soon ends. In 204 problems of many kinds, with up to
//! 100,000 steps, there were at most 658 of them in a row, and mostly fewer than 60; for each step there was less than one.

ghost use Rattle.std.specs.Prelude.{◌≡◌, ◌≤◌, ◌<◌, ◌+◌, OnOk, OnErr, IfErr};
ghost use Rattle.state_proofs.specs.Work.{work};

use crate::stop::Stop;

/// How many rounds a step pays for.
const ROUNDS: u64 = 1_024;

/// How many rounds a state that is opened again uses, or a proof that is walked.
const ROUNDS_AGAIN: u64 = ROUNDS / 8;

/// How many states may be opened again in a row until each costs whole steps.
const IN_A_ROW: u32 = 1_024;

/// How often their price doubles at most.
const MOST_DOUBLINGS: u32 = 32;

/// The steps that are left of a budget. Work goes on until `floor` steps are left.
#[derive(Clone, Copy, Debug)]
pub struct Steps {
    pub left: u64,
    pub floor: u64,
    /// How many rounds are paid for.
    pub rounds: u64,
    /// How many states were opened again since one was opened for the first time, or a shorter search was begun.
    pub in_a_row: u32,
}

impl Steps {
    /// These steps, down to this floor, of which none has been made. As many rounds as a step pays for are paid for, so that what is
    /// settled without a step needs none.
    pub fn of(left: u64, floor: u64) -> Steps
        ensures left { result.left ≡ left }
        ensures floor { result.floor ≡ floor }
        ensures rounds { result.rounds ≡ 1024 }
    {
        Steps {
            left,
            floor,
            rounds: ROUNDS,
            in_a_row: 0,
        }
    }

    /// Makes a step, if one may be made: `left` falls by one. It is for a state that is opened for the first time.
    pub fn take(&mut self) -> Result<(), Stop>
        ensures one { OnOk result (self.new.left + 1 ≡ self.old.left) }
        ensures none { OnErr result (self.new ≡ self.old) }
        ensures floor { self.new.floor ≡ self.old.floor }
        ensures above { self.old.floor ≤ self.old.left → self.new.floor ≤ self.new.left }
        ensures less { OnOk result (work self.new < work self.old) }
        ensures all { IfErr result (λ stop. self.new.left ≤ self.new.floor) }
    {
        if self.left <= self.floor {
            return Err(Stop::Steps);
        }
        self.left -= 1;
        self.rounds = self.rounds.saturating_add(ROUNDS);
        self.in_a_row = 0;
        Ok(())
    }

    /// Begins a round of a loop. If none is paid for, one more step is made.
    pub fn begin_round(&mut self) -> Result<(), Stop>
        ensures fewer { self.new.left ≤ self.old.left }
        ensures none { OnErr result (self.new ≡ self.old) }
        ensures floor { self.new.floor ≡ self.old.floor }
        ensures above { self.old.floor ≤ self.old.left → self.new.floor ≤ self.new.left }
        ensures less { OnOk result (work self.new < work self.old) }
        ensures all { IfErr result (λ stop. self.new.left ≤ self.new.floor) }
    {
        if self.rounds == 0 {
            self.make(1)?;
        }
        self.rounds -= 1;
        Ok(())
    }

    /// Begins the walk of a proof whose state was opened before: it uses rounds as a state does that is opened again.
    pub fn begin_walk(&mut self) -> Result<(), Stop>
        ensures fewer { self.new.left ≤ self.old.left }
        ensures none { OnErr result (self.new ≡ self.old) }
        ensures floor { self.new.floor ≡ self.old.floor }
        ensures above { self.old.floor ≤ self.old.left → self.new.floor ≤ self.new.left }
        ensures less { OnOk result (work self.new < work self.old) }
        ensures all { IfErr result (λ stop. self.new.left ≤ self.new.floor) }
    {
        if self.rounds < ROUNDS_AGAIN {
            self.make(1)?;
        }
        self.rounds -= ROUNDS_AGAIN;
        Ok(())
    }

    /// Opens a state again, which is no step while rounds are paid for. After 1,024 such states in a row each is a step, after twice
    /// as many two, then four and so on, or all that may be made.
    pub fn open_again(&mut self) -> Result<(), Stop>
        ensures fewer { self.new.left ≤ self.old.left }
        ensures none { OnErr result (self.new ≡ self.old) }
        ensures floor { self.new.floor ≡ self.old.floor }
        ensures above { self.old.floor ≤ self.old.left → self.new.floor ≤ self.new.left }
        ensures less { OnOk result (work self.new < work self.old) }
        ensures all { IfErr result (λ stop. self.new.left ≤ self.new.floor) }
    {
        if self.in_a_row < IN_A_ROW {
            self.begin_walk()?;
        } else {
            self.make(price_of(self.in_a_row))?;
        }
        self.in_a_row = self.in_a_row.saturating_add(1);
        Ok(())
    }

    /// Makes this many steps at once, or all that may be made, and one at least. They pay for the rounds of one.
    fn make(&mut self, steps: u64) -> Result<(), Stop>
        requires some { 0 < steps }
        ensures fewer { OnOk result (self.new.left < self.old.left) }
        ensures none { OnErr result (self.new ≡ self.old) }
        ensures floor { self.new.floor ≡ self.old.floor }
        ensures above { self.old.floor ≤ self.old.left → self.new.floor ≤ self.new.left }
        ensures least { OnOk result (1024 ≤ self.new.rounds) }
        ensures most { self.new.rounds ≤ self.old.rounds + 1024 }
        ensures all { IfErr result (λ stop. self.new.left ≤ self.new.floor) }
    {
        if self.left <= self.floor {
            return Err(Stop::Steps);
        }
        self.left -= steps.min(self.left - self.floor);
        self.rounds = self.rounds.saturating_add(ROUNDS);
        Ok(())
    }

    /// Begins a shorter search with at most `most` of the steps that are left. Returns the previous floor, which `end` restores.
    pub fn begin(&mut self, most: u64) -> u64
        ensures left { self.new.left ≡ self.old.left }
        ensures work { work self.new ≡ work self.old }
        ensures floor { result ≡ self.old.floor }
    {
        let before = self.floor;
        self.floor = self.floor.max(self.left.saturating_sub(most));
        self.in_a_row = 0;
        before
    }

    /// Sets this many steps aside. Returns the previous floor, which `end` restores.
    pub fn keep(&mut self, aside: u64) -> u64
        ensures left { self.new.left ≡ self.old.left }
        ensures work { work self.new ≡ work self.old }
        ensures floor { result ≡ self.old.floor }
    {
        let before = self.floor;
        self.floor = self.floor.saturating_add(aside);
        before
    }

    /// The steps that may be made.
    pub fn rest(self) -> u64 {
        self.left.saturating_sub(self.floor)
    }

    /// Ends a shorter search.
    pub fn end(&mut self, floor: u64)
        ensures left { self.new.left ≡ self.old.left }
        ensures work { work self.new ≡ work self.old }
        ensures floor { self.new.floor ≡ floor }
    {
        self.floor = floor;
    }

    /// Whether no step may be made.
    pub fn are_made(self) -> bool {
        self.left <= self.floor
    }
}

/// How many steps a state costs that is opened again after so many others in a row.
fn price_of(in_a_row: u32) -> u64
    ensures { 0 < result }
{
    let doublings = (in_a_row / IN_A_ROW).saturating_sub(1);
    (1u64 << doublings.min(MOST_DOUBLINGS)).max(1)
}
