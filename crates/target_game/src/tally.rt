//! Who wins in the tree of all legal play, and how many states the tree has. One pass answers both.
//!
//! The pass goes down with the number of states that are still allowed and gives back what is left of it, so no sum can overflow
//! and the pass stops at the first state past the limit. It keeps one path of play and makes no list of turns.

ghost use Rattle.std.specs.Prelude.{◌≡◌, OnOk, IfOk, None, if◌then◌else◌};
ghost use Rattle.go_points.specs.declared.Colour.TheVariants.{Black, White};
ghost use Rattle.target_game.specs.Legal.{legal_turns};
ghost use Rattle.target_game.specs.Over.{over};
ghost use Rattle.target_game.specs.Wins.{is_winner};
ghost use Rattle.target_game.specs.Private.Tally.{tally_of, before_turns, with_below, with_turns};
ghost use Rattle.target_game.specs.declared.within.Within.TheVariants.{Wins, Neither};

use crate::PlayState;
use crate::turns_left::TurnsLeft;
use crate::within::Within;
use go_points::Colour;
use std::alloc::AllocError;

/// What is known of a tree of play.
#[derive(Clone, Copy)]
pub(crate) struct Tally {
    /// How many more states are allowed.
    left: u64,
    /// Whether Black can force a win.
    black: bool,
    /// Whether White can.
    white: bool,
}

impl Tally {
    /// A state that is the last of its line of play.
    fn last(left: u64, winner: Option<Colour>) -> Tally
        ensures left { result.left ≡ left }
        ensures black { result.black ≡ is_winner Black winner }
        ensures white { result.white ≡ is_winner White winner }
    {
        match winner {
            None => Tally {
                left,
                black: false,
                white: false,
            },
            Some(Colour::Black) => Tally {
                left,
                black: true,
                white: false,
            },
            Some(Colour::White) => Tally {
                left,
                black: false,
                white: true,
            },
        }
    }

    /// A state where nobody has won, before any of the mover's turns.
    fn before_turns(mover: Colour, left: u64) -> Tally
        ensures { result ≡ before_turns mover left }
    {
        match mover {
            Colour::Black => Tally {
                left,
                black: false,
                white: true,
            },
            Colour::White => Tally {
                left,
                black: true,
                white: false,
            },
        }
    }

    /// The tally with one more turn: the mover needs one turn that wins, the other side needs all.
    fn with_below(self, mover: Colour, below: Tally) -> Tally
        ensures { result ≡ with_below mover self below }
    {
        match mover {
            Colour::Black => Tally {
                left: below.left,
                black: self.black || below.black,
                white: self.white && below.white,
            },
            Colour::White => Tally {
                left: below.left,
                black: self.black && below.black,
                white: self.white || below.white,
            },
        }
    }

    /// Who can force a win.
    pub(crate) fn decision(self) -> Within
        ensures { result
            ≡ (if self.black then Wins Black else (if self.white then Wins White else Neither)) }
    {
        if self.black {
            Within::Wins(Colour::Black)
        } else if self.white {
            Within::Wins(Colour::White)
        } else {
            Within::Neither
        }
    }
}

/// The tally of all legal play of at most this many turns from the state, which is left as it was. `None` if that tree has more
/// states than are left.
#[cycle(tally)]
pub(crate) fn tally_state(
    state: &mut PlayState,
    turns: u32,
    left: u64,
) -> Result<Option<Tally>, AllocError>
    ensures state { OnOk result (state.new ≡ state.old) }
    ensures tally { IfOk result (λ r. r ≡ tally_of state.old.state turns left) }
{
    if left == 0 {
        return Ok(None);
    }
    let winner = state.over();
    if winner.is_some() || turns == 0 {
        return Ok(Some(Tally::last(left - 1, winner)));
    }
    if turns == 1 {
        return Ok(tally_last_turns(state, left - 1));
    }
    tally_turns(state, turns - 1, left - 1)
}

/// The tally of a state that has already been counted, where each turn is the last. None of the turns is made.
fn tally_last_turns(state: &PlayState, left: u64) -> Option<Tally>
    ensures { result ≡ with_turns state.now.state 0 (legal_turns state.now.state)
        (before_turns state.now.state.mover left) }
{
    let mover = state.mover();
    let mut seen = Tally::before_turns(mover, left);
    let mut turns_left = TurnsLeft::all();
    while let Some((_turn, child)) = state.next_child(&mut turns_left) {
        if seen.left == 0 {
            return None;
        }
        seen = seen.with_below(mover, Tally::last(seen.left - 1, child.winner));
    }
    Some(seen)
}

/// The tally of a state where nobody has won and that has already been counted, with this many turns after the first.
#[cycle(tally)]
fn tally_turns(state: &mut PlayState, turns: u32, left: u64) -> Result<Option<Tally>, AllocError>
    requires open { over state.old.state ≡ None }
    ensures state { OnOk result (state.new ≡ state.old) }
    ensures tally { IfOk result
        (λ r. r ≡ with_turns state.old.state turns (legal_turns state.old.state)
        (before_turns state.old.state.mover left)) }
{
    let mover = state.mover();
    let mut seen = Tally::before_turns(mover, left);
    let mut turns_left = TurnsLeft::all();
    while let Some(_turn) = state.after_next(&mut turns_left)? {
        let below = tally_state(state, turns, seen.left)?;
        state.back();
        match below {
            Some(tally) => seen = seen.with_below(mover, tally),
            None => return Ok(None),
        }
    }
    Ok(Some(seen))
}
