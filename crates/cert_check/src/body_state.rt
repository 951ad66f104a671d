//! A state of a body, with a list of what is known there.

ghost use Rattle.std.specs.Prelude.{◌≡◌, ◌⊎◌, ◌<◌, ◌≤◌, ◌∷◌, [], IsTrue, IsFalse, IfOk, IfErr, OnOk, length, not, None};
ghost use Rattle.std.specs.List.{All, list_all};
ghost use Rattle.go_points.specs.Grid.{side_of};
ghost use Rattle.go_points.specs.Liberty.{first_without_liberty};
ghost use Rattle.go_points.specs.Ply.{ply_of};
ghost use Rattle.go_turns.specs.History.{repeats};
ghost use Rattle.target_game.specs.State.{start, state_alone, state_with};
ghost use Rattle.target_game.specs.Kept.{IsAtFault};
ghost use Rattle.target_game.specs.Left.{line_if};
ghost use Rattle.target_game.specs.Legal.{legal};
ghost use Rattle.target_game.specs.Next.{next};
ghost use Rattle.target_game.specs.Over.{over};
ghost use Rattle.target_game.specs.declared.state.AtFault.TheVariants as AtFault;
ghost use Rattle.cert_check.specs.Private.Ascending.{Ascends};
ghost use Rattle.cert_check.specs.Body.{is_known};

use crate::listed::{are_apart, none_stands_on, skip_before, stands_at};
use crate::sorting::put_in_order;
use go_points::{Colour, Colouring, ColouringList, Turn};
use std::alloc::{AllocError, Global};
use std::marker::Model;
use target_game::{AtFault, PlayState, Problem, State};

/// If a body begins with more colourings than this, none of them is looked up by its key: a claim can give one key to thousands.
const FEW: usize = 64;

/// To look a colouring up, which needs its key, takes as long as to search the list for so many others, or longer.
const SEARCHES: usize = 8;

/// A state of a body. What is known there is also kept in a list: first what the body begins with, `fixed` colourings in the order
/// of their texts, and then a lemma's root and the results of the turns, the latest last. The lists of a lemma ascend as well, so
/// they are compared with what a body begins with in one pass over both, whatever the keys.
#[derive(Drop)]
pub(crate) struct BodyState {
    state: PlayState,
    known: Vec<Colouring>,
    fixed: usize,
}

impl Model for BodyState {
    ghost use Rattle.target_game.specs.State.{Line};
    ghost use Rattle.cert_check.specs.Private.Known.{IsKept};

    ghost Value = { Line };

    ghost view = { λ a. a.state };

    ghost invariant = { λ a. IsKept a.known.items a.fixed a.state };
}

impl BodyState {
    /// The start of the problem.
    pub(crate) fn of(alloc: Global, problem: &Problem) -> Result<BodyState, AllocError>
        ensures { IfOk result (λ s. s ≡ record { state = start problem.now; before = [] }) }
    {
        prove!(problem.place() < problem.history().len());
        let mut known = Vec::new(alloc);
        known.extend_from_slice(problem.history())?;
        put_in_order(&mut known);
        let fixed = known.as_slice().len();
        let state = State::of(alloc, problem)?;
        Ok(BodyState {
            state,
            known,
            fixed,
        })
    }

    /// Begins a lemma of which only the root is known. The board of the previous body is changed where the root differs from it,
    /// since successive lemmas have most of their stones in common.
    pub(crate) fn begin(
        &mut self,
        alloc: Global,
        root: &Colouring,
        mover: Colour,
        passes: u64,
    ) -> Result<(), AtFault>
        requires size { side_of root.now ≡ self.old.state.game.size }
        requires few { passes ≤ 1 }
        ensures ok { OnOk result
            (self.new ≡ record {
              state = state_alone self.old.state.game root.now mover passes;
              before = [];
            }) }
        ensures liberties { OnOk result
            (first_without_liberty self.old.state.game.size root.now ≡ None) }
        ensures err { IfErr result (λ e. (e ≡ AtFault.Memory)
            ⊎ IsAtFault self.old.state.game.size
            (first_without_liberty self.old.state.game.size root.now) e) }
    {
        let mut known = Vec::new(alloc);
        if known.push(*root).is_err() {
            return Err(AtFault::Memory);
        }
        match self.state.restart(alloc, root, mover, passes) {
            Ok(()) => {
                self.known = known;
                self.fixed = 0;
                Ok(())
            }
            Err(fault) => Err(fault),
        }
    }

    /// The state at which a lemma begins. Its root and these other colourings are known.
    pub(crate) fn at_with(
        alloc: Global,
        problem: &Problem,
        root: &Colouring,
        others: &[Colouring],
        mover: Colour,
        passes: u64,
    ) -> Result<BodyState, AtFault>
        requires size { side_of root.now ≡ problem.now.game.size }
        requires sizes { All (λ c. side_of c ≡ problem.now.game.size) others.now }
        requires once { IsFalse (repeats others.now) }
        requires ascend { Ascends others.now }
        requires few { passes ≤ 1 }
        ensures ok { IfOk result
            (λ s. s ≡ record {
              state = state_with problem.now.game root.now others.now mover passes;
              before = [];
            }) }
    {
        let fixed = others.len();
        let mut known = Vec::new(alloc);
        if known.extend_from_slice(others).is_err() {
            return Err(AtFault::Memory);
        }
        if known.push(*root).is_err() {
            return Err(AtFault::Memory);
        }
        match State::at_with(alloc, problem, root, others, mover, passes) {
            Ok(state) => Ok(BodyState {
                state,
                known,
                fixed,
            }),
            Err(fault) => Err(fault),
        }
    }

    /// The state, without the list of what is known.
    pub(crate) fn play(&self) -> &PlayState
        ensures { result.now ≡ self.now }
    {
        &self.state
    }

    /// Makes the turn. If memory is refused, nothing changes.
    pub(crate) fn after(&mut self, turn: Turn) -> Result<(), AllocError>
        requires open { over self.old.state ≡ None }
        requires legal { IsTrue (legal self.old.state (ply_of self.old.state.game.size turn)) }
        ensures ok { OnOk result
            (self.new ≡ record {
              state = next self.old.state (ply_of self.old.state.game.size turn);
              before = self.old.state ∷ self.old.before;
            }) }
    {
        self.state.after(turn)?;
        if self.known.push(self.state.colouring()).is_err() {
            self.state.back();
            return Err(AllocError);
        }
        Ok(())
    }

    /// Makes the turn if it is legal, and returns whether it was. A move is played only once.
    pub(crate) fn try_after(&mut self, turn: Turn) -> Result<bool, AllocError>
        requires open { over self.old.state ≡ None }
        ensures legal { IfOk result
            (λ made. made ≡ legal self.old.state (ply_of self.old.state.game.size turn)) }
        ensures state { IfOk result
            (λ made. self.new ≡ line_if made self.old (ply_of self.old.state.game.size turn)) }
    {
        if !self.state.try_after(turn)? {
            return Ok(false);
        }
        if self.known.push(self.state.colouring()).is_err() {
            self.state.back();
            return Err(AllocError);
        }
        Ok(true)
    }

    /// Takes the last turn back.
    pub(crate) fn back(&mut self)
        requires { 0 < length self.old.before }
        ensures { self.old.before ≡ self.new.state ∷ self.new.before }
    {
        self.state.back();
        let _last = self.known.pop();
    }

    /// Whether the colouring is known. It is looked up only if it is not at this place of the list.
    fn knows(&self, colouring: &Colouring, place: usize) -> bool
        ensures { result ≡ is_known self.now.state colouring.now }
    {
        stands_at(self.known.as_slice(), place, colouring) || self.state.holds(colouring).is_some()
    }

    /// Whether each of the colourings is known. If they ascend, those that the body begins with are found in one pass over both
    /// lists; the others are looked up.
    pub(crate) fn knows_all(&self, colourings: &[Colouring]) -> bool
        ensures { result ≡ list_all (is_known self.now.state) colourings.now }
    {
        let start = &self.known[..self.fixed];
        let mut place = 0;
        for colouring in colourings {
            place = skip_before(start, colouring, place);
            if !self.knows(colouring, place) {
                return false;
            }
        }
        true
    }

    /// Whether none of the colourings is known. It takes one pass over the list and what the body begins with, and one search in
    /// the list for each turn. If that would take longer, and few colourings could share a key, it takes one look-up for each
    /// colouring of the list instead.
    pub(crate) fn knows_none(&self, list: &ColouringList) -> bool
        requires { Ascends list.now }
        ensures { result ≡ list_all (λ c. not (is_known self.now.state c)) list.now }
    {
        let known = self.known.as_slice();
        let path = &known[self.fixed..];
        if self.fixed <= FEW && list.len() <= path.len() / SEARCHES {
            return none_known(&self.state, list);
        }
        are_apart(&known[..self.fixed], list) && none_stands_on(path, list)
    }
}

/// Whether none of the colourings is known at the state.
fn none_known(state: &PlayState, list: &ColouringList) -> bool
    ensures { result ≡ list_all (λ c. not (is_known state.now.state c)) list.now }
{
    for index in 0..list.len() {
        if state.holds(&list.at(index)).is_some() {
            return false;
        }
    }
    true
}
