//! Records of turns. A record keeps one board and one history; a step keeps only what it changed, and `undo` looks its colouring up in the history.

ghost use Rattle.std.specs.Prelude.{◌≡◌, ◌<◌, ◌≤◌, ◌+◌, ◌*◌, ◌++◌, [], ◌∷◌, length, map, nat_lt, slice_index_or, IsFalse, IfErr, IfOk, IfSome, OnOk, OnErr, None, is_some};
ghost use Rattle.std.specs.List.{All, list_all};
ghost use Rattle.go_points.specs.Grid.{side_of};
ghost use Rattle.go_points.specs.Place.{IsOn, number_of};
ghost use Rattle.go_points.specs.Liberty.{first_without_liberty};
ghost use Rattle.go_points.specs.Ply.{ply_of, pass as a_pass, move as a_move};
ghost use Rattle.go_turns.specs.History.{place_in, repeats};
ghost use Rattle.stone_key.specs.Key.{key_of};
ghost use Rattle.go_turns.specs.Record.{numbered, assigned, play_of, setup_of, set_up, undo_of, opened, reopened, Did, DidIfLegal, DidWithoutMemory, Opens};
ghost use Rattle.go_turns.specs.Private.Steps.{CanStand, IsAt, IsNotAdded, Joins};

use crate::board::Board;
use crate::fault::TurnFault;
use crate::seen::Seen;
use crate::spares::Spares;
use go_points::{Cell, Colour, Colouring, Point, Turn};
use std::alloc::{AllocError, Global};
use std::marker::Model;

// What was there before a step: the place of the colouring, how many colourings had occurred, the passes in a row, and the colour
// of the last play.
#[derive(Clone, Copy)]
struct Step {
    place: usize,
    occurred: usize,
    passes: u64,
    last_colour: Option<Colour>,
}

/// A record of turns: the present colouring, those that have occurred, and the steps that can be taken back. Turns are those of the
/// Tromp-Taylor rules, except that either colour may play at any time; setups, undo and the history before the opening are this
/// project's own. A refused call leaves the record as it was.
#[derive(Drop)]
pub struct Record<B: Board, S: Seen> {
    pub(crate) board: B,
    pub(crate) seen: S,
    pub(crate) place: usize,
    pub(crate) passes: u64,
    pub(crate) last_colour: Option<Colour>,
    steps: Vec<Step>,
    spares: Spares<B>,
}

impl<B: Board, S: Seen> Model for Record<B, S> {
    ghost use Rattle.std.specs.Prelude.{map, take, reverse, length, ◌≡◌, ◌≤◌, ◌+◌, None};
    ghost use Rattle.go_points.specs.Grid.{side_of};
    ghost use Rattle.go_points.specs.Liberty.{first_without_liberty};
    ghost use Rattle.go_turns.specs.Record.{GameRecord};
    ghost use Rattle.go_turns.specs.Private.Steps.{IsAt, StepsFit};

    ghost Value = { GameRecord };

    ghost view = { λ r. record {
      size = side_of (B.content r.board);
      present = record {
        history = S.content r.seen;
        place = r.place;
        passes = r.passes;
        last_colour = r.last_colour;
      };
      earlier = reverse (map
          (λ s. record {
            history = take s.occurred (S.content r.seen);
            place = s.place;
            passes = s.passes;
            last_colour = s.last_colour;
          }) r.steps.items);
    } };

    ghost invariant = { λ r. record {
      steps : StepsFit (λ s. s.occurred) (λ s. s.place) (λ s. s.passes)
          (side_of (B.content r.board)) (S.content r.seen) r.steps.items;
      here : IsAt (S.content r.seen) r.place (B.content r.board);
      liberties : first_without_liberty (side_of (B.content r.board)) (B.content r.board)
          ≡ None;
      few : r.passes ≤ length r.steps.items + 2;
    } };
}

// Adds the colouring to the history and the step to the steps, or leaves both as they were.
fn add_step<S: Seen>(
    seen: &mut S,
    steps: &mut Vec<Step>,
    step: Step,
    colouring: Colouring,
    key: u64,
) -> Result<(), TurnFault>
    requires { key ≡ key_of colouring }
    ensures new { OnOk result (place_in (S.content seen.old) colouring ≡ None) }
    ensures history { OnOk result (S.content seen.new ≡ S.content seen.old ++ colouring ∷ []) }
    ensures steps { OnOk result (steps.new.items ≡ steps.old.items ++ step ∷ []) }
    ensures fault { IfErr result (λ e. IsNotAdded (place_in (S.content seen.old) colouring) e) }
    ensures history_kept { OnErr result (S.content seen.new ≡ S.content seen.old) }
    ensures steps_kept { OnErr result (steps.new.items ≡ steps.old.items) }
{
    match seen.add_new(colouring, key) {
        Ok(None) => {}
        Ok(Some(earlier)) => return Err(TurnFault::Repeats { earlier }),
        Err(_) => return Err(TurnFault::Memory),
    }
    if steps.push(step).is_err() {
        seen.take_last();
        return Err(TurnFault::Memory);
    }
    Ok(())
}

// Adds the step to the steps, and the colouring to the history where it is new, or leaves both as they were. Returns the place of
// the colouring.
fn add_setup<S: Seen>(
    seen: &mut S,
    steps: &mut Vec<Step>,
    step: Step,
    colouring: Colouring,
    key: u64,
) -> Result<usize, AllocError>
    requires { key ≡ key_of colouring }
    ensures history { IfOk result
        (λ place. Joins (place_in (S.content seen.old) colouring) (S.content seen.old) colouring
        place (S.content seen.new)) }
    ensures steps { OnOk result (steps.new.items ≡ steps.old.items ++ step ∷ []) }
    ensures history_kept { OnErr result (S.content seen.new ≡ S.content seen.old) }
    ensures steps_kept { OnErr result (steps.new.items ≡ steps.old.items) }
{
    steps.push(step)?;
    if let Some(earlier) = seen.holds_with(&colouring, key) {
        return Ok(earlier);
    }
    let place = seen.len();
    if let Err(error) = seen.add_with(colouring, key) {
        let _untaken = steps.pop();
        return Err(error);
    }
    Ok(place)
}

// The colouring after the points are assigned in order, if the board holds them all.
fn with_cells(colouring: &Colouring, cells: &[(Point, Cell)]) -> Option<Colouring>
    ensures on_board { is_some result
        ≡ list_all (λ a. nat_lt a.0 (side_of colouring.now * side_of colouring.now))
        (map (numbered (side_of colouring.now)) cells.now) }
    ensures value { IfSome result
        (λ c. c ≡ assigned colouring.now (map (numbered (side_of colouring.now)) cells.now)) }
    ensures size { IfSome result (λ c. side_of c ≡ side_of colouring.now) }
{
    let mut after = *colouring;
    for assignment in cells {
        let (point, cell) = *assignment;
        if !after.size().holds(point) {
            return None;
        }
        after.set(point, cell);
    }
    Some(after)
}

// Adds the colourings of a history to the empty list.
fn add_all<S: Seen>(seen: &mut S, history: &[Colouring]) -> Result<(), AllocError>
    requires empty { S.content seen.old ≡ [] }
    requires once { IsFalse (repeats history.now) }
    ensures { OnOk result (S.content seen.new ≡ history.now) }
{
    for colouring in history {
        seen.add(*colouring)?;
    }
    Ok(())
}

// The history that has only this colouring.
fn seen_alone<S: Seen>(alloc: Global, colouring: &Colouring, key: u64) -> Result<S, AllocError>
    requires { key ≡ key_of colouring.now }
    ensures { IfOk result (λ seen. S.content seen ≡ colouring.now ∷ []) }
{
    let mut seen = S::new(alloc);
    seen.add_with(*colouring, key)?;
    Ok(seen)
}

// Lets the board hold the colouring at an earlier place, which it held after so many steps. After a pass that is the present place,
// and the board is left alone.
fn put_back<B: Board, S: Seen>(
    board: &mut B,
    spares: &mut Spares<B>,
    seen: &S,
    present: usize,
    earlier: usize,
    steps: usize,
)
    requires stands { CanStand (side_of (B.content board.old)) (S.content seen.now) earlier }
    requires same { present ≡ earlier → IsAt (S.content seen.now) earlier (B.content board.old) }
    ensures { IsAt (S.content seen.now) earlier (B.content board.new) }
{
    if present != earlier {
        spares.restore(board, seen.at(earlier), steps);
    }
}

impl<B: Board, S: Seen> Record<B, S> {
    /// The record without steps whose history is this colouring. Refused with the least point whose stone does not reach empty, if
    /// there is one.
    pub fn new(alloc: Global, colouring: &Colouring) -> Result<Record<B, S>, TurnFault>
        ensures { Opens (side_of colouring.now)
            (opened (side_of colouring.now) (colouring.now ∷ []) 0 0) result }
    {
        Record::with_history(alloc, &[*colouring], 0, 0)
    }

    /// The record without steps that has this history. The colouring at `place` is present, and this many passes have just been
    /// made. Refused with the least point whose stone does not reach empty in that colouring, if there is one; the other colourings
    /// are only remembered.
    pub fn with_history(
        alloc: Global,
        history: &[Colouring],
        place: usize,
        passes: u64,
    ) -> Result<Record<B, S>, TurnFault>
        requires within { place < length history.now }
        requires sizes { All (λ c. side_of c ≡ side_of (slice_index_or history.now place []))
            history.now }
        requires once { IsFalse (repeats history.now) }
        requires few { passes ≤ 2 }
        ensures { let n = side_of (slice_index_or history.now place []) in Opens n
            (opened n history.now place passes) result }
    {
        let colouring = history[place];
        let mut board = B::new(colouring.size());
        if let Err(refused) = board.assign(&colouring) {
            return Err(TurnFault::NoLiberty {
                point: refused.point,
            });
        }
        let mut seen = S::new(alloc);
        if add_all(&mut seen, history).is_err() {
            return Err(TurnFault::Memory);
        }
        Ok(Record {
            board,
            seen,
            place,
            passes,
            last_colour: None,
            steps: Vec::new(alloc),
            spares: Spares::new(alloc),
        })
    }

    /// Starts again: the record then has no steps, its history is only this colouring, and this many passes have just been made.
    /// Refused with the least point whose stone does not reach empty, if there is one. The board is changed only where the
    /// colouring differs from the present one.
    pub fn reopen(
        &mut self,
        alloc: Global,
        colouring: &Colouring,
        passes: u64,
    ) -> Result<(), TurnFault>
        requires size { side_of colouring.now ≡ self.old.size }
        requires few { passes ≤ 2 }
        ensures { let n = self.old.size in Did (reopened n (opened n (colouring.now ∷ []) 0 passes))
            self.old result self.new }
    {
        let before = self.board.colouring();
        if let Err(refused) = self.board.assign(colouring) {
            return Err(TurnFault::NoLiberty {
                point: refused.point,
            });
        }
        let Ok(seen) = seen_alone(alloc, colouring, self.board.key()) else {
            self.board.restore(&before);
            return Err(TurnFault::Memory);
        };
        self.seen = seen;
        self.place = 0;
        self.passes = passes;
        self.last_colour = None;
        self.steps.clear();
        self.spares.clear();
        Ok(())
    }

    /// Adds a turn of this colour, whoever played last. A pass always succeeds, unless memory is refused. A move succeeds if the
    /// board has the point, the point is empty, and the colouring that the move makes has not occurred before, whoever was to move
    /// then (positional superko).
    pub fn play(&mut self, colour: Colour, turn: Turn) -> Result<(), TurnFault>
        ensures { Did (play_of self.old colour (ply_of self.old.size turn)) self.old result
            self.new }
    {
        match turn {
            Turn::Pass => self.pass(colour),
            Turn::At(point) => {
                if !self.size().holds(point) {
                    return Err(TurnFault::OffBoard);
                }
                self.move_at(colour, point)
            }
        }
    }

    /// Makes the turn, as `play` does, exactly if it is legal, and returns whether it was. A move is played once and taken back if
    /// it repeats a position, so a caller need not ask first. An error means that memory was refused, and then nothing changes.
    pub fn play_if_legal(&mut self, colour: Colour, turn: Turn) -> Result<bool, AllocError>
        ensures { DidIfLegal (play_of self.old colour (ply_of self.old.size turn)) self.old result
            self.new }
    {
        match self.play(colour, turn) {
            Ok(()) => Ok(true),
            Err(TurnFault::Memory) => Err(AllocError),
            Err(_) => Ok(false),
        }
    }

    fn pass(&mut self, colour: Colour) -> Result<(), TurnFault>
        ensures { Did (play_of self.old colour a_pass) self.old result self.new }
    {
        let step = Step {
            place: self.place,
            occurred: self.seen.len(),
            passes: self.passes,
            last_colour: self.last_colour,
        };
        if self.steps.push(step).is_err() {
            return Err(TurnFault::Memory);
        }
        self.passes += 1;
        self.last_colour = Some(colour);
        Ok(())
    }

    fn move_at(&mut self, colour: Colour, point: Point) -> Result<(), TurnFault>
        requires { IsOn self.old.size point }
        ensures { Did (play_of self.old colour (a_move (number_of self.old.size point))) self.old
            result self.new }
    {
        let step = Step {
            place: self.place,
            occurred: self.seen.len(),
            passes: self.passes,
            last_colour: self.last_colour,
        };
        let depth = self.steps.len();
        self.spares
            .keep_if_costly(&self.board, colour, point, depth);
        if self.board.play(colour, point).is_err() {
            return Err(TurnFault::Occupied);
        }
        let after = self.board.colouring();
        let key = self.board.key();
        if let Err(fault) = add_step(&mut self.seen, &mut self.steps, step, after, key) {
            self.spares
                .restore(&mut self.board, self.seen.at(self.place), depth);
            return Err(fault);
        }
        self.place = step.occurred;
        self.passes = 0;
        self.last_colour = Some(colour);
        Ok(())
    }

    /// Makes points hold these cells, in order, and ends the passes. Refused if the board does not have one of the points, or with
    /// the least point whose stone does not reach empty afterwards. The colouring joins the history if it is new.
    pub fn setup(&mut self, cells: &[(Point, Cell)]) -> Result<(), TurnFault>
        ensures { Did (setup_of self.old (map (numbered self.old.size) cells.now)) self.old result
            self.new }
    {
        let Some(after) = with_cells(&self.board.colouring(), cells) else {
            return Err(TurnFault::OffBoard);
        };
        self.set_up(&after)
    }

    /// Makes all points hold what a colouring says, and ends the passes: a setup of each point. The board is changed once, at the
    /// points where the colouring differs from the present one. Refused with the least point whose stone does not reach empty
    /// afterwards, if there is one. The colouring joins the history if it is new.
    pub fn set_up(&mut self, colouring: &Colouring) -> Result<(), TurnFault>
        requires { side_of colouring.now ≡ self.old.size }
        ensures { Did (set_up self.old colouring.now) self.old result self.new }
    {
        let before = self.board.colouring();
        let step = Step {
            place: self.place,
            occurred: self.seen.len(),
            passes: self.passes,
            last_colour: self.last_colour,
        };
        if let Err(refused) = self.board.assign(colouring) {
            return Err(TurnFault::NoLiberty {
                point: refused.point,
            });
        }
        let key = self.board.key();
        let Ok(place) = add_setup(&mut self.seen, &mut self.steps, step, *colouring, key) else {
            self.board.restore(&before);
            return Err(TurnFault::Memory);
        };
        self.place = place;
        self.passes = 0;
        Ok(())
    }

    /// Takes the last step back, with all that it changed. It allocates no memory. Refused if there is no step.
    pub fn undo(&mut self) -> Result<(), TurnFault>
        ensures { DidWithoutMemory (undo_of self.old) self.old result self.new }
    {
        let Some(step) = self.steps.pop() else {
            return Err(TurnFault::CannotUndo);
        };
        while self.seen.len() > step.occurred {
            self.seen.take_last();
        }
        let depth = self.steps.len();
        put_back(
            &mut self.board,
            &mut self.spares,
            &self.seen,
            self.place,
            step.place,
            depth,
        );
        self.place = step.place;
        self.passes = step.passes;
        self.last_colour = step.last_colour;
        Ok(())
    }
}
