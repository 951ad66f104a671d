//! A session, and what it does with a line.

ghost use Rattle.std.specs.Prelude.{◌≡◌, ◌≢◌, ◌<◌, ◌≤◌, [], None, Some, Ok, Err, Result, IfOk, OnErr, IfSome, IsTrue, length};
ghost use Rattle.std.specs.List.{All};
ghost use Rattle.go_points.specs.Place.{IsOn};
ghost use Rattle.go_points.specs.declared.Colour.{Colour};
ghost use Rattle.gtp_core.specs.Lines.{request_of, request_with, words_of, bad_line};
ghost use Rattle.gtp_core.specs.Words.{turn_at};
ghost use Rattle.gtp_core.specs.Runs.{first_session};
ghost use Rattle.gtp_core.specs.Session as spec;
ghost use Rattle.gtp_core.specs.Serving.{Answers, Meets, answers, board_text, command_due, due_of, due_or_refusal, needs_memory, output_of, plays, record_due, refuses, reply, target_due, tells, turn_due, within_due};
ghost use Rattle.gtp_core.specs.declared.refusal.Refusal.TheVariants as refusal;
ghost use Rattle.gtp_core.specs.Private.Following.{FitsBoard, IsFoundAt, IsTurnFault};
ghost use Rattle.go_turns.specs.Record.{undo_of};

use crate::command::Command;
use crate::fed::Fed;
use crate::line::{clean, is_digits, number_named, take_word};
use crate::order::{Order, order_of};
use crate::refusal::Refusal;
use crate::reply::{failure, fed_rows, success, within_text};
use crate::search::{Found, Known, searched};
use crate::words::{turn_at, with_turn};
use go_points::{Colour, PointSet, Size, Turn, Vertex};
use go_turns::{Board, PlayBoard, PlayRecord, Record, Seen, TurnFault};
use std::alloc::{AllocError, Global};
use std::marker::Model;
use target_game::{Problem, colour_at, decide_within};
use tsumego_problem::{all_points, history_of};

/// The longest raw line, without its line feed, in bytes.
pub const MAX_LINE: usize = 4096;

/// The number of rows of the first board, before any other is asked for: the usual one.
pub(crate) const FIRST_SIZE: u8 = 19;

/// The greatest number of states of a decision.
const MAX_NODES: u64 = 1_000_000;

/// A session: its record since the new board, the targets and the region. It plays by the Tromp-Taylor turn rule over the whole past.
#[derive(Drop)]
pub struct Session {
    alloc: Global,
    turns: PlayRecord,
    targets: PointSet,
    region: PointSet,
    /// The last checked answer to a question about the present problem: the same question need not be searched again.
    known: Option<Known>,
}

impl Model for Session {
    ghost use Rattle.gtp_core.specs.Session.{GtpSession};
    ghost use Rattle.gtp_core.specs.Private.Sound.{IsSound};
    ghost use Rattle.gtp_core.specs.Private.Following.{IsKnown};

    ghost Value = { GtpSession };

    ghost view = { λ a. record { turns = a.turns; targets = a.targets; region = a.region } };

    ghost invariant = { λ a. IsSound (record {
      turns = a.turns;
      targets = a.targets;
      region = a.region;
    }) × IsKnown (record { turns = a.turns; targets = a.targets; region = a.region }) a.known };
}

/// The session with a new board.
fn with_board(alloc: Global, size: Size) -> Result<Session, AllocError>
    ensures { IfOk result (λ s. s ≡ spec.new_session size) }
{
    let colouring = PlayBoard::new(size).colouring();
    match Record::new(alloc, &colouring) {
        Ok(turns) => Ok(Session {
            alloc,
            turns,
            targets: PointSet::new(),
            region: all_points(size),
            known: None,
        }),
        Err(_) => Err(AllocError),
    }
}

impl Session {
    /// The session with a new board of the usual size.
    pub fn new(alloc: Global) -> Result<Session, AllocError>
        ensures { IfOk result (λ s. s ≡ first_session) }
    {
        match Size::new(FIRST_SIZE) {
            Some(size) => with_board(alloc, size),
            None => Err(AllocError),
        }
    }

    /// What a raw line gets. The line is given without its line feed. An error means that memory was refused. After an error, and
    /// after a failure reply, the session is as it was. A line that asks for nothing is never refused.
    pub fn feed(&mut self, line: &[u8]) -> Result<Fed, AllocError>
        ensures ok { IfOk result
            (λ fed. Answers self.old (request_of line.now) (output_of fed) self.new) }
        ensures err { OnErr result (self.new ≡ self.old) }
        ensures needed { OnErr result (IsTrue (needs_memory (request_of line.now))) }
    {
        if line.len() > MAX_LINE {
            return self.bad_line();
        }
        let text = clean(line);
        self.serve(text.as_slice())
    }

    /// What a bad line gets.
    fn bad_line(&self) -> Result<Fed, AllocError>
        ensures { IfOk result (λ fed. Answers self.now bad_line (output_of fed) self.now) }
    {
        Ok(Fed::Reply(failure(self.alloc, b"", Refusal::SyntaxError)?))
    }

    /// What the words of a line get.
    fn serve(&mut self, text: &[u8]) -> Result<Fed, AllocError>
        ensures ok { IfOk result
            (λ fed. Answers self.old (request_with (words_of text.now)) (output_of fed) self.new) }
        ensures err { OnErr result (self.new ≡ self.old) }
        ensures needed { OnErr result (IsTrue (needs_memory (request_with (words_of text.now)))) }
    {
        let Some((word, rest)) = take_word(text) else {
            return Ok(Fed::Nothing);
        };
        let size = self.size();
        if !is_digits(word) {
            return self.obey(b"", order_of(size, word, rest));
        }
        if number_named(word).is_none() {
            return self.bad_line();
        }
        match take_word(rest) {
            Some((name, rest)) => self.obey(word, order_of(size, name, rest)),
            None => self.obey(word, Err(Refusal::SyntaxError)),
        }
    }

    /// What an order gets.
    fn obey(&mut self, id: &[u8], order: Order) -> Result<Fed, AllocError>
        requires { IfOk order (FitsBoard self.old.turns.size) }
        ensures ok { IfOk result
            (λ fed. Meets self.old id.now (due_of self.old order) (output_of fed) self.new) }
        ensures err { OnErr result (self.new ≡ self.old) }
    {
        match order {
            Ok(Command::Quit) => Ok(Fed::Quit(success(self.alloc, id, b"")?)),
            Ok(command) => Ok(Fed::Reply(self.follow(id, command)?)),
            Err(why) => Ok(Fed::Reply(failure(self.alloc, id, why)?)),
        }
    }

    /// The reply to a command that does not end the session.
    fn follow(&mut self, id: &[u8], command: Command) -> Result<Vec<u8>, AllocError>
        requires goes_on { command ≢ Command.Quit }
        requires fits { FitsBoard self.old.turns.size command }
        ensures ok { IfOk result
            (λ bytes. Meets self.old id.now (command_due self.old command) (reply bytes.items)
            self.new) }
        ensures err { OnErr result (self.new ≡ self.old) }
    {
        match command {
            Command::Say(saying) => success(self.alloc, id, saying.text()),
            Command::Quit => unreachable!(),
            Command::NewBoard(size) => self.begin(id, size),
            Command::ClearBoard => self.begin(id, self.size()),
            Command::Play(colour, vertex) => self.play(id, colour, vertex),
            Command::Genmove(colour) => self.genmove(id, colour),
            Command::Undo => self.undo(id),
            Command::Showboard => self.showboard(id),
            Command::SetTargets(set) => self.set_targets(id, set),
            Command::SetRegion(set) => self.set_region(id, set),
            Command::Solve(colour) => self.solve(id, colour),
            Command::Within(turns) => self.within(id, turns),
        }
    }

    /// The size of the board.
    fn size(&self) -> Size
        ensures { result ≡ self.now.turns.size }
    {
        self.turns.size()
    }

    /// Begins a new board.
    fn begin(&mut self, id: &[u8], size: Size) -> Result<Vec<u8>, AllocError>
        ensures ok { IfOk result
            (λ bytes. Meets self.old id.now (answers [] (spec.new_session size)) (reply bytes.items)
            self.new) }
        ensures err { OnErr result (self.new ≡ self.old) }
    {
        let bytes = success(self.alloc, id, b"")?;
        let fresh = with_board(self.alloc, size)?;
        *self = fresh;
        Ok(bytes)
    }

    /// Plays the turn at a vertex.
    fn play(&mut self, id: &[u8], colour: Colour, vertex: Vertex) -> Result<Vec<u8>, AllocError>
        ensures ok { IfOk result
            (λ bytes. Meets self.old id.now
            (due_or_refusal refusal.IllegalMove (turn_at self.old.turns.size vertex)
            (turn_due self.old colour)) (reply bytes.items) self.new) }
        ensures err { OnErr result (self.new ≡ self.old) }
    {
        let Some(turn) = turn_at(self.size(), vertex) else {
            return failure(self.alloc, id, Refusal::IllegalMove);
        };
        let bytes = success(self.alloc, id, b"")?;
        match self.turns.play(colour, turn) {
            Ok(()) => {
                self.known = None;
                Ok(bytes)
            }
            Err(fault) => self.barred(id, fault),
        }
    }

    /// The reply to a turn that the record has refused.
    fn barred(&self, id: &[u8], fault: TurnFault) -> Result<Vec<u8>, AllocError>
        ensures { IfOk result (λ bytes. IsTurnFault fault
            × Meets self.now id.now (refuses refusal.IllegalMove) (reply bytes.items) self.now) }
    {
        match fault {
            TurnFault::Memory => Err(AllocError),
            _ => failure(self.alloc, id, Refusal::IllegalMove),
        }
    }

    /// Takes the last turn back.
    fn undo(&mut self, id: &[u8]) -> Result<Vec<u8>, AllocError>
        ensures ok { IfOk result
            (λ bytes. Meets self.old id.now
            (record_due self.old refusal.CannotUndo (undo_of self.old.turns)) (reply bytes.items)
            self.new) }
        ensures err { OnErr result (self.new ≡ self.old) }
    {
        let bytes = success(self.alloc, id, b"")?;
        // Where there is nothing to take back, the board is empty, and nothing is known of it.
        self.known = None;
        match self.turns.undo() {
            Ok(()) => Ok(bytes),
            Err(_) => failure(self.alloc, id, Refusal::CannotUndo),
        }
    }

    /// Shows the board.
    fn showboard(&self, id: &[u8]) -> Result<Vec<u8>, AllocError>
        ensures { IfOk result
            (λ bytes. Meets self.now id.now (answers (board_text self.now) self.now)
            (reply bytes.items) self.now) }
    {
        let cells = self.turns.colouring().to_text(self.alloc)?;
        let rows = fed_rows(self.alloc, self.size().rows() as usize, cells.as_slice())?;
        success(self.alloc, id, &rows.as_slice()[1..])
    }

    /// Sets the targets, which have to be stones of one colour. An empty set removes the targets.
    fn set_targets(&mut self, id: &[u8], set: PointSet) -> Result<Vec<u8>, AllocError>
        requires { All (IsOn self.old.turns.size) set }
        ensures ok { IfOk result
            (λ bytes. Meets self.old id.now (target_due self.old set) (reply bytes.items)
            self.new) }
        ensures err { OnErr result (self.new ≡ self.old) }
    {
        if !set.is_empty() && colour_at(&self.turns.colouring(), &set).is_none() {
            return failure(self.alloc, id, Refusal::BadTargets);
        }
        let bytes = success(self.alloc, id, b"")?;
        self.known = None;
        self.targets = set;
        Ok(bytes)
    }

    /// Sets the region.
    fn set_region(&mut self, id: &[u8], set: PointSet) -> Result<Vec<u8>, AllocError>
        requires on_board { All (IsOn self.old.turns.size) set }
        requires somewhere { 0 < length set }
        ensures ok { IfOk result
            (λ bytes. Meets self.old id.now (answers [] (record self.old { region = set }))
            (reply bytes.items) self.new) }
        ensures err { OnErr result (self.new ≡ self.old) }
    {
        let bytes = success(self.alloc, id, b"")?;
        self.known = None;
        self.region = set;
        Ok(bytes)
    }

    /// The problem with this colour to move, if the session has one.
    fn problem(&self, mover: Colour) -> Result<Option<Problem>, AllocError>
        ensures value { IfOk result (λ q. q ≡ spec.problem_at self.now mover) }
        ensures size { IfOk result (λ q. IfSome q (λ p. p.game.size ≡ self.now.turns.size)) }
    {
        let history = history_of(self.alloc, self.turns.seen())?;
        let place = self
            .turns
            .seen()
            .holds(&self.turns.colouring())
            .unwrap_or(0);
        let passes = self.turns.passes();
        Ok(Problem::new(history, place, mover, passes, self.targets, self.region).ok())
    }

    /// What a search finds for a side, if there is a problem. What is known already is not searched for.
    fn search(&self, colour: Colour) -> Result<Option<Found>, AllocError>
        ensures { IfOk result
            (λ f. IsFoundAt self.now.turns.size colour (spec.problem_at self.now colour) f) }
    {
        if let Some(known) = self.known {
            if known.colour == colour {
                return Ok(Some(known.found));
            }
        }
        match self.problem(colour)? {
            Some(problem) => Ok(Some(searched(self.alloc, problem, colour))),
            None => Ok(None),
        }
    }

    /// Tells what a search finds, and keeps an answer, which was checked. An unknown is not kept: there may be memory for it later.
    fn solve(&mut self, id: &[u8], colour: Colour) -> Result<Vec<u8>, AllocError>
        ensures ok { IfOk result
            (λ bytes. Meets self.old id.now
            (due_or_refusal refusal.NoProblem (spec.problem_at self.old colour) (tells colour))
            (reply bytes.items) self.new) }
        ensures err { OnErr result (self.new ≡ self.old) }
    {
        match self.search(colour)? {
            Some(Found::Win(turn)) => {
                let text = with_turn(self.alloc, b"win ", self.size(), &turn)?;
                self.known = Some(Known {
                    colour,
                    found: Found::Win(turn),
                });
                success(self.alloc, id, text.as_slice())
            }
            Some(Found::Loss) => {
                self.known = Some(Known {
                    colour,
                    found: Found::Loss,
                });
                success(self.alloc, id, b"loss")
            }
            Some(Found::Unknown) => success(self.alloc, id, b"unknown"),
            None => failure(self.alloc, id, Refusal::NoProblem),
        }
    }

    /// Plays a turn that a search finds, or passes.
    fn genmove(&mut self, id: &[u8], colour: Colour) -> Result<Vec<u8>, AllocError>
        ensures ok { IfOk result
            (λ bytes. Meets self.old id.now (plays colour (spec.problem_at self.old colour))
            (reply bytes.items) self.new) }
        ensures err { OnErr result (self.new ≡ self.old) }
    {
        let turn = match self.search(colour)? {
            Some(Found::Win(turn)) => turn,
            _ => Turn::Pass,
        };
        let text = with_turn(self.alloc, b"", self.size(), &turn)?;
        let bytes = success(self.alloc, id, text.as_slice())?;
        self.known = None;
        match self.turns.play(colour, turn) {
            Ok(()) => Ok(bytes),
            Err(_) => Err(AllocError),
        }
    }

    /// Decides who can force a win within this many turns.
    fn within(&self, id: &[u8], turns: u32) -> Result<Vec<u8>, AllocError>
        requires { turns ≤ 200 }
        ensures { IfOk result
            (λ bytes. Meets self.now id.now
            (due_or_refusal refusal.NoProblem (spec.problem_at self.now (spec.next_mover self.now))
            (within_due self.now turns)) (reply bytes.items) self.now) }
    {
        let Some(problem) = self.problem(self.next_mover())? else {
            return failure(self.alloc, id, Refusal::NoProblem);
        };
        let decision = decide_within(self.alloc, &problem, turns, MAX_NODES)?;
        success(self.alloc, id, within_text(decision))
    }

    /// The colour that did not make the last turn on the record, or Black if there is no turn.
    fn next_mover(&self) -> Colour
        ensures { result ≡ spec.next_mover self.now }
    {
        match self.turns.last_colour() {
            Some(colour) => colour.opponent(),
            None => Colour::Black,
        }
    }
}
