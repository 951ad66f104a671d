//! Full search: all legal play within 0, 1, 2 and so on turns, starting again at each depth.
//!
//! One pass over the states finds who wins and keeps the tree that shows it. It holds one path of play with the replies that were
//! answered on it. A win within a few turns, in a small tree of play, is found whatever the search by proof numbers would do.

ghost use Rattle.std.specs.Prelude.{◌≡◌, ◌+◌, ◌≤◌, ◌<◌, ◌&&◌, ◌-◌, ℕ, nat_eq, IsTrue, OnOk, IfOk, None};
ghost use Rattle.go_points.specs.Grid.{same_colour};
ghost use Rattle.go_points.specs.Ply.{ply_of, pass};
ghost use Rattle.target_game.specs.State.{GameState, start};
ghost use Rattle.target_game.specs.Legal.{legal, legal_turns};
ghost use Rattle.target_game.specs.Next.{next};
ghost use Rattle.target_game.specs.Over.{over};
ghost use Rattle.target_game.specs.Wins.{is_winner, nodes};
ghost use Rattle.full_search.specs.Decided.{IsDecided};
ghost use Rattle.full_search.specs.Private.Shown.{rest, nodes_behind, IsFound, AreSeen, IsTurnSeen, IsWonBy};

use go_points::{Colour, Turn};
use proof_cert::Node;
use std::alloc::{AllocError, Global};
use target_game::{PlayState, Problem, TurnsLeft};

/// The greatest number of turns within which a win is searched for.
const MAX_TURNS: u32 = 200;

/// What full search of a state found.
#[derive(Drop)]
pub(crate) enum Found {
    /// This side wins, by this tree.
    Wins(Colour, Node),
    /// Neither side wins within the turns that were searched.
    Open,
    /// There was no step left for a state that had to be expanded, or more states were met than are promised to be searched.
    OutOfSteps,
}

/// What is known of the turns that were searched, none of which the mover wins.
#[derive(Drop)]
pub(crate) struct Tried {
    /// Whether neither side wins by one of them.
    is_open: bool,
    /// The turns with the other side's trees, if it wins by all of them.
    replies: Vec<(Turn, Node)>,
}

/// The side that wins the problem within the fewest turns, up to 200, with a tree that shows it. `None` if neither side does or the
/// steps ran out.
///
/// All legal play is searched within 0, 1, 2 and so on turns, starting again for each number. A step is one expansion, which tries
/// all turns of a state; `floor` steps are left alone, and `left` falls by the steps that were made. The search within k turns ends
/// as soon as k + 1 times the number of states that it has met is more than the steps: from there on no win is promised to be
/// found. With two steps or more at least one is made. If memory is refused, some steps are gone, and nothing more is promised. One
/// path of play and the tree that is found are held in memory.
pub fn first_win(
    alloc: Global,
    problem: &Problem,
    floor: u64,
    left: &mut u64,
) -> Result<Option<(Colour, Node)>, AllocError>
    requires { floor ≤ left.old }
    ensures fewer { left.new ≤ left.old }
    ensures floor { floor ≤ left.new }
    ensures begun { OnOk result (2 ≤ left.old - floor → left.new < left.old) }
    ensures decided { IfOk result (λ r. IsDecided (start problem.now) (left.old - floor) r) }
{
    let mut own = *left - floor;
    let found = search_depths(alloc, problem, &mut own);
    *left = floor + own;
    found
}

/// Like `first_win`, with just these steps.
fn search_depths(
    alloc: Global,
    problem: &Problem,
    left: &mut u64,
) -> Result<Option<(Colour, Node)>, AllocError>
    ensures fewer { left.new ≤ left.old }
    ensures begun { OnOk result (2 ≤ left.old → left.new < left.old) }
    ensures decided { IfOk result (λ r. IsDecided (start problem.now) left.old r) }
{
    // For the proof: nobody has won where a problem starts.
    prove!(problem.place() < problem.history().len());
    let mut state = PlayState::of(alloc, problem)?;
    let steps = *left;
    for turns in 0..MAX_TURNS + 1 {
        let mut room = steps / (turns as u64 + 1);
        match search_state(alloc, &mut state, turns, left, &mut room)? {
            Found::Wins(winner, tree) => return Ok(Some((winner, tree))),
            Found::Open => {}
            Found::OutOfSteps => return Ok(None),
        }
    }
    Ok(None)
}

/// What full search of the state within this many turns finds. The state is then as it was. At most `room` states may be met, and
/// `room` falls by those that were.
#[cycle(full)]
fn search_state(
    alloc: Global,
    state: &mut PlayState,
    turns: u32,
    left: &mut u64,
    room: &mut u64,
) -> Result<Found, AllocError>
    ensures state { OnOk result (state.new ≡ state.old) }
    ensures fewer { left.new ≤ left.old }
    ensures less { room.new ≤ room.old }
    ensures steps { OnOk result (left.old ≤ left.new + nodes state.old.state turns) }
    ensures met { OnOk result
        (rest left.old room.old ≤ rest left.new room.new + nodes state.old.state turns) }
    ensures begun { OnOk result
        (over state.old.state ≡ None → 1 ≤ turns → 1 ≤ rest left.old room.old
        → left.new < left.old) }
    ensures found { IfOk result (λ f. IsFound state.old.state turns (rest left.old room.old) f) }
{
    if let Some(winner) = state.over() {
        return Ok(Found::Wins(winner, Node::Won));
    }
    if turns == 0 {
        return Ok(Found::Open);
    }
    if *left == 0 {
        return Ok(Found::OutOfSteps);
    }
    if *room == 0 {
        return Ok(Found::OutOfSteps);
    }
    *left -= 1;
    *room -= 1;
    // A second pass ends the game at once, so no other turn is tried if it wins.
    if pass_wins(state)? {
        return won_by(alloc, state.mover(), Turn::Pass, Node::Won);
    }
    search_turns(alloc, state, turns - 1, left, room)
}

/// Whether one pass has just been made and the mover wins by a second one.
fn pass_wins(state: &mut PlayState) -> Result<bool, AllocError>
    requires nobody { over state.old.state ≡ None }
    ensures state { OnOk result (state.new ≡ state.old) }
    ensures wins { IfOk result
        (λ b. b ≡ nat_eq state.old.state.passes 1 && is_winner state.old.state.mover
        (over (next state.old.state pass))) }
{
    if state.passes() != 1 {
        return Ok(false);
    }
    let mover = state.mover();
    state.after(Turn::Pass)?;
    let winner = state.over();
    state.back();
    match winner {
        Some(winner) => Ok(is_side(winner, mover)),
        None => Ok(false),
    }
}

/// Whether the winner is this side.
fn is_side(winner: Colour, side: Colour) -> bool
    ensures { result ≡ same_colour winner side }
{
    winner == side
}

/// What is found if the side wins by this turn and the tree after it.
#[tactic(auto, using(proof_cert::proofs::Certificates::node_of_play))]
fn won_by(alloc: Global, winner: Colour, turn: Turn, below: Node) -> Result<Found, AllocError>
    ensures { IfOk result (λ f. IsWonBy winner turn below f) }
{
    Ok(Found::Wins(winner, Node::Play(turn, Box::new(alloc, below)?)))
}

/// What full search finds of a state where nobody has won, with this many turns after the first. The step of the state has already
/// been made. The state is then as it was.
#[cycle(full)]
fn search_turns(
    alloc: Global,
    state: &mut PlayState,
    turns: u32,
    left: &mut u64,
    room: &mut u64,
) -> Result<Found, AllocError>
    requires nobody { over state.old.state ≡ None }
    ensures state { OnOk result (state.new ≡ state.old) }
    ensures fewer { left.new ≤ left.old }
    ensures less { room.new ≤ room.old }
    ensures steps { OnOk result
        (left.old ≤ left.new + nodes_behind state.old.state turns (legal_turns state.old.state)) }
    ensures met { OnOk result (rest left.old room.old
        ≤ rest left.new room.new + nodes_behind state.old.state turns (legal_turns state.old.state)) }
    ensures found { IfOk result
        (λ f. IsFound state.old.state (turns + 1) (rest left.old room.old + 1) f) }
{
    let mut seen = Tried {
        is_open: false,
        replies: Vec::new(alloc),
    };
    let mut turns_left = TurnsLeft::all();
    while let Some(next) = state.next_child(&mut turns_left) {
        let turn = next.0;
        let winner = next.1.winner;
        if let Some(found) = search_turn(
            alloc, state, turns, turn, winner, &mut seen, left, room,
        )? {
            return Ok(found);
        }
    }
    Ok(decided(state, turns, seen))
}

/// Whether there is nothing to search: somebody has won, or no turn is left.
fn is_settled(turns: u32, winner: Option<Colour>) -> bool
    ensures { IsTrue result → winner ≡ None → turns ≡ 0 }
{
    match winner {
        Some(_) => true,
        None => turns == 0,
    }
}

/// What is found if this side has won, or if nobody has within the turns that are left.
fn found_at_once(winner: Option<Colour>) -> Found
    ensures { (s : GameState) (k left : ℕ) → over s ≡ winner → (winner ≡ None → k ≡ 0)
        → IsFound s k left result }
{
    match winner {
        Some(winner) => Found::Wins(winner, Node::Won),
        None => Found::Open,
    }
}

/// What is found if all turns were searched and the mover wins by none.
fn decided(state: &PlayState, turns: u32, seen: Tried) -> Found
    requires nobody { over state.now.state ≡ None }
    requires seen { AreSeen state.now.state turns (legal_turns state.now.state) seen }
    ensures { (left : ℕ) → IsFound state.now.state (turns + 1) left result }
{
    if seen.is_open {
        Found::Open
    } else {
        Found::Wins(state.mover().opponent(), Node::All(seen.replies))
    }
}

/// Searches one more turn, after which `winner` says who has won. Returns `None` if the turn is only added to those that were seen,
/// or what is found if it decides the search of the state. The turn is made only if play goes on after it.
#[cycle(full)]
fn search_turn(
    alloc: Global,
    state: &mut PlayState,
    turns: u32,
    turn: Turn,
    winner: Option<Colour>,
    seen: &mut Tried,
    left: &mut u64,
    room: &mut u64,
) -> Result<Option<Found>, AllocError>
    requires nobody { over state.old.state ≡ None }
    requires legal { IsTrue (legal state.old.state (ply_of state.old.state.game.size turn)) }
    requires winner { winner ≡ over (next state.old.state (ply_of state.old.state.game.size turn)) }
    ensures state { OnOk result (state.new ≡ state.old) }
    ensures fewer { left.new ≤ left.old }
    ensures less { room.new ≤ room.old }
    ensures steps { OnOk result
        (left.old ≤ left.new + nodes (next state.old.state (ply_of state.old.state.game.size turn))
        turns) }
    ensures met { OnOk result
        (rest left.old room.old ≤ rest left.new room.new
        + nodes (next state.old.state (ply_of state.old.state.game.size turn)) turns) }
    ensures seen { IfOk result
        (λ r. IsTurnSeen state.old.state turns (ply_of state.old.state.game.size turn)
        (rest left.old room.old) seen.old seen.new r) }
{
    let mover = state.mover();
    if is_settled(turns, winner) {
        if *room == 0 {
            return Ok(Some(Found::OutOfSteps));
        }
        *room -= 1;
        return with_turn(alloc, mover, turn, found_at_once(winner), seen);
    }
    let made = turn;
    state.after(made)?;
    let below = search_state(alloc, state, turns, left, room)?;
    state.back();
    with_turn(alloc, mover, turn, below, seen)
}

/// Like `search_turn`, given what was found after the turn.
fn with_turn(
    alloc: Global,
    mover: Colour,
    turn: Turn,
    below: Found,
    seen: &mut Tried,
) -> Result<Option<Found>, AllocError>
    ensures { IfOk result (λ r. (s : GameState) (k left : ℕ) → s.mover ≡ mover → over s ≡ None
        → IsTrue (legal s (ply_of s.game.size turn))
        → IsFound (next s (ply_of s.game.size turn)) k left below
        → IsTurnSeen s k (ply_of s.game.size turn) left seen.old seen.new r) }
{
    match below {
        Found::Wins(winner, tree) => {
            if is_side(winner, mover) {
                return Ok(Some(won_by(alloc, mover, turn, tree)?));
            }
            if seen.is_open {
                return Ok(None);
            }
            seen.replies.push((turn, tree))?;
            Ok(None)
        }
        Found::Open => {
            seen.is_open = true;
            Ok(None)
        }
        Found::OutOfSteps => Ok(Some(Found::OutOfSteps)),
    }
}
