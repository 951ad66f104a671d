//! A short claim as a record for readers.

ghost use Rattle.std.specs.Prelude.{IfOk, IfSome};
ghost use Rattle.target_game.specs.State.{start};
ghost use Rattle.target_game.specs.Wins.{Wins};
ghost use Rattle.short_proofs.specs.Proved.{HasNamedWinner, HasWinner};
ghost use Rattle.short_proofs.specs.Says.{HasVerdict};

use crate::proof::{Proved, judged, prove};
use crate::reading_record::record_of;
use crate::shown::{Note, Shown};
use crate::soundness::is_record_sound;
use crate::walk::is_shown;
use go_points::{Colour, Turn};
use pn_search::{Audience, Budget, Cause};
use proof_cert::Certificate;
use sgf_text::{Tree, write_tree};
use std::alloc::{AllocError, Global};
use target_game::Problem;

/// A record in which each turn takes at most so many bytes of text can be read back if it has 90,000 turns: it may have 1,048,576
/// bytes. Comments take more, so a long text counts as more turns.
const BYTES_A_TURN: usize = 11;

/// What a search for a record for readers found.
#[derive(Drop)]
pub enum Reading {
    /// This side wins: the record shows the turns of a short claim that was accepted. They count as so many turns: as many as they
    /// are, or one for each 11 bytes of the record's text if that is more.
    Wins {
        winner: Colour,
        turns: usize,
        tree: Tree,
    },
    /// This side wins, but there are too many turns. `turn` is the winner's first turn, if the winner moves first.
    TooLarge {
        winner: Colour,
        turn: Option<Turn>,
    },
    /// Nothing is known, for this cause, after so many steps.
    Unknown {
        cause: Cause,
        steps: u64,
    },
}

/// Searches as `prove` does, and writes what it finds as a record for readers that counts as at most `most` turns. It has the
/// problem's past and the problem's node with the winner; where the winner moves, its one turn, and where the other side moves,
/// each of its legal turns. A line ends where the winner has won; where the targets live by their shape, with a label in each of
/// two eyes or at a liberty outside the region; or where play goes on as after the turns that a comment names. It fails only if
/// memory is refused.
pub fn find_reading(
    alloc: Global,
    problem: &Problem,
    budget: Budget,
    most: usize,
) -> Result<Reading, AllocError>
    ensures { IfOk result (HasNamedWinner (start problem.now)) }
{
    let proved = prove(alloc, problem, Audience::Readers, budget)?;
    of_proved(alloc, problem, proved, most)
}

/// Writes the short claim of this certificate as `find_reading` writes the one that it finds, if the judge accepts its text.
/// Otherwise nothing is known, after no steps. It fails only if memory is refused.
pub fn reading_of(
    alloc: Global,
    problem: &Problem,
    certificate: Certificate,
    most: usize,
) -> Result<Reading, AllocError>
    ensures { IfOk result (HasNamedWinner (start problem.now)) }
{
    let proved = judged(alloc, problem, certificate, 0)?;
    of_proved(alloc, problem, proved, most)
}

/// What is proved, as a record.
fn of_proved(
    alloc: Global,
    problem: &Problem,
    proved: Proved,
    most: usize,
) -> Result<Reading, AllocError>
    requires { HasWinner problem.now proved }
    ensures { IfOk result (HasNamedWinner (start problem.now)) }
{
    match proved {
        Proved::Wins {
            winner,
            turn,
            text: _text,
            certificate,
        } => shown(alloc, problem, winner, turn, &certificate, most),
        Proved::Unknown { cause, steps } => Ok(Reading::Unknown { cause, steps }),
    }
}

/// The record of the certificate, whose winner wins.
fn shown(
    alloc: Global,
    problem: &Problem,
    winner: Colour,
    turn: Option<Turn>,
    certificate: &Certificate,
    most: usize,
) -> Result<Reading, AllocError>
    requires { Wins winner (start problem.now) }
    ensures { IfOk result (HasNamedWinner (start problem.now)) }
{
    let same = winner;
    match record_within(alloc, problem, same, certificate, most)? {
        Some(found) => of_record(alloc, problem, winner, found.1, found.0),
        None => Ok(Reading::TooLarge { winner, turn }),
    }
}

/// The record, which counts as so many turns. Where a node says what is not so, nothing is known.
fn of_record(
    alloc: Global,
    problem: &Problem,
    winner: Colour,
    turns: usize,
    tree: Tree,
) -> Result<Reading, AllocError>
    requires wins { Wins winner (start problem.now) }
    requires names { HasVerdict winner tree }
    ensures { IfOk result (HasNamedWinner (start problem.now)) }
{
    if is_record_sound(alloc, problem, winner, &tree)? {
        return Ok(Reading::Wins {
            winner,
            turns,
            tree,
        });
    }
    Ok(Reading::Unknown {
        cause: Cause::NotConfirmed,
        steps: 0,
    })
}

/// The record of the certificate, and how many turns it counts as. `None` if these are more than `most`.
fn record_within(
    alloc: Global,
    problem: &Problem,
    winner: Colour,
    certificate: &Certificate,
    most: usize,
) -> Result<Option<(Tree, usize)>, AllocError>
    ensures { IfOk result (λ found. IfSome found (λ f. HasVerdict winner f.0)) }
{
    let note = Note::Nothing;
    let mut nodes = Vec::new(alloc);
    nodes.push(Shown {
        parent: 0,
        colour: problem.mover().opponent(),
        turn: Turn::Pass,
        note,
        is_cut: false,
    })?;
    if !is_shown(alloc, problem, certificate, most, &mut nodes)? {
        return Ok(None);
    }
    let tree = record_of(alloc, problem, winner, nodes.as_slice())?;
    let turns = counted_turns(alloc, &tree, nodes.len())?;
    if turns > most {
        return Ok(None);
    }
    Ok(Some((tree, turns)))
}

/// As how many turns the record with so many nodes below its past counts.
fn counted_turns(alloc: Global, tree: &Tree, nodes: usize) -> Result<usize, AllocError> {
    let mut text = Vec::new(alloc);
    if write_tree(tree, &mut text).is_err() {
        return Err(AllocError);
    }
    let turns = nodes.saturating_sub(1);
    Ok(turns.max(text.len() / BYTES_A_TURN))
}
