//! Records of turns.

use crate::refusal::{not_begun, say_refused};
use go_points::{Cell, Colour, Colouring, Point, Size, Turn};
use go_turns::{Board, PlayRecord, Record, Seen, TurnFault};
use std::alloc::Global;
use std::io;

/// One call that changes a record.
#[derive(Clone, Copy)]
enum Change {
    Play(Colour, Turn),
    Set(Point, Cell),
}

/// Makes the change, and says whether memory was refused.
fn is_refused(record: &mut PlayRecord, change: &Change) -> bool {
    let made = match change {
        Change::Play(colour, turn) => record.play(*colour, *turn),
        Change::Set(point, cell) => record.setup(&[(*point, *cell)]),
    };
    matches!(made, Err(TurnFault::Memory))
}

/// A record of five rows without stones.
fn begun(alloc: Global) -> Option<PlayRecord> {
    Record::new(alloc, &Colouring::empty(Size::new(5)?)).ok()
}

/// Makes the change, and says whether a refusal left the record as it was.
fn attempt(rt: &impl Print, record: &mut PlayRecord, change: &Change) -> io::Result<()> {
    let colouring = record.colouring();
    let occurred = record.seen().len();
    let passes = record.passes();
    if is_refused(record, change) {
        let is_as_long = record.seen().len() == occurred;
        let is_same = record.colouring() == colouring && record.passes() == passes;
        say_refused(rt, is_as_long && is_same)?;
        let _is_refused_again = is_refused(record, change);
    }
    Ok(())
}

/// Plays at every point, or sets up stones there, with the two colours alternating.
pub fn changed<R: Print + AllocGlobal>(rt: &R, is_setup: bool) -> io::Result<()> {
    let Some(mut record) = begun(rt.alloc()) else {
        return not_begun(rt);
    };
    let mut colour = Colour::Black;
    for point in record.size().points() {
        let change = if is_setup {
            Change::Set(point, Cell::Stone(colour))
        } else {
            Change::Play(colour, Turn::At(point))
        };
        attempt(rt, &mut record, &change)?;
        colour = colour.opponent();
    }
    attempt(rt, &mut record, &Change::Play(colour, Turn::Pass))?;
    let occurred = record.seen().len();
    println!(rt; "end: {occurred} positions")
}
