//! The nodes of a record that is read by people, each with the number of the node above it.
//!
//! Node 0 is that of the problem. The nodes are in the order of the record, so what is below a node comes right after it.

use go_points::{Colour, Point, Turn};
use std::alloc::{AllocError, Global};

/// What a node says besides its turn.
#[derive(Clone, Copy, Debug, PartialEq, Eq)]
pub(crate) enum Note {
    Nothing,
    /// The chain of the first target has two eyes, whose least empty points these are.
    Eyes(Point, Point),
    /// Its least liberty outside the region.
    Liberty(Point),
    /// The targets live, without a word by what.
    Lives,
    /// Play goes on as below the node with this number.
    Again(usize),
}

/// A node.
#[derive(Clone, Copy, Debug)]
pub(crate) struct Shown {
    /// The number of the node above it.
    pub(crate) parent: usize,
    pub(crate) colour: Colour,
    pub(crate) turn: Turn,
    pub(crate) note: Note,
    /// Whether the claim has a reply here or below that an earlier position forbids.
    pub(crate) is_cut: bool,
}

/// Appends a node of this turn, without a note.
pub(crate) fn push_turn(
    shown: &mut Vec<Shown>,
    parent: usize,
    colour: Colour,
    turn: Turn,
) -> Result<(), AllocError> {
    let note = Note::Nothing;
    shown.push(Shown {
        parent,
        colour,
        turn,
        note,
        is_cut: false,
    })?;
    Ok(())
}

/// Sets the note of the last node.
pub(crate) fn set_note(shown: &mut Vec<Shown>, note: Note) {
    if let Some(last) = shown.len().checked_sub(1) {
        shown[last].note = note;
    }
}

/// Notes that a reply of the claim is left out below this node.
pub(crate) fn mark_cut(shown: &mut Vec<Shown>, below: usize) {
    let mut at = below;
    for _ in 0..=below {
        if at >= shown.len() {
            return;
        }
        if shown[at].is_cut {
            return;
        }
        shown[at].is_cut = true;
        at = shown[at].parent;
    }
}

/// The numbers of the nodes of the turns that lead to this one, first to last.
pub(crate) fn line_to(
    alloc: Global,
    shown: &[Shown],
    node: usize,
) -> Result<Vec<usize>, AllocError> {
    let mut upwards = Vec::new(alloc);
    let mut at = node;
    for _ in 0..node {
        if at == 0 || at >= shown.len() {
            break;
        }
        upwards.push(at)?;
        at = shown[at].parent;
    }
    let mut line = Vec::new(alloc);
    for _ in 0..upwards.len() {
        if let Some(number) = upwards.pop() {
            line.push(number)?;
        }
    }
    Ok(line)
}

/// How many nodes come right below each.
pub(crate) fn child_counts(alloc: Global, shown: &[Shown]) -> Result<Vec<usize>, AllocError> {
    let mut counts = Vec::new(alloc);
    for _ in 0..shown.len() {
        counts.push(0usize)?;
    }
    for at in 1..shown.len() {
        let parent = shown[at].parent;
        if parent < counts.len() {
            counts[parent] = counts[parent].saturating_add(1);
        }
    }
    Ok(counts)
}
