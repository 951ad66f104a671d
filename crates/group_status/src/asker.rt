//! Who asks about a group, where one side moves first.

use crate::group::Group;
use crate::table::{Table, question};
use group_words::Side;
use regions::Walls;
use std::alloc::{AllocError, Global};
use std::io::Write;

/// Asks about a group, with one side to move first. The table keeps each answer, and the notes say how far it is.
#[derive(Drop)]
pub(crate) struct Asker<'a, N> {
    pub(crate) alloc: Global,
    pub(crate) group: &'a Group,
    pub(crate) table: &'a mut Table,
    pub(crate) first: Side,
    pub(crate) notes: &'a mut N,
}

impl<N: Write> Asker<'_, N> {
    /// Who wins if this many empty points are inside, and this is supposed outside.
    pub(crate) fn ask(&mut self, walls: Walls, count: usize) -> Result<Option<Side>, AllocError> {
        question(
            self.alloc, self.group, self.table, self.first, walls, count, self.notes,
        )
    }

    /// Notes that what is found stands on this question, if it was asked.
    pub(crate) fn stand_on(&mut self, walls: Walls, count: usize) -> Result<(), AllocError> {
        self.table.stand_on(self.first, walls, count)
    }

    /// Whether everything that can be reached is in a region of this many empty points.
    pub(crate) fn is_all(&self, count: usize) -> bool {
        self.group.order.len() <= count
    }
}
