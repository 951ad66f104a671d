//! Colourings as texts: one byte for each point, in order.

ghost use Rattle.std.specs.Prelude.{◌≡◌, IfOk, IfSome};
ghost use Rattle.go_points.specs.Grid.{side_of};
ghost use Rattle.go_points.specs.Text.{cell_code, cell_of, text_of, colouring_from_text};

use crate::colouring::Colouring;
use crate::size::Size;
use crate::{Cell, Colour};
use std::alloc::{AllocError, Global};

impl Colouring {
    /// The text of the colouring, in this project's own form: one byte for each point in order, `.` for empty, `X` for black, `O`
    /// for white. Fails if memory is refused.
    pub fn to_text(&self, alloc: Global) -> Result<Vec<u8>, AllocError>
        ensures { IfOk result (λ text. text.items ≡ text_of self.now) }
    {
        let mut text = Vec::new(alloc);
        let size = self.size();
        for number in 0..size.area() {
            text.push(to_byte(self.get(size.point_at(number))))?;
        }
        Ok(text)
    }

    /// The colouring of this size with this text. `None` if the length of the text is not the number of points of the board, or if
    /// it has any other byte.
    pub fn from_text(size: Size, text: &[u8]) -> Option<Colouring>
        ensures value { result ≡ colouring_from_text size text.now }
        ensures size { IfSome result (λ colouring. side_of colouring ≡ size) }
    {
        if text.len() != size.area() {
            return None;
        }
        let mut colouring = Colouring::empty(size);
        for number in 0..text.len() {
            let cell = from_byte(text[number])?;
            colouring.set(size.point_at(number), cell);
        }
        Some(colouring)
    }
}

fn to_byte(cell: Cell) -> u8
    ensures { result ≡ cell_code cell }
{
    match cell {
        Cell::Empty => b'.',
        Cell::Stone(Colour::Black) => b'X',
        Cell::Stone(Colour::White) => b'O',
    }
}

fn from_byte(byte: u8) -> Option<Cell>
    ensures { result ≡ cell_of byte }
{
    match byte {
        b'.' => Some(Cell::Empty),
        b'X' => Some(Cell::Stone(Colour::Black)),
        b'O' => Some(Cell::Stone(Colour::White)),
        _ => None,
    }
}
