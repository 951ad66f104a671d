//! The cells of a line.

ghost use Rattle.std.specs.Prelude.{◌≡◌};
ghost use Rattle.go_points.specs.Text.{cell_of, colouring_from_text};

use go_points::{Cell, Colour, Colouring, Size};

/// What a byte stands for.
fn read_cell(byte: u8) -> Option<Cell>
    ensures { result ≡ cell_of byte }
{
    match byte {
        b'.' => Some(Cell::Empty),
        b'X' => Some(Cell::Stone(Colour::Black)),
        b'O' => Some(Cell::Stone(Colour::White)),
        _ => None,
    }
}

/// The colouring of this size with this text, as `Colouring::from_text` gives it. Only the points with stones are set.
pub(crate) fn read_cells(size: Size, text: &[u8]) -> Option<Colouring>
    ensures { result ≡ colouring_from_text size text.now }
{
    if text.len() != size.area() {
        return None;
    }
    let mut colouring = Colouring::empty(size);
    for number in 0..text.len() {
        let cell = read_cell(text[number])?;
        if cell.is_empty() {
            continue;
        }
        colouring.set(size.point_at(number), cell);
    }
    Some(colouring)
}
