//! Names of points, as at the edge of the board.

ghost use Rattle.std.specs.Prelude.{◌≡◌, ◌++◌, IfOk, OnOk, string_bytes};
ghost use Rattle.group_status.specs.Names.{name_text, names_text};

use go_points::{Point, PointSet, Size, to_gtp};
use std::alloc::{AllocError, Global};

/// The name of the point; an empty text if the board does not have it.
pub(crate) fn point_name(alloc: Global, size: Size, point: Point) -> Result<String, AllocError>
    ensures { IfOk result (λ name. string_bytes name ≡ name_text size point) }
{
    if size.holds(point) {
        name_of(alloc, to_gtp(size, point).as_slice())
    } else {
        name_of(alloc, &[])
    }
}

/// The letters and digits of a name, as a text.
fn name_of(alloc: Global, letters: &[u8]) -> Result<String, AllocError>
    ensures { IfOk result (λ name. string_bytes name ≡ letters.now) }
{
    match std::str::from_utf8(letters) {
        Ok(read) => read.to_string(alloc),
        // No name has such bytes.
        Err(_) => Err(AllocError),
    }
}

/// The names of the points, with commas between them.
pub(crate) fn point_names(
    alloc: Global,
    size: Size,
    points: &PointSet,
) -> Result<String, AllocError>
    ensures { IfOk result (λ names. string_bytes names ≡ names_text size points.now) }
{
    let mut names = String::new(alloc);
    let mut between = "";
    for point in points.iter() {
        let name = point_name(alloc, size, point)?;
        push_text(&mut names, between)?;
        push_text(&mut names, name.as_str())?;
        between = ", ";
    }
    Ok(names)
}

/// Appends the text.
fn push_text(text: &mut String, more: &str) -> Result<(), AllocError>
    ensures { OnOk result (string_bytes text.new ≡ string_bytes text.old ++ more.now) }
{
    text.push_str(more)?;
    Ok(())
}
