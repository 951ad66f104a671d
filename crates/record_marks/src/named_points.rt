//! Points and rectangles as people name them, as the values of a property.

ghost use Rattle.std.specs.Prelude.{◌≡◌, IfOk, Some, option_map, position};
ghost use Rattle.go_points.specs.Sgf.{sgf_text};
ghost use Rattle.record_marks.specs.Named.{corners, greater, is_colon, is_comma, lesser, value_named, values_named};

use go_points::{Point, Size, to_sgf};
use regions::named_point;
use sgf_text::Bytes;
use std::alloc::{AllocError, Global};

/// The points and rectangles that the text names, separated by commas, as `dc`, `D17` or `dc:D16`. `None` if a part names none.
pub(crate) fn named_values(
    alloc: Global,
    size: Size,
    text: &[u8],
) -> Result<Option<Vec<Bytes>>, AllocError>
    ensures { IfOk result (λ named. option_map (λ v. v.items) named ≡ values_named size text.now) }
{
    let mut values = Vec::new(alloc);
    let mut rest = text;
    while let Some(at) = comma_in(rest) {
        let Some(value) = named_value(alloc, size, &rest[..at])? else {
            return Ok(None);
        };
        values.push(value)?;
        rest = &rest[at + 1..];
    }
    let Some(last) = named_value(alloc, size, rest)? else {
        return Ok(None);
    };
    values.push(last)?;
    Ok(Some(values))
}

/// The first comma.
fn comma_in(text: &[u8]) -> Option<usize>
    ensures { result ≡ position is_comma text.now }
{
    text.iter().position(|byte| *byte == b',')
}

/// The first colon.
fn colon_in(name: &[u8]) -> Option<usize>
    ensures { result ≡ position is_colon name.now }
{
    name.iter().position(|byte| *byte == b':')
}

/// The point or the rectangle of this name, in letters.
fn named_value(alloc: Global, size: Size, name: &[u8]) -> Result<Option<Bytes>, AllocError>
    ensures { IfOk result (λ value. value ≡ value_named size name.now) }
{
    if let Some(at) = colon_in(name) {
        let first = named_point(size, &name[..at]);
        let second = named_point(size, &name[at + 1..]);
        let (Some(first), Some(second)) = (first, second) else {
            return Ok(None);
        };
        return Ok(Some(rectangle(alloc, first, second)?));
    }
    match named_point(size, name) {
        Some(point) => Ok(Some(letters(alloc, point)?)),
        None => Ok(None),
    }
}

/// The letters of the point.
fn letters(alloc: Global, point: Point) -> Result<Bytes, AllocError>
    ensures { IfOk result (λ value. value ≡ sgf_text point) }
{
    Ok(Bytes::from_vec(to_sgf(point).as_slice().to_vec(alloc)?))
}

/// The rectangle of two opposite corners.
fn rectangle(alloc: Global, first: Point, second: Point) -> Result<Bytes, AllocError>
    ensures { IfOk result (λ value. value ≡ corners (sgf_text first) (sgf_text second)) }
{
    let one = to_sgf(first);
    let other = to_sgf(second);
    let text = [
        lesser(one[0], other[0]),
        lesser(one[1], other[1]),
        b':',
        greater(one[0], other[0]),
        greater(one[1], other[1]),
    ];
    Ok(Bytes::from_vec(text.as_slice().to_vec(alloc)?))
}

fn lesser(first: u8, second: u8) -> u8
    ensures { result ≡ lesser first second }
{
    if first <= second { first } else { second }
}

fn greater(first: u8, second: u8) -> u8
    ensures { result ≡ greater first second }
{
    if first <= second { second } else { first }
}
