//! Properties that place stones.

ghost use Rattle.std.specs.Prelude.{◌≡◌, ◌++◌, IfOk, OnOk, map};
ghost use Rattle.go_points.specs.Sgf.{sgf_text};
ghost use Rattle.tsumego_problem.specs.Canonical.{property};
ghost use Rattle.record_marks.specs.Supposed.{stones};

use go_points::{Point, PointSet, to_sgf};
use sgf_text::{Bytes, Property, Values};
use std::alloc::{AllocError, Global};

/// The two letters of a point, as a value.
fn point_value(alloc: Global, point: Point) -> Result<Bytes, AllocError>
    ensures { IfOk result (λ value. value ≡ sgf_text point) }
{
    let letters = to_sgf(point);
    Ok(Bytes::from_vec(letters.as_slice().to_vec(alloc)?))
}

/// The letters of the points of a set.
fn letters_of(alloc: Global, set: &PointSet) -> Result<Vec<Bytes>, AllocError>
    ensures { IfOk result (λ values. values.items ≡ map sgf_text set.now) }
{
    let mut values = Vec::new(alloc);
    for point in set.iter() {
        values.push(point_value(alloc, point)?)?;
    }
    Ok(values)
}

/// Appends the property of this name with the points of the set, unless it has no points.
fn push_points(
    alloc: Global,
    name: &[u8],
    set: &PointSet,
    into: &mut Vec<Property>,
) -> Result<(), AllocError>
    ensures { OnOk result
        (into.new.items ≡ into.old.items ++ property name.now (map sgf_text set.now)) }
{
    let values = letters_of(alloc, set)?;
    if values.is_empty() {
        return Ok(());
    }
    let ident = Bytes::from_vec(name.to_vec(alloc)?);
    let values = Values::from_vec(values);
    into.push(Property { ident, values })?;
    Ok(())
}

/// AB and AW of the stones that are placed.
pub(crate) fn stones(
    alloc: Global,
    black: &PointSet,
    white: &PointSet,
) -> Result<Vec<Property>, AllocError>
    ensures { IfOk result (λ properties. properties.items ≡ stones black.now white.now) }
{
    let mut properties = Vec::new(alloc);
    push_points(alloc, b"AB", black, &mut properties)?;
    push_points(alloc, b"AW", white, &mut properties)?;
    Ok(properties)
}
