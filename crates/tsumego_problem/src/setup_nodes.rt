//! Setup nodes: what changes from one colouring to another.

ghost use Rattle.std.specs.Prelude.{◌≡◌, ◌++◌, ◌∷◌, ◌&&◌, [], not, IfOk, OnOk, IsTrue, decimal};
ghost use Rattle.go_points.specs.Grid.{same_cell, side_of};
ghost use Rattle.go_points.specs.Sgf.{sgf_text};
ghost use Rattle.sgf_text.specs.Nodes.{is_node};
ghost use Rattle.tsumego_problem.specs.Canonical.{point_values, property, changed_to, changes, root_node};

use go_points::{Cell, Colour, Colouring, Point, Size, to_sgf};
use sgf_text::{Bytes, Property, SgfNode, Values};
use std::alloc::{AllocError, Global};

/// The two letters of a point, as a value.
pub(crate) fn point_value(alloc: Global, point: Point) -> Result<Bytes, AllocError>
    ensures { IfOk result (λ value. value ≡ sgf_text point) }
{
    let letters = to_sgf(point);
    Ok(Bytes::from_vec(letters.as_slice().to_vec(alloc)?))
}

/// Appends a property to a node's properties, unless it has no values.
pub(crate) fn push_property(
    alloc: Global,
    properties: &mut Vec<Property>,
    name: &[u8],
    values: Vec<Bytes>,
) -> Result<(), AllocError>
    ensures { OnOk result
        (properties.new.items ≡ properties.old.items ++ property name.now values.items) }
{
    if values.is_empty() {
        return Ok(());
    }
    let ident = Bytes::from_vec(name.to_vec(alloc)?);
    let values = Values::from_vec(values);
    properties.push(Property { ident, values })?;
    Ok(())
}

/// Appends a property with one value to a node's properties.
pub(crate) fn push_one(
    alloc: Global,
    properties: &mut Vec<Property>,
    name: &[u8],
    value: &[u8],
) -> Result<(), AllocError>
    ensures { OnOk result
        (properties.new.items ≡ properties.old.items ++ property name.now (value.now ∷ [])) }
{
    let mut values = Vec::new(alloc);
    values.push(Bytes::from_vec(value.to_vec(alloc)?))?;
    push_property(alloc, properties, name, values)
}

/// The node of these properties.
pub(crate) fn node_of(properties: Vec<Property>) -> SgfNode
    requires { IsTrue (is_node properties.items) }
    ensures { result ≡ properties.items }
{
    match SgfNode::new(properties) {
        Some(node) => node,
        None => unreachable!(),
    }
}

/// Whether a point comes to hold the cell.
fn comes_to(cell: Cell, old: Cell, new: Cell) -> bool
    ensures { result ≡ (same_cell new cell && not (same_cell old cell)) }
{
    new == cell && old != cell
}

/// The points that come to hold the cell.
fn changed_to(
    alloc: Global,
    size: Size,
    cell: Cell,
    old: &Colouring,
    new: &Colouring,
) -> Result<Vec<Bytes>, AllocError>
    requires old { side_of old.now ≡ size }
    requires new { side_of new.now ≡ size }
    ensures { IfOk result
        (λ values. values.items ≡ point_values size (changed_to size cell old.now new.now)) }
{
    let mut values = Vec::new(alloc);
    for number in 0..size.area() {
        let point = size.point_at(number);
        if comes_to(cell, old.get(point), new.get(point)) {
            values.push(point_value(alloc, point)?)?;
        }
    }
    Ok(values)
}

/// Appends AB, AW and AE of the points that change to a node's properties.
fn push_changes(
    alloc: Global,
    size: Size,
    old: &Colouring,
    new: &Colouring,
    properties: &mut Vec<Property>,
) -> Result<(), AllocError>
    requires old { side_of old.now ≡ size }
    requires new { side_of new.now ≡ size }
    ensures { OnOk result
        (properties.new.items ≡ properties.old.items ++ changes size old.now new.now) }
{
    let black = changed_to(alloc, size, Cell::Stone(Colour::Black), old, new)?;
    push_property(alloc, properties, b"AB", black)?;
    let white = changed_to(alloc, size, Cell::Stone(Colour::White), old, new)?;
    push_property(alloc, properties, b"AW", white)?;
    let empty = changed_to(alloc, size, Cell::Empty, old, new)?;
    push_property(alloc, properties, b"AE", empty)
}

/// The node of the points that change from one colouring to another.
pub(crate) fn changes_node(
    alloc: Global,
    size: Size,
    old: &Colouring,
    new: &Colouring,
) -> Result<SgfNode, AllocError>
    requires old { side_of old.now ≡ size }
    requires new { side_of new.now ≡ size }
    ensures { IfOk result (λ node. node ≡ changes size old.now new.now) }
{
    let mut properties = Vec::new(alloc);
    push_changes(alloc, size, old, new, &mut properties)?;
    Ok(node_of(properties))
}

/// The digits of the size.
fn size_value(alloc: Global, size: Size) -> Result<Vec<u8>, AllocError>
    ensures { IfOk result (λ digits. digits.items ≡ decimal size) }
{
    let rows = size.rows();
    Ok(format!(in alloc; "{rows}")?.into_bytes())
}

/// The root: FF, GM, SZ, and AB and AW of the first colouring.
pub(crate) fn root_node(alloc: Global, size: Size, first: &Colouring) -> Result<SgfNode, AllocError>
    requires { side_of first.now ≡ size }
    ensures { IfOk result (λ node. node ≡ root_node size first.now) }
{
    prove!(size.area() > 0);
    let mut properties = Vec::new(alloc);
    push_one(alloc, &mut properties, b"FF", b"4")?;
    push_one(alloc, &mut properties, b"GM", b"1")?;
    let rows = size_value(alloc, size)?;
    push_one(alloc, &mut properties, b"SZ", rows.as_slice())?;
    push_changes(alloc, size, &Colouring::empty(size), first, &mut properties)?;
    Ok(node_of(properties))
}
