//! The node that is being read. The values of properties with the same name are joined.
//!
//! Of a node with many properties the names after the first few are found by their order, so no choice of names makes it slow to
//! read. A hash would have names that collide.

ghost use Rattle.std.specs.Prelude.{◌≡◌, ◌<◌, ◌≤◌, ◌-◌, ℕ, List, [], IsTrue, IfOk, OnOk, OnErr, Some, position, take};
ghost use Rattle.std.specs.BTreeMap.{Updates};
ghost use Rattle.sgf_text.specs.Bytes.{bytes_order};
ghost use Rattle.sgf_text.specs.Nodes.{is_node, is_named};
ghost use Rattle.sgf_text.specs.OpenTrees.{added, ArePlaces};

use crate::bytes::Bytes;
use crate::node::{Property, SgfNode};
use crate::values::Values;
use std::alloc::{AllocError, Global};
use std::collections::BTreeMap;
use std::marker::Model;

/// How many names are looked through one after another.
const FEW: usize = 8;

/// Properties in the order in which their names first occur. Contracts see them as a list.
#[derive(Drop)]
pub struct OpenNode {
    alloc: Global,
    // The place of each name among the properties after the first few.
    places: BTreeMap<Bytes, usize>,
    properties: Vec<Property>,
}

impl Model for OpenNode {
    ghost use Rattle.std.specs.Prelude.{List, drop};
    ghost use Rattle.sgf_text.specs.declared.node.Property.{Property};
    ghost use Rattle.sgf_text.specs.OpenTrees.{ArePlaces, names_of};

    ghost Value = { List Property };

    ghost view = { λ n. n.properties.items };

    ghost invariant = { λ n. ArePlaces n.places (names_of (drop 8 n.properties.items)) };
}

impl OpenNode {
    pub fn new(alloc: Global) -> Self
        ensures { result ≡ [] }
    {
        OpenNode {
            alloc,
            places: BTreeMap::new(alloc),
            properties: Vec::new(alloc),
        }
    }

    /// The place of the property of this name.
    fn place_of(&self, ident: &Bytes) -> Option<usize>
        ensures { result ≡ position (is_named ident.now) self.now }
    {
        if let Some(place) = place_among_few(self.properties.as_slice(), ident) {
            return Some(place);
        }
        match self.places.get(ident).copied() {
            Some(place) => Some(FEW + place),
            None => None,
        }
    }

    /// Adds the values to the property of this name, or appends a property with them.
    pub fn add(&mut self, ident: Bytes, values: Values) -> Result<(), AllocError>
        ensures { OnOk result (self.new ≡ added self.old ident values) }
    {
        if let Some(place) = self.place_of(&ident) {
            return self.properties[place].values.append(self.alloc, values);
        }
        let count = self.properties.len();
        note_place(self.alloc, &mut self.places, count, &ident)?;
        if self.properties.push(Property { ident, values }).is_err() {
            *self = OpenNode::new(self.alloc);
            return Err(AllocError);
        }
        Ok(())
    }

    /// The node that is read. Then there are no properties, for the next node.
    pub fn take_node(&mut self) -> Result<SgfNode, AllocError>
        requires { IsTrue (is_node self.old) }
        ensures node { IfOk result (λ n. n ≡ self.old) }
        ensures rest { OnOk result (self.new ≡ []) }
    {
        let mut properties = Vec::with_capacity(self.alloc, self.properties.len())?;
        properties.append(&mut self.properties)?;
        self.places = BTreeMap::new(self.alloc);
        Ok(SgfNode::from_good(properties))
    }
}

/// The place of the property of this name, if it is one of the first few.
fn place_among_few(properties: &[Property], ident: &Bytes) -> Option<usize>
    ensures { result ≡ position (is_named ident.now) (take 8 properties.now) }
{
    properties
        .iter()
        .take(FEW)
        .position(|property| property.ident.as_slice() == ident.as_slice())
}

/// Notes the place of one property more, whose name is new, unless it is one of the first few. `count` is the number of those
/// before it.
fn note_place(
    alloc: Global,
    places: &mut BTreeMap<Bytes, usize>,
    count: usize,
    ident: &Bytes,
) -> Result<(), AllocError>
    ensures few { OnOk result (count < 8 → places.new ≡ places.old) }
    ensures more { OnOk result (8 ≤ count
        → Updates bytes_order places.old places.new ident.now (Some (count - 8))) }
    // After a failure the map has the places that it had.
    ensures err { OnErr result ((names : List (List ℕ)) → ArePlaces places.old names
        → ArePlaces places.new names) }
{
    if count < FEW {
        return Ok(());
    }
    let name = Bytes::copy_from_slice(alloc, ident.as_slice())?;
    if places.insert(name, count - FEW).is_err() {
        return Err(AllocError);
    }
    Ok(())
}
