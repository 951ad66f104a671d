//! Copies of the parts of a tree, in memory of their own. A copy fails only if memory is refused.

ghost use Rattle.std.specs.Prelude.{◌≡◌, ◌++◌, ◌∷◌, [], IfOk, OnOk};

use sgf_text::{Bytes, Property, SgfNode, Tree, Values};
use std::alloc::{AllocError, Global};

/// A copy of the bytes.
pub fn copy_bytes(alloc: Global, bytes: &Bytes) -> Result<Bytes, AllocError>
    ensures { IfOk result (λ copy. copy ≡ bytes.now) }
{
    Ok(Bytes::from_vec(bytes.as_slice().to_vec(alloc)?))
}

/// A copy of the values.
fn copy_values(alloc: Global, values: &[Bytes]) -> Result<Vec<Bytes>, AllocError>
    ensures { IfOk result (λ copy. copy.items ≡ values.now) }
{
    let mut copy = Vec::new(alloc);
    for i in 0..values.len() {
        copy.push(copy_bytes(alloc, &values[i])?)?;
    }
    Ok(copy)
}

/// A copy of the property.
pub fn copy_property(alloc: Global, property: &Property) -> Result<Property, AllocError>
    ensures { IfOk result (λ copy. copy ≡ property.now) }
{
    let ident = copy_bytes(alloc, &property.ident)?;
    let values = copy_values(alloc, property.values.as_slice())?;
    Ok(Property {
        ident,
        values: Values::from_vec(values),
    })
}

/// A copy of the properties.
pub fn copy_properties(alloc: Global, properties: &[Property]) -> Result<Vec<Property>, AllocError>
    ensures { IfOk result (λ copy. copy.items ≡ properties.now) }
{
    let mut copy = Vec::new(alloc);
    for i in 0..properties.len() {
        copy.push(copy_property(alloc, &properties[i])?)?;
    }
    Ok(copy)
}

/// A copy of the node.
pub fn copy_node(alloc: Global, node: &SgfNode) -> Result<SgfNode, AllocError>
    ensures { IfOk result (λ copy. copy ≡ node.now) }
{
    let properties = copy_properties(alloc, node.as_slice())?;
    match SgfNode::new(properties) {
        Some(copy) => Ok(copy),
        None => unreachable!(),
    }
}

/// Appends copies of the nodes.
pub fn push_nodes(
    alloc: Global,
    nodes: &[SgfNode],
    into: &mut Vec<SgfNode>,
) -> Result<(), AllocError>
    ensures { OnOk result (into.new.items ≡ into.old.items ++ nodes.now) }
{
    for i in 0..nodes.len() {
        into.push(copy_node(alloc, &nodes[i])?)?;
    }
    Ok(())
}

/// A copy of the tree. It recurses as deep as trees are nested.
pub fn copy_tree(alloc: Global, tree: &Tree) -> Result<Tree, AllocError>
    ensures { IfOk result (λ copy. copy ≡ tree.now) }
{
    let mut nodes = Vec::new(alloc);
    push_nodes(alloc, tree.nodes(), &mut nodes)?;
    let mut children = Vec::new(alloc);
    for child in tree.children() {
        children.push(copy_tree(alloc, child)?)?;
    }
    match Tree::new(nodes, children) {
        Some(copy) => Ok(copy),
        None => unreachable!(),
    }
}

/// Appends copies of the trees.
pub fn push_trees(alloc: Global, trees: &[Tree], into: &mut Vec<Tree>) -> Result<(), AllocError>
    ensures { OnOk result (into.new.items ≡ into.old.items ++ trees.now) }
{
    for i in 0..trees.len() {
        into.push(copy_tree(alloc, &trees[i])?)?;
    }
    Ok(())
}

/// The property of this name with one value.
pub fn single(alloc: Global, name: &[u8], value: &[u8]) -> Result<Property, AllocError>
    ensures { IfOk result (λ p. (p.ident ≡ name.now) × (p.values ≡ value.now ∷ [])) }
{
    let mut values = Vec::new(alloc);
    values.push(Bytes::from_vec(value.to_vec(alloc)?))?;
    Ok(Property {
        ident: Bytes::from_vec(name.to_vec(alloc)?),
        values: Values::from_vec(values),
    })
}
