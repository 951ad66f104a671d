//! The text of a game tree.

ghost use Rattle.std.specs.Prelude.{OnOk, OnErr, flat_map};
ghost use Rattle.std.specs.Io.KnownBytes.{Appends};
ghost use Rattle.byte_writer.specs.Taken.{HasPut, TakesPart};
ghost use Rattle.sgf_text.specs.Text.{value_text, property_text, node_text, tree_text};

use crate::bytes::Bytes;
use crate::node::{Property, SgfNode};
use crate::tree::Tree;
use byte_writer::{PendingBytes, WriteFault};
use std::io::Write;

/// Writes the tree's text, without white space between the parts and without a header. Values keep their backslashes.
///
/// It allocates no memory. After a failure the writer has taken a front of the text and nothing else.
pub fn write_tree<W: Write>(tree: &Tree, writer: &mut W) -> Result<(), WriteFault>
    ensures written { OnOk result
        (Appends (W.contents writer.old) (W.contents writer.new) (tree_text tree.now)) }
    ensures cut { OnErr result
        (TakesPart (W.contents writer.old) (W.contents writer.new) (tree_text tree.now)) }
{
    let mut pending = PendingBytes::new();
    put_tree(tree, &mut pending, writer);
    pending.finish(writer)
}

fn put_tree<W: Write>(tree: &Tree, pending: &mut PendingBytes, writer: &mut W)
    ensures { HasPut (W.contents writer.old) (W.contents writer.new) pending.old pending.new
        (tree_text tree.now) }
{
    pending.put(b"(", writer);
    put_nodes(tree.nodes(), pending, writer);
    for child in tree.children() {
        put_tree(child, pending, writer);
    }
    pending.put(b")", writer);
}

fn put_nodes<W: Write>(nodes: &[SgfNode], pending: &mut PendingBytes, writer: &mut W)
    ensures { HasPut (W.contents writer.old) (W.contents writer.new) pending.old pending.new
        (flat_map node_text nodes.now) }
{
    for node in nodes {
        put_node(node, pending, writer);
    }
}

fn put_node<W: Write>(node: &SgfNode, pending: &mut PendingBytes, writer: &mut W)
    ensures { HasPut (W.contents writer.old) (W.contents writer.new) pending.old pending.new
        (node_text node.now) }
{
    pending.put(b";", writer);
    put_properties(node.as_slice(), pending, writer);
}

fn put_properties<W: Write>(properties: &[Property], pending: &mut PendingBytes, writer: &mut W)
    ensures { HasPut (W.contents writer.old) (W.contents writer.new) pending.old pending.new
        (flat_map property_text properties.now) }
{
    for property in properties {
        put_property(property, pending, writer);
    }
}

fn put_property<W: Write>(property: &Property, pending: &mut PendingBytes, writer: &mut W)
    ensures { HasPut (W.contents writer.old) (W.contents writer.new) pending.old pending.new
        (property_text property.now) }
{
    pending.put(property.ident.as_slice(), writer);
    put_values(property.values.as_slice(), pending, writer);
}

fn put_values<W: Write>(values: &[Bytes], pending: &mut PendingBytes, writer: &mut W)
    ensures { HasPut (W.contents writer.old) (W.contents writer.new) pending.old pending.new
        (flat_map value_text values.now) }
{
    for value in values {
        put_value(value, pending, writer);
    }
}

fn put_value<W: Write>(value: &Bytes, pending: &mut PendingBytes, writer: &mut W)
    ensures { HasPut (W.contents writer.old) (W.contents writer.new) pending.old pending.new
        (value_text value.now) }
{
    pending.put(b"[", writer);
    pending.put(value.as_slice(), writer);
    pending.put(b"]", writer);
}
