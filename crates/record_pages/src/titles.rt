//! Titles and comments of a record.

ghost use Rattle.std.specs.Prelude.{◌≡◌, ◌++◌, ◌∷◌, [], List, ℕ, codes, OnOk};

use sgf_text::{Property, SgfNode};
use std::alloc::{AllocError, Global};
use tool_parts::{copy_property, single};
use tsumego_problem::values_at;

/// Whether the property says where a problem comes from (SGF FF[4], "Game info properties"), or which character set the record
/// uses.
fn is_title(name: &[u8]) -> bool {
    match name {
        b"CA" | b"GN" | b"GC" | b"EV" | b"RO" | b"DT" | b"PC" => true,
        b"PB" | b"PW" | b"BR" | b"WR" | b"BT" | b"WT" => true,
        b"AN" | b"SO" | b"US" | b"CP" | b"ON" => true,
        _ => false,
    }
}

/// Appends the titles of the node.
pub fn push_titles(
    alloc: Global,
    node: &SgfNode,
    into: &mut Vec<Property>,
) -> Result<(), AllocError> {
    for property in node.as_slice() {
        if is_title(property.ident.as_slice()) {
            into.push(copy_property(alloc, property)?)?;
        }
    }
    Ok(())
}

/// Appends the labels of the node.
pub(crate) fn push_labels(
    alloc: Global,
    node: &SgfNode,
    into: &mut Vec<Property>,
) -> Result<(), AllocError> {
    for property in node.as_slice() {
        if property.ident.as_slice() == b"LB".as_slice() {
            into.push(copy_property(alloc, property)?)?;
        }
    }
    Ok(())
}

/// Appends the node's comment to the text, after an empty line if the text is not empty.
pub(crate) fn add_comment(node: &SgfNode, text: &mut Vec<u8>) -> Result<(), AllocError> {
    match values_at(b"C", node).first() {
        Some(value) => add_paragraph(value.as_slice(), text),
        None => Ok(()),
    }
}

/// Appends the paragraph to the text, after an empty line if the text is not empty.
pub(crate) fn add_paragraph(words: &[u8], text: &mut Vec<u8>) -> Result<(), AllocError>
    ensures { OnOk result ((front : List ℕ) × (text.new.items ≡ front ++ words.now)) }
{
    if !text.is_empty() {
        text.extend_from_slice(b"\n\n")?;
    }
    text.extend_from_slice(words)?;
    Ok(())
}

/// Appends a comment with this text, if the text is not empty.
pub(crate) fn push_comment(
    alloc: Global,
    text: &[u8],
    into: &mut Vec<Property>,
) -> Result<(), AllocError> {
    if text.is_empty() {
        return Ok(());
    }
    write_comment(alloc, text, into)
}

/// Appends a comment with this text.
pub(crate) fn write_comment(
    alloc: Global,
    text: &[u8],
    into: &mut Vec<Property>,
) -> Result<(), AllocError>
    ensures { OnOk result (into.new.items ≡ into.old.items
        ++ record { ident = codes "C"; values = text.now ∷ [] } ∷ []) }
{
    into.push(single(alloc, b"C", text)?)?;
    Ok(())
}
