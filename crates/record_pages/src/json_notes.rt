//! What a node says besides its turn, as JSON: its comment and its labels.

use crate::json_text::push_string;
use sgf_text::SgfNode;
use std::alloc::{AllocError, Global};
use tsumego_problem::values_at;

/// Appends what the node says, as an object: its comment, which may be empty, and its labels if it has any. It may also say that
/// what follows the node is not audited.
pub(crate) fn push_note(
    alloc: Global,
    text: &mut String,
    node: &SgfNode,
    is_unaudited: bool,
) -> Result<(), AllocError> {
    text.push('{')?;
    if is_unaudited {
        text.push_str("\"unaudited\":true,")?;
    }
    text.push_str("\"comment\":")?;
    push_string(alloc, text, comment(node))?;
    push_labels(alloc, text, node)?;
    text.push('}')
}

/// Appends a comma and what the node says. Nothing is appended if there is nothing to say.
pub(crate) fn push_note_after_comma(
    alloc: Global,
    text: &mut String,
    node: &SgfNode,
    is_unaudited: bool,
) -> Result<(), AllocError> {
    if !is_unaudited && comment(node).is_empty() && values_at(b"LB", node).is_empty() {
        return Ok(());
    }
    text.push(',')?;
    push_note(alloc, text, node, is_unaudited)
}

/// The comment of the node; no bytes if it has none.
fn comment(node: &SgfNode) -> &[u8] {
    match values_at(b"C", node).first() {
        Some(value) => value.as_slice(),
        None => b"",
    }
}

/// Appends the labels of the node: for each label its point and its text.
pub(crate) fn push_labels(
    alloc: Global,
    text: &mut String,
    node: &SgfNode,
) -> Result<(), AllocError> {
    let mut count: usize = 0;
    for value in values_at(b"LB", node) {
        if let [column, row, b':', rest @ ..] = value.as_slice() {
            if column.is_ascii_lowercase() && row.is_ascii_lowercase() {
                text.push_str(if count == 0 {
                    ",\"labels\":[[\""
                } else {
                    ",[\""
                })?;
                count = count.saturating_add(1);
                text.push(char::from(*column))?;
                text.push(char::from(*row))?;
                text.push_str("\",")?;
                push_string(alloc, text, rest)?;
                text.push(']')?;
            }
        }
    }
    if count > 0 {
        text.push(']')?;
    }
    Ok(())
}
