//! Texts of a record as JSON strings. What could end an element of HTML is written by its number, so the data can be put into a
//! page as they are.

use std::alloc::{AllocError, Global};
use tool_parts::text_of;

/// Appends a text of a record, as a string.
pub(crate) fn push_string(
    alloc: Global,
    text: &mut String,
    value: &[u8],
) -> Result<(), AllocError> {
    let said = text_of(alloc, value)?;
    text.push('"')?;
    for one in said.chars() {
        push_character(text, one)?;
    }
    text.push('"')
}

/// Appends a character of a string. Of the characters below the space, only tabs and line feeds are kept.
fn push_character(text: &mut String, one: char) -> Result<(), AllocError> {
    match one {
        '"' => text.push_str("\\\""),
        '\\' => text.push_str("\\\\"),
        '\n' => text.push_str("\\n"),
        '\t' => text.push(' '),
        '<' => text.push_str("\\u003c"),
        '>' => text.push_str("\\u003e"),
        '&' => text.push_str("\\u0026"),
        _ if one < ' ' => Ok(()),
        _ => text.push(one),
    }
}
