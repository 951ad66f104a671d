//! Texts of a record, as they are shown.

use std::alloc::{AllocError, Global};

/// What a text of a record says (SGF FF[4], "Text"): a backslash makes the next byte stand for itself, and removes a line end that
/// follows it; all line ends become line feeds. If the bytes are not UTF-8, each byte is one character, by its number.
pub fn text_of(alloc: Global, value: &[u8]) -> Result<String, AllocError> {
    let said = unescaped(alloc, value)?;
    match std::str::from_utf8(said.as_slice()) {
        Ok(read) => format!(in alloc; "{read}"),
        Err(_) => characters(alloc, said.as_slice()),
    }
}

/// The bytes without the backslashes that escape others.
fn unescaped(alloc: Global, value: &[u8]) -> Result<Vec<u8>, AllocError> {
    let mut said = Vec::new(alloc);
    let mut is_escaped = false;
    let mut is_line_end = false;
    for i in 0..value.len() {
        let byte = value[i];
        let is_second = is_line_end && i > 0 && is_other_half(value[i - 1], byte);
        is_line_end = (byte == b'\n' || byte == b'\r') && !is_second;
        if is_escaped {
            is_escaped = false;
            if !is_line_end {
                said.push(byte)?;
            }
        } else if byte == b'\\' {
            is_escaped = true;
        } else if is_line_end {
            said.push(b'\n')?;
        } else if !is_second {
            said.push(byte)?;
        }
    }
    Ok(said)
}

/// Whether the two bytes are together one line end.
fn is_other_half(first: u8, second: u8) -> bool {
    first == b'\r' && second == b'\n' || first == b'\n' && second == b'\r'
}

/// A character for each byte.
fn characters(alloc: Global, bytes: &[u8]) -> Result<String, AllocError> {
    let mut text = String::new(alloc);
    for byte in bytes {
        text.push(char::from(*byte))?;
    }
    Ok(text)
}
