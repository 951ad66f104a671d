//! What a node may hold: names of upper-case letters that occur once, with values that end where they should.
//!
//! Nothing here allocates memory, so names are compared in pairs: the time is quadratic in the number of properties.

ghost use Rattle.std.specs.Prelude.{◌≡◌, not, ◌&&◌, ◌==◌};
ghost use Rattle.std.specs.List.{list_any};
ghost use Rattle.sgf_text.specs.Bytes.{is_upper};
ghost use Rattle.sgf_text.specs.Nodes.{is_value, is_ident, is_property, is_node, is_named, are_distinct};

use crate::node::Property;

/// Whether the properties make a node: each has a name and a value, and no name occurs twice.
pub fn is_node(properties: &[Property]) -> bool
    ensures { result ≡ is_node properties.now }
{
    for property in properties {
        if !is_property(property) {
            return false;
        }
    }
    are_distinct(properties)
}

/// Whether no name occurs twice.
fn are_distinct(properties: &[Property]) -> bool
    ensures { result ≡ are_distinct properties.now }
{
    for at in 0..properties.len() {
        if has_name(&properties[at + 1..], properties[at].ident.as_slice()) {
            return false;
        }
    }
    true
}

/// Whether a property has this name.
fn has_name(properties: &[Property], name: &[u8]) -> bool
    ensures { result ≡ list_any (is_named name.now) properties.now }
{
    properties
        .iter()
        .any(|property| name == property.ident.as_slice())
}

/// Whether the property has a name of one or more upper-case letters, and one or more values.
fn is_property(property: &Property) -> bool
    ensures { result ≡ is_property property.now }
{
    let values = property.values.as_slice();
    if values.is_empty() || !is_ident(property.ident.as_slice()) {
        return false;
    }
    for value in values {
        if !is_value(value.as_slice()) {
            return false;
        }
    }
    true
}

/// Whether it is one or more upper-case letters.
fn is_ident(name: &[u8]) -> bool
    ensures { result ≡ is_ident name.now }
{
    for byte in name {
        if !is_upper(*byte) {
            return false;
        }
    }
    !name.is_empty()
}

fn is_upper(byte: u8) -> bool
    ensures { result ≡ is_upper byte }
{
    byte.is_ascii_uppercase()
}

/// Whether it may stand between "[" and "]": each "]" has a backslash before it, and no backslash is left at the end.
fn is_value(value: &[u8]) -> bool
    ensures { result ≡ is_value value.now }
{
    let mut escaped = false;
    for byte in value {
        if is_bare(escaped, *byte, b']') {
            return false;
        }
        escaped = is_bare(escaped, *byte, b'\\');
    }
    !escaped
}

/// Whether the byte is this one and is not escaped by a backslash.
fn is_bare(escaped: bool, byte: u8, this: u8) -> bool
    ensures { result ≡ (not escaped && (byte == this)) }
{
    !escaped && byte == this
}
