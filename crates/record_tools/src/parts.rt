//! Where the games of a file begin, even after one that is broken.
//!
//! A game that is cut off would take the next one for a variation, or for the rest of a comment. But in FF[4] only roots have root
//! properties, so a line that begins with a node whose first property is a root property begins a game, wherever it is. Such lines
//! divide a file in one pass, from its beginning to its end.

ghost use Rattle.std.specs.Prelude.{◌≡◌, ◌<◌, ◌≤◌, drop, length};

/// The length of the first part of the text: up to the next line that begins a game for certain, or to the end.
pub(crate) fn part_length(text: &[u8]) -> usize
    ensures within { result ≤ length text.now }
    // No part is empty, so the parts of a text come to its end.
    ensures some { 0 < length text.now → 0 < result }
{
    for at in 1..text.len() {
        if begins_line(text, at) && begins_game(text, at) {
            return at;
        }
    }
    text.len()
}

/// The place of the first game tree, or the length if there is none.
pub(crate) fn first_tree(text: &[u8]) -> usize
    ensures { result ≤ length text.now }
{
    for at in 0..text.len() {
        if begins_tree(text, at) {
            return at;
        }
    }
    text.len()
}

/// Where to go on after a game tree that is broken: the next line that begins with a tree, or the end.
pub(crate) fn next_line_of_tree(text: &[u8]) -> usize
    ensures within { result ≤ length text.now }
    // A broken tree is passed, and not met again.
    ensures some { 0 < length text.now → 0 < result }
{
    for at in first_tree(text).saturating_add(1)..text.len() {
        if begins_line(text, at) && begins_tree(text, at) {
            return at;
        }
    }
    text.len()
}

/// The text from this place on.
pub(crate) fn text_after(text: &[u8], place: usize) -> &[u8]
    requires { place ≤ length text.now }
    ensures { result.now ≡ drop place text.now }
{
    &text[place..]
}

/// Whether a line begins here.
fn begins_line(text: &[u8], at: usize) -> bool {
    at == 0 || at <= text.len() && matches!(text[at - 1], b'\n' | b'\r')
}

/// Whether a game tree begins here whose first property is one that only roots have.
fn begins_game(text: &[u8], at: usize) -> bool {
    if !begins_tree(text, at) {
        return false;
    }
    let semicolon = after_blanks(text, at.saturating_add(1));
    let name = after_blanks(text, semicolon.saturating_add(1));
    let rest = text_after(text, name);
    [b"AP", b"CA", b"FF", b"GM", b"ST", b"SZ"].iter().any(|root| rest.starts_with(*root)
        && begins_value(rest, root.len()))
}

/// Whether a game tree begins here: a parenthesis and a semicolon, with or without white space between.
fn begins_tree(text: &[u8], at: usize) -> bool {
    if at >= text.len() || text[at] != b'(' {
        return false;
    }
    let place = after_blanks(text, at + 1);
    place < text.len() && text[place] == b';'
}

/// Whether a value begins here, with or without white space before it.
fn begins_value(text: &[u8], at: usize) -> bool {
    let place = after_blanks(text, at);
    place < text.len() && text[place] == b'['
}

/// The first place from here on without white space.
fn after_blanks(text: &[u8], from: usize) -> usize
    ensures { result ≤ length text.now }
{
    for at in from..text.len() {
        if !matches!(text[at], b'\t'..=b'\r' | b' ') {
            return at;
        }
    }
    text.len()
}
