//! The part of a raw line that counts, and its words.

ghost use Rattle.std.specs.Prelude.{◌≡◌, ◌≤◌, [], drop, take, length, option_map};
ghost use Rattle.std.specs.Str.{all_ascii_digits};
ghost use Rattle.gtp_core.specs.Lines.{cleaned, is_control, words_of, number_named, max_line};
ghost use Rattle.gtp_core.specs.Private.Pieces.{HasNone, IsAtSpace, BeginsWord, words_from};

use crate::session::MAX_LINE;
use arrayvec::ArrayVec;

/// The greatest number.
const MAX_NUMBER: u64 = 2_147_483_647;

/// Whether the byte is ignored.
fn is_control(byte: u8) -> bool
    ensures { result ≡ is_control byte }
{
    byte < 9 || (10 < byte && byte < 32) || byte == 127
}

/// The part of a raw line that counts.
pub(crate) fn clean(line: &[u8]) -> ArrayVec<u8, MAX_LINE>
    requires { length line.now ≤ max_line }
    ensures { result.items ≡ cleaned line.now }
{
    let mut text = ArrayVec::new();
    for place in 0..line.len() {
        let byte = line[place];
        if is_control(byte) {
            continue;
        }
        if byte == b'#' {
            return text;
        }
        text.push(if byte == b'\t' { b' ' } else { byte });
    }
    text
}

/// The text from its first word on.
fn skip_spaces(text: &[u8]) -> &[u8]
    ensures words { words_of result.now ≡ words_of text.now }
    ensures begins { BeginsWord result.now }
{
    for start in 0..text.len() {
        if text[start] != b' ' {
            return &text[start..];
        }
    }
    &[]
}

/// The place of the first space, or the length if there is none.
fn word_end(text: &[u8]) -> usize
    ensures within { result ≤ length text.now }
    ensures word { HasNone 32 (take result text.now) }
    ensures end { IsAtSpace (drop result text.now) }
{
    for end in 0..text.len() {
        if text[end] == b' ' {
            return end;
        }
    }
    text.len()
}

/// The first word, and what follows it.
pub(crate) fn take_word(text: &[u8]) -> Option<(&[u8], &[u8])>
    ensures { words_of text.now
        ≡ words_from (option_map (λ parts. (parts.0.now, parts.1.now)) result) }
{
    let text = skip_spaces(text);
    if text.is_empty() {
        return None;
    }
    let end = word_end(text);
    Some((&text[..end], &text[end..]))
}

/// Whether each byte is a digit.
pub(crate) fn is_digits(word: &[u8]) -> bool
    ensures { result ≡ all_ascii_digits word.now }
{
    for place in 0..word.len() {
        if !word[place].is_ascii_digit() {
            return false;
        }
    }
    true
}

/// The number that the word names.
pub(crate) fn number_named(word: &[u8]) -> Option<u32>
    ensures { result ≡ number_named word.now }
{
    if word.is_empty() {
        return None;
    }
    let mut value: u64 = 0;
    for place in 0..word.len() {
        let digit = word[place];
        if !digit.is_ascii_digit() {
            return None;
        }
        value = 10 * value + (digit - b'0') as u64;
        if value > MAX_NUMBER {
            return None;
        }
    }
    Some(value as u32)
}
