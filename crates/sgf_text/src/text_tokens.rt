//! A text as tokens, one at a time.

ghost use Rattle.std.specs.Prelude.{◌≡◌, ◌<◌, ◌≤◌, length};
ghost use Rattle.sgf_text.specs.Tokens.{tokens_of, first_len};

use crate::token::{Token, TokenKind, is_white, kind_of, letters_len, value_rest_len};
use std::marker::Model;

/// The tokens of a text that are left. Contracts see them as a list of spans.
#[derive(Drop)]
pub struct TextTokens<'a> {
    text: &'a [u8],
    at: usize,
}

impl<'a> Model for TextTokens<'a> {
    ghost use Rattle.std.specs.Prelude.{List, ◌≤◌, length, drop};
    ghost use Rattle.sgf_text.specs.Tokens.{Span, tokens_after};

    ghost Value = { List Span };

    ghost view = { λ t. tokens_after 0 t.at (drop t.at t.text.now) };

    ghost invariant = { λ t. t.at ≤ length t.text.now };
}

/// The tokens of a text, in the order of their places. Each is the longest token that begins where it does. White space between
/// them is skipped.
///
/// No text is refused. A byte that has no meaning in SGF is a token of its own, and an unclosed value goes on to the end.
pub fn tokens(text: &[u8]) -> TextTokens<'_>
    ensures { result ≡ tokens_of text.now }
{
    TextTokens { text, at: 0 }
}

/// How long the token at the front is.
fn token_len(text: &[u8]) -> usize
    requires { 0 < length text.now }
    ensures len { result ≡ first_len text.now }
    ensures some { 0 < result }
    ensures within { result ≤ length text.now }
{
    match kind_of(text[0]) {
        TokenKind::Ident => 1 + letters_len(&text[1..]),
        TokenKind::Value => 1 + value_rest_len(&text[1..]),
        _ => 1,
    }
}

impl<'a> Iterator for TextTokens<'a> {
    ghost use Rattle.std.specs.Iterator.{YieldsFirstBy, item_count};
    ghost use Rattle.sgf_text.specs.Tokens.{span_of};

    type Item = Token<'a>;

    ghost next_gives = { YieldsFirstBy span_of (λ left. left) };

    ghost remaining = { item_count (λ left. left) };

    fn next(&mut self) -> Option<Token<'a>> {
        while self.at < self.text.len() && is_white(self.text[self.at]) {
            self.at += 1;
        }
        if self.at == self.text.len() {
            return None;
        }
        let at = self.at;
        let rest: &'a [u8] = &self.text[at..];
        let len = token_len(rest);
        self.at += len;
        Some(Token {
            kind: kind_of(rest[0]),
            text: &rest[..len],
            at,
        })
    }
}
