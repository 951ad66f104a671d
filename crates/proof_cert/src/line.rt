//! The lines of a claim, and the bytes that spell them.

ghost use Rattle.std.specs.Prelude.{◌≡◌, ◌<◌, ℕ, true, codes, option_map, is_some, nat_eq, position};
ghost use Rattle.go_points.specs.Ply.{ply_of};
ghost use Rattle.proof_cert.specs.Text.{after_word, at_end, at_space, behind, number_of, colour_of, vertex_of, header_rest, header_tail, lemma_tail, no_header, or_else, line_by, line_of, short_line_of};
ghost use Rattle.proof_cert.specs.Lines.{use_line};
ghost use Rattle.proof_cert.specs.Private.Body.{other_line_of};
ghost use Rattle.proof_cert.specs.Stage.{line_value, version_number};

use crate::body_line::read_body_line;
use crate::cells::read_cells;
use crate::spelling::Spelling;
use crate::version::Version;
use go_points::{Colour, Colouring, Size, Turn, sgf_point};

/// One line of a claim.
#[derive(Clone, Copy, Debug, PartialEq, Eq)]
pub enum Line {
    Header {
        version: Version,
        size: u32,
        winner: Colour,
    },
    Lemma {
        mover: Colour,
        passes: u8,
        root: Colouring,
    },
    Had(Colouring),
    Not(Colouring),
    Main,
    Won,
    Use(u32),
    Play(Turn),
    All(u32),
    Reply(Turn),
    End,
}

/// What follows the word at the front of the text. `None` if the text does not begin with the word.
#[inline(always)]
pub(crate) fn behind_word<'a>(word: &[u8], text: &'a [u8]) -> Option<&'a [u8]>
    ensures { option_map (λ rest. rest.now) result ≡ after_word word.now text.now }
{
    text.strip_prefix(word)
}

/// Whether the text is just this word.
#[inline(always)]
pub(crate) fn is_word(word: &[u8], text: &[u8]) -> bool
    ensures { result ≡ is_some (at_end true (after_word word.now text.now)) }
{
    match behind_word(word, text) {
        Some(rest) => rest.is_empty(),
        None => false,
    }
}

/// A number: 1 to 8 digits, the first not 0.
#[inline(always)]
pub(crate) fn read_number(text: &[u8]) -> Option<u32>
    ensures { result ≡ number_of text.now }
{
    if text.is_empty() || text.len() > 8 || text[0] == b'0' {
        return None;
    }
    let mut value = 0u32;
    for digit in text {
        if *digit < b'0' || *digit > b'9' {
            return None;
        }
        value = value * 10 + u32::from(*digit - b'0');
    }
    Some(value)
}

/// `B` or `W`.
fn read_colour(text: &[u8]) -> Option<Colour>
    ensures { result ≡ colour_of text.now }
{
    if text.len() != 1 {
        return None;
    }
    match text[0] {
        b'B' => Some(Colour::Black),
        b'W' => Some(Colour::White),
        _ => None,
    }
}

/// `pass`, or the two letters of a point of the board.
#[inline(always)]
pub(crate) fn read_vertex(size: Size, text: &[u8]) -> Option<Turn>
    ensures { option_map (ply_of size) result ≡ vertex_of size text.now }
{
    if is_word(b"pass", text) {
        return Some(Turn::Pass);
    }
    match sgf_point(size, text) {
        Some(point) => Some(Turn::At(point)),
        None => None,
    }
}

/// The place of the first byte that is this one.
#[inline(always)]
pub(crate) fn place_of_byte(text: &[u8], wanted: u8) -> Option<usize>
    ensures { result ≡ position (λ x. nat_eq x wanted) text.now }
{
    text.iter().position(|byte| *byte == wanted)
}

/// What is before and after the first space.
fn parts_at_space(text: &[u8]) -> Option<(&[u8], &[u8])>
    ensures { option_map (λ parts. (parts.0.now, parts.1.now)) result ≡ at_space text.now }
{
    let space = place_of_byte(text, b' ')?;
    Some((&text[..space], &text[space + 1..]))
}

/// A claim's first line after its word: the version, the size and the winner.
fn read_header(text: &[u8]) -> Option<Line>
    ensures { (n : ℕ) → option_map (line_value n) result ≡ header_tail text.now }
{
    if text.len() < 2 || text[1] != b' ' {
        return None;
    }
    match text[0] {
        b'1' => read_header_rest(Version::One, &text[2..]),
        b'2' => read_header_rest(Version::Two, &text[2..]),
        _ => None,
    }
}

/// A claim's first line after its version: the size and the winner.
fn read_header_rest(version: Version, text: &[u8]) -> Option<Line>
    ensures { (n : ℕ) → option_map (line_value n) result
        ≡ header_rest (version_number version) text.now }
{
    let (size, winner) = parts_at_space(text)?;
    let size = read_number(size)?;
    let winner = read_colour(winner)?;
    Some(Line::Header {
        version,
        size,
        winner,
    })
}

/// A short claim's first line. Like a claim of version 2, it may say which colourings must have occurred.
fn read_short_header(text: &[u8]) -> Option<Line>
    ensures { (n : ℕ) → option_map (line_value n) result
        ≡ behind (codes "tsushort 1 ") (header_rest 2) text.now }
{
    match behind_word(b"tsushort 1 ", text) {
        Some(rest) => read_header_rest(Version::Two, rest),
        None => None,
    }
}

/// A line of a claim that is not its first one.
fn without_header(line: Option<Line>) -> Option<Line>
    ensures { (n : ℕ) → option_map (line_value n) result
        ≡ no_header (option_map (line_value n) line) }
{
    match line {
        Some(Line::Header { .. }) => None,
        _ => line,
    }
}

/// The use of the theorem in a short claim.
fn read_alive(text: &[u8]) -> Option<Line>
    ensures { (n : ℕ) → option_map (line_value n) result
        ≡ at_end (use_line 0) (after_word (codes "alive") text.now) }
{
    if is_word(b"alive", text) {
        Some(Line::Use(0))
    } else {
        None
    }
}

/// A lemma's first line after its word: the mover, the passes and the root.
fn read_lemma(size: Size, text: &[u8]) -> Option<Line>
    ensures { option_map (line_value size) result ≡ lemma_tail size text.now }
{
    if text.len() < 4 || text[1] != b' ' || text[3] != b' ' {
        return None;
    }
    let mover = read_colour(&text[..1])?;
    let passes = match text[2] {
        b'0' => 0,
        b'1' => 1,
        _ => return None,
    };
    let root = read_cells(size, &text[4..])?;
    Some(Line::Lemma {
        mover,
        passes,
        root,
    })
}

impl Line {
    /// The line that these bytes, without a line feed, spell for a board of this size. `None` if they spell none.
    #[tactic(auto, using(crate::proofs::Bodies::body_or_other))]
    pub fn from_text(size: Size, text: &[u8]) -> Option<Line>
        ensures { option_map (line_value size) result ≡ line_of size text.now }
    {
        if let Some(line) = read_body_line(size, text) {
            return Some(line.line());
        }
        read_other_line(size, text)
    }

    /// The line that these bytes spell in a short claim. `None` if they spell none there.
    pub fn from_short_text(size: Size, text: &[u8]) -> Option<Line>
        ensures { option_map (line_value size) result ≡ short_line_of size text.now }
    {
        match read_short_header(text) {
            Some(line) => Some(line),
            None => read_behind_header(size, text),
        }
    }

    /// The line that these bytes spell in a claim of this kind.
    pub(crate) fn read(spelling: Spelling, size: Size, text: &[u8]) -> Option<Line>
        ensures { option_map (line_value size) result ≡ line_by spelling size text.now }
    {
        match spelling {
            Spelling::Ordinary => Line::from_text(size, text),
            Spelling::Short => Line::from_short_text(size, text),
        }
    }
}

/// A line of a short claim that is not its first one.
fn read_behind_header(size: Size, text: &[u8]) -> Option<Line>
    ensures { option_map (line_value size) result
        ≡ or_else (at_end (use_line 0) (after_word (codes "alive") text.now))
        (no_header (line_of size text.now)) }
{
    match read_alive(text) {
        Some(line) => Some(line),
        None => without_header(Line::from_text(size, text)),
    }
}

/// The line of no body that these bytes spell for a board of this size. `None` if they spell none.
fn read_other_line(size: Size, text: &[u8]) -> Option<Line>
    ensures { option_map (line_value size) result ≡ other_line_of size text.now }
{
    if let Some(rest) = behind_word(b"tsucert ", text) {
        return read_header(rest);
    }
    if let Some(rest) = behind_word(b"lemma ", text) {
        return read_lemma(size, rest);
    }
    if let Some(rest) = behind_word(b"had ", text) {
        return Some(Line::Had(read_cells(size, rest)?));
    }
    if let Some(rest) = behind_word(b"not ", text) {
        return Some(Line::Not(read_cells(size, rest)?));
    }
    if is_word(b"main", text) {
        return Some(Line::Main);
    }
    None
}
