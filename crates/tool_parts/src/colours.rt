//! The names of colours, as all programs write them.

ghost use Rattle.std.specs.Prelude.{◌≡◌, IfOk, string_bytes};
ghost use Rattle.tool_parts.specs.Says.{colour_text, letter_text, winner_text};

use go_points::Colour;
use std::alloc::{AllocError, Global};

/// The name of a colour in a sentence.
pub fn colour_name(colour: Colour) -> &'static str
    ensures { result.now ≡ colour_text colour }
{
    match colour {
        Colour::Black => "Black",
        Colour::White => "White",
    }
}

/// The letter of a colour.
pub fn colour_letter(colour: Colour) -> &'static str
    ensures { result.now ≡ letter_text colour }
{
    match colour {
        Colour::Black => "B",
        Colour::White => "W",
    }
}

/// Who wins, as `Black wins`.
pub fn winner_said(alloc: Global, winner: Colour) -> Result<String, AllocError>
    ensures { IfOk result (λ text. string_bytes text ≡ winner_text winner) }
{
    let side = colour_name(winner);
    format!(in alloc; "{side} wins")
}
