//! Reading the white space before a claim.

ghost use Rattle.std.specs.Prelude.{IfOk};
ghost use Rattle.tsumego_replies.specs.Replies.{IsPastWhite};

use sgf_text::token::is_white;
use std::io::Read;

/// A read failed.
#[derive(Clone, Copy, Debug)]
pub struct ReadFailed;

/// What comes after white space.
#[derive(Clone, Copy, Debug, PartialEq, Eq)]
pub enum White {
    /// This byte, which is not white space.
    Before(u8),
    /// Nothing: the reader has ended.
    End,
    /// There is more white space than is allowed.
    TooMuch,
}

/// The first byte that is not white space, after fewer than `room` bytes that are. The input is read byte by byte.
pub fn read_past_white<R: Read>(reader: &mut R, room: usize) -> Result<White, ReadFailed>
    ensures { IfOk result
        (λ o. IsPastWhite room (R.remaining reader.old) (R.remaining reader.new) o) }
{
    let mut byte = [0u8; 1];
    for _ in 0..room {
        match reader.read(&mut byte) {
            Ok(0) => return Ok(White::End),
            Ok(_) => {
                if !is_white(byte[0]) {
                    return Ok(White::Before(byte[0]));
                }
            }
            Err(_) => return Err(ReadFailed),
        }
    }
    Ok(White::TooMuch)
}
