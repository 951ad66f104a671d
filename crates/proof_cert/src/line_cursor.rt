//! The lines of a text, taken one by one and counted.

ghost use Rattle.std.specs.Prelude.{◌≡◌};
ghost use Rattle.proof_cert.specs.Stage.{line_value};
ghost use Rattle.proof_cert.specs.Private.Reading.{with_rest, left_of, line_read};

use crate::line::Line;
use crate::source::TextSource;

/// The lines that are left, and how many nodes and listed colourings the claim has had so far.
#[derive(Drop)]
pub(crate) struct LineCursor<'a> {
    pub(crate) source: TextSource<'a>,
    pub(crate) nodes: u32,
    pub(crate) listed: u32,
}

/// The next line.
#[tactic(auto, using(crate::proofs::ReadTrees::line_there, crate::proofs::ReadTrees::line_ended, crate::proofs::ReadTrees::line_bad))]
pub(crate) fn next_line(reading: &mut LineCursor<'_>) -> Option<Line>
    ensures read { with_rest (line_value reading.old.source.size) result
        (left_of reading.new.source reading.new.nodes reading.new.listed)
        ≡ line_read (left_of reading.old.source reading.old.nodes reading.old.listed) }
    ensures nodes { reading.new.nodes ≡ reading.old.nodes }
    ensures listed { reading.new.listed ≡ reading.old.listed }
    ensures size { reading.new.source.size ≡ reading.old.source.size }
{
    match reading.source.next() {
        Ok(Some(line)) => Some(line),
        Ok(None) => None,
        Err(_) => None,
    }
}
