//! Trees, read from lines.

ghost use Rattle.std.specs.Prelude.{◌≡◌, ◌≤◌, IfOk, IfSome};
ghost use Rattle.proof_cert.specs.Claim.{max_nodes};
ghost use Rattle.proof_cert.specs.Stage.{line_value};
ghost use Rattle.proof_cert.specs.Certificate.{node_of, replies_of};
ghost use Rattle.proof_cert.specs.Private.Reading.{with_rest, left_of, reply_read, replies_read, below_read, tree_read, reply_value, CountsTree, CountsReplies};

use crate::certificate::Node;
use crate::limits::MAX_NODES;
use crate::line::Line;
use crate::line_cursor::{LineCursor, next_line};
use go_points::Turn;
use std::alloc::{AllocError, Global};

/// The tree of at most this many levels that has this first line.
#[cycle(read)]
#[tactic(auto, using(crate::proofs::Certificates::node_of_won, crate::proofs::Certificates::node_of_use, crate::proofs::Certificates::node_of_play, crate::proofs::Certificates::node_of_all, crate::proofs::ReadTrees::tree_opened))]
pub(crate) fn read_tree(
    alloc: Global,
    reading: &mut LineCursor<'_>,
    first: &Line,
    room: u32,
) -> Result<Option<Node>, AllocError>
    ensures read { IfOk result
        (λ read. with_rest (node_of reading.old.source.size) read
        (left_of reading.new.source reading.new.nodes reading.new.listed)
        ≡ tree_read room (line_value reading.old.source.size first.now)
        (left_of reading.old.source reading.old.nodes reading.old.listed)) }
    ensures counted { IfOk result
        (λ read. IfSome read (λ tree. CountsTree room reading.old.nodes reading.old.listed
        (node_of reading.old.source.size tree) reading.new.nodes reading.new.listed)) }
    ensures size { reading.new.source.size ≡ reading.old.source.size }
{
    if room == 0 || reading.nodes >= MAX_NODES {
        return Ok(None);
    }
    reading.nodes += 1;
    match first {
        Line::Won => Ok(Some(Node::Won)),
        Line::Use(lemma) => Ok(Some(Node::Use(*lemma))),
        Line::Play(turn) => {
            let Some(below) = read_below(alloc, reading, room - 1)? else {
                return Ok(None);
            };
            Ok(Some(Node::Play(*turn, Box::new(alloc, below)?)))
        }
        Line::All(count) => {
            let Some(replies) = read_replies(alloc, reading, *count, room - 1)? else {
                return Ok(None);
            };
            Ok(Some(Node::All(replies)))
        }
        _ => Ok(None),
    }
}

/// The tree below a turn.
#[cycle(read)]
fn read_below(
    alloc: Global,
    reading: &mut LineCursor<'_>,
    room: u32,
) -> Result<Option<Node>, AllocError>
    ensures read { IfOk result
        (λ read. with_rest (node_of reading.old.source.size) read
        (left_of reading.new.source reading.new.nodes reading.new.listed)
        ≡ below_read (tree_read room)
        (left_of reading.old.source reading.old.nodes reading.old.listed)) }
    ensures counted { IfOk result
        (λ read. IfSome read (λ tree. CountsTree room reading.old.nodes reading.old.listed
        (node_of reading.old.source.size tree) reading.new.nodes reading.new.listed)) }
    ensures size { reading.new.source.size ≡ reading.old.source.size }
{
    let Some(first) = next_line(reading) else {
        return Ok(None);
    };
    read_tree(alloc, reading, &first, room)
}

/// This many replies.
#[cycle(read)]
fn read_replies(
    alloc: Global,
    reading: &mut LineCursor<'_>,
    count: u32,
    room: u32,
) -> Result<Option<Vec<(Turn, Node)>>, AllocError>
    requires { reading.old.nodes ≤ max_nodes }
    ensures read { IfOk result
        (λ read. with_rest (λ replies. replies_of reading.old.source.size replies.items) read
        (left_of reading.new.source reading.new.nodes reading.new.listed)
        ≡ replies_read (below_read (tree_read room)) count
        (left_of reading.old.source reading.old.nodes reading.old.listed)) }
    ensures counted { IfOk result
        (λ read. IfSome read (λ replies. CountsReplies room reading.old.nodes reading.old.listed
        (replies_of reading.old.source.size replies.items) reading.new.nodes
        reading.new.listed)) }
    ensures size { reading.new.source.size ≡ reading.old.source.size }
{
    let mut replies = Vec::new(alloc);
    for _ in 0..count {
        let Some(reply) = read_reply(alloc, reading, room)? else {
            return Ok(None);
        };
        replies.push(reply)?;
    }
    Ok(Some(replies))
}

/// A reply, and the tree below it.
#[cycle(read)]
#[tactic(auto, unfolding(crate::specs::Private::Reading::line_as))]
fn read_reply(
    alloc: Global,
    reading: &mut LineCursor<'_>,
    room: u32,
) -> Result<Option<(Turn, Node)>, AllocError>
    ensures read { IfOk result
        (λ read. with_rest (reply_value reading.old.source.size) read
        (left_of reading.new.source reading.new.nodes reading.new.listed)
        ≡ reply_read (below_read (tree_read room))
        (left_of reading.old.source reading.old.nodes reading.old.listed)) }
    ensures counted { IfOk result
        (λ read. IfSome read (λ reply. CountsTree room reading.old.nodes reading.old.listed
        (node_of reading.old.source.size reply.1) reading.new.nodes reading.new.listed)) }
    ensures size { reading.new.source.size ≡ reading.old.source.size }
{
    let Some(Line::Reply(turn)) = next_line(reading) else {
        return Ok(None);
    };
    let Some(below) = read_below(alloc, reading, room)? else {
        return Ok(None);
    };
    Ok(Some((turn, below)))
}
