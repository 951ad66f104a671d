//! The judge's calls for the lines of a tree: nodes, replies and `end`.

ghost use Rattle.std.specs.Prelude.{◌≡◌, ◌<◌, nat_lt, nat_le, ◌&&◌, ◌+◌, length, Some, IsTrue};
ghost use Rattle.proof_cert.specs.Claim.{max_nodes, max_depth};
ghost use Rattle.proof_cert.specs.Lines.{use_line};
ghost use Rattle.proof_cert.specs.Stage.{line_value};
ghost use Rattle.cert_check.specs.Private.Ascending.{Ascends};
ghost use Rattle.cert_check.specs.Body.{lives};
ghost use Rattle.cert_check.specs.Private.Judging.{AwaitsNode, ChangesBody, answering, heading_of, machine_of, node_here, reply_here, within_of, Takes, TakesNodeIn};
ghost use Rattle.cert_check.specs.Verdict.{body_of, end_taken};
ghost use Rattle.cert_check.specs.Parts.{node_value};
ghost use Rattle.cert_check.specs.declared.judge.Within.{Within as SpecWithin};
ghost use Rattle.cert_check.specs.declared.judge.Within.TheVariants.{Lemma, Main};
ghost use Rattle.cert_check.specs.declared.open_nodes.Due.TheVariants.{Node, Reply};
ghost use Rattle.cert_check.specs.declared.reject.Why.TheVariants.{Memory};

use crate::body::{Body, Head};
use crate::judge::{Judge, Phase, Within};
use crate::lemma_set::LemmaSet;
use crate::lines::{NodeLine, is_end, node_of, reply_of, rests_on_shape};
use crate::open_nodes::{Due, MOST_OPEN, take_node, unwind};
use crate::reject::Why;
use go_points::{ColouringList, Turn};
use proof_cert::{Line, MAX_NODES};
use std::mem;
use target_game::TurnsLeft;

impl<'p> Judge<'p> {
    /// The line of a node.
    pub(crate) fn node(&mut self, within: Within, line: &Line, alive: bool) -> Result<(), Why>
        requires ready { AwaitsNode self.old Node }
        ensures { Takes self.old self.new
            (node_here alive self.old within
            (line_value self.old.problem.now.game.size line.now)) result }
    {
        let Some(node) = node_of(line) else {
            return Err(Why::Malformed);
        };
        if !self.has_room() {
            return Err(Why::Limit);
        }
        match self.node_within(within, node, alive) {
            Ok(due) => {
                self.node_count += 1;
                self.phase = Phase::Body { within, due };
                Ok(())
            }
            Err(why) => Err(why),
        }
    }

    /// A node, and what is due after it.
    fn node_within(&mut self, within: Within, node: NodeLine, alive: bool) -> Result<Due, Why>
        requires ready { AwaitsNode self.old Node }
        requires room { length self.old.open_nodes.items < 2000 }
        ensures rest { ChangesBody self.old self.new }
        ensures taken { TakesNodeIn self.old within (answering alive)
            (node_value self.old.state.state.game.size node) self.new result }
    {
        if rests_on_shape(&node) {
            return self.by_shape(alive);
        }
        let heads = self.heads.as_slice();
        match within {
            Within::Lemma => take_node(
                &Body::of_lemma(self.winner, heads, &self.list),
                &mut self.state,
                &mut self.open_nodes,
                &mut self.passed,
                node,
            ),
            // Main has no list that would have to contain another, so nothing is remembered here.
            Within::Main => take_node(
                &Body::of_main(self.winner, heads),
                &mut self.state,
                &mut self.open_nodes,
                &mut LemmaSet::new(self.alloc),
                node,
            ),
        }
    }

    /// A node that rests on the shape of the targets, if it may.
    fn by_shape(&mut self, alive: bool) -> Result<Due, Why>
        requires ready { AwaitsNode self.old Node }
        requires room { length self.old.open_nodes.items < 2000 }
        ensures rest { ChangesBody self.old self.new }
        ensures taken { (within : SpecWithin) → TakesNodeIn self.old within (answering alive)
            (use_line 0) self.new result }
    {
        if !self.may_rest(alive) {
            return Err(Why::LemmaNotLower);
        }
        Ok(unwind(&mut self.state, &mut self.open_nodes))
    }

    /// Whether a short claim may end at the present state. `alive` says whether the targets live by their shape there.
    fn may_rest(&self, alive: bool) -> bool
        requires { self.now.state.state.game ≡ self.now.problem.now.game }
        ensures { (within : SpecWithin) → result
            ≡ lives (body_of (answering alive) (heading_of self.now)
            (within_of self.now within)) self.now.state.state }
    {
        let state = self.state.play();
        state.over().is_none()
            && state.passes() < 2
            && self.problem.defender() == self.winner
            && alive
    }

    /// Whether one more node may be counted, at the depth of the next one.
    fn has_room(&self) -> bool
        ensures value { result
            ≡ (nat_lt self.now.node_count max_nodes && nat_le (length self.now.open_nodes.items + 1)
            max_depth) }
        ensures few { IsTrue result → self.now.node_count < 10000000 }
        ensures shallow { IsTrue result → length self.now.open_nodes.items < 2000 }
    {
        self.node_count < MAX_NODES && self.open_nodes.len() < MOST_OPEN
    }

    /// The line of a reply, if this reply is due.
    pub(crate) fn reply(
        &mut self,
        within: Within,
        due: Turn,
        left: TurnsLeft,
        line: &Line,
    ) -> Result<(), Why>
        requires ready { AwaitsNode self.old (Reply due left) }
        ensures { Takes self.old self.new
            (reply_here self.old within due left
            (line_value self.old.problem.now.game.size line.now)) result }
    {
        let Some(turn) = reply_of(line) else {
            return Err(Why::Malformed);
        };
        if turn != due {
            return Err(Why::RepliesDiffer { due });
        }
        self.open_nodes.push(left);
        match self.state.after(turn) {
            Ok(()) => {
                self.phase = Phase::Body {
                    within,
                    due: Due::Node,
                };
                Ok(())
            }
            Err(_) => Err(Why::Memory),
        }
    }

    /// The line `end` of a body whose nodes have all been judged.
    pub(crate) fn close(&mut self, within: Within, line: &Line) -> Result<(), Why>
        requires ascends { Ascends self.old.list }
        requires game { self.old.state.state.game ≡ self.old.problem.now.game }
        ensures { Takes self.old self.new
            (end_taken (machine_of self.old) (heading_of self.old) (within_of self.old within)
            (line_value self.old.problem.now.game.size line.now)) result }
    {
        if !is_end(line) {
            return Err(Why::Malformed);
        }
        match within {
            Within::Lemma => {
                let had = mem::replace(&mut self.had, Vec::new(self.alloc));
                let list = mem::replace(&mut self.list, ColouringList::new(self.alloc));
                self.passed.clear();
                let head = Head::new(self.mover, self.passes, self.root, had, list);
                if self.heads.push(head).is_err() {
                    return Err(Why::Memory);
                }
                self.phase = Phase::Opening;
                Ok(())
            }
            Within::Main => {
                self.phase = Phase::Done;
                Ok(())
            }
        }
    }
}
