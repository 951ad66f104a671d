//! Answer trees.

ghost use Rattle.std.specs.Prelude.{◌≡◌, ◌+◌, ◌≤◌, ◌^◌, ℕ, IfSome, IfNone};
ghost use Rattle.target_game.specs.Answers.{answer_size, reply_sizes};
ghost use Rattle.solution_tree.specs.Answer.{answer_of, replies_of};

use go_points::Turn;

/// An answer tree: the turns of the side that wins, and a reply to each legal turn of the other side.
#[derive(Debug)]
pub enum Answer {
    /// The side has won.
    Won,

    /// The side's turn, with the tree below it.
    Turn(Turn, Box<Answer>),

    /// The other side's turns, each with the tree below it.
    Replies(Vec<(Turn, Answer)>),
}

// A derived drop would call itself once for each turn of a line. This one follows the last replies in a loop.
impl Drop for Answer {
    fn drop(mut self) {
        loop {
            match self {
                Answer::Won => return,
                Answer::Turn(_, below) => self = Box::into_inner(below),
                Answer::Replies(mut replies) => match replies.pop() {
                    None => return,
                    Some((_, last)) => self = last,
                },
            }
        }
    }
}

impl Answer {
    /// The number of its turns, which does not depend on the board. `None` if it is more than a `usize` can hold.
    pub fn size(&self) -> Option<usize>
        ensures some { IfSome result (λ size. (n : ℕ) → answer_size (answer_of n self.now) ≡ size) }
        ensures none { IfNone result ((n : ℕ) → 2 ^ 64 ≤ answer_size (answer_of n self.now)) }
    {
        size_with(self, 0)
    }
}

/// The turns of the answer, added to `before`. It follows the last replies in a loop.
#[cycle(size)]
fn size_with(answer: &Answer, before: usize) -> Option<usize>
    ensures some { IfSome result (λ size. (n : ℕ)
        → before + answer_size (answer_of n answer.now) ≡ size) }
    ensures none { IfNone result ((n : ℕ)
        → 2 ^ 64 ≤ before + answer_size (answer_of n answer.now)) }
{
    let mut part = answer;
    let mut count = before;
    loop {
        match part {
            Answer::Won => return Some(count),
            Answer::Turn(_, below) => {
                count = count.checked_add(1)?;
                part = below;
            }
            Answer::Replies(replies) => {
                let Some((last, others)) = replies.split_last() else {
                    return Some(count);
                };
                count = sizes_with(others, count)?.checked_add(1)?;
                part = &last.1;
            }
        }
    }
}

/// The turns of these replies and those below them, added to `before`.
#[cycle(size)]
fn sizes_with(replies: &[(Turn, Answer)], before: usize) -> Option<usize>
    ensures some { IfSome result (λ size. (n : ℕ)
        → before + reply_sizes (replies_of n replies.now) ≡ size) }
    ensures none { IfNone result ((n : ℕ)
        → 2 ^ 64 ≤ before + reply_sizes (replies_of n replies.now)) }
{
    let mut count = before;
    for reply in replies {
        count = size_with(&reply.1, count.checked_add(1)?)?;
    }
    Some(count)
}
