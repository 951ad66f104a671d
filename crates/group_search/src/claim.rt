//! The text of an area in which stones are kept.

use crate::keeping::Kept;
use crate::text::{push_cells, push_line_end, push_number, push_state, push_text, push_turn};
use go_points::Colour;
use safety_search::{Board, Listed, NumberSet};
use std::alloc::{AllocError, Global};

/// The two parts of the text of areas: what stands at the head of a claim, and what comes after all heads.
#[derive(Drop)]
pub(crate) struct AreaText {
    pub(crate) head: Vec<u8>,
    pub(crate) body: Vec<u8>,
}

impl AreaText {
    pub(crate) fn none(alloc: Global) -> AreaText {
        AreaText {
            head: Vec::new(alloc),
            body: Vec::new(alloc),
        }
    }

    /// Adds an area of chains that live by their shape.
    pub(crate) fn add_shape(
        &mut self,
        board: &Board,
        chains: &NumberSet,
        region: &NumberSet,
    ) -> Result<(), AllocError> {
        self.add_head(board, chains, region)?;
        push_text(&mut self.body, "body\nrest\nend\n")
    }

    fn add_head(
        &mut self,
        board: &Board,
        chains: &NumberSet,
        region: &NumberSet,
    ) -> Result<(), AllocError> {
        push_text(&mut self.head, "area ")?;
        let stones = board.stones_of_chains(chains);
        push_cells(&mut self.head, board, &stones, region)?;
        push_line_end(&mut self.head)
    }

    /// Adds the area of a proof.
    pub(crate) fn add_kept(&mut self, board: &Board, kept: &Kept) -> Result<(), AllocError> {
        let question = &kept.question;
        let chains = question.kept.or(&kept.friends(board));
        self.add_head(board, &chains, &question.region)?;
        let giving = board.stones_of_chains(&question.giving);
        if !giving.is_empty() {
            push_text(&mut self.head, "gives ")?;
            push_cells(&mut self.head, board, &giving, &NumberSet::empty())?;
            push_line_end(&mut self.head)?;
        }
        self.add_body(board, kept)
    }

    fn add_body(&mut self, board: &Board, kept: &Kept) -> Result<(), AllocError> {
        push_text(&mut self.body, "body\n")?;
        let colour = kept.question.colour;
        self.add_states(kept, colour)?;
        for listed in kept.proof.states().iter() {
            self.add_lines(board, kept, listed)?;
        }
        push_text(&mut self.body, "end\n")
    }

    /// Adds the states but the first, which the head shows.
    fn add_states(&mut self, kept: &Kept, colour: Colour) -> Result<(), AllocError> {
        let none = NumberSet::empty();
        for at in 1..kept.proof.states().len() {
            if let Some(listed) = kept.proof.states().get(at).copied() {
                push_text(&mut self.body, "state ")?;
                push_state(
                    &mut self.body,
                    colour,
                    kept.search.game(),
                    &none,
                    listed.state,
                )?;
                push_line_end(&mut self.body)?;
            }
        }
        Ok(())
    }

    /// Adds what a state says: that it is at rest, or its lines.
    fn add_lines(&mut self, board: &Board, kept: &Kept, listed: &Listed) -> Result<(), AllocError> {
        if listed.is_at_rest {
            return push_text(&mut self.body, "rest\n");
        }
        push_text(&mut self.body, "all ")?;
        push_number(&mut self.body, listed.end.saturating_sub(listed.first))?;
        push_line_end(&mut self.body)?;
        for at in listed.first..listed.end {
            self.add_line(board, kept, at)?;
        }
        Ok(())
    }

    fn add_line(&mut self, board: &Board, kept: &Kept, at: usize) -> Result<(), AllocError> {
        let Some(line) = kept.proof.line(at) else {
            return Ok(());
        };
        let game = kept.search.game();
        push_text(&mut self.body, "reply ")?;
        push_turn(&mut self.body, board, game.point(line.place))?;
        push_text(&mut self.body, " ")?;
        let answer = match line.answer {
            Some(place) => game.point(place),
            None => None,
        };
        push_turn(&mut self.body, board, answer)?;
        push_text(&mut self.body, " ")?;
        push_number(&mut self.body, line.next.saturating_add(1))?;
        push_line_end(&mut self.body)
    }
}
