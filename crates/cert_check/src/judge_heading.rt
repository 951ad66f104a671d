//! The judge's calls for the lines before a tree: a claim's first, `lemma`, `main`, and the two lists of a lemma.

ghost use Rattle.std.specs.Prelude.{◌≡◌, ◌≤◌, ◌*◌, length, None, Some, IsTrue, IfErr, OnOk};
ghost use Rattle.go_points.specs.Grid.{side_of};
ghost use Rattle.proof_cert.specs.Lines.{line_fits as fits_board, lemma_line, main_line};
ghost use Rattle.proof_cert.specs.Stage.{line_value};
ghost use Rattle.cert_check.specs.Private.Judging.{AwaitsHad, AwaitsHeader, AwaitsList, IsBetweenBodies, had_here, had_more, heading_of, lemma_of, list_here, listed_more, machine_of, Takes};
ghost use Rattle.cert_check.specs.Verdict.{header_taken, last_of, listed_taken, listing_had, listing_not, opening_taken};
ghost use Rattle.cert_check.specs.declared.judge.Phase.TheVariants as phases;
ghost use Rattle.cert_check.specs.declared.reject.Why.TheVariants.{Memory};

use crate::body_state::BodyState;
use crate::judge::{Judge, Phase, Within};
use crate::lines::{Opening, had_of, header_of, is_after, listed_of, opening_of};
use crate::open_nodes::Due;
use crate::reject::Why;
use go_points::{Colour, Colouring};
use proof_cert::{Line, MAX_LEMMAS, MAX_LISTED, Version};
use target_game::AtFault;

impl<'p> Judge<'p> {
    /// The first line.
    pub(crate) fn header(&mut self, line: &Line) -> Result<(), Why>
        requires ready { AwaitsHeader self.old }
        ensures { Takes self.old self.new
            (header_taken self.old.problem.now (machine_of self.old)
            (line_value self.old.problem.now.game.size line.now)) result }
    {
        let Some(header) = header_of(line) else {
            return Err(Why::Malformed);
        };
        if header.size != u32::from(self.problem.size().rows()) {
            return Err(Why::SizeDiffers);
        }
        self.version = header.version;
        self.winner = header.winner;
        self.phase = Phase::Opening;
        Ok(())
    }

    /// A line before a body, which fits the board.
    pub(crate) fn opening(&mut self, line: &Line) -> Result<(), Why>
        requires between { IsBetweenBodies self.old }
        requires fits { IsTrue
            (fits_board self.old.problem.now.game.size
            (line_value self.old.problem.now.game.size line.now)) }
        ensures { Takes self.old self.new
            (opening_taken self.old.problem.now (machine_of self.old) (heading_of self.old)
            (line_value self.old.problem.now.game.size line.now)) result }
    {
        let Some(opening) = opening_of(line) else {
            return Err(Why::Malformed);
        };
        match opening {
            Opening::Lemma {
                mover,
                passes,
                root,
            } => self.lemma(mover, passes, root),
            Opening::Main => self.main(),
        }
    }

    /// A lemma's first line.
    fn lemma(&mut self, mover: Colour, passes: u8, root: Colouring) -> Result<(), Why>
        requires size { side_of root ≡ self.old.problem.now.game.size }
        requires few { passes ≤ 1 }
        requires between { IsBetweenBodies self.old }
        ensures { Takes self.old self.new
            (opening_taken self.old.problem.now (machine_of self.old) (heading_of self.old)
            (lemma_line mover passes root)) result }
    {
        if self.heads.len() >= MAX_LEMMAS {
            return Err(Why::Limit);
        }
        match self
            .state
            .begin(self.alloc, &root, mover, u64::from(passes))
        {
            Ok(()) => {}
            Err(AtFault::NoLiberty { .. }) => return Err(Why::RootWithoutLiberty),
            Err(AtFault::Memory) => return Err(Why::Memory),
        }
        self.open_nodes.clear();
        self.mover = mover;
        self.passes = passes;
        self.root = root;
        match self.version {
            Version::One => {
                self.phase = Phase::Listing;
                Ok(())
            }
            Version::Two => {
                self.phase = Phase::ListingHad;
                Ok(())
            }
        }
    }

    /// The line `main`.
    fn main(&mut self) -> Result<(), Why>
        requires between { IsBetweenBodies self.old }
        ensures { Takes self.old self.new
            (opening_taken self.old.problem.now (machine_of self.old) (heading_of self.old)
            main_line) result }
    {
        let Ok(state) = BodyState::of(self.alloc, self.problem) else {
            return Err(Why::Memory);
        };
        self.state = state;
        self.open_nodes.clear();
        self.phase = Phase::Body {
            within: Within::Main,
            due: Due::Node,
        };
        Ok(())
    }

    /// A line after a lemma's first one, or among the colourings that must have occurred.
    pub(crate) fn listing_had(&mut self, line: &Line, alive: bool) -> Result<(), Why>
        requires ready { AwaitsHad self.old }
        requires phase { self.old.phase ≡ phases.ListingHad }
        requires fits { IsTrue
            (fits_board self.old.problem.now.game.size
            (line_value self.old.problem.now.game.size line.now)) }
        ensures { Takes self.old self.new
            (had_here alive self.old (line_value self.old.problem.now.game.size line.now)) result }
    {
        if let Some(colouring) = had_of(line) {
            return self.had(colouring);
        }
        match self.remember() {
            Ok(()) => self.listing(line, alive),
            Err(why) => Err(why),
        }
    }

    /// A colouring that must have occurred.
    fn had(&mut self, colouring: Colouring) -> Result<(), Why>
        requires ready { AwaitsHad self.old }
        requires phase { self.old.phase ≡ phases.ListingHad }
        requires fits { length colouring
            ≡ self.old.problem.now.game.size * self.old.problem.now.game.size }
        ensures { Takes self.old self.new
            (listed_taken (machine_of self.old) (last_of self.old.had.items) colouring
            (listing_had (heading_of self.old) (had_more (lemma_of self.old) colouring))) result }
    {
        if self.listed_count >= MAX_LISTED {
            return Err(Why::Limit);
        }
        if !is_after(self.had.last().copied(), &colouring) {
            return Err(Why::ListOrder);
        }
        if self.had.push(colouring).is_err() {
            return Err(Why::Memory);
        }
        self.listed_count += 1;
        Ok(())
    }

    /// Called after the colourings that must have occurred: the body begins at the state where they have. If there are none, it is
    /// already there.
    fn remember(&mut self) -> Result<(), Why>
        requires { AwaitsHad self.old }
        ensures rest { self.new
            ≡ record self.old { state = self.new.state; phase = self.new.phase } }
        ensures phase { OnOk result (self.new.phase ≡ phases.Listing) }
        ensures ready { OnOk result (AwaitsList self.new) }
        ensures err { IfErr result (λ why. why ≡ Memory) }
    {
        if !self.had.is_empty() {
            let made = BodyState::at_with(
                self.alloc,
                self.problem,
                &self.root,
                self.had.as_slice(),
                self.mover,
                u64::from(self.passes),
            );
            let Ok(remembering) = made else {
                return Err(Why::Memory);
            };
            self.state = remembering;
        }
        self.phase = Phase::Listing;
        Ok(())
    }

    /// A line after the colourings that must have occurred.
    pub(crate) fn listing(&mut self, line: &Line, alive: bool) -> Result<(), Why>
        requires ready { AwaitsList self.old }
        requires phase { self.old.phase ≡ phases.Listing }
        requires fits { IsTrue
            (fits_board self.old.problem.now.game.size
            (line_value self.old.problem.now.game.size line.now)) }
        ensures { Takes self.old self.new
            (list_here alive self.old (line_value self.old.problem.now.game.size line.now)) result }
    {
        match listed_of(line) {
            Some(colouring) => self.listed(colouring),
            None => self.node(Within::Lemma, line, alive),
        }
    }

    /// A colouring that must not have occurred.
    fn listed(&mut self, colouring: Colouring) -> Result<(), Why>
        requires ready { AwaitsList self.old }
        requires phase { self.old.phase ≡ phases.Listing }
        requires fits { length colouring
            ≡ self.old.problem.now.game.size * self.old.problem.now.game.size }
        ensures { Takes self.old self.new
            (listed_taken (machine_of self.old) (last_of self.old.list) colouring
            (listing_not (heading_of self.old) (listed_more (lemma_of self.old) colouring))) result }
    {
        if self.listed_count >= MAX_LISTED {
            return Err(Why::Limit);
        }
        if !is_after(self.list.last(), &colouring) {
            return Err(Why::ListOrder);
        }
        if self.list.push(&colouring).is_err() {
            return Err(Why::Memory);
        }
        self.listed_count += 1;
        Ok(())
    }
}
