//! What is fixed in a body of a claim: who wins there, the lemmas that it may use, and the results that it may make.

ghost use Rattle.std.specs.Prelude.{◌≡◌, Some, None, is_some, option_map};
ghost use Rattle.std.specs.List.{list_all};
ghost use Rattle.cert_check.specs.Private.Ascending.{Ascends};
ghost use Rattle.cert_check.specs.Body.{is_listed, lemma_at, same_state};
ghost use Rattle.cert_check.specs.Parts.{head_of};

use crate::listed::{all_stand_on, stands_on};
use go_points::{Colour, Colouring, ColouringList};
use std::marker::Model;
use target_game::PlayState;

/// What a lemma says before its tree.
#[derive(Drop)]
pub(crate) struct Head {
    mover: Colour,
    passes: u8,
    root: Colouring,
    had: Vec<Colouring>,
    absent: ColouringList,
}

impl Model for Head {
    ghost use Rattle.proof_cert.specs.Claim.{Head as SpecHead};
    ghost use Rattle.cert_check.specs.Parts.{head_of};

    ghost Value = { SpecHead };

    ghost view = { λ a. head_of a.mover a.passes a.root a.had.items a.absent };

    ghost use Rattle.cert_check.specs.Private.Ascending.{Ascends};

    ghost invariant = { λ a. Ascends a.absent };
}

impl Head {
    pub(crate) fn new(
        mover: Colour,
        passes: u8,
        root: Colouring,
        had: Vec<Colouring>,
        absent: ColouringList,
    ) -> Head
        requires { Ascends absent }
        ensures { result ≡ head_of mover passes root had.items absent }
    {
        Head {
            mover,
            passes,
            root,
            had,
            absent,
        }
    }

    /// Whether the lemma's root, mover and passes are those of the state.
    pub(crate) fn is_at(&self, state: &PlayState) -> bool
        ensures { result ≡ same_state self.now state.now.state }
    {
        self.root == state.colouring()
            && self.mover == state.mover()
            && u64::from(self.passes) == state.passes()
    }

    /// The colourings that must have occurred.
    pub(crate) fn had(&self) -> &[Colouring]
        ensures { result.now ≡ self.now.had }
    {
        self.had.as_slice()
    }

    /// The colourings that may not have occurred.
    pub(crate) fn absent(&self) -> &ColouringList
        ensures value { result.now ≡ self.now.absent }
        ensures ascends { Ascends result.now }
    {
        &self.absent
    }
}

/// What is fixed in a body. A lemma has a list of the results that its winner may make; main has none, and may make any.
#[derive(Drop)]
pub(crate) struct Body<'a> {
    winner: Colour,
    earlier: &'a [Head],
    listed: Option<&'a ColouringList>,
}

impl<'a> Model for Body<'a> {
    ghost use Rattle.std.specs.Prelude.{option_map};
    ghost use Rattle.cert_check.specs.Parts.{BodyParts};

    ghost Value = { BodyParts };

    ghost view = { λ a. record
        { winner = a.winner; earlier = a.earlier.now; listed = option_map (λ l. l.now) a.listed } };

    ghost use Rattle.std.specs.Prelude.{IfSome};
    ghost use Rattle.cert_check.specs.Private.Ascending.{Ascends};

    ghost invariant = { λ a. IfSome a.listed (λ l. Ascends l.now) };
}

impl<'a> Body<'a> {
    /// The body of a lemma with this list, after these lemmas.
    pub(crate) fn of_lemma(
        winner: Colour,
        earlier: &'a [Head],
        listed: &'a ColouringList,
    ) -> Body<'a>
        requires { Ascends listed.now }
        ensures { result
            ≡ record { winner = winner; earlier = earlier.now; listed = Some listed.now } }
    {
        Body {
            winner,
            earlier,
            listed: Some(listed),
        }
    }

    /// Main, after these lemmas.
    pub(crate) fn of_main(winner: Colour, lemmas: &'a [Head]) -> Body<'a>
        ensures { result ≡ record { winner = winner; earlier = lemmas.now; listed = None } }
    {
        Body {
            winner,
            earlier: lemmas,
            listed: None,
        }
    }

    pub(crate) fn winner(&self) -> Colour
        ensures { result ≡ self.now.winner }
    {
        self.winner
    }

    /// The lemma with this number, counted from 1.
    pub(crate) fn lemma(&self, number: u32) -> Option<&'a Head>
        ensures { option_map (λ h. h.now) result ≡ lemma_at self.now.earlier number }
    {
        if number == 0 {
            return None;
        }
        self.earlier.get(number as usize - 1)
    }

    /// Whether the body has a list of the results that it may make.
    pub(crate) fn has_list(&self) -> bool
        ensures { result ≡ is_some self.now.listed }
    {
        self.listed.is_some()
    }

    /// Whether the body may make the colouring.
    pub(crate) fn lists(&self, colouring: &Colouring) -> bool
        ensures { result ≡ is_listed self.now.listed colouring.now }
    {
        match self.listed {
            Some(list) => stands_on(colouring, list),
            None => true,
        }
    }

    /// Whether the body may make each of the colourings, which ascend.
    pub(crate) fn lists_all(&self, colourings: &ColouringList) -> bool
        requires { Ascends colourings.now }
        ensures { result ≡ list_all (is_listed self.now.listed) colourings.now }
    {
        match self.listed {
            Some(list) => all_stand_on(colourings, list),
            None => true,
        }
    }
}
