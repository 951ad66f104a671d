//! The two sides of a question, and how far an answer is to be trusted.

ghost use Rattle.std.specs.Prelude.{◌≡◌};
ghost use Rattle.group_words.specs.Sides.{colour_of, same_side, is_won_by, rank, says, nothing, finding_of, word_text};
ghost use Rattle.group_words.specs.declared.side.Word.TheVariants.{Sure};

use go_points::Colour;

/// The side that wants to take the target, and the side that wants to keep it.
#[derive(Clone, Copy, Debug, PartialEq, Eq)]
pub enum Side {
    Attacker,
    Defender,
}

impl Side {
    /// The colour of the side, if this is the defender's.
    pub fn colour(self, defender: Colour) -> Colour
        ensures { result ≡ colour_of self defender }
    {
        match self {
            Side::Attacker => defender.opponent(),
            Side::Defender => defender,
        }
    }

    /// The side of this colour, if the second is the defender's.
    pub fn of(colour: Colour, defender: Colour) -> Side
        ensures { colour_of result defender ≡ colour }
    {
        match (colour, defender) {
            (Colour::Black, Colour::Black) => Side::Defender,
            (Colour::Black, Colour::White) => Side::Attacker,
            (Colour::White, Colour::Black) => Side::Attacker,
            (Colour::White, Colour::White) => Side::Defender,
        }
    }

    /// Whether they are the same side.
    pub fn is(self, other: Side) -> bool
        ensures { result ≡ same_side self other }
    {
        match (self, other) {
            (Side::Attacker, Side::Attacker) => true,
            (Side::Attacker, Side::Defender) => false,
            (Side::Defender, Side::Attacker) => false,
            (Side::Defender, Side::Defender) => true,
        }
    }
}

/// Whether the winner is this side.
pub fn is_won_by(side: Side, winner: Option<Side>) -> bool
    ensures { result ≡ is_won_by side winner }
{
    match winner {
        Some(other) => side.is(other),
        None => false,
    }
}

/// How far an answer is to be trusted, the most first.
#[derive(Clone, Copy, Debug, PartialEq, Eq)]
pub enum Word {
    Sure,
    Likely,
    Hint,
    Leaning,
    Unknown,
}

impl Word {
    /// The place of the word in this order, from 0.
    pub fn rank(self) -> u32
        ensures { result ≡ rank self }
    {
        match self {
            Word::Sure => 0,
            Word::Likely => 1,
            Word::Hint => 2,
            Word::Leaning => 3,
            Word::Unknown => 4,
        }
    }

    /// The word as it is written.
    pub fn name(self) -> &'static str
        ensures { result.now ≡ word_text self }
    {
        match self {
            Word::Sure => "sure",
            Word::Likely => "likely",
            Word::Hint => "hint",
            Word::Leaning => "leaning",
            Word::Unknown => "unknown",
        }
    }
}

/// What is found if one side moves first: who wins, and how far that is to be trusted.
#[derive(Clone, Copy, Debug, PartialEq, Eq)]
pub struct Finding {
    pub winner: Option<Side>,
    pub word: Word,
    /// The least size from which on that winner wins, by the second procedure; 0 if there is none.
    pub since: usize,
    /// The largest size that was decided there; more than any size if everything that can be reached was in the region.
    pub largest: usize,
    /// Whether both procedures decide, but for different winners.
    pub is_split: bool,
}

impl Finding {
    /// Nothing is found.
    pub fn none() -> Finding
        ensures { result ≡ nothing }
    {
        Finding {
            winner: None,
            word: Word::Unknown,
            since: 0,
            largest: 0,
            is_split: false,
        }
    }

    /// The finding of this winner, by only one procedure.
    pub fn of(winner: Side, word: Word) -> Finding
        ensures { result ≡ finding_of winner word }
    {
        Finding {
            winner: Some(winner),
            word,
            since: 0,
            largest: 0,
            is_split: false,
        }
    }

    /// Whether this side wins, at least as surely as the word says.
    pub fn says(&self, winner: Side, word: Word) -> bool
        ensures { result ≡ says self.now winner word }
    {
        is_won_by(winner, self.winner) && self.word.rank() <= word.rank()
    }

    /// Whether this side surely wins.
    pub fn is_sure_of(&self, winner: Side) -> bool
        ensures { result ≡ says self.now winner Sure }
    {
        self.says(winner, Word::Sure)
    }
}
