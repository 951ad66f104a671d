//! The rule: what the findings of both procedures say together, and what those for both first moves say about the group.

ghost use Rattle.std.specs.Prelude.{◌≡◌, Some};
ghost use Rattle.group_words.specs.Rule.{both_words, word_together, are_split, winner_together, together, weakened, fate_at, fate_of, fate_text, IsByRule};

use crate::side::{Finding, Side, Word, is_won_by};

/// What becomes of a group.
#[derive(Clone, Copy, Debug, PartialEq, Eq)]
pub enum Fate {
    /// It lives, whoever moves first.
    Alive,
    /// It dies, whoever moves first.
    Dead,
    /// It lives if its own side moves first, and dies otherwise.
    Unsettled,
    Unknown,
}

impl Fate {
    /// The word as it is written.
    pub fn name(self) -> &'static str
        ensures { result.now ≡ fate_text self }
    {
        match self {
            Fate::Alive => "alive",
            Fate::Dead => "dead",
            Fate::Unsettled => "unsettled",
            Fate::Unknown => "unknown",
        }
    }
}

/// What is found about a group. If it surely lives though the attacker moves first, the other side is not asked about.
#[derive(Clone, Copy, Debug)]
pub struct Judgement {
    pub fate: Fate,
    pub word: Word,
    pub attacker_first: Finding,
    pub defender_first: Option<Finding>,
}

/// What two findings say together: sure if both are, likely if one is, a hint if none is; and a leaning if only one decides.
pub fn together(one: &Finding, other: &Finding) -> Finding
    ensures { result ≡ together one.now other.now }
{
    Finding {
        winner: winner_together(one.winner, other.winner),
        word: word_together(one.winner, other.winner, one.word, other.word),
        since: other.since,
        largest: other.largest,
        is_split: are_split(one.winner, other.winner),
    }
}

/// Their winner. `None` if they decide for different winners.
fn winner_together(one: Option<Side>, other: Option<Side>) -> Option<Side>
    ensures { result ≡ winner_together one other }
{
    let Some(first) = one else {
        return other;
    };
    let Some(second) = other else {
        return one;
    };
    if first.is(second) { one } else { None }
}

/// Whether they decide for different winners.
fn are_split(one: Option<Side>, other: Option<Side>) -> bool
    ensures { result ≡ are_split one other }
{
    let Some(first) = one else {
        return false;
    };
    let Some(second) = other else {
        return false;
    };
    !first.is(second)
}

/// The word for two findings of these winners.
fn word_together(one: Option<Side>, other: Option<Side>, one_word: Word, other_word: Word) -> Word
    ensures { result ≡ word_together one other one_word other_word }
{
    let Some(first) = one else {
        return if other.is_some() {
            Word::Leaning
        } else {
            Word::Unknown
        };
    };
    let Some(second) = other else {
        return Word::Leaning;
    };
    if first.is(second) {
        both_words(one_word, other_word)
    } else {
        Word::Unknown
    }
}

/// The word for two findings of the same winner.
fn both_words(one: Word, other: Word) -> Word
    ensures { result ≡ both_words one other }
{
    let leaning = Word::Leaning.rank();
    if one.rank() == leaning || other.rank() == leaning {
        return Word::Leaning;
    }
    let sure = Word::Sure.rank();
    if one.rank() == sure {
        return if other.rank() == sure {
            Word::Sure
        } else {
            Word::Likely
        };
    }
    if other.rank() == sure {
        return Word::Likely;
    }
    Word::Hint
}

/// What both findings say about the group: what was found where the attacker moves first, and where the defender does.
pub fn judged_by(attacker_first: Finding, asked: &Finding) -> Judgement
    ensures rule { IsByRule result }
    ensures attacker { result.attacker_first ≡ attacker_first }
    ensures defender { result.defender_first ≡ Some (weakened attacker_first asked.now) }
{
    let defender_first = weakened(&attacker_first, asked);
    let (fate, word) = fate_of(&attacker_first, &defender_first);
    Judgement {
        fate,
        word,
        attacker_first,
        defender_first: Some(defender_first),
    }
}

/// That the group lives is only a leaning if the attacker's win begins at a size at which the defender's first move was not
/// decided.
fn weakened(attacker_first: &Finding, defender_first: &Finding) -> Finding
    ensures { result ≡ weakened attacker_first.now defender_first.now }
{
    let mut same = *defender_first;
    if is_won_by(Side::Attacker, attacker_first.winner)
        && is_won_by(Side::Defender, defender_first.winner)
        && defender_first.largest < attacker_first.since
    {
        same.word = Word::Leaning;
    }
    same
}

/// What becomes of the group, as surely as this word says. `None` if that is not decided.
fn fate_at(word: Word, attacker_first: &Finding, defender_first: &Finding) -> Option<Fate>
    ensures { result ≡ fate_at word attacker_first.now defender_first.now }
{
    // Then the attacker also wins if it moves first.
    if defender_first.says(Side::Attacker, word) {
        return Some(Fate::Dead);
    }
    if attacker_first.says(Side::Attacker, word) && defender_first.says(Side::Defender, word) {
        return Some(Fate::Unsettled);
    }
    if attacker_first.says(Side::Defender, word) {
        return Some(Fate::Alive);
    }
    None
}

/// What both first moves say about the group, by the surest word that decides.
fn fate_of(attacker_first: &Finding, defender_first: &Finding) -> (Fate, Word)
    ensures { result ≡ fate_of attacker_first.now defender_first.now }
{
    if let Some(fate) = fate_at(Word::Sure, attacker_first, defender_first) {
        return (fate, Word::Sure);
    }
    if let Some(fate) = fate_at(Word::Likely, attacker_first, defender_first) {
        return (fate, Word::Likely);
    }
    if let Some(fate) = fate_at(Word::Hint, attacker_first, defender_first) {
        return (fate, Word::Hint);
    }
    if let Some(fate) = fate_at(Word::Leaning, attacker_first, defender_first) {
        return (fate, Word::Leaning);
    }
    (Fate::Unknown, Word::Unknown)
}
