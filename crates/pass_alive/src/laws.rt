//! What life by shape implies, stated over the definitions alone.

ghost use Rattle.pass_alive.specs.Laws.{PassAliveStands, PassAliveStays, AttackerNeverWins, DefenderWins, DefenderWinsWithin, PassAliveIsAlive, LivesInLess, NeverTaken, NeverTakenAnywhere, GamesAgree, ShapesCanBeTold};

/// Where some stones live by their shape, their chains stand, no eye of theirs is full of the attacker's stones, and each point that
/// is fixed is empty.
pub fn pass_alive_stands()
    ensures { PassAliveStands }
{}

/// A move of the attacker leaves all of this as it is.
pub fn pass_alive_stays()
    ensures { PassAliveStays }
{}

/// The attacker wins no state whose targets live by their shape.
pub fn attacker_never_wins()
    ensures { AttackerNeverWins }
{}

/// The defender wins each state whose targets live by their shape.
pub fn defender_wins()
    ensures { DefenderWins }
{}

/// It does so within a number of turns that depends only on the size of the board.
pub fn defender_wins_within()
    ensures { DefenderWinsWithin }
{}

/// A group that lives by its shape is alive.
pub fn pass_alive_is_alive()
    ensures { PassAliveIsAlive }
{}

/// What lives by its shape in a region also does so in each part of that region.
pub fn lives_in_less()
    ensures { LivesInLess }
{}

/// No moves of the attacker ever take a stone that lives by its shape.
pub fn never_taken()
    ensures { NeverTaken }
{}

/// The same on the whole board, without targets.
pub fn never_taken_anywhere()
    ensures { NeverTakenAnywhere }
{}

/// Where all targets and the region are on the board, as in every problem, what `is_pass_alive` decides is about the problem's game.
pub fn games_agree()
    ensures { GamesAgree }
{}

/// It cannot be that no test tells which colourings live by their shape.
pub fn shapes_can_be_told()
    ensures { ShapesCanBeTold }
{}
