//! What death by answers implies, stated over the definitions alone.

ghost use Rattle.dead_groups.specs.Laws.{AnsweredIsDead, AttackerWins, AttackerWinsByMove, AttackerWinsByMoveWhile, AttackerWinsWhile};

/// The attacker, to move, wins each state that fits an entry, within as many turns as the claim gives.
pub fn attacker_wins_by_move()
    ensures { AttackerWinsByMove }
{}

/// It wins each state in which the defender is to move and is lost.
pub fn attacker_wins()
    ensures { AttackerWins }
{}

/// A group that is lost whoever moves is dead.
pub fn answered_is_dead()
    ensures { AnsweredIsDead }
{}

/// The attacker, to move, takes a target unless first a board comes on which a stone that was only supposed to stand is gone, or has no
/// liberty outside the region.
pub fn attacker_wins_by_move_while()
    ensures { AttackerWinsByMoveWhile }
{}

/// The same where the defender is to move.
pub fn attacker_wins_while()
    ensures { AttackerWinsWhile }
{}
