//! What safety by answers implies, stated over the definitions alone.

ghost use Rattle.safe_groups.specs.Laws.{AttackerNeverWins, AttackerNeverWinsAfterMove, DefenderWins, DefenderWinsByMove, SafeIsAlive, SafeStonesStand};

/// No play of the other side, anywhere on the board and whatever has occurred, takes a stone that is safe by answers, if its owner
/// answers; and no answer is ever barred.
pub fn safe_stones_stand()
    ensures { SafeStonesStand }
{}

/// The attacker wins no state whose targets are safe by answers.
pub fn attacker_never_wins()
    ensures { AttackerNeverWins }
{}

/// Nor one in which the defender is to move and has an answer, after which they are.
pub fn attacker_never_wins_after_move()
    ensures { AttackerNeverWinsAfterMove }
{}

/// The defender wins each state whose targets are safe by answers.
pub fn defender_wins()
    ensures { DefenderWins }
{}

/// It wins each state in which it is to move and has an answer, after which they are.
pub fn defender_wins_by_move()
    ensures { DefenderWinsByMove }
{}

/// A group that is safe by answers is alive.
pub fn safe_is_alive()
    ensures { SafeIsAlive }
{}
