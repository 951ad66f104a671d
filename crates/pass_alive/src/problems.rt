//! Problems whose targets live by their shape.

ghost use Rattle.std.specs.Prelude.{◌↔◌, IsTrue};
ghost use Rattle.pass_alive.specs.Told.{LivesAt};

use crate::laws::games_agree;
use crate::living::is_pass_alive;
use go_chains::ChainBoard;
use go_points::Colouring;
use target_game::Problem;

/// Whether the targets of the problem live by their shape at the colouring. The cost is that of `is_pass_alive`, and of putting
/// the stones on a board.
pub fn lives_at(problem: &Problem, colouring: &Colouring) -> bool
    ensures { IsTrue result ↔ LivesAt problem.now.game colouring.now }
{
    if colouring.size() != problem.size() {
        return false;
    }
    let Ok(board) = ChainBoard::from_colouring(colouring) else {
        return false;
    };
    lives_on(problem, &board)
}

/// Whether the targets of the problem live by their shape on the board. The cost is that of `is_pass_alive`.
pub fn lives_on(problem: &Problem, board: &ChainBoard) -> bool
    ensures { IsTrue result ↔ LivesAt problem.now.game board.now }
{
    games_agree();
    if board.colouring().size() != problem.size() {
        return false;
    }
    is_pass_alive(
        board,
        problem.targets(),
        problem.defender(),
        problem.region(),
    )
}
