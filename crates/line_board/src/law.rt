//! The data invariant of a board, which states how a holder may change the tasks on the board.
use qolb_model::Keep;

/// The data invariant of a board: a turn keeps the tasks, appends one task, or removes the first.
pub struct BoardLaw;

impl Keep for BoardLaw {
    ghost use Rattle.line_board.specs.Board.{IsBoard};
    ghost use Rattle.line_board.specs.Law.{Changes, changed_board, same_board};

    ghost good = { IsBoard };

    ghost allows = { Changes };

    ghost stays_good = { changed_board };

    ghost allows_same = { same_board };
}
