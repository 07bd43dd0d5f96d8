//! Theorems about boards. Each theorem is the contract of a function that does nothing.
ghost use Rattle.line_board.specs.Laws.{BoardIsQueue, FinishedBoardIsQueue};

/// States that a board that was opened empty is a queue: no task is lost, duplicated or overtaken, as far as a port
/// knows.
pub fn board_is_queue()
    ensures { BoardIsQueue }
{}

/// States the same of the whole history of a finished board.
pub fn finished_board_is_queue()
    ensures { FinishedBoardIsQueue }
{}
