//! Puts a task on a board.
ghost use Rattle.std.specs.Prelude.{◌≡◌, ◌≤◌, ◌+◌, ◌++◌, ◌∷◌, [], ℕ, List, length, true, false, IsTrue, MatchOption};
ghost use Rattle.qolb_model.specs.PortStates.{may_ask};
ghost use Rattle.qolb_model.specs.Counting.{IsWithinCalls};
ghost use Rattle.qolb_model.specs.Sound.{Continues};
ghost use Rattle.qolb_model.specs.AtTurn.{IsGranted};
ghost use Rattle.line_board.specs.Board.{Stand};
ghost use Rattle.line_board.specs.Law.{Changes};
ghost use Rattle.line_board.specs.Calls.{HasPut, HasFound, Puts};

use crate::answer::Put;
use crate::board::{MAX_TASKS, decode, encode};
use crate::law::BoardLaw;
use crate::turn::{keep, replace};
use line_lanes::Line64;
use qolb_model::{Acquired, LineSync, acquire_bounded};

/// Appends the task to the board in one turn. Does not allocate.
///
/// The call requests the line once, polls at most `patience` times while the request waits, and then withdraws it. It
/// takes the atomic steps of its polls and of at most three more calls.
pub fn put<L: LineSync<BoardLaw>>(line: &L, port: &mut L::Port, task: u64, patience: u64) -> Put
    requires belongs { L.belongs line.now port.old }
    requires state { IsTrue (may_ask (L.view port.old).state) }
    ensures belongs { L.belongs line.now port.new }
    ensures puts { Puts task (L.view port.old) (L.view port.new) result }
    ensures patient { (L.counters port.new).poll_count
        ≤ (L.counters port.old).poll_count + patience }
    ensures late { result ≡ Put.Late → (L.counters port.new).poll_count
        ≡ (L.counters port.old).poll_count + patience }
    ensures steps { IsWithinCalls (L.max_steps line.now) 3 (L.counters port.old)
        (L.counters port.new) }
{
    match acquire_bounded(line, port, patience) {
        Acquired::Granted => {
            if store(line, port, task) {
                Put::Stored
            } else {
                Put::Full
            }
        }
        Acquired::Late => Put::Late,
        Acquired::Closed => Put::Closed,
        Acquired::Busy => Put::Busy,
    }
}

/// Appends the task if there is room, and releases the line. Returns `true` if the task was stored.
fn store<L: LineSync<BoardLaw>>(line: &L, port: &mut L::Port, task: u64) -> bool
    requires belongs { L.belongs line.now port.old }
    requires granted { IsGranted (L.view port.old) (L.turn port.old) }
    ensures belongs { L.belongs line.now port.new }
    ensures continues { Continues Changes (L.view port.old) (L.view port.new) }
    ensures count { (L.view port.new).count ≡ (L.view port.old).count }
    ensures poll_count { (L.counters port.new).poll_count ≡ (L.counters port.old).poll_count }
    ensures steps { IsWithinCalls (L.max_steps line.now) 1 (L.counters port.old)
        (L.counters port.new) }
    ensures state { IsTrue (may_ask (L.view port.new).state) }
    ensures stored { result ≡ true → HasPut task (L.view port.new) }
    ensures full { result ≡ false → HasFound MAX_TASKS (L.view port.new) }
{
    match with_last(L::bytes(port), task) {
        Some(new) => {
            replace(line, port, new);
            true
        }
        None => {
            keep(line, port);
            false
        }
    }
}

/// Returns the board with one more task, or `None` if there is no room.
fn with_last(board: &Line64, task: u64) -> Option<Line64>
    ensures { (tasks : List ℕ) → Stand board.now.bytes tasks
        → MatchOption result (length tasks ≡ MAX_TASKS) (λ new.
        Stand new.bytes (tasks ++ task ∷ [])) }
{
    let mut tasks = decode(board)?;
    tasks.try_push(task).ok()?;
    Some(encode(&tasks))
}
