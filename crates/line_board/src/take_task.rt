//! Takes a task from a board.
ghost use Rattle.std.specs.Prelude.{◌≡◌, ◌≤◌, ◌+◌, ◌∷◌, [], ℕ, List, IsTrue, MatchOption};
ghost use Rattle.qolb_model.specs.PortStates.{may_ask};
ghost use Rattle.qolb_model.specs.Counting.{IsWithinCalls};
ghost use Rattle.qolb_model.specs.Sound.{Continues};
ghost use Rattle.qolb_model.specs.AtTurn.{IsGranted};
ghost use Rattle.line_board.specs.Board.{Stand};
ghost use Rattle.line_board.specs.Law.{Changes};
ghost use Rattle.line_board.specs.Calls.{HasTaken, HasFound, Takes};

use crate::answer::Take;
use crate::board::{decode, encode};
use crate::law::BoardLaw;
use crate::turn::{keep, replace};
use line_lanes::Line64;
use qolb_model::{Acquired, LineSync, acquire_bounded};

/// Removes the oldest task from the board in one turn. Does not allocate.
///
/// The call requests the line once, polls at most `patience` times while the request waits, and then withdraws it. It
/// takes the atomic steps of its polls and of at most three more calls.
pub fn take<L: LineSync<BoardLaw>>(line: &L, port: &mut L::Port, patience: u64) -> Take
    requires belongs { L.belongs line.now port.old }
    requires state { IsTrue (may_ask (L.view port.old).state) }
    ensures belongs { L.belongs line.now port.new }
    ensures takes { Takes (L.view port.old) (L.view port.new) result }
    ensures patient { (L.counters port.new).poll_count
        ≤ (L.counters port.old).poll_count + patience }
    ensures late { result ≡ Take.Late → (L.counters port.new).poll_count
        ≡ (L.counters port.old).poll_count + patience }
    ensures steps { IsWithinCalls (L.max_steps line.now) 3 (L.counters port.old)
        (L.counters port.new) }
{
    match acquire_bounded(line, port, patience) {
        Acquired::Granted => match remove(line, port) {
            Some(task) => Take::Task(task),
            None => Take::Empty,
        },
        Acquired::Late => Take::Late,
        Acquired::Closed => Take::Closed,
        Acquired::Busy => Take::Busy,
    }
}

/// Removes the oldest task if there is one, and releases the line. Returns `None` if there is none.
fn remove<L: LineSync<BoardLaw>>(line: &L, port: &mut L::Port) -> Option<u64>
    requires belongs { L.belongs line.now port.old }
    requires granted { IsGranted (L.view port.old) (L.turn port.old) }
    ensures belongs { L.belongs line.now port.new }
    ensures continues { Continues Changes (L.view port.old) (L.view port.new) }
    ensures count { (L.view port.new).count ≡ (L.view port.old).count }
    ensures poll_count { (L.counters port.new).poll_count ≡ (L.counters port.old).poll_count }
    ensures steps { IsWithinCalls (L.max_steps line.now) 1 (L.counters port.old)
        (L.counters port.new) }
    ensures state { IsTrue (may_ask (L.view port.new).state) }
    ensures taken { MatchOption result (HasFound 0 (L.view port.new)) (λ task.
        HasTaken task (L.view port.new)) }
{
    match without_first(L::bytes(port)) {
        Some((task, new)) => {
            replace(line, port, new);
            Some(task)
        }
        None => {
            keep(line, port);
            None
        }
    }
}

/// Returns the oldest task and the board without it, or `None` if there is no task.
fn without_first(board: &Line64) -> Option<(u64, Line64)>
    ensures { (tasks : List ℕ) → Stand board.now.bytes tasks
        → MatchOption result (tasks ≡ []) (λ r.
        (left : List ℕ) × (tasks ≡ r.0 ∷ left) × Stand r.1.bytes left) }
{
    let mut tasks = decode(board)?;
    let first = tasks.pop_at(0)?;
    Some((first, encode(&tasks)))
}
