//! A program that proves the fairness of its own waits: while a node waits, the other nodes have only a bounded number
//! of turns. The bound follows from the contracts that every kind of line satisfies.
ghost use Rattle.std.specs.Prelude.{◌≡◌, ◌+◌, ◌≤◌, length, IsTrue};
ghost use Rattle.qolb_model.specs.PortStates.{may_ask};
ghost use Rattle.qolb_model.specs.Enqueueing.{Asks};
ghost use Rattle.qolb_model.specs.AtTurn.{IsGranted};
ghost use Rattle.qolb_model.specs.Releasing.{IsTold};

use line_blocking::{Got, acquire};
use qolb_model::{Free, LineSync};
use std::sync::Wait;

/// Acquires a line that two nodes share. Blocks until the line is granted or closed.
///
/// Between the request and this node's turn, counted from before the first poll, the other node has at most one turn.
pub fn after_the_other<R: Wait, L: LineSync<Free>>(rt: &R, line: &L, port: &mut L::Port) -> Got
    requires belongs { L.belongs line.now port.old }
    requires state { IsTrue (may_ask (L.view port.old).state) }
    requires two { (L.config_of line.now).nodes ≡ 2 }
    ensures belongs { L.belongs line.now port.new }
    ensures granted { result ≡ Got.Granted → IsGranted (L.view port.new) (L.turn port.new) }
    ensures told { result ≡ Got.Closed → IsTold (L.view port.new) }
    ensures one_turn { result ≡ Got.Granted → (asked : L.Port)
        × ((L.counters asked).poll_count ≡ (L.counters port.old).poll_count)
        × Asks (L.view port.old) (L.view asked)
        × (length (L.view port.new).ends ≤ length (L.view asked).ends + 1) }
{
    acquire(rt, line, port)
}
