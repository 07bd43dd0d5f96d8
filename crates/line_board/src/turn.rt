//! Ends the turn of a port that holds a board. The port writes the new board or leaves the board unchanged, and then
//! releases the line.
ghost use Rattle.std.specs.Prelude.{◌≡◌, ℕ, List, length, false, IsTrue};
ghost use Rattle.qolb_model.specs.PortStates.{may_ask};
ghost use Rattle.qolb_model.specs.Kept.{MayRelease};
ghost use Rattle.qolb_model.specs.Calls.{Releases};
ghost use Rattle.qolb_model.specs.Counting.{IsWithinCalls};
ghost use Rattle.qolb_model.specs.Sound.{Continues};
ghost use Rattle.qolb_model.specs.AtTurn.{IsGranted};
ghost use Rattle.qolb_model.specs.Views.{bytes_of};
ghost use Rattle.line_board.specs.Board.{Stand};
ghost use Rattle.line_board.specs.Law.{Changes};
ghost use Rattle.line_board.specs.PutsAndTakes.{put_between, taken_between};
ghost use Rattle.line_board.specs.Calls.{HadTurn, HasFound};

use crate::law::BoardLaw;
use line_lanes::{Line64, changed};
use qolb_model::{LineSync, PortState};

/// Writes the bytes of the new board that differ, and releases the line.
pub(crate) fn replace<L: LineSync<BoardLaw>>(line: &L, port: &mut L::Port, new: Line64)
    requires belongs { L.belongs line.now port.old }
    requires granted { IsGranted (L.view port.old) (L.turn port.old) }
    requires changes { Changes (bytes_of (L.view port.old)) new.bytes }
    ensures belongs { L.belongs line.now port.new }
    ensures continues { Continues Changes (L.view port.old) (L.view port.new) }
    ensures count { (L.view port.new).count ≡ (L.view port.old).count }
    ensures poll_count { (L.counters port.new).poll_count ≡ (L.counters port.old).poll_count }
    ensures steps { IsWithinCalls (L.max_steps line.now) 1 (L.counters port.old)
        (L.counters port.new) }
    ensures state { IsTrue (may_ask (L.view port.new).state) }
    ensures turn { (found left : List ℕ) → Stand (bytes_of (L.view port.old)) found
        → Stand new.bytes left → HadTurn found left (put_between found left)
        (taken_between found left) (L.view port.new) }
{
    // The end of a turn keeps its mask. If the mask has only the bytes that differ, it says what this turn changed.
    let mask = changed(L::bytes(port), &new);
    L::write(port, mask, &new);
    release(line, port);
}

/// Releases the line with the board unchanged.
pub(crate) fn keep<L: LineSync<BoardLaw>>(line: &L, port: &mut L::Port)
    requires belongs { L.belongs line.now port.old }
    requires granted { IsGranted (L.view port.old) (L.turn port.old) }
    ensures belongs { L.belongs line.now port.new }
    ensures continues { Continues Changes (L.view port.old) (L.view port.new) }
    ensures count { (L.view port.new).count ≡ (L.view port.old).count }
    ensures poll_count { (L.counters port.new).poll_count ≡ (L.counters port.old).poll_count }
    ensures steps { IsWithinCalls (L.max_steps line.now) 1 (L.counters port.old)
        (L.counters port.new) }
    ensures state { IsTrue (may_ask (L.view port.new).state) }
    ensures found { (tasks : List ℕ) → Stand (bytes_of (L.view port.old)) tasks
        → HasFound (length tasks) (L.view port.new) }
{
    release(line, port);
}

/// Ends the turn and leaves the line open. No call of a board shuts the line, but the last turn of a lease closes it.
fn release<L: LineSync<BoardLaw>>(line: &L, port: &mut L::Port)
    requires belongs { L.belongs line.now port.old }
    requires state { (L.view port.old).state ≡ PortState.Holding }
    requires allowed { MayRelease Changes (L.view port.old) (L.turn port.old) }
    ensures belongs { L.belongs line.now port.new }
    ensures poll_count { (L.counters port.new).poll_count ≡ (L.counters port.old).poll_count }
    ensures steps { IsWithinCalls (L.max_steps line.now) 1 (L.counters port.old)
        (L.counters port.new) }
    ensures releases { Releases Changes false (L.view port.old) (L.view port.new)
        (L.turn port.old) }
{
    line.deqolb(port);
}
