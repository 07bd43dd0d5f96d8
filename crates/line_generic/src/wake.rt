//! The wake policies, which determine whether waiters park and how a release wakes them. No call in this file changes
//! the table of a line.
//!
//! A line has one of three wake policies. With `Parking`, a release unparks waiters. With `SpinOnly`, a release wakes
//! no thread. With `SleepersElsewhere`, a release records the words on which the waiters wait, so that the caller of
//! the release can wake them.
ghost use Rattle.std.specs.Prelude.{◌≡◌, ℕ, ◌<◌, false, Option, None};
ghost use Rattle.line_generic.specs.Answers.{IsSeatOfNode};
ghost use Rattle.line_generic.specs.Steps.{IsInState};
ghost use Rattle.line_generic.specs.AtTurn.{Names};

use crate::discipline::Discipline;
use crate::elsewhere::NO_WORD;
use crate::line::Line;
use crate::port::Port;
use crate::sleepers::{Parking, Seen, UnparkHandle};
use crate::table::{LineSeat, LineTable};
use qolb_model::{Keep, ParkingLine, PortState};
use std::sync::Wait;
use std::time::Duration;

/// How a line's releases unpark its waiters, if at all.
pub trait WakePolicy: Drop {
    /// What a release records in its port about the next holder.
    type Note: Copy + Drop;

    /// The word of the next holder, if the note has it.
    ghost went_to: { Self.Note → Option ℕ };

    /// Returns the policy's state for a new line, which has no waiters.
    fn none() -> Self;

    /// Returns the note of a new port. The port has not released the line yet, and the note names no word.
    fn blank() -> Self::Note
        ensures { Names NO_WORD (went_to result) };

    /// Unparks the waiters on the granted word and on the word ahead, or records both words. A number that is not a
    /// word of the table is ignored.
    fn wake<K: Keep, Q: Discipline<K>>(
        &self,
        table: &LineTable<K, Q>,
        note: &mut Self::Note,
        unpark: UnparkHandle,
    )
        ensures { Names unpark.word (went_to note.new) };
}

/// A wake policy without parking: waiters spin, and a release wakes nobody. A program uses this policy if the lock may
/// not make system calls.
#[derive(Drop)]
pub struct SpinOnly;

impl WakePolicy for SpinOnly {
    type Note = ();

    ghost went_to = { λ _. None };

    fn none() -> SpinOnly {
        SpinOnly
    }

    #[inline(always)]
    fn blank() {}

    #[inline(always)]
    fn wake<K: Keep, Q: Discipline<K>>(
        &self,
        _: &LineTable<K, Q>,
        _note: &mut (),
        unpark: UnparkHandle,
    ) {
        let (_, _) = unpark.words();
    }
}

impl WakePolicy for Parking {
    type Note = ();

    ghost went_to = { λ _. None };

    fn none() -> Parking {
        Parking::new()
    }

    #[inline(always)]
    fn blank() {}

    #[inline(always)]
    fn wake<K: Keep, Q: Discipline<K>>(
        &self,
        table: &LineTable<K, Q>,
        _note: &mut (),
        unpark: UnparkHandle,
    ) {
        if let Some(found) = self.look(unpark) {
            self.wake_both(table, found);
        }
    }
}

impl<K: Keep, Q: Discipline<K>> Line<K, Q> {
    /// Returns the number of waiters that are parked or about to park.
    pub fn sleepers(&self) -> u64 {
        self.sleepers.all()
    }

    /// Returns the number of parked waiters in the group of `word`.
    pub fn sleepers_near(&self, word: usize) -> u64 {
        self.sleepers.near(word)
    }

    /// Parks the node on its word, while the word is still what the node has seen. Blocks for at most `at_most`.
    ///
    /// What the node has seen says that its turn has not come.
    fn park<R: Wait>(
        &self,
        rt: &R,
        seat: &LineSeat<Q::Local>,
        node: u64,
        token: u64,
        seen: &Seen,
        at_most: Duration,
    )
        requires seat { IsSeatOfNode Q.word_count self.now.table.shared.key.config.nodes
            self.now.table.shared.table_id Q.phases.initial node seat.now }
        requires in_state { IsInState Q.phases PortState.Queued token seat.now }
        requires within { seen.now.word < self.now.table.shared.table_id.words }
        requires counted { seen.now.word
            ≡ Q.wait_word self.now.table.shared.key.config.nodes node token }
        requires no_signal { Q.signals_turn token seen.now.low ≡ false }
    {
        self.table
            .shared
            .park_timeout(rt, seen.word, seen.low, at_most);
    }
}

impl<K: Keep, Q: Discipline<K>> ParkingLine<K> for Line<K, Q> {
    /// Parks the port's node until its turn may have come or `at_most` is over. The call may return early.
    ///
    /// This is a Dekker handshake. The waiter counts itself and then peeks at its word; a release grants and then loads
    /// the counter. So either the waiter finds the grant, or the release finds the waiter. The kernel puts a thread to
    /// sleep only if the word is still what the thread saw, so no unpark between peek and park is lost.
    fn sleep<R: Wait>(&self, rt: &R, port: &Port<Q>, at_most: Duration) {
        let table = &self.table.shared;
        let word = Q::wait_word(table, self.width.cell_mask, port.node, port.token);
        let seen = self.sleepers.enter(word).see(table);
        if !Q::signals_turn(port.token, seen.low) {
            self.park(rt, &port.seat, port.node, port.token, &seen, at_most);
        }
        self.sleepers.leave(seen);
    }
}
