//! Constants of a lock's core that C code needs in addition to the calls: sizes, positions of words and bits, and
//! limits.
//!
//! `tools/snapshot` writes these numbers, with their comments, to `c/proved/qolb_layout.h`. The sizes of the blocks
//! that a call allocates are not in this file, because `tools/snapshot` measures them.
ghost use Rattle.std.specs.Prelude.{◌≡◌};
ghost use Rattle.qolb_locks.specs.Layouts.{TellsCells, TellsLockWord, TellsLimits, TellsStates, TellsAnswers};

use crate::MAX_OPEN_WITH_TIMEOUT;
use crate::answer::Answer;
use crate::ticket::{State, Ticket};
use lock_core::WORDS;
use lock_core::layout::{
    CELLS, FIRST_CELL, HANDOFF, HEAD_ASLEEP, HELD, LOCK_WORD, MAX_BARGING_LIMIT, MAX_PASSED,
    MAX_SLEEPERS, MIN_BARGING_LIMIT, NEWCOMER, RESERVED, ROUND, SHUT, SLEEPER, TAIL,
    WITHDRAWAL_WINDOW,
};

/// The numbers, each in 64 bits. C reads them as an array.
#[repr(C)]
#[derive(Clone, Copy)]
pub struct Layout {
    /// The bytes of a ticket of a lock.
    pub ticket_bytes: u64,
    /// The words of a lock's core: all of them.
    pub core_words: u64,
    /// The lock word.
    pub lock_word: u64,
    /// The tail: the next ticket's number.
    pub tail_word: u64,
    /// The first cell. Ticket t has the cell with number t modulo `cells`, in round t / `cells`.
    pub first_cell: u64,
    /// The number of cells.
    pub cells: u64,
    /// In a cell: the lowest bit of the rounds that are granted.
    pub rounds_bit: u64,
    /// In a cell: the lowest bit of the count of sleepers. The bits below it are of withdrawn requests.
    pub sleepers_bit: u64,
    /// The most sleepers that a cell counts.
    pub max_sleepers: u64,
    /// In the lock word: the queue head requests it.
    pub handoff: u64,
    /// In the lock word: the queue head sleeps there.
    pub head_asleep: u64,
    /// In the lock word: it is held.
    pub held: u64,
    /// In the lock word: it is free for the queue head alone.
    pub reserved: u64,
    /// In the lock word: the lock is shut.
    pub shut: u64,
    /// In the lock word: the unit of the number of barging threads since the last queue head.
    pub newcomer: u64,
    /// The least barging limit of a barging lock. A lock with a smaller one is strict.
    pub min_barging_limit: u64,
    /// The greatest barging limit.
    pub max_barging_limit: u64,
    /// The window of withdrawal: the most rounds to be granted before a request that can be withdrawn.
    pub withdrawal_window: u64,
    /// The most requests that are open when a call with a timeout, or a task, draws a ticket.
    pub max_open_with_timeout: u64,
    /// The most withdrawn requests that one release passes.
    pub max_passed: u64,
    /// A ticket without a request.
    pub state_free: u64,
    /// A ticket that waits.
    pub state_waiting: u64,
    /// A ticket that waits, and whose sleep is announced.
    pub state_asleep: u64,
    /// A ticket at its turn.
    pub state_at_turn: u64,
    /// A ticket at its turn in a strict lock, whose holder was told that the lock is open.
    pub state_served: u64,
    /// A ticket at its turn in a strict lock, whose holder was told that the lock is shut.
    pub state_served_shut: u64,
    /// A ticket whose release is unfinished: the release must be called again.
    pub state_ending: u64,
    /// The queue head's ticket, which has taken the lock word of an open lock.
    pub state_head_inside: u64,
    /// The queue head's ticket, which has taken the lock word of a lock that is shut.
    pub state_head_inside_shut: u64,
    /// A ticket that has the lock word alone, of an open lock.
    pub state_inside: u64,
    /// A ticket that has the lock word alone, of a lock that is shut.
    pub state_inside_shut: u64,
    /// The answer: the request is beyond the window of withdrawal.
    pub answer_far: u64,
    /// The answer: the sleep is announced.
    pub answer_asleep: u64,
    /// The answer: the cell counts the most sleepers.
    pub answer_full: u64,
    /// The answer: the release is unfinished, and the turn is still the ticket's.
    pub answer_unfinished: u64,
}

/// The numbers, by the crates that own them.
const LAYOUT: Layout = Layout {
    ticket_bytes: size_of::<Ticket>() as u64,
    core_words: WORDS as u64,
    lock_word: LOCK_WORD as u64,
    tail_word: TAIL as u64,
    first_cell: FIRST_CELL as u64,
    cells: CELLS,
    rounds_bit: u64::trailing_zeros(ROUND) as u64,
    sleepers_bit: u64::trailing_zeros(SLEEPER) as u64,
    max_sleepers: MAX_SLEEPERS,
    handoff: HANDOFF,
    head_asleep: HEAD_ASLEEP,
    held: HELD,
    reserved: RESERVED,
    shut: SHUT,
    newcomer: NEWCOMER,
    min_barging_limit: MIN_BARGING_LIMIT,
    max_barging_limit: MAX_BARGING_LIMIT,
    withdrawal_window: WITHDRAWAL_WINDOW,
    max_open_with_timeout: MAX_OPEN_WITH_TIMEOUT,
    max_passed: MAX_PASSED,
    state_free: State::Free as u64,
    state_waiting: State::Waiting as u64,
    state_asleep: State::Asleep as u64,
    state_at_turn: State::AtTurn as u64,
    state_served: State::Served as u64,
    state_served_shut: State::ServedShut as u64,
    state_ending: State::Ending as u64,
    state_head_inside: State::HeadInside as u64,
    state_head_inside_shut: State::HeadInsideShut as u64,
    state_inside: State::Inside as u64,
    state_inside_shut: State::InsideShut as u64,
    answer_far: Answer::Far as u64,
    answer_asleep: Answer::Asleep as u64,
    answer_full: Answer::Full as u64,
    answer_unfinished: Answer::Unfinished as u64,
};

/// Tells C the numbers.
#[unsafe(no_mangle)]
pub extern "C" fn qolb_core_layout_proved_(out: &mut Layout)
    ensures all { out.new ≡ LAYOUT }
    ensures cells { TellsCells out.new }
    ensures lock_word { TellsLockWord out.new }
    ensures limits { TellsLimits out.new }
    ensures states { TellsStates out.new }
    ensures answers { TellsAnswers out.new }
{
    *out = LAYOUT;
}
