//! The words of a lock, how each word is packed, and the limits of a lock. The code takes these numbers from this file.
//! `specs/Layout.antt` restates some of them for the contracts.
//!
//! - Word 0 is the lock word. Bit 0 is 1 if a handoff is requested, and bit 1 is 1 if the queue head sleeps on the
//!   word. Bits 2 and 3 contain the state: 0 is free, 1 is held, and 2 is reserved for the queue head. Bit 4 is 1 if
//!   the lock is shut. The bits from 5 on count the *newcomers*, which are the threads that have barged since the last
//!   queue head.
//! - Words 1 to 15 are never written.
//! - Word 16 is the tail, which contains the number of the next ticket.
//! - Words 17 to 20 are cells. Ticket t has cell t mod 4, in round t div 4. Bits 0 to 15 of a cell mark the withdrawn
//!   requests, each by its round modulo 16. Bits 16 to 31 count sleepers. The bits from 34 on count the granted rounds
//!   modulo 2^30.
ghost use Rattle.std.specs.Prelude.{◌≡◌, ◌≢◌, ◌+◌, ◌/◌, ◌%◌, ◌^◌, true, false};
ghost use Rattle.std.specs.Int.{bit_at};
ghost use Rattle.lock_core.specs.Layout.{cell_at, bit_of, count_of, rounds_of, shut_of, state_of, to_go};

/// The number of the lock word.
pub const LOCK_WORD: usize = 0;

/// The number of a word that is never written.
pub(crate) const UNWRITTEN: usize = 8;

/// The number of the tail.
pub const TAIL: usize = 16;

/// The number of the first cell.
pub const FIRST_CELL: usize = 17;

/// The number of cells.
pub const CELLS: u64 = 4;

/// One granted round, as a cell counts it.
pub const ROUND: u64 = 1 << 34;

/// A cell counts its rounds modulo this number.
const ROUNDS: u64 = 1 << 30;

/// One sleeper, as a cell counts it.
pub const SLEEPER: u64 = 1 << 16;

/// The bit of the lock word by which the queue head requests a handoff.
pub const HANDOFF: u64 = 1;

/// The bit of the lock word that says that the queue head sleeps on the word.
pub const HEAD_ASLEEP: u64 = 2;

/// The state of a lock word that a thread holds.
pub const HELD: u64 = 4;

/// The state of a lock word that only the queue head may take.
pub const RESERVED: u64 = 8;

/// The bit of the lock word that says that the lock is shut.
pub const SHUT: u64 = 16;

/// One newcomer (a thread that barged), as the lock word counts it.
pub const NEWCOMER: u64 = 32;

/// What a barging thread adds to the lock word: the word is then held, and counts one more newcomer.
pub const BARGED: u64 = HELD + NEWCOMER;

/// The maximum number of sleepers that a cell can count.
pub const MAX_SLEEPERS: u64 = 65535;

/// The window of withdrawal: a request can be withdrawn while at most this number of rounds must be granted before its
/// own round. The cell has 16 bits for the marks of withdrawn requests. One round is left out because a release clears
/// a mark with a separate atomic step.
pub const WITHDRAWAL_WINDOW: u64 = 15;

/// The maximum number of withdrawn requests that one release skips.
pub const MAX_PASSED: u64 = 64;

/// The least barging limit. A strict lock has the limit 1, which lets no thread barge.
pub const MIN_BARGING_LIMIT: u64 = 2;

/// The greatest barging limit.
pub const MAX_BARGING_LIMIT: u64 = 65535;

/// The maximum number of requests that may be open at one time. Each claim of this crate presupposes this bound.
pub const MAX_OPEN: u64 = ROUNDS - 1;

/// The widest window of `draw_within`, in rounds of four tickets. With this window, at most 2^29 + 1 requests are open.
pub const MAX_WINDOW: u64 = 1 << 27;

const _: () = prove!(MAX_WINDOW * CELLS + 1 <= MAX_OPEN);

/// The maximum number of tickets that `draw_within` ever draws from one lock.
pub const MAX_TICKETS: u64 = 1 << 63;

/// The number of the word that is the ticket's cell.
#[inline(always)]
pub(crate) fn cell_word(ticket: u64) -> usize
    ensures { result ≡ cell_at ticket }
{
    FIRST_CELL + (ticket % CELLS) as usize
}

/// The bit of a ticket in its cell.
#[inline(always)]
pub(crate) fn bit(ticket: u64) -> u64
    ensures { result ≡ 2 ^ bit_of ticket }
{
    1 << (ticket / CELLS % 16)
}

/// How many rounds must be granted before the ticket is at its turn, according to the word of its cell.
#[inline(always)]
pub(crate) fn rounds_to_go(cell: u64, ticket: u64) -> u64
    ensures { result ≡ to_go cell ticket }
{
    (ticket / CELLS + 1 + ROUNDS - cell / ROUND) % ROUNDS
}

/// Whether the last granted round is the ticket's, according to the word of its cell.
#[inline(always)]
pub(crate) fn is_round_of(cell: u64, ticket: u64) -> bool
    ensures yes { result ≡ true → rounds_of cell ≡ (ticket / 4 + 1) % 1073741824 }
    ensures no { result ≡ false → rounds_of cell ≢ (ticket / 4 + 1) % 1073741824 }
{
    cell / ROUND == (ticket / CELLS + 1) % ROUNDS
}

/// Whether the ticket's request is withdrawn, according to the word of its cell.
#[inline(always)]
pub(crate) fn is_withdrawn(cell: u64, ticket: u64) -> bool
    ensures withdrawn { result ≡ true → bit_at cell (bit_of ticket) ≡ 1 }
    ensures waits { result ≡ false → bit_at cell (bit_of ticket) ≡ 0 }
{
    (cell >> (ticket / CELLS % 16)) % 2 == 1
}

/// The number of sleepers that the word of a cell counts.
#[inline(always)]
pub(crate) fn sleepers(cell: u64) -> u64
    ensures { result ≡ count_of cell }
{
    cell / SLEEPER % 65536
}

/// The state of the lock word.
#[inline(always)]
pub(crate) fn state(lock_word: u64) -> u64
    ensures { result ≡ state_of lock_word }
{
    lock_word / HELD % 4
}

/// Whether the lock is shut, according to the lock word.
#[inline(always)]
pub(crate) fn is_shut(lock_word: u64) -> bool
    ensures shut { result ≡ true → shut_of lock_word ≡ 1 }
    ensures open { result ≡ false → shut_of lock_word ≡ 0 }
{
    lock_word / SHUT % 2 == 1
}
