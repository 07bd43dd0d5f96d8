//! Creates a lock, and gives each caller a seat, which is the handle through which the caller uses the lock.
ghost use Rattle.std.specs.Prelude.{◌≡◌, ◌≢◌, ◌≤◌, IfOk, IfErr, length};
ghost use Rattle.lock_core.specs.Layout.{max_barging_limit, HasLockWords, IsLockTable, IsValueTable};
ghost use Rattle.lock_core.specs.Views.{view_of, IsSeatOf, IsOutside};
ghost use Rattle.lock_core.specs.Answers.{barging_limit_of, HasValidLimit, IsOpenErrorOf};

use crate::invariant::{SharedValue, TicketTable, ValueSeat, ValueTable};
use crate::layout::{MIN_BARGING_LIMIT, ROUND, UNWRITTEN};
use crate::plays::Come;
use atomic_table::Refused;
use std::alloc::Global;
use thiserror::Error;

/// Whether a lock is strict or lets threads barge.
#[derive(Clone, Copy, Debug, PartialEq, Eq)]
pub enum LockKind {
    /// A strict lock serves its callers in the order of their tickets.
    Strict,
    /// In a barging lock, threads without a ticket may overtake the queue. The number is the barging limit, from
    /// `MIN_BARGING_LIMIT` to `MAX_BARGING_LIMIT`: the maximum number of acquisitions per queue head, which are those
    /// of the threads that barge before it, and its own.
    Barging(u16),
}

impl LockKind {
    /// The maximum number of acquisitions per queue head: those of the threads that barge before it, and its own. It is
    /// 1 in a strict lock.
    #[inline]
    pub fn barging_limit(self) -> u64
        ensures barging_limit { result ≡ barging_limit_of self }
        ensures max { result ≤ max_barging_limit }
    {
        match self {
            LockKind::Strict => 1,
            LockKind::Barging(limit) => limit.into(),
        }
    }
}

/// Why a lock was not opened.
#[derive(Clone, Copy, Debug, PartialEq, Eq, Error)]
pub enum OpenError {
    #[error("out of memory")]
    Memory,
    /// The barging limit is less than `MIN_BARGING_LIMIT`.
    #[error("barging limit {0}: it must be from 2 to 65,535")]
    BadBargingLimit(u16),
}

/// The number of a lock's words.
pub const WORDS: usize = FIRST_WORDS.len();

/// The words of a new lock: the first ticket is granted.
const FIRST_WORDS: [u64; 21] = [
    0, 0, 0, 0, 0, 0, 0, 0, 0, 0, 0, 0, 0, 0, 0, 0, 0, ROUND, 0, 0, 0,
];

/// Refuses a barging limit of less than two, as `open` does.
pub fn check_kind(kind: LockKind) -> Result<(), OpenError>
    ensures long { IfOk result (λ _. HasValidLimit kind) }
    ensures err { IfErr result (λ e. (e ≢ OpenError.Memory) × IsOpenErrorOf kind e) }
{
    if let LockKind::Barging(limit) = kind {
        if u64::from(limit) < MIN_BARGING_LIMIT {
            return Err(OpenError::BadBargingLimit(limit));
        }
    }
    Ok(())
}

/// Opens a lock, and allocates its words in one block of 168 bytes. The call fails if the barging limit is less than
/// two or if memory is short, and then it keeps nothing.
pub fn open(alloc: Global, kind: LockKind) -> Result<TicketTable, OpenError>
    ensures table { IfOk result (λ lock. IsLockTable lock.shared.table_id) }
    ensures kind { IfOk result (λ lock. lock.shared.key ≡ barging_limit_of kind) }
    ensures long { IfOk result (λ _. HasValidLimit kind) }
    ensures err { IfErr result (IsOpenErrorOf kind) }
{
    check_kind(kind)?;
    match TicketTable::of_words(alloc, &FIRST_WORDS, &kind.barging_limit()) {
        Ok((table, _)) => Ok(table),
        Err(_) => Err(OpenError::Memory),
    }
}

/// Why a lock was not opened, with the values that the caller handed in.
#[derive(Drop)]
pub struct OpenValueError<T> {
    pub error: OpenError,
    pub values: Vec<T>,
}

/// Opens a lock with the one value in `values`, and allocates two blocks, for the words and for the value. The call
/// fails if the barging limit is less than two or if memory is short. Then it keeps nothing, and the error returns the
/// value.
pub fn open_value<T>(
    alloc: Global,
    kind: LockKind,
    values: Vec<T>,
) -> Result<ValueTable<T>, OpenValueError<T>>
    requires one { length values.items ≡ 1 }
    ensures table { IfOk result (λ lock. IsValueTable lock.shared.table_id) }
    ensures kind { IfOk result (λ lock. lock.shared.key ≡ barging_limit_of kind) }
    ensures long { IfOk result (λ _. HasValidLimit kind) }
    ensures err { IfErr result (λ e. IsOpenErrorOf kind e.error) }
    ensures values { IfErr result (λ e. e.values.items ≡ values.items) }
{
    if let Err(error) = check_kind(kind) {
        return Err(OpenValueError { error, values });
    }
    match ValueTable::new(alloc, &FIRST_WORDS, values, &kind.barging_limit()) {
        Ok((table, _)) => Ok(table),
        Err(Refused { slots }) => Err(OpenValueError {
            error: OpenError::Memory,
            values: slots,
        }),
    }
}

/// Returns a seat for a new caller. One load, of a word that is never written.
#[inline(always)]
pub fn new_seat<T>(table: &SharedValue<T>) -> ValueSeat<T>
    requires table { HasLockWords table.now.table_id }
    ensures seat { IsSeatOf table.now.table_id table.now.key result }
    ensures outside { IsOutside (view_of result) }
    ensures steps { (view_of result).looks.steps ≡ 1 }
{
    let (_, seat) = table.load_new_seat::<Come>(UNWRITTEN);
    seat
}
