//! The type of a fair lock, and the calls that create a lock around a value or take the value out of the lock again.
ghost use Rattle.std.specs.Prelude.{◌≡◌, ◌≤◌, IfOk, IfErr};
ghost use Rattle.lock_core.specs.Layout.{IsValueTable};
ghost use Rattle.lock_core.specs.Answers.{barging_limit_of, HasValidLimit, IsOpenErrorOf};

use crate::wake::WakeWords;
use lock_core::{LockKind, OpenError, OpenValueError, ValueTable, check_kind, open_value};
use std::alloc::{AllocFailed, Global};

/// A fair lock, which owns a value. Threads that come and go enter it, in strict order or with barging.
///
/// A thread that enters gets a guard, which lends the value until the thread leaves.
#[derive(Drop)]
pub struct FairLock<T> {
    pub(crate) table: ValueTable<T>,
    pub(crate) wakes: WakeWords,
    /// The maximum number of acquisitions per queue head: those of the threads that barge before it, and its own. It is
    /// 1 in a strict lock.
    pub barging_limit: u64,
    ghost sized: { IsValueTable table.shared.table_id },
    ghost bound: { table.shared.key ≡ barging_limit },
}

/// Why a lock was not made, with the value that the caller handed in.
#[derive(Drop)]
pub struct NewError<T> {
    pub error: OpenError,
    pub value: T,
}

impl<T> FairLock<T> {
    /// Makes a strict lock, which serves its callers in the order of their requests. Allocates.
    ///
    /// # Errors
    ///
    /// The call fails with `OpenError::Memory` if memory is short. The error returns the value.
    pub fn new(alloc: Global, value: T) -> Result<FairLock<T>, NewError<T>>
        ensures strict { IfOk result (λ lock. lock.barging_limit ≡ 1) }
        ensures err { IfErr result (λ e. (e.value ≡ value) × (e.error ≡ OpenError.Memory)) }
    {
        FairLock::of_kind(alloc, LockKind::Strict, value)
    }

    /// Makes a barging lock, in which newly arriving threads may overtake the queue. At most `barging_limit` - 1 of
    /// them barge between two consecutive queue heads. The limit is from 2 to 65,535. Allocates.
    ///
    /// # Errors
    ///
    /// The call fails with `OpenError::BadBargingLimit` if the limit is less than two, and with `OpenError::Memory` if
    /// memory is short. The error returns the value.
    pub fn with_barging(
        alloc: Global,
        barging_limit: u16,
        value: T,
    ) -> Result<FairLock<T>, NewError<T>>
        ensures barging { IfOk result (λ lock. (lock.barging_limit ≡ barging_limit)
            × (2 ≤ barging_limit)) }
        ensures err { IfErr result (λ e. (e.value ≡ value)
            × IsOpenErrorOf (LockKind.Barging barging_limit) e.error) }
    {
        FairLock::of_kind(alloc, LockKind::Barging(barging_limit), value)
    }

    fn of_kind(alloc: Global, kind: LockKind, value: T) -> Result<FairLock<T>, NewError<T>>
        ensures barging_limit { IfOk result (λ lock. lock.barging_limit ≡ barging_limit_of kind) }
        ensures long { IfOk result (λ _. HasValidLimit kind) }
        ensures err { IfErr result (λ e. (e.value ≡ value) × IsOpenErrorOf kind e.error) }
    {
        if let Err(error) = check_kind(kind) {
            return Err(NewError { error, value });
        }
        let Ok(wakes) = WakeWords::new(alloc) else {
            return Err(NewError {
                error: OpenError::Memory,
                value,
            });
        };
        let mut values = Vec::new(alloc);
        if let Err(failed) = values.push(value) {
            values.destroy_empty();
            let AllocFailed { value } = failed;
            return Err(NewError {
                error: OpenError::Memory,
                value,
            });
        }
        match open_value(alloc, kind, values) {
            Ok(table) => Ok(FairLock {
                table,
                wakes,
                barging_limit: kind.barging_limit(),
            }),
            Err(OpenValueError { error, mut values }) => {
                let Some(value) = values.pop() else {
                    unreachable!()
                };
                values.destroy_empty();
                Err(NewError { error, value })
            }
        }
    }

    /// Takes the lock apart, and returns the value.
    pub fn into_inner(self) -> T {
        let FairLock {
            table,
            wakes: _,
            barging_limit: _,
        } = self;
        let mut closed = table.close();
        let value = closed.take(0);
        closed.free();
        value
    }
}
