//! Opens a lock for C code.
ghost use Rattle.std.specs.Prelude.{◌≡◌, ◌≢◌, ◌≤◌, max};
ghost use Rattle.lock_core.specs.Answers.{barging_limit_of};
ghost use Rattle.lock_core.specs.Layout.{max_barging_limit};
ghost use Rattle.lock_core.specs.declared.opening.LockKind.{LockKind};
ghost use Rattle.qolb_locks.specs.declared.answer.Answer.{Answer};
ghost use Rattle.qolb_locks.specs.Calls.{Opens};

use crate::answer::Answer;
use crate::lock::Lock;
use crate::lock_ref::LockRef;
use lock_core::LockKind;
use lock_core::layout::{MAX_BARGING_LIMIT, MIN_BARGING_LIMIT};
use std::alloc::Global;

/// Returns the kind of lock with this barging limit.
fn kind_of(barging_limit: u64) -> LockKind
    requires { barging_limit ≤ max_barging_limit }
    ensures kind { barging_limit_of result ≡ max barging_limit 1 }
    ensures long { (result ≢ LockKind.Barging 0) × (result ≢ LockKind.Barging 1) }
{
    if barging_limit < MIN_BARGING_LIMIT {
        return LockKind::Strict;
    }
    LockKind::Barging(barging_limit as u16)
}

/// Opens a lock with a barging limit. A limit below `MIN_BARGING_LIMIT` makes a strict lock. The lock is never freed.
///
/// The label tells a ticket of this lock from a ticket of another lock. It must not be 0, and no other lock may have
/// it.
pub fn open(alloc: Global, barging_limit: u64, label: u64, out: &mut LockRef) -> Answer
    ensures does { Opens barging_limit label out.new.lock result }
    ensures unchanged { result ≢ Answer.Done → out.new ≡ out.old }
{
    if barging_limit > MAX_BARGING_LIMIT {
        return Answer::BadBargingLimit;
    }
    if label == 0 {
        return Answer::Misuse;
    }
    let kind = kind_of(barging_limit);
    let Ok(table) = lock_core::open(alloc, kind) else {
        return Answer::NoMemory;
    };
    let Ok(boxed) = Box::new(alloc, Lock::new(table, kind.barging_limit(), label)) else {
        return Answer::NoMemory;
    };
    *out = LockRef::of(Box::leak(boxed));
    Answer::Done
}
