//! A reference to a lock. C code may copy the reference and share it between threads. No call frees the lock.
ghost use Rattle.std.specs.Prelude.{◌≡◌};
ghost use Rattle.std.specs.declared.option.Option.{Option};
ghost use Rattle.std.specs.declared.option.Option.TheVariants.{None, Some};
ghost use Rattle.qolb_locks.specs.declared.lock.Lock.{Lock};
ghost use Rattle.qolb_locks.specs.Shared.{lock_coded, refers};

use crate::lock::Lock;
use std::marker::Model;

/// A reference to a lock, as C code stores it.
#[repr(C)]
#[derive(Drop)]
pub struct LockRef {
    at: *const u8,
    pub ghost lock: { Option Lock } by { lock_coded },
}

impl Model for LockRef {
    ghost also_owns = { λ r. refers r.at r.lock };
}

impl LockRef {
    pub fn of(lock: &'static Lock) -> LockRef
        ensures { result.lock ≡ Some lock.now }
    {
        LockRef {
            at: lock as *const Lock as *const u8,
        }
    }

    #[inline(always)]
    pub fn get(&self) -> &Lock
        requires { (lock : Lock) × (self.now.lock ≡ Some lock) }
        ensures { self.now.lock ≡ Some result.now }
    {
        unsafe { &*(self.at as *const Lock) }
    }
}

unsafe impl Send for LockRef {}

unsafe impl Sync for LockRef {}
