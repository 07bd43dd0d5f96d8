//! Two purses under one lock. Every holder sees the same total number of coins, however other threads have moved coins
//! between the purses.
ghost use Rattle.std.specs.Prelude.{◌≡◌, ◌+◌, ◌<◌, ◌≤◌, IfSome};

use fair_lock::FairLock;
use std::alloc::Global;
use std::sync::Wait;
use std::thread;
use std::thread::Threads;

/// Two purses with 1,000 coins between them.
#[derive(Drop)]
struct Purses {
    left: u32,
    right: u32,
    ghost sum: { left + right ≡ 1000 },
}

impl Purses {
    /// Moves one coin out of the purse that has more coins, or out of the right one if both have the same number.
    fn level(&mut self)
        ensures to_right { self.old.right < self.old.left → self.new.left + 1 ≡ self.old.left }
        ensures to_left { self.old.left ≤ self.old.right → self.new.left ≡ self.old.left + 1 }
    {
        let Purses { left, right } = self;
        if *left > *right {
            *left -= 1;
            *right += 1;
        } else {
            *right -= 1;
            *left += 1;
        }
    }

    /// Returns the coins in each purse.
    fn coins(self) -> (u32, u32)
        ensures left { result.0 ≡ self.left }
        ensures right { result.1 ≡ self.right }
        ensures sum { result.0 + result.1 ≡ 1000 }
    {
        let Purses { left, right } = self;
        (left, right)
    }
}

/// Moves coins `times` times, as one thread.
fn move_coins<R: Wait>(rt: &R, lock: &FairLock<Purses>, times: u32) {
    for _ in 0..times {
        if let Ok(mut guard) = lock.enter(rt) {
            guard.value_mut().level();
            guard.leave(rt);
        }
    }
}

/// Returns the coins in each purse after every one of `threads` threads moved one `times` times, or `None` if memory is
/// short.
pub fn purses_after<R: Threads + Wait + Sync>(
    rt: &R,
    alloc: Global,
    threads: usize,
    times: u32,
) -> Option<(u32, u32)>
    ensures { IfSome result (λ coins. coins.0 + coins.1 ≡ 1000) }
{
    let lock = FairLock::new(
        alloc,
        Purses {
            left: 1000,
            right: 0,
        },
    )
    .ok()?;
    thread::map_indices(rt, alloc, threads, &|_| move_coins(rt, &lock, times)).ok()?;
    Some(lock.into_inner().coins())
}
