//! Hooks that count the requests which a line refuses with `Busy`, because an earlier request of the node is still in
//! the queue.
use qolb_model::{Keep, ParkingLine};
use std::sync::atomic::{AtomicU64, Ordering};
use std::thread::yield_now;
use test_support::Hooks;

/// Counts busy tries.
#[derive(Drop)]
pub struct Tries {
    count: AtomicU64,
}

impl Tries {
    pub fn none() -> Tries {
        Tries {
            count: AtomicU64::new(0),
        }
    }

    pub fn count(&self) -> u64 {
        self.count.load(Ordering::SeqCst)
    }
}

impl Hooks for &Tries {
    fn on_busy<K: Keep, L: ParkingLine<K>>(&self, _line: &L, _port: &L::Port) {
        self.count.fetch_add(1, Ordering::SeqCst);
    }
}

/// Hooks that allow three busy tries. A call that finds the port busy once more does not end.
#[derive(Drop)]
pub struct Thrice {
    busy: AtomicU64,
}

impl Default for Thrice {
    fn default() -> Thrice {
        Thrice {
            busy: AtomicU64::new(0),
        }
    }
}

impl Hooks for Thrice {
    fn on_busy<K: Keep, L: ParkingLine<K>>(&self, _line: &L, _port: &L::Port) {
        if self.busy.fetch_add(1, Ordering::SeqCst) >= 3 {
            for _ in 0..u64::MAX {
                yield_now();
            }
        }
    }
}
