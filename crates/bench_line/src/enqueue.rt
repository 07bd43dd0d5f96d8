//! The two ways to request a line that the stress run uses: one call, or two calls with a pause between them.
ghost use Rattle.std.specs.Prelude.{◌≡◌, ◌⊎◌, IsTrue};
ghost use Rattle.qolb_model.specs.PortStates.{may_ask};
ghost use Rattle.qolb_model.specs.AtTurn.{IsGranted};

use crate::law::NonDecreasing;
use line_generic::{Line, Port, SplitEnqueue, WakePolicy};
use qolb_model::{Enq, LineSync, PortState, Prep};
use rand::RngExt;
use rand_xoshiro::Xoshiro256PlusPlus;
use std::hint::spin_loop;
use std::sync::atomic::{AtomicU64, Ordering};
use std::thread::yield_now;

/// A way to request a line.
pub trait EnqueueStrategy<L: LineSync<NonDecreasing>> {
    /// Requests the line. Returns what `enqolb` returns.
    fn ask(&self, line: &L, port: &mut L::Port, rng: &mut Xoshiro256PlusPlus) -> Enq
        requires belongs { L.belongs line.now port.old }
        requires state { IsTrue (may_ask (L.view port.old).state) }
        ensures belongs { L.belongs line.now port.new }
        ensures granted { result ≡ Enq.Granted → IsGranted (L.view port.new) (L.turn port.new) }
        ensures queued { result ≡ Enq.Queued → (L.view port.new).state ≡ PortState.Queued }
        ensures ended { (result ≡ Enq.Busy) ⊎ (result ≡ Enq.Closed)
            → IsTrue (may_ask (L.view port.new).state) };

    /// Returns how many requests found the line waiting when they linked, left there by a release that did not wait for
    /// the link.
    fn late_links(&self) -> u64;
}

/// Makes each request with one call, on any line.
#[derive(Clone, Copy)]
pub struct AtOnce;

impl<L: LineSync<NonDecreasing>> EnqueueStrategy<L> for AtOnce {
    fn ask(&self, line: &L, port: &mut L::Port, _rng: &mut Xoshiro256PlusPlus) -> Enq {
        line.enqolb(port)
    }

    fn late_links(&self) -> u64 {
        0
    }
}

/// Makes each request with the two calls `prepend` and `link`, on a link line. Between the two calls, other nodes
/// release, ask and withdraw.
#[derive(Drop)]
pub struct TwoCalls {
    late: AtomicU64,
}

impl TwoCalls {
    /// The requests by two calls, none of which has found the line waiting yet.
    pub fn new() -> TwoCalls {
        TwoCalls {
            late: AtomicU64::new(0),
        }
    }
}

impl<Q: SplitEnqueue<NonDecreasing>, W: WakePolicy> EnqueueStrategy<Line<NonDecreasing, Q, W>>
    for TwoCalls {
    fn ask(
        &self,
        line: &Line<NonDecreasing, Q, W>,
        port: &mut Port<Q, W>,
        rng: &mut Xoshiro256PlusPlus,
    ) -> Enq {
        match line.prepend(port) {
            Prep::Granted => Enq::Granted,
            Prep::Busy => Enq::Busy,
            Prep::Closed => Enq::Closed,
            Prep::Linking => {
                dawdle(rng);
                let answer = line.link(port);
                if answer != Enq::Queued {
                    self.late.fetch_add(1, Ordering::SeqCst);
                }
                answer
            }
        }
    }

    fn late_links(&self) -> u64 {
        self.late.load(Ordering::SeqCst)
    }
}

/// Yields the processor, or spins up to 63 times, at random.
fn dawdle(rng: &mut Xoshiro256PlusPlus) {
    if rng.random_ratio(1, 8) {
        yield_now();
    } else {
        for _ in 0..rng.random_range(0..64u64) {
            spin_loop();
        }
    }
}
