//! An example of a program with a data invariant of its own: clerks in several threads sell seats, and no schedule of
//! the threads sells more than `SEATS` seats.
ghost use Rattle.std.specs.Prelude.{◌≡◌, ◌*◌, ◌≤◌, IfSome, IsTrue, drop, min};
ghost use Rattle.line_lanes.specs.Lane.{lane_of};
ghost use Rattle.qolb_model.specs.PortStates.{may_ask};
ghost use Rattle.qolb_model.specs.Views.{bytes_of};
ghost use Rattle.qolb_model.specs.AtTurn.{IsGranted};
ghost use Rattle.qolb_model.specs.Kept.{MayRelease};
ghost use Rattle.qolb_model.specs.Sums.{KnowsOwnPlaces};
ghost use Rattle.example_line.specs.Seats.{IsWithin, StaysWithin, sold_after, Serves, HasServed};

use line_blocking::scoped::{ScopedTask, run_scoped};
use line_blocking::{Got, acquire};
use line_lanes::{Line64, Mask, lane, with_lane};
use qolb_model::{Keep, LineConfig, LineSync, OpenLine};
use std::alloc::Global;
use std::sync::Wait;
use std::thread::Threads;

/// The number of seats that can be sold.
pub const SEATS: u64 = 100;

/// All bytes of a line. The first lane counts the seats that are sold.
const WHOLE: Mask = Mask(0xffff_ffff_ffff_ffff);

/// The data invariant that at most `SEATS` seats are sold.
pub struct SeatLimit;

impl Keep for SeatLimit {
    ghost good = { IsWithin };

    ghost allows = { StaysWithin };

    ghost stays_good = { λ old new within stays. stays within };

    ghost allows_same = { λ bytes _ within. within };
}

/// Sells one seat in the holder's turn, unless all are sold.
fn sell_one<L: LineSync<SeatLimit>>(port: &mut L::Port)
    requires { IsGranted (L.view port.old) (L.turn port.old) }
    ensures view { L.view port.new ≡ L.view port.old }
    ensures sold { lane_of (L.turn port.new).bytes.bytes 0
        ≡ sold_after (lane_of (bytes_of (L.view port.old)) 0) }
    ensures others { drop 8 (L.turn port.new).bytes.bytes ≡ drop 8 (bytes_of (L.view port.old)) }
    ensures allowed { MayRelease StaysWithin (L.view port.new) (L.turn port.new) }
    ensures belongs { (line : L) → L.belongs line port.old → L.belongs line port.new }
{
    let held = *L::bytes(port);
    let sold = lane(&held, 0);
    if sold < SEATS {
        L::write(port, WHOLE, &with_lane(&held, 0, sold + 1));
    }
}

/// Serves `customers` customers, each in one turn of the line, unless the port is told that the line is closed.
fn serve<R: Wait, L: LineSync<SeatLimit>>(rt: &R, line: &L, port: &mut L::Port, customers: u64)
    requires belongs { L.belongs line.now port.old }
    requires state { IsTrue (may_ask (L.view port.old).state) }
    ensures belongs { L.belongs line.now port.new }
    ensures state { IsTrue (may_ask (L.view port.new).state) }
    ensures serves { KnowsOwnPlaces (L.view port.old)
        → Serves customers (L.view port.old) (L.view port.new) }
{
    for _customer in 0..customers {
        match acquire(rt, line, port) {
            Got::Granted => {
                sell_one::<L>(port);
                line.deqolb(port);
            }
            Got::Closed => return,
        }
    }
}

/// The task of a thread: a clerk that serves `customers` customers.
#[derive(Drop)]
struct Clerk {
    customers: u64,
}

impl<R: Wait, L: LineSync<SeatLimit>> ScopedTask<R, L, L::Port> for Clerk {
    type Output = L::Port;

    ghost pre = { λ _ line _ port. L.belongs line port × IsTrue (may_ask (L.view port).state)
        × ((L.view port).count ≡ 0) };

    ghost post = { λ clerk line _ port. L.belongs line port × IsTrue (may_ask (L.view port).state)
        × HasServed clerk.customers (L.view port) };

    fn work(&self, rt: &R, line: &L, _place: usize, port: L::Port) -> L::Port {
        let mut port = port;
        serve(rt, line, &mut port, self.customers);
        port
    }
}

/// Sells seats with `clerks` threads, each to `customers` customers.
///
/// Returns the number of seats sold, or `None` if the line, memory or a thread is refused. A seat is sold to each
/// customer, while there are seats.
pub fn sell<R: Threads + Wait + Sync, L: OpenLine<SeatLimit> + Sync + Drop>(
    rt: &R,
    alloc: Global,
    clerks: u64,
    customers: u64,
) -> Option<u64>
where
    L::Port: Send + Drop,
    ensures limit { IfSome result (λ sold. sold ≤ SEATS) }
    ensures least { IfSome result (λ sold. sold ≡ min SEATS (clerks * customers)) }
{
    let config = LineConfig {
        nodes: clerks,
        opening: Line64::zero(),
        lease: None,
    };
    let (line, ports) = L::open_with(alloc, 1, config).ok()?;
    let ports = run_scoped(rt, alloc, &Clerk { customers }, &line, ports)?;
    let last = line.finish(alloc, ports).ok()?;
    Some(lane(&last, 0))
}
