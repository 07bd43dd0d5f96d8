//! A counter that threads share in the first lane of a line. A thread acquires the line, adds 1 to the lane, and
//! releases the line.
ghost use Rattle.std.specs.Prelude.{◌≡◌, ◌⊎◌, ◌+◌, ◌*◌, ◌%◌, ◌^◌, IfSome, IsTrue, drop};
ghost use Rattle.line_lanes.specs.Lane.{lane_of};
ghost use Rattle.qolb_model.specs.PortStates.{may_ask};
ghost use Rattle.qolb_model.specs.Views.{bytes_of};
ghost use Rattle.qolb_model.specs.AtTurn.{IsGranted};
ghost use Rattle.qolb_model.specs.Releasing.{IsTold};
ghost use Rattle.qolb_model.specs.Sums.{KnowsOwnPlaces};
ghost use Rattle.example_line.specs.Counter.{Adds, HasAdded};

use line_blocking::scoped::{ScopedTask, run_scoped};
use line_blocking::{Got, acquire};
use line_lanes::{Line64, Mask, lane, with_lane};
use qolb_model::{Free, LineConfig, LineSync, OpenLine};
use std::alloc::Global;
use std::sync::Wait;
use std::thread::Threads;

/// All bytes of a line.
const WHOLE: Mask = Mask(0xffff_ffff_ffff_ffff);

/// Adds 1 to the first lane in the holder's turn.
pub fn add_one<L: LineSync<Free>>(port: &mut L::Port)
    requires { IsGranted (L.view port.old) (L.turn port.old) }
    ensures view { L.view port.new ≡ L.view port.old }
    ensures added { lane_of (L.turn port.new).bytes.bytes 0
        ≡ (lane_of (bytes_of (L.view port.old)) 0 + 1) % 2 ^ 64 }
    ensures others { drop 8 (L.turn port.new).bytes.bytes ≡ drop 8 (bytes_of (L.view port.old)) }
    ensures belongs { (line : L) → L.belongs line port.old → L.belongs line port.new }
{
    let held = *L::bytes(port);
    let more = lane(&held, 0).wrapping_add(1);
    L::write(port, WHOLE, &with_lane(&held, 0, more));
}

/// Adds 1 to the first lane `rounds` times, each time in a turn. Stops early only if the line is closed.
pub fn add<R: Wait, L: LineSync<Free>>(rt: &R, line: &L, port: &mut L::Port, rounds: u64)
    requires belongs { L.belongs line.now port.old }
    requires state { IsTrue (may_ask (L.view port.old).state) }
    ensures belongs { L.belongs line.now port.new }
    ensures state { IsTrue (may_ask (L.view port.new).state) }
    ensures asks { ((L.view port.new).count ≡ (L.view port.old).count + rounds)
        ⊎ IsTold (L.view port.new) }
    ensures adds { KnowsOwnPlaces (L.view port.old)
        → Adds rounds (L.view port.old) (L.view port.new) }
{
    for _round in 0..rounds {
        match acquire(rt, line, port) {
            Got::Granted => {
                add_one::<L>(port);
                line.deqolb(port);
            }
            Got::Closed => return,
        }
    }
}

/// The task of each thread: `rounds` additions.
#[derive(Drop)]
struct Rounds {
    rounds: u64,
}

impl<R: Wait, L: LineSync<Free>> ScopedTask<R, L, L::Port> for Rounds {
    type Output = L::Port;

    ghost pre = { λ _ line _ port. L.belongs line port × IsTrue (may_ask (L.view port).state)
        × ((L.view port).count ≡ 0) };

    ghost post = { λ work line _ port. L.belongs line port × IsTrue (may_ask (L.view port).state)
        × HasAdded work.rounds (L.view port) };

    fn work(&self, rt: &R, line: &L, _place: usize, port: L::Port) -> L::Port {
        let mut port = port;
        add(rt, line, &mut port, self.rounds);
        port
    }
}

/// Counts with `nodes` threads, each of which adds 1 `rounds` times.
///
/// Returns the number at the end, or `None` if the line, memory or a thread is refused. No addition is lost.
pub fn count<R: Threads + Wait + Sync, L: OpenLine<Free> + Sync + Drop>(
    rt: &R,
    alloc: Global,
    nodes: u64,
    rounds: u64,
) -> Option<u64>
where
    L::Port: Send + Drop,
    ensures { IfSome result (λ number. number ≡ (nodes * rounds) % 2 ^ 64) }
{
    let config = LineConfig {
        nodes,
        opening: Line64::zero(),
        lease: None,
    };
    let (line, ports) = L::open_with(alloc, 1, config).ok()?;
    let ports = run_scoped(rt, alloc, &Rounds { rounds }, &line, ports)?;
    let last = line.finish(alloc, ports).ok()?;
    Some(lane(&last, 0))
}
