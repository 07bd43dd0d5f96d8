//! A small complete program in which threads count together on a line. Each thread acquires the line, adds 1 to its
//! first lane, and releases the line to the next node.
#![tactic(auto)]

ghost use Rattle.std.specs.Prelude.{IsTrue};
ghost use Rattle.qolb_model.specs.PortStates.{may_ask};

use anyhow::Context;
use line_blocking::scoped::{ScopedTask, run_scoped};
use line_blocking::{Got, acquire};
use line_lanes::{Line64, Mask, lane, with_lane};
use qolb_model::{Free, LineConfig, LineSync, OpenLine};
use std::alloc::Global;
use std::sync::Wait;
use std::thread::Threads;
use ticket_line::TicketLine;

/// The bytes of the first lane.
const FIRST_LANE: Mask = Mask(0xff);

/// Adds 1 to the first lane `rounds` times, each time in a turn of the line.
fn add<R: Wait, L: LineSync<Free>>(rt: &R, line: &L, port: &mut L::Port, rounds: u64)
    requires belongs { L.belongs line.now port.old }
    requires state { IsTrue (may_ask (L.view port.old).state) }
    ensures belongs { L.belongs line.now port.new }
    ensures state { IsTrue (may_ask (L.view port.new).state) }
{
    for _ in 0..rounds {
        match acquire(rt, line, port) {
            Got::Granted => {
                let held = *L::bytes(port);
                let next = lane(&held, 0).wrapping_add(1);
                L::write(port, FIRST_LANE, &with_lane(&held, 0, next));
                line.deqolb(port);
            }
            Got::Closed => return,
        }
    }
}

/// The work of each thread.
#[derive(Drop)]
struct Rounds {
    rounds: u64,
}

impl<R: Wait, L: LineSync<Free>> ScopedTask<R, L, L::Port> for Rounds {
    type Output = L::Port;

    ghost pre = { λ _ line _ port. L.belongs line port × IsTrue (may_ask (L.view port).state) };

    ghost post = { λ _ line _ port. L.belongs line port × IsTrue (may_ask (L.view port).state) };

    fn work(&self, rt: &R, line: &L, _place: usize, port: L::Port) -> L::Port {
        let mut port = port;
        add(rt, line, &mut port, self.rounds);
        port
    }
}

/// Opens a line, runs a thread for each node, and returns the first lane at the end, or `None` if the line, memory or a
/// thread is refused.
fn count<R: Threads + Wait + Sync, L: OpenLine<Free> + Sync + Drop>(
    rt: &R,
    alloc: Global,
    nodes: u64,
    rounds: u64,
) -> Option<u64>
where
    L::Port: Send + Drop,
{
    let config = LineConfig {
        nodes,
        opening: Line64::zero(),
        lease: None,
    };
    let (line, ports) = L::open_with(alloc, 1, config).ok()?;
    let ports = run_scoped(rt, alloc, &Rounds { rounds }, &line, ports)?;
    let last = line.finish(alloc, ports).ok()?;
    Some(lane(&last, 0))
}

fn main(rt: HostRuntime) -> anyhow::Result<()> {
    let number = count::<HostRuntime, TicketLine<Free>>(&rt, rt.alloc(), 3, 1_000);
    let number = number.context("no memory or no thread")?;
    println!(rt; "{number}")?;
    Ok(())
}
