//! Measures a line: each thread repeatedly acquires the line, adds 1 to its first lane, and releases it.
ghost use Rattle.std.specs.Prelude.{◌≡◌, IsTrue};
ghost use Rattle.qolb_model.specs.PortStates.{may_ask};
ghost use Rattle.qolb_model.specs.AtTurn.{IsGranted};
ghost use Rattle.qolb_model.specs.Kept.{MayRelease};
ghost use Rattle.bench_line.specs.NonDecreasing.{Rises};

use crate::law::NonDecreasing;
use crate::workers::Task;
use line_blocking::{Got, acquire};
use line_lanes::{Line64, Mask, lane, with_lane};
use qolb_model::{LineSync, PortState};
use std::rt::Clock;
use std::sync::Wait;

/// The first lane.
const FIRST_LANE: Mask = Mask(0xff);

/// The task of each node: `rounds` rounds, or fewer if the line is closed.
#[derive(Clone, Copy)]
pub struct Rounds {
    pub rounds: u64,
}

impl<L: LineSync<NonDecreasing>> Task<L> for Rounds {
    fn work<R: Wait + Clock>(&self, rt: &R, line: &L, port: L::Port) -> L::Port {
        let mut port = port;
        for _ in 0..self.rounds {
            match acquire(rt, line, &mut port) {
                Got::Granted => {
                    add_one::<L>(&mut port);
                    line.deqolb(&mut port);
                }
                Got::Closed => break,
            }
        }
        port
    }
}

/// Adds 1 to the first lane in the holder's turn. A lane at its largest value stays there, because the data invariant
/// forbids that it decreases.
pub fn add_one<L: LineSync<NonDecreasing>>(port: &mut L::Port)
    requires { IsGranted (L.view port.old) (L.turn port.old) }
    ensures view { L.view port.new ≡ L.view port.old }
    ensures allowed { MayRelease Rises (L.view port.new) (L.turn port.new) }
    ensures belongs { (line : L) → L.belongs line port.old → L.belongs line port.new }
{
    let held = L::bytes(port);
    let next = with_lane(held, 0, lane(held, 0).saturating_add(1));
    L::write(port, FIRST_LANE, &next);
}
