//! Wraps a line so that its `poll` puts the calling thread to sleep until the node's turn may have come.
ghost use Rattle.std.specs.Prelude.{◌≡◌, map, All, IfOk, IfErr};
ghost use Rattle.qolb_model.specs.Finishing.{MayRefuse, IsFinished};

use crate::spin::{SPIN_LIMIT, short_pause};
use line_lanes::{Line64, Mask};
use qolb_model::{Enq, Keep, LineSync, Out, ParkingLine, Poll, PortState, Unfinished};
use std::alloc::Global;
use std::sync::Wait;
use std::time::Duration;

/// A line whose `poll` sleeps before it answers `Waiting`.
///
/// All other calls are those of the inner line. `poll` looks once. If the request waits, `poll` pauses 256 times,
/// sleeps until the node may be at its turn, and does not look again. Code that is written over `LineSync` therefore
/// sleeps between two looks without knowing it.
#[derive(Drop)]
pub struct ParkOnPoll<'r, R, L> {
    rt: &'r R,
    line: L,
}

impl<'r, R, L> ParkOnPoll<'r, R, L> {
    /// Wraps `line`. The waiters of the line then sleep through the runtime handle `rt`.
    pub fn new(rt: &'r R, line: L) -> ParkOnPoll<'r, R, L>
        ensures { result.line ≡ line }
    {
        ParkOnPoll { rt, line }
    }
}

impl<'r, R: Wait, K: Keep, L: ParkingLine<K>> LineSync<K> for ParkOnPoll<'r, R, L> {
    type Port = L::Port;

    ghost view = { L.view };

    ghost turn = { L.turn };

    ghost counters = { L.counters };

    ghost allowed_states = { L.allowed_states };

    ghost call_steps = { λ asleep. L.call_steps asleep.line };

    ghost max_steps = { λ asleep. L.max_steps asleep.line };

    ghost belongs = { λ asleep port. L.belongs asleep.line port };

    ghost label_of = { λ asleep. L.label_of asleep.line };

    ghost config_of = { λ asleep. L.config_of asleep.line };

    fn label(&self) -> u64 {
        self.line.label()
    }

    fn nodes(&self) -> u64 {
        self.line.nodes()
    }

    fn node(port: &L::Port) -> u64 {
        L::node(port)
    }

    fn state(port: &L::Port) -> PortState {
        L::state(port)
    }

    fn owns(&self, port: &L::Port) -> bool {
        self.line.owns(port)
    }

    fn bytes(port: &L::Port) -> &Line64 {
        L::bytes(port)
    }

    fn turns_left(&self, port: &L::Port) -> Option<u64> {
        self.line.turns_left(port)
    }

    fn write(port: &mut L::Port, mask: Mask, bytes: &Line64) {
        L::write(port, mask, bytes)
    }

    fn enqolb(&self, port: &mut L::Port) -> Enq {
        self.line.enqolb(port)
    }

    fn poll(&self, port: &mut L::Port) -> Poll {
        let found = self.line.poll(port);
        if found == Poll::Waiting {
            for _ in 0..SPIN_LIMIT {
                short_pause();
            }
            self.line.sleep(self.rt, port, Duration::MAX);
        }
        found
    }

    fn withdraw(&self, port: &mut L::Port) -> Out {
        self.line.withdraw(port)
    }

    fn is_clear(&self, port: &mut L::Port) -> bool {
        self.line.is_clear(port)
    }

    fn deqolb(&self, port: &mut L::Port) {
        self.line.deqolb(port)
    }

    fn shut(&self, port: &mut L::Port) {
        self.line.shut(port)
    }

    fn meet(&self, a: &mut L::Port, b: &mut L::Port) {
        self.line.meet(a, b)
    }

    fn finish(
        self,
        alloc: Global,
        ports: Vec<L::Port>,
    ) -> Result<Line64, Unfinished<ParkOnPoll<'r, R, L>, L::Port>>
        requires belongs { All (λ port. (L.view port).label ≡ L.label_of self.line
            → L.belongs self.line port) ports.items }
        ensures finished { IfOk result (λ line.
            IsFinished K.good K.allows (L.label_of self.entry.line) (L.config_of self.entry.line)
            (map L.view ports.items) line.bytes) }
        ensures why { IfErr result (λ back.
            MayRefuse (L.label_of self.entry.line) (L.config_of self.entry.line).nodes
            (map L.view ports.items) back.why) }
        ensures line { IfErr result (λ back. back.line ≡ self.entry) }
        ensures ports { IfErr result (λ back. back.ports.items ≡ ports.items) }
    {
        let ParkOnPoll { rt, line } = self;
        match line.finish(alloc, ports) {
            Ok(last) => Ok(last),
            Err(back) => Err(Unfinished {
                line: ParkOnPoll {
                    rt,
                    line: back.line,
                },
                ports: back.ports,
                why: back.why,
            }),
        }
    }

    ghost sound = { λ asleep port belongs. L.sound asleep.line port belongs };
}
