//! A wrapper for a line. Whenever a call on the wrapped line is made, the wrapper also calls functions of the test,
//! which are called hooks.
ghost use Rattle.std.specs.Prelude.{◌≡◌, ◌≤◌, map, All, IfOk, IfErr};
ghost use Rattle.qolb_model.specs.Requests.{Lacks};
ghost use Rattle.qolb_model.specs.Views.{own};
ghost use Rattle.qolb_model.specs.Finishing.{MayRefuse, IsFinished};

use line_lanes::{Line64, Mask};
use qolb_model::{
    Enq, Keep, LineConfig, LineSync, OpenError, OpenLine, Out, ParkingLine, Poll, PortState,
    Unfinished,
};
use std::alloc::Global;
use std::sync::Wait;
use std::time::Duration;

/// The functions that a wrapped line calls in addition to its own calls, for tests and measurements.
///
/// A hook reads the line and the port, and changes neither. By default a hook does nothing, and `sleep` sleeps at the
/// line.
pub trait Hooks {
    /// Called after an `enqolb` that answered `Busy`: the port's last request is not clear.
    fn on_busy<K: Keep, L: ParkingLine<K>>(&self, line: &L, port: &L::Port)
        requires belongs { L.belongs line.now port.now }
        requires unclear { Lacks (L.view port.now).clear (own (L.view port.now)) }
    {
        let _ = line;
        let _ = port;
    }

    /// Called after a `poll` that answered `Waiting`.
    fn on_waiting<K: Keep, L: ParkingLine<K>>(&self, line: &L, port: &L::Port)
        requires belongs { L.belongs line.now port.now }
        requires state { (L.view port.now).state ≡ PortState.Queued }
        requires looked { 1 ≤ (L.counters port.now).poll_count }
    {
        let _ = line;
        let _ = port;
    }

    /// Called before `deqolb` and before `shut`, while the port still holds the line.
    fn on_release<K: Keep, L: ParkingLine<K>>(&self, line: &L, port: &L::Port)
        requires belongs { L.belongs line.now port.now }
        requires state { (L.view port.now).state ≡ PortState.Holding }
    {
        let _ = line;
        let _ = port;
    }

    /// Called in place of the line's `sleep`, which it calls by default.
    fn sleep<R: Wait, K: Keep, L: ParkingLine<K>>(
        &self,
        rt: &R,
        line: &L,
        port: &L::Port,
        at_most: Duration,
    )
        requires belongs { L.belongs line.now port.now }
        requires state { (L.view port.now).state ≡ PortState.Queued }
    {
        line.sleep(rt, port, at_most)
    }
}

/// A line with hooks. Each call on it makes the same call on the inner line, and also calls `hooks`.
#[derive(Drop)]
pub struct HookedLine<H, L> {
    hooks: H,
    line: L,
}

impl<H, L> HookedLine<H, L> {
    /// Wraps `line`, with these hooks.
    pub fn with(hooks: H, line: L) -> HookedLine<H, L>
        ensures { result.line ≡ line }
    {
        HookedLine { hooks, line }
    }
}

impl<H: Hooks + Drop, K: Keep, L: ParkingLine<K>> LineSync<K> for HookedLine<H, L> {
    type Port = L::Port;

    ghost view = { L.view };

    ghost turn = { L.turn };

    ghost counters = { L.counters };

    ghost allowed_states = { L.allowed_states };

    ghost call_steps = { λ hooked. L.call_steps hooked.line };

    ghost max_steps = { λ hooked. L.max_steps hooked.line };

    ghost belongs = { λ hooked port. L.belongs hooked.line port };

    ghost label_of = { λ hooked. L.label_of hooked.line };

    ghost config_of = { λ hooked. L.config_of hooked.line };

    fn label(&self) -> u64 {
        self.line.label()
    }

    fn nodes(&self) -> u64 {
        self.line.nodes()
    }

    fn node(port: &L::Port) -> u64 {
        L::node(port)
    }

    fn state(port: &L::Port) -> PortState {
        L::state(port)
    }

    fn owns(&self, port: &L::Port) -> bool {
        self.line.owns(port)
    }

    fn bytes(port: &L::Port) -> &Line64 {
        L::bytes(port)
    }

    fn turns_left(&self, port: &L::Port) -> Option<u64> {
        self.line.turns_left(port)
    }

    fn write(port: &mut L::Port, mask: Mask, bytes: &Line64) {
        L::write(port, mask, bytes)
    }

    fn enqolb(&self, port: &mut L::Port) -> Enq {
        let found = self.line.enqolb(port);
        if found == Enq::Busy {
            self.hooks.on_busy(&self.line, port);
        }
        found
    }

    fn poll(&self, port: &mut L::Port) -> Poll {
        let found = self.line.poll(port);
        if found == Poll::Waiting {
            self.hooks.on_waiting(&self.line, port);
        }
        found
    }

    fn withdraw(&self, port: &mut L::Port) -> Out {
        self.line.withdraw(port)
    }

    fn is_clear(&self, port: &mut L::Port) -> bool {
        self.line.is_clear(port)
    }

    fn deqolb(&self, port: &mut L::Port) {
        self.hooks.on_release(&self.line, port);
        self.line.deqolb(port)
    }

    fn shut(&self, port: &mut L::Port) {
        self.hooks.on_release(&self.line, port);
        self.line.shut(port)
    }

    fn meet(&self, a: &mut L::Port, b: &mut L::Port) {
        self.line.meet(a, b)
    }

    fn finish(
        self,
        alloc: Global,
        ports: Vec<L::Port>,
    ) -> Result<Line64, Unfinished<HookedLine<H, L>, L::Port>>
        requires belongs { All (λ port. (L.view port).label ≡ L.label_of self.line
            → L.belongs self.line port) ports.items }
        ensures finished { IfOk result (λ line.
            IsFinished K.good K.allows (L.label_of self.line) (L.config_of self.line)
            (map L.view ports.items) line.bytes) }
        ensures why { IfErr result (λ back.
            MayRefuse (L.label_of self.line) (L.config_of self.line).nodes
            (map L.view ports.items) back.why) }
        ensures line { IfErr result (λ back. back.line ≡ self) }
        ensures ports { IfErr result (λ back. back.ports.items ≡ ports.items) }
    {
        let HookedLine { hooks, line } = self;
        match line.finish(alloc, ports) {
            Ok(last) => Ok(last),
            Err(back) => Err(Unfinished {
                line: HookedLine {
                    hooks,
                    line: back.line,
                },
                ports: back.ports,
                why: back.why,
            }),
        }
    }

    ghost sound = { λ hooked port belongs. L.sound hooked.line port belongs };
}

impl<H: Hooks + Drop, K: Keep, L: ParkingLine<K>> ParkingLine<K> for HookedLine<H, L> {
    fn sleep<R: Wait>(&self, rt: &R, port: &L::Port, at_most: Duration) {
        self.hooks.sleep(rt, &self.line, port, at_most)
    }
}

impl<H: Hooks + Default + Drop, K: Keep, L: OpenLine<K> + ParkingLine<K>> OpenLine<K>
    for HookedLine<H, L> {
    fn open_with(
        alloc: Global,
        label: u64,
        config: LineConfig,
    ) -> Result<(HookedLine<H, L>, Vec<L::Port>), OpenError> {
        let (line, ports) = L::open_with(alloc, label, config)?;
        Ok((HookedLine::with(H::default(), line), ports))
    }
}
