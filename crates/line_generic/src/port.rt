//! The port of a node. A port is the object through which the owner of a node calls the line.
ghost use Rattle.std.specs.Prelude.{◌≡◌, ◌↔◌, IsTrue};

use crate::discipline::DisciplineSpec;
use crate::sleepers::Parking;
use crate::table::{LineSeat, LocalCopy};
use crate::wake::WakePolicy;
use qolb_model::{LinePort, PollCount, PortState};
use std::marker::Model;

/// A node's port, which is the value through which the node's owner calls the line.
///
/// `payload` is the line if the port holds it, and otherwise the port's last copy. It is the first field, so that its
/// bytes are copied from an aligned place. `state` is the last field that exists at run time, because `poll_count` is
/// ghost state.
#[derive(Drop)]
pub struct Port<Q: DisciplineSpec, W: WakePolicy = Parking> {
    pub(crate) payload: LocalCopy,
    pub(crate) seat: LineSeat<Q::Local>,
    /// The number that the queue algorithm has stored for the last request.
    pub(crate) token: u64,
    pub(crate) label: u64,
    pub(crate) node: u64,
    /// The number of atomic steps of the last call.
    pub(crate) steps: u64,
    /// The words of the next holder, if the line's wake policy records them.
    pub(crate) note: W::Note,
    pub(crate) state: PortState,
    /// The number of polls, which is ghost state.
    pub(crate) poll_count: PollCount,
}

impl<Q: DisciplineSpec, W: WakePolicy> Model for Port<Q, W> {
    ghost use Rattle.line_generic.specs.Ports.{PortModel, port_model, IsPort};

    ghost Value = { PortModel };

    ghost view = { λ p. port_model Q.phases.initial p.seat p.payload p.steps p.poll_count.count
        p.token (W.went_to p.note) };

    ghost invariant = { λ p. IsPort Q.phases p.label p.node p.seat p.payload p.token p.state };
}

impl<Q: DisciplineSpec, W: WakePolicy> LinePort for Port<Q, W> {
    ghost view = { λ port. port.view };

    fn label(&self) -> u64 {
        self.label
    }

    fn node(&self) -> u64 {
        self.node
    }

    fn state(&self) -> PortState {
        self.state
    }
}

impl<Q: DisciplineSpec, W: WakePolicy> Port<Q, W> {
    /// Returns `true` if the port holds the line.
    #[inline]
    pub(crate) fn holds(&self) -> bool
        ensures { IsTrue result ↔ (self.now.view.state ≡ PortState.Holding) }
    {
        self.state == PortState::Holding
    }
}
