//! The type `RingQueue`, which represents the queue algorithm of the ring. This file also defines the ghost state and
//! the invariant of the queue algorithm.
ghost use Rattle.line_generic.specs.Slots.{in_single_slot, open_in_single_slot};
ghost use Rattle.ring_line.specs.Layout.{cell_of};
ghost use Rattle.line_cells.specs.declared.layout.TheConstants.{CELLS};
ghost use Rattle.line_cells.specs.BetweenCalls as between_calls;
ghost use Rattle.line_cells.proofs.PortModel as port_model;
ghost use Rattle.ring_line.specs.Laws as laws;
ghost use Rattle.ring_line.specs.Layout as layout;

use line_cells::Local;
use line_generic::{DisciplineInvariant, DisciplineSpec, LineSeat, Parking};
use qolb_model::Keep;

/// An array queue lock (Anderson 1990) that also hands over the line. Nodes can withdraw their requests.
///
/// Nodes take tickets, and each node waits on a cell of its own. The invariant says: (1) The requests form one order,
/// and a prefix of them has ended. (2) While no node has the line, its bytes after those ends are in the slot, and the
/// cell of the request at its turn is granted. (3) A later cell is blank, or has the number of the node that withdrew
/// there. Each port's view is a prefix of this history. A node has at most one open request, so there are always more
/// cells than open requests.
pub struct RingQueue;

impl DisciplineSpec for RingQueue {
    type Local = Local;

    ghost phases = { between_calls.phases cell_of (λ _. in_single_slot) (λ _. open_in_single_slot)
        (λ _. in_single_slot) };

    ghost wait_word = { between_calls.wait_word (λ _. CELLS) };

    ghost wake_word = { between_calls.wake_word cell_of (λ _. CELLS) };

    ghost signals_turn = { layout.signals_turn };

    ghost allowed_states = { between_calls.allowed_states };

    ghost enqueue_steps = { between_calls.enqueue_steps };

    ghost release_steps = { between_calls.release_steps 3 };

    ghost max_steps = { between_calls.max_steps 3 };

    ghost starts_idle = { port_model.starts_idle cell_of };

    ghost in_state_allowed = { port_model.in_state_allowed cell_of };

    ghost holding_allowed = { port_model.holding_allowed };

    ghost holder_waits_there = { port_model.holder_waits_there cell_of (λ _. CELLS) };

    ghost closed_waits_there = { port_model.closed_waits_there cell_of (λ _. CELLS) };

    ghost max_steps_positive = { laws.max_steps_positive };

    ghost max_steps_fits = { laws.max_steps_fits };
}

impl<K: Keep> DisciplineInvariant<K> for RingQueue {
    ghost use Rattle.ring_line.specs.Ring.{RingRule};

    ghost holds = { RingRule K.good K.allows };
}

/// A line whose nodes queue by tickets in a ring of cells.
pub type RingLine<K, W = Parking> = line_generic::Line<K, RingQueue, W>;

/// The port of a node of a `RingLine`.
pub type Port<W = Parking> = line_generic::Port<RingQueue, W>;

/// The table of a ring, as all its nodes share it.
pub(crate) type SharedTable<K> = line_generic::SharedTable<K, RingQueue>;

/// A seat of the table.
pub(crate) type RingSeat = LineSeat<Local>;
