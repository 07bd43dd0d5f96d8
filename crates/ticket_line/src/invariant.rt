//! The type `TicketQueue`, which represents the queue algorithm of the ticket line. This file also defines the ghost
//! state and the invariant of the queue algorithm.
ghost use Rattle.ticket_line.specs.Slots as slots;
ghost use Rattle.line_cells.specs.Layout.{ticket_of};
ghost use Rattle.line_cells.specs.Counting.{cells_for};
ghost use Rattle.line_cells.specs.BetweenCalls as between_calls;
ghost use Rattle.line_cells.proofs.PortModel as port_model;
ghost use Rattle.ticket_line.specs.Laws as laws;
ghost use Rattle.ticket_line.specs.Layout as layout;

use line_cells::Local;
use line_generic::{DisciplineInvariant, DisciplineSpec, LineSeat, Parking};
use qolb_model::Keep;

/// A partitioned ticket lock (Dice 2011) that also hands over the line. Nodes can withdraw their requests.
///
/// Nodes take tickets, and each node waits on a cell of its own for its ticket's number. The invariant says: (1) The
/// requests form one order, and a prefix of them has ended. (2) While no node has the line, its bytes after those ends
/// are in the slot of the request at its turn, and that request's cell is granted to it. (3) A later cell has the
/// number of an earlier ticket, or its own number together with the node that withdrew there. Cells are never cleared.
/// Each port's view is a prefix of this history. A node has at most one open request, so there are always more cells
/// than open requests.
pub struct TicketQueue;

impl DisciplineSpec for TicketQueue {
    type Local = Local;

    ghost phases = { between_calls.phases ticket_of slots.slots_at_grant slots.slots_in_turn
        slots.slots_at_release };

    ghost wait_word = { between_calls.wait_word cells_for };

    ghost wake_word = { between_calls.wake_word ticket_of cells_for };

    ghost signals_turn = { layout.signals_turn };

    ghost allowed_states = { between_calls.allowed_states };

    ghost enqueue_steps = { between_calls.enqueue_steps };

    ghost release_steps = { between_calls.release_steps 2 };

    ghost max_steps = { between_calls.max_steps 2 };

    ghost starts_idle = { port_model.starts_idle ticket_of };

    ghost in_state_allowed = { port_model.in_state_allowed ticket_of };

    ghost holding_allowed = { port_model.holding_allowed };

    ghost holder_waits_there = { port_model.holder_waits_there ticket_of cells_for };

    ghost closed_waits_there = { port_model.closed_waits_there ticket_of cells_for };

    ghost max_steps_positive = { laws.max_steps_positive };

    ghost max_steps_fits = { laws.max_steps_fits };
}

impl<K: Keep> DisciplineInvariant<K> for TicketQueue {
    ghost use Rattle.ticket_line.specs.Ticket.{TicketRule};

    ghost holds = { TicketRule K.good K.allows };
}

/// A line whose nodes queue by partitioned tickets.
pub type TicketLine<K, W = Parking> = line_generic::Line<K, TicketQueue, W>;

/// The port of a node of a `TicketLine`.
pub type Port<W = Parking> = line_generic::Port<TicketQueue, W>;

/// The table of a ticket line, as all its nodes share it.
pub(crate) type SharedTable<K> = line_generic::SharedTable<K, TicketQueue>;

/// A seat of the table.
pub(crate) type TicketSeat = LineSeat<Local>;
