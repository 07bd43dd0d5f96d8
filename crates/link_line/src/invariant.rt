//! The type `LinkQueue`, which represents the queue algorithm of the link line. This file also defines the ghost state
//! and the invariant of the queue algorithm.
ghost use Rattle.link_line.specs.Laws.PortModel as port_model;
ghost use Rattle.link_line.specs.BetweenCalls as between_calls;
ghost use Rattle.link_line.specs.Layout as layout;

use crate::local::LinkLocal;
use line_generic::{DisciplineInvariant, DisciplineSpec, Line, LineSeat, NodeGhost, Parking};
use qolb_model::Keep;
use std::collections::LinkedList;

/// A queue lock whose queue is a linked list, as in an MCS lock. A node links itself to its predecessor.
///
/// A request is one swap of the home word, which names the newest requester. Later the requester links itself: it adds
/// its number to the predecessor's entry. A release looks at its own entry once and never waits for the link. If the
/// link is missing, the release leaves the line there with a flag, and the late linker takes it. Between any two atomic
/// steps the table shows one history of the line: an order of requests, and the ends of a prefix of them. Each port's
/// view is a prefix of this history. A port's token is the predecessor's node, to which its request must still be
/// linked.
pub struct LinkQueue;

impl DisciplineSpec for LinkQueue {
    type Local = LinkLocal;

    ghost phases = { between_calls.phases };

    ghost wait_word = { between_calls.wait_word };

    ghost wake_word = { between_calls.wake_word };

    ghost signals_turn = { layout.signals_turn };

    ghost allowed_states = { between_calls.allowed_states };

    ghost enqueue_steps = { between_calls.enqueue_steps };

    ghost release_steps = { between_calls.release_steps };

    ghost max_steps = { between_calls.max_steps };

    ghost starts_idle = { port_model.starts_idle };

    ghost in_state_allowed = { port_model.in_state_allowed };

    ghost holding_allowed = { port_model.holding_allowed };

    ghost holder_waits_there = { port_model.holder_waits_there };

    ghost closed_waits_there = { port_model.closed_waits_there };

    ghost max_steps_positive = { port_model.max_steps_positive };

    ghost max_steps_fits = { port_model.max_steps_fits };
}

/// The invariant says that the words and the slot are those of a core of `link_core`, which refines the queue machine
/// (a refinement mapping).
impl<K: Keep> DisciplineInvariant<K> for LinkQueue {
    ghost use Rattle.link_line.specs.Links.{LinkRule};

    ghost holds = { LinkRule K.good K.allows };
}

/// A line whose nodes queue in a list of links.
pub type LinkLine<K, W = Parking> = Line<K, LinkQueue, W>;

/// The port of a node of a `LinkLine`.
pub type Port<W = Parking> = line_generic::Port<LinkQueue, W>;

/// The table of a list, as all its nodes share it.
pub(crate) type SharedTable<K> = line_generic::SharedTable<K, LinkQueue>;

/// A seat of the table.
pub(crate) type LinkSeat = LineSeat<LinkLocal>;

/// The ghost states of a seat's nodes.
pub(crate) type NodeGhosts = LinkedList<NodeGhost<LinkLocal>>;
