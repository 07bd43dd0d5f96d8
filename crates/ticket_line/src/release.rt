//! Releases the line. This file also contains what a node with a withdrawn request does before its next request.
ghost use Rattle.std.specs.Prelude.{◌≡◌, ◌≢◌, ◌+◌, ◌*◌};
ghost use Rattle.qolb_model.specs.declared.config.TheConstants.{MAX_NODES};
ghost use Rattle.line_cells.specs.Steps.{IsAt, ghost_of, SeatAdvances};
ghost use Rattle.line_cells.specs.Releases.{TriesReset, steps_to_reset};
ghost use Rattle.ticket_line.specs.Steps.{IsSeatOfNode};
ghost use Rattle.line_cells.specs.declared.local.Point.TheVariants.{Idle, Rolled};
ghost use Rattle.line_generic.specs.Calls.{MayTake};
ghost use Rattle.line_cells.specs.Counting.{mask_for};
ghost use Rattle.ticket_line.specs.Calls.{phases, HasCopied, IsReleaser, HasReleased, MayWalk, HasWalked, MayFreeAll, HasFreedAll};

use crate::invariant::{SharedTable, TicketSeat};
use crate::layout::{slot_of, ticket_after};
use crate::steps::{grant, load_node, reset};
use arrayvec::ArrayVec;
use line_cells::{FreeNode, is_freed, node_word};
use qolb_model::{Keep, MAX_NODES, PortState};

/// The maximum number of requests that a release passes: one for each node except its own.
const MAX_PASSED: usize = MAX_NODES as usize - 1;

/// The outcome of a release: the atomic steps taken, and the ticket that has the line now. The node of that ticket may
/// be parked, or may not have made its request yet.
#[derive(Clone, Copy)]
pub(crate) struct Handoff {
    pub(crate) steps: u64,
    pub(crate) ticket: u64,
}

/// Sets the node's own word back to 0 for a new request, if the last one is clear.
///
/// Returns the atomic steps taken. They are `Some(0)` if the last request was not withdrawn or there was none, and
/// `Some(2)` if it was withdrawn and is clear. The call returns `None`, after one step, if the last request is not
/// clear yet.
#[inline]
pub(crate) fn try_reset<K: Keep>(
    table: &SharedTable<K>,
    seat: &mut TicketSeat,
    node: u64,
    state: PortState,
) -> Option<u64>
    requires seat { IsSeatOfNode table.now.key.config.nodes table.now.table_id node seat.old }
    requires rolled { state ≡ PortState.Rolled → IsAt Rolled seat.old }
    requires idle { state ≢ PortState.Rolled → IsAt Idle seat.old }
    ensures keeps_slot { seat.new.me.1 ≡ seat.old.me.1 }
    ensures advances { SeatAdvances K.allows seat.old seat.new (steps_to_reset result) }
    ensures is_reset { TriesReset state (ghost_of seat.old) (ghost_of seat.new) result }
{
    if state != PortState::Rolled {
        return Some(0);
    }
    if !is_freed(load_node(table, seat, node)) {
        return None;
    }
    reset(table, seat, node);
    Some(2)
}

/// Grants the next ticket. The caller has already put the line into the slot of that ticket.
///
/// The release takes one atomic step if the successor has not withdrawn, and two more, with a copy of the line, for
/// each passed request. It takes at most `2 * nodes - 1` atomic steps, and does not block.
#[inline]
pub(crate) fn release<K: Keep>(
    table: &SharedTable<K>,
    seat: &mut TicketSeat,
    cell_mask: u64,
    ticket: u64,
) -> Handoff
    requires { IsReleaser table.now K.allows cell_mask ticket seat.old }
    ensures { HasReleased table.now K.allows ticket seat.old seat.new result }
{
    let next = ticket_after(ticket);
    let node = grant(table, seat, cell_mask, next);
    if node != 0 {
        let walked = walk(table, seat, cell_mask, next, node);
        Handoff {
            steps: 1 + walked.steps,
            ticket: walked.ticket,
        }
    } else {
        Handoff {
            steps: 1,
            ticket: next,
        }
    }
}

/// Passes withdrawn requests, up to the first ticket that is not withdrawn, taken or not, and frees their nodes.
///
/// The first of these requests, `ticket` of `node`, was granted before this call and found withdrawn. The call takes
/// two atomic steps for each passed request: the next grant, and the freeing.
///
/// The function is cold and not inlined, because it has an array of the passed nodes, which a release without withdrawn
/// successors should not set up.
#[cold]
#[inline(never)]
fn walk<K: Keep>(
    table: &SharedTable<K>,
    seat: &mut TicketSeat,
    cell_mask: u64,
    ticket: u64,
    node: u64,
) -> Handoff
    requires { MayWalk table.now cell_mask ticket node seat.old }
    ensures { HasWalked K.allows seat.old seat.new result }
{
    let mut passed = ArrayVec::<u64, MAX_PASSED>::new();
    let mut ticket = ticket;
    let mut node = node;
    while node != 0 {
        passed.push(node);
        copy_to_next_slot(table, seat, cell_mask, ticket);
        ticket = ticket_after(ticket);
        node = grant(table, seat, cell_mask, ticket);
    }
    // The nodes are freed only now. A freed node may request again, so a walk that freed nodes early might pass such a
    // node again and again.
    free_passed(table, seat, &passed);
    Handoff {
        steps: 2 * passed.len() as u64,
        ticket,
    }
}

/// Copies the line unchanged from the ticket's slot to the next one, for a request that is passed or answered `Closed`.
pub(crate) fn copy_to_next_slot<K: Keep>(
    table: &SharedTable<K>,
    seat: &mut TicketSeat,
    cell_mask: u64,
    ticket: u64,
)
    requires { MayTake phases mask_for table.now cell_mask ticket seat.old }
    ensures { HasCopied table.now ticket seat.old seat.new }
{
    let line = seat
        .slot_mut(table, slot_of(table, cell_mask, ticket))
        .again();
    seat.turn();
    *seat.slot_mut(table, slot_of(table, cell_mask, ticket_after(ticket))) = line;
}

/// Frees the nodes of all passed requests, in their order. Takes one atomic step for each.
fn free_passed<K: Keep>(table: &SharedTable<K>, seat: &mut TicketSeat, nodes: &[u64])
    requires { MayFreeAll table.now nodes.now seat.old }
    ensures { HasFreedAll K.allows nodes.now seat.old seat.new }
{
    for node in nodes {
        table.store::<FreeNode<K>>(seat, node_word(*node), 1);
    }
}
