//! Releases the line. The holder clears its cell and grants the next cell. If the request at that cell is withdrawn,
//! the release skips the request and continues from there.
ghost use Rattle.std.specs.Prelude.{◌≡◌, ◌≢◌, ◌+◌, [], length};
ghost use Rattle.qolb_model.specs.declared.config.TheConstants.{MAX_NODES};
ghost use Rattle.line_generic.specs.Steps.{IsSeatOf};
ghost use Rattle.ring_line.specs.Layout.{word_count};
ghost use Rattle.line_cells.specs.Steps.{IsAt, ghost_of, SeatAdvances};
ghost use Rattle.line_cells.specs.Releases.{TriesReset, steps_to_reset, AreNodesAt, FreesAll};
ghost use Rattle.ring_line.specs.Calls.{IsReleaser, HasReleased, MayWalk, HasWalked};
ghost use Rattle.ring_line.specs.Steps.{IsSeatOfNode};
ghost use Rattle.line_cells.specs.declared.local.Point.TheVariants.{Idle, Freeing, Rolled};

use crate::invariant::{RingSeat, SharedTable};
use crate::layout::{cell_after, is_withdrawn, withdrawn_by};
use crate::steps::{clear, free, grant, load_node, reset};
use arrayvec::ArrayVec;
use line_cells::is_freed;
use qolb_model::{Keep, MAX_NODES, PortState};

/// The maximum number of requests that a release passes: one for each node except its own.
const MAX_PASSED: usize = MAX_NODES as usize - 1;

/// A release has room for the nodes of all requests that it may pass, and for no more. This theorem is the contract of
/// a function that does nothing.
pub fn passed_nodes_have_room()
    ensures { MAX_PASSED + 1 ≡ MAX_NODES }
{}

/// The outcome of a release: the atomic steps taken, and the cell that was granted last. The request there is at its
/// turn; its node may be parked, or may not have made the request yet.
#[derive(Clone, Copy)]
pub(crate) struct Handoff {
    pub(crate) steps: u64,
    pub(crate) cell: u64,
}

/// Sets the node's own word back to 0 for a new request, if the last one is clear.
///
/// Returns the atomic steps taken. They are `Some(0)` if the last request was not withdrawn or there was none, and
/// `Some(2)` if it was withdrawn and is clear. The call returns `None`, after one step, if the last request is not
/// clear yet.
#[inline]
pub(crate) fn try_reset<K: Keep>(
    table: &SharedTable<K>,
    seat: &mut RingSeat,
    node: u64,
    state: PortState,
) -> Option<u64>
    requires seat { IsSeatOfNode table.now.key.config.nodes table.now.table_id node seat.old }
    requires rolled { state ≡ PortState.Rolled → IsAt Rolled seat.old }
    requires idle { state ≢ PortState.Rolled → IsAt Idle seat.old }
    ensures keeps_slot { seat.new.me.1 ≡ seat.old.me.1 }
    ensures advances { SeatAdvances K.allows seat.old seat.new (steps_to_reset result) }
    ensures is_reset { TriesReset state (ghost_of seat.old) (ghost_of seat.new) result }
{
    if state != PortState::Rolled {
        return Some(0);
    }
    if !is_freed(load_node(table, seat, node)) {
        return None;
    }
    reset(table, seat, node);
    Some(2)
}

/// Gives the line to the next request that is not withdrawn, whether or not that request was already made.
///
/// The release takes two atomic steps, and three more for each passed request. It does not block.
#[inline]
pub(crate) fn release<K: Keep>(table: &SharedTable<K>, seat: &mut RingSeat, cell: u64) -> Handoff
    requires { IsReleaser K.allows table.now.table_id cell seat.old }
    ensures { HasReleased K.allows seat.old seat.new result }
{
    // Cleared before the next cell is granted: after the grant a later ticket may come round to this cell.
    clear(table, seat, cell);
    let found = grant(table, seat, cell);
    if is_withdrawn(found) {
        let walked = walk(table, seat, cell_after(cell), found);
        Handoff {
            steps: 2 + walked.steps,
            cell: walked.cell,
        }
    } else {
        Handoff {
            steps: 2,
            cell: cell_after(cell),
        }
    }
}

/// Passes withdrawn requests, up to the first cell without a withdrawal, and frees their nodes. Takes three atomic
/// steps for each request.
///
/// The function is cold and not inlined, because it has an array of the passed nodes, which a release without withdrawn
/// successors should not set up.
#[cold]
#[inline(never)]
fn walk<K: Keep>(table: &SharedTable<K>, seat: &mut RingSeat, cell: u64, found: u64) -> Handoff
    requires { MayWalk table.now.table_id cell found seat.old }
    ensures { HasWalked K.allows seat.old seat.new result }
{
    let mut passed = ArrayVec::<u64, MAX_PASSED>::new();
    let mut cell = cell;
    let mut found = found;
    while is_withdrawn(found) {
        passed.push(withdrawn_by(found));
        clear(table, seat, cell);
        found = grant(table, seat, cell);
        cell = cell_after(cell);
    }
    // The nodes are freed only now. A freed node may request again, so a walk that freed nodes early might pass such a
    // node again and again.
    free_passed(table, seat, &passed);
    Handoff {
        steps: 3 * passed.len() as u64,
        cell,
    }
}

/// Frees the nodes of all passed requests, in their order.
fn free_passed<K: Keep>(table: &SharedTable<K>, seat: &mut RingSeat, nodes: &[u64])
    requires table { IsSeatOf word_count table.now.table_id seat.old }
    requires point { IsAt Freeing seat.old }
    requires not_empty { (ghost_of seat.old).own.passed ≢ [] }
    requires same_length { length nodes.now ≡ length (ghost_of seat.old).own.passed }
    requires nodes { AreNodesAt (ghost_of seat.old).view (ghost_of seat.old).own.passed nodes.now }
    ensures keeps_slot { seat.new.me.1 ≡ seat.old.me.1 }
    ensures advances { SeatAdvances K.allows seat.old seat.new (length nodes.now) }
    ensures frees { FreesAll (ghost_of seat.old) (ghost_of seat.new) }
{
    for node in nodes {
        free(table, seat, *node);
    }
}
