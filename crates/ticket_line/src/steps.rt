//! The atomic steps of the ticket line, except the step that frees a passed node (`free_passed`). Each step is one
//! sequentially consistent operation on one word. The operation has a type argument, called its *play*, which
//! determines how the step changes the ghost state.
//!
//! - A *node* is a user of the line. Each node has a *node word*, which is 0 until a release *frees* the node by
//!   setting this word. Once a node is freed, its withdrawn request is clear.
//! - A *seat* is a node's access to the shared table. The part `me.0` of a seat is the ghost state of the node, as a
//!   list with one element (`IsOfOneNode`). The part `me.1` contains the slot with the line while the seat has the
//!   line.
//! - A *cell* is the word on which a request waits. A cell contains the number of the ticket that was granted there
//!   last, or the number of a withdrawn ticket together with the number of its node.
//! - A *slot* contains the line's 64 bytes, and a flag that is set if the line is closed. Each cell has one slot, and
//!   the line is in the slot of the ticket whose turn it is.
//! - A request is *at its turn* once its cell is granted. Once a step of the request's node has found this grant, the
//!   node's seat *has* the line. The node's port *holds* the line only if the line is not closed.
//! - A release *passes* a withdrawn request if it keeps the line and continues from the cell of this request. Each
//!   grant ends the request at its turn. The first grant of a release ends the releasing node's own request, and each
//!   further grant ends a request that the release has passed.
//! - A node's last request is *clear* once no other node will use the node's word because of this request. From then
//!   on, the answer to the node's next request is not `Busy`.
//! - The `count` of a view is the number of requests that the node of the view has made.
ghost use Rattle.std.specs.Prelude.{◌≡◌, ◌∷◌, [], true, false};
ghost use Rattle.qolb_model.specs.Requests.{Has};
ghost use Rattle.qolb_model.specs.Views.{own};
ghost use Rattle.line_generic.specs.declared.table.Payload.{Payload};
ghost use Rattle.line_generic.specs.Steps.{IsSameSeat, IsSeatOf, HasNoSlot};
ghost use Rattle.line_cells.specs.Counting.{mask_for};
ghost use Rattle.ticket_line.specs.Layout.{word_count};
ghost use Rattle.line_cells.specs.Steps.{IsAt, ghost_of, SeatAdvances, TakesTicket, TellsIfClear, after_reset};
ghost use Rattle.ticket_line.specs.Steps.{IsSeatOfNode, KnowsNodes, own_ticket, SlotsAtGrant, IsStillQueued, IsAtTurn, IsRolled};
ghost use Rattle.line_cells.specs.declared.local.Point.TheVariants.{Idle, Queued, Rolled};
ghost use Rattle.ticket_line.specs.Calls.{MayGrant, HasGranted};

use crate::invariant::{SharedTable, TicketSeat};
use crate::layout::{cell_word, granted_word, is_granted, withdrawn_by, withdrawn_word};
use crate::plays::{Grant, Load, Roll};
use line_cells::{LoadNode, Reset, TICKET_WORD, TakeTicket, node_word};
use qolb_model::Keep;

/// Takes a ticket and returns it. This step is the linearization point of a request, because it puts the request into
/// the order.
pub(crate) fn take_ticket<K: Keep>(table: &SharedTable<K>, seat: &mut TicketSeat) -> u64
    requires table { IsSeatOf (word_count table.now.key.config.nodes) table.now.table_id seat.old }
    requires point { IsAt Idle seat.old }
    ensures keeps_slot { seat.new.me.1 ≡ seat.old.me.1 }
    ensures advances { SeatAdvances K.allows seat.old seat.new 1 }
    ensures ticket { result ≡ own_ticket seat.new }
    ensures takes_ticket { TakesTicket (ghost_of seat.old) (ghost_of seat.new) }
{
    table.fetch_add::<TakeTicket<K>>(seat, TICKET_WORD, 1)
}

/// Loads the ticket's cell. Returns `true` if the cell is granted to the ticket, whose request is then at its turn.
pub(crate) fn load<K: Keep>(
    table: &SharedTable<K>,
    seat: &mut TicketSeat,
    cell_mask: u64,
    ticket: u64,
) -> bool
    requires table { IsSeatOf (word_count table.now.key.config.nodes) table.now.table_id seat.old }
    requires point { IsAt Queued seat.old }
    requires mask_fits { cell_mask ≡ mask_for table.now.key.config.nodes }
    requires nodes { KnowsNodes table.now.key.config.nodes seat.old }
    requires no_slot { HasNoSlot seat.old }
    requires ticket { ticket ≡ own_ticket seat.old }
    ensures advances { SeatAdvances K.allows seat.old seat.new 1 }
    ensures count { (ghost_of seat.new).view.count ≡ (ghost_of seat.old).view.count }
    ensures queued { result ≡ false → HasNoSlot seat.new
        × IsStillQueued ticket (ghost_of seat.new) }
    ensures at_turn { result ≡ true → (y : Payload)
        × SlotsAtGrant table.now.key.config.nodes ticket seat.new y
        × IsAtTurn ticket (ghost_of seat.new) y }
{
    is_granted(
        table.load::<Load<K>>(seat, cell_word(table, cell_mask, ticket)),
        ticket,
    )
}

/// Swaps a withdrawal into the ticket's cell. This step is the linearization point of a withdrawal.
///
/// Returns `true` if the grant was there first. The request is then at its turn, and the cell's next grant, which has
/// another number, ignores what was swapped in. Returns `false` if the request is withdrawn.
pub(crate) fn roll<K: Keep>(
    table: &SharedTable<K>,
    seat: &mut TicketSeat,
    cell_mask: u64,
    ticket: u64,
    node: u64,
) -> bool
    requires seat { IsSeatOfNode table.now.key.config.nodes table.now.table_id node seat.old }
    requires point { IsAt Queued seat.old }
    requires mask_fits { cell_mask ≡ mask_for table.now.key.config.nodes }
    requires no_slot { HasNoSlot seat.old }
    requires ticket { ticket ≡ own_ticket seat.old }
    ensures advances { SeatAdvances K.allows seat.old seat.new 1 }
    ensures count { (ghost_of seat.new).view.count ≡ (ghost_of seat.old).view.count }
    ensures withdrawn { result ≡ false → HasNoSlot seat.new × IsRolled ticket (ghost_of seat.new) }
    ensures at_turn { result ≡ true → (y : Payload)
        × SlotsAtGrant table.now.key.config.nodes ticket seat.new y
        × IsAtTurn ticket (ghost_of seat.new) y }
{
    let found = table.swap::<Roll<K>>(
        seat,
        cell_word(table, cell_mask, ticket),
        withdrawn_word(ticket, node),
    );
    is_granted(found, ticket)
}

/// Ends the request at its turn, which is the caller's or one that it passes, and grants the ticket `next` in that
/// ticket's cell.
///
/// This step is the linearization point of an end. It returns 0 if `next` now has the line, whether or not a node has
/// taken that ticket. Otherwise it returns the node that had withdrawn it; the caller still has the line, and must pass
/// that request.
pub(crate) fn grant<K: Keep>(
    table: &SharedTable<K>,
    seat: &mut TicketSeat,
    cell_mask: u64,
    next: u64,
) -> u64
    requires { MayGrant table.now K.allows cell_mask next seat.old }
    ensures { HasGranted table.now K.allows next seat.old seat.new result }
{
    let found = table.swap::<Grant<K>>(seat, cell_word(table, cell_mask, next), granted_word(next));
    withdrawn_by(found, next)
}

/// Loads the node's own word. The word is not 0 if the node's withdrawn request was passed and the node was freed, so
/// that the request is clear.
pub(crate) fn load_node<K: Keep>(table: &SharedTable<K>, seat: &mut TicketSeat, node: u64) -> u64
    requires seat { IsSeatOfNode table.now.key.config.nodes table.now.table_id node seat.old }
    requires point { IsAt Rolled seat.old }
    ensures keeps_slot { seat.new.me.1 ≡ seat.old.me.1 }
    ensures advances { SeatAdvances K.allows seat.old seat.new 1 }
    ensures tells { TellsIfClear (ghost_of seat.old) result (ghost_of seat.new) }
{
    table.load::<LoadNode<K>>(seat, node_word(node))
}

/// Sets the node's own word back to 0, before its next request.
pub(crate) fn reset<K: Keep>(table: &SharedTable<K>, seat: &mut TicketSeat, node: u64)
    requires seat { IsSeatOfNode table.now.key.config.nodes table.now.table_id node seat.old }
    requires point { IsAt Rolled seat.old }
    requires clear { Has (ghost_of seat.old).view.clear (own (ghost_of seat.old).view) }
    ensures seat { IsSameSeat seat.old seat.new }
    ensures reset { seat.new.me ≡ (after_reset (ghost_of seat.old) ∷ [], seat.old.me.1) }
{
    table.store::<Reset>(seat, node_word(node), 0);
}
