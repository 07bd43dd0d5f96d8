//! The atomic steps of the ring. Each step is one sequentially consistent operation on one word. The operation has a
//! type argument, called its *play*, which determines how the step changes the ghost state.
//!
//! - A *node* is a user of the line. Each node has a *node word*, which is 0 until a release *frees* the node by
//!   setting this word. Once a node is freed, its withdrawn request is clear.
//! - A *seat* is a node's access to the shared table. The part `me.0` of a seat is the ghost state of the node, as a
//!   list with one element (`IsOfOneNode`). The part `me.1` contains the slot while the seat has the line.
//! - A *cell* is the word on which a request waits. A cell contains 0, `GRANTED`, the product of `WITHDRAWN_UNIT` and
//!   the number of the node that withdrew there, or the sum of `GRANTED` and this product.
//! - The *slot* contains the line's 64 bytes, and a flag that is set if the line is closed.
//! - A request is *at its turn* once its cell is granted. Once a step of the request's node has found this grant, the
//!   node's seat *has* the line. The node's port *holds* the line only if the line is not closed.
//! - A release *passes* a withdrawn request if it keeps the line and continues from the cell of this request. Each
//!   grant ends the request at its turn. The first grant of a release ends the releasing node's own request, and each
//!   further grant ends a request that the release has passed.
//! - A node's last request is *clear* once no other node will use the node's word because of this request. From then
//!   on, the answer to the node's next request is not `Busy`.
//! - The `count` of a view is the number of requests that the node of the view has made.
ghost use Rattle.std.specs.Prelude.{◌≡◌, ◌≢◌, ◌⊎◌, ℕ, ◌≤◌, ◌∷◌, [], List, true, false};
ghost use Rattle.qolb_model.specs.declared.request.Request.{Request};
ghost use Rattle.qolb_model.specs.Requests.{Has};
ghost use Rattle.qolb_model.specs.Views.{own};
ghost use Rattle.qolb_model.specs.declared.config.TheConstants.{MAX_NODES};
ghost use Rattle.line_generic.specs.declared.table.Payload.{Payload};
ghost use Rattle.line_generic.specs.Steps.{IsSameSeat, IsSeatOf, HasSlot, HasNoSlot};
ghost use Rattle.ring_line.specs.Layout.{word_count};
ghost use Rattle.line_cells.specs.Array.{At};
ghost use Rattle.line_cells.specs.Steps.{IsAt, ghost_of, SeatAdvances, TakesTicket, TellsIfClear, IsNextPayload, Ended, IsHandedOver, Passes, Frees, after_reset};
ghost use Rattle.ring_line.specs.Layout.{withdrawn_by};
ghost use Rattle.ring_line.specs.Steps.{IsSeatOfNode, own_cell, turn_cell, IsStillQueued, IsAtTurn, IsRolled, after_clear};
ghost use Rattle.line_cells.specs.declared.local.Point.TheVariants.{Idle, Queued, Holding, Passing, Cleared, Freeing, Rolled};

use crate::invariant::{RingSeat, SharedTable};
use crate::layout::{GRANTED, WITHDRAWN_UNIT, cell_after, cell_of, is_granted};
use crate::plays::{Clear, Grant, Load, Roll};
use line_cells::{FreeNode, LoadNode, Reset, TICKET_WORD, TakeTicket, cell_word, node_word};
use qolb_model::Keep;

/// Takes a ticket and returns its cell. This step is the linearization point of a request, because it puts the request
/// into the order.
///
/// No two requests that have not ended share a cell, because each node has at most one such request and there are more
/// cells than nodes. This also holds when the counter wraps around, because the number of cells divides the number of
/// tickets.
pub(crate) fn take_ticket<K: Keep>(table: &SharedTable<K>, seat: &mut RingSeat) -> u64
    requires table { IsSeatOf word_count table.now.table_id seat.old }
    requires point { IsAt Idle seat.old }
    ensures keeps_slot { seat.new.me.1 ≡ seat.old.me.1 }
    ensures advances { SeatAdvances K.allows seat.old seat.new 1 }
    ensures cell { result ≡ own_cell seat.new }
    ensures takes_ticket { TakesTicket (ghost_of seat.old) (ghost_of seat.new) }
{
    cell_of(table.fetch_add::<TakeTicket<K>>(seat, TICKET_WORD, 1))
}

/// Loads the request's cell. Returns `true` if the cell is granted: the request is then at its turn, and the line's
/// slot is the caller's.
pub(crate) fn load<K: Keep>(table: &SharedTable<K>, seat: &mut RingSeat, cell: u64) -> bool
    requires table { IsSeatOf word_count table.now.table_id seat.old }
    requires point { IsAt Queued seat.old }
    requires no_slot { HasNoSlot seat.old }
    requires cell { cell ≡ own_cell seat.old }
    ensures advances { SeatAdvances K.allows seat.old seat.new 1 }
    ensures count { (ghost_of seat.new).view.count ≡ (ghost_of seat.old).view.count }
    ensures queued { result ≡ false → HasNoSlot seat.new × IsStillQueued cell (ghost_of seat.new) }
    ensures at_turn { result ≡ true → (y : Payload) × HasSlot seat.new y
        × IsAtTurn cell (ghost_of seat.new) y }
{
    is_granted(table.load::<Load<K>>(seat, cell_word(cell)))
}

/// Adds a withdrawal to the request's cell. This step is the linearization point of a withdrawal.
///
/// Returns `true` if the grant was there first. The request is then at its turn, and no other node reads what was
/// added, because the node clears the cell before it grants the next one. Returns `false` if the request is withdrawn.
pub(crate) fn roll<K: Keep>(
    table: &SharedTable<K>,
    seat: &mut RingSeat,
    cell: u64,
    node: u64,
) -> bool
    requires seat { IsSeatOfNode table.now.key.config.nodes table.now.table_id node seat.old }
    requires point { IsAt Queued seat.old }
    requires no_slot { HasNoSlot seat.old }
    requires cell { cell ≡ own_cell seat.old }
    ensures advances { SeatAdvances K.allows seat.old seat.new 1 }
    ensures count { (ghost_of seat.new).view.count ≡ (ghost_of seat.old).view.count }
    ensures withdrawn { result ≡ false → HasNoSlot seat.new × IsRolled cell (ghost_of seat.new) }
    ensures at_turn { result ≡ true → (y : Payload) × HasSlot seat.new y
        × IsAtTurn cell (ghost_of seat.new) y }
{
    is_granted(table.fetch_add::<Roll<K>>(seat, cell_word(cell), WITHDRAWN_UNIT * node))
}

/// Sets the cell of the request at its turn to 0. That request is the caller's, or one that it passes.
pub(crate) fn clear<K: Keep>(table: &SharedTable<K>, seat: &mut RingSeat, cell: u64)
    requires table { IsSeatOf word_count table.now.table_id seat.old }
    requires point { IsAt Holding seat.old ⊎ IsAt Passing seat.old }
    requires cell { cell ≡ turn_cell seat.old }
    ensures seat { IsSameSeat seat.old seat.new }
    ensures cleared { seat.new.me ≡ (after_clear (ghost_of seat.old) ∷ [], seat.old.me.1) }
{
    table.store::<Clear>(seat, cell_word(cell), 0);
}

/// Ends the request at its turn, which is the caller's or one that it passes, and grants the next cell. This step is
/// the linearization point of an end.
///
/// Returns the old word of that next cell. If it is 0, the cell's request has the line, whether or not it was already
/// made. Otherwise the cell names the node that withdrew there (`withdrawn_by`); the caller still has the line, and
/// must pass that request.
pub(crate) fn grant<K: Keep>(table: &SharedTable<K>, seat: &mut RingSeat, cell: u64) -> u64
    requires table { IsSeatOf word_count table.now.table_id seat.old }
    requires point { IsAt Cleared seat.old }
    requires cell { cell ≡ turn_cell seat.old }
    requires payload { (y : Payload) × HasSlot seat.old y
        × IsNextPayload K.allows (ghost_of seat.old) y }
    ensures advances { SeatAdvances K.allows seat.old seat.new 1 }
    ensures ended { (y : Payload) → HasSlot seat.old y
        → Ended (ghost_of seat.old) (ghost_of seat.new) y }
    ensures handed_over { result ≡ 0 → HasNoSlot seat.new
        × IsHandedOver (ghost_of seat.old) (ghost_of seat.new) }
    ensures passes { result ≢ 0 → ((y : Payload) → HasSlot seat.old y → HasSlot seat.new y)
        × Passes (ghost_of seat.old) (withdrawn_by result) (ghost_of seat.new) }
{
    table.fetch_add::<Grant<K>>(seat, cell_word(cell_after(cell)), GRANTED)
}

/// Frees the node of the first passed request whose node is not freed yet. That node may then make another request.
pub(crate) fn free<K: Keep>(table: &SharedTable<K>, seat: &mut RingSeat, node: u64)
    requires table { IsSeatOf word_count table.now.table_id seat.old }
    requires point { IsAt Freeing seat.old }
    requires in_range { node ≤ MAX_NODES }
    requires next_to_free { (q : ℕ) × (ps : List ℕ) × (r : Request)
        × ((ghost_of seat.old).own.passed ≡ q ∷ ps) × At (ghost_of seat.old).view.order q r
        × (r.node ≡ node) }
    ensures keeps_slot { seat.new.me.1 ≡ seat.old.me.1 }
    ensures advances { SeatAdvances K.allows seat.old seat.new 1 }
    ensures frees { (q : ℕ) (ps : List ℕ) (r : Request) → (ghost_of seat.old).own.passed ≡ q ∷ ps
        → At (ghost_of seat.old).view.order q r
        → Frees (ghost_of seat.old) ps r (ghost_of seat.new) }
{
    table.store::<FreeNode<K>>(seat, node_word(node), 1);
}

/// Loads the node's own word. The word is not 0 if the node's withdrawn request was passed and the node was freed, so
/// that the request is clear.
pub(crate) fn load_node<K: Keep>(table: &SharedTable<K>, seat: &mut RingSeat, node: u64) -> u64
    requires seat { IsSeatOfNode table.now.key.config.nodes table.now.table_id node seat.old }
    requires point { IsAt Rolled seat.old }
    ensures keeps_slot { seat.new.me.1 ≡ seat.old.me.1 }
    ensures advances { SeatAdvances K.allows seat.old seat.new 1 }
    ensures tells { TellsIfClear (ghost_of seat.old) result (ghost_of seat.new) }
{
    table.load::<LoadNode<K>>(seat, node_word(node))
}

/// Sets the node's own word back to 0, before its next request.
pub(crate) fn reset<K: Keep>(table: &SharedTable<K>, seat: &mut RingSeat, node: u64)
    requires seat { IsSeatOfNode table.now.key.config.nodes table.now.table_id node seat.old }
    requires point { IsAt Rolled seat.old }
    requires clear { Has (ghost_of seat.old).view.clear (own (ghost_of seat.old).view) }
    ensures seat { IsSameSeat seat.old seat.new }
    ensures reset { seat.new.me ≡ (after_reset (ghost_of seat.old) ∷ [], seat.old.me.1) }
{
    table.store::<Reset>(seat, node_word(node), 0);
}
