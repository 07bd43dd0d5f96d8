//! The atomic steps of the link line. Each step is one sequentially consistent operation on one word. The operation has
//! a type argument from the module `plays`, which determines how the step changes the ghost state.
//!
//! - A *node* is a user of the line. The *entry* of a node is a single word, which corresponds to the queue node of an
//!   MCS lock.
//! - A *seat* is a node's access to the shared table. The part `me.0` of a seat is the ghost state of the node, as a
//!   list with one element (`IsOfOneNode`). The part `me.1` contains the slot while the seat has the line.
//! - The *home word* corresponds to the tail of an MCS lock. It names the last node of the queue, and is 0 if the line
//!   is at home.
//! - The line's 64 bytes always stay in the same slot. Whether the line is "at home" or "left in an entry" only
//!   determines which node's next step takes the bytes. A holder works on a copy of the bytes in its port, and stores
//!   this copy back into the slot before the first step of its release.
//! - A *late linker* is a node that has swapped its number into the home word, but has not yet linked its request to
//!   the previous one.
//! - A request is *at its turn* once the line was granted to the request, left for it, or found at home. Once a step of
//!   the request's node has found this, the node's seat *has* the line. The node's port *holds* the line only if the
//!   line is not closed.
//! - A request is *joined* once it no longer needs a link, because it found the line at home or is already linked.
//! - The *current request* of a release is at first the releasing node's own request. When a release *passes* a
//!   withdrawn successor, the successor's request becomes the current one, and the release continues with the line from
//!   the successor's entry. The current request ends with the step that passes the next successor or gives up the line.
//! - A node's last request is *clear* once no other node will use the node's entry because of this request. From then
//!   on, the answer to the node's next request is not `Busy`.
//! - The `count` of a view is the number of requests that the node of the view has made.
//! - A node's *point* determines which step the node takes next:
//!
//! ```text
//!     Idle, Shut     reset
//!     Left           load_left
//!     Rolled         load_rolled
//!     Ready          prepend
//!     Linking        link
//!     Queued         load or roll
//!     Holding        home, from its own entry, also if it found its turn on a closed line
//!     Leaving        home, from the node that it passed last
//!     Marking        done
//!     Granting       grant
//!     Freeing        free
//! ```
//!
//! Each flag, and the link, is added to an entry at most once between two resets, so no addition carries into another
//! field.
ghost use Rattle.std.specs.Prelude.{◌≡◌, ◌≢◌, ◌⊎◌, ℕ, ◌≤◌, ◌∷◌, [], List, true, false};
ghost use Rattle.qolb_model.specs.declared.request.Request.{Request};
ghost use Rattle.qolb_model.specs.Enqueueing.{Asks, IsJoined};
ghost use Rattle.qolb_model.specs.Linking.{Links};
ghost use Rattle.link_core.specs.declared.point.Point.TheVariants.{Idle, Ready, Linking, Queued, Marking, Granting, Freeing, Left, Rolled, Shut};
ghost use Rattle.link_line.specs.Links.{At};
ghost use Rattle.link_line.specs.BetweenCalls.{wake_word};
ghost use Rattle.link_line.specs.Layout as layout;
ghost use Rattle.line_generic.specs.declared.table.Payload.{Payload};
ghost use Rattle.line_generic.specs.Steps.{HasSlot, HasNoSlot};
ghost use Rattle.link_line.specs.Steps.{IsOfOneNode, IsSeatOf, IsAt, IsSeatOfNode, ghost_of, SeatAdvances, IsReady, MustLinkTo, IsStillQueued, IsAtTurn, IsRolled, TellsIfClear, MayHandOff, KeepsPayload, HasUnpassedNode, Ended, IsHandedOver, IsLeftForLinker, Passes, Frees};

use crate::invariant::{LinkSeat, SharedTable};
use crate::layout::{
    DONE, FREED, GRANTED, HOME, LINK_UNIT, ROLLED, entry_word, is_done, is_freed, is_granted,
    is_rolled, link_of,
};
use crate::plays::{Done, FreeNode, Grant, Home, Link, Load, LoadLast, Prepend, Reset, Roll};
use qolb_model::Keep;

/// Sets the node's own entry to 0, for a new request. No other node uses the entry then.
pub(crate) fn reset<K: Keep>(table: &SharedTable<K>, seat: &mut LinkSeat, node: u64)
    requires seat { IsSeatOfNode table.now.key.config.nodes table.now.table_id node seat.old }
    requires point { IsAt Idle seat.old ⊎ IsAt Shut seat.old }
    ensures keeps_slot { seat.new.me.1 ≡ seat.old.me.1 }
    ensures advances { SeatAdvances K.allows seat.old seat.new 1 }
    ensures is_ready { IsReady (ghost_of seat.old) (ghost_of seat.new) }
{
    table.store::<Reset<K>>(seat, entry_word(node), 0);
}

/// Puts the request at the queue's end by a swap of the home word (MCS). This step is the linearization point of the
/// request.
///
/// Returns the word's old value, which is 0 if the request is at its turn, and otherwise the predecessor's node. The
/// swap puts the request into the order; the link is made later and does not affect the order. SCI calls this step
/// prepend, because its list begins with the newest request.
pub(crate) fn prepend<K: Keep>(table: &SharedTable<K>, seat: &mut LinkSeat, node: u64) -> u64
    requires seat { IsSeatOfNode table.now.key.config.nodes table.now.table_id node seat.old }
    requires point { IsAt Ready seat.old }
    requires no_slot { HasNoSlot seat.old }
    ensures advances { SeatAdvances K.allows seat.old seat.new 1 }
    ensures asks { Asks (ghost_of seat.old).view (ghost_of seat.new).view }
    ensures joined { result ≡ 0 → IsJoined (ghost_of seat.new).view }
    ensures at_turn { result ≡ 0 → (y : Payload) × HasSlot seat.new y
        × IsAtTurn (ghost_of seat.new) y }
    ensures must_link { result ≢ 0 → HasNoSlot seat.new × MustLinkTo result (ghost_of seat.new) }
{
    table.swap::<Prepend<K>>(seat, HOME, node)
}

/// Writes `node` into the link of the predecessor's entry (in MCS, the predecessor's `next`).
///
/// Returns `true` if `DONE` was set there. The line was then left for this node, whose request is at its turn.
pub(crate) fn link<K: Keep>(
    table: &SharedTable<K>,
    seat: &mut LinkSeat,
    node: u64,
    predecessor: u64,
) -> bool
    requires seat { IsSeatOfNode table.now.key.config.nodes table.now.table_id node seat.old }
    requires point { IsAt (Linking predecessor) seat.old }
    requires no_slot { HasNoSlot seat.old }
    requires in_range { layout.IsWithin table.now.key.config.nodes predecessor }
    ensures advances { SeatAdvances K.allows seat.old seat.new 1 }
    ensures links { Links (ghost_of seat.old).view (ghost_of seat.new).view }
    ensures queued { result ≡ false → HasNoSlot seat.new × IsStillQueued (ghost_of seat.new) }
    ensures at_turn { result ≡ true → (y : Payload) × HasSlot seat.new y
        × IsAtTurn (ghost_of seat.new) y }
{
    is_done(table.fetch_add::<Link<K>>(seat, entry_word(predecessor), LINK_UNIT * node))
}

/// Loads the node's own entry. Returns `true` if the entry is granted, so that the request is at its turn.
pub(crate) fn load<K: Keep>(table: &SharedTable<K>, seat: &mut LinkSeat, node: u64) -> bool
    requires seat { IsSeatOfNode table.now.key.config.nodes table.now.table_id node seat.old }
    requires point { IsAt Queued seat.old }
    requires no_slot { HasNoSlot seat.old }
    ensures advances { SeatAdvances K.allows seat.old seat.new 1 }
    ensures count { (ghost_of seat.new).view.count ≡ (ghost_of seat.old).view.count }
    ensures queued { result ≡ false → HasNoSlot seat.new × IsStillQueued (ghost_of seat.new) }
    ensures at_turn { result ≡ true → (y : Payload) × HasSlot seat.new y
        × IsAtTurn (ghost_of seat.new) y }
{
    is_granted(table.load::<Load<K>>(seat, entry_word(node)))
}

/// Withdraws the request by the flag `ROLLED` in the node's own entry (rollout in SCI).
///
/// Returns `true` if the entry was granted before. The flag is then ignored, and the request is at its turn.
pub(crate) fn roll<K: Keep>(table: &SharedTable<K>, seat: &mut LinkSeat, node: u64) -> bool
    requires seat { IsSeatOfNode table.now.key.config.nodes table.now.table_id node seat.old }
    requires point { IsAt Queued seat.old }
    requires no_slot { HasNoSlot seat.old }
    ensures advances { SeatAdvances K.allows seat.old seat.new 1 }
    ensures count { (ghost_of seat.new).view.count ≡ (ghost_of seat.old).view.count }
    ensures withdrawn { result ≡ false → HasNoSlot seat.new × IsRolled (ghost_of seat.new) }
    ensures at_turn { result ≡ true → (y : Payload) × HasSlot seat.new y
        × IsAtTurn (ghost_of seat.new) y }
{
    is_granted(table.fetch_add::<Roll<K>>(seat, entry_word(node), ROLLED))
}

/// Loads the node's own entry after its release left the line in it.
///
/// Returns `true` if the late linker has linked, so that the last request is clear.
pub(crate) fn load_left<K: Keep>(table: &SharedTable<K>, seat: &mut LinkSeat, node: u64) -> bool
    requires seat { IsSeatOfNode table.now.key.config.nodes table.now.table_id node seat.old }
    requires point { IsAt Left seat.old }
    ensures keeps_slot { seat.new.me.1 ≡ seat.old.me.1 }
    ensures advances { SeatAdvances K.allows seat.old seat.new 1 }
    ensures tells { TellsIfClear (ghost_of seat.old) result (ghost_of seat.new) }
{
    link_of(table.load::<LoadLast<K>>(seat, entry_word(node))) != 0
}

/// Loads the node's own entry after its request was withdrawn. Returns `true` if the request is clear.
///
/// The request is clear if `FREED` is set, unless `DONE` is set and there is no link. In that case a release that
/// passed this node has left the line in this entry, for a late linker.
pub(crate) fn load_rolled<K: Keep>(table: &SharedTable<K>, seat: &mut LinkSeat, node: u64) -> bool
    requires seat { IsSeatOfNode table.now.key.config.nodes table.now.table_id node seat.old }
    requires point { IsAt Rolled seat.old }
    ensures keeps_slot { seat.new.me.1 ≡ seat.old.me.1 }
    ensures advances { SeatAdvances K.allows seat.old seat.new 1 }
    ensures tells { TellsIfClear (ghost_of seat.old) result (ghost_of seat.new) }
{
    let word = table.load::<LoadLast<K>>(seat, entry_word(node));
    is_freed(word) && !(is_done(word) && link_of(word) == 0)
}

/// Tries to put the line home from the entry of the node `from`. If it succeeds, the current request ends.
///
/// The step is a compare-exchange, so that a concurrent request finds either the line at home or a predecessor to link
/// to. `true` means that the home word was `from`, so `from` had no successor, and that the word is now 0. `false`
/// means that `from` has a successor, linked or late, and that the seat still has the line.
pub(crate) fn home<K: Keep>(table: &SharedTable<K>, seat: &mut LinkSeat, from: u64) -> bool
    requires table { IsSeatOf table.now.key.config.nodes table.now.table_id seat.old }
    requires of_one_node { IsOfOneNode seat.old.me }
    requires payload { (y : Payload) × HasSlot seat.old y
        × MayHandOff K.allows (ghost_of seat.old) y from }
    ensures advances { SeatAdvances K.allows seat.old seat.new 1 }
    ensures home { result ≡ true → HasNoSlot seat.new
        × ((y : Payload) → HasSlot seat.old y → Ended (ghost_of seat.old) (ghost_of seat.new) y
        × IsHandedOver (ghost_of seat.old) (ghost_of seat.new) y) }
    ensures names_wake_word { result ≡ true → wake_word (ghost_of seat.new).view ≡ layout.home_at }
    ensures keeps { result ≡ false → (seat.new.me.1 ≡ seat.old.me.1)
        × HasUnpassedNode (ghost_of seat.new)
        × ((y : Payload) → HasSlot seat.old y
        → KeepsPayload (ghost_of seat.old) (ghost_of seat.new) y (Marking from)) }
{
    table.compare_exchange::<Home<K>>(seat, HOME, from, 0) == from
}

/// Sets the flag `DONE` in the entry of the node `from`. Returns the linked successor, or 0 if the line is left there
/// for a late linker.
///
/// If the line is left there, the current request ends. One addition both sets the flag and reads the entry, as `link`
/// does on the other side. The later of the two sees the earlier one, and has the line.
pub(crate) fn done<K: Keep>(table: &SharedTable<K>, seat: &mut LinkSeat, from: u64) -> u64
    requires table { IsSeatOf table.now.key.config.nodes table.now.table_id seat.old }
    requires point { IsAt (Marking from) seat.old }
    requires in_range { layout.IsWithin table.now.key.config.nodes from }
    requires payload { HasSlot seat.old (ghost_of seat.old).own.line }
    ensures advances { SeatAdvances K.allows seat.old seat.new 1 }
    ensures left { result ≡ 0 → HasNoSlot seat.new
        × Ended (ghost_of seat.old) (ghost_of seat.new) (ghost_of seat.old).own.line
        × IsLeftForLinker (ghost_of seat.old) (ghost_of seat.new) (ghost_of seat.old).own.line }
    ensures names_wake_word { result ≡ 0 → wake_word (ghost_of seat.new).view ≡ layout.home_at }
    ensures keeps { result ≢ 0 → (seat.new.me.1 ≡ seat.old.me.1)
        × layout.IsWithin (ghost_of seat.new).view.config.nodes result
        × KeepsPayload (ghost_of seat.old) (ghost_of seat.new) (ghost_of seat.old).own.line
        (Granting result) }
{
    link_of(table.fetch_add::<Done<K>>(seat, entry_word(from), DONE))
}

/// Ends the current request and sets the flag `GRANTED` in the entry of the node `next`. Returns `true` if `next` has
/// the line.
///
/// `false` means that `next` had withdrawn: it is passed, and the seat keeps the line. In both cases the call sets
/// `behind` to the node that is linked to `next` by that time, or to 0. If `next` has the line, the waiter of `behind`
/// is unparked one turn early, so that it is awake at its turn. No contract uses `behind`.
pub(crate) fn grant<K: Keep>(
    table: &SharedTable<K>,
    seat: &mut LinkSeat,
    behind: &mut u64,
    next: u64,
) -> bool
    requires table { IsSeatOf table.now.key.config.nodes table.now.table_id seat.old }
    requires point { IsAt (Granting next) seat.old }
    requires in_range { layout.IsWithin table.now.key.config.nodes next }
    requires payload { HasSlot seat.old (ghost_of seat.old).own.line }
    ensures advances { SeatAdvances K.allows seat.old seat.new 1 }
    ensures ended { Ended (ghost_of seat.old) (ghost_of seat.new) (ghost_of seat.old).own.line }
    ensures handed_over { result ≡ true → HasNoSlot seat.new
        × IsHandedOver (ghost_of seat.old) (ghost_of seat.new) (ghost_of seat.old).own.line }
    ensures names_wake_word { result ≡ true
        → wake_word (ghost_of seat.new).view ≡ layout.entry_at next }
    ensures passes { result ≡ false → (seat.new.me.1 ≡ seat.old.me.1)
        × Passes (ghost_of seat.old) (ghost_of seat.new) next }
{
    let found = table.fetch_add::<Grant<K>>(seat, entry_word(next), GRANTED);
    *behind = link_of(found);
    !is_rolled(found)
}

/// Sets the flag `FREED` in the entry of `node`, whose request is the first of those that were passed and are not freed
/// yet.
///
/// The release no longer uses that entry. The request is therefore clear, unless the line was left there for a late
/// linker.
pub(crate) fn free<K: Keep>(table: &SharedTable<K>, seat: &mut LinkSeat, node: u64)
    requires table { IsSeatOf table.now.key.config.nodes table.now.table_id seat.old }
    requires point { IsAt Freeing seat.old }
    requires in_range { layout.IsWithin table.now.key.config.nodes node }
    requires next_to_free { (p : ℕ) × (ps : List ℕ) × (r : Request)
        × ((ghost_of seat.old).own.passed ≡ p ∷ ps) × At (ghost_of seat.old).view.order p r
        × (r.node ≡ node) }
    ensures keeps_slot { seat.new.me.1 ≡ seat.old.me.1 }
    ensures advances { SeatAdvances K.allows seat.old seat.new 1 }
    ensures frees { (p : ℕ) (ps : List ℕ) (r : Request) → (ghost_of seat.old).own.passed ≡ p ∷ ps
        → At (ghost_of seat.old).view.order p r
        → Frees (ghost_of seat.old) p ps r (ghost_of seat.new) }
{
    table.fetch_add::<FreeNode<K>>(seat, entry_word(node), FREED);
}
