//! Makes a request for a node, either in a single call or in two calls.
ghost use Rattle.std.specs.Prelude.{◌≡◌, ◌≢◌, ℕ, ◌+◌, ◌≤◌, IsTrue, true, false};
ghost use Rattle.qolb_model.specs.Enqueueing.{IsBusy, Asks, IsJoined};
ghost use Rattle.qolb_model.specs.PortStates as states;
ghost use Rattle.line_generic.specs.declared.table.Payload.{Payload};
ghost use Rattle.line_generic.specs.Steps.{HasSlot, HasNoSlot};
ghost use Rattle.line_generic.specs.Answers.{LooksAtRest};
ghost use Rattle.line_generic.specs.Ports.{looks_at_rest_in};
ghost use Rattle.link_line.specs.BetweenCalls.{phases, steps_to_ask};
ghost use Rattle.link_line.specs.Steps.{IsSeatOfNode, IsOfOneNode, ghost_of, SeatAdvances, IsInState, IsAtTurn, MustLinkTo};
ghost use Rattle.link_line.specs.Releases.{TriesReset, steps_to_reset, rest_of};

use crate::invariant::{LinkSeat, SharedTable};
use crate::steps::{load_left, load_rolled, prepend, reset};
use line_generic::{EnqueueResult, Enqueued, Rested};
use qolb_model::{Keep, PortState};

/// Makes a request, unless the node's last one is not clear.
///
/// A request behind a predecessor must then be linked. Its token is the predecessor's node.
#[inline]
pub(crate) fn request<K: Keep>(
    table: &SharedTable<K>,
    seat: &mut LinkSeat,
    node: u64,
    state: PortState,
) -> EnqueueResult
    requires seat { IsSeatOfNode table.now.key.config.nodes table.now.table_id node seat.old }
    requires in_state { (token : ℕ) × IsInState state token seat.old }
    requires may_ask { IsTrue (states.may_ask state) }
    ensures advances { SeatAdvances K.allows seat.old seat.new result.steps }
    ensures stays { result.answer ≡ Enqueued.Busy → (token : ℕ) → IsInState state token seat.old
        → IsInState state token seat.new }
    ensures busy { result.answer ≡ Enqueued.Busy
        → IsBusy (ghost_of seat.old).view (ghost_of seat.new).view }
    ensures asks { result.answer ≢ Enqueued.Busy
        → Asks (ghost_of seat.old).view (ghost_of seat.new).view }
    ensures joined { result.answer ≡ Enqueued.AtTurn → IsJoined (ghost_of seat.new).view }
    ensures must_link { result.answer ≡ Enqueued.Queued
        → HasNoSlot seat.new × MustLinkTo result.token (ghost_of seat.new) }
    ensures at_turn { result.answer ≡ Enqueued.AtTurn → (y : Payload) × HasSlot seat.new y
        × IsAtTurn (ghost_of seat.new) y }
    ensures steps_if_busy { result.answer ≡ Enqueued.Busy → result.steps ≡ 1 }
    ensures steps { result.answer ≢ Enqueued.Busy → result.steps ≡ steps_to_ask state }
{
    let Some(renewing) = try_reset(table, seat, node, state) else {
        return EnqueueResult {
            answer: Enqueued::Busy,
            token: 0,
            steps: 1,
        };
    };
    let predecessor = prepend(table, seat, node);
    let answer = if predecessor == 0 {
        Enqueued::AtTurn
    } else {
        Enqueued::Queued
    };
    EnqueueResult {
        answer,
        token: predecessor,
        steps: renewing + 1,
    }
}

/// Resets the node's entry for a new request, and returns the atomic steps taken, which are 1 or 2.
///
/// Returns `None`, after one step, if the last request is not clear.
#[inline]
pub(crate) fn try_reset<K: Keep>(
    table: &SharedTable<K>,
    seat: &mut LinkSeat,
    node: u64,
    state: PortState,
) -> Option<u64>
    requires seat { IsSeatOfNode table.now.key.config.nodes table.now.table_id node seat.old }
    requires of_one_node { IsOfOneNode seat.old.me }
    requires point { (ghost_of seat.old).own.seat.point ≡ rest_of state }
    requires may_ask { states.may_ask state ≡ true }
    ensures keeps_slot { seat.new.me.1 ≡ seat.old.me.1 }
    ensures advances { SeatAdvances K.allows seat.old seat.new (steps_to_reset result) }
    ensures is_reset { TriesReset state (ghost_of seat.old) (ghost_of seat.new) result }
{
    // The code compares the states one by one, the rarest last, because a `match` on all states would be a jump table
    // in each round.
    let loads = if state == PortState::Left {
        if !load_left(table, seat, node) {
            return None;
        }
        1
    } else if state == PortState::Rolled {
        if !load_rolled(table, seat, node) {
            return None;
        }
        1
    } else {
        0
    };
    reset(table, seat, node);
    Some(loads + 1)
}

/// Polls whether the last request of a node that may make another one is clear. If it is, the node is idle again. Makes
/// no request.
pub(crate) fn look_at_rest<K: Keep>(
    table: &SharedTable<K>,
    seat: &mut LinkSeat,
    node: u64,
    state: PortState,
) -> Rested
    requires seat { IsSeatOfNode table.now.key.config.nodes table.now.table_id node seat.old }
    requires in_state { (token : ℕ) × IsInState state token seat.old }
    requires may_ask { IsTrue (states.may_ask state) }
    ensures advances { SeatAdvances K.allows seat.old seat.new result.steps }
    ensures polls { LooksAtRest phases state seat.old seat.new result.state result.clear }
    ensures steps { looks_at_rest_in state result.steps }
{
    match state {
        PortState::Left => rested(state, load_left(table, seat, node)),
        PortState::Rolled => rested(state, load_rolled(table, seat, node)),
        _ => Rested {
            clear: true,
            state,
            steps: 0,
        },
    }
}

/// Returns the result of a poll of a node in `state`, which is idle again if its last request is clear. Takes one
/// atomic step.
fn rested(state: PortState, clear: bool) -> Rested
    ensures clear { result.clear ≡ clear }
    ensures idle { clear ≡ true → result.state ≡ PortState.Idle }
    ensures stays { clear ≡ false → result.state ≡ state }
    ensures steps { result.steps ≡ 1 }
{
    Rested {
        clear,
        state: if clear { PortState::Idle } else { state },
        steps: 1,
    }
}
