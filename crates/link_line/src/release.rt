//! Releases the line. A release skips successors that have withdrawn, and hands the line to the next node.
//!
//! The request of the releasing node ends with the first atomic step that gives up the line or skips a successor. This
//! is a step `home` that finds no successor, a step `done` that finds no link, or the first step `grant`.
ghost use Rattle.std.specs.Prelude.{◌≡◌, ◌≢◌, ℕ, ◌+◌, ◌*◌, ◌<◌, ◌≤◌, [], length};
ghost use Rattle.qolb_model.specs.declared.config.TheConstants.{MAX_NODES};
ghost use Rattle.qolb_model.specs.PortStates as states;
ghost use Rattle.link_core.specs.declared.point.Point.TheVariants.{Freeing};
ghost use Rattle.line_generic.specs.declared.table.Payload.{Payload};
ghost use Rattle.line_generic.specs.Steps.{IsSameSeat, HasSlot};
ghost use Rattle.link_line.specs.Layout as layout;
ghost use Rattle.link_line.specs.Calls.{IsReleaser, HasReleased, MayWalk, HasWalked};
ghost use Rattle.link_line.specs.Steps.{IsSeatOf, IsAt, KnowsNodes, IsOfOneNode, ghost_of, Advances, SeatAdvances, MayHandOff};
ghost use Rattle.link_line.specs.Releases.{HandsOff, granted_word, NamesWakeWord, AreNodesAt, FreesAll};

use crate::invariant::{LinkSeat, SharedTable};
use crate::layout::{HOME, entry_or_home, entry_word};
use crate::steps::{done, free, grant, home};
use arrayvec::ArrayVec;
use line_generic::{Released, UnparkHandle};
use qolb_model::{Keep, MAX_NODES, PortState};

/// The maximum number of requests that a release passes: one for each node except its own.
const MAX_PASSED: usize = MAX_NODES as usize - 1;

/// A release has room for the nodes of all requests that it may pass, and for no more. This theorem is the contract of
/// a function that does nothing.
pub fn passed_nodes_have_room()
    ensures { MAX_PASSED + 1 ≡ MAX_NODES }
{}

/// The number of node numbers, because an entry's link has 16 bits.
const NODE_NUMBERS: u64 = 1 << 16;

/// The result of one attempt to hand the line off from an entry.
#[derive(Clone, Copy)]
pub(crate) enum Handoff {
    /// The line is granted to the successor, or put home if there is none.
    HandedOver {
        /// The word of the granted entry, or `HOME`.
        word: usize,
        /// The node that is linked to the granted entry by that time, or 0.
        behind: u64,
    },
    /// The line is left in the entry, for a late linker.
    Left,
    /// The successor, this node, has withdrawn. The release passes its request, and the releasing node still has the
    /// line.
    Passed(u64),
}

/// The outcome of a walk. Its 16 bytes are returned in registers, so a release without withdrawn successors sets up no
/// room for them.
#[derive(Clone, Copy)]
struct Walked {
    /// The atomic steps of the release.
    steps: u64,
    /// The word of the granted entry, or `HOME`.
    word: u32,
    /// The node that is linked to that entry, or 0.
    behind: u32,
}

impl Handoff {
    /// Returns the granted word, and the node that is linked behind the granted one. They are `HOME` and 0 if the line
    /// was not granted.
    #[inline]
    fn granted(self) -> (usize, u64)
        ensures { result.0 ≡ granted_word self }
    {
        match self {
            Handoff::HandedOver { word, behind } => (word, behind),
            Handoff::Left | Handoff::Passed(_) => (HOME, 0),
        }
    }

    /// Returns the words whose waiters must be unparked: that of the granted node, and that of the node behind it.
    ///
    /// A word is `HOME` if no waiter must be unparked there. Both words are `HOME` if the line was not granted, and the
    /// second is if no node is linked behind the granted one.
    #[inline]
    fn unpark_handle(self) -> UnparkHandle
        ensures { result.word ≡ granted_word self }
    {
        let (word, behind) = self.granted();
        UnparkHandle::at(word, entry_or_home(behind))
    }
}

/// Releases the line that this seat has. Never waits for a link.
///
/// `closed` says that the line is closed, by this turn or an earlier one. The call takes at most `4 * nodes - 3` atomic
/// steps: three for each passed node and one to free it. The last attempt takes one to three of them, and only one if
/// all other nodes were passed. The call gives up the line before it frees the first node. It returns the port's state,
/// the atomic steps, and the words whose waiters must be unparked.
#[inline]
pub(crate) fn release<K: Keep>(
    table: &SharedTable<K>,
    seat: &mut LinkSeat,
    node: u64,
    closed: bool,
) -> Released
    requires { IsReleaser K.allows table.now.key.config.nodes table.now.table_id node closed
        seat.old }
    ensures { HasReleased K.allows table.now.key.config.nodes seat.old seat.new result }
{
    let mut steps = 0;
    let handoff = try_handoff(table, seat, &mut steps, node);
    match handoff {
        Handoff::HandedOver { .. } => Released {
            state: state_after(closed),
            steps,
            unpark: handoff.unpark_handle(),
        },
        Handoff::Left => Released {
            state: PortState::Left,
            steps,
            unpark: handoff.unpark_handle(),
        },
        Handoff::Passed(first) => {
            let walked = walk(table, seat, steps, first);
            Released {
                state: state_after(closed),
                steps: walked.steps,
                unpark: UnparkHandle::at(walked.word as usize, entry_or_home(walked.behind as u64)),
            }
        }
    }
}

/// Tries to hand the line to the successor of the node `from`.
///
/// If there is no successor, the line goes home. If the successor has not linked yet, the line is left in the entry of
/// `from`. A withdrawn successor is passed, and the caller goes on from it. The call takes one to three atomic steps,
/// and adds them to `steps`.
#[inline]
fn try_handoff<K: Keep>(
    table: &SharedTable<K>,
    seat: &mut LinkSeat,
    steps: &mut u64,
    from: u64,
) -> Handoff
    requires table { IsSeatOf table.now.key.config.nodes table.now.table_id seat.old }
    requires of_one_node { IsOfOneNode seat.old.me }
    requires in_range { layout.IsWithin table.now.key.config.nodes from }
    requires knows_nodes { KnowsNodes table.now.key.config.nodes seat.old }
    requires no_overflow { steps.old ≤ 4 * MAX_NODES }
    requires payload { (y : Payload) × HasSlot seat.old y
        × MayHandOff K.allows (ghost_of seat.old) y from }
    ensures seat { IsSameSeat seat.old seat.new }
    ensures outcome { (n : ℕ) × (steps.new ≡ steps.old + n)
        × Advances K.allows seat.old.me seat.new.me n
        × ((y : Payload) → HasSlot seat.old y → HandsOff seat.old y seat.new n result) }
    ensures within { granted_word result < layout.word_count table.now.key.config.nodes }
    ensures names_wake_word { NamesWakeWord (ghost_of seat.new) result }
{
    // The first step is `home`. If it fails, there is a successor, so a missing link is only late, and `done` may leave
    // the line to the late linker. Loading the link first, as MCS does, would save a step if a successor has linked
    // (two steps, not three) and cost a step if there is none (two steps, not one).
    *steps += 1;
    if home(table, seat, from) {
        return Handoff::HandedOver {
            word: HOME,
            behind: 0,
        };
    }
    *steps += 1;
    let next = done(table, seat, from);
    if next == 0 {
        return Handoff::Left;
    }
    *steps += 1;
    let mut behind = 0;
    if grant(table, seat, &mut behind, next) {
        Handoff::HandedOver {
            word: entry_word(next),
            behind,
        }
    } else {
        Handoff::Passed(next)
    }
}

/// Hands the line on from the passed node `first`, past the withdrawn requests directly behind it, and then frees all
/// passed nodes.
///
/// `steps` counts the atomic steps of the first attempt, and the result includes them. The port is never `Left`
/// afterwards, because a walk can leave the line only in the entry of a passed node, and never in the releasing node's
/// own.
///
/// The function is cold and not inlined, because it has an array of the passed nodes, which a release without withdrawn
/// successors should not set up.
#[cold]
#[inline(never)]
fn walk<K: Keep>(table: &SharedTable<K>, seat: &mut LinkSeat, steps: u64, first: u64) -> Walked
    requires { MayWalk table.now.key.config.nodes table.now.table_id steps first seat.old }
    ensures { HasWalked K.allows table.now.key.config.nodes steps seat.old seat.new result }
{
    let mut steps = steps;
    let mut passed = ArrayVec::<u64, MAX_PASSED>::new();
    let mut handoff = Handoff::Passed(first);
    while let Handoff::Passed(node) = handoff {
        passed.push(node);
        handoff = try_handoff(table, seat, &mut steps, node);
    }
    // The nodes are freed only now. A freed node may become clear and request again, so a walk that freed nodes early
    // might pass such a node again and again.
    free_passed(table, seat, &passed);
    let (word, behind) = handoff.granted();
    Walked {
        steps: steps + passed.len() as u64,
        word: word as u32,
        behind: (behind % NODE_NUMBERS) as u32,
    }
}

/// Frees the nodes of all passed requests, in their order. Takes one atomic step for each.
fn free_passed<K: Keep>(table: &SharedTable<K>, seat: &mut LinkSeat, nodes: &[u64])
    requires table { IsSeatOf table.now.key.config.nodes table.now.table_id seat.old }
    requires point { IsAt Freeing seat.old }
    requires knows_nodes { KnowsNodes table.now.key.config.nodes seat.old }
    requires not_empty { (ghost_of seat.old).own.passed ≢ [] }
    requires same_length { length nodes.now ≡ length (ghost_of seat.old).own.passed }
    requires nodes { AreNodesAt (ghost_of seat.old).view (ghost_of seat.old).own.passed nodes.now }
    ensures keeps_slot { seat.new.me.1 ≡ seat.old.me.1 }
    ensures advances { SeatAdvances K.allows seat.old seat.new (length nodes.now) }
    ensures frees { FreesAll (ghost_of seat.old) (ghost_of seat.new) }
{
    for node in nodes {
        free(table, seat, *node);
    }
}

/// Returns the state after a release that did not leave the line in the node's own entry, which is `Shut` if the line
/// is closed and otherwise `Idle`.
///
/// `closed` says that the line is closed, by this turn or an earlier one.
#[inline]
fn state_after(closed: bool) -> PortState
    ensures { result ≡ states.state_after closed }
{
    if closed {
        PortState::Shut
    } else {
        PortState::Idle
    }
}
