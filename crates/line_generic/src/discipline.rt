//! The traits that a queue algorithm implements. The kinds of lines differ only in their implementations of these
//! traits. The code that all kinds of lines share is in the other files of this crate.
ghost use Rattle.std.specs.Prelude.{◌≡◌, ℕ, List, ◌<◌, ◌≤◌, ◌^◌, length, Bool, IfOk};
ghost use Rattle.line_generic.specs.Laws.{HasAllowedStates, HasHolderWord, HasClosedWord, HasPollOutcome, HasFirstSplit, HasEmptySplit, HasJoin, HasSlots, HasOpening, HasMeeting, HasSlotReturn, HasFinalLine};
ghost use mathlib.Core.Option.{some};
ghost use lib.ListN.{get_elem?};
ghost use Rattle.std.specs.Slots.{slots_items, slots_len, IsFull};
ghost use Rattle.atomic_table.specs.Table.{State};
ghost use Rattle.qolb_model.specs.declared.answer.PortState.{PortState};
ghost use Rattle.qolb_model.specs.declared.answer.PortState.TheVariants as port_state;
ghost use Rattle.qolb_model.specs.declared.answer.Enq.{Enq};
ghost use Rattle.qolb_model.specs.declared.view.View.{View};
ghost use Rattle.qolb_model.specs.declared.config.TheConstants.{MAX_NODES};
ghost use Rattle.qolb_model.specs.Opening.{AreNodes};
ghost use Rattle.line_generic.specs.declared.table.Payload.{Payload};
ghost use Rattle.line_generic.specs.declared.table.TableKey.{TableKey};
ghost use Rattle.line_generic.specs.declared.table.NodeGhost.{NodeGhost};
ghost use Rattle.line_generic.specs.PortPhases.{PortPhases};
ghost use Rattle.line_generic.specs.Answers.{Takes, Puts};

use crate::sleepers::UnparkHandle;
use crate::table::{LineSeat, LocalCopy, Payload, SharedTable};
use atomic_table::Closed;
use qolb_model::{Keep, PortState};
use std::alloc::{AllocError, Global};

/// The immediate answer to a request.
#[derive(Clone, Copy, Debug, PartialEq, Eq)]
pub enum Enqueued {
    /// The request is behind another request.
    Queued,
    /// The request is at its turn, and the line is in its slot.
    AtTurn,
    /// The node made no request, because its last one is not clear.
    Busy,
}

/// The outcome of making a request: the answer, the port's new token, and the number of atomic steps.
#[derive(Clone, Copy)]
pub struct EnqueueResult {
    pub answer: Enqueued,
    pub token: u64,
    pub steps: u64,
}

/// The result of a poll by a node that neither waits for the line nor holds it.
///
/// `clear` says whether the last request is clear, `state` is the state in which the port is left, and `steps` is the
/// number of atomic steps taken.
#[derive(Clone, Copy)]
pub struct Rested {
    pub clear: bool,
    pub state: PortState,
    pub steps: u64,
}

/// The outcome of a release: the port's new state, the number of atomic steps, and the duty to unpark waiters.
pub struct Released {
    pub state: PortState,
    pub steps: u64,
    pub unpark: UnparkHandle,
}

/// The ghost state of the nodes of a queue, which does not depend on the line's data invariant.
///
/// A port stores one number for its discipline, its *token*: the cell of its request, for example, or the predecessor's
/// node.
pub trait DisciplineSpec {
    /// What the invariant records about a node in addition to the view of the node's port.
    type Local;

    /// The phases of a node, and the slots that the node has in each.
    ghost phases: { PortPhases Self.Local };

    /// `wait_word nodes node token` is the word on which `node` waits, on a line of `nodes` nodes.
    ghost wait_word: { ℕ → ℕ → ℕ → ℕ };

    /// The word on which the node at its turn waits, according to a port's view. It is any word if no node waits for
    /// the turn.
    ghost wake_word: { View → ℕ };

    /// `signals_turn token low` says that a node with this token finds its turn if its word has the lower half `low`.
    ghost signals_turn: { ℕ → ℕ → Bool };

    /// The states that a port can show.
    ghost allowed_states: { PortState → Type 0 };

    /// `enqueue_steps state answer steps` says that a request by a port in `state`, answered by `answer`, takes `steps`
    /// atomic steps. It says nothing about the answer `Closed`, which includes a release.
    ghost enqueue_steps: { PortState → Enq → ℕ → Type 0 };

    /// `release_steps before after steps` says that a release with `before` ends before it and `after` ends after it
    /// takes `steps` atomic steps.
    ghost release_steps: { ℕ → ℕ → ℕ → Type 0 };

    /// `max_steps nodes` is the maximum number of atomic steps of a poll, including the release of a closed line. A
    /// release alone takes at least one fewer.
    ghost max_steps: { ℕ → ℕ };

    /// A new node is idle.
    ghost starts_idle: { (nodes : ℕ) → phases.in_state nodes port_state.Idle 0 phases.initial };

    /// A node that does not hold shows an allowed state.
    ghost in_state_allowed: { HasAllowedStates phases allowed_states };

    ghost holding_allowed: { allowed_states port_state.Holding };

    /// A holder of the open line waited on the word of its turn. Any port that sees the turn knows this, so a
    /// predecessor can name the word on which the holder waited.
    ghost holder_waits_there: { HasHolderWord phases wait_word wake_word };

    /// A node to which a closed line was granted also waited on the word of its turn.
    ghost closed_waits_there: { HasClosedWord phases wait_word wake_word };

    /// A poll takes at least one step.
    ghost max_steps_positive: { (nodes : ℕ) → 1 ≤ nodes → 1 ≤ max_steps nodes };

    /// A count of steps does not overflow.
    ghost max_steps_fits: { (nodes : ℕ) → nodes ≤ MAX_NODES → max_steps nodes < 2 ^ 32 };
}

/// The invariant of the table of a line with the data invariant `K`. This trait is separate from `Discipline`, because
/// the calls of `Discipline` take atomic steps on a table with this invariant.
pub trait DisciplineInvariant<K: Keep>: DisciplineSpec {
    /// The invariant that holds between any two atomic steps, in every interleaving.
    ghost holds: { TableKey → State Payload (List (NodeGhost Self.Local)) → Type 0 };
}

/// A queue algorithm, which determines how requests are ordered and how a release hands over the line.
///
/// A kind of line consists of its queue algorithm and of the code that all kinds share.
pub trait Discipline<K: Keep>: DisciplineInvariant<K> {
    ghost use Rattle.line_generic.specs.Calls.{MayTake, MayPut, IsRequester, IsNodeAtRest, IsWaiter, IsReleaser, HasRequested, HasLookedAtRest, HasLooked, HasRolled, HasReleased};

    /// The number of words of a line of `nodes` nodes.
    ghost word_count: { ℕ → ℕ };

    /// The words that a new line may have.
    ghost are_first: { ℕ → List ℕ → Type 0 };

    /// Allocates the words of a new line of `nodes` nodes. The call fails only if memory is short.
    fn first_words(alloc: Global, nodes: u64) -> Result<Vec<u64>, AllocError>
        requires { AreNodes nodes }
        ensures first { IfOk result (λ words. are_first nodes words.items) }
        ensures wide { IfOk result (λ words. (length words.items ≡ word_count nodes)
            × (0 < word_count nodes)) };

    /// The number of slots of a line of this number of nodes.
    ghost slot_count: { ℕ → ℕ };

    /// `last nodes words` is the slot that has the line once all requests have ended.
    ghost last: { ℕ → List ℕ → ℕ };

    /// Returns the number of slots of a line of `nodes` nodes.
    fn slot_count(nodes: u64) -> usize
        requires { AreNodes nodes }
        ensures { result ≡ slot_count nodes };

    /// The mask by which the calls find a token's word and slot, so that they need not divide. It is 0 if they use
    /// none.
    ghost cell_mask_for: { ℕ → ℕ };

    /// Returns the mask by which the calls find a token's word and slot, or 0 if they use none.
    fn cell_mask_for(nodes: u64) -> u64
        requires { AreNodes nodes }
        ensures { result ≡ cell_mask_for nodes };

    /// Copies the granted line from its slot to `payload`, for a turn that has written nothing yet.
    ///
    /// The call takes no atomic step. It stores a closed line for the successor at once.
    fn take(
        table: &SharedTable<K, Self>,
        seat: &mut LineSeat<Self::Local>,
        cell_mask: u64,
        token: u64,
        payload: &mut LocalCopy,
    )
        requires { MayTake Self.phases cell_mask_for table.now cell_mask token seat.old }
        ensures { Takes Self.phases table.now.key.config.nodes token seat.old seat.new
            payload.new };

    /// Stores `payload` in the successor's slot when a turn is over, as closed if `closed` is set. Takes no atomic
    /// step.
    fn put(
        table: &SharedTable<K, Self>,
        seat: &mut LineSeat<Self::Local>,
        cell_mask: u64,
        token: u64,
        payload: &LocalCopy,
        closed: bool,
    )
        requires { MayPut Self.phases cell_mask_for table.now cell_mask token seat.old payload.now }
        ensures { Puts Self.phases table.now.key.config.nodes token seat.old seat.new
            payload.now closed };

    /// Takes the line out of a table that no thread shares any more, and frees the table.
    fn take_final(closed: Closed<Payload, Global>, nodes: u64) -> Payload
        requires nodes { AreNodes nodes }
        requires words { (slots_len closed.words ≡ word_count nodes) × IsFull closed.words }
        requires slots { (slots_len closed.slots ≡ slot_count nodes) × IsFull closed.slots }
        ensures { get_elem? (slots_items closed.slots) (Self.last nodes (slots_items closed.words))
            ≡ some result };

    /// Makes a request, unless the node's last one is not clear. Does not block.
    fn ask(
        table: &SharedTable<K, Self>,
        seat: &mut LineSeat<Self::Local>,
        cell_mask: u64,
        node: u64,
        state: PortState,
    ) -> EnqueueResult
        requires { IsRequester Self.phases word_count cell_mask_for table.now cell_mask node state
            seat.old }
        ensures { HasRequested Self.DisciplineSpec table.now K.allows state seat.old
            seat.new result };

    /// Polls whether the last request of a node that may make another one is clear. Makes no request.
    fn look_at_rest(
        table: &SharedTable<K, Self>,
        seat: &mut LineSeat<Self::Local>,
        node: u64,
        state: PortState,
    ) -> Rested
        requires { IsNodeAtRest Self.phases word_count table.now node state seat.old }
        ensures { HasLookedAtRest Self.phases K.allows state seat.old seat.new result };

    /// Polls with one load whether the request is at its turn. Returns `true` if it is.
    fn look(
        table: &SharedTable<K, Self>,
        seat: &mut LineSeat<Self::Local>,
        cell_mask: u64,
        node: u64,
        token: u64,
    ) -> bool
        requires { IsWaiter Self.phases word_count cell_mask_for table.now cell_mask node token
            seat.old }
        ensures { HasLooked Self.phases table.now K.allows token seat.old seat.new result };

    /// Withdraws the request in one atomic step. Returns `true` if the request was at its turn, and is then not
    /// withdrawn.
    fn roll(
        table: &SharedTable<K, Self>,
        seat: &mut LineSeat<Self::Local>,
        cell_mask: u64,
        node: u64,
        token: u64,
    ) -> bool
        requires { IsWaiter Self.phases word_count cell_mask_for table.now cell_mask node token
            seat.old }
        ensures { HasRolled Self.phases table.now K.allows token seat.old seat.new result };

    /// Releases the line that `put` stored, closed or not, and hands it to the successor. Does not block.
    fn release(
        table: &SharedTable<K, Self>,
        seat: &mut LineSeat<Self::Local>,
        cell_mask: u64,
        node: u64,
        token: u64,
        closed: bool,
    ) -> Released
        requires { IsReleaser Self.phases word_count cell_mask_for table.now K.allows cell_mask node
            token closed seat.old }
        ensures { HasReleased Self.DisciplineSpec word_count table.now K.allows token seat.old
            seat.new result };

    /// Returns the word on which a waiting node polls.
    fn wait_word(table: &SharedTable<K, Self>, cell_mask: u64, node: u64, token: u64) -> usize
        requires mask_fits { cell_mask ≡ cell_mask_for table.now.key.config.nodes }
        requires node { (node ≤ MAX_NODES) × (node ≤ table.now.key.config.nodes) }
        ensures bound { result < word_count table.now.key.config.nodes }
        ensures wait_word { result ≡ Self.wait_word table.now.key.config.nodes node token };

    /// Returns `true` if the lower half of the node's word says that the node's turn has come.
    ///
    /// A poll that finds such a value finds the turn, and a poll that finds another value does not. A grant therefore
    /// changes this half, and a node may park while the half is unchanged.
    fn signals_turn(token: u64, low: u32) -> bool
        ensures result { result ≡ Self.signals_turn token low }
        ensures polls { HasPollOutcome Self.holds Self.phases Self.wait_word
            Self.signals_turn token };

    /// Seats can be split behind the first node, or into a seat and an empty one, and two seats can be joined into one
    /// with the nodes of both.
    ghost cuts: { HasFirstSplit Self.holds };

    ghost blanks: { HasEmptySplit Self.holds };

    ghost joins: { HasJoin Self.holds };

    /// A table has `slot_count` slots.
    ghost slots: { HasSlots Self.holds slot_count };

    /// A new line satisfies the invariant.
    ghost starts: { HasOpening Self.holds K.good word_count are_first slot_count
        Self.phases.initial };

    /// Two nodes of one seat merge their views.
    ghost meets: { HasMeeting Self.holds K.allows Self.phases.initial };

    /// A holder can return its slots to the table.
    ghost return_slots_law: { HasSlotReturn Self.holds Self.phases };

    /// If one seat has all nodes, each at rest, the slot `last` has the line after all ends.
    ghost finishes: { HasFinalLine Self.holds K.good K.allows Self.phases Self.last };
}

/// A queue that makes a request by one call and links it by a second call.
pub trait SplitEnqueue<K: Keep>: Discipline<K> {
    ghost use Rattle.line_generic.specs.Calls.{IsNodeAtRest, IsSuccessor, HasPrepended, HasLinked};

    /// The number of atomic steps by which a port in this state prepends its request.
    ghost prepend_steps: { PortState → ℕ };

    /// Makes a request, unless the node's last one is not clear. A request behind a predecessor must then be linked.
    fn prepend(
        table: &SharedTable<K, Self>,
        seat: &mut LineSeat<Self::Local>,
        node: u64,
        state: PortState,
    ) -> EnqueueResult
        requires { IsNodeAtRest Self.phases Self.word_count table.now node state seat.old }
        ensures { HasPrepended Self.phases table.now K.allows prepend_steps state seat.old
            seat.new result };

    /// Links the request to its predecessor's in one atomic step.
    ///
    /// Returns `true` if the predecessor had released and left the line for this request, which is then at its turn.
    fn link(
        table: &SharedTable<K, Self>,
        seat: &mut LineSeat<Self::Local>,
        node: u64,
        token: u64,
    ) -> bool
        requires { IsSuccessor Self.phases Self.word_count table.now node token seat.old }
        ensures { HasLinked Self.phases table.now K.allows token seat.old seat.new result };
}
