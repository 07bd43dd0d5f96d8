//! The type of a node for one kind of line. `any_node.rt` combines these types for all kinds into one.
ghost use Rattle.std.specs.Prelude.{◌≡◌, ◌<◌, ◌≤◌, Some, MatchOption};
ghost use Rattle.std.specs.Arc.{arc_value};
ghost use Rattle.qolb_model.specs.Calls.{Polls};
ghost use Rattle.line_generic.specs.AtTurn.{Names};
ghost use Rattle.qolb_nodes.specs.NodeCalls.{IsMisuse, Meets, MayAsk, IsLinking, IsQueued, MayPoll, Holds, HasBytes, turns_of, word_of, IsTurnWord, Waits, Writes, WritesLane, Enqolbs, Withdraws, LooksIfClear, Releases, Prepends, LinksUp};
ghost use Rattle.qolb_nodes.specs.Nodes.{anything, PollsWithin};

use crate::answer::Answer;
use crate::any_node::Link;
use line_generic::{Discipline, Line, Port, SleepersElsewhere};
use line_lanes::{Line64, Mask};
use qolb_model::{Enq, Free, LineSync, Out, Poll, PortState, Prep};
use std::alloc::Global;
use std::hint::spin_loop;
use std::marker::Model;
use std::sync::Arc;

// The wake policy of these lines wakes no thread at a release, because a static library has no system call that waits
// or wakes. In C, waiters sleep at places of their own, and these calls return the words on which they wait.

/// A line with the queue algorithm `Q`, whose waiters sleep in C code.
pub type LineFor<Q> = Line<Free, Q, SleepersElsewhere>;

/// The number with which C code says that a line has no lease.
pub const NO_LEASE: u64 = u64::MAX;

/// The data about a node that C code reads: its number, its state, and the words on which it and its successors wait.
#[derive(Clone, Copy)]
pub struct Shown {
    /// The node's number.
    pub number: u64,
    /// The label of the node's line.
    pub label: u64,
    /// The state after the node's last call.
    pub state: PortState,
    /// The number of turns left, as C code receives it, or 0 if the node does not hold the line.
    pub turns_left: u64,
    /// The word on which the node waits, if it waits.
    pub wait_word: u64,
    /// The word of the next holder, which the node recorded at its last release.
    pub went_to: u64,
    /// The word of the waiter behind the next holder, which the node recorded.
    pub went_ahead: u64,
}

/// A node, which consists of a shared reference to a line and of a port of this line.
#[derive(Drop)]
pub struct Node<L: LineSync<Free>> {
    line: Arc<L, Global>,
    port: L::Port,
}

impl<L: LineSync<Free>> Model for Node<L> {
    ghost use Rattle.std.specs.Arc.{arc_value};
    ghost use Rattle.qolb_nodes.specs.Nodes.{NodeOf};

    ghost Value = { NodeOf L L.Port };

    ghost view = { λ node. record { line = arc_value node.line; port = node.port } };

    ghost invariant = { λ node. L.belongs (arc_value node.line) node.port };
}

impl<L: LineSync<Free>> Node<L> {
    /// Returns the node of this port.
    pub fn new(line: Arc<L, Global>, port: L::Port) -> Node<L>
        requires { L.belongs (arc_value line) port }
        ensures { result ≡ record { line = arc_value line; port = port } }
    {
        Node { line, port }
    }

    /// Merges the views of two nodes of one line, which are then of one history.
    ///
    /// C has no call for this. It defines what it means that the nodes of an opened line are of one line.
    pub fn meet(&mut self, other: &mut Node<L>)
        requires one_line { other.old.line ≡ self.old.line }
        ensures lines { (self.new.line ≡ self.old.line) × (other.new.line ≡ other.old.line) }
        ensures tell { Meets L.view self.old other.old self.new other.new }
        ensures turn_self { L.turn self.new.port ≡ L.turn self.old.port }
        ensures turn_other { L.turn other.new.port ≡ L.turn other.old.port }
        ensures counters_self { L.counters self.new.port ≡ L.counters self.old.port }
        ensures counters_other { L.counters other.new.port ≡ L.counters other.old.port }
    {
        self.line.meet(&mut self.port, &mut other.port);
    }
}

impl<Q: Discipline<Free>> Node<LineFor<Q>> {
    /// Returns the state after the node's last call.
    fn state(&self) -> PortState
        ensures { result ≡ self.now.port.view.state }
    {
        LineFor::<Q>::state(&self.port)
    }

    /// Returns `Done` if the node's last request is clear, and otherwise `Busy`. If the last request is clear, the next
    /// request is not answered `Busy`.
    ///
    /// Returns `Misuse` if the node waits or holds the line.
    pub fn is_clear(&mut self) -> Answer
        ensures line { self.new.line ≡ self.old.line }
        ensures misuse { ¬ MayAsk self.old → IsMisuse self.old self.new result }
        ensures does { MayAsk self.old → LooksIfClear Q.DisciplineSpec self.old self.new result }
    {
        if !self.state().may_ask() {
            return Answer::Misuse;
        }
        Answer::of_clear(self.line.is_clear(&mut self.port))
    }

    /// Returns the line's bytes as the holder sees them, or `None` if the node does not hold the line.
    pub fn bytes(&self) -> Option<&Line64>
        ensures { MatchOption result (¬ Holds self.now) (λ line. HasBytes self.now line.now) }
    {
        if self.state() == PortState::Holding {
            Some(LineFor::<Q>::bytes(&self.port))
        } else {
            None
        }
    }

    /// Returns the number of turns left, as C code receives it. The number includes the holder's own turn, so it is at
    /// least 1. Returns 0 if the node does not hold the line.
    fn turns_left(&self) -> u64
        ensures turns { Holds self.now → result ≡ turns_of self.now }
        ensures not_zero { Holds self.now → 1 ≤ result }
        ensures none { ¬ Holds self.now → result ≡ 0 }
    {
        if self.state() != PortState::Holding {
            return 0;
        }
        match self.line.turns_left(&self.port) {
            Some(turns) => turns,
            None => NO_LEASE,
        }
    }

    /// Writes those bytes of the line that the mask selects, for the holder.
    ///
    /// Returns `Misuse` if the node does not hold the line.
    #[inline(always)]
    pub fn write(&mut self, mask: Mask, bytes: &Line64) -> Answer
        ensures line { self.new.line ≡ self.old.line }
        ensures view { self.new.port.view ≡ self.old.port.view }
        ensures misuse { ¬ Holds self.old → IsMisuse self.old self.new result }
        ensures does { Holds self.old → Writes mask.0 bytes.now.bytes self.old self.new result }
    {
        if self.state() != PortState::Holding {
            return Answer::Misuse;
        }
        LineFor::<Q>::write(&mut self.port, mask, bytes);
        Answer::Done
    }

    /// Returns the data about the node that C code reads.
    #[inline(always)]
    pub fn shown(&self) -> Shown
        ensures number { result.number ≡ self.now.port.view.node }
        ensures label { result.label ≡ self.now.port.view.label }
        ensures state { result.state ≡ self.now.port.view.state }
        ensures turns { Holds self.now → result.turns_left ≡ turns_of self.now }
        ensures not_zero { Holds self.now → 1 ≤ result.turns_left }
        ensures none { ¬ Holds self.now → result.turns_left ≡ 0 }
        ensures word { result.wait_word ≡ word_of Q.wait_word self.now }
        ensures turn { Holds self.now → IsTurnWord Q.wake_word self.now result.wait_word }
        ensures went_to { self.now.port.went_to ≡ Some result.went_to }
    {
        Shown {
            number: LineFor::<Q>::node(&self.port),
            label: self.line.label(),
            state: self.state(),
            turns_left: self.turns_left(),
            wait_word: self.wait_word(),
            went_to: self.went_to(),
            went_ahead: self.went_ahead(),
        }
    }

    /// Requests the line, and answers at once.
    ///
    /// Returns `Misuse` if the node waits or holds the line.
    pub fn enqolb(&mut self) -> Answer
        ensures line { self.new.line ≡ self.old.line }
        ensures misuse { ¬ MayAsk self.old → IsMisuse self.old self.new result }
        ensures does { MayAsk self.old → Enqolbs Q.DisciplineSpec self.old self.new result }
    {
        if self.state().may_ask() {
            Answer::of_enq(self.line.enqolb(&mut self.port))
        } else {
            Answer::Misuse
        }
    }

    /// Polls at most `polls` times whether the turn of the request has come, with a pause between two polls.
    ///
    /// Returns `Misuse` if the node does not wait, or if `polls` is 0.
    #[inline(always)]
    pub fn wait(&mut self, polls: u64) -> Answer
        ensures line { self.new.line ≡ self.old.line }
        ensures misuse { ¬ MayPoll polls self.old → IsMisuse self.old self.new result }
        ensures does { MayPoll polls self.old → Waits Q.wake_word polls self.old self.new result }
        ensures word { word_of Q.wait_word self.new ≡ word_of Q.wait_word self.old }
    {
        if polls == 0 || self.state() != PortState::Queued {
            return Answer::Misuse;
        }
        Answer::of_poll(poll_on(&*self.line, &mut self.port, polls))
    }

    /// Withdraws the request, unless its turn has come.
    ///
    /// Returns `Misuse` if the node does not wait.
    pub fn withdraw(&mut self) -> Answer
        ensures line { self.new.line ≡ self.old.line }
        ensures misuse { ¬ IsQueued self.old → IsMisuse self.old self.new result }
        ensures does { IsQueued self.old → Withdraws Q.DisciplineSpec self.old self.new result }
    {
        if self.state() != PortState::Queued {
            return Answer::Misuse;
        }
        Answer::of_out(self.line.withdraw(&mut self.port))
    }

    /// Writes lane `k`, for the holder.
    ///
    /// Returns `Misuse` if the node does not hold the line.
    pub fn write_lane(&mut self, k: usize, value: u64) -> Answer
        requires { k < 8 }
        ensures line { self.new.line ≡ self.old.line }
        ensures view { self.new.port.view ≡ self.old.port.view }
        ensures misuse { ¬ Holds self.old → IsMisuse self.old self.new result }
        ensures does { Holds self.old → WritesLane k value self.old self.new result }
    {
        if self.state() != PortState::Holding {
            return Answer::Misuse;
        }
        LineFor::<Q>::write_lane(&mut self.port, k, value);
        Answer::Done
    }

    /// Releases the line, and closes it if `shut` is set.
    ///
    /// Returns `Misuse` if the node does not hold the line.
    #[inline(always)]
    pub fn release(&mut self, shut: bool) -> Answer
        ensures line { self.new.line ≡ self.old.line }
        ensures misuse { ¬ Holds self.old → IsMisuse self.old self.new result }
        ensures does { Holds self.old → Releases Q.DisciplineSpec shut self.old self.new result }
    {
        if self.state() != PortState::Holding {
            return Answer::Misuse;
        }
        self.line.release_with(&mut self.port, shut);
        Answer::Done
    }

    /// Returns the word on which the node waits.
    ///
    /// If the node holds the line, this is the word on which it was granted.
    fn wait_word(&self) -> u64
        ensures word { result ≡ word_of Q.wait_word self.now }
        ensures turn { Holds self.now → IsTurnWord Q.wake_word self.now result }
    {
        self.line.wait_word(&self.port) as u64
    }

    /// Returns the word of the next holder, which the node recorded at its last release.
    fn went_to(&self) -> u64
        ensures { self.now.port.went_to ≡ Some result }
    {
        self.line.went_to(&self.port) as u64
    }

    /// Returns the word of the waiter behind the next holder, which the node recorded.
    fn went_ahead(&self) -> u64 {
        self.line.went_ahead(&self.port) as u64
    }
}

impl Node<Link> {
    /// Makes a request that must then be linked to the request before it.
    ///
    /// Returns `Misuse` if the node waits or holds the line.
    pub fn prepend(&mut self) -> Answer
        ensures line { self.new.line ≡ self.old.line }
        ensures misuse { ¬ MayAsk self.old → IsMisuse self.old self.new result }
        ensures does { MayAsk self.old → Prepends self.old self.new result }
    {
        if !self.state().may_ask() {
            return Answer::Misuse;
        }
        Answer::of_prep(self.line.prepend(&mut self.port))
    }

    /// Links the request to the request before it.
    ///
    /// Returns `Misuse` if the node has no request to link.
    pub fn link(&mut self) -> Answer
        ensures line { self.new.line ≡ self.old.line }
        ensures misuse { ¬ IsLinking self.old → IsMisuse self.old self.new result }
        ensures does { IsLinking self.old → LinksUp self.old self.new result }
    {
        if self.state() != PortState::Linking {
            return Answer::Misuse;
        }
        Answer::of_enq(self.line.link(&mut self.port))
    }
}

/// Polls at most `polls` times, with a pause between two polls. If the request still waits, it has polled exactly
/// `polls` times.
fn poll_on<Q: Discipline<Free>>(
    line: &LineFor<Q>,
    port: &mut Port<Q, SleepersElsewhere>,
    polls: u64,
) -> Poll
    requires belongs { ⟦<LineFor<Q> as LineSync<Free>>⟧.belongs line.now port.old }
    requires state { port.old.view.state ≡ PortState.Queued }
    requires not_zero { 0 < polls }
    ensures belongs { ⟦<LineFor<Q> as LineSync<Free>>⟧.belongs line.now port.new }
    ensures polls { Polls anything port.old.view port.new.view port.new.turn result }
    ensures within { PollsWithin polls port.old.counters.poll_count
        port.new.counters.poll_count result }
    ensures went_to { result ≡ Poll.Closed → Names (Q.wake_word port.new.view) port.new.went_to }
    ensures token { port.new.token ≡ port.old.token }
{
    for _look in 1..polls {
        match line.poll(port) {
            Poll::Waiting => spin_loop(),
            answer => return answer,
        }
    }
    line.poll(port)
}
