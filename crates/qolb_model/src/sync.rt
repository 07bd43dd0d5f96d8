//! The trait `LineSync` of a shared line. The trait declares the calls, the contract of each call, and what is true of
//! a port between two calls.
ghost use Rattle.std.specs.Prelude.{◌≡◌, ◌≢◌, ◌↔◌, ℕ, true, false, All, Some, IsTrue, IfOk, IfErr, map};
ghost use Rattle.qolb_model.specs.declared.config.LineConfig.{LineConfig};
ghost use Rattle.qolb_model.specs.declared.answer.PortState.{PortState};
ghost use Rattle.qolb_model.specs.declared.view.View.{View};
ghost use Rattle.qolb_model.specs.declared.write.Write.{Write};
ghost use Rattle.qolb_model.specs.OneOwner.{turn_after};
ghost use Rattle.qolb_model.specs.PortStates.{may_ask};
ghost use Rattle.qolb_model.specs.Leases.{turns_left};
ghost use Rattle.qolb_model.specs.Kept.{MayRelease};
ghost use Rattle.qolb_model.specs.AtTurn.{IsTurn};
ghost use Rattle.qolb_model.specs.Sound.{IsSound};
ghost use Rattle.qolb_model.specs.Calls.{Enqueues, Polls, Withdraws, LooksIfClear, Releases, MergesViews};
ghost use Rattle.qolb_model.specs.Counting.{Counters, Call, Counts};
ghost use Rattle.qolb_model.specs.Counting as call;
ghost use Rattle.qolb_model.specs.Finishing.{MayRefuse, IsFinished};

use crate::answer::{Enq, Out, Poll, PortState};
use crate::keep::Keep;
use crate::unfinished::Unfinished;
use crate::view::View;
use line_lanes::{Line64, Mask};
use std::alloc::Global;

/// A FIFO queue lock that hands 64 bytes from holder to holder.
///
/// Each node calls the lock through its own port. `enqolb` and `deqolb` are QOLB's (Scalable Coherent Interface, IEEE
/// 1596; as QOSB by Goodman, Vernon and Woest 1989). The call that withdraws (after SCI's rollout), closing and leases
/// are this project's own. `K` says which bytes the line may have and which changes a turn may make. `enqolb`, `poll`,
/// `withdraw`, `is_clear`, `deqolb`, `shut` and `meet` each promise one record of `specs/Calls`, about the views before
/// and after the call, with a field for each answer. A node is a participant, and not a queue node in the sense of MCS.
///
/// An atomic step is one operation on a word that nodes share. It is sequentially consistent in all kinds of lines.
/// Calls are wait-free: a call takes at most `max_steps` atomic steps, whatever other nodes do meanwhile. A call that
/// releases the line (`deqolb`, `shut`, or a call that answers `Closed`) takes, beyond a constant, two to four steps
/// for each withdrawn request that it passes; the number depends on the kind of line. All other calls have a constant
/// bound. Only `finish` allocates. No call parks, because parking takes a `Wait`, which no call has as an argument. A
/// wrapper that keeps a `Wait` may park in its `poll`, which is then not wait-free. A call changes no port except its
/// arguments.
///
/// A request is at its turn once all requests before it have ended. To free a node is to promise that the release that
/// passed the node's withdrawn request uses the node's word no more. The request is then clear, unless another node
/// still has to use that word.
pub trait LineSync<K: Keep> {
    /// The value by which a node calls the line.
    type Port;

    /// The view of a port: what it knows of its line and of its own requests.
    ghost view: { Self.Port → View };

    /// The line's bytes in the holder's port, with the mask of the bytes that this turn has written.
    ghost turn: { Self.Port → Write };

    /// The port's counters of atomic steps and polls.
    ghost counters: { Self.Port → Counters };

    /// The states in which a port may be.
    ghost allowed_states: { PortState → Type 0 };

    /// `call_steps line call before after n` says that the call may take `n` atomic steps, given the port's views
    /// before and after it.
    ghost call_steps: { Self → Call → View → View → ℕ → Type 0 };

    /// The maximum number of atomic steps of one call of a port, whatever other nodes do meanwhile.
    ghost max_steps: { Self → ℕ };

    /// The port was opened together with the line.
    ghost belongs: { Self → Self.Port → Type 0 };

    /// The label of the line.
    ghost label_of: { Self → ℕ };

    /// The configuration of the line.
    ghost config_of: { Self → LineConfig };

    /// Returns the label that the line was opened with.
    fn label(&self) -> u64
        ensures { result ≡ label_of self.now };

    /// Returns the number of nodes. They are numbered from 1.
    fn nodes(&self) -> u64
        ensures { result ≡ (config_of self.now).nodes };

    /// Returns the port's node.
    fn node(port: &Self::Port) -> u64
        ensures { result ≡ (view port.now).node };

    /// Returns the state after the port's last call, or `Idle` before the first call. Reads no shared word.
    fn state(port: &Self::Port) -> PortState
        ensures state { result ≡ (view port.now).state }
        ensures allowed { allowed_states result };

    /// Returns `true` if the port has the line's label. Two lines may have the same label, so this is weaker than
    /// `belongs`. It does not say which node holds the line.
    fn owns(&self, port: &Self::Port) -> bool
        ensures { IsTrue result ↔ ((view port.now).label ≡ label_of self.now) };

    /// Returns the line's bytes, as the holder sees them.
    fn bytes(port: &Self::Port) -> &Line64
        requires { (view port.now).state ≡ PortState.Holding }
        ensures bytes { result.now ≡ (turn port.now).bytes }
        ensures turn { IsTurn (view port.now) (turn port.now) };

    /// Returns the number of turns left, including the current one, which is at least 1. Each end as served uses up a
    /// turn. Returns `None` if the line has no lease, which is a limit on the number of its turns.
    fn turns_left(&self, port: &Self::Port) -> Option<u64>
        requires belongs { belongs self.now port.now }
        requires state { (view port.now).state ≡ PortState.Holding }
        ensures left { result ≡ turns_left (config_of self.now).lease (view port.now).ends }
        ensures not_zero { result ≢ Some 0 };

    /// Writes those of `bytes` that `mask` selects into the holder's port. Other nodes see them after the release.
    /// Takes no atomic step.
    fn write(port: &mut Self::Port, mask: Mask, bytes: &Line64)
        requires { (view port.old).state ≡ PortState.Holding }
        ensures view { view port.new ≡ view port.old }
        ensures turn { turn port.new ≡ turn_after (turn port.old) mask.0 bytes.now.bytes }
        ensures counters { counters port.new ≡ counters port.old }
        ensures belongs { (line : Self) → belongs line port.old → belongs line port.new };

    /// Requests the line, and answers at once whether the request is granted, is queued, or found the line closed.
    /// `Busy` means that the call made no request, because the node's last one is not clear (`is_clear`).
    ///
    /// `Closed` means that the request was at its turn on a closed line, and that this call has released the line to
    /// the next node.
    fn enqolb(&self, port: &mut Self::Port) -> Enq
        requires belongs { belongs self.now port.old }
        requires state { IsTrue (may_ask (view port.old).state) }
        ensures belongs { belongs self.now port.new }
        ensures enqueues { Enqueues K.allows (view port.old) (view port.new)
            (turn port.new) result }
        ensures counts { Counts (call_steps self.now) (max_steps self.now) (call.asks result)
            (view port.old) (view port.new) (counters port.old) (counters port.new) };

    /// Polls the request. If the request is at its turn and the line is not closed, the port takes the line and holds
    /// it.
    ///
    /// `Closed` means that the request was at its turn on a closed line, and that this call has released the line to
    /// the next node.
    fn poll(&self, port: &mut Self::Port) -> Poll
        requires belongs { belongs self.now port.old }
        requires state { (view port.old).state ≡ PortState.Queued }
        ensures belongs { belongs self.now port.new }
        ensures polls { Polls K.allows (view port.old) (view port.new) (turn port.new) result }
        ensures counts { Counts (call_steps self.now) (max_steps self.now) (call.polls result)
            (view port.old) (view port.new) (counters port.old) (counters port.new) };

    /// Withdraws the request. If the request is at its turn and the line is not closed, the port takes the line and
    /// holds it instead.
    ///
    /// `Closed` means that the request was at its turn on a closed line, and that this call has released the line to
    /// the next node. A withdrawn request is not clear before a release has passed it and freed its node, and may
    /// become clear still later.
    fn withdraw(&self, port: &mut Self::Port) -> Out
        requires belongs { belongs self.now port.old }
        requires state { (view port.old).state ≡ PortState.Queued }
        ensures belongs { belongs self.now port.new }
        ensures withdraws { Withdraws K.allows (view port.old) (view port.new)
            (turn port.new) result }
        ensures counts { Counts (call_steps self.now) (max_steps self.now) (call.withdraws result)
            (view port.old) (view port.new) (counters port.old) (counters port.new) };

    /// Returns `true` if the port's last request is clear, so that its next request is not answered `Busy`. Makes no
    /// request.
    ///
    /// A request is clear once no other node will use, because of it, the word that belongs to its node. The call takes
    /// at most one atomic step, and the port's view records what it found.
    fn is_clear(&self, port: &mut Self::Port) -> bool
        requires belongs { belongs self.now port.old }
        requires state { IsTrue (may_ask (view port.old).state) }
        ensures belongs { belongs self.now port.new }
        ensures found { LooksIfClear K.allows (view port.old) (view port.new) result }
        ensures counts { Counts (call_steps self.now) (max_steps self.now)
            (call.looks_if_clear result) (view port.old) (view port.new) (counters port.old)
            (counters port.new) };

    /// Ends the holder's request as served, and releases the line. `K` must allow the change that the turn made. If
    /// this turn is the last of the lease, the line closes, as by `shut`.
    fn deqolb(&self, port: &mut Self::Port)
        requires belongs { belongs self.now port.old }
        requires state { (view port.old).state ≡ PortState.Holding }
        requires allowed { MayRelease K.allows (view port.old) (turn port.old) }
        ensures belongs { belongs self.now port.new }
        ensures releases { Releases K.allows false (view port.old) (view port.new) (turn port.old) }
        ensures counts { Counts (call_steps self.now) (max_steps self.now) call.releases
            (view port.old) (view port.new) (counters port.old) (counters port.new) };

    /// Ends the holder's request as served, and releases the line closed. No later request is served, not even one that
    /// is already queued.
    fn shut(&self, port: &mut Self::Port)
        requires belongs { belongs self.now port.old }
        requires state { (view port.old).state ≡ PortState.Holding }
        requires allowed { MayRelease K.allows (view port.old) (turn port.old) }
        ensures belongs { belongs self.now port.new }
        ensures releases { Releases K.allows true (view port.old) (view port.new) (turn port.old) }
        ensures counts { Counts (call_steps self.now) (max_steps self.now) call.releases
            (view port.old) (view port.new) (counters port.old) (counters port.new) };

    /// Merges the views of two ports, and proves that at most one of them holds. The call is for proofs, and returns
    /// nothing.
    ///
    /// It costs one load, which `counters` does not count. At that load the proof opens the invariant.
    fn meet(&self, a: &mut Self::Port, b: &mut Self::Port)
        requires belongs_a { belongs self.now a.old }
        requires belongs_b { belongs self.now b.old }
        ensures belongs_a { belongs self.now a.new }
        ensures belongs_b { belongs self.now b.new }
        ensures tell { MergesViews K.allows (view a.old) (view b.old) (view a.new) (view b.new) }
        ensures turn_a { turn a.new ≡ turn a.old }
        ensures turn_b { turn b.new ≡ turn b.old }
        ensures counters_a { counters a.new ≡ counters a.old }
        ensures counters_b { counters b.new ≡ counters b.old };

    /// Finishes the line and returns its bytes. The caller hands in the ports of all nodes, in any order.
    ///
    /// The call refuses if a node waits or holds the line, if the port of any node is missing, if a port has another
    /// label, or if an allocation fails. The caller must not hand in a port of another line that has this line's label.
    /// A refusal returns its cause, the line, and the ports in the order in which they were handed in.
    fn finish(
        self,
        alloc: Global,
        ports: Vec<Self::Port>,
    ) -> Result<Line64, Unfinished<Self, Self::Port>>
        requires belongs { All (λ port. (view port).label ≡ label_of self
            → belongs self port) ports.items }
        ensures finished { IfOk result (λ line.
            IsFinished K.good K.allows (label_of self) (config_of self)
            (map view ports.items) line.bytes) }
        ensures why { IfErr result (λ back.
            MayRefuse (label_of self) (config_of self).nodes (map view ports.items) back.why) }
        ensures line { IfErr result (λ back. back.line ≡ self) }
        ensures ports { IfErr result (λ back. back.ports.items ≡ ports.items) };

    /// What is true of each port of the line between calls.
    ghost sound: { (line : Self) (port : Self.Port) → belongs line port
        → IsSound K.good K.allows (label_of line) (config_of line) (view port) };
}
