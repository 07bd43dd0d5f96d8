//! The type of a node whose line may be of any kind: a ring, a link line or a ticket line.
ghost use Rattle.std.specs.Prelude.{◌≡◌, ◌<◌, Some, MatchOption, map, IfOk, IfErr};
ghost use Rattle.qolb_model.specs.Opening.{MayNotOpen};
ghost use Rattle.qolb_nodes.specs.Calls.{view_of, state_of, Enqolbs, Polls, Waits, Prepends, LinksUp, Withdraws, LooksIfClear, Reads, ReadsLane, Writes, WritesLane, WritesLaneAt, AddsLane, Releases, TellsTurns, TellsWord};
ghost use Rattle.qolb_nodes.specs.Opens.{AreNewNodes};
ghost use Rattle.qolb_nodes.specs.HolderBytes.{Holds, HasBytes, HasLane, IsLane};
ghost use Rattle.qolb_nodes.specs.Waits.{went_to_of};
ghost use Rattle.qolb_nodes.specs.declared.any_node.AnyNode.{AnyNode};

use crate::answer::Answer;
use crate::node::{Node, Shown};
use crate::opening::{boxed, new_nodes};
use line_generic::SleepersElsewhere;
use line_kinds::{LinkLine, Lock, RingLine, TicketLine};
use line_lanes::{Line64, Mask, lane};
use qolb_model::{Free, LineConfig, OpenError};
use std::alloc::Global;

/// The number of lanes of a line.
const LANES: u64 = 8;

/// A ring.
type Ring = RingLine<Free, SleepersElsewhere>;

/// A link line.
pub(crate) type Link = LinkLine<Free, SleepersElsewhere>;

/// A ticket line.
type Ticket = TicketLine<Free, SleepersElsewhere>;

/// A node of a line of any kind.
#[derive(Drop)]
pub enum AnyNode {
    /// A node of a ring.
    Ring(Node<Ring>),
    /// A node of a link line.
    Link(Node<Link>),
    /// A node of a ticket line.
    Ticket(Node<Ticket>),
}

/// Makes a call of the node, whatever the kind of its line.
macro_rules! of_any {
    ($any:expr, $node:ident => $done:expr) => {
        match $any {
            AnyNode::Ring($node) => $done,
            AnyNode::Link($node) => $done,
            AnyNode::Ticket($node) => $done,
        }
    };
}

impl AnyNode {
    /// Returns the data about the node that C code reads.
    #[inline(always)]
    pub fn shown(&self) -> Shown
        ensures number { result.number ≡ (view_of self.now).node }
        ensures label { result.label ≡ (view_of self.now).label }
        ensures state { result.state ≡ state_of self.now }
        ensures turns { TellsTurns self.now result.turns_left }
        ensures word { TellsWord self.now result.wait_word }
        ensures went_to { went_to_of self.now ≡ Some result.went_to }
    {
        of_any!(self, node => node.shown())
    }

    /// Requests the line, and answers at once.
    pub fn enqolb(&mut self) -> Answer
        ensures { Enqolbs self.old self.new result }
    {
        match self {
            AnyNode::Ring(node) => node.enqolb(),
            AnyNode::Link(node) => ask_link(node),
            AnyNode::Ticket(node) => node.enqolb(),
        }
    }

    /// Polls whether the turn of the request has come.
    pub fn poll(&mut self) -> Answer
        ensures { Polls self.old self.new result }
    {
        self.wait(1)
    }

    /// Polls at most `polls` times, with a pause between two polls.
    #[inline(always)]
    pub fn wait(&mut self, polls: u64) -> Answer
        ensures { Waits polls self.old self.new result }
    {
        of_any!(self, node => node.wait(polls))
    }

    /// Makes a request without linking it. Only a node of a link line allows this call.
    pub fn prepend(&mut self) -> Answer
        ensures { Prepends self.old self.new result }
    {
        match self {
            AnyNode::Link(node) => node.prepend(),
            _ => Answer::Misuse,
        }
    }

    /// Links the request to the request before it. Only a node of a link line allows this call.
    pub fn link(&mut self) -> Answer
        ensures { LinksUp self.old self.new result }
    {
        match self {
            AnyNode::Link(node) => node.link(),
            _ => Answer::Misuse,
        }
    }

    /// Withdraws the request, unless its turn has come.
    pub fn withdraw(&mut self) -> Answer
        ensures { Withdraws self.old self.new result }
    {
        of_any!(self, node => node.withdraw())
    }

    /// Returns `Done` if the node's last request is clear, and otherwise `Busy`. Makes no request.
    pub fn is_clear(&mut self) -> Answer
        ensures { LooksIfClear self.old self.new result }
    {
        of_any!(self, node => node.is_clear())
    }

    /// Returns the line's bytes, if the node holds the line.
    fn bytes(&self) -> Option<&Line64>
        ensures { MatchOption result (¬ Holds self.now) (λ line. HasBytes self.now line.now) }
    {
        of_any!(self, node => node.bytes())
    }

    /// Copies the holder's line to `out`.
    pub fn read(&self, out: &mut [u8; 64]) -> Answer
        ensures { Reads out.old out.new self.now self.now result }
    {
        match self.bytes() {
            Some(line) => {
                *out = line.bytes;
                Answer::Done
            }
            None => Answer::Misuse,
        }
    }

    /// Returns lane `k` of the eight lanes, if the node holds the line.
    fn lane(&self, k: u64) -> Option<u64>
        ensures { MatchOption result (¬ HasLane self.now k) (λ value. IsLane self.now k value) }
    {
        if k >= LANES {
            return None;
        }
        match self.bytes() {
            Some(line) => Some(lane(line, k as usize)),
            None => None,
        }
    }

    /// Reads lane `k` of the eight lanes, for the holder.
    pub fn read_lane(&self, k: u64, out: &mut u64) -> Answer
        ensures { ReadsLane k out.old out.new self.now self.now result }
    {
        match self.lane(k) {
            Some(value) => {
                *out = value;
                Answer::Done
            }
            None => Answer::Misuse,
        }
    }

    /// Writes lane `k` of the eight lanes, for the holder.
    pub fn write_lane(&mut self, k: u64, value: u64) -> Answer
        ensures { WritesLane k value self.old self.new result }
    {
        if k >= LANES {
            return Answer::Misuse;
        }
        self.write_lane_at(k as usize, value)
    }

    /// Writes lane `k` of the eight lanes, for the holder.
    #[inline(always)]
    fn write_lane_at(&mut self, k: usize, value: u64) -> Answer
        requires { k < 8 }
        ensures { WritesLaneAt k value self.old self.new result }
    {
        of_any!(self, node => node.write_lane(k, value))
    }

    /// Adds `by` modulo 2^64 to lane `k`, for the holder. `was` receives the previous value of the lane.
    pub fn add_lane(&mut self, k: u64, by: u64, was: &mut u64) -> Answer
        ensures { AddsLane k by was.old was.new self.old self.new result }
    {
        match self.lane(k) {
            Some(value) => {
                let answer = self.write_lane(k, value.wrapping_add(by));
                *was = value;
                answer
            }
            None => Answer::Misuse,
        }
    }

    /// Writes those bytes of the line that the mask selects, for the holder.
    #[inline(always)]
    pub fn write(&mut self, mask: Mask, bytes: &Line64) -> Answer
        ensures { Writes mask.0 bytes.now.bytes self.old self.new result }
    {
        of_any!(self, node => node.write(mask, bytes))
    }

    /// Releases the line, and closes it if `shut` is set.
    #[inline(always)]
    pub fn release(&mut self, shut: bool) -> Answer
        ensures { Releases shut self.old self.new result }
    {
        match self {
            AnyNode::Ring(node) => release_ring(node, shut),
            AnyNode::Link(node) => release_link(node, shut),
            AnyNode::Ticket(node) => node.release(shut),
        }
    }
}

/// Releases a ring, and closes it if `shut` is set.
///
/// The function is not inlined, so that the calls of other kinds save no registers for it.
#[inline(never)]
fn release_ring(node: &mut Node<Ring>, shut: bool) -> Answer
    ensures { Releases shut (AnyNode.Ring node.old) (AnyNode.Ring node.new) result }
{
    node.release(shut)
}

/// Releases a link line, and closes it if `shut` is set.
///
/// The function is not inlined, so that the calls of other kinds save no registers for it.
#[inline(never)]
fn release_link(node: &mut Node<Link>, shut: bool) -> Answer
    ensures { Releases shut (AnyNode.Link node.old) (AnyNode.Link node.new) result }
{
    node.release(shut)
}

/// Requests a link line.
///
/// The function is not inlined, so that the calls of other kinds save no registers for it.
#[inline(never)]
fn ask_link(node: &mut Node<Link>) -> Answer
    ensures { Enqolbs (AnyNode.Link node.old) (AnyNode.Link node.new) result }
{
    node.enqolb()
}

/// A node of some kind of line, which can become an `AnyNode`.
pub trait IntoAny: Drop {
    /// The node as an `AnyNode`.
    ghost as_any: { Self → AnyNode };

    /// Converts the node to an `AnyNode`.
    fn into_any(self) -> AnyNode
        ensures { result ≡ as_any self };
}

impl IntoAny for Node<Ring> {
    ghost as_any = { λ node. AnyNode.Ring node };

    fn into_any(self) -> AnyNode {
        AnyNode::Ring(self)
    }
}

impl IntoAny for Node<Link> {
    ghost as_any = { λ node. AnyNode.Link node };

    fn into_any(self) -> AnyNode {
        AnyNode::Link(self)
    }
}

impl IntoAny for Node<Ticket> {
    ghost as_any = { λ node. AnyNode.Ticket node };

    fn into_any(self) -> AnyNode {
        AnyNode::Ticket(self)
    }
}

/// Opens a line of this kind, and returns its nodes, each in its own box.
///
/// # Errors
///
/// The call fails for the same reasons as `OpenLine::open_with`.
pub(crate) fn nodes_of_kind(
    alloc: Global,
    lines: Lock,
    label: u64,
    config: LineConfig,
) -> Result<Vec<Box<AnyNode>>, OpenError>
    ensures nodes { IfOk result (λ boxes.
        AreNewNodes lines label config (map (λ node. node.value) boxes.items)) }
    ensures why { IfErr result (λ error. MayNotOpen config error) }
{
    match lines {
        Lock::Ring => boxed(alloc, new_nodes::<Ring>(alloc, label, config)?),
        Lock::Link => boxed(alloc, new_nodes::<Link>(alloc, label, config)?),
        Lock::Ticket => boxed(alloc, new_nodes::<Ticket>(alloc, label, config)?),
    }
}
