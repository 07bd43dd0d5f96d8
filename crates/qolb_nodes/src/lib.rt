//! A static library with which C code makes calls on nodes, whatever the kind of their line. `c/src/proved.h` declares
//! the exported functions, and the files of `c/src` call them.
//!
//! C code refers to each node by a handle. A handle is a struct with one pointer, which is null if the handle has no
//! node. An exported function receives a handle, and makes its call on the node of this handle. Each call on a node
//! first checks the node's state. If this state does not allow the call, the call changes nothing and answers `Misuse`.
//! Only `qolb_open_proved_` and `qolb_memory_proved_` take the kind of a line as an argument.
#![tactic(auto)]

ghost use Rattle.std.specs.Prelude.{◌≡◌, true, false, None};
ghost use Rattle.qolb_nodes.specs.declared.answer.Answer.{Answer};
ghost use Rattle.qolb_nodes.specs.Calls.{Enqolbs, Polls, Waits, Prepends, LinksUp, Withdraws, LooksIfClear, Reads, ReadsLane, Writes, WritesLane, AddsLane, Releases};
ghost use Rattle.qolb_nodes.specs.Memory.{TellsMemory};
ghost use Rattle.qolb_nodes.specs.Opens.{Opens, config_by};
ghost use Rattle.qolb_nodes.specs.Waits.{nowhere};
ghost use Rattle.qolb_nodes.specs.Exports.{Calls, Closes, TurnsLeft, WaitsAt, WentTo, node_number, label_told, state_told};
ghost use Rattle.qolb_nodes.specs.Numbers.{number_of, state_number};

mod answer;
mod any_node;
mod handle;
mod layout;
mod node;
mod opening;

pub use answer::Answer;
pub use any_node::AnyNode;
pub use handle::Handle;
use line_lanes::{Line64, Mask};
pub use node::{LineFor, NO_LEASE, Node, Shown};
pub use opening::{memory, open};
use qolb_model::{LineConfig, PortState};
use std::alloc::Global;

/// 64 bytes, as C passes them.
#[repr(C)]
#[derive(Drop)]
pub struct Bytes {
    pub bytes: [u8; 64],
}

/// The data about a node that C code reads: its number, its state, and the words on which it and its successors wait.
#[repr(C)]
#[derive(Drop)]
pub struct Look {
    /// The node's number, which counts from 1.
    pub number: u64,
    /// The label of the node's line.
    pub label: u64,
    /// The number of turns left, including the holder's own. The number is 2^64 - 1 without a lease, and 0 if the node
    /// does not hold the line.
    pub turns_left: u64,
    /// The word on which the node waits, if it waits. This word stays the same from the request until its grant.
    pub wait_word: u64,
    /// The word of the next holder after the node's last release, or after the node was told that the line is closed.
    /// If there is no next holder, this is a number on which no node waits.
    pub went_to: u64,
    /// The word of the waiter behind the next holder, which should be woken one turn early. If there is no such waiter,
    /// this is a number on which no node waits.
    pub went_ahead: u64,
    /// The number of the node's state, which counts from 1.
    pub state: u32,
}

/// A number that is not a word of any line, so no node waits there.
const NO_WORD: u64 = u64::MAX;

/// Returns the number that represents an answer in C code.
fn number(answer: Answer) -> u32
    ensures { result ≡ number_of answer }
{
    answer as u32
}

/// Returns the number that represents a node's state in C code. For a handle without a node, this number is 0.
fn state_number(state: PortState) -> u32
    ensures { result ≡ state_number state }
{
    match state {
        PortState::Idle => 1,
        PortState::Linking => 2,
        PortState::Queued => 3,
        PortState::Holding => 4,
        PortState::Left => 5,
        PortState::Rolled => 6,
        PortState::Shut => 7,
    }
}

/// Makes a call on the node of the handle, and returns the number of the answer. For an empty handle, the answer is
/// `Misuse`.
macro_rules! told {
    ($handle:ident, $node:ident => $call:expr) => {
        match $handle.get_mut() {
            None => number(Answer::Misuse),
            Some($node) => number($call),
        }
    };
}

/// Opens a line, and puts its nodes into the first handles of the given array.
///
/// The line's first holder finds the bytes of `opening`. `kind` is 0 for a ring, 1 for a link line, and 2 for a ticket
/// line. The line closes at the last turn of its lease; a lease of 2^64 - 1 means that it has none.
#[unsafe(no_mangle)]
pub extern "C" fn qolb_open_proved_(
    alloc: Global,
    kind: u32,
    label: u64,
    nodes: u64,
    lease: u64,
    opening: &Bytes,
    out: &mut [Handle],
) -> u32
    ensures { (answer : Answer) × (result ≡ number_of answer)
        × Opens kind label (config_by nodes lease opening.now.bytes) out.old out.new answer }
{
    let config = LineConfig {
        nodes,
        opening: Line64 {
            bytes: opening.bytes,
        },
        lease: if lease == NO_LEASE { None } else { Some(lease) },
    };
    number(open(alloc, kind, label, config, out))
}

/// Returns the number of bytes that the table of such a line takes. Does not allocate.
///
/// Returns 0 if `qolb_open_proved_` would refuse this kind or number of nodes.
#[unsafe(no_mangle)]
pub extern "C" fn qolb_memory_proved_(kind: u32, nodes: u64) -> u64
    ensures { TellsMemory kind nodes result }
{
    memory(kind, nodes)
}

/// Requests the line, and answers at once. Does not block.
#[unsafe(no_mangle)]
pub extern "C" fn qolb_enqolb_proved_(node: &mut Handle) -> u32
    ensures { Calls Enqolbs node.old.held node.new.held result }
{
    told!(node, called => called.enqolb())
}

/// Polls whether the turn of the request has come. Does not block.
#[unsafe(no_mangle)]
pub extern "C" fn qolb_poll_proved_(node: &mut Handle) -> u32
    ensures { Calls Polls node.old.held node.new.held result }
{
    told!(node, called => called.poll())
}

/// Polls at most `polls` times whether the turn of the request has come, with a pause between two polls.
#[unsafe(no_mangle)]
pub extern "C" fn qolb_wait_proved_(node: &mut Handle, polls: u64) -> u32
    ensures { Calls (Waits polls) node.old.held node.new.held result }
{
    told!(node, called => called.wait(polls))
}

/// Makes a request that must then be linked to the request before it. Only a node of a link line allows this call.
#[unsafe(no_mangle)]
pub extern "C" fn qolb_prepend_proved_(node: &mut Handle) -> u32
    ensures { Calls Prepends node.old.held node.new.held result }
{
    told!(node, called => called.prepend())
}

/// Links the request to the request before it. Only a node of a link line allows this call.
#[unsafe(no_mangle)]
pub extern "C" fn qolb_link_proved_(node: &mut Handle) -> u32
    ensures { Calls LinksUp node.old.held node.new.held result }
{
    told!(node, called => called.link())
}

/// Withdraws the request, unless its turn has come.
#[unsafe(no_mangle)]
pub extern "C" fn qolb_withdraw_proved_(node: &mut Handle) -> u32
    ensures { Calls Withdraws node.old.held node.new.held result }
{
    told!(node, called => called.withdraw())
}

/// Checks whether the node could now request the line without getting the answer `Busy`. Makes no request.
#[unsafe(no_mangle)]
pub extern "C" fn qolb_clear_proved_(node: &mut Handle) -> u32
    ensures { Calls LooksIfClear node.old.held node.new.held result }
{
    told!(node, called => called.is_clear())
}

/// Copies the holder's line to `out`.
#[unsafe(no_mangle)]
pub extern "C" fn qolb_read_proved_(node: &mut Handle, out: &mut Bytes) -> u32
    ensures calls { Calls (Reads out.old.bytes out.new.bytes) node.old.held node.new.held result }
    ensures empty { node.old.held ≡ None → out.new.bytes ≡ out.old.bytes }
{
    told!(node, called => called.read(&mut out.bytes))
}

/// Writes those bytes of the line that the mask selects, for the holder. Bit k of the mask selects byte k.
#[unsafe(no_mangle)]
pub extern "C" fn qolb_write_proved_(node: &mut Handle, mask: u64, bytes: &Bytes) -> u32
    ensures { Calls (Writes mask bytes.now.bytes) node.old.held node.new.held result }
{
    let line = Line64 { bytes: bytes.bytes };
    told!(node, called => called.write(Mask(mask), &line))
}

/// Reads one of the eight lanes, for the holder.
#[unsafe(no_mangle)]
pub extern "C" fn qolb_read_lane_proved_(node: &mut Handle, lane: u64, out: &mut u64) -> u32
    ensures calls { Calls (ReadsLane lane out.old out.new) node.old.held node.new.held result }
    ensures empty { node.old.held ≡ None → out.new ≡ out.old }
{
    told!(node, called => called.read_lane(lane, out))
}

/// Writes one of the eight lanes, for the holder.
#[unsafe(no_mangle)]
pub extern "C" fn qolb_write_lane_proved_(node: &mut Handle, lane: u64, value: u64) -> u32
    ensures { Calls (WritesLane lane value) node.old.held node.new.held result }
{
    told!(node, called => called.write_lane(lane, value))
}

/// Adds `by` modulo 2^64 to one of the eight lanes, for the holder. `was` receives the previous value of the lane.
#[unsafe(no_mangle)]
pub extern "C" fn qolb_add_lane_proved_(node: &mut Handle, lane: u64, by: u64, was: &mut u64) -> u32
    ensures calls { Calls (AddsLane lane by was.old was.new) node.old.held node.new.held result }
    ensures empty { node.old.held ≡ None → was.new ≡ was.old }
{
    told!(node, called => called.add_lane(lane, by, was))
}

/// Releases the line.
#[unsafe(no_mangle)]
pub extern "C" fn qolb_deqolb_proved_(node: &mut Handle) -> u32
    ensures { Calls (Releases false) node.old.held node.new.held result }
{
    told!(node, called => called.release(false))
}

/// Releases the line, and closes it.
#[unsafe(no_mangle)]
pub extern "C" fn qolb_shut_proved_(node: &mut Handle) -> u32
    ensures { Calls (Releases true) node.old.held node.new.held result }
{
    told!(node, called => called.release(true))
}

/// Tells C code the number and the state of the node, the word on which it waits, and which waiters C code should wake
/// after a release.
///
/// If there is no node, the number, the label, the turns left and the state are 0, and the words are 2^64 - 1.
#[unsafe(no_mangle)]
pub extern "C" fn qolb_look_proved_(node: &mut Handle, out: &mut Look)
    ensures held { node.new.held ≡ node.old.held }
    ensures number { out.new.number ≡ node_number node.old.held }
    ensures label { out.new.label ≡ label_told node.old.held }
    ensures state { out.new.state ≡ state_told node.old.held }
    ensures turns { TurnsLeft node.old.held out.new.turns_left }
    ensures word { WaitsAt node.old.held out.new.wait_word }
    ensures went_to { WentTo node.old.held out.new.went_to }
    ensures empty { node.old.held ≡ None → out.new.went_ahead ≡ nowhere }
{
    *out = match node.get_mut() {
        None => Look {
            number: 0,
            label: 0,
            turns_left: 0,
            wait_word: NO_WORD,
            went_to: NO_WORD,
            went_ahead: NO_WORD,
            state: 0,
        },
        Some(called) => {
            let shown = called.shown();
            Look {
                number: shown.number,
                label: shown.label,
                turns_left: shown.turns_left,
                wait_word: shown.wait_word,
                went_to: shown.went_to,
                went_ahead: shown.went_ahead,
                state: state_number(shown.state),
            }
        }
    };
}

/// Frees a node that neither waits nor holds the line. The last node of a line frees the line.
#[unsafe(no_mangle)]
pub extern "C" fn qolb_close_proved_(alloc: Global, node: &mut Handle) -> u32
    ensures { Closes node.old.held node.new.held result }
{
    number(node.close(alloc))
}
