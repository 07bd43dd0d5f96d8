//! Opens a line for C code, and puts the nodes of the line into handles.
ghost use Rattle.std.specs.Prelude.{◌≡◌, ◌≢◌, ◌≤◌, ◌++◌, ℕ, true, false, length, map, drop, Some, None, IsTrue, IfOk, IfErr};
ghost use Rattle.qolb_model.specs.Opening.{MayOpen, MayNotOpen};
ghost use Rattle.qolb_nodes.specs.Opens.{AreOfLine, held_by, AreEmpty, HasNode, AreOpened, WhyRefused, refused_by};
ghost use Rattle.qolb_nodes.specs.Memory.{TellsMemory};

use crate::answer::Answer;
use crate::any_node::{AnyNode, IntoAny, nodes_of_kind};
use crate::handle::Handle;
use crate::node::Node;
use line_kinds::ALL;
use qolb_model::{Free, LineConfig, MAX_NODES, OpenError, OpenLine};
use std::alloc::Global;
use std::sync::Arc;

/// Opens a line of this kind, and puts its nodes into the first handles of `out`.
pub fn open(alloc: Global, kind: u32, label: u64, config: LineConfig, out: &mut [Handle]) -> Answer
    ensures opened { result ≡ Answer.Done → AreOpened kind label config out.old out.new }
    ensures unchanged { result ≢ Answer.Done → held_by out.new ≡ held_by out.old }
    ensures why { result ≢ Answer.Done → WhyRefused kind config out.old result }
{
    let Some(&lines) = ALL.get(kind as usize) else {
        return Answer::BadKind;
    };
    if let Err(error) = config.check() {
        return refusal(error);
    }
    if (out.len() as u64) < config.nodes {
        return Answer::TooFew;
    }
    if !are_empty(out, config.nodes as usize) {
        return Answer::Occupied;
    }
    match nodes_of_kind(alloc, lines, label, config) {
        Ok(nodes) => {
            fill(out, nodes);
            Answer::Done
        }
        Err(error) => refusal(error),
    }
}

/// Returns the number of bytes that the table of such a line takes, or 0 if `open` would refuse this kind or number of
/// nodes.
pub fn memory(kind: u32, nodes: u64) -> u64
    ensures { TellsMemory kind nodes result }
{
    if nodes < 1 || nodes > MAX_NODES {
        return 0;
    }
    match ALL.get(kind as usize) {
        Some(lines) => lines.bytes_for(nodes),
        None => 0,
    }
}

/// Returns the answer for a line that was not opened.
fn refusal(error: OpenError) -> Answer
    ensures { result ≡ refused_by error }
{
    match error {
        OpenError::Memory => Answer::NoMemory,
        OpenError::Nodes => Answer::BadNodes,
        OpenError::Lease => Answer::BadLease,
    }
}

/// Returns `true` if the first `many` of the handles are empty.
fn are_empty(handles: &mut [Handle], many: usize) -> bool
    requires { many ≤ length handles.old }
    ensures same { held_by handles.new ≡ held_by handles.old }
    ensures empty { result ≡ true → AreEmpty many handles.old }
    ensures occupied { result ≡ false → HasNode many handles.old }
{
    for place in 0..many {
        if !handles[place].is_empty() {
            return false;
        }
    }
    true
}

/// Opens a line, and returns its nodes.
///
/// # Errors
///
/// The call fails for the same reasons as `OpenLine::open_with`.
pub(crate) fn new_nodes<L: OpenLine<Free> + Drop>(
    alloc: Global,
    label: u64,
    config: LineConfig,
) -> Result<Vec<Node<L>>, OpenError>
where
    L::Port: Drop,
    ensures nodes { IfOk result (λ nodes. AreOfLine L.view label config nodes.items) }
    ensures may_open { IfOk result (λ _. MayOpen config) }
    ensures why { IfErr result (λ error. MayNotOpen config error) }
{
    let (line, ports) = L::open_with(alloc, label, config)?;
    let Ok(line) = Arc::new(alloc, line) else {
        return Err(OpenError::Memory);
    };
    let Ok(mut nodes) = Vec::with_capacity(alloc, ports.len()) else {
        return Err(OpenError::Memory);
    };
    for port in ports {
        let Ok(share) = Arc::try_clone(&line) else {
            return Err(OpenError::Memory);
        };
        let Ok(()) = nodes.push(Node::new(share, port)) else {
            return Err(OpenError::Memory);
        };
    }
    Ok(nodes)
}

/// Puts each of the nodes into a box.
///
/// # Errors
///
/// The call fails with `Memory` if the allocator returns no memory.
pub(crate) fn boxed<N: IntoAny>(
    alloc: Global,
    nodes: Vec<N>,
) -> Result<Vec<Box<AnyNode>>, OpenError>
    ensures nodes { IfOk result (λ boxes.
        map (λ node. node.value) boxes.items ≡ map N.as_any nodes.items) }
    ensures why { IfErr result (λ error. error ≡ OpenError.Memory) }
{
    let Ok(mut boxes) = Vec::with_capacity(alloc, nodes.len()) else {
        return Err(OpenError::Memory);
    };
    for node in nodes {
        let Ok(node) = Box::new(alloc, node.into_any()) else {
            return Err(OpenError::Memory);
        };
        let Ok(()) = boxes.push(node) else {
            return Err(OpenError::Memory);
        };
    }
    Ok(boxes)
}

/// Puts the nodes into the first of the handles, which are empty.
fn fill(out: &mut [Handle], nodes: Vec<Box<AnyNode>>)
    requires room { length nodes.items ≤ length out.old }
    requires empty { AreEmpty (length nodes.items) out.old }
    ensures { held_by out.new ≡ map (λ node. Some node.value) nodes.items
        ++ drop (length nodes.items) (held_by out.old) }
{
    let mut place = 0;
    for node in nodes {
        out[place].put(node);
        place += 1;
    }
}
