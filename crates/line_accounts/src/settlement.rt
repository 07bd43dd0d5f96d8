//! Settles the accounts, which means that all lines are finished and their balances are added up.
ghost use Rattle.std.specs.Prelude.{◌≡◌, ◌+◌, ◌<◌, ◌≤◌, ℕ, All, List, length, map, slice_get, Some, IfOk, IfErr, IfSome, MatchBool, MatchOption};
ghost use Rattle.qolb_model.specs.Finishing.{EachNode, IsLeast};
ghost use Rattle.line_accounts.specs.Desks.{DeskOf, AreOver, IsDeskOver};
ghost use Rattle.line_accounts.specs.Settled.{all_paid_in, all_paid_out, all_opened, HasPort, LacksPort, AreAllThere, IsFirstMissing, AreSettled, MayNotSettle, IsBack, TakesLast};

use crate::answer::SettleError;
use crate::desk::Desk;
use crate::law::AccountLaw;
use line_lanes::lane_sum;
use qolb_model::LineSync;
use std::alloc::Global;

/// The error of `settle`, with what it hands back.
#[derive(Drop)]
pub struct Unsettled<L: LineSync<AccountLaw>> {
    pub why: SettleError,
    /// The lines and desks, as the caller handed them in. It is `None` if memory was refused, and then they are
    /// dropped.
    pub back: Option<(Vec<L>, Vec<Desk<L>>)>,
}

/// Returns `true` if some desk has the node's port of line `i`.
fn is_there<L: LineSync<AccountLaw>>(desks: &[Desk<L>], i: usize, node: u64) -> bool
    requires { All (λ desk. i < length desk.ports) desks.now }
    ensures { MatchBool result (HasPort L.view desks.now i node)
        (LacksPort L.view desks.now i node) }
{
    for desk in desks {
        if L::node(desk.port(i)) == node {
            return true;
        }
    }
    false
}

/// Returns the smallest node without a port of line `i`, or `None` if each node has one.
fn first_missing<L: LineSync<AccountLaw>>(line: &L, desks: &[Desk<L>], i: usize) -> Option<u64>
    requires { All (λ desk. i < length desk.ports) desks.now }
    ensures { MatchOption result (EachNode (L.config_of line.now).nodes
        (HasPort L.view desks.now i)) (λ node.
        IsLeast (L.config_of line.now).nodes (LacksPort L.view desks.now i)
        (HasPort L.view desks.now i) node) }
{
    for before in 0..line.nodes() {
        let node = before + 1;
        if !is_there(desks, i, node) {
            return Some(node);
        }
    }
    None
}

/// Returns the smallest line that has a node without a port, and the smallest such node, or `None` if there is no such
/// line.
fn find_missing<L: LineSync<AccountLaw>>(lines: &[L], desks: &[Desk<L>]) -> Option<(usize, u64)>
    requires { All (λ desk. length desk.ports ≡ length lines.now) desks.now }
    ensures { MatchOption result (AreAllThere L.view L.config_of lines.now desks.now) (λ found.
        IsFirstMissing L.view L.config_of lines.now desks.now found.0 found.1) }
{
    for i in 0..lines.len() {
        if let Some(node) = first_missing(&lines[i], desks, i) {
            return Some((i, node));
        }
    }
    None
}

/// Takes the last port of each desk. Returns `None` if memory was refused.
fn take_last<L: LineSync<AccountLaw>>(
    alloc: Global,
    desks: &mut Vec<Desk<L>>,
) -> Option<Vec<L::Port>>
where
    L::Port: Drop,
    requires { All (λ desk. 0 < length desk.ports) desks.old.items }
    ensures { IfSome result (λ ports. TakesLast desks.old.items desks.new.items ports.items) }
{
    let mut ports = Vec::with_capacity(alloc, desks.len()).ok()?;
    for desk in desks.iter_mut() {
        ports.push(desk.take_last()?).ok()?;
    }
    Some(ports)
}

/// Finishes all lines, the last line first. Returns `None` if memory was refused.
fn finish_all<L: LineSync<AccountLaw> + Drop>(
    alloc: Global,
    lines: Vec<L>,
    desks: Vec<Desk<L>>,
) -> Option<u128>
where
    L::Port: Drop,
    requires over { All (IsDeskOver L.belongs L.view lines.items) desks.items }
    requires there { AreAllThere L.view L.config_of lines.items desks.items }
    ensures total { IfSome result (λ total.
        total + all_paid_out desks.items
        ≡ all_opened L.config_of lines.items + all_paid_in desks.items) }
    ensures settled { IfSome result (λ _.
        AreSettled L.view L.label_of L.config_of lines.items desks.items) }
{
    let mut lines = lines;
    let mut desks = desks;
    let mut total = 0u128;
    while let Some(line) = lines.pop() {
        let ports = take_last(alloc, &mut desks)?;
        let last = line.finish(alloc, ports).ok()?;
        total += lane_sum(&last);
    }
    Some(total)
}

/// Finishes all lines together with the desks over them, and returns the sum of all balances. Before it finishes any
/// line, it looks for a node without a port on all lines.
pub fn settle<L: LineSync<AccountLaw> + Drop>(
    alloc: Global,
    lines: Vec<L>,
    desks: Vec<Desk<L>>,
) -> Result<u128, Unsettled<L>>
where
    L::Port: Drop,
    requires over { All (IsDeskOver L.belongs L.view lines.items) desks.items }
    ensures total { IfOk result (λ total.
        total + all_paid_out desks.items
        ≡ all_opened L.config_of lines.items + all_paid_in desks.items) }
    ensures settled { IfOk result (λ _.
        AreSettled L.view L.label_of L.config_of lines.items desks.items) }
    ensures there { IfOk result (λ _. AreAllThere L.view L.config_of lines.items desks.items) }
    ensures why { IfErr result (λ refused.
        MayNotSettle L.view L.config_of lines.items desks.items refused.why) }
    ensures back { IfErr result (λ refused. IsBack (lines, desks) refused.why refused.back) }
{
    if let Some((line, node)) = find_missing(&lines, &desks) {
        let line = line as u64;
        return Err(Unsettled {
            why: SettleError::Missing { line, node },
            back: Some((lines, desks)),
        });
    }
    match finish_all(alloc, lines, desks) {
        Some(total) => Ok(total),
        None => Err(Unsettled {
            why: SettleError::Memory,
            back: None,
        }),
    }
}
