//! Tests lines that a program opens with the functions of one kind of line, and not through the trait `OpenLine`.

use crate::tests::rows::{expect_at, expect_eq};
use crate::tests::{Part, over_each};
use line_generic::{Discipline, Line, Payload};
use line_lanes::Line64;
use qolb_model::{Free, LineSync, OpenError, PortState};
use std::alloc::Global;
use std::mem::size_of;
use std::process::Abort;
use std::test::Fail;

fn a_line_is_opened<R: Abort, Q: Discipline<Free>>(rt: &R, alloc: Global) -> Result<(), Fail> {
    let (line, ports) = Line::<Free, Q>::open(alloc, 3, 2, Line64::zero())?;
    expect_eq(
        rt,
        "label, nodes, ports",
        (line.label(), line.nodes(), ports.len()),
        (3, 2, 2),
    );
    for (at, port) in ports.iter().enumerate() {
        let node = Line::<Free, Q>::node(port);
        let state = Line::<Free, Q>::state(port);
        let found = (node, state, line.steps(port), line.owns(port));
        expect_at(rt, &at, found, (at as u64 + 1, PortState::Idle, 0, true));
    }
    let refused = Line::<Free, Q>::open(alloc, 3, 201, Line64::zero()).err();
    expect_eq(rt, "201 nodes", refused, Some(OpenError::Nodes));
    Ok(())
}

fn a_line_is_opened_with_a_lease<R: Abort, Q: Discipline<Free>>(
    rt: &R,
    alloc: Global,
) -> Result<(), Fail> {
    let zero = Line64::zero();
    let (line, ports) = Line::<Free, Q>::open_leased(alloc, 4, 1, zero, 2)?;
    expect_eq(
        rt,
        "label, nodes, ports",
        (line.label(), line.nodes(), ports.len()),
        (4, 1, 1),
    );
    let no_nodes = Line::<Free, Q>::open_leased(alloc, 4, 0, zero, 0).err();
    expect_eq(rt, "no nodes", no_nodes, Some(OpenError::Nodes));
    let no_turn = Line::<Free, Q>::open_leased(alloc, 4, 1, zero, 0).err();
    expect_eq(rt, "no turn", no_turn, Some(OpenError::Lease));
    Ok(())
}

/// Opens lines by each of a lock's own calls.
pub(super) fn each_opening<R: Abort, Q: Discipline<Free>>(
    rt: &R,
    alloc: Global,
) -> Result<(), Fail> {
    a_line_is_opened::<R, Q>(rt, alloc)?;
    a_line_is_opened_with_a_lease::<R, Q>(rt, alloc)
}

#[test]
fn lines_are_opened(rt: HostRuntime) -> Result<(), Fail> {
    over_each(&rt, rt.alloc(), Part::Opening)
}

/// A slot takes two cache lines, so that no two slots share one.
#[test]
fn a_slot_has_128_bytes(rt: HostRuntime) -> Result<(), Fail> {
    expect_eq(&rt, "a slot", size_of::<Payload>(), 128);
    Ok(())
}
