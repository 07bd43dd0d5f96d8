//! Tests each call on each kind of line. The expected answers are written once, for any line. A test names the queue
//! algorithm of a line and not the type of the line. The prover then proves only once, for all queue algorithms, that a
//! line implements the trait of lines. If tests named types, it would prove this again for each of them.

mod asleep;
mod did;
mod elsewhere;
mod late;
mod lines;
mod named;
mod rows;
mod script;

use crate::checked_line::Instrumented;
use line_generic::{Discipline, Line};
use line_kinds::{ALL, Lock, for_kind};
use qolb_model::{Free, ParkingLine};
use rows::expect_eq;
use std::alloc::Global;
use std::process::Abort;
use std::sync::Wait;
use std::test::Fail;

/// What differs between the kinds of lines: the atomic steps of a release that passes two withdrawn nodes of three, and
/// of one that passes 199 of 200; and the bytes of the table of a line with four nodes.
#[derive(Drop)]
struct Known {
    few: u64,
    many: u64,
    table: usize,
}

/// What is tried over lines of each kind.
#[derive(Clone, Copy)]
pub(crate) enum Part {
    Lines(Row),
    /// Lines that are opened by a lock's own calls.
    Opening,
    /// Lines whose waiters sleep elsewhere name the next.
    Names,
}

/// What is tried over lines of one type.
#[derive(Clone, Copy)]
pub(crate) enum Row {
    Calls,
    /// The answers of opening while memory is refused. It takes all memory of the process.
    OpeningWithoutMemory,
}

/// Tries `row` over lines of this type.
fn try_row<R: Wait + Abort, L: Instrumented + ParkingLine<Free> + Drop>(
    rt: &R,
    alloc: Global,
    known: &Known,
    row: Row,
) -> Result<(), Fail>
where
    L::Port: Drop,
{
    match row {
        Row::Calls => each_call::<R, L>(rt, alloc, known),
        Row::OpeningWithoutMemory => lines::each_allocation_of_opening_is_refused::<R, L>(
            rt,
            alloc,
            known.table,
        ),
    }
}

/// Makes each call over lines of this type.
fn each_call<R: Wait + Abort, L: Instrumented + ParkingLine<Free> + Drop>(
    rt: &R,
    alloc: Global,
    known: &Known,
) -> Result<(), Fail>
where
    L::Port: Drop,
{
    asleep::a_waiter_that_has_slept_is_counted_no_more::<R, L>(rt, alloc);
    lines::lines_have_nodes_and_turns::<R, L>(rt, alloc);
    script::each_script::<R, L>(rt, alloc);
    lines::a_release_passes_those_who_withdrew::<R, L>(rt, alloc, known.few)?;
    lines::one_node_takes_300_turns::<R, L>(rt, alloc)?;
    lines::a_release_passes_all_other_nodes_of_200::<R, L>(rt, alloc, known.many)?;
    lines::finish_wants_a_port_of_each_node::<R, L>(rt, alloc);
    lines::finish_wants_no_other_port::<R, L>(rt, alloc);
    lines::each_growth_of_finish_is_refused::<R, L>(rt, alloc)?;
    lines::a_line_is_handed_over_with_its_bytes::<R, L>(rt, alloc)?;
    lines::any_line_is_handed_over::<R, L>(rt, alloc)
}

/// Tries `part` over lines of this queue discipline.
fn part_over<R: Wait + Abort, Q: Discipline<Free>>(
    rt: &R,
    alloc: Global,
    known: &Known,
    part: Part,
) -> Result<(), Fail> {
    match part {
        Part::Lines(row) => try_row::<R, Line<Free, Q>>(rt, alloc, known, row)?,
        Part::Opening => named::each_opening::<R, Q>(rt, alloc)?,
        Part::Names => names_over::<R, Q>(rt, alloc),
    }
    Ok(())
}

/// The numbers of nodes of lines that tell to whom they went.
static TOLD: [u64; 3] = [3, 6, 200];

/// Lines of this queue discipline, whose waiters sleep elsewhere, name the next.
fn names_over<R: Abort, Q: Discipline<Free>>(rt: &R, alloc: Global) {
    for nodes in &TOLD {
        let told = elsewhere::each_names_the_next::<elsewhere::Told<Q>>(alloc, *nodes);
        expect_eq(rt, "the next", told, Some(true));
    }
}

/// What differs between this kind of line and the others.
fn known_of(lines: Lock) -> Known {
    match lines {
        // 256 cells, each with a node's word in 128 bytes, and a slot: as for 200 nodes.
        Lock::Ring => Known {
            few: 8,
            many: 599,
            table: 257 * 128,
        },
        // An entry of 128 bytes for each node, as much for the home word, and a slot.
        Lock::Link => Known {
            few: 9,
            many: 797,
            table: 6 * 128,
        },
        // Eight cells, each with a node's word in 128 bytes, and with a slot.
        Lock::Ticket => Known {
            few: 5,
            many: 399,
            table: 8 * 256,
        },
    }
}

/// Tries `part` over lines of each kind. The prover takes long wherever a kind is named, so all of them are named only
/// here.
pub(crate) fn over_each<R: Wait + Abort>(rt: &R, alloc: Global, part: Part) -> Result<(), Fail> {
    for lines in ALL {
        let known = known_of(lines);
        for_kind!(lines, part_over, [R], (rt, alloc, &known, part))?;
    }
    Ok(())
}

#[test]
fn each_lock_answers_each_call(rt: HostRuntime) -> Result<(), Fail> {
    over_each(&rt, rt.alloc(), Part::Lines(Row::Calls))
}

#[test]
fn a_line_tells_to_whom_it_went(rt: HostRuntime) -> Result<(), Fail> {
    over_each(&rt, rt.alloc(), Part::Names)
}

#[test]
fn each_allocation_of_opening_is_refused(rt: HostRuntime) -> Result<(), Fail> {
    over_each(&rt, rt.alloc(), Part::Lines(Row::OpeningWithoutMemory))
}
