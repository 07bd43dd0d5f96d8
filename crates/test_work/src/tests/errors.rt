//! Tests the number that represents each error variant.
use crate::tests::rows::{expect, expect_at};
use line_accounts::SettleError;
use link_core::NotEnabled;
use qolb_model::{FinishError, OpenError};
use qolb_run::{ReplayError, RunError};
use qolb_script::ScriptError;
use std::test::Fail;

/// The number of an error of opening.
fn of_open(error: OpenError) -> u8 {
    match error {
        OpenError::Memory => 1,
        OpenError::Nodes => 2,
        OpenError::Lease => 3,
    }
}

/// The number of a refused event.
fn of_event(error: NotEnabled) -> u8 {
    match error {
        NotEnabled::Node => 1,
        NotEnabled::Point => 2,
    }
}

/// The number of an error of finishing.
fn of_finish(error: FinishError) -> u8 {
    match error {
        FinishError::Memory => 1,
        FinishError::Unquiet(_node) => 2,
        FinishError::Missing(_node) => 3,
    }
}

/// The number of an error of settling.
fn of_settle(error: SettleError) -> u8 {
    match error {
        SettleError::Memory => 1,
        SettleError::Missing { line: _, node: _ } => 2,
    }
}

/// The number of an error of a script.
fn of_script(error: ScriptError) -> u8 {
    match error {
        ScriptError::Memory => 1,
        ScriptError::BadLine(_line) => 2,
        ScriptError::Number(_line) => 3,
        ScriptError::TooMany(_line) => 4,
    }
}

/// The number of an error of work.
fn of_run(error: RunError) -> u8 {
    match error {
        RunError::Memory => 1,
        RunError::Stalled(_worker) => 2,
    }
}

/// The number of an error of a replay.
fn of_replay(error: ReplayError) -> u8 {
    match error {
        ReplayError::Memory => 1,
        ReplayError::Read => 2,
        ReplayError::Long => 3,
        ReplayError::Script(_fault) => 4,
        ReplayError::Write => 5,
    }
}

#[test]
fn errors_without_fields_are_their_numbers(rt: HostRuntime) {
    for error in [OpenError::Memory, OpenError::Nodes, OpenError::Lease] {
        expect_at(&rt, &error, error as u8, of_open(error));
    }
    for error in [NotEnabled::Node, NotEnabled::Point] {
        expect_at(&rt, &error, error as u8, of_event(error));
    }
}

#[test]
fn errors_of_lines_say_their_numbers(rt: HostRuntime) {
    for error in [
        FinishError::Memory,
        FinishError::Unquiet(7),
        FinishError::Missing(0),
    ] {
        expect_at(&rt, &error, error.number(), of_finish(error));
    }
    for error in [
        SettleError::Memory,
        SettleError::Missing { line: 0, node: 1 },
    ] {
        expect_at(&rt, &error, error.number(), of_settle(error));
    }
}

#[test]
fn errors_of_scripts_say_their_numbers(rt: HostRuntime) {
    for error in [
        ScriptError::Memory,
        ScriptError::BadLine(1),
        ScriptError::Number(1),
        ScriptError::TooMany(1),
    ] {
        expect_at(&rt, &error, error.number(), of_script(error));
    }
}

#[test]
fn errors_of_runs_say_their_numbers(rt: HostRuntime) {
    for error in [RunError::Memory, RunError::Stalled(1)] {
        expect_at(&rt, &error, error.number(), of_run(error));
    }
    for error in [
        ReplayError::Memory,
        ReplayError::Read,
        ReplayError::Long,
        ReplayError::Script(ScriptError::BadLine(1)),
        ReplayError::Write,
    ] {
        expect_at(&rt, &error, error.number(), of_replay(error));
    }
}

/// Errors of scripts, with their messages.
static OF_SCRIPTS: [(ScriptError, &str); 5] = [
    (ScriptError::Memory, "out of memory"),
    (ScriptError::BadLine(3), "bad line 3"),
    (ScriptError::Number(4), "bad line 4"),
    (ScriptError::TooMany(6), "bad line 6"),
    (ScriptError::TooMany(100_002), "bad line 100002"),
];

/// Errors of replays, with their messages.
static OF_REPLAYS: [(ReplayError, &str); 5] = [
    (ReplayError::Memory, "out of memory"),
    (ReplayError::Read, "read fault"),
    (ReplayError::Long, "script too long"),
    (ReplayError::Script(ScriptError::Number(5)), "bad line 5"),
    (ReplayError::Write, "write fault"),
];

#[test]
fn errors_say_what_they_are(rt: HostRuntime) -> Result<(), Fail> {
    for (error, text) in &OF_SCRIPTS {
        expect(&rt, text, error.to_string(rt.alloc())?.as_str(), *text);
    }
    for (error, text) in &OF_REPLAYS {
        expect(&rt, text, error.to_string(rt.alloc())?.as_str(), *text);
    }
    for (error, text) in [
        (RunError::Memory, "out of memory"),
        (RunError::Stalled(7), "stalled 7"),
    ] {
        expect(&rt, text, error.to_string(rt.alloc())?.as_str(), text);
    }
    Ok(())
}
