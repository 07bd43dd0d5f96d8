//! Tests complete runs: a thread that waits for a line, gates, and workers.
use crate::tests::rows::expect;
use line_kinds::RingLine;
use line_lanes::Line64;
use qolb_model::{Free, LineConfig, LineSync, OpenLine};
use qolb_run::{
    AlwaysOpen, Gate, Got, Lines, Lock, RunError, WaitMode, acquire, run_work, run_work_with,
};
use qolb_script::{Report, Work, WorkKind, read_work};
use std::alloc::Global;
use std::sync::Wait;
use std::sync::atomic::{AtomicU64, Ordering};
use std::test::Fail;

/// Opens a line of one node, acquires it, closes it, and acquires it again. Returns both answers.
fn acquired_and_closed<R: Wait, L: OpenLine<Free> + Drop>(
    rt: &R,
    alloc: Global,
) -> Option<(Got, Got)>
where
    L::Port: Drop,
{
    let config = LineConfig {
        nodes: 1,
        opening: Line64::zero(),
        lease: None,
    };
    let (line, mut ports) = L::open_with(alloc, 1, config).ok()?;
    let mut port = ports.pop()?;
    let first: Got = acquire(rt, &line, &mut port);
    let Got::Granted = first else {
        return None;
    };
    line.shut(&mut port);
    let second: Got = acquire(rt, &line, &mut port);
    Some((first, second))
}

#[test]
fn a_line_is_acquired_until_it_is_closed(rt: HostRuntime) {
    let found = acquired_and_closed::<_, RingLine<Free>>(&rt, rt.alloc());
    let wanted = Some((Got::Granted, Got::Closed));
    expect(&rt, "acquired twice", found, wanted);
}

/// A gate that refuses the first question and allows all others. It defines only `may`.
#[derive(Drop)]
struct Once {
    asked: AtomicU64,
}

impl Gate for Once {
    fn may(&self, _worker: u64, _at: u64) -> bool {
        self.asked.fetch_add(1, Ordering::SeqCst) > 0
    }
}

#[test]
fn work_is_run(rt: HostRuntime) -> Result<(), Fail> {
    let script = b"bank workers 2 lines 1\n1 in 0 1\n2 in 0 1\n";
    let work: Work = read_work(rt.alloc(), script, WorkKind::Bank)?;
    let report = Report::Bank {
        paid_in: 2,
        paid_out: 0,
        total: 2,
    };
    let gate = Once {
        asked: AtomicU64::new(0),
    };
    let found: Result<Report, RunError> = run_work(&rt, rt.alloc(), &gate, &work, Lines::Ring);
    expect(&rt, "with a gate", found, Ok(report));
    expect(&rt, "the default", WaitMode::default(), WaitMode::Awake);
    let always: Result<Report, RunError> = run_work(
        &rt,
        rt.alloc(),
        &AlwaysOpen,
        &work,
        Lines::Link,
    );
    expect(&rt, "always open", always, Ok(report));
    let third: Result<Report, RunError> = run_work_with(
        &rt,
        rt.alloc(),
        &AlwaysOpen,
        &work,
        Lock::Ticket,
        WaitMode::Awake,
    );
    expect(&rt, "over ticket lines", third, Ok(report));
    Ok(())
}
