//! Tests the reader of work scripts, for boards and for banks.
use crate::tests::rows::{expect, expect_at, expect_refusals};
use qolb_script::{Job, ScriptError, WorkKind, read_work};
use std::alloc::{AllocError, Global};
use std::test::Fail;

/// Work scripts of boards that are refused, each with its error.
static REFUSED_OF_BOARDS: [(&str, ScriptError); 21] = [
    ("", ScriptError::BadLine(1)),
    ("\n \n", ScriptError::BadLine(1)),
    ("board\n", ScriptError::BadLine(1)),
    ("board workers\n", ScriptError::BadLine(1)),
    ("board workers 0\n", ScriptError::Number(1)),
    ("board workers 201\n", ScriptError::Number(1)),
    ("board nodes 1\n", ScriptError::BadLine(1)),
    ("board workers 1 lines 1\n", ScriptError::BadLine(1)),
    ("bank workers 1 lines 1\n", ScriptError::BadLine(1)),
    ("board workers 1\n1\n", ScriptError::BadLine(2)),
    ("board workers 1\n\n1 give 5\n", ScriptError::BadLine(3)),
    ("board workers 1\n1 put\n", ScriptError::BadLine(2)),
    ("board workers 1\n1 put 1 2\n", ScriptError::BadLine(2)),
    ("board workers 1\n1 take 1\n", ScriptError::BadLine(2)),
    ("board workers 1\n1 in 0 1\n", ScriptError::BadLine(2)),
    ("board workers 1\n2 take\n", ScriptError::Number(2)),
    ("board workers 1\n0 put 1\n", ScriptError::Number(2)),
    ("board workers 1\nx give\n", ScriptError::BadLine(2)),
    ("board workers 1\nx put y\n", ScriptError::Number(2)),
    (
        "board workers 1\n1 put 18446744073709551616\n",
        ScriptError::Number(2),
    ),
    ("board workers 1\n1 put -1\n", ScriptError::Number(2)),
];

/// Work scripts of banks that are refused, each with its error.
static REFUSED_OF_BANKS: [(&str, ScriptError); 15] = [
    ("board workers 1\n", ScriptError::BadLine(1)),
    ("bank workers 1\n", ScriptError::BadLine(1)),
    ("bank workers 1 lines\n", ScriptError::BadLine(1)),
    ("bank workers 1 lines 0\n", ScriptError::Number(1)),
    ("bank workers 1 lines 9\n", ScriptError::Number(1)),
    ("bank workers 1 lines 1 1\n", ScriptError::BadLine(1)),
    ("bank workers 1 lines 1\n1 in 8 1\n", ScriptError::Number(2)),
    ("bank workers 1 lines 1\n1 out 0\n", ScriptError::BadLine(2)),
    (
        "bank workers 1 lines 1\n1 move 0 1\n",
        ScriptError::BadLine(2),
    ),
    (
        "bank workers 1 lines 1\n1 in 0 1 2\n",
        ScriptError::BadLine(2),
    ),
    (
        "bank workers 1 lines 1\n1 move 0 1 2 3\n",
        ScriptError::BadLine(2),
    ),
    ("bank workers 1 lines 1\n1 take\n", ScriptError::BadLine(2)),
    ("bank workers 1 lines 1\n2 in 8 x\n", ScriptError::Number(2)),
    (
        "bank workers 1 lines 1\n1 move 0 8 1\n",
        ScriptError::Number(2),
    ),
    (
        "bank workers 1 lines 1\n1 move 8 0 1\n",
        ScriptError::Number(2),
    ),
];

#[test]
fn names_the_first_fault(rt: HostRuntime) {
    for (text, error) in &REFUSED_OF_BOARDS {
        let found = read_work(rt.alloc(), text.as_bytes(), WorkKind::Board).err();
        expect_at(&rt, text, found, Some(*error));
    }
    for (text, error) in &REFUSED_OF_BANKS {
        let found = read_work(rt.alloc(), text.as_bytes(), WorkKind::Bank).err();
        expect_at(&rt, text, found, Some(*error));
    }
}

/// The jobs of a board, with the smallest and the largest value of each number.
static BOARD_JOBS: [Job; 3] = [
    Job::Put {
        worker: 1,
        task: u64::MAX,
    },
    Job::Take { worker: 200 },
    Job::Put { worker: 7, task: 0 },
];

#[test]
fn reads_every_job_of_a_board(rt: HostRuntime) -> Result<(), Fail> {
    let text = b" board workers 200\n\n1 put 18446744073709551615\n  200  take \n7 put 0";
    let work = read_work(rt.alloc(), text, WorkKind::Board)?;
    expect(&rt, "kind", work.kind(), WorkKind::Board);
    expect(&rt, "workers", work.workers(), 200);
    expect(&rt, "lines", work.lines(), 1);
    expect(&rt, "jobs", work.jobs(), BOARD_JOBS.as_slice());
    expect(&rt, "its worker", BOARD_JOBS[1].worker(), 200);
    Ok(())
}

/// The jobs of a bank with eight lines.
static BANK_JOBS: [Job; 3] = [
    Job::PayIn {
        worker: 1,
        account: 63,
        amount: 10,
    },
    Job::PayOut {
        worker: 2,
        account: 0,
        amount: 0,
    },
    Job::Move {
        worker: 3,
        source: 9,
        target: 4,
        amount: 5,
    },
];

#[test]
fn reads_every_job_of_a_bank(rt: HostRuntime) -> Result<(), Fail> {
    let text = b"bank workers 3 lines 8\n1 in 63 10\n2 out 0 0\n3 move 9 4 5\n";
    let work = read_work(rt.alloc(), text, WorkKind::Bank)?;
    expect(&rt, "kind", work.kind(), WorkKind::Bank);
    expect(&rt, "workers", work.workers(), 3);
    expect(&rt, "lines", work.lines(), 8);
    expect(&rt, "jobs", work.jobs(), BANK_JOBS.as_slice());
    Ok(())
}

/// Returns a script that consists of this header and of this job, repeated `count` times.
fn many(alloc: Global, header: &str, job: &str, count: u64) -> Result<Vec<u8>, AllocError> {
    let mut text = Vec::from_slice(alloc, header.as_bytes())?;
    for _ in 0..count {
        text.extend_from_slice(job.as_bytes())?;
    }
    Ok(text)
}

#[test]
fn takes_no_more_than_the_most_jobs(rt: HostRuntime) -> Result<(), Fail> {
    let alloc = rt.alloc();
    let board = many(alloc, "board workers 1\n", "1 take\n", 100_000)?;
    let work = read_work(alloc, &board, WorkKind::Board)?;
    expect(&rt, "the most", work.jobs().len(), 100_000);
    let bank = many(alloc, "bank workers 1 lines 1\n", "1 in 0 1\n", 100_001)?;
    let error = read_work(alloc, &bank, WorkKind::Bank).err();
    expect(&rt, "one more", error, Some(ScriptError::TooMany(100_002)));
    Ok(())
}

#[test]
fn each_growth_is_refused(rt: HostRuntime) -> Result<(), Fail> {
    let mut text = Vec::from_slice(rt.alloc(), b"board workers 1\n")?;
    for _ in 0..100u32 {
        text.extend_from_slice(b"1 take\n")?;
    }
    expect_refusals(&rt, rt.alloc(), 100, 3, |heap| {
        Ok(read_work(heap, &text, WorkKind::Board)?.jobs().len())
    })
}
