//! Tests work scripts, whose workers share a task board or a bank: the reports, refused scripts, and workers that
//! stall.
use crate::tests::runs::expect;
use qolb_run::TaskError;
use qolb_serve::fail;
use std::alloc::Global;
use std::process::Abort;
use std::rt::Clock;
use std::sync::Wait;
use std::test::Fail;
use std::thread::Threads;

/// The options that may follow the name of work. Work ends in the same way with each kind of lines, with workers that
/// sleep, and with `--progress`, which reports nothing within the first second.
static MANNERS: [&[&str]; 10] = [
    &[],
    &["--progress"],
    &["--sleep"],
    &["--progress", "--sleep"],
    &["--kind", "ring"],
    &["--kind", "link"],
    &["--sleep", "--kind", "ring"],
    &["--kind", "ticket", "--sleep"],
    &["--kind", "ticket", "--progress"],
    &["--kind", "ring", "--sleep", "--progress"],
];

/// Checks that work with this name ends as expected with each of these options.
fn expect_work<T: Threads + Wait + Clock + Eprint + Abort + Sync>(
    rt: &T,
    alloc: Global,
    name: &str,
    script: &str,
    want: (u8, &str, &str),
) -> Result<(), Fail> {
    for manner in &MANNERS {
        let mut words = vec![in alloc; name]?;
        words.extend_from_slice(*manner)?;
        expect(rt, alloc, words.as_slice(), script, want)?;
    }
    Ok(())
}

/// Work scripts, each with the exit status, standard output and standard error of its run: reports, and complaints
/// about scripts of other work.
static WORK: [(&str, &str, (u8, &str, &str)); 17] = [
    (
        "board",
        "board workers 1\n1 put 5\n1 put 9\n1 take\n1 take\n1 take\n",
        (0, "stored 2\nfull 0\ntaken 2\nempty 1\nleft 0\n", ""),
    ),
    (
        "board",
        "board workers 1\n1 put 3\n1 put 3\n1 put 3\n1 put 3\n1 put 3\n1 put 3\n1 put 3\n1 put 3",
        (0, "stored 7\nfull 1\ntaken 0\nempty 0\nleft 7\n", ""),
    ),
    // a board without jobs, and a worker without any
    (
        "board",
        "board workers 200",
        (0, "stored 0\nfull 0\ntaken 0\nempty 0\nleft 0\n", ""),
    ),
    (
        "bank",
        "bank workers 1 lines 2\n1 in 0 10\n1 move 0 9 4\n1 out 9 9\n1 out 9 1\n",
        (0, "in 10\nout 1\ntotal 9\n", ""),
    ),
    (
        "bank",
        "bank workers 3 lines 8\n1 in 0 1\n2 in 63 2\n",
        (0, "in 3\nout 0\ntotal 3\n", ""),
    ),
    // nothing is lost, although the order between the workers is not determined
    (
        "bank",
        "bank workers 2 lines 1\n1 in 0 281474976710656\n2 in 1 281474976710656\n1 in 0 1\n2 in 1 1\n",
        (0, "in 562949953421312\nout 0\ntotal 562949953421312\n", ""),
    ),
    ("board", "", (1, "", "bad line 1\n")),
    ("board", "board workers 201", (1, "", "bad line 1\n")),
    ("board", "board workers 0", (1, "", "bad line 1\n")),
    ("board", "board workers 1 lines 1", (1, "", "bad line 1\n")),
    // a board's script is not a bank's, and the other way round
    ("board", "bank workers 1 lines 1", (1, "", "bad line 1\n")),
    ("bank", "board workers 1", (1, "", "bad line 1\n")),
    (
        "board",
        "board workers 1\n\n2 take",
        (1, "", "bad line 3\n"),
    ),
    (
        "board",
        "board workers 1\n1 in 0 1",
        (1, "", "bad line 2\n"),
    ),
    (
        "bank",
        "bank workers 1 lines 1\n1 in 8 1",
        (1, "", "bad line 2\n"),
    ),
    ("bank", "bank workers 1 lines 9", (1, "", "bad line 1\n")),
    (
        "bank",
        "bank workers 1 lines 1\n1 put 5",
        (1, "", "bad line 2\n"),
    ),
];

#[test]
fn runs_and_refuses_work(rt: HostRuntime) -> Result<(), Fail> {
    for (name, script, want) in &WORK {
        expect_work(&rt, rt.alloc(), *name, *script, *want)?;
    }
    Ok(())
}

#[test]
fn no_payment_of_four_workers_is_lost(rt: HostRuntime) -> Result<(), Fail> {
    let alloc = rt.alloc();
    let mut script = String::from_str(alloc, "bank workers 4 lines 1\n")?;
    for account in 0..100u64 {
        for worker in 1..5u64 {
            let account = account % 8;
            script.push_str(format!(in alloc; "{worker} in {account} 1\n")?.as_str())?;
        }
    }
    let report = "in 400\nout 0\ntotal 400\n";
    expect_work(&rt, alloc, "bank", script.as_str(), (0, report, ""))
}

#[test]
fn tells_who_stalled(rt: HostRuntime) -> Result<(), Fail> {
    let mut err: Vec<u8> = Vec::new(rt.alloc());
    assert_eq!(rt; fail(&mut err, TaskError::Stalled(17)), 3);
    assert_eq!(rt; err.as_slice(), b"stalled 17\n".as_slice());
    let mut err: Vec<u8> = Vec::new(rt.alloc());
    assert_eq!(rt; fail(&mut err, TaskError::Memory), 3);
    assert_eq!(rt; err.as_slice(), b"out of memory\n".as_slice());
    Ok(())
}
