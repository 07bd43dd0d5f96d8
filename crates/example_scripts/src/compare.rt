//! Compares the output of a script with the stored answer.
ghost use Rattle.std.specs.Prelude.{◌≡◌, ◌↔◌, IsOk};

use anyhow::{bail, ensure};
use line_kinds::{ALL, Lock};
use qolb_draw::{Form as PictureForm, draw_schedule, draw_steps};
use qolb_run::{AlwaysOpen, REPLAYED, WaitMode, answer_work, run_schedule_with, run_steps};
use qolb_script::{Watched, WorkKind};
use std::alloc::Global;
use std::sync::Wait;
use std::thread::Threads;

/// The form of a script.
#[derive(Clone, Copy)]
pub enum Form {
    /// A schedule. Its answers are the same for every kind of line.
    Schedule,
    /// A step script.
    Steps,
    /// A work script whose report is the same for every order in which the workers run and for every kind of line.
    Work(WorkKind),
}

/// Runs the script in every possible way, and compares the outputs with the answer.
///
/// # Errors
///
/// The call fails if an output differs from the answer, or if the script is refused.
pub fn compare<R: Threads + Wait + Sync>(
    rt: &R,
    alloc: Global,
    form: Form,
    script: &[u8],
    wanted: &[u8],
) -> anyhow::Result<()> {
    match form {
        Form::Schedule => {
            for &kind in &REPLAYED {
                let said = replay(alloc, script, kind)?;
                expect(said.as_slice(), wanted)?;
            }
        }
        Form::Steps => {
            let said = steps(alloc, script)?;
            expect(said.as_slice(), wanted)?;
        }
        Form::Work(kind) => {
            for &lock in &ALL {
                let said = report(rt, alloc, script, kind, lock)?;
                expect(said.as_slice(), wanted)?;
            }
        }
    }
    Ok(())
}

/// Draws the script as an SVG, and compares the picture with the stored picture.
///
/// # Errors
///
/// The call fails if the picture differs, or if the script is refused or is a work script.
pub fn compare_picture(
    alloc: Global,
    form: Form,
    script: &[u8],
    wanted: &[u8],
) -> anyhow::Result<()> {
    let drawn = match form {
        Form::Schedule => draw_schedule(alloc, script, PictureForm::Svg),
        Form::Steps => draw_steps(alloc, script, PictureForm::Svg),
        Form::Work(_) => bail!("work has no picture"),
    };
    match drawn {
        Ok(picture) => expect(picture.as_slice(), wanted),
        Err(why) => bail!("it is refused: {why}"),
    }
}

/// Returns an error unless `compare` accepts a correct answer, and rejects a wrong answer and a wrong form.
pub fn refuses_others<R: Threads + Wait + Sync>(rt: &R, alloc: Global) -> anyhow::Result<()> {
    let script = b"nodes 1 lines 1\nenq 1 0\n";
    let right = b"granted\nline 0 served 0 withdrawn 0 told 0 left 1\n";
    let wrong = b"queued\nline 0 served 0 withdrawn 0 told 0 left 1\n";
    compare(rt, alloc, Form::Schedule, script, right)?;
    ensure!(
        compare(rt, alloc, Form::Schedule, script, wrong).is_err(),
        "a wrong answer is taken"
    );
    ensure!(
        compare(rt, alloc, Form::Steps, script, right).is_err(),
        "a schedule is taken for steps"
    );
    Ok(())
}

/// Returns an error if `said` differs from `wanted`.
fn expect(said: &[u8], wanted: &[u8]) -> anyhow::Result<()>
    ensures { IsOk result ↔ (said.now ≡ wanted.now) }
{
    ensure!(said == wanted, "it is answered otherwise");
    Ok(())
}

/// Returns the output of the schedule on lines of this kind.
fn replay(alloc: Global, script: &[u8], kind: Option<Lock>) -> anyhow::Result<Vec<u8>> {
    let mut said = Vec::new(alloc);
    let done = run_schedule_with(
        alloc,
        &mut Watched::new(script),
        &mut Watched::new(&mut said),
        kind,
    );
    match done {
        Ok(()) => Ok(said),
        Err(why) => bail!("it is refused: {why}"),
    }
}

/// Returns the output of the step script.
fn steps(alloc: Global, script: &[u8]) -> anyhow::Result<Vec<u8>> {
    let mut said = Vec::new(alloc);
    let done = run_steps(
        alloc,
        &mut Watched::new(script),
        &mut Watched::new(&mut said),
    );
    match done {
        Ok(()) => Ok(said),
        Err(why) => bail!("it is refused: {why}"),
    }
}

/// Returns the report of the work script on lines of this kind.
fn report<R: Threads + Wait + Sync>(
    rt: &R,
    alloc: Global,
    script: &[u8],
    kind: WorkKind,
    lock: Lock,
) -> anyhow::Result<Vec<u8>> {
    let waits = WaitMode::Awake;
    match answer_work(rt, alloc, &AlwaysOpen, script, kind, lock, waits) {
        Ok(text) => Ok(text),
        Err(why) => bail!("it is refused: {why}"),
    }
}
