//! Runs scoped threads. The threads share one value, and each thread also owns a value of its own.
ghost use Rattle.std.specs.Prelude.{◌≡◌, ◌+◌, ◌^◌, ◌<◌, ◌≤◌, ℕ, IfSome, vec_len, vec_capacity};
ghost use Rattle.std.specs.PromisedHandle.{KeepsEach};
ghost use Rattle.std.specs.Thread.{IsSync, IsSend};
ghost use Rattle.line_blocking.specs.Places.{AllAt};

use std::alloc::Global;
use std::marker::PhantomData;
use std::snapshot::Snapshot;
use std::sync::Wait;
use std::thread;
use std::thread::{Promise, PromisedHandle, Threads};

/// The work of each thread of `run_scoped`: what it takes, does and returns.
pub trait ScopedTask<R: Wait, S, P> {
    /// What the work of one thread returns.
    type Output;

    /// `pre task shared place part` says that the part fits the task, the shared value, and its place.
    ghost pre: { Self → S → ℕ → P → Type 0 };

    /// `post task shared place output` says that the work on the part at this place may return `output`.
    ghost post: { Self → S → ℕ → Self.Output → Type 0 };

    /// Does the work of one thread on `part`. Places are counted from 0, and there are fewer than 2^64 of them.
    fn work(&self, rt: &R, shared: &S, place: usize, part: P) -> Self::Output
        requires pre { pre self.now shared.now place part }
        requires place { place + 1 < 2 ^ 64 }
        ensures { post self.now shared.now place result };
}

/// The promise of one thread: it returns what `post` allows at its place.
struct Done<R, S, P, W> {
    work: Snapshot<W>,
    shared: Snapshot<S>,
    place: usize,
    of: PhantomData<(R, P)>,
}

impl<R, S, P, W> Drop for Done<R, S, P, W> {
    fn drop(self) {
        let Self {
            work: _,
            shared: _,
            place: _,
            of: _,
        } = self;
    }
}

impl<R: Wait, S, P, W: ScopedTask<R, S, P>> Promise<W::Output> for Done<R, S, P, W> {
    ghost kept_by = { λ promise back.
        W.post promise.work.value promise.shared.value promise.place back };
}

/// Joins each thread, and returns their outputs in order, in `room`. Allocates nothing.
fn join_into<R: Threads, T: Drop, P: Promise<T>>(
    rt: &R,
    handles: Vec<PromisedHandle<T, P>>,
    room: Vec<T>,
) -> Vec<T>
    requires empty { vec_len room ≡ 0 }
    requires room { vec_len handles ≤ vec_capacity room }
    ensures len { vec_len result ≡ vec_len handles }
    ensures each { KeepsEach P.Promise (vec_len handles) handles.items result.items }
{
    let mut outputs = room;
    for handle in handles {
        if outputs.push(handle.join(rt)).is_err() {
            unreachable!();
        }
    }
    outputs
}

/// Joins each thread, and drops its output.
fn join_and_drop<R: Threads, T: Drop, P: Promise<T>>(rt: &R, handles: Vec<PromisedHandle<T, P>>) {
    for handle in handles {
        drop(handle.join(rt));
    }
}

/// Runs a thread for each part, joins all threads, and returns their outputs in the order of the parts. Before the
/// first thread starts, the call allocates a list of handles and a list of outputs. It blocks until all threads have
/// ended.
///
/// Returns `None` if memory or a thread was refused. All threads that were started have then ended, and their outputs
/// are dropped.
pub fn run_scoped<R: Threads + Wait + Sync, S: Sync, P: Send + Drop, W: ScopedTask<R, S, P> + Sync>(
    rt: &R,
    alloc: Global,
    work: &W,
    shared: &S,
    parts: Vec<P>,
) -> Option<Vec<W::Output>>
where
    W::Output: Send + Drop,
    requires fit { AllAt (W.pre work.now shared.now) parts.items }
    ensures len { IfSome result (λ back. vec_len back ≡ vec_len parts) }
    ensures post { IfSome result (λ all. AllAt (W.post work.now shared.now) all.items) }
{
    thread::scope(
        thread::scope_env(),
        rt,
        |scope| -> Option<Vec<W::Output>>
            requires shared { IsSync S.row }
            requires work { IsSync W.row }
            requires part { IsSend P.row }
            requires back { IsSend W.Output.row }
            requires fit { AllAt (W.pre work.now shared.now) parts.items }
            ensures len { IfSome result (λ back. vec_len back ≡ vec_len parts) }
            ensures post { IfSome result (λ all.
                AllAt (W.post work.entry.now shared.entry.now) all.items) }
        {
            let room = Vec::with_capacity(alloc, parts.len()).ok()?;
            let mut handles = Vec::with_capacity(alloc, parts.len()).ok()?;
            for part in parts {
                let place = handles.len();
                let promise = Done {
                    work: Snapshot::of(work),
                    shared: Snapshot::of(shared),
                    place,
                    of: PhantomData,
                };
                let Ok(handle) = scope.spawn_with(
                    promise,
                    move || -> W::Output
                        requires pre { W.pre work.now shared.now place part }
                        requires place { place + 1 < 2 ^ 64 }
                        ensures { W.post work.entry.now shared.entry.now place result }
                    { work.work(rt, shared, place, part) },
                ) else {
                    join_and_drop(rt, handles);
                    return None;
                };
                if handles.push(handle).is_err() {
                    unreachable!();
                }
            }
            Some(join_into(rt, handles, room))
        },
    )
}
