//! A task board that four threads share. Two producers put numbered tasks on the board, and two consumers take tasks
//! until all have been taken.
ghost use Rattle.std.specs.Prelude.{◌*◌, ◌<◌, ◌^◌, All, IfSome, IsTrue};
ghost use Rattle.qolb_model.specs.PortStates.{may_ask};
ghost use Rattle.line_accounts.specs.NewDesks.{IsNewPort};
ghost use Rattle.test_programs.specs.Ports.{MayAskFor};

use line_blocking::scoped::{ScopedTask, run_scoped};
use line_board::{BoardLaw, Put, Take, Tasks, decode, put, take};
use qolb_model::LineSync;
use std::alloc::Global;
use std::sync::Wait;
use std::sync::atomic::{AtomicU64, Ordering};
use std::thread::{Threads, yield_now};

/// Polls before a call withdraws its request.
const PATIENCE: u64 = 100;

/// Puts the tasks from `first` on, below `end`, in their order.
pub fn produce<R: Wait, L: LineSync<BoardLaw>>(
    rt: &R,
    line: &L,
    port: &mut L::Port,
    first: u64,
    end: u64,
)
    requires belongs { L.belongs line.now port.old }
    requires state { IsTrue (may_ask (L.view port.old).state) }
    ensures belongs { L.belongs line.now port.new }
    ensures state { IsTrue (may_ask (L.view port.new).state) }
{
    for task in first..end {
        for _ in rt.forever() {
            match put(line, port, task, PATIENCE) {
                Put::Stored => break,
                Put::Closed => return,
                Put::Full | Put::Late | Put::Busy => yield_now(),
            }
        }
    }
}

/// Takes tasks while any is left, and appends them to `taken` in their order.
pub fn consume<R: Wait, L: LineSync<BoardLaw>>(
    rt: &R,
    line: &L,
    port: &mut L::Port,
    left: &AtomicU64,
    taken: &mut Vec<u64>,
)
    requires belongs { L.belongs line.now port.old }
    requires state { IsTrue (may_ask (L.view port.old).state) }
    ensures belongs { L.belongs line.now port.new }
    ensures state { IsTrue (may_ask (L.view port.new).state) }
{
    for _ in rt.forever() {
        match take(line, port, PATIENCE) {
            Take::Task(task) => {
                left.fetch_sub(1, Ordering::SeqCst);
                if taken.push(task).is_err() {
                    break;
                }
            }
            Take::Closed => break,
            Take::Empty | Take::Late | Take::Busy if left.load(Ordering::SeqCst) == 0 => break,
            Take::Empty | Take::Late | Take::Busy => yield_now(),
        }
    }
}

/// The job of one node at the board.
#[derive(Clone, Copy)]
pub enum Job {
    /// Puts the tasks from `first` on, below `end`.
    Produce { first: u64, end: u64 },
    /// Takes tasks.
    Consume,
}

/// A node at the board, with its job and the tasks that it has taken.
#[derive(Drop)]
pub struct Worker<P> {
    port: P,
    job: Job,
    taken: Vec<u64>,
}

/// The task of producers and consumers, with the number of tasks not yet taken.
#[derive(Drop)]
pub struct Board {
    left: AtomicU64,
}

impl<R: Wait, L: LineSync<BoardLaw>> ScopedTask<R, L, Worker<L::Port>> for Board {
    type Output = Worker<L::Port>;

    ghost pre = { λ _ line _ worker. MayAskFor L.belongs L.view line worker.port };

    ghost post = { λ _ line _ worker. MayAskFor L.belongs L.view line worker.port };

    fn work(&self, rt: &R, line: &L, _place: usize, worker: Worker<L::Port>) -> Worker<L::Port> {
        let Worker {
            mut port,
            job,
            mut taken,
        } = worker;
        match job {
            Job::Produce { first, end } => produce(rt, line, &mut port, first, end),
            Job::Consume => consume(rt, line, &mut port, &self.left, &mut taken),
        }
        Worker { port, job, taken }
    }
}

/// The outcome of `hand_over`.
#[derive(Drop)]
pub struct Handed {
    /// What each worker took, in its order. A producer took nothing.
    pub taken: Vec<Vec<u64>>,
    /// The tasks that are still on the board.
    pub rest: Tasks,
}

/// Hands tasks over a board: nodes 1 and 2 put them, the others take them.
///
/// Each producer puts `count` tasks on the empty board, numbered from 0. Returns `None` if memory or a thread is
/// refused.
pub fn hand_over<R: Threads + Wait + Sync, L: LineSync<BoardLaw> + Sync + Drop>(
    rt: &R,
    alloc: Global,
    line: L,
    ports: Vec<L::Port>,
    count: u32,
) -> Option<Handed>
where
    L::Port: Send + Drop,
    requires { All (IsNewPort L.belongs L.view line) ports.items }
{
    let board = Board {
        left: AtomicU64::new(2 * u64::from(count)),
    };
    let workers = assign_jobs(alloc, &line, ports, count)?;
    let back = run_scoped(rt, alloc, &board, &line, workers)?;
    let (ports, taken) = collect_results(alloc, &line, back)?;
    let last = line.finish(alloc, ports).ok()?;
    let rest = decode(&last)?;
    Some(Handed { taken, rest })
}

/// The workers of the line: nodes 1 and 2 produce, and the others consume. Returns `None` if memory is refused.
fn assign_jobs<L: LineSync<BoardLaw>>(
    alloc: Global,
    line: &L,
    ports: Vec<L::Port>,
    count: u32,
) -> Option<Vec<Worker<L::Port>>>
where
    L::Port: Drop,
    requires { All (IsNewPort L.belongs L.view line.now) ports.items }
    ensures { IfSome result (λ workers.
        All (λ worker. MayAskFor L.belongs L.view line.now worker.port) workers.items) }
{
    let mut workers = Vec::with_capacity(alloc, ports.len()).ok()?;
    for port in ports {
        let worker = worker_of(alloc, line, port, count)?;
        workers.push(worker).ok()?;
    }
    Some(workers)
}

/// The worker of one node. Returns `None` if memory is refused.
fn worker_of<L: LineSync<BoardLaw>>(
    alloc: Global,
    line: &L,
    port: L::Port,
    count: u32,
) -> Option<Worker<L::Port>>
where
    L::Port: Drop,
    requires { IsNewPort L.belongs L.view line.now port }
    ensures { IfSome result (λ worker. MayAskFor L.belongs L.view line.now worker.port) }
{
    let _ = line;
    let job = job_of(L::node(&port), u64::from(count));
    let taken = Vec::with_capacity(alloc, 2 * count as usize).ok()?;
    Some(Worker { port, job, taken })
}

/// The job of a node.
fn job_of(node: u64, count: u64) -> Job
    requires { 2 * count < 2 ^ 64 }
{
    let end = 2 * count;
    match node {
        1 => Job::Produce {
            first: 0,
            end: count,
        },
        2 => Job::Produce { first: count, end },
        _ => Job::Consume,
    }
}

/// Returns the ports of the workers and what each took, or `None` if memory is refused.
fn collect_results<L: LineSync<BoardLaw>>(
    alloc: Global,
    line: &L,
    workers: Vec<Worker<L::Port>>,
) -> Option<(Vec<L::Port>, Vec<Vec<u64>>)>
where
    L::Port: Drop,
    requires { All (λ worker. MayAskFor L.belongs L.view line.now worker.port) workers.items }
    ensures { IfSome result (λ parts. All (L.belongs line.now) parts.0.items) }
{
    let mut ports = Vec::with_capacity(alloc, workers.len()).ok()?;
    let mut lists = Vec::new(alloc);
    for worker in workers {
        let Worker {
            port,
            job: _,
            taken,
        } = worker;
        ports.push(port).ok()?;
        lists.push(taken).ok()?;
    }
    Some((ports, lists))
}
