//! Runs one task on every node of a line, with a thread for each node.
ghost use Rattle.std.specs.Prelude.{IsTrue};
ghost use Rattle.qolb_model.specs.PortStates.{may_ask};

use crate::law::NonDecreasing;
use line_blocking::scoped::ScopedTask;
use qolb_model::LineSync;
use std::rt::Clock;
use std::sync::Wait;

/// What each node does with its port.
pub trait Task<L: LineSync<NonDecreasing>> {
    /// Runs the task for one node. Returns its port.
    fn work<R: Wait + Clock>(&self, rt: &R, line: &L, port: L::Port) -> L::Port
        requires belongs { L.belongs line.now port }
        requires state { IsTrue (may_ask (L.view port).state) }
        ensures { L.belongs line.now result };
}

/// A `ScopedTask` that runs `task` in each thread.
#[derive(Clone, Copy)]
pub struct Each<'a, T> {
    pub task: &'a T,
}

impl<R: Wait + Clock, L: LineSync<NonDecreasing>, T: Task<L>> ScopedTask<R, L, L::Port>
    for Each<'_, T> {
    type Output = L::Port;

    ghost pre = { λ _ line _ port. L.belongs line port × IsTrue (may_ask (L.view port).state) };

    ghost post = { λ _ line _ port. L.belongs line port };

    fn work(&self, rt: &R, line: &L, _place: usize, port: L::Port) -> L::Port {
        self.task.work(rt, line, port)
    }
}
