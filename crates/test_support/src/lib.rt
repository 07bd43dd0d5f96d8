//! Helpers for tests. One helper takes away the memory of a process, so that allocations fail. Another helper wraps a
//! line, and calls functions of the test (hooks) whenever a call on the line is made.
#![tactic(auto)]

mod hooked_line;

ghost use Rattle.std.specs.Prelude.{◌≤◌, length, IfOk};

pub use hooked_line::{HookedLine, Hooks};
use std::alloc::{AllocError, Global};
use std::str::from_utf8;

/// The grain of the heap in bytes: block sizes are multiples of it.
pub const GRAIN: usize = 16;

/// The most blocks in which all memory of a process is taken. A block is as large as the system gives in one call, so
/// some thousands fill the 128 TB that a process on x86-64 can address.
const MAX_BLOCKS: usize = 1 << 16;

/// The most blocks in which the rest of a `MemoryLimit`'s room is taken.
const FEW_BLOCKS: usize = 1 << 11;

/// The bytes of a part of the stack.
const PAGE: usize = 1 << 10;

/// The parts of the stack that a thread can rely on after all memory of its process is taken: 4 megabytes, of the 8
/// that Linux lets a stack have.
const PAGES: usize = 1 << 12;

/// Grows this thread's stack by the 4 megabytes that it can rely on. A stack grows page by page when it is touched,
/// into free addresses. Once all addresses are taken, the process ends instead.
///
/// Returns `true` if the touched bytes are a text. The bytes are read for this, so the compiler leaves none of them
/// out.
#[inline(never)]
fn grow_stack() -> bool {
    let touched = [[0u8; PAGE]; PAGES];
    touched.iter().all(|page| is_text(page))
}

/// Returns `true` if the bytes are UTF-8.
fn is_text(bytes: &[u8]) -> bool {
    from_utf8(bytes).is_ok()
}

/// Blocks that take memory from the rest of the process until they are dropped. They are never touched, so they take no
/// memory of the machine.
#[derive(Drop)]
pub struct MemoryHog {
    blocks: Vec<Vec<u8>>,
}

impl MemoryHog {
    /// Takes all memory that the process could still have, in at most `most` blocks: first the largest that the system
    /// gives, and then what is left between them.
    ///
    /// The call first grows this thread's stack by 4 megabytes. The thread cannot rely on more stack until the blocks
    /// are dropped.
    ///
    /// # Errors
    ///
    /// The call fails with `AllocError` if the list of blocks itself finds no memory.
    pub fn of_all(alloc: Global, most: usize) -> Result<MemoryHog, AllocError>
        ensures { IfOk result (λ hog. length hog.blocks.items ≤ most) }
    {
        if !grow_stack() {
            return Err(AllocError);
        }
        MemoryHog::of_rest(alloc, most)
    }

    /// Takes the memory as `of_all` does, without growing the stack.
    fn of_rest(alloc: Global, most: usize) -> Result<MemoryHog, AllocError>
        ensures { IfOk result (λ hog. length hog.blocks.items ≤ most) }
    {
        let mut hog = MemoryHog {
            blocks: Vec::with_capacity(alloc, most)?,
        };
        for power in (10u32..41).rev() {
            hog.take(alloc, most, 1usize << power);
        }
        for grains in (1usize..64).rev() {
            hog.take(alloc, most, GRAIN * grains);
        }
        Ok(hog)
    }

    /// Takes blocks of `size` bytes, until one is refused or there are `most` blocks.
    fn take(&mut self, alloc: Global, most: usize, size: usize)
        requires { length self.old.blocks.items ≤ most }
        ensures { length self.new.blocks.items ≤ most }
    {
        for _ in self.blocks.len()..most {
            let Ok(block) = Vec::with_capacity(alloc, size) else {
                return;
            };
            let Ok(()) = self.blocks.push(block) else {
                return;
            };
        }
    }
}

/// A process that has no memory except a room. A test can take all of the room but one block.
#[derive(Drop)]
pub struct MemoryLimit {
    _beyond: MemoryHog,
}

impl MemoryLimit {
    /// Takes all memory except a room of `room` bytes.
    ///
    /// # Errors
    ///
    /// `AllocError` if the room is refused.
    pub fn begin(alloc: Global, room: usize) -> Result<MemoryLimit, AllocError> {
        let room = Vec::<u8>::with_capacity(alloc, room)?;
        let beyond = MemoryHog::of_all(alloc, MAX_BLOCKS)?;
        drop(room);
        Ok(MemoryLimit { _beyond: beyond })
    }

    /// Leaves a block of `bytes` bytes and nothing else, until the returned blocks are dropped.
    ///
    /// # Errors
    ///
    /// `AllocError` if the room has no such block.
    pub fn leave(&self, alloc: Global, bytes: usize) -> Result<MemoryHog, AllocError> {
        let left = Vec::<u8>::with_capacity(alloc, bytes)?;
        let rest = MemoryHog::of_rest(alloc, FEW_BLOCKS)?;
        drop(left);
        Ok(rest)
    }
}

#[cfg(test)]
mod tests;
