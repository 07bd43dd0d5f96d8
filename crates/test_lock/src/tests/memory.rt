//! Tests how much memory a lock requests from the allocator.
use lock_core::{LockKind, OpenError, open};
use std::alloc::Global;
use std::test::Fail;
use test_support::MemoryLimit;

/// Opens a strict lock where one block of `bytes` bytes is left.
fn opened_in(alloc: Global, limit: &MemoryLimit, bytes: usize) -> Result<Option<OpenError>, Fail> {
    let rest = limit.leave(alloc, bytes)?;
    let error = open(alloc, LockKind::Strict).err();
    drop(rest);
    Ok(error)
}

#[test]
fn opening_without_memory_is_refused(rt: HostRuntime) -> Result<(), Fail> {
    let limit = MemoryLimit::begin(rt.alloc(), 1 << 20)?;
    assert_eq!(rt; opened_in(rt.alloc(), &limit, 16)?, Some(OpenError::Memory));
    assert_eq!(rt; opened_in(rt.alloc(), &limit, 4_096)?, None);
    Ok(())
}
