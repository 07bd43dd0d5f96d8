use super::*;
use std::test::Fail;

/// Returns `true` if a block of `bytes` bytes can be allocated.
fn is_served(alloc: Global, bytes: usize) -> bool {
    Vec::<u8>::with_capacity(alloc, bytes).is_ok()
}

#[test]
fn what_is_left_is_served_and_no_more(rt: HostRuntime) -> Result<(), Fail> {
    let alloc = rt.alloc();
    let limit = MemoryLimit::begin(alloc, 1 << 20)?;
    for grains in 2..4_000usize {
        let bytes = GRAIN * grains;
        let rest = limit.leave(alloc, bytes)?;
        let as_much = is_served(alloc, bytes);
        let more = is_served(alloc, bytes + 64);
        drop(rest);
        assert!(rt; as_much, "{bytes} bytes");
        assert!(rt; !more, "more than {bytes} bytes");
    }
    drop(limit);
    assert!(rt; is_served(alloc, 1 << 30));
    Ok(())
}

#[test]
fn nothing_is_left(rt: HostRuntime) -> Result<(), Fail> {
    let alloc = rt.alloc();
    let hog = MemoryHog::of_all(alloc, MAX_BLOCKS)?;
    let some = is_served(alloc, 1);
    drop(hog);
    assert!(rt; !some);
    Ok(())
}

/// Touches a little less of the stack than a thread can rely on, and returns `true`. If the stack cannot grow, the
/// process ends.
#[inline(never)]
fn has_stack() -> bool {
    let touched = [[0u8; PAGE]; PAGES - 100];
    touched.iter().all(|page| is_text(page))
}

#[test]
fn the_stack_has_grown_before(rt: HostRuntime) -> Result<(), Fail> {
    let alloc = rt.alloc();
    let hog = MemoryHog::of_all(alloc, MAX_BLOCKS)?;
    let touched = has_stack();
    drop(hog);
    assert!(rt; touched);
    Ok(())
}
