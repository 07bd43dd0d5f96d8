//! Tests opening a lock: the call either opens the lock or returns an error with the reason.
use lock_core::{LockKind, OpenError, open};
use std::format;
use std::test::Fail;

#[test]
fn kinds_are_opened_or_refused(rt: HostRuntime) -> Result<(), Fail> {
    for (kind, wanted) in [
        (LockKind::Strict, None),
        (LockKind::Barging(0), Some(OpenError::BadBargingLimit(0))),
        (LockKind::Barging(1), Some(OpenError::BadBargingLimit(1))),
        (LockKind::Barging(2), None),
        (LockKind::Barging(65_535), None),
    ] {
        assert_eq!(rt; open(rt.alloc(), kind).err(), wanted, "{kind:?}");
    }
    Ok(())
}

#[test]
fn errors_say_what_is_wrong(rt: HostRuntime) -> Result<(), Fail> {
    let short = format!(in rt.alloc(); "{}", OpenError::BadBargingLimit(1))?;
    assert_eq!(rt;
        short.as_str(),
        "barging limit 1: it must be from 2 to 65,535"
    );
    let memory = format!(in rt.alloc(); "{}", OpenError::Memory)?;
    assert_eq!(rt; memory.as_str(), "out of memory");
    Ok(())
}
