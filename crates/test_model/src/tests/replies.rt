//! Tests the text that a script gets as the answer to each call and each step.
use crate::tests::rows::expect_at;
use link_core::Told;
use qolb_model::{Enq, Out, Poll};
use qolb_script::{Said, push_said};
use std::test::Fail;

/// Answers, each with its line of text.
static SAID: [(Said, &str); 27] = [
    (Said::Enq(Enq::Granted), "granted\n"),
    (Said::Enq(Enq::Queued), "queued\n"),
    (Said::Enq(Enq::Closed), "closed\n"),
    (Said::Enq(Enq::Busy), "busy\n"),
    (Said::Poll(Poll::Granted), "granted\n"),
    (Said::Poll(Poll::Waiting), "waiting\n"),
    (Said::Poll(Poll::Closed), "closed\n"),
    (Said::Out(Out::Withdrawn), "withdrawn\n"),
    (Said::Out(Out::Granted), "granted\n"),
    (Said::Out(Out::Closed), "closed\n"),
    (Said::Written, "ok\n"),
    (Said::Released, "released\n"),
    (Said::Shut, "shut\n"),
    (Said::Misuse, "misuse\n"),
    (Said::Told(Told::Went), "went\n"),
    (Said::Told(Told::Granted), "granted\n"),
    (Said::Told(Told::Queued), "queued\n"),
    (Said::Told(Told::Waiting), "waiting\n"),
    (Said::Told(Told::Closed), "closed\n"),
    (Said::Told(Told::Busy), "busy\n"),
    (Said::Told(Told::Free), "free\n"),
    (Said::Told(Told::Withdrawn), "withdrawn\n"),
    (Said::Told(Told::Released), "released\n"),
    (Said::Told(Told::Shut), "shut\n"),
    (Said::Refused, "refused\n"),
    (
        Said::Summary {
            line: 0,
            served: 2,
            withdrawn: 0,
            told: 0,
            left: 0,
        },
        "line 0 served 2 withdrawn 0 told 0 left 0\n",
    ),
    (
        Said::Summary {
            line: 18446744073709551615,
            served: 10000000000000000000,
            withdrawn: 10000000000000000001,
            told: 10000000000000000002,
            left: 10000000000000000003,
        },
        "line 18446744073709551615 served 10000000000000000000 withdrawn 10000000000000000001 told 10000000000000000002 left 10000000000000000003\n",
    ),
];

#[test]
fn says_each_thing(rt: HostRuntime) -> Result<(), Fail> {
    for (said, line) in &SAID {
        let mut text = Vec::from_slice(rt.alloc(), b"ok\n")?;
        push_said(&mut text, said)?;
        let wanted = format!(in rt.alloc(); "ok\n{line}")?;
        expect_at(&rt, line, text.as_slice(), wanted.as_bytes());
    }
    Ok(())
}
