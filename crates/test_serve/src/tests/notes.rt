//! Tests the notes that the program prints after an answer. A note explains an answer `misuse` or `refused`.
use crate::tests::runs::{KINDS, expect};
use std::test::Fail;

/// Commands that are misuse in each state, and no other.
const MISUSED: &str = "nodes 2 lines 2
poll 1 1
enq 1 0
enq 2 0
deq 2 0
write 2 0 0 ff
enq 1 0
out 1 0
out 2 0
show 2 0
enq 2 1
";

/// The answers to these commands.
const MISUSES: &str = "misuse
granted
queued
misuse
misuse
misuse
misuse
withdrawn
misuse
granted
line 0 served 0 withdrawn 1 told 0 left 1
line 1 served 0 withdrawn 0 told 0 left 1
";

/// The notes on the misuses, line by line.
const NOTES: &str = "command 4, deq 2 0: node 2 waits, which allows poll, out
command 5, write 2 0: node 2 waits, which allows poll, out
command 6, enq 1 0: node 1 holds, which allows write, show, deq, shut
command 7, out 1 0: node 1 holds, which allows write, show, deq, shut
command 9, show 2 0: node 2 neither waits nor holds, which allows enq
command 1, poll 1 1: node 1 neither waits nor holds, which allows enq
";

/// Commands of nodes whose turn has come, of nodes without a request, and at the end of a lease. An answer `busy` does
/// not mean misuse.
const MISUSED_AT_THE_END: &str = "nodes 3 lines 1 lease 1
shut 1 0
enq 1 0
enq 2 0
enq 3 0
out 3 0
enq 3 0
shut 2 0
deq 1 0
deq 1 0
enq 2 0
poll 2 0
show 2 0
";

/// The answers to these commands.
const MISUSES_AT_THE_END: &str = "misuse
granted
queued
queued
withdrawn
busy
misuse
released
misuse
misuse
closed
misuse
line 0 served 1 withdrawn 1 told 1 left 0
";

/// The notes on these misuses.
const NOTES_AT_THE_END: &str =
    "command 1, shut 1 0: node 1 neither waits nor holds, which allows enq
command 7, shut 2 0: node 2 waits, which allows poll, out
command 9, deq 1 0: node 1 neither waits nor holds, which allows enq
command 10, enq 2 0: node 2 waits, which allows poll, out
command 12, show 2 0: node 2 neither waits nor holds, which allows enq
";

/// Schedules, with their answers and the notes on the answers.
static NOTED: [(&str, &str, &str); 2] = [
    (MISUSED, MISUSES, NOTES),
    (MISUSED_AT_THE_END, MISUSES_AT_THE_END, NOTES_AT_THE_END),
];

#[test]
fn misuse_is_explained_by_each_kind(rt: HostRuntime) -> Result<(), Fail> {
    for (script, answers, notes) in &NOTED {
        let noted = format!(in rt.alloc(); "{answers}{notes}")?;
        for kind in &KINDS {
            let words = ["replay", "--kind", *kind, "--explain"];
            expect(&rt, rt.alloc(), &words[..3], *script, (0, *answers, ""))?;
            expect(&rt, rt.alloc(), &words, *script, (0, noted.as_str(), ""))?;
        }
    }
    Ok(())
}

/// Step scripts with events that are refused at each point, with their answers and the notes on the refusals.
static REFUSED: [(&str, &str, &str); 4] = [
    // Idle, Ready, Holding, Leaving, Marking, Linking, Left, Shut
    (
        "nodes 2
prepend 1
reset 1
reset 1
prepend 1
load 1
reset 2
prepend 2
load 2
close 1
close 1
home 1
home 1
done 1
home 1
",
        "refused
went
refused
granted
refused
went
went
refused
went
refused
went
refused
shut
refused
line 0 served 1 withdrawn 0 told 0 left 1
",
        "event 1, prepend 1: node 1 is at Idle, which allows reset
event 3, reset 1: node 1 is at Ready, which allows prepend
event 5, load 1: node 1 is at Holding, which allows home, write, close
event 8, load 2: node 2 is at Linking 1, which allows link
event 10, close 1: node 1 is at Leaving 1, which allows home
event 12, home 1: node 1 is at Marking 1, which allows done
event 14, home 1: node 1 is at Left, which allows load
",
    ),
    // Queued, Granting, Rolled, Freeing
    (
        "nodes 2
reset 1
prepend 1
reset 2
prepend 2
link 2
link 2
home 1
done 1
home 1
roll 2
roll 2
grant 1
home 1
home 1
freed 1
load 2
",
        "went
granted
went
went
queued
refused
went
went
refused
withdrawn
refused
went
went
refused
released
free
line 0 served 1 withdrawn 1 told 0 left 0
",
        "event 6, link 2: node 2 is at Queued, which allows load, roll
event 9, home 1: node 1 is at Granting 2, which allows grant
event 11, roll 2: node 2 is at Rolled, which allows load
event 14, home 1: node 1 is at Freeing, which allows freed
",
    ),
    // Shut
    (
        "nodes 1
reset 1
prepend 1
write 1 0 ff
close 1
write 1 0 ff
home 1
home 1
",
        "went
granted
went
went
refused
shut
refused
line 0 served 1 withdrawn 0 told 0 left 0
",
        "event 5, write 1: node 1 is at Leaving 1, which allows home
event 7, home 1: node 1 is at Shut, which allows reset
",
    ),
    // notes on the entry of another node: the first node passes the second, and ends the only turn of the lease
    (
        "nodes 3 lease 1
done 1
grant 1
freed 2
reset 1
prepend 1
reset 2
prepend 2
link 2
roll 2
reset 3
prepend 3
home 1
done 1
grant 1
grant 1
home 1
home 1
link 3
done 1
grant 1
freed 1
prepend 1
load 2
",
        "refused
refused
refused
went
granted
went
went
queued
withdrawn
went
went
went
went
went
refused
went
refused
queued
went
went
shut
refused
free
line 0 served 1 withdrawn 1 told 0 left 1
",
        "event 1, done 1: node 1 is at Idle, which allows reset
event 2, grant 1: node 1 is at Idle, which allows reset
event 3, freed 2: node 2 is at Idle, which allows reset
event 15, grant 1: node 1 is at Leaving 2, which allows home
event 17, home 1: node 1 is at Marking 2, which allows done
event 22, prepend 1: node 1 is at Shut, which allows reset
",
    ),
];

#[test]
fn refusals_are_explained(rt: HostRuntime) -> Result<(), Fail> {
    for (script, answers, notes) in &REFUSED {
        let noted = format!(in rt.alloc(); "{answers}{notes}")?;
        expect(&rt, rt.alloc(), &["steps"], *script, (0, *answers, ""))?;
        let words = ["steps", "--explain"];
        expect(&rt, rt.alloc(), &words, *script, (0, noted.as_str(), ""))?;
    }
    Ok(())
}
