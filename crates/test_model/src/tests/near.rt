//! Tests which allowed words an error message suggests in place of a wrong word.
use crate::tests::rows::expect;
use qolb_explain::Complaint;
use qolb_script::{Allowed, Reason};
use std::alloc::Global;
use std::test::Fail;

/// Words that are not allowed at a place, each with the allowed word that resembles it or has the same meaning.
static NEAR: [(Allowed, &[&str], &str); 25] = [
    (
        Allowed::Commands,
        &[
            "ENQ", "enqolb", "enqueue", "ask", "acquire", "enter", "lock", "request", "reset",
            "prepend", "link",
        ],
        "enq",
    ),
    (Allowed::Commands, &["Poll", "load", "wait", "try"], "poll"),
    (Allowed::Commands, &["WRITE", "set", "store"], "write"),
    (Allowed::Commands, &["Show", "read", "get", "bytes"], "show"),
    (
        Allowed::Commands,
        &[
            "DEQ", "deqolb", "dequeue", "release", "leave", "unlock", "free", "home", "done",
            "grant", "freed",
        ],
        "deq",
    ),
    (
        Allowed::Commands,
        &[
            "Out", "withdraw", "roll", "rollout", "cancel", "abort", "abandon",
        ],
        "out",
    ),
    (Allowed::Commands, &["SHUT", "close"], "shut"),
    (
        Allowed::Events,
        &[
            "enq", "enqolb", "enqueue", "ask", "acquire", "enter", "lock", "request", "swap",
        ],
        "reset`, `prepend` and `link",
    ),
    (Allowed::Events, &["RESET"], "reset"),
    (Allowed::Events, &["Prepend"], "prepend"),
    (Allowed::Events, &["LINK"], "link"),
    (Allowed::Events, &["Load", "poll", "wait"], "load"),
    (
        Allowed::Events,
        &["deq", "deqolb", "dequeue", "release", "leave", "unlock"],
        "home`, `done` and `grant",
    ),
    (
        Allowed::Events,
        &[
            "ROLL", "out", "withdraw", "rollout", "cancel", "abort", "abandon",
        ],
        "roll",
    ),
    (Allowed::Events, &["Home"], "home"),
    (Allowed::Events, &["DONE"], "done"),
    (Allowed::Events, &["Grant"], "grant"),
    (Allowed::Events, &["WRITE"], "write"),
    (Allowed::Events, &["FREED", "free"], "freed"),
    (Allowed::Events, &["Close", "shut"], "close"),
    (
        Allowed::BoardJobs,
        &[
            "PUT", "push", "add", "give", "store", "in", "insert", "enq", "enqueue",
        ],
        "put",
    ),
    (
        Allowed::BoardJobs,
        &[
            "TAKE", "pop", "get", "remove", "out", "fetch", "deq", "dequeue",
        ],
        "take",
    ),
    (
        Allowed::BankJobs,
        &["IN", "deposit", "pay", "put", "add", "credit"],
        "in",
    ),
    (
        Allowed::BankJobs,
        &["Out", "withdraw", "take", "take_out", "debit"],
        "out",
    ),
    (Allowed::BankJobs, &["MOVE", "transfer", "send"], "move"),
];

/// Returns the complaint about a line that consists of this word.
fn said_of(alloc: Global, allowed: Allowed, word: &str) -> Result<String, Fail> {
    let complaint = Complaint {
        line: word.as_bytes(),
        reason: Reason::Word { place: 1, allowed },
    };
    Ok(format!(in alloc; "{complaint}")?)
}

#[test]
fn says_which_word_to_write(rt: HostRuntime) -> Result<(), Fail> {
    let alloc = rt.alloc();
    for (allowed, words, meant) in &NEAR {
        for word in *words {
            let text = said_of(alloc, *allowed, *word)?;
            let end = format!(in alloc; "; for `{word}` write `{meant}`")?;
            expect(&rt, *word, text.as_str().ends_with(end.as_str()), true);
        }
    }
    Ok(())
}

/// The kinds of words that a line has.
const PLACES: [Allowed; 7] = [
    Allowed::Commands,
    Allowed::Events,
    Allowed::BoardJobs,
    Allowed::BankJobs,
    Allowed::Lines,
    Allowed::Lease,
    Allowed::Workers,
];

/// Words that do not resemble any allowed word.
const FAR: [&str; 4] = ["x", "withdraws", "loads", "take_out_of_the_bank_today"];

#[test]
fn says_no_word_for_one_that_is_far(rt: HostRuntime) -> Result<(), Fail> {
    for allowed in &PLACES {
        for word in &FAR {
            let text = said_of(rt.alloc(), *allowed, *word)?;
            expect(&rt, *word, text.as_str().contains("; for `"), false);
        }
    }
    Ok(())
}
