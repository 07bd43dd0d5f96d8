//! Finds the allowed word that a user probably meant by a wrong word. The wrong word may come from another subcommand
//! or from another lock library.
use qolb_script::Allowed;

/// A length that exceeds the length of every word in the lists below.
const MAX_WORD: usize = 20;

/// Returns the allowed word that means the same as the given word.
///
/// The given word may be in small letters or capitals. It may come from another subcommand or from another lock
/// library. The words are listed, because a comparison of letters would not find, for example, that `withdraw` means
/// `out`.
pub fn near(allowed: Allowed, word: &[u8]) -> Option<&'static str> {
    let letters = small_letters(word);
    let word = &letters[..word.len().min(MAX_WORD)];
    match allowed {
        Allowed::Commands => near_command(word),
        Allowed::Events => near_event(word),
        Allowed::BoardJobs => near_board_job(word),
        Allowed::BankJobs => near_bank_job(word),
        Allowed::Lines | Allowed::Lease | Allowed::Workers => None,
    }
}

/// Returns the first `MAX_WORD` letters of a word in lower case, padded with zeros.
fn small_letters(word: &[u8]) -> [u8; MAX_WORD] {
    let mut letters = [0; MAX_WORD];
    for place in 0..word.len().min(MAX_WORD) {
        letters[place] = word[place].to_ascii_lowercase();
    }
    letters
}

/// Returns the command that this word resembles.
fn near_command(word: &[u8]) -> Option<&'static str> {
    match word {
        b"enq"
        | b"enqolb"
        | b"enqueue"
        | b"ask"
        | b"acquire"
        | b"enter"
        | b"lock"
        | b"request"
        | b"reset"
        | b"prepend"
        | b"link" => Some("enq"),
        b"poll" | b"load" | b"wait" | b"try" => Some("poll"),
        b"write" | b"set" | b"store" => Some("write"),
        b"show" | b"read" | b"get" | b"bytes" => Some("show"),
        b"deq"
        | b"deqolb"
        | b"dequeue"
        | b"release"
        | b"leave"
        | b"unlock"
        | b"free"
        | b"home"
        | b"done"
        | b"grant"
        | b"freed" => Some("deq"),
        b"out" | b"withdraw" | b"roll" | b"rollout" | b"cancel" | b"abort" | b"abandon" => {
            Some("out")
        }
        b"shut" | b"close" => Some("shut"),
        _ => None,
    }
}

/// Returns the event that this word resembles.
fn near_event(word: &[u8]) -> Option<&'static str> {
    match word {
        b"enq"
        | b"enqolb"
        | b"enqueue"
        | b"ask"
        | b"acquire"
        | b"enter"
        | b"lock"
        | b"request"
        | b"swap" => Some("reset`, `prepend` and `link"),
        b"deq" | b"deqolb" | b"dequeue" | b"release" | b"leave" | b"unlock" => {
            Some("home`, `done` and `grant")
        }
        b"reset" => Some("reset"),
        b"prepend" => Some("prepend"),
        b"link" => Some("link"),
        b"load" | b"poll" | b"wait" => Some("load"),
        b"home" => Some("home"),
        b"done" => Some("done"),
        b"grant" => Some("grant"),
        b"roll" | b"out" | b"withdraw" | b"rollout" | b"cancel" | b"abort" | b"abandon" => {
            Some("roll")
        }
        b"freed" | b"free" => Some("freed"),
        b"write" => Some("write"),
        b"close" | b"shut" => Some("close"),
        _ => None,
    }
}

/// Returns the job of a board that this word resembles.
fn near_board_job(word: &[u8]) -> Option<&'static str> {
    match word {
        b"put" | b"push" | b"add" | b"give" | b"store" | b"in" | b"insert" | b"enq" | b"enqueue" =>
            Some("put"),
        b"take" | b"pop" | b"get" | b"remove" | b"out" | b"fetch" | b"deq" | b"dequeue" => {
            Some("take")
        }
        _ => None,
    }
}

/// Returns the job of a bank that this word resembles.
fn near_bank_job(word: &[u8]) -> Option<&'static str> {
    match word {
        b"in" | b"deposit" | b"pay" | b"put" | b"add" | b"credit" => Some("in"),
        b"out" | b"withdraw" | b"take" | b"take_out" | b"debit" => Some("out"),
        b"move" | b"transfer" | b"send" => Some("move"),
        _ => None,
    }
}
