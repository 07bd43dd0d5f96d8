//! The answers of the calls on a desk.
ghost use Rattle.std.specs.Prelude.{◌≡◌, ℕ};

/// The answer of a desk's call. Only `Done` changes a balance or a counter.
#[derive(Clone, Copy, Debug, PartialEq, Eq)]
pub enum Reply {
    /// The call did what it was asked for.
    Done,
    /// The account's balance is less than the amount.
    Short,
    /// The balance would exceed `MAX_BALANCE`, or the desk's counter would exceed its type.
    Over,
    /// The line was not granted within `patience` polls, and the request is withdrawn.
    Late,
    /// The line is closed.
    Closed,
    /// The port's last request is not clear yet, so the port made none. That last request was withdrawn, or the line
    /// was left in its mailbox.
    Busy,
    /// There is no such account.
    NoAccount,
    /// Both accounts of a transfer are the same account.
    SameAccount,
}

/// Why `open_desks` made no desks.
#[derive(Clone, Copy, Debug, PartialEq, Eq)]
pub enum OpenDesksError {
    /// Memory was refused.
    Memory,
    /// The line `line` has fewer ports than there should be desks. It is the smallest such line.
    Few { line: u64 },
}

/// Why `settle` settled nothing.
#[derive(Clone, Copy, Debug, PartialEq, Eq)]
pub enum SettleError {
    /// Memory was refused.
    Memory,
    /// No desk has a port of `node` on `line`. It is the smallest such line, and `node` is the smallest such node
    /// there.
    Missing { line: u64, node: u64 },
}

impl SettleError {
    /// Returns the error's number.
    pub fn number(&self) -> u8
        ensures memory { self.now ≡ SettleError.Memory → result ≡ 1 }
        ensures missing { (line node : ℕ) → self.now ≡ SettleError.Missing line node → result ≡ 2 }
    {
        match self {
            SettleError::Memory => 1,
            SettleError::Missing { .. } => 2,
        }
    }
}
