//! The reasons why input is refused as a script: which line is refused, which word in this line is wrong, and what is
//! allowed in the place of this word.
ghost use Rattle.std.specs.Prelude.{◌≡◌};
ghost use Rattle.qolb_script.specs.Refusals.{error_of, unless_same};

use crate::error::ScriptError;

/// The kind of a script, which its header determines.
#[derive(Clone, Copy, Debug, PartialEq, Eq)]
pub enum ScriptKind {
    Schedule,
    Steps,
    Board,
    Bank,
}

/// The set of words that are allowed at a place.
#[derive(Clone, Copy, Debug, PartialEq, Eq)]
pub enum Allowed {
    /// The words that can begin a command of a schedule.
    Commands,
    /// The words that can begin an event of a step script.
    Events,
    /// The words that can be the second word of a board's job.
    BoardJobs,
    /// The words that can be the second word of a bank's job.
    BankJobs,
    /// The word `lines` in a header.
    Lines,
    /// The word `lease` in a header.
    Lease,
    /// The word `workers` in a header.
    Workers,
}

/// The form of a line: which words it has, and what its numbers mean.
#[derive(Clone, Copy, Debug, PartialEq, Eq)]
pub enum Form {
    /// The first line of a script of this kind.
    Header(ScriptKind),
    /// A command with a node and a line, other than a write.
    Call,
    /// A write in a schedule.
    Write,
    /// An event with a node, other than a write.
    Event,
    /// A write in a step script.
    StepWrite,
    /// A job in this kind of script whose second word is missing.
    Job(ScriptKind),
    Put,
    Take,
    /// A payment of a bank, whose second word is `in` or `out`.
    Payment,
    Move,
}

/// The reason why a line is refused. Places of words count from 1.
#[derive(Clone, Copy, Debug, PartialEq, Eq)]
pub enum Reason {
    /// No line of the script has a word. The script should have been of this kind.
    Empty(ScriptKind),
    /// The line is the header of another kind of script than the caller asked for.
    Other {
        found: ScriptKind,
        asked: ScriptKind,
    },
    /// The first word is not the word that begins a header of this kind.
    Begin(ScriptKind),
    /// A byte is neither a space nor a visible ASCII character.
    Byte,
    /// The word at this place is not one of the words that are allowed there.
    Word {
        place: u64,
        allowed: Allowed,
    },
    /// The second word does not name a job, and the first word is not one of this number of workers.
    ///
    /// The worker may be missing.
    NoWorker(u64),
    /// The line does not have the number of words that a line of this form has.
    Count(Form),
    /// The word at this place is not a number, or is out of its range.
    Number {
        place: u64,
        low: u64,
        high: u64,
    },
    /// The word at this place is not hex.
    Hex(u64),
    /// The bytes of the word at this place would reach past the end of the line.
    Fit(u64),
    /// The line is the first one past the largest number of lines that may follow a header.
    TooMany,
}

/// Checks that the word at a place of a header is `name`, the only word that is allowed there.
pub fn same_word(place: u64, allowed: Allowed, name: &[u8], word: &[u8]) -> Result<(), Reason>
    ensures { result ≡ unless_same place allowed name.now word.now }
{
    if word == name {
        Ok(())
    } else {
        Err(Reason::Word { place, allowed })
    }
}

/// The reason why bytes are not a script.
#[derive(Clone, Copy, Debug, PartialEq, Eq)]
pub enum Refusal {
    /// An allocation failed.
    Memory,
    /// The line with this number is refused for this reason. Lines count from 1.
    Line(u64, Reason),
}

impl Refusal {
    /// Returns the error of a script that is refused for this reason.
    pub fn error(self) -> ScriptError
        ensures { result ≡ error_of self }
    {
        match self {
            Refusal::Memory => ScriptError::Memory,
            Refusal::Line(line, Reason::Number { .. }) => ScriptError::Number(line),
            Refusal::Line(line, Reason::TooMany) => ScriptError::TooMany(line),
            Refusal::Line(line, _) => ScriptError::BadLine(line),
        }
    }
}
