//! The jobs of a work script. A job is one operation of one worker on a task board or a bank.
ghost use Rattle.std.specs.Prelude.{◌≡◌};
ghost use Rattle.qolb_script.specs.Jobs.{worker_of};

/// The number of accounts on a line of a bank, one for each lane.
pub const ACCOUNTS_A_LINE: u64 = 8;

/// What the workers of a script share: a task board, or the lines of a bank.
#[derive(Clone, Copy, Debug, PartialEq, Eq)]
pub enum WorkKind {
    Board,
    Bank,
}

/// One job of a worker. Workers are numbered from 1, accounts from 0.
#[derive(Clone, Copy, Debug, PartialEq, Eq)]
pub enum Job {
    /// Puts a task on the board.
    Put {
        worker: u64,
        task: u64,
    },
    /// Takes the oldest task from the board.
    Take {
        worker: u64,
    },
    /// Pays an amount into an account.
    PayIn {
        worker: u64,
        account: u64,
        amount: u64,
    },
    /// Pays an amount out of an account.
    PayOut {
        worker: u64,
        account: u64,
        amount: u64,
    },
    /// Moves an amount from one account to another.
    Move {
        worker: u64,
        source: u64,
        target: u64,
        amount: u64,
    },
}

impl Job {
    /// Returns the worker that does the job.
    pub fn worker(&self) -> u64
        ensures { result ≡ worker_of self.now }
    {
        match *self {
            Job::Put { worker, .. } => worker,
            Job::Take { worker } => worker,
            Job::PayIn { worker, .. } => worker,
            Job::PayOut { worker, .. } => worker,
            Job::Move { worker, .. } => worker,
        }
    }
}
