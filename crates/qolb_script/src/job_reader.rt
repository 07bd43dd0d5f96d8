//! Reads the header and the jobs of a work script.
ghost use Rattle.std.specs.Prelude.{◌≡◌, ◌≤◌, ◌<◌, ◌*◌, IfOk};
ghost use Rattle.qolb_model.specs.Opening.{AreNodes};
ghost use Rattle.qolb_script.specs.Commands.{read_line};
ghost use Rattle.qolb_script.specs.Jobs as spec;
ghost use Rattle.qolb_script.specs.Reading.{words_left};
ghost use Rattle.qolb_script.specs.declared.schedule.TheConstants.{MAX_LINES};

use crate::command_reader::{LINES, node_within};
use crate::job::{ACCOUNTS_A_LINE, Job, WorkKind};
use crate::reason::{Allowed, Form, Reason, ScriptKind, same_word};
use crate::schedule::MAX_LINES;
use crate::text::{ReadItem, Words, number_within};
use qolb_model::MAX_NODES;

/// The fixed words of headers.
pub const BOARD: &[u8] = b"board";

pub const BANK: &[u8] = b"bank";

pub const WORKERS: &[u8] = b"workers";

/// The words that can be the second word of a job.
pub const PUT: &[u8] = b"put";

pub const TAKE: &[u8] = b"take";

pub const PAY_IN: &[u8] = b"in";

pub const PAY_OUT: &[u8] = b"out";

pub const MOVE: &[u8] = b"move";

/// The numbers in the header of a work script. A board has one line.
#[derive(Clone, Copy)]
pub struct WorkHeader {
    pub workers: u64,
    pub lines: u64,
}

/// A reader of the jobs of this kind of work, below a header with these numbers.
#[derive(Drop)]
pub struct JobReader {
    pub kind: WorkKind,
    pub workers: u64,
    pub lines: u64,
    ghost some_line: { 1 ≤ lines },
    ghost few_lines: { lines ≤ MAX_LINES },
}

impl ReadItem for JobReader {
    type Item = Job;

    ghost item_of = { λ r. spec.job_of r.kind r.workers r.lines };

    ghost in_range = { λ r job. (1 ≤ spec.worker_of job) × (spec.worker_of job ≤ r.workers)
        × spec.IsOfKind r.kind r.lines job };

    fn read_item(&self, line: &[u8]) -> Result<Job, Reason> {
        match self.kind {
            WorkKind::Board => read_board_job(self.workers, line),
            WorkKind::Bank => read_bank_job(self.workers, self.lines, line),
        }
    }
}

/// Reads the header line of a work script of this kind.
pub fn read_work_header(kind: WorkKind, text: &[u8]) -> Result<WorkHeader, Reason>
    ensures header { result ≡ read_line (spec.work_header_of kind) text.now }
    ensures workers { IfOk result (λ header. AreNodes header.workers) }
    ensures lines { IfOk result (λ header. (1 ≤ header.lines) × (header.lines ≤ MAX_LINES)) }
    ensures one { IfOk result (λ header. kind ≡ WorkKind.Board → header.lines ≡ 1) }
{
    match kind {
        WorkKind::Board => read_board_header(text),
        WorkKind::Bank => read_bank_header(text),
    }
}

/// Reads the header of a board's work.
fn read_board_header(text: &[u8]) -> Result<WorkHeader, Reason>
    ensures header { result ≡ read_line spec.board_header text.now }
    ensures workers { IfOk result (λ header. AreNodes header.workers) }
    ensures one { IfOk result (λ header. header.lines ≡ 1) }
{
    let mut words = Words::of_line(text)?;
    match words.next() {
        Some(first) if first == BOARD => read_rest_of_board(words),
        Some(_) => Err(Reason::Begin(ScriptKind::Board)),
        None => Err(Reason::Count(Form::Header(ScriptKind::Board))),
    }
}

/// Reads the words of a board's header that follow the first word.
fn read_rest_of_board(mut words: Words) -> Result<WorkHeader, Reason>
    ensures header { result ≡ spec.rest_of_board (words_left words.entry) }
    ensures workers { IfOk result (λ header. AreNodes header.workers) }
    ensures one { IfOk result (λ header. header.lines ≡ 1) }
{
    match (words.next(), words.next(), words.next()) {
        (Some(second), Some(workers), None) => {
            same_word(2, Allowed::Workers, WORKERS, second)?;
            Ok(WorkHeader {
                workers: node_within(3, MAX_NODES, workers)?,
                lines: 1,
            })
        }
        _ => Err(Reason::Count(Form::Header(ScriptKind::Board))),
    }
}

/// Reads the header of a bank's work.
fn read_bank_header(text: &[u8]) -> Result<WorkHeader, Reason>
    ensures header { result ≡ read_line spec.bank_header text.now }
    ensures workers { IfOk result (λ header. AreNodes header.workers) }
    ensures lines { IfOk result (λ header. (1 ≤ header.lines) × (header.lines ≤ MAX_LINES)) }
{
    let mut words = Words::of_line(text)?;
    match words.next() {
        Some(first) if first == BANK => read_rest_of_bank(words),
        Some(_) => Err(Reason::Begin(ScriptKind::Bank)),
        None => Err(Reason::Count(Form::Header(ScriptKind::Bank))),
    }
}

/// Reads the words of a bank's header that follow the first word.
fn read_rest_of_bank(mut words: Words) -> Result<WorkHeader, Reason>
    ensures header { result ≡ spec.rest_of_bank (words_left words.entry) }
    ensures workers { IfOk result (λ header. AreNodes header.workers) }
    ensures lines { IfOk result (λ header. (1 ≤ header.lines) × (header.lines ≤ MAX_LINES)) }
{
    let (Some(second), Some(workers)) = (words.next(), words.next()) else {
        return Err(Reason::Count(Form::Header(ScriptKind::Bank)));
    };
    match (words.next(), words.next(), words.next()) {
        (Some(fourth), Some(lines), None) => {
            same_word(2, Allowed::Workers, WORKERS, second)?;
            same_word(4, Allowed::Lines, LINES, fourth)?;
            Ok(WorkHeader {
                workers: node_within(3, MAX_NODES, workers)?,
                lines: number_within(5, 1, MAX_LINES, lines)?,
            })
        }
        _ => Err(Reason::Count(Form::Header(ScriptKind::Bank))),
    }
}

/// Reads the job on a line of a board's work script.
fn read_board_job(workers: u64, text: &[u8]) -> Result<Job, Reason>
    ensures job { result ≡ read_line (spec.board_job workers) text.now }
    ensures range { IfOk result (λ job. (1 ≤ spec.worker_of job) × (spec.worker_of job ≤ workers)
        × spec.IsOfKind WorkKind.Board 1 job) }
{
    let mut words = Words::of_line(text)?;
    let (Some(worker), Some(verb)) = (words.next(), words.next()) else {
        return Err(Reason::Count(Form::Job(ScriptKind::Board)));
    };
    if verb == TAKE {
        read_take(workers, worker, words)
    } else if verb == PUT {
        read_put(workers, worker, words)
    } else {
        Err(no_job(Allowed::BoardJobs, workers, worker))
    }
}

/// Returns the reason why a line is not a job, given that its second word does not name a job.
fn no_job(allowed: Allowed, workers: u64, worker: &[u8]) -> Reason
    ensures { result ≡ spec.no_job allowed workers worker.now }
{
    match worker_within(workers, worker) {
        Ok(_) => Reason::Word { place: 2, allowed },
        Err(_) => Reason::NoWorker(workers),
    }
}

/// Reads the words of a job that follow `take`.
fn read_take(workers: u64, worker: &[u8], mut words: Words) -> Result<Job, Reason>
    ensures job { result ≡ spec.take_of workers worker.now (words_left words.entry) }
    ensures range { IfOk result (λ job. (1 ≤ spec.worker_of job) × (spec.worker_of job ≤ workers)
        × spec.IsOfKind WorkKind.Board 1 job) }
{
    match words.next() {
        None => Ok(Job::Take {
            worker: worker_within(workers, worker)?,
        }),
        Some(_) => Err(Reason::Count(Form::Take)),
    }
}

/// Reads the words of a job that follow `put`.
fn read_put(workers: u64, worker: &[u8], mut words: Words) -> Result<Job, Reason>
    ensures job { result ≡ spec.put_of workers worker.now (words_left words.entry) }
    ensures range { IfOk result (λ job. (1 ≤ spec.worker_of job) × (spec.worker_of job ≤ workers)
        × spec.IsOfKind WorkKind.Board 1 job) }
{
    match (words.next(), words.next()) {
        (Some(task), None) => Ok(Job::Put {
            worker: worker_within(workers, worker)?,
            task: any_number(3, task)?,
        }),
        _ => Err(Reason::Count(Form::Put)),
    }
}

/// Reads the job on a line of the work script of a bank with `lines` lines.
fn read_bank_job(workers: u64, lines: u64, text: &[u8]) -> Result<Job, Reason>
    requires not_zero { 1 ≤ lines }
    requires in_range { lines ≤ MAX_LINES }
    ensures job { result ≡ read_line (spec.bank_job workers lines) text.now }
    ensures range { IfOk result (λ job. (1 ≤ spec.worker_of job) × (spec.worker_of job ≤ workers)
        × spec.IsOfKind WorkKind.Bank lines job) }
{
    let mut words = Words::of_line(text)?;
    let (Some(worker), Some(verb)) = (words.next(), words.next()) else {
        return Err(Reason::Count(Form::Job(ScriptKind::Bank)));
    };
    if verb == PAY_IN {
        let (worker, account, amount) = read_payment(workers, lines, worker, words)?;
        Ok(Job::PayIn {
            worker,
            account,
            amount,
        })
    } else if verb == PAY_OUT {
        let (worker, account, amount) = read_payment(workers, lines, worker, words)?;
        Ok(Job::PayOut {
            worker,
            account,
            amount,
        })
    } else if verb == MOVE {
        read_move(workers, lines, worker, words)
    } else {
        Err(no_job(Allowed::BankJobs, workers, worker))
    }
}

/// Reads the worker, the account and the amount of a payment, where the last two follow the second word.
fn read_payment(
    workers: u64,
    lines: u64,
    worker: &[u8],
    mut words: Words,
) -> Result<(u64, u64, u64), Reason>
    requires not_zero { 1 ≤ lines }
    requires in_range { lines ≤ MAX_LINES }
    ensures payment { result ≡ spec.payment_of workers lines worker.now (words_left words.entry) }
    ensures range { IfOk result (λ p. (1 ≤ p.0) × (p.0 ≤ workers)
        × (p.1 < ACCOUNTS_A_LINE * lines)) }
{
    match (words.next(), words.next(), words.next()) {
        (Some(account), Some(amount), None) => {
            let worker = worker_within(workers, worker)?;
            let account = account_within(3, lines, account)?;
            let amount = any_number(4, amount)?;
            Ok((worker, account, amount))
        }
        _ => Err(Reason::Count(Form::Payment)),
    }
}

/// Reads the words of a job that follow `move`: two accounts and the amount to move from the first to the second.
fn read_move(workers: u64, lines: u64, worker: &[u8], mut words: Words) -> Result<Job, Reason>
    requires not_zero { 1 ≤ lines }
    requires in_range { lines ≤ MAX_LINES }
    ensures job { result ≡ spec.move_of workers lines worker.now (words_left words.entry) }
    ensures range { IfOk result (λ job. (1 ≤ spec.worker_of job) × (spec.worker_of job ≤ workers)
        × spec.IsOfKind WorkKind.Bank lines job) }
{
    let Some(source) = words.next() else {
        return Err(Reason::Count(Form::Move));
    };
    match (words.next(), words.next(), words.next()) {
        (Some(target), Some(amount), None) => {
            let worker = worker_within(workers, worker)?;
            let source = account_within(3, lines, source)?;
            let target = account_within(4, lines, target)?;
            let amount = any_number(5, amount)?;
            Ok(Job::Move {
                worker,
                source,
                target,
                amount,
            })
        }
        _ => Err(Reason::Count(Form::Move)),
    }
}

/// Reads a worker from the first word.
fn worker_within(workers: u64, word: &[u8]) -> Result<u64, Reason>
    ensures worker { result ≡ spec.worker_within workers word.now }
    ensures range { IfOk result (λ n. (1 ≤ n) × (n ≤ workers)) }
{
    node_within(1, workers, word)
}

/// Reads a number without a range from the word at this place.
fn any_number(place: u64, word: &[u8]) -> Result<u64, Reason>
    ensures { result ≡ spec.any_number place word.now }
{
    number_within(place, 0, u64::MAX, word)
}

/// Reads an account of a bank with `lines` lines from the word at this place.
fn account_within(place: u64, lines: u64, word: &[u8]) -> Result<u64, Reason>
    requires not_zero { 1 ≤ lines }
    requires in_range { lines ≤ MAX_LINES }
    ensures account { result ≡ spec.account_within place lines word.now }
    ensures range { IfOk result (λ a. a < ACCOUNTS_A_LINE * lines) }
{
    number_within(place, 0, ACCOUNTS_A_LINE * lines - 1, word)
}
