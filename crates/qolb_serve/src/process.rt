//! Runs the program `qolb` with the command line and the standard streams of the process, and returns the exit status.
use crate::program::{refuse_words, serve};
use std::alloc::AllocGlobal;
use std::env;
use std::io::{self, Read, Write};
use std::process::ExitCode;
use std::rt::{Clock, Env};
use std::sync::Wait;
use std::thread::Threads;

/// Executes the command line of the process with these standard streams, and returns the exit status.
///
/// The `main` function of each such program consists of this call alone, so a stored run of one program tests all of
/// them.
pub fn run<
    T: Threads + Wait + Clock + Eprint + Env + AllocGlobal + Sync,
    R: Read,
    W: Write,
    E: Write,
>(rt: &T, reader: &mut R, out: &mut W, err: &mut E) -> ExitCode {
    let status = match words(rt) {
        Ok(words) => serve(rt, rt.alloc(), words.as_slice(), reader, out, err),
        Err(error) => refuse_words(err, &error),
    };
    ExitCode::from(status)
}

/// Returns the words of the command line, of which the first is the program's name.
///
/// This function reports an error if an allocation is refused, whereas `collect` would try again with a smaller one.
fn words<T: Env + AllocGlobal>(rt: &T) -> io::Result<Vec<String>> {
    let mut all = Vec::new(rt.alloc());
    for word in env::args(rt)? {
        all.push(word)?;
    }
    Ok(all)
}
