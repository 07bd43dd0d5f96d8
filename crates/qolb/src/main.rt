//! The program `qolb`. It replays scripts of calls on queued lines (queue locks with 64 bytes of data), and runs work
//! scripts, in which threads share such lines.
#![tactic(auto)]

use qolb_serve::run;
use std::process::ExitCode;

fn main(rt: HostRuntime) -> ExitCode {
    run(&rt, &mut rt.stdin(), &mut rt.stdout(), &mut rt.stderr())
}
