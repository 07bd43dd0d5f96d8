//! A copy of the program `qolb` that is stored with a recorded run. In the recorded run, the program refuses a script
//! and ends with exit status 1.
#![tactic(auto)]

use qolb_serve::run;
use std::process::ExitCode;

fn main(rt: HostRuntime) -> ExitCode {
    run(&rt, &mut rt.stdin(), &mut rt.stdout(), &mut rt.stderr())
}
