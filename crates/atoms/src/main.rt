//! Words of the standard input, listed with how often each occurred before or counted by several workers; scripts of steps; and static tables.
#![tactic(auto)]

use commands::program::{arguments, random_keys, run};
use std::process::ExitCode;
use text_streams::streams::Io;

/// Draws the keys, and hands them over with the arguments, the streams and the status.
fn main(rt: HostRuntime) -> ExitCode {
    let keys = random_keys(&rt);
    let args = arguments(&rt);
    let mut input = Io::new(rt.stdin());
    let mut output = Io::new(rt.stdout());
    let mut faults = Io::new(rt.stderr());
    let status = run(
        &rt,
        rt.alloc(),
        keys,
        args,
        &mut input,
        &mut output,
        &mut faults,
    );
    ExitCode::from(status)
}
