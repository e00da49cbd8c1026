//! `xs`: a JavaScript engine and linker for devices that must start at once with little memory.
#![tactic(auto)]

mod code;
mod line;
mod machine;
mod start;
#[cfg(test)]
mod tests;
mod texts;
mod thin;
mod top;

use std::env;
use std::process::ExitCode;
use xs_base::{RealFiles, RealLines, RealSink};

// No clause speaks of the runtime's own streams and words: this hands them to `start`, which has them all.
fn main(rt: HostRuntime) -> ExitCode {
    let mut out = RealSink::new(rt.stdout());
    let mut err = RealSink::new(rt.stderr());
    let Ok(mut input) = RealLines::new(rt.alloc(), rt.stdin()) else {
        return ExitCode::from(start::refuse(&mut err));
    };
    ExitCode::from(start::start(
        rt.alloc(),
        env::args(&rt),
        &mut RealFiles::new(&rt),
        &mut input,
        &mut out,
        &mut err,
    ))
}
