//! Checks a text from standard input, in which a state machine and its proofs are written, or lists what has to be proved.
#![tactic(auto)]

mod answers;
mod commands;
mod lines;
mod reading;
mod serving;
mod statuses;
mod streams;
mod writing;

use answers::USAGE;
use serving::serve;
use statuses::Status;
use std::env::Env;
use std::process::ExitCode;
use std::{env, io};
use streams::{StdSink, StdSource};
use sync_base::OpenGate;
use writing::write_line;

/// The words after the program's name.
fn words<R: Env + AllocGlobal>(rt: &R) -> io::Result<Vec<String>> {
    Ok(env::args(rt)?.skip(1).collect(rt.alloc())?)
}

fn main(rt: HostRuntime) -> ExitCode {
    let mut out = StdSink::new(rt.stdout());
    let mut err = StdSink::new(rt.stderr());
    let Ok(words) = words(&rt) else {
        let _ = write_line(&mut err, USAGE.as_bytes());
        return ExitCode::from(Status::Usage.number());
    };
    let mut source = StdSource::new(rt.stdin());
    let status = serve(
        &rt,
        rt.alloc(),
        &words,
        &mut source,
        &mut out,
        &mut err,
        &OpenGate,
    );
    ExitCode::from(status.number())
}
