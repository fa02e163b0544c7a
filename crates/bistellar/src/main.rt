//! The program `bistellar`: reads standard input, does the job that its words name, and writes the answer to standard
//! output. All that it answers is `job_run`'s; here only the real source, sink, words and threads are put together, and gates
//! that let each worker go on.
#![tactic(auto)]

use flip_io::{StdSink, StdSource};
use held_stars::OpenGate;
use job_run::{Status, run_job};
use std::io;
use std::process::ExitCode;

// The words behind the program's name. A word that isn't UTF-8 makes a faulty command line, as no word at all does.
fn words(rt: &HostRuntime) -> io::Result<Vec<String>> {
    let mut words = Vec::new(rt.alloc());
    match std::env::args(rt) {
        Ok(args) => {
            for word in args.skip(1) {
                words.push(word)?;
            }
            Ok(words)
        }
        Err(error) if error.kind() == io::ErrorKind::InvalidData => Ok(words),
        Err(error) => Err(error),
    }
}

fn main(rt: HostRuntime) -> ExitCode {
    let Ok(words) = words(&rt) else {
        return ExitCode::from(Status::NoMemory.number());
    };
    let mut source = StdSource::new(rt.stdin());
    let mut sink = StdSink::new(rt.stdout());
    let mut gates = [OpenGate; 16];
    let answer = run_job(&rt, rt.alloc(), &words, &mut source, &mut sink, &mut gates);
    ExitCode::from(answer.status.number())
}
