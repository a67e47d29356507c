//! The program `domain_view`, which shows runs of a script: the words of the command line, standard input, output and error, and the exit status.
#![tactic(auto)]

use dom_io::{RealSink, RealSource};
use std::io::IsTerminal;
use std::process::ExitCode;
use std::rt::Runtime;
use std::thread::available_parallelism;
use std::{env, io};
use uid_names::NoMemory;
use view_program::{Host, show};

/// The exit status for want of memory.
const NO_MEMORY: u8 = 7;

/// The words of the command line, the program's own name first. There is none where one of them is no text: such words are refused, as none are.
fn words<R: Runtime + AllocGlobal>(rt: &R) -> Result<Vec<String>, NoMemory> {
    let mut words = Vec::new(rt.alloc());
    match env::args(rt) {
        Ok(args) => {
            for word in args {
                words.push(word)?;
            }
            Ok(words)
        }
        Err(error) if error.kind() == io::ErrorKind::OutOfMemory => Err(NoMemory),
        Err(_) => Ok(words),
    }
}

/// How many characters stand side by side, where the environment says it in COLUMNS.
fn columns<R: Runtime + AllocGlobal>(rt: &R) -> Option<u64> {
    env::var(rt, "COLUMNS").ok()?.parse().ok()
}

fn main(rt: HostRuntime) -> ExitCode {
    let Ok(words) = words(&rt) else {
        return ExitCode::from(NO_MEMORY);
    };
    let processors = match available_parallelism(&rt) {
        Ok(count) => count.get(),
        Err(_) => 1,
    };
    let host = Host {
        processors,
        tells: rt.stderr().is_terminal(),
        columns: columns(&rt),
    };
    let mut input = RealSource::new(rt.reader());
    let mut out = RealSink::new(io::writer(&rt));
    let mut notes = RealSink::new(rt.stderr());
    let status = show(
        &rt,
        rt.alloc(),
        words.as_slice(),
        host,
        &mut input,
        &mut out,
        &mut notes,
    );
    ExitCode::from(status)
}
