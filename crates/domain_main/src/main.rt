//! The program `domain`: the words of the command line, standard input, output and error, and the exit status.
#![tactic(auto)]

use dom_io::{RealSink, RealSource};
use script_runner::{OpenGate, run_domain};
use std::process::ExitCode;
use std::rt::Runtime;
use std::{env, io};
use uid_names::NoMemory;

/// The exit status for want of memory.
const NO_MEMORY: u8 = 7;

/// The words behind the program's own name. There is none where one of them is no text: such words are refused,
/// as none are.
fn words<R: Runtime + AllocGlobal>(rt: &R) -> Result<Vec<String>, NoMemory> {
    let mut words = Vec::new(rt.alloc());
    match env::args(rt) {
        Ok(args) => {
            for word in args.skip(1) {
                words.push(word)?;
            }
            Ok(words)
        }
        Err(error) if error.kind() == io::ErrorKind::OutOfMemory => Err(NoMemory),
        Err(_) => Ok(words),
    }
}

fn main(rt: HostRuntime) -> ExitCode {
    let Ok(words) = words(&rt) else {
        return ExitCode::from(NO_MEMORY);
    };
    let mut script = RealSource::new(rt.reader());
    let mut out = RealSink::new(io::writer(&rt));
    let mut journal = RealSink::new(rt.stderr());
    let status = run_domain(
        &rt,
        rt.alloc(),
        words.as_slice(),
        &mut script,
        &mut out,
        &mut journal,
        &OpenGate,
    );
    ExitCode::from(status)
}
