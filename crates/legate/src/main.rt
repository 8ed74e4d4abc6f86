//! The program: it runs a script of array statements, and prints what the script prints; or it
//! writes the script's canonical text.
#![tactic(auto)]

mod checking;
mod command;
mod exit;
mod loading;
mod messages;
mod running;
#[cfg(test)]
mod tests;
mod top;
mod walk;

pub use exit::Exit;
use exit::NO_MEMORY;
use lg_outside::{StdSink, StdSource};
use messages::told;
use std::env::Env;
use std::process::ExitCode;
use std::{env, io};
pub use top::legate;

/// Reads the script on standard input and does with it what the words after the program's name say.
/// It prints to standard output, writes messages to standard error, and ends with the status.
fn main(rt: HostRuntime) -> ExitCode {
    let mut source = StdSource::new(rt.stdin());
    let mut out = StdSink::new(rt.stdout());
    let mut log = StdSink::new(rt.stderr());
    let Ok(words) = arguments(&rt) else {
        let exit = told(&mut log, Exit::with(NO_MEMORY));
        return ExitCode::from(exit.status);
    };
    let exit = legate(rt.alloc(), &words, &mut source, &mut out, &mut log);
    ExitCode::from(exit.status)
}

// The words after the program's name. One that is no text belongs to no command, and then there are
// none.
fn arguments<R: Env + AllocGlobal>(rt: &R) -> io::Result<Vec<String>> {
    let mut words = Vec::new(rt.alloc());
    let arguments = match env::args(rt) {
        Ok(arguments) => arguments,
        Err(error) if error.kind() == io::ErrorKind::InvalidData => return Ok(words),
        Err(error) => return Err(error),
    };
    for word in arguments.skip(1) {
        words.push(word)?;
    }
    Ok(words)
}
