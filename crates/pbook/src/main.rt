//! The program `pbook`: hands the words of its command line on.
#![tactic(auto)]

use pb_program::{run, tell_no_memory, tell_not_text};
use std::process::ExitCode;
use std::{env, io};

fn main(rt: HostRuntime) -> ExitCode {
    ExitCode::from(match answer(&rt) {
        Ok(status) => status,
        Err(error) if error.kind() == io::ErrorKind::OutOfMemory => tell_no_memory(&rt),
        Err(_) => tell_not_text(&rt),
    })
}

/// Runs the command that the words name and answers the exit status. It fails where a word isn't
/// UTF-8, and for want of memory.
fn answer(rt: &HostRuntime) -> io::Result<u8> {
    let given: Vec<String> = env::args(rt)?.collect(rt.alloc())?;
    let words: Vec<&str> = given.iter().map(|word| word.as_str()).collect(rt.alloc())?;
    Ok(run(rt, words.as_slice()))
}
