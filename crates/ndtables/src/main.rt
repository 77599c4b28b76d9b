//! Arithmetic on tables: `ndtables COMMAND ARGS`.
#![tactic(auto)]

mod adding;
mod command;
mod convolving;
mod fault;
mod help;
mod input;
mod multiplying;
mod options;
mod place;
mod printing;
mod program;
mod records;
mod reducing;
mod source;
mod spelling;
mod table;
mod views;
mod words;

use std::process::ExitCode;
use std::rt::Env;
use std::{env, io};

fn main(rt: HostRuntime) -> ExitCode {
    let line = given_words(&rt);
    let status = program::run_line(
        rt.alloc(),
        line,
        rt.stdin(),
        &mut rt.stdout(),
        &mut rt.stderr(),
    );
    ExitCode::from(status)
}

/// The words of the command line, of which the first is the program's name.
fn given_words<R: Env + AllocGlobal>(rt: &R) -> io::Result<Vec<String>> {
    Ok(env::args(rt)?.collect(rt.alloc())?)
}
