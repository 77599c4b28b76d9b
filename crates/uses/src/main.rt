//! Seven worked uses of `ndarray`, a module each with its contract: a filter of pictures (`picture`), the game of life (`life`), linear
//! recurrences (`recurrence`), a report of a table (`report`), a filter of signals (`fir`), sums of windows of a table (`box_sums`) and a
//! blur by a column and a row (`smooth`). They are to be copied.
//!
//! `uses COMMAND < INPUT` runs one of them, and ends with status 0, or 2 after a line that names the fault. docs/CALLING.md shows
//! the commands.
#![tactic(auto)]

pub mod box_sums;
mod command;
mod fault;
pub mod fir;
pub mod life;
pub mod picture;
mod pixels;
mod printing;
mod program;
mod reading;
pub mod recurrence;
pub mod report;
mod reporting;
mod rows;
mod signal;
pub mod smooth;
mod spelling;

use crate::fault::Fault;
use std::process::ExitCode;
use std::rt::Env;
use std::{env, io};

fn main(rt: HostRuntime) -> ExitCode {
    let status = match given_words(&rt) {
        Ok(words) => program::run(
            rt.alloc(),
            words.as_slice(),
            rt.stdin(),
            &mut rt.stdout(),
            &mut rt.stderr(),
        ),
        Err(_) => program::report(rt.alloc(), Fault::Memory, &[], "", &mut rt.stderr()),
    };
    ExitCode::from(status)
}

/// The words after the program's name.
fn given_words<R: Env + AllocGlobal>(rt: &R) -> io::Result<Vec<String>> {
    Ok(env::args(rt)?.skip(1).collect(rt.alloc())?)
}
