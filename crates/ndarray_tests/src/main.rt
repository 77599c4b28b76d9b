//! What the library is tested with: a program that carries out rows of calls on tables and compares what they give.
//!
//! `ndarray_tests FILE..` carries out the rows of the files, as docs/DEVELOPMENT.md describes them, prints each that gives
//! another answer, and ends with `N passed, M failed`; its status is 1 where one failed.
#![tactic(auto)]

mod counts;
pub mod refusing;
mod rows;

use crate::counts::Counts;
use std::process::ExitCode;
use std::{env, fs, io};

fn main(rt: HostRuntime) -> io::Result<ExitCode> {
    let mut counts = Counts::new();
    for name in env::args(&rt)?.skip(1) {
        let text = fs::read_to_string(&rt, name.as_str())?;
        counts = rows::compare(&rt, name.as_str(), text.as_str(), counts)?;
    }
    println!(rt; "{counts}")?;
    Ok(counts.status())
}
