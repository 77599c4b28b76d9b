//! How many rows passed.

use std::fmt;
use std::process::ExitCode;

/// How many rows passed, and how many failed.
#[derive(Clone, Copy)]
pub struct Counts {
    passed: u64,
    failed: u64,
}

impl Counts {
    /// No row yet.
    pub fn new() -> Counts {
        Counts {
            passed: 0,
            failed: 0,
        }
    }

    /// One row more.
    pub fn with(self, passed: bool) -> Counts {
        if passed {
            Counts {
                passed: self.passed.saturating_add(1),
                ..self
            }
        } else {
            Counts {
                failed: self.failed.saturating_add(1),
                ..self
            }
        }
    }

    /// The exit status: 0 where some row passed and none failed.
    pub fn status(&self) -> ExitCode {
        if self.failed == 0 && self.passed > 0 {
            ExitCode::SUCCESS
        } else {
            ExitCode::FAILURE
        }
    }
}

impl fmt::Display for Counts {
    fn fmt<W: fmt::Write>(&self, f: &mut fmt::Formatter<W>) -> fmt::Result {
        let passed = self.passed;
        let failed = self.failed;
        write!(f, "{passed} passed, {failed} failed")
    }
}
