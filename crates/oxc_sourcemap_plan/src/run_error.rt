//! The errors of a command.
ghost use Rattle.std.specs.Prelude.{◌≡◌, Some};
ghost use Rattle.oxc_sourcemap_plan.specs.Words.{Map, Plan, run_error_text, status_of};
ghost use Rattle.oxc_sourcemap_plan.specs.Words.{out_of_memory};

use oxc_sourcemap_tokens::{Error, PlanError};
use std::alloc::{AllocError, AllocFailed};
use std::fmt;

/// Why a command fails.
#[derive(Clone, Copy, Debug, PartialEq, Eq)]
pub enum RunError {
    /// The evaluation of a plan, or a call on a map or a `mappings` text, failed, or there was no memory.
    Plan(PlanError),
    /// A read failed.
    Read,
    /// A write failed, or took none of some bytes.
    Write,
    /// The input is not UTF-8.
    Utf8,
    /// The arguments are not those of a command, or of a plan.
    Arguments,
    /// The arguments of a plan name a text that the input does not have.
    NoText(u32),
}

impl RunError {
    /// The status that the program ends with: 2 for bad arguments, else 1.
    pub fn status(&self) -> u8
        ensures { result ≡ status_of self.now }
    {
        match self {
            RunError::Arguments => 2,
            _ => 1,
        }
    }
}

impl fmt::Display for RunError {
    ghost output = { λ error. Some (run_error_text error) };

    fn fmt<W: fmt::Write>(&self, f: &mut fmt::Formatter<W>) -> fmt::Result {
        match self {
            RunError::Plan(error) => write!(f, "{error}"),
            RunError::Read => write!(f, "read failed"),
            RunError::Write => write!(f, "write failed"),
            RunError::Utf8 => write!(f, "input is not UTF-8"),
            RunError::Arguments => write!(f, "bad arguments"),
            RunError::NoText(number) => write!(f, "no text {number}"),
        }
    }
}

impl std::error::Error for RunError {}

impl From<Error> for RunError {
    ghost from_gives = { λ error run. run ≡ Plan (Map error) };

    fn from(error: Error) -> RunError {
        RunError::Plan(PlanError::Map(error))
    }
}

impl From<PlanError> for RunError {
    ghost from_gives = { λ error run. run ≡ Plan error };

    fn from(error: PlanError) -> RunError {
        RunError::Plan(error)
    }
}

impl From<AllocError> for RunError {
    ghost from_gives = { λ _ run. run ≡ out_of_memory };

    fn from(_: AllocError) -> RunError {
        RunError::Plan(PlanError::Map(Error::OutOfMemory))
    }
}

impl<T: Drop> From<AllocFailed<T>> for RunError {
    ghost from_gives = { λ _ run. run ≡ out_of_memory };

    fn from(_: AllocFailed<T>) -> RunError {
        RunError::Plan(PlanError::Map(Error::OutOfMemory))
    }
}
