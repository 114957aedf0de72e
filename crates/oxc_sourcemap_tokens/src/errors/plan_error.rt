//! The errors of plans.
ghost use Rattle.std.specs.Prelude.{◌≡◌, Some};
ghost use Rattle.oxc_sourcemap_tokens.specs.Words.{OutOfMemory, Map, plan_error_text};

use crate::errors::error::Error;
use std::alloc::{AllocError, AllocFailed};
use std::fmt;

/// The error of a call that evaluates a plan, or that traces a position through one.
#[derive(Clone, Copy, Debug, PartialEq, Eq)]
pub enum PlanError {
    /// An operation on a map failed with this error.
    Map(Error),
    /// The tokens of a map are not sorted by generated line and column.
    Unsorted,
    /// The plan is deeper than 64.
    TooDeep,
}

impl fmt::Display for PlanError {
    ghost output = { λ error. Some (plan_error_text error) };

    fn fmt<W: fmt::Write>(&self, f: &mut fmt::Formatter<W>) -> fmt::Result {
        match self {
            PlanError::Map(error) => write!(f, "{error}"),
            PlanError::Unsorted => write!(f, "Tokens are not in order of line and column"),
            PlanError::TooDeep => write!(f, "The plan is deeper than 64"),
        }
    }
}

impl std::error::Error for PlanError {}

impl From<Error> for PlanError {
    ghost from_gives = { λ error plan. plan ≡ Map error };

    fn from(error: Error) -> PlanError {
        PlanError::Map(error)
    }
}

impl From<AllocError> for PlanError {
    ghost from_gives = { λ _ plan. plan ≡ Map OutOfMemory };

    fn from(_: AllocError) -> PlanError {
        PlanError::Map(Error::OutOfMemory)
    }
}

impl<T: Drop> From<AllocFailed<T>> for PlanError {
    ghost from_gives = { λ _ plan. plan ≡ Map OutOfMemory };

    fn from(_: AllocFailed<T>) -> PlanError {
        PlanError::Map(Error::OutOfMemory)
    }
}
