//! Why a command fails, and where.
ghost use Rattle.std.specs.Prelude.{◌≡◌, None};
ghost use Rattle.smap_run.specs.Words.{Map, Plan, out_of_memory};

use oxc_sourcemap_json::FaultReason;
use oxc_sourcemap_plan::RunError;
use oxc_sourcemap_tokens::{Error, Fault, FaultPlace, PlanError};
use std::alloc::AllocError;

/// Why a command fails, and where its input has the fault.
#[derive(Clone, Copy, Debug, PartialEq, Eq)]
pub struct Failure {
    /// The error of `run`.
    pub error: RunError,
    /// Where the input has the fault, if the error has a place in it.
    pub place: Option<FaultPlace>,
    /// What is really wrong there, if the text of the error does not say it.
    pub reason: Option<FaultReason>,
}

impl From<RunError> for Failure {
    ghost from_gives = { λ error failure. failure
        ≡ record { error = error; place = None; reason = None } };

    fn from(error: RunError) -> Failure {
        Failure {
            error,
            place: None,
            reason: None,
        }
    }
}

impl From<Fault> for Failure {
    ghost from_gives = { λ fault failure. failure
        ≡ record { error = Plan (Map fault.error); place = fault.place; reason = None } };

    fn from(fault: Fault) -> Failure {
        Failure {
            error: RunError::from(fault.error),
            place: fault.place,
            reason: None,
        }
    }
}

impl From<Error> for Failure {
    ghost from_gives = { λ error failure. failure
        ≡ record { error = Plan (Map error); place = None; reason = None } };

    fn from(error: Error) -> Failure {
        Failure::from(RunError::from(error))
    }
}

impl From<PlanError> for Failure {
    ghost from_gives = { λ error failure. failure
        ≡ record { error = Plan error; place = None; reason = None } };

    fn from(error: PlanError) -> Failure {
        Failure::from(RunError::Plan(error))
    }
}

impl From<AllocError> for Failure {
    ghost from_gives = { λ _ failure. failure
        ≡ record { error = out_of_memory; place = None; reason = None } };

    fn from(error: AllocError) -> Failure {
        Failure::from(RunError::from(error))
    }
}

impl From<Failure> for RunError {
    ghost from_gives = { λ failure error. error ≡ failure.error };

    /// The error without its place.
    fn from(failure: Failure) -> RunError {
        failure.error
    }
}
