//! Errors with the places of their faults.
ghost use Rattle.std.specs.Prelude.{◌≡◌, ◌≢◌, None};
ghost use Rattle.oxc_sourcemap_c.specs.Words.{out_of_memory, OutOfMemory, of_map};

use crate::numbers::CallError;
use oxc_sourcemap_tokens::{Error, Fault, FaultPlace};

/// Why a call fails, and where in the input the fault is.
#[derive(Clone, Copy, Debug, PartialEq, Eq)]
pub struct Failure {
    pub error: CallError,
    /// None if the fault has no place.
    pub place: Option<FaultPlace>,
}

impl Failure {
    /// An error whose fault has no place.
    pub(crate) fn of(error: CallError) -> Failure
        ensures { result ≡ record { error = error; place = None } }
    {
        Failure { error, place: None }
    }

    /// Want of memory.
    pub(crate) fn memory() -> Failure
        ensures { result ≡ record { error = out_of_memory; place = None } }
    {
        Failure::of(CallError::memory())
    }
}

impl From<CallError> for Failure {
    ghost from_gives = { λ error failure. failure ≡ record { error = error; place = None } };

    fn from(error: CallError) -> Failure {
        Failure::of(error)
    }
}

impl From<Fault> for Failure {
    ghost from_gives = { λ fault failure.
        (fault.error ≡ OutOfMemory → failure ≡ record { error = out_of_memory; place = None })
        × ((fault.error ≢ OutOfMemory)
        → failure ≡ record { error = of_map fault.error; place = fault.place }) };

    fn from(fault: Fault) -> Failure {
        match fault.error {
            Error::OutOfMemory => Failure::memory(),
            error => Failure {
                error: CallError::from(error),
                place: fault.place,
            },
        }
    }
}
