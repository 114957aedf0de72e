//! Errors of plans, with the texts that they come from.
ghost use Rattle.std.specs.Prelude.{◌≡◌, None, option_map};
ghost use Rattle.oxc_sourcemap_plan.specs.Words.{Map, OutOfMemory, input_number, fault_place_in};
ghost use Rattle.oxc_sourcemap_plan.specs.Words.{lent_items};

use oxc_sourcemap_tokens::{Error, Fault, FaultPlace, PlanError};
use std::alloc::{AllocError, AllocFailed};

/// An error of a plan, and where it comes from.
#[derive(Clone, Copy)]
pub struct PlanFault<'t> {
    pub error: PlanError,
    /// The first text that cannot be read, and where its fault is. None if the error comes from no text.
    pub at: Option<(&'t str, FaultPlace)>,
}

/// The number of the first of these inputs that is this text.
fn input_number(inputs: &[&str], text: &str) -> Option<usize>
    ensures { result ≡ input_number (lent_items inputs.now) text.now }
{
    for k in 0..inputs.len() {
        if inputs[k] == text {
            return Some(k);
        }
    }
    None
}

impl<'t> PlanFault<'t> {
    /// The place of the fault, with the number of the first of these inputs that is the text at fault. None if the error comes from
    /// no text, or from one that is none of these.
    pub fn place_in(&self, inputs: &[&str]) -> Option<FaultPlace>
        ensures { result ≡ fault_place_in (lent_items inputs.now) self.now }
    {
        let (text, place) = self.at?;
        Some(place.in_text(input_number(inputs, text)?))
    }

    /// The fault of a text.
    pub(crate) fn of_text(text: &'t str, fault: Fault) -> Self
        ensures error { result.error ≡ Map fault.error }
        ensures at { result.at ≡ option_map (λ place. (text.entry, place)) fault.place }
    {
        Self {
            error: PlanError::Map(fault.error),
            at: fault.place.map(|place| (text, place)),
        }
    }
}

impl<'t> From<PlanError> for PlanFault<'t> {
    ghost from_gives = { λ error fault. fault ≡ record { error = error; at = None } };

    fn from(error: PlanError) -> PlanFault<'t> {
        PlanFault { error, at: None }
    }
}

impl<'t> From<AllocError> for PlanFault<'t> {
    ghost from_gives = { λ _ fault. fault ≡ record { error = Map OutOfMemory; at = None } };

    fn from(_: AllocError) -> PlanFault<'t> {
        PlanFault::from(PlanError::Map(Error::OutOfMemory))
    }
}

impl<'t, T: Drop> From<AllocFailed<T>> for PlanFault<'t> {
    ghost from_gives = { λ _ fault. fault ≡ record { error = Map OutOfMemory; at = None } };

    fn from(_: AllocFailed<T>) -> PlanFault<'t> {
        PlanFault::from(PlanError::Map(Error::OutOfMemory))
    }
}

impl<'t> From<PlanFault<'t>> for PlanError {
    ghost from_gives = { λ fault error. error ≡ fault.error };

    /// The error without the text that it comes from.
    fn from(fault: PlanFault<'t>) -> PlanError {
        fault.error
    }
}
