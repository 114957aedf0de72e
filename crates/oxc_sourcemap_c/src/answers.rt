//! What a call answers: a code, and what was found or the numbers of the error.
ghost use Rattle.std.specs.Prelude.{◌≡◌, Ok, Err, MatchResult, ◌<◌};
ghost use Rattle.oxc_sourcemap_c.specs.Words.{fault_of, code_of, no_fault};

use crate::numbers::{CallError, Fault};

/// Writes what was found, or nothing on an error, and returns the code.
pub fn write_found<T: Drop>(answer: Result<T, CallError>, out: &mut T) -> u32
    ensures { MatchResult answer (λ found. (result ≡ 0) × (out.new ≡ found))
        (λ r. (result ≡ code_of r) × (out.new ≡ out.old)) }
{
    match answer {
        Ok(found) => {
            *out = found;
            0
        }
        Err(error) => Fault::of(error).code,
    }
}

/// Writes what was found, or nothing on an error, and the numbers of the error, and returns the code.
pub fn write_told<T: Drop>(answer: Result<T, CallError>, out: &mut T, fault: &mut Fault) -> u32
    ensures { MatchResult answer (λ found. (result ≡ 0) × (out.new ≡ found)
        × (fault.new ≡ no_fault)) (λ r. (result ≡ code_of r) × (out.new ≡ out.old)
        × (fault.new ≡ fault_of r)) }
{
    match answer {
        Ok(found) => {
            *out = found;
            *fault = Fault::none();
            0
        }
        Err(error) => {
            *fault = Fault::of(error);
            fault.code
        }
    }
}

/// The code of a result that is written already. Writes the numbers of the error.
#[inline(always)]
pub fn write_fault(answer: Result<(), CallError>, fault: &mut Fault) -> u32
    ensures { MatchResult answer (λ _. (result ≡ 0) × (fault.new ≡ no_fault))
        (λ r. (result ≡ code_of r) × (fault.new ≡ fault_of r)) }
{
    match answer {
        Ok(()) => {
            *fault = Fault::none();
            0
        }
        Err(error) => {
            *fault = Fault::of(error);
            fault.code
        }
    }
}
