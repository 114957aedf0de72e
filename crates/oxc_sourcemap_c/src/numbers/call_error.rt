//! The errors of calls of the library for C.
ghost use Rattle.std.specs.Prelude.{◌≡◌, Some};
ghost use Rattle.oxc_sourcemap_c.specs.Words.{OutOfMemory, Map, Plan, call_error_text};
ghost use Rattle.oxc_sourcemap_c.specs.Words.{Compiled};
ghost use Rattle.oxc_sourcemap_c.specs.Words.{out_of_memory, of_scopes};

use oxc_sourcemap_compiled::CompiledError;
use oxc_sourcemap_scopes::{ScopesError, ScopesFault};
use oxc_sourcemap_tokens::{Error, JsonFault, PlanError};
use std::alloc::{AllocError, AllocFailed};
use std::fmt;

/// The error of a call of the library for C.
#[derive(Clone, Copy, Debug, PartialEq, Eq)]
pub enum CallError {
    /// A call on a map or the evaluation of a plan failed with this error.
    Plan(PlanError),
    /// The words are no plan.
    Words,
    /// The words name a text that is not there.
    NoText(u32),
    /// A handle is null, or holds what the call does not take.
    NullHandle,
    /// The bytes are not UTF-8; so many at the beginning are.
    NotUtf8(usize),
    /// There are not as many offsets as maps, or not as many traces as positions.
    Lengths,
    /// There is no entry at this index, or it is not known.
    NoEntry,
    /// The map has no index of its sources.
    NoIndex,
    /// A number stands for no choice that the call knows.
    BadOption,
    /// The data of a data URL are not base64: the index of the first byte at fault.
    BadBase64(usize),
    /// The text of a data URL is not UTF-8; so many bytes at the beginning are.
    BadDataUtf8(usize),
    /// Bytes are not a compiled map.
    Compiled(CompiledError),
    /// The text of scopes has this fault.
    BadScopes(ScopesFault),
    /// The member `scopes` of a map is neither a text nor null.
    ScopesNotText,
    /// The scopes of an indexed map are not read.
    ScopesIndexed,
    /// The map is shared, so it cannot be changed.
    Shared,
    /// The map is not shared, so it has one handle.
    NotShared,
}

impl CallError {
    /// The error for want of memory.
    pub fn memory() -> CallError
        ensures { result ≡ out_of_memory }
    {
        CallError::Plan(PlanError::Map(Error::OutOfMemory))
    }
}

impl fmt::Display for CallError {
    ghost output = { λ error. Some (call_error_text error) };

    fn fmt<W: fmt::Write>(&self, f: &mut fmt::Formatter<W>) -> fmt::Result {
        match self {
            CallError::Plan(error) => write!(f, "{error}"),
            CallError::Words => write!(f, "The words say no plan"),
            CallError::NoText(number) => write!(f, "There is no text {number}"),
            CallError::NullHandle => write!(f, "The handle is null"),
            CallError::NotUtf8(valid) => write!(f, "Byte {valid} is not UTF-8"),
            CallError::Lengths => write!(f, "The lengths of two lists differ"),
            CallError::NoEntry => write!(f, "There is no such entry"),
            CallError::NoIndex => write!(f, "The map has no index of its sources"),
            CallError::BadOption => write!(f, "There is no such option"),
            CallError::BadBase64(at) => {
                write!(f, "The data URL has bad base64 at byte {at} of its data")
            }
            CallError::BadDataUtf8(at) => {
                write!(f, "The data URL has bad UTF-8 at byte {at} of its text")
            }
            CallError::Compiled(error) => write!(f, "{error}"),
            CallError::BadScopes(fault) => write!(f, "{}", ScopesError::Fault(*fault)),
            CallError::ScopesNotText => write!(f, "{}", ScopesError::NotText),
            CallError::ScopesIndexed => write!(f, "{}", ScopesError::Indexed),
            CallError::Shared => write!(f, "The map is shared"),
            CallError::NotShared => write!(f, "The map is not shared"),
        }
    }
}

impl From<Error> for CallError {
    ghost from_gives = { λ error call. call ≡ Plan (Map error) };

    fn from(error: Error) -> CallError {
        CallError::Plan(PlanError::Map(error))
    }
}

impl From<PlanError> for CallError {
    ghost from_gives = { λ error call. call ≡ Plan error };

    fn from(error: PlanError) -> CallError {
        CallError::Plan(error)
    }
}

impl From<CompiledError> for CallError {
    ghost from_gives = { λ error call. call ≡ Compiled error };

    fn from(error: CompiledError) -> CallError {
        CallError::Compiled(error)
    }
}

impl From<ScopesError> for CallError {
    ghost from_gives = { λ error call. call ≡ of_scopes error };

    fn from(error: ScopesError) -> CallError {
        match error {
            ScopesError::OutOfMemory => CallError::memory(),
            ScopesError::NotJson => {
                CallError::Plan(PlanError::Map(Error::BadJson(JsonFault::Reading)))
            }
            ScopesError::Indexed => CallError::ScopesIndexed,
            ScopesError::NotText => CallError::ScopesNotText,
            ScopesError::Fault(fault) => CallError::BadScopes(fault),
        }
    }
}

impl From<AllocError> for CallError {
    ghost from_gives = { λ _ call. call ≡ out_of_memory };

    fn from(_: AllocError) -> CallError {
        CallError::memory()
    }
}

impl<T: Drop> From<AllocFailed<T>> for CallError {
    ghost from_gives = { λ _ call. call ≡ out_of_memory };

    fn from(_: AllocFailed<T>) -> CallError {
        CallError::memory()
    }
}
