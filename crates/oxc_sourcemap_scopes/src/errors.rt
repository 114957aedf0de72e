//! What is wrong in a `scopes` text, and where.
ghost use Rattle.std.specs.Prelude.{◌≡◌, Some};
ghost use Rattle.oxc_sourcemap_scopes.specs.Words.{OutOfMemory, error_at, fault_text, error_text};

use std::alloc::{AllocError, AllocFailed};
use std::fmt;

/// Why the scopes of a map were not read.
#[derive(Clone, Copy, Debug, PartialEq, Eq)]
pub enum ScopesError {
    /// An allocation failed.
    OutOfMemory,
    /// The text of the map is not JSON.
    NotJson,
    /// The map is an indexed one, whose scopes stand in its sections: they are not read.
    Indexed,
    /// The member `scopes` of the map is neither a text nor null.
    NotText,
    /// The text has this fault, its first.
    Fault(ScopesFault),
}

/// A fault of a `scopes` text.
#[derive(Clone, Copy, Debug, PartialEq, Eq)]
pub struct ScopesFault {
    pub kind: ScopesFaultKind,
    /// The index in the text at which the item at fault begins, in bytes from 0; where a scope or a range is left open, the
    /// length of the text.
    pub byte: usize,
}

/// What is wrong with an item of a `scopes` text.
#[derive(Clone, Copy, Debug, PartialEq, Eq)]
pub enum ScopesFaultKind {
    /// It has a byte that is no base64 digit.
    NotADigit,
    /// Its last number ends in a digit after which another has to follow.
    CutShort,
    /// One of its numbers has more than seven digits; or with it a line or a column is above 4294967295, or a source above 4294967294.
    TooLarge,
    /// It is empty, or lacks a number that its tag and flags ask for.
    MissingNumber,
    /// Its index of a name or of a scope is below 0, past the last one (of scopes, the last that starts before it in the text), or above
    /// 4294967294; or it has sub-ranges of a value that no item before it introduces.
    BadIndex,
    /// It is an end, variables, values, sub-ranges or a call site, and nothing that it could belong to is open.
    NothingOpen,
    /// A source without scopes comes within the scopes of another.
    NotClosed,
    /// With it more than 1024 scopes or ranges are nested.
    TooDeep,
    /// The text ends, and a scope or a range has no end.
    LeftOpen,
    /// It has sub-ranges of a value that has some already.
    SplitTwice,
}

impl fmt::Display for ScopesFaultKind {
    ghost output = { λ kind. Some (fault_text kind) };

    fn fmt<W: fmt::Write>(&self, f: &mut fmt::Formatter<W>) -> fmt::Result {
        match self {
            ScopesFaultKind::NotADigit => write!(f, "a character is no base64 digit"),
            ScopesFaultKind::CutShort => write!(f, "the last number is cut short"),
            ScopesFaultKind::TooLarge => write!(f, "a number is too large"),
            ScopesFaultKind::MissingNumber => write!(f, "a number is missing"),
            ScopesFaultKind::BadIndex => write!(f, "an index leads to no name, scope or value"),
            ScopesFaultKind::NothingOpen => write!(f, "no scope or range is open"),
            ScopesFaultKind::NotClosed => write!(f, "the scopes before it are not closed"),
            ScopesFaultKind::TooDeep => write!(f, "more than 1024 scopes or ranges are nested"),
            ScopesFaultKind::LeftOpen => write!(f, "a scope or a range has no end"),
            ScopesFaultKind::SplitTwice => write!(f, "the value has sub-ranges already"),
        }
    }
}

impl fmt::Display for ScopesError {
    ghost output = { λ error. Some (error_text error) };

    fn fmt<W: fmt::Write>(&self, f: &mut fmt::Formatter<W>) -> fmt::Result {
        match self {
            ScopesError::OutOfMemory => write!(f, "Out of memory"),
            ScopesError::NotJson => write!(f, "the text is not JSON"),
            ScopesError::Indexed => write!(f, "the scopes of an indexed map are not read"),
            ScopesError::NotText => write!(f, "`scopes` is no text"),
            ScopesError::Fault(fault) => {
                write!(f, "scopes, byte {}: {}", fault.byte, fault.kind)
            }
        }
    }
}

impl std::error::Error for ScopesError {}

impl From<AllocError> for ScopesError {
    ghost from_gives = { λ _ e. e ≡ OutOfMemory };

    fn from(_: AllocError) -> ScopesError {
        ScopesError::OutOfMemory
    }
}

impl<T: Drop> From<AllocFailed<T>> for ScopesError {
    ghost from_gives = { λ _ e. e ≡ OutOfMemory };

    fn from(_: AllocFailed<T>) -> ScopesError {
        ScopesError::OutOfMemory
    }
}

impl ScopesError {
    /// A fault of the item that begins at this byte.
    pub(crate) fn at(kind: ScopesFaultKind, byte: usize) -> Self
        ensures { result ≡ error_at kind byte }
    {
        ScopesError::Fault(ScopesFault { kind, byte })
    }
}
