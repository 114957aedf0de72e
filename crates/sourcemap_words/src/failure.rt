//! Why a command ends without an answer.
use oxc_sourcemap_tokens::{Error, PlanError};
use std::alloc::{AllocError, AllocFailed, Global};
use std::fmt::Display;
use std::io;
use std::io::ErrorKind;

/// Why a command ends without an answer.
#[derive(Drop)]
pub enum Failure {
    /// What went wrong, where, and what to do.
    Told(String),
    /// A call of the library failed on maps that were read.
    Library(PlanError),
    Memory,
    /// The reader of the output has closed it.
    Closed,
}

pub type Outcome<T> = Result<T, Failure>;

impl From<AllocError> for Failure {
    fn from(_: AllocError) -> Failure {
        Failure::Memory
    }
}

impl<T: Drop> From<AllocFailed<T>> for Failure {
    fn from(_: AllocFailed<T>) -> Failure {
        Failure::Memory
    }
}

/// A failure with a text about a file or an argument.
pub fn failure_of(alloc: Global, subject: &str, text: impl Display + Drop) -> Failure {
    match format!(in alloc; "{subject}: {text}") {
        Ok(message) => Failure::Told(message),
        Err(_) => Failure::Memory,
    }
}

/// A failure of reading or writing a file.
pub fn file_failure(alloc: Global, path: &str, error: io::Error) -> Failure {
    match error.kind() {
        ErrorKind::OutOfMemory => Failure::Memory,
        ErrorKind::BrokenPipe => Failure::Closed,
        ErrorKind::NotFound => failure_of(alloc, path, "there is no such file"),
        ErrorKind::IsADirectory => failure_of(alloc, path, "is a folder: name a file"),
        ErrorKind::PermissionDenied => failure_of(
            alloc,
            path,
            "may not be read or written: see its permissions",
        ),
        _ => failure_of(alloc, path, error),
    }
}

impl From<Error> for Failure {
    /// For errors that no text of a file causes: memory, and limits on what is made.
    fn from(error: Error) -> Failure {
        match error {
            Error::OutOfMemory => Failure::Memory,
            error => Failure::Library(PlanError::Map(error)),
        }
    }
}

impl From<PlanError> for Failure {
    fn from(error: PlanError) -> Failure {
        match error {
            PlanError::Map(error) => Failure::from(error),
            error => Failure::Library(error),
        }
    }
}
