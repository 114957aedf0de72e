//! The errors of data URLs.
ghost use Rattle.std.specs.Prelude.{◌≡◌, Some};
ghost use Rattle.oxc_sourcemap_text.specs.Words.{data_url_error_text};
ghost use Rattle.oxc_sourcemap_text.specs.declared.url.data_url_error.DataUrlError.TheVariants.{OutOfMemory};

use std::alloc::AllocError;
use std::fmt;

/// Why no text can be had from a data URL of JSON.
#[derive(Clone, Copy, Debug, PartialEq, Eq)]
pub enum DataUrlError {
    /// The data are not base64: the index of the first byte at fault, or of their end. It counts from 0, in the data with their
    /// percent-escapes decoded.
    BadBase64(usize),
    /// The decoded bytes are not UTF-8: how many bytes at their front are.
    BadUtf8(usize),
    /// An allocation failed.
    OutOfMemory,
}

impl fmt::Display for DataUrlError {
    ghost output = { λ error. Some (data_url_error_text error) };

    fn fmt<W: fmt::Write>(&self, f: &mut fmt::Formatter<W>) -> fmt::Result {
        match self {
            DataUrlError::BadBase64(at) => {
                write!(f, "The data URL has bad base64 at byte {at} of its data")
            }
            DataUrlError::BadUtf8(at) => {
                write!(f, "The data URL has bad UTF-8 at byte {at} of its text")
            }
            DataUrlError::OutOfMemory => write!(f, "Out of memory"),
        }
    }
}

impl std::error::Error for DataUrlError {}

impl From<AllocError> for DataUrlError {
    ghost from_gives = { λ _ e. e ≡ OutOfMemory };

    fn from(_: AllocError) -> DataUrlError {
        DataUrlError::OutOfMemory
    }
}
