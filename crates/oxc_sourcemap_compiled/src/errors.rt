//! Why bytes are not a compiled map.
ghost use Rattle.std.specs.Prelude.{Some};
ghost use Rattle.oxc_sourcemap_compiled.specs.Words.{compiled_error_text};

use std::fmt;

/// Why bytes are not a compiled map. The first that holds, in this order, is reported.
#[derive(Clone, Copy, Debug, PartialEq, Eq)]
pub enum CompiledError {
    /// The bytes do not begin as a compiled map does, or are fewer than 8.
    NotCompiled,
    /// The bytes are a compiled map of this version, and not of version 1.
    Version(u32),
    /// There are fewer or more bytes than the header says, as where a file is cut, or fewer than 104.
    Length,
    /// The parts that the header counts, and the 16 bytes at the end, take more bytes than there are.
    Sizes,
}

impl fmt::Display for CompiledError {
    ghost output = { λ e. Some (compiled_error_text e) };

    fn fmt<W: fmt::Write>(&self, f: &mut fmt::Formatter<W>) -> fmt::Result {
        match self {
            CompiledError::NotCompiled => write!(f, "not a compiled source map"),
            CompiledError::Version(version) => {
                write!(f, "unsupported version of a compiled source map: {version}")
            }
            CompiledError::Length => {
                write!(f, "a compiled source map has another length than it says")
            }
            CompiledError::Sizes => {
                write!(f, "the sizes in a compiled source map do not add up")
            }
        }
    }
}

impl std::error::Error for CompiledError {}
