//! Errors and their messages.
ghost use Rattle.std.specs.Prelude.{◌≡◌, Some};
ghost use Rattle.oxc_sourcemap_tokens.specs.Words.{key_of, json_fault_text, error_text};
ghost use Rattle.oxc_sourcemap_tokens.specs.Words.{error_of_json, OutOfMemory, lent_item};

use std::alloc::{AllocError, AllocFailed};
use std::fmt;

/// The error of a call of this library. Lines, columns, ids and indices count from 0. (docs/FORMAT.md, "Error messages", has the
/// messages that `Display` prints.)
#[derive(Clone, Copy, Debug, PartialEq, Eq)]
pub enum Error {
    /// A number in a `mappings` text ends in a digit with the continuation bit.
    VlqLeftover,
    /// A segment of a `mappings` text without a number. Decoding skips empty segments, so it never returns this.
    VlqNoValues,
    /// A number in a `mappings` text has more than 13 digits, or a 13th whose payload is above 7; or a generated column,
    /// source line or source column is above 4294967295.
    VlqOverflow,
    /// The JSON text has no value, or the value is not a source map.
    BadJson(JsonFault),
    /// A segment of a `mappings` text has this many fields (4294967295 stands for more), and not 1, 4 or 5. With 0, a
    /// generated column, source line or source column is negative, which the Rust crate reports so, too.
    BadSegmentSize(u32),
    /// A source id is out of range. In a `mappings` text this is the source id before the bad delta, 0 at first, as in the
    /// Rust crate; in an ignore list, the entry itself.
    BadSourceReference(u32),
    /// A name id is out of range. These are its low 32 bits.
    BadNameReference(u32),
    /// An allocation failed.
    OutOfMemory,
    /// A line, a column of a join or a count is above 4294967295, or an id above 4294967294.
    TooLarge,
    /// The index of the first token whose generated line is smaller than that of the token before it; for the first token
    /// of a chunk that is written by itself (`encode_chunk`), smaller than the line in the header of the chunk.
    LineOrder(usize),
    /// The index of the first chunk that does not begin where the chunk before it ends, ends before it starts or past the
    /// tokens, or has a header other than the state there; if all chunks fit but tokens remain, the number of chunks.
    /// `encode_chunk` reports its chunk as 0.
    BadChunks(usize),
    /// `compose` was called on a map with this many sources; at most one is allowed.
    SeveralSources(usize),
    /// The index of the first section of an indexed map whose offset is before that of the section before it, or before the
    /// last token of the sections before it.
    SectionOrder(usize),
    /// The index of the first input of `remap` whose tokens go back in lines. The lookup table of that input fails with its
    /// `LineOrder`.
    InputLineOrder(usize),
}

/// Why a JSON text or a JSON value is not a source map of version 3.
#[derive(Clone, Copy, Debug, PartialEq, Eq)]
pub enum JsonFault {
    /// `serde_json` reads no value from the text.
    Reading,
    /// The value is not an object, or this field of it is missing or has the wrong type.
    Shape(Field),
    /// The version is this number, and not 3.
    Version(u32),
}

/// The part of a JSON value that is missing or has the wrong type: the value itself, or one of its fields, or a field of a
/// section of an indexed map.
#[derive(Clone, Copy, Debug, PartialEq, Eq)]
pub enum Field {
    /// The value itself, which is not an object.
    Object,
    /// `version`, a whole number of 0 to 4294967295.
    Version,
    /// `file`, a string.
    File,
    /// `mappings`, a string.
    Mappings,
    /// `sourceRoot`, a string.
    SourceRoot,
    /// `sources`, a list of strings.
    Sources,
    /// `sourcesContent`, a list of strings and nulls.
    SourcesContent,
    /// `names`, a list of strings.
    Names,
    /// `debugId`, a string.
    DebugId,
    /// `ignoreList`, a list of whole numbers of 0 to 4294967295.
    IgnoreList,
    /// `x_google_ignoreList`, which stands in for an `ignoreList` that is missing or null.
    GoogleIgnoreList,
    /// `sections` of an indexed map, a list of objects.
    Sections,
    /// `offset` of a section, an object with `line` and `column`, both whole numbers of 0 to 4294967295.
    Offset,
    /// `map` of a section, an object that is not an indexed map itself.
    Map,
}

/// A `Result` with the `Error` of this library.
pub type Result<T> = std::result::Result<T, Error>;

/// The result of a call that fails for want of memory alone.
pub type Memory<T> = std::result::Result<T, AllocError>;

impl Field {
    /// The key of the field in the JSON object, and None for the object itself.
    pub(crate) fn key(self) -> Option<&'static str>
        ensures { lent_item result ≡ key_of self }
    {
        match self {
            Field::Object => None,
            Field::Version => Some("version"),
            Field::File => Some("file"),
            Field::Mappings => Some("mappings"),
            Field::SourceRoot => Some("sourceRoot"),
            Field::Sources => Some("sources"),
            Field::SourcesContent => Some("sourcesContent"),
            Field::Names => Some("names"),
            Field::DebugId => Some("debugId"),
            Field::IgnoreList => Some("ignoreList"),
            Field::GoogleIgnoreList => Some("x_google_ignoreList"),
            Field::Sections => Some("sections"),
            Field::Offset => Some("offset"),
            Field::Map => Some("map"),
        }
    }
}

impl fmt::Display for JsonFault {
    ghost output = { λ fault. Some (json_fault_text fault) };

    fn fmt<W: fmt::Write>(&self, f: &mut fmt::Formatter<W>) -> fmt::Result {
        match self {
            JsonFault::Reading => write!(f, "the text is not JSON"),
            JsonFault::Shape(field) => match field.key() {
                None => write!(f, "the value is not an object"),
                Some(key) => write!(f, "field {key} is missing or has the wrong type"),
            },
            JsonFault::Version(version) => {
                write!(f, "unsupported source map version: {version}")
            }
        }
    }
}

impl fmt::Display for Error {
    ghost output = { λ error. Some (error_text error) };

    fn fmt<W: fmt::Write>(&self, f: &mut fmt::Formatter<W>) -> fmt::Result {
        match self {
            Error::VlqLeftover => write!(f, "VLQ string was malformed and data was left over"),
            Error::VlqNoValues => write!(f, "VLQ string was empty and no values could be decoded"),
            Error::VlqOverflow => write!(f, "The input encoded a number that didn't fit into i64"),
            Error::BadJson(fault) => write!(f, "JSON parsing error: {fault}"),
            Error::BadSegmentSize(size) => {
                write!(f, "Mapping segment had an unsupported size of {size}")
            }
            Error::BadSourceReference(id) => {
                write!(f, "Reference to non-existing source at position {id}")
            }
            Error::BadNameReference(id) => {
                write!(f, "Reference to non-existing name at position {id}")
            }
            Error::OutOfMemory => write!(f, "Out of memory"),
            Error::TooLarge => write!(f, "A line, an id or a count is too large"),
            Error::LineOrder(i) => {
                write!(
                    f,
                    "Token {i} lies on a line before the token in front of it"
                )
            }
            Error::BadChunks(k) => write!(f, "Token chunk {k} does not fit the tokens"),
            Error::SeveralSources(n) => {
                write!(f, "Cannot compose a transformation map with {n} sources")
            }
            Error::SectionOrder(k) => {
                write!(
                    f,
                    "Section {k} begins before the end of what is in front of it"
                )
            }
            Error::InputLineOrder(k) => write!(f, "The tokens of input {k} go back in lines"),
        }
    }
}

impl std::error::Error for Error {}

impl From<serde_json::Error> for Error {
    ghost from_gives = { error_of_json };

    /// Lack of memory is `OutOfMemory`, and every other cause `BadJson(Reading)`.
    fn from(cause: serde_json::Error) -> Error {
        if cause.is_memory() {
            Error::OutOfMemory
        } else {
            Error::BadJson(JsonFault::Reading)
        }
    }
}

impl From<AllocError> for Error {
    ghost from_gives = { λ _ e. e ≡ OutOfMemory };

    fn from(_: AllocError) -> Error {
        Error::OutOfMemory
    }
}

impl<T: Drop> From<AllocFailed<T>> for Error {
    ghost from_gives = { λ _ e. e ≡ OutOfMemory };

    fn from(_: AllocFailed<T>) -> Error {
        Error::OutOfMemory
    }
}
