//! Faults: errors with the places of what is wrong in an input, and these places as text.
ghost use Rattle.std.specs.Prelude.{◌≡◌, Some};
ghost use Rattle.oxc_sourcemap_tokens.specs.Words.{OutOfMemory, name_of, spot_text, place_text};
ghost use Rattle.oxc_sourcemap_tokens.specs.Words.{place_in, fault_at, no_place, fault_in};

use crate::errors::error::{Error, Field};
use std::alloc::{AllocError, AllocFailed};
use std::fmt;

/// Where a segment of a `mappings` text begins. All three count from 0.
#[derive(Clone, Copy, Debug, PartialEq, Eq)]
pub struct SegmentPlace {
    /// The index of its first byte in the text.
    pub byte: usize,
    /// Its generated line: how many `;` are before it.
    pub line: u32,
    /// How many segments are before it on its line. Empty segments do not count.
    pub segment: usize,
}

/// Where an input has a fault. All numbers count from 0.
#[derive(Clone, Copy, Debug, PartialEq, Eq)]
pub struct FaultPlace {
    /// The number of the text, where there are several: those of a plan are numbered in the order of its evaluation; where `smap`
    /// reports it, it is the K of `@K`.
    pub text: Option<usize>,
    /// The number of the section, in an indexed map.
    pub section: Option<usize>,
    /// Where it is in that text, or in the map of that section.
    pub spot: FaultSpot,
}

/// Where a text or a map has a fault.
#[derive(Clone, Copy, Debug, PartialEq, Eq)]
pub enum FaultSpot {
    /// A segment of the mappings begins here.
    Segment(SegmentPlace),
    /// The text is not JSON from about here on: a line, how many bytes of the line are before, and how many of the text.
    Reading {
        line: usize,
        column: usize,
        byte: usize,
    },
    /// This member, or the value itself, is missing or has the wrong type.
    Member(Field),
    /// The entry with this index, of the list that this member is.
    Entry(Field, usize),
}

/// An error of reading an input, with its place. There is none for want of memory, and if the error comes from no one place.
#[derive(Clone, Copy, Debug, PartialEq, Eq)]
pub struct Fault {
    pub error: Error,
    pub place: Option<FaultPlace>,
}

/// A `Result` with an error of this library and its place.
pub type Located<T> = std::result::Result<T, Fault>;

impl FaultPlace {
    /// A place in this section, or in a text without sections.
    pub fn new(section: Option<usize>, spot: FaultSpot) -> Self
        ensures { result ≡ place_in section spot }
    {
        Self {
            text: None,
            section,
            spot,
        }
    }

    /// The same place in the text with this number, of several.
    pub fn in_text(self, text: usize) -> Self
        ensures { result ≡ record self { text = Some text } }
    {
        Self {
            text: Some(text),
            ..self
        }
    }
}

impl Fault {
    /// An error at this spot of a text without sections.
    pub fn at(error: Error, spot: FaultSpot) -> Self
        ensures { result ≡ fault_at error spot }
    {
        Self {
            error,
            place: Some(FaultPlace::new(None, spot)),
        }
    }

    /// An error that has no place.
    pub fn without_place(error: Error) -> Self
        ensures { result ≡ no_place error }
    {
        Self { error, place: None }
    }

    /// The fault of a map by itself as one of this section.
    pub fn in_section(self, section: usize) -> Self
        ensures { result ≡ fault_in section self }
    {
        match self.place {
            Some(place) => Self {
                error: self.error,
                place: Some(FaultPlace::new(Some(section), place.spot)),
            },
            None => self,
        }
    }
}

impl From<AllocError> for Fault {
    ghost from_gives = { λ _ fault. fault ≡ no_place OutOfMemory };

    fn from(_: AllocError) -> Fault {
        Fault::without_place(Error::OutOfMemory)
    }
}

impl<T: Drop> From<AllocFailed<T>> for Fault {
    ghost from_gives = { λ _ fault. fault ≡ no_place OutOfMemory };

    fn from(_: AllocFailed<T>) -> Fault {
        Fault::without_place(Error::OutOfMemory)
    }
}

impl From<Fault> for Error {
    ghost from_gives = { λ fault error. error ≡ fault.error };

    /// The error without its place.
    fn from(fault: Fault) -> Error {
        fault.error
    }
}

/// The key of a member, and `the value` for the value itself.
pub fn name_of(field: Field) -> &'static str
    ensures { result.now ≡ name_of field }
{
    match field.key() {
        Some(key) => key,
        None => "the value",
    }
}

impl fmt::Display for FaultSpot {
    ghost output = { λ spot. Some (spot_text spot) };

    fn fmt<W: fmt::Write>(&self, f: &mut fmt::Formatter<W>) -> fmt::Result {
        match self {
            FaultSpot::Segment(place) => {
                let SegmentPlace {
                    byte,
                    line,
                    segment,
                } = *place;
                write!(f, "line {line}, segment {segment} (byte {byte})")
            }
            FaultSpot::Reading { line, column, byte } => {
                write!(f, "line {line}, column {column} (byte {byte})")
            }
            FaultSpot::Member(field) => write!(f, "{}", name_of(*field)),
            FaultSpot::Entry(field, index) => { write!(f, "entry {index} of {}", name_of(*field)) }
        }
    }
}

impl fmt::Display for FaultPlace {
    ghost output = { λ place. Some (place_text place) };

    fn fmt<W: fmt::Write>(&self, f: &mut fmt::Formatter<W>) -> fmt::Result {
        match (self.text, self.section) {
            (Some(text), Some(section)) => {
                write!(f, "text {text}, section {section}, {}", self.spot)
            }
            (Some(text), None) => write!(f, "text {text}, {}", self.spot),
            (None, Some(section)) => write!(f, "section {section}, {}", self.spot),
            (None, None) => write!(f, "{}", self.spot),
        }
    }
}
