//! What is really wrong with a segment whose error does not say it.
ghost use Rattle.std.specs.Prelude.{◌≡◌, IsSome, IfSome, IsErr};
ghost use Rattle.oxc_sourcemap_mappings.specs.Words.{reading, place_of, value, AreSmall};
ghost use Rattle.oxc_sourcemap_mappings.specs.Words.{IsReasonOf, moved_by_all};

use crate::decode::{Fields, Sums, any_segment};
use crate::fault_at::first_fault;
use oxc_sourcemap_tokens::Error;
use std::fmt;

/// What is really wrong with a segment of a `mappings` text, where the text of its error says something else.
#[derive(Clone, Copy, Debug, PartialEq, Eq)]
pub enum SegmentReason {
    /// The first byte of it that is no digit of base64, which is read as the digit 63.
    NoDigit(u8),
    /// Its generated column is below 0.
    ColumnBelowZero,
    /// Its source id is below 0.
    SourceIdBelowZero,
    /// Its source line is below 0.
    SourceLineBelowZero,
    /// Its source column is below 0.
    SourceColumnBelowZero,
    /// Its name id is below 0.
    NameIdBelowZero,
    /// Its source id is this one, which is not below the number of sources. The error has the id before it.
    SourceId(u64),
    /// Its name id is this one, which is not below the number of names. The error has its low 32 bits.
    NameId(u64),
}

impl fmt::Display for SegmentReason {
    fn fmt<W: fmt::Write>(&self, f: &mut fmt::Formatter<W>) -> fmt::Result {
        match self {
            SegmentReason::NoDigit(byte) => write!(f, "a byte that is no digit: 0x{byte:x}"),
            SegmentReason::ColumnBelowZero => f.write_str("a column below 0"),
            SegmentReason::SourceIdBelowZero => f.write_str("a source id below 0"),
            SegmentReason::SourceLineBelowZero => f.write_str("a source line below 0"),
            SegmentReason::SourceColumnBelowZero => f.write_str("a source column below 0"),
            SegmentReason::NameIdBelowZero => f.write_str("a name id below 0"),
            SegmentReason::SourceId(id) => write!(f, "the source id is {id}"),
            SegmentReason::NameId(id) => write!(f, "the name id is {id}"),
        }
    }
}

/// Whether a byte is a digit of base64, or ends a segment.
fn is_usual(byte: u8) -> bool {
    byte.is_ascii_alphanumeric() || matches!(byte, b'+' | b'/' | b',' | b';')
}

/// The first byte of the segment at the front of a text that is no digit.
fn no_digit(text: &[u8]) -> Option<u8> {
    let end = text.iter().position(|byte| matches!(*byte, b',' | b';'));
    let segment = &text[..end.unwrap_or(text.len())];
    segment.iter().copied().find(|byte| !is_usual(*byte))
}

/// The column of a segment, its source line or its source column, whichever is below 0 first.
fn below_zero(sums: Sums, fields: &Fields) -> Option<SegmentReason>
    requires small { AreSmall fields.now }
    ensures { IfSome result (IsReasonOf (moved_by_all (place_of sums) (value fields.now))) }
{
    if i64::from(sums.dst_col) + fields.values[0] < 0 {
        Some(SegmentReason::ColumnBelowZero)
    } else if i64::from(sums.src_line) + fields.values[2] < 0 {
        Some(SegmentReason::SourceLineBelowZero)
    } else if i64::from(sums.src_col) + fields.values[3] < 0 {
        Some(SegmentReason::SourceColumnBelowZero)
    } else {
        None
    }
}

/// The source id of a segment, if it is below 0, or is not the one that the error names.
fn source_reason(sums: Sums, fields: &Fields, told: u32) -> Option<SegmentReason>
    requires small { AreSmall fields.now }
    ensures { IfSome result (IsReasonOf (moved_by_all (place_of sums) (value fields.now))) }
{
    match u64::try_from(i64::from(sums.source_id) + fields.values[1]) {
        Err(_) => Some(SegmentReason::SourceIdBelowZero),
        Ok(id) if id == u64::from(told) => None,
        Ok(id) => Some(SegmentReason::SourceId(id)),
    }
}

/// The same of the name id.
fn name_reason(sums: Sums, fields: &Fields, told: u32) -> Option<SegmentReason>
    requires small { AreSmall fields.now }
    ensures { IfSome result (IsReasonOf (moved_by_all (place_of sums) (value fields.now))) }
{
    match u64::try_from(i64::from(sums.name_id) + fields.values[4]) {
        Err(_) => Some(SegmentReason::NameIdBelowZero),
        Ok(id) if id == u64::from(told) => None,
        Ok(id) => Some(SegmentReason::NameId(id)),
    }
}

/// The reason of this error of a segment with these fields, behind these sums.
fn reason_of(error: Error, sums: Sums, fields: &Fields) -> Option<SegmentReason>
    requires small { AreSmall fields.now }
    ensures { IfSome result (IsReasonOf (moved_by_all (place_of sums) (value fields.now))) }
{
    match error {
        Error::BadSegmentSize(0) => below_zero(sums, fields),
        Error::BadSourceReference(told) => source_reason(sums, fields, told),
        Error::BadNameReference(told) => name_reason(sums, fields, told),
        _ => None,
    }
}

/// What is really wrong with the first segment with a fault, where its error does not say it: a byte in it that is no digit, else the number
/// that is below 0 or that is no id. None where the error says it, and if the text has no fault. Takes no memory.
///
/// ```rust
/// use oxc_sourcemap::{SegmentReason, mappings_fault_reason};
///
/// // `decode_mappings` fails with `BadSegmentSize(0)`.
/// assert_eq!(rt; mappings_fault_reason("AAAA,DAAA", 0, 1), Some(SegmentReason::ColumnBelowZero));
/// ```
pub fn mappings_fault_reason(text: &str, names: usize, sources: usize) -> Option<SegmentReason>
    ensures { IsSome result → IsErr (reading text.now names sources) }
{
    let (place, sums) = first_fault(text, names, sources)?;
    let rest = &text.as_bytes()[place.byte..];
    if let Some(byte) = no_digit(rest) {
        return Some(SegmentReason::NoDigit(byte));
    }
    let fields = any_segment(rest).ok()?;
    let mut moved = sums;
    match moved.step(place.line, &fields, names, sources) {
        Ok(_) => None,
        Err(error) => reason_of(error, sums, &fields),
    }
}
