//! What is really wrong with a text as it is found, where its error does not say it.
ghost use Rattle.oxc_sourcemap_found.specs.Words.{OnlyMemory};

use crate::opening::open;
use oxc_sourcemap_json::{FaultReason, reading_reason, segment_reason, value_reason};
use oxc_sourcemap_tokens::{Error, FaultPlace, FaultSpot, Result};
use serde_json::Value;
use std::alloc::Global;
use std::borrow::CowStr;

/// The index in the opened text of a byte of the whole text; of a data URL the indices are those of its data already.
fn opened_byte(text: &str, json: &CowStr<'_>, byte: usize) -> Option<usize> {
    match json {
        CowStr::Borrowed(end) => byte.checked_sub(text.len().saturating_sub(end.len())),
        CowStr::Owned(_) => Some(byte),
    }
}

/// What is wrong with a text that is no JSON object, which was opened as this one.
fn text_reason(text: &str, json: &CowStr<'_>, spot: FaultSpot) -> Option<FaultReason> {
    let any = u32::MAX as usize;
    match spot {
        FaultSpot::Reading { byte, .. } => {
            reading_reason(json.as_str(), opened_byte(text, json, byte)?)
        }
        FaultSpot::Segment(place) => segment_reason(text, any, any, place),
        _ => None,
    }
}

/// What is really wrong with a text at the place of its fault, where the text of the error says something else: `None` where that says it
/// already, and where the text has no such fault. The text is one that `decode_from_string` or `read_found` refused, and the place is the one
/// that `json_fault_at` or `found_fault_at` returns for it; a number of a text in the place does not count. Of several faults in a
/// segment it is the one that `decode_from_string` reports. A text that is no JSON object is taken for mappings, whose ids are not compared with
/// numbers of names and sources: `mappings_fault_reason` does that. Fails only with `OutOfMemory`.
///
/// ```rust
/// use oxc_sourcemap::{FaultReason, SegmentReason, fault_reason, found_fault_at};
///
/// // The error is that a segment has 0 fields.
/// let text = r#"{"version":3,"sources":["a.js"],"names":[],"mappings":"AAAA,DAAA"}"#;
/// if let Some(place) = found_fault_at(alloc, text)? {
///     let reason = fault_reason(alloc, text, &place)?;
///     assert_eq!(rt; reason, Some(FaultReason::Segment(SegmentReason::ColumnBelowZero)));
/// }
/// ```
pub fn fault_reason(alloc: Global, text: &str, place: &FaultPlace) -> Result<Option<FaultReason>>
    ensures { OnlyMemory result }
{
    let (json, _) = open(alloc, text)?;
    match Value::from_str(alloc, json.as_str()) {
        Ok(value) if value.is_object() => Ok(value_reason(&value, place)),
        Err(error) if error.is_memory() => Err(Error::OutOfMemory),
        _ => Ok(text_reason(text, &json, place.spot)),
    }
}
