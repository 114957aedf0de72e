//! What is really wrong with an input, where the text of its error says something else.
ghost use Rattle.oxc_sourcemap_json.specs.Words.{OnlyMemory};

use oxc_sourcemap_mappings::{SegmentReason, mappings_fault_at, mappings_fault_reason};
use oxc_sourcemap_tokens::{Error, FaultPlace, FaultSpot, Field, Result, SegmentPlace, name_of};
use serde_json::Value;
use std::alloc::Global;
use std::fmt;

/// What is really wrong with an input, where the text of its error says something else.
#[derive(Clone, Copy, Debug, PartialEq, Eq)]
pub enum FaultReason {
    /// Of a segment of the mappings.
    Segment(SegmentReason),
    /// Values in the text are nested deeper than 127, which is not read.
    TooDeep,
    /// A string in the text has an escape of half a surrogate pair, which UTF-8 cannot have.
    LoneSurrogate,
    /// A number in the text is too large for a float.
    NumberTooLarge,
    /// A number is below 0.
    NumberBelowZero,
    /// A number is above 4294967295.
    NumberAboveLimit,
    /// A number is not whole.
    NumberNotWhole,
    /// A whole number is not written in digits alone: 3.0 or 3e0.
    NumberNotInDigits,
}

impl fmt::Display for FaultReason {
    fn fmt<W: fmt::Write>(&self, f: &mut fmt::Formatter<W>) -> fmt::Result {
        match self {
            FaultReason::Segment(reason) => write!(f, "{reason}"),
            FaultReason::TooDeep => f.write_str("values nested deeper than 127"),
            FaultReason::LoneSurrogate => f.write_str("a lone surrogate"),
            FaultReason::NumberTooLarge => f.write_str("a number too large for a float"),
            FaultReason::NumberBelowZero => f.write_str("a number below 0"),
            FaultReason::NumberAboveLimit => f.write_str("a number above 4294967295"),
            FaultReason::NumberNotWhole => f.write_str("a number that is not whole"),
            FaultReason::NumberNotInDigits => {
                f.write_str("a whole number that is not written in digits alone")
            }
        }
    }
}

// ---- of a text that the reader refuses

/// How many arrays and objects are open at the end of this front of a JSON text.
fn open_values(front: &[u8]) -> usize {
    let mut open: usize = 0;
    let mut is_text = false;
    let mut is_escaped = false;
    for byte in front {
        match *byte {
            _ if is_escaped => is_escaped = false,
            b'\\' if is_text => is_escaped = true,
            b'"' => is_text = !is_text,
            b'[' | b'{' if !is_text => open = open.saturating_add(1),
            b']' | b'}' if !is_text => open = open.saturating_sub(1),
            _ => {}
        }
    }
    open
}

/// The code unit of the escape at the front of a text: `\ud800`.
fn escaped_unit(text: &[u8]) -> Option<u32> {
    let digits = std::str::from_utf8(text.get(..6)?)
        .ok()?
        .strip_prefix("\\u")?;
    u32::from_str_radix(digits, 16).ok()
}

/// How long the escape at the front of a text is, or pair of escapes; None if it is half a surrogate pair.
fn escape_len(text: &[u8]) -> Option<usize> {
    let Some(unit) = escaped_unit(text) else {
        return Some(2);
    };
    match unit {
        0xd800..=0xdbff => {
            let low = escaped_unit(text.get(6..)?)?;
            if matches!(low, 0xdc00..=0xdfff) {
                Some(12)
            } else {
                None
            }
        }
        0xdc00..=0xdfff => None,
        _ => Some(6),
    }
}

/// Whether a string literal begins here that has half a surrogate pair.
fn has_lone_surrogate(text: &[u8]) -> bool {
    if text.first() != Some(&b'"') {
        return false;
    }
    let mut passed: usize = 0;
    for at in 1..text.len() {
        if passed > 0 {
            passed -= 1;
            continue;
        }
        match text[at] {
            b'"' => return false,
            b'\\' => match escape_len(&text[at..]) {
                Some(len) => passed = len.saturating_sub(1),
                None => return true,
            },
            _ => {}
        }
    }
    false
}

/// Whether a byte may be part of a number.
fn is_of_number(byte: u8) -> bool {
    byte.is_ascii_digit() || matches!(byte, b'+' | b'-' | b'.' | b'e' | b'E')
}

/// Whether a byte may stand between a number and what is read next.
fn is_behind_number(byte: u8) -> bool {
    byte.is_ascii_whitespace() || matches!(byte, b',' | b']' | b'}')
}

/// The last number in this front of a JSON text, if only marks are behind it.
fn last_number(front: &[u8]) -> Option<&str> {
    let last = front.iter().rposition(|byte| !is_behind_number(*byte))?;
    let front = front.get(..last.saturating_add(1))?;
    let number = match front.iter().rposition(|byte| !is_of_number(*byte)) {
        Some(before) => front.get(before.saturating_add(1)..)?,
        None => front,
    };
    std::str::from_utf8(number).ok()
}

/// Whether that number is too large for a float.
fn ends_too_large(front: &[u8]) -> bool {
    match last_number(front) {
        Some(number) => number
            .parse::<f64>()
            .is_ok_and(|number| number.is_infinite()),
        None => false,
    }
}

/// What is wrong with a text that the reader refuses at this byte. It refuses a number behind it, and behind the mark that follows.
pub fn reading_reason(text: &str, byte: usize) -> Option<FaultReason> {
    let text = text.as_bytes();
    let (front, rest) = text.split_at_checked(byte)?;
    if open_values(front) > 127 {
        Some(FaultReason::TooDeep)
    } else if has_lone_surrogate(rest) {
        Some(FaultReason::LoneSurrogate)
    } else if ends_too_large(if rest.len() > 1 { front } else { text }) {
        Some(FaultReason::NumberTooLarge)
    } else {
        None
    }
}

// ---- of a value that is no map

/// What is wrong with a number that is to be whole, from 0 to 4294967295. None of what is no number.
fn number_reason(value: &Value) -> Option<FaultReason> {
    let number = value.as_f64()?;
    if number < 0.0 {
        Some(FaultReason::NumberBelowZero)
    } else if number > 4294967295.0 {
        Some(FaultReason::NumberAboveLimit)
    } else if number.fract() != 0.0 {
        Some(FaultReason::NumberNotWhole)
    } else if value.is_u64() {
        None
    } else {
        Some(FaultReason::NumberNotInDigits)
    }
}

/// What is wrong with the offset of a section: with its line, or with its column.
fn offset_reason(section: &Value) -> Option<FaultReason> {
    let offset = section.get("offset")?;
    let line = offset.get("line")?;
    number_reason(line).or(number_reason(offset.get("column")?))
}

/// How many entries a list of a map has; 0 if there is no such list.
fn list_len(map: &Value, key: &str) -> usize {
    map.get(key)
        .and_then(Value::as_array)
        .map_or(0, |list| list.len())
}

/// What is wrong with the segment of a mappings text that is at fault at this place: what is wrong where there are so many names and
/// sources, if that is at this place; else where there are any.
pub fn segment_reason(
    text: &str,
    names: usize,
    sources: usize,
    place: SegmentPlace,
) -> Option<FaultReason> {
    let any = u32::MAX as usize;
    let reason = if mappings_fault_at(text, names, sources) == Some(place) {
        mappings_fault_reason(text, names, sources)?
    } else if mappings_fault_at(text, any, any) == Some(place) {
        mappings_fault_reason(text, any, any)?
    } else {
        return None;
    };
    Some(FaultReason::Segment(reason))
}

/// What is wrong with a map by itself, at this spot of it.
fn map_reason(map: &Value, spot: FaultSpot) -> Option<FaultReason> {
    match spot {
        FaultSpot::Segment(place) => {
            let (names, sources) = (list_len(map, "names"), list_len(map, "sources"));
            segment_reason(map.get("mappings")?.as_str()?, names, sources, place)
        }
        FaultSpot::Member(Field::Version) => number_reason(map.get("version")?),
        FaultSpot::Entry(field @ (Field::IgnoreList | Field::GoogleIgnoreList), index) => {
            number_reason(map.get(name_of(field))?.as_array()?.get(index)?)
        }
        _ => None,
    }
}

/// What is really wrong with a JSON value, which has its first fault at this place.
pub fn value_reason(value: &Value, place: &FaultPlace) -> Option<FaultReason> {
    let Some(section) = place.section else {
        return map_reason(value, place.spot);
    };
    let section = value.get("sections")?.as_array()?.get(section)?;
    if place.spot == FaultSpot::Member(Field::Offset) {
        return offset_reason(section);
    }
    map_reason(section.get("map")?, place.spot)
}

/// What is really wrong with a JSON text, which has its first fault at this place, as `json_fault_at` returns it; None where the error that
/// `decode_from_string` returns says it already, and where this is not the place. Fails only with `OutOfMemory`.
///
/// ```rust
/// use oxc_sourcemap::{FaultReason, json_fault_at, json_fault_reason};
///
/// // The error is that the version has the wrong type.
/// let text = "{\"version\":3.0,\"sources\":[],\"mappings\":\"\"}";
/// if let Some(place) = json_fault_at(alloc, text)? {
///     assert_eq!(rt; json_fault_reason(alloc, text, &place)?, Some(FaultReason::NumberNotInDigits));
/// }
/// ```
pub fn json_fault_reason(
    alloc: Global,
    text: &str,
    place: &FaultPlace,
) -> Result<Option<FaultReason>>
    ensures { OnlyMemory result }
{
    if let FaultSpot::Reading { byte, .. } = place.spot {
        return Ok(reading_reason(text, byte));
    }
    match Value::from_str(alloc, text) {
        Ok(value) => Ok(value_reason(&value, place)),
        Err(error) if error.is_memory() => Err(Error::OutOfMemory),
        Err(_) => Ok(None),
    }
}
