//! Where a JSON text, or a JSON value, has its first fault: the place of the error with which it is read.
ghost use Rattle.std.specs.Prelude.{◌≡◌, ◌≢◌, IfOk, Some, None, IsSomeAnd, is_some};
ghost use Rattle.std.specs.Result.{is_err};
ghost use Rattle.serde_json.specs.Data.{Data};
ghost use Rattle.oxc_sourcemap_json.specs.Words.{value_place, read, OnlyMemory, IsBytePlace};
ghost use Rattle.oxc_sourcemap_json.specs.Words.{read_map, read_value, view, OutOfMemory};

use crate::read::{read_parts_from_string, read_parts_from_value};
use oxc_sourcemap_tokens::{Error, Fault, FaultPlace, Result};
use serde_json::Value;
use std::alloc::Global;

/// The place of a fault, or want of memory.
pub fn place_of(fault: Fault) -> Result<Option<FaultPlace>>
    ensures place { IfOk result (λ place. (fault.error ≢ OutOfMemory) × (place ≡ fault.place)) }
    ensures error { OnlyMemory result }
{
    match fault.error {
        Error::OutOfMemory => Err(Error::OutOfMemory),
        _ => Ok(fault.place),
    }
}

/// Where a JSON text has its first fault. If it is not JSON, the byte that the reader gives: that of the token that it cannot read,
/// or of what follows one that may not stand there, at most the length of the text; with its line, from 0, and its column in bytes.
/// Lines end in line feeds. Else the place that `value_fault_at` gives. None exactly if `decode_from_string` reads the text. Fails
/// only with `OutOfMemory`.
///
/// ```rust
/// use oxc_sourcemap::{FaultSpot, json_fault_at};
///
/// let place = json_fault_at(alloc, "{\n\"version\": x\n}")?;
/// assert_eq!(rt; place.map(|place| place.spot), Some(FaultSpot::Reading { line: 1, column: 11, byte: 13 }));
/// ```
pub fn json_fault_at(alloc: Global, text: &str) -> Result<Option<FaultPlace>>
    ensures json { (d : Data) → read text.now ≡ Some d
        → IfOk result (λ place. place ≡ value_place d) }
    ensures reading { read text.now ≡ None
        → IfOk result (λ place. IsSomeAnd place (IsBytePlace text.now)) }
    ensures found { IfOk result (λ place. is_some place ≡ is_err (read_map text.now)) }
    ensures error { OnlyMemory result }
{
    let fault = match read_parts_from_string(alloc, text) {
        Ok(_) => return Ok(None),
        Err(fault) => fault,
    };
    place_of(fault)
}

/// Where a JSON value has its first fault, the one whose error `decode_value` returns: the member that is missing or has the wrong
/// type, and of a list with an entry of the wrong type the first such entry; then the first entry of the ignore list that is no
/// source; then the segment of the mappings. None exactly if `decode_value` reads the value.
///
/// Of an indexed map it is the value, its version or its file; `sections`, if that is no list, or its first entry that is no
/// object; else a place in the first section with a fault: its offset, which is missing, misshapen or out of order (`SectionOrder`);
/// its map, or the place in that; and its map too if that makes the join pass a limit (`TooLarge`).
///
/// Fails only with `OutOfMemory`.
///
/// ```rust
/// use oxc_sourcemap::{FaultSpot, Field, value_fault_at};
///
/// let text = r#"{"version":3,"sources":["a.js",7],"mappings":""}"#;
/// let value = serde_json::Value::from_str(alloc, text)?;
/// let place = value_fault_at(alloc, &value)?;
/// assert_eq!(rt; place.map(|place| place.spot), Some(FaultSpot::Entry(Field::Sources, 1)));
/// ```
pub fn value_fault_at(alloc: Global, value: &Value) -> Result<Option<FaultPlace>>
    ensures place { IfOk result (λ place. place ≡ value_place (view value.now)) }
    ensures found { IfOk result (λ place. is_some place ≡ is_err (read_value (view value.now))) }
    ensures error { OnlyMemory result }
{
    let fault = match read_parts_from_value(alloc, value) {
        Ok(_) => return Ok(None),
        Err(fault) => fault,
    };
    place_of(fault)
}
