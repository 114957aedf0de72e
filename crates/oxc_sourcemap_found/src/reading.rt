//! Where a text that was opened is not JSON.
ghost use Rattle.std.specs.Prelude.{◌≡◌, IsSomeAnd};
ghost use Rattle.oxc_sourcemap_found.specs.Words.{OutOfMemory, BadJson, Reading, IsJsonIn};
ghost use Rattle.oxc_sourcemap_found.specs.Words.{IsMemory, IsFoundReading};

use oxc_sourcemap_json::{reading_byte, reading_place};
use oxc_sourcemap_tokens::{Error, Fault, FaultPlace, JsonFault};
use std::borrow::CowStr;

/// Where a text is not JSON, of which this was opened and refused with this error.
fn text_place(text: &str, json: &CowStr<'_>, error: &serde_json::Error) -> FaultPlace
    requires { IsJsonIn text.now json.now }
    ensures { IsFoundReading text.now result }
{
    let byte = reading_byte(json.as_str(), error);
    match json {
        CowStr::Borrowed(end) => reading_place(text, text.len() - end.len() + byte),
        CowStr::Owned(json) => reading_place(json.as_str(), byte),
    }
}

/// What this error of the reader is, of a text of which this was opened: want of memory, or a fault of the text.
pub(crate) fn text_fault(text: &str, json: &CowStr<'_>, error: &serde_json::Error) -> Fault
    requires { IsJsonIn text.now json.now }
    ensures memory { IsMemory error.now → result.error ≡ OutOfMemory }
    ensures error { ¬ (IsMemory error.now) → result.error ≡ BadJson Reading }
    ensures place { ¬ (IsMemory error.now) → IsSomeAnd result.place (IsFoundReading text.now) }
{
    if error.is_memory() {
        return Fault::without_place(Error::OutOfMemory);
    }
    Fault {
        error: Error::BadJson(JsonFault::Reading),
        place: Some(text_place(text, json, error)),
    }
}
