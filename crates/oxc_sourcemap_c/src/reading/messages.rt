//! The messages of errors, of their places and of what was mended.
ghost use Rattle.std.specs.Prelude.{◌≡◌, ℕ, List, length, string_bytes, MatchOption, MatchResult};
ghost use Rattle.std.specs.Prelude.{None, Some, Ok};
ghost use Rattle.oxc_sourcemap_c.specs.Words.{call_error_text, call_error_of, filled, IsMessage};
ghost use Rattle.oxc_sourcemap_c.specs.Words.{place_text, place_of_numbers, mend_text};
ghost use Rattle.oxc_sourcemap_c.specs.Words.{mend_of_numbers, CallError, IsSmall, fault_of};

use crate::numbers::{Fault, PlaceNumbers};
use crate::reading::mends::MendNumbers;
use oxc_sourcemap_found::fault_reason;
use oxc_sourcemap_json::FaultReason;
use std::alloc::Global;

/// Writes as much of a text as there is room for.
fn copy_to(text: &[u8], out: &mut [u8])
    ensures { out.new ≡ filled text.now out.old }
{
    let count = text.len().min(out.len());
    out[..count].copy_from_slice(&text[..count]);
}

/// Writes as much of a text as there is room for, and returns its whole length; 0 if there is none for want of memory.
fn write_text<E: Drop>(text: Result<String, E>, out: &mut [u8]) -> usize
    ensures { MatchResult text (λ text. (result ≡ length (string_bytes text))
        × (out.new ≡ filled (string_bytes text) out.old))
        (λ _. (result ≡ 0) × (out.new ≡ out.old)) }
{
    match text {
        Ok(text) => {
            copy_to(text.as_bytes(), out);
            text.as_bytes().len()
        }
        Err(_) => 0,
    }
}

/// Writes as much of the message of the error with these numbers as there is room for, and returns its whole length; 0 for
/// want of memory, and if there is no such error.
fn write_message(alloc: Global, fault: &Fault, out: &mut [u8]) -> usize
    ensures { MatchOption (call_error_of fault.now) ((result ≡ 0) × (out.new ≡ out.old))
        (λ r. IsMessage (call_error_text r) out.old out.new result) }
{
    match fault.call_error() {
        Some(error) => write_text(error.to_string(alloc), out),
        None => 0,
    }
}

/// Writes as much of the message of an error, given by its numbers, as there is room for, and returns the length of the whole;
/// 0 for want of memory, and if no error has these numbers.
#[unsafe(no_mangle)]
pub extern "C" fn proved_message(alloc: Global, fault: &Fault, out: &mut [u8]) -> usize
    ensures message { (r : CallError) → IsSmall r → fault.now ≡ fault_of r
        → IsMessage (call_error_text r) out.old out.new result }
    ensures cases { MatchOption (call_error_of fault.now) ((result ≡ 0) × (out.new ≡ out.old))
        (λ r. IsMessage (call_error_text r) out.old out.new result) }
{
    write_message(alloc, fault, out)
}

/// The same of a place.
fn write_place_message(alloc: Global, place: &PlaceNumbers, out: &mut [u8]) -> usize
    ensures { MatchOption (place_of_numbers place.now) ((result ≡ 0) × (out.new ≡ out.old))
        (λ p. IsMessage (place_text p) out.old out.new result) }
{
    match place.place() {
        Some(place) => write_text(place.to_string(alloc), out),
        None => 0,
    }
}

/// The same of the place of an error.
#[unsafe(no_mangle)]
pub extern "C" fn proved_place_message(alloc: Global, fault: &Fault, out: &mut [u8]) -> usize
    ensures { MatchOption (place_of_numbers fault.now.place) ((result ≡ 0) × (out.new ≡ out.old))
        (λ p. IsMessage (place_text p) out.old out.new result) }
{
    write_place_message(alloc, &fault.place, out)
}

/// What is really wrong with a text at the place with these numbers.
fn reason_in(alloc: Global, text: &[u8], place: &PlaceNumbers) -> Option<FaultReason> {
    let text = std::str::from_utf8(text).ok()?;
    fault_reason(alloc, text, &place.place()?).ok()?
}

/// The same of what is really wrong with a text at a place; 0 too where the text has no such fault, and where its error says it already.
fn write_reason_message(alloc: Global, text: &[u8], place: &PlaceNumbers, out: &mut [u8]) -> usize
    ensures { (words : List ℕ) × IsMessage words out.old out.new result }
{
    match reason_in(alloc, text, place) {
        Some(reason) => write_text(reason.to_string(alloc), out),
        None => 0,
    }
}

/// The same of what is really wrong with a text at the place of its error.
#[unsafe(no_mangle)]
pub extern "C" fn proved_reason_message(
    alloc: Global,
    text: &[u8],
    fault: &Fault,
    out: &mut [u8],
) -> usize
    ensures { (words : List ℕ) × IsMessage words out.old out.new result }
{
    write_reason_message(alloc, text, &fault.place, out)
}

/// The same of a mend.
fn write_mend_message(alloc: Global, mend: &MendNumbers, out: &mut [u8]) -> usize
    ensures { MatchOption (mend_of_numbers mend.now) ((result ≡ 0) × (out.new ≡ out.old))
        (λ m. IsMessage (mend_text m) out.old out.new result) }
{
    match mend.mend() {
        Some(mend) => write_text(mend.to_string(alloc), out),
        None => 0,
    }
}

/// The same of a mend.
#[unsafe(no_mangle)]
pub extern "C" fn proved_mend_message(alloc: Global, mend: &MendNumbers, out: &mut [u8]) -> usize
    ensures { MatchOption (mend_of_numbers mend.now) ((result ≡ 0) × (out.new ≡ out.old))
        (λ m. IsMessage (mend_text m) out.old out.new result) }
{
    write_mend_message(alloc, mend, out)
}
