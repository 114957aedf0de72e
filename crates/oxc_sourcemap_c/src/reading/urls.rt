//! URLs of maps in codes, and data URLs.
ghost use Rattle.std.specs.Prelude.{◌≡◌, ◌≢◌, Some, Ok, string_bytes, IfOk, IfErr, None, map};
ghost use Rattle.oxc_sourcemap_c.specs.Words.{out_of_memory, language_of, IsUrlIn, IsUrlOf};
ghost use Rattle.oxc_sourcemap_c.specs.Words.{call_error_of_data, IsDataUrlError, decoded_data_url};
ghost use Rattle.oxc_sourcemap_c.specs.Words.{no_fault, IsErrorAs, IsUrlAnswer, CallError};
ghost use Rattle.oxc_sourcemap_c.specs.Words.{call_error_of, HoldsString};

use crate::answers::write_told;
use crate::holding::{Handle, put_text};
use crate::numbers::{CallError, Fault};
use crate::texts::{Text, text_of};
use oxc_sourcemap_text::{DataUrlError, Language};
use std::alloc::Global;

/// The language with this number: 0 for JavaScript, 1 for CSS.
fn language_of(number: u32) -> Option<Language>
    ensures { result ≡ language_of number }
{
    match number {
        0 => Some(Language::JavaScript),
        1 => Some(Language::Css),
        _ => None,
    }
}

fn url_in(code: &str, language: u32) -> Result<Text<'_>, CallError>
    ensures { IsUrlIn code.now language result }
{
    let Some(language) = language_of(language) else {
        return Err(CallError::BadOption);
    };
    match oxc_sourcemap_text::source_mapping_url(code, language) {
        Some(url) => Ok(Text {
            bytes: url.as_bytes(),
        }),
        None => Err(CallError::NoEntry),
    }
}

/// The URL that a code in the language with this number names for its map, as a part of the code.
fn source_mapping_url(code: &[u8], language: u32) -> Result<Text<'_>, CallError>
    ensures { IsUrlOf code.now language result }
{
    url_in(text_of(code)?, language)
}

/// The URL that a code names for its map, as a part of the code. The language is 0 for JavaScript and 1 for CSS.
#[unsafe(no_mangle)]
pub extern "C" fn proved_source_mapping_url<'c>(
    code: &'c [u8],
    language: u32,
    out: &mut Text<'c>,
    fault: &mut Fault,
) -> u32
    ensures url { IsUrlAnswer code.now language result out.new fault.new }
    ensures unchanged { result ≢ 0 → out.new ≡ out.old }
    ensures no_error { result ≡ 0 → fault.new ≡ no_fault }
{
    write_told(source_mapping_url(code, language), out, fault)
}

/// The error for C of an error of a data URL.
fn call_error_of(error: DataUrlError) -> CallError
    ensures { result ≡ call_error_of_data error }
{
    match error {
        DataUrlError::BadBase64(at) => CallError::BadBase64(at),
        DataUrlError::BadUtf8(at) => CallError::BadDataUtf8(at),
        DataUrlError::OutOfMemory => CallError::memory(),
    }
}

/// The text in a data URL of JSON.
fn decode_data_url(alloc: Global, url: &[u8]) -> Result<String, CallError>
    ensures text { IfOk result (λ text. decoded_data_url url.now ≡ Ok (Some (string_bytes text))) }
    ensures error { IfErr result (λ r. (r ≢ out_of_memory) → IsDataUrlError url.now r) }
{
    let url = text_of(url)?;
    match oxc_sourcemap_text::decode_data_url(alloc, url) {
        Ok(Some(text)) => Ok(text),
        Ok(None) => Err(CallError::NoEntry),
        Err(error) => Err(call_error_of(error)),
    }
}

/// Writes the text in a data URL of JSON.
#[unsafe(no_mangle)]
pub extern "C" fn proved_decode_data_url(
    alloc: Global,
    url: &[u8],
    out: &mut Handle,
    fault: &mut Fault,
) -> u32
    ensures text { result ≡ 0 → HoldsString out.new.held
        (λ text. decoded_data_url url.now ≡ Ok (Some text)) }
    ensures no_error { result ≡ 0 → fault.new ≡ no_fault }
    ensures error { result ≢ 0 → (out.new.held ≡ out.old.held)
        × IsErrorAs result fault.new (IsDataUrlError url.now) }
{
    put_text(alloc, decode_data_url(alloc, url), out, fault)
}
