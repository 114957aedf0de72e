//! The JSON text in a data URL.
ghost use Rattle.std.specs.Prelude.{◌≡◌, ◌==◌, option_map, string_bytes, IfSome, IsNone, true};
ghost use Rattle.std.specs.Prelude.{false};
ghost use Rattle.std.specs.List.{before_first, after_first};
ghost use Rattle.oxc_sourcemap_text.specs.Words.{GivesBut, has_data_scheme, behind_scheme, head_of};
ghost use Rattle.oxc_sourcemap_text.specs.Words.{data_of, is_json_type, media_type, is_base64};
ghost use Rattle.oxc_sourcemap_text.specs.Words.{is_json_url, base64_fault_at, base64_bytes};
ghost use Rattle.oxc_sourcemap_text.specs.Words.{data_bytes, utf8_text, data_text};
ghost use Rattle.oxc_sourcemap_text.specs.Words.{decoded_data_url};
ghost use Rattle.oxc_sourcemap_text.specs.declared.url.data_url_error.DataUrlError.TheVariants.{OutOfMemory};

use crate::url::data_url_error::DataUrlError;
use base64::engine::general_purpose::STANDARD_PAD_INDIFFERENT;
use base64::{DecodeAllocError, DecodeError};
use percent_encoding::percent_decode;
use std::alloc::Global;

/// The data of a data URL of JSON, still encoded.
#[derive(Clone, Copy)]
struct Data<'u> {
    text: &'u str,
    is_base64: bool,
}

/// A text without its fragment.
fn without_fragment(text: &str) -> &str
    ensures { result.now ≡ before_first (λ b. b == 35) text.now }
{
    match text.split_once('#') {
        Some((front, _)) => front,
        None => text,
    }
}

/// The media type, without parameters.
fn media_type(head: &str) -> &str
    ensures { result.now ≡ media_type head.now }
{
    match head.split_once(';') {
        Some((front, _)) => front,
        None => head,
    }
}

/// Whether the media type is one of JSON.
fn is_json_type(head: &str) -> bool
    ensures { result ≡ is_json_type head.now }
{
    let media_type = media_type(head);
    media_type.eq_ignore_ascii_case("application/json")
        || media_type.eq_ignore_ascii_case("text/json")
}

/// Whether the last parameter is `base64`.
fn is_base64(head: &str) -> bool
    ensures { result ≡ is_base64 head.now }
{
    let bytes = head.as_bytes();
    bytes[bytes.len().saturating_sub(7)..].eq_ignore_ascii_case(b";base64")
}

/// What is behind the scheme `data`.
#[tactic(auto, using(crate::proofs::Bytes::byte_facts))]
fn after_scheme(url: &str) -> Option<&str>
    ensures found { IfSome result (λ rest. (has_data_scheme url.now ≡ true)
        × (rest.now ≡ after_first (λ b. b == 58) url.now)) }
    ensures other { IsNone result → has_data_scheme url.now ≡ false }
{
    let (scheme, rest) = url.split_once(':')?;
    if scheme.eq_ignore_ascii_case("data") {
        Some(rest)
    } else {
        None
    }
}

/// The data of a data URL of JSON. None for any other URL.
#[tactic(auto, using(crate::proofs::Bytes::byte_facts))]
fn json_data(url: &str) -> Option<Data<'_>>
    ensures found { IfSome result (λ found. (is_json_url url.now ≡ true)
        × (found.text.now ≡ data_of url.now) × (found.is_base64 ≡ is_base64 (head_of url.now))) }
    ensures other { IsNone result → is_json_url url.now ≡ false }
{
    let rest = without_fragment(after_scheme(url)?);
    let (head, text) = rest.split_once(',')?;
    if is_json_type(head) {
        let is_base64 = is_base64(head);
        Some(Data { text, is_base64 })
    } else {
        None
    }
}

/// The index of the first byte at fault in base64 of this length, or its end.
fn fault_index(len: usize, fault: DecodeError) -> usize
    ensures { result ≡ base64_fault_at len fault }
{
    match fault {
        DecodeError::InvalidByte(at, _) => at,
        DecodeError::InvalidLength(at) => at,
        DecodeError::InvalidLastSymbol { offset, .. } => offset,
        DecodeError::InvalidPadding => len,
    }
}

/// The bytes of base64.
fn decode_base64(alloc: Global, text: &[u8]) -> Result<Vec<u8>, DataUrlError>
    ensures { GivesBut OutOfMemory (λ bytes. bytes.items) result (base64_bytes text.now) }
{
    match STANDARD_PAD_INDIFFERENT.decode(alloc, text) {
        Ok(bytes) => Ok(bytes),
        Err(DecodeAllocError::DecodeError(fault)) => {
            Err(DataUrlError::BadBase64(fault_index(text.len(), fault)))
        }
        Err(DecodeAllocError::OutOfMemory) => Err(DataUrlError::OutOfMemory),
    }
}

/// The bytes of data.
fn bytes_of(alloc: Global, encoded: Data<'_>) -> Result<Vec<u8>, DataUrlError>
    ensures { GivesBut OutOfMemory (λ bytes. bytes.items) result
        (data_bytes encoded.entry.is_base64 encoded.entry.text.now) }
{
    let decoded = percent_decode(encoded.text.as_bytes());
    if encoded.is_base64 {
        let text = decoded.into_cow(alloc)?;
        return decode_base64(alloc, text.as_slice());
    }
    let mut bytes = Vec::new(alloc);
    decoded.append_to(&mut bytes)?;
    Ok(bytes)
}

/// Bytes as a text.
fn text_of(bytes: Vec<u8>) -> Result<String, DataUrlError>
    ensures { GivesBut OutOfMemory string_bytes result (utf8_text bytes.items) }
{
    match String::from_utf8(bytes) {
        Ok(text) => Ok(text),
        Err(error) => Err(DataUrlError::BadUtf8(error.utf8_error().valid_up_to())),
    }
}

/// The text of data.
#[tactic(auto, unfolding(crate::specs::DataUrls::data_text))]
fn decode_data(alloc: Global, encoded: Data<'_>) -> Result<String, DataUrlError>
    ensures { GivesBut OutOfMemory string_bytes result
        (data_text encoded.entry.is_base64 encoded.entry.text.now) }
{
    text_of(bytes_of(alloc, encoded)?)
}

/// The text of a data URL of JSON (RFC 2397), as `to_data_url` writes it and other tools do. None for any other URL: one whose
/// scheme is not `data`, which has no comma, or whose media type is neither `application/json` nor `text/json`.
///
/// Scheme, media type and `;base64` may be in letters of any case; other parameters, as `;charset=utf-8`, are passed over, and
/// what follows a `#` is no part of the data. Percent-escapes in the data are decoded, and then base64 of the standard
/// alphabet, padded or not, if `;base64` is the last parameter. The text need not be JSON.
///
/// Fails with `BadBase64(at)` for data that are not base64, with `BadUtf8(at)` for bytes that are not UTF-8, and with
/// `OutOfMemory` for want of memory.
///
/// ```rust
/// use oxc_sourcemap::decode_data_url;
///
/// let text = decode_data_url(alloc, "data:application/json,%7B%22version%22:3%7D")?;
/// assert_eq!(rt; text.as_deref(), Some(r#"{"version":3}"#));
/// assert_eq!(rt; decode_data_url(alloc, "maps/a.js.map")?.is_none(), true);
/// ```
#[tactic(auto, unfolding(crate::specs::DataUrls::decoded_data_url))]
pub fn decode_data_url(alloc: Global, url: &str) -> Result<Option<String>, DataUrlError>
    ensures { GivesBut OutOfMemory (option_map string_bytes) result (decoded_data_url url.now) }
{
    match json_data(url) {
        Some(data) => Ok(Some(decode_data(alloc, data)?)),
        None => Ok(None),
    }
}
