//! Texts of at most so many bytes, written from the maps of handles.
ghost use Rattle.std.specs.Prelude.{◌≡◌, ◌≢◌, None, Ok, map, string_bytes, IfOk, IfErr};
ghost use Rattle.oxc_sourcemap_c.specs.Words.{out_of_memory, map_text_within, map_url_within};
ghost use Rattle.oxc_sourcemap_c.specs.Words.{mappings_within, mappings_text_within, token_of};
ghost use Rattle.oxc_sourcemap_c.specs.Words.{IsWrittenAs, IsTokensErrorWithin};
ghost use Rattle.oxc_sourcemap_c.specs.Words.{Answers, no_fault, IsErrorAs, held_map, HoldsString};
ghost use Rattle.oxc_sourcemap_c.specs.Words.{HoldsWritten, IsWritingError};
ghost use Rattle.oxc_sourcemap_c.specs.Words.{CallError, IsMapMissing, code_of};

use crate::holding::{Handle, Lent, put_text};
use crate::numbers::{CallError, Fault};
use crate::texts::{TokenNumbers, tokens_of};
use oxc_sourcemap_json::encode_mappings_within as encode_within;
use oxc_sourcemap_map::{OwnedSourceMap, parts_of};
use std::alloc::Global;

/// The JSON text of the map that is borrowed, if it has at most `limit` bytes.
fn to_json_string_within(alloc: Global, map: &Lent, limit: usize) -> Result<String, CallError>
    ensures text { IsWrittenAs (λ text. string_bytes text) result map.now.held
        (map_text_within limit) }
{
    Ok(map.source_map()?.to_json_string_within(alloc, limit)?)
}

/// Writes the JSON text of a map, if it has at most `limit` bytes.
#[unsafe(no_mangle)]
pub extern "C" fn proved_to_json_string_within(
    alloc: Global,
    map: &Lent,
    limit: usize,
    out: &mut Handle,
    fault: &mut Fault,
) -> u32
    ensures text { result ≡ 0 → HoldsWritten (map_text_within limit) map.now.held out.new.held }
    ensures no_error { result ≡ 0 → fault.new ≡ no_fault }
    ensures error { result ≢ 0 → (out.new.held ≡ out.old.held)
        × IsErrorAs result fault.new
        (IsWritingError (map_text_within limit) (held_map map.now.held)) }
    ensures sure { (r : CallError) → IsMapMissing map.now.held r → result ≡ code_of r }
{
    put_text(alloc, to_json_string_within(alloc, map, limit), out, fault)
}

/// The data URL of the map that is borrowed, if it has at most `limit` bytes.
fn to_data_url_within(alloc: Global, map: &Lent, limit: usize) -> Result<String, CallError>
    ensures text { IsWrittenAs (λ text. string_bytes text) result map.now.held
        (map_url_within limit) }
{
    Ok(map.source_map()?.to_data_url_within(alloc, limit)?)
}

/// Writes the data URL of a map, if it has at most `limit` bytes.
#[unsafe(no_mangle)]
pub extern "C" fn proved_to_data_url_within(
    alloc: Global,
    map: &Lent,
    limit: usize,
    out: &mut Handle,
    fault: &mut Fault,
) -> u32
    ensures text { result ≡ 0 → HoldsWritten (map_url_within limit) map.now.held out.new.held }
    ensures no_error { result ≡ 0 → fault.new ≡ no_fault }
    ensures error { result ≢ 0 → (out.new.held ≡ out.old.held)
        × IsErrorAs result fault.new
        (IsWritingError (map_url_within limit) (held_map map.now.held)) }
    ensures sure { (r : CallError) → IsMapMissing map.now.held r → result ≡ code_of r }
{
    put_text(alloc, to_data_url_within(alloc, map, limit), out, fault)
}

/// The mappings text of a map.
fn mappings_of(
    alloc: Global,
    map: &OwnedSourceMap,
    limit: usize,
) -> oxc_sourcemap_tokens::Result<String>
    ensures { Answers string_bytes result (mappings_text_within limit map.now) }
{
    let parts = parts_of(map.as_source_map());
    match &parts.token_chunks {
        Some(chunks) => {
            encode_within(
                alloc,
                parts.tokens.as_slice(),
                Some(chunks.as_slice()),
                limit,
            )
        }
        None => encode_within(alloc, parts.tokens.as_slice(), None, limit),
    }
}

/// The mappings text of the map that is borrowed, if it has at most `limit` bytes.
fn get_mappings_within(alloc: Global, map: &Lent, limit: usize) -> Result<String, CallError>
    ensures text { IsWrittenAs (λ text. string_bytes text) result map.now.held
        (mappings_text_within limit) }
{
    Ok(mappings_of(alloc, map.source_map()?, limit)?)
}

/// Writes the mappings text of a map, if it has at most `limit` bytes.
#[unsafe(no_mangle)]
pub extern "C" fn proved_get_mappings_within(
    alloc: Global,
    map: &Lent,
    limit: usize,
    out: &mut Handle,
    fault: &mut Fault,
) -> u32
    ensures text { result ≡ 0
        → HoldsWritten (mappings_text_within limit) map.now.held out.new.held }
    ensures no_error { result ≡ 0 → fault.new ≡ no_fault }
    ensures error { result ≢ 0 → (out.new.held ≡ out.old.held)
        × IsErrorAs result fault.new
        (IsWritingError (mappings_text_within limit) (held_map map.now.held)) }
    ensures sure { (r : CallError) → IsMapMissing map.now.held r → result ≡ code_of r }
{
    put_text(alloc, get_mappings_within(alloc, map, limit), out, fault)
}

/// The mappings text of these tokens, if it has at most `limit` bytes.
fn encode_mappings_within(
    alloc: Global,
    tokens: &[TokenNumbers],
    limit: usize,
) -> Result<String, CallError>
    ensures text { IfOk result (λ text. mappings_within limit (map token_of tokens.now) None
        ≡ Ok (string_bytes text)) }
    ensures error { IfErr result (λ r. (r ≢ out_of_memory)
        → IsTokensErrorWithin limit (map token_of tokens.now) r) }
{
    let tokens = tokens_of(alloc, tokens)?;
    Ok(encode_within(alloc, tokens.as_slice(), None, limit)?)
}

/// Writes the mappings text of tokens, if it has at most `limit` bytes.
#[unsafe(no_mangle)]
pub extern "C" fn proved_encode_mappings_within(
    alloc: Global,
    tokens: &[TokenNumbers],
    limit: usize,
    out: &mut Handle,
    fault: &mut Fault,
) -> u32
    ensures text { result ≡ 0 → HoldsString out.new.held
        (λ text. mappings_within limit (map token_of tokens.now) None ≡ Ok text) }
    ensures no_error { result ≡ 0 → fault.new ≡ no_fault }
    ensures error { result ≢ 0 → (out.new.held ≡ out.old.held)
        × IsErrorAs result fault.new (IsTokensErrorWithin limit (map token_of tokens.now)) }
{
    put_text(
        alloc,
        encode_mappings_within(alloc, tokens, limit),
        out,
        fault,
    )
}
