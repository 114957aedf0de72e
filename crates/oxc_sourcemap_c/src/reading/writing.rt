//! Texts written from the maps of handles.
ghost use Rattle.std.specs.Prelude.{◌≡◌, ◌≢◌, Some, None, Ok, map, string_bytes, IfOk, IfErr};
ghost use Rattle.oxc_sourcemap_c.specs.Words.{out_of_memory, map_text, map_url, token_of};
ghost use Rattle.oxc_sourcemap_c.specs.Words.{IsWrittenAs, mappings_text, tokens_text};
ghost use Rattle.oxc_sourcemap_c.specs.Words.{IsTokensError, HoldsMap, IsVisualText, Answers};
ghost use Rattle.oxc_sourcemap_c.specs.Words.{IsVisualError, IsLinkError, map_link, unless};
ghost use Rattle.oxc_sourcemap_c.specs.Words.{writing_fault, canonical, lent_chunks};
ghost use Rattle.oxc_sourcemap_c.specs.Words.{no_fault, IsErrorAs, held_map, HoldsWritten};
ghost use Rattle.oxc_sourcemap_c.specs.Words.{IsWritingError, CallError, HoldsString};
ghost use Rattle.oxc_sourcemap_c.specs.Words.{IsMapMissing, code_of};

use crate::holding::{Handle, Lent, put_text};
use crate::numbers::{CallError, Fault};
use crate::texts::{TokenNumbers, text_of, tokens_of};
use oxc_sourcemap_map::{OwnedSourceMap, SourcemapVisualizer, parts_of};
use oxc_sourcemap_tokens::{Token, TokenChunk};
use std::alloc::Global;

/// The JSON text of the map that is borrowed.
fn to_json_string(alloc: Global, map: &Lent) -> Result<String, CallError>
    ensures text { IsWrittenAs (λ text. string_bytes text) result map.now.held map_text }
{
    Ok(map.source_map()?.to_json_string(alloc)?)
}

/// Writes the JSON text of a map.
#[unsafe(no_mangle)]
pub extern "C" fn proved_to_json_string(
    alloc: Global,
    map: &Lent,
    out: &mut Handle,
    fault: &mut Fault,
) -> u32
    ensures text { result ≡ 0 → HoldsWritten map_text map.now.held out.new.held }
    ensures no_error { result ≡ 0 → fault.new ≡ no_fault }
    ensures error { result ≢ 0 → (out.new.held ≡ out.old.held)
        × IsErrorAs result fault.new (IsWritingError map_text (held_map map.now.held)) }
    ensures sure { (r : CallError) → IsMapMissing map.now.held r → result ≡ code_of r }
{
    put_text(alloc, to_json_string(alloc, map), out, fault)
}

/// The data URL of the map that is borrowed.
fn to_data_url(alloc: Global, map: &Lent) -> Result<String, CallError>
    ensures text { IsWrittenAs (λ text. string_bytes text) result map.now.held map_url }
{
    Ok(map.source_map()?.to_data_url(alloc)?)
}

/// Writes the data URL of a map.
#[unsafe(no_mangle)]
pub extern "C" fn proved_to_data_url(
    alloc: Global,
    map: &Lent,
    out: &mut Handle,
    fault: &mut Fault,
) -> u32
    ensures text { result ≡ 0 → HoldsWritten map_url map.now.held out.new.held }
    ensures no_error { result ≡ 0 → fault.new ≡ no_fault }
    ensures error { result ≢ 0 → (out.new.held ≡ out.old.held)
        × IsErrorAs result fault.new (IsWritingError map_url (held_map map.now.held)) }
    ensures sure { (r : CallError) → IsMapMissing map.now.held r → result ≡ code_of r }
{
    put_text(alloc, to_data_url(alloc, map), out, fault)
}

/// The mappings text of tokens in these chunks.
fn encode(
    alloc: Global,
    tokens: &[Token],
    chunks: Option<&[TokenChunk]>,
) -> oxc_sourcemap_tokens::Result<String>
    ensures { Answers string_bytes result
        (unless (writing_fault tokens.now (lent_chunks chunks.entry)) (Ok (canonical tokens.now))) }
{
    let mut mappings = String::new(alloc);
    oxc_sourcemap_mappings::encode_mappings(tokens, chunks, &mut mappings)?;
    Ok(mappings)
}

/// The mappings text of a map.
fn mappings_of(alloc: Global, map: &OwnedSourceMap) -> oxc_sourcemap_tokens::Result<String>
    ensures { Answers string_bytes result (mappings_text map.now) }
{
    let parts = parts_of(map.as_source_map());
    match &parts.token_chunks {
        Some(chunks) => encode(alloc, parts.tokens.as_slice(), Some(chunks.as_slice())),
        None => encode(alloc, parts.tokens.as_slice(), None),
    }
}

/// The mappings text of the map that is borrowed.
fn get_mappings(alloc: Global, map: &Lent) -> Result<String, CallError>
    ensures text { IsWrittenAs (λ text. string_bytes text) result map.now.held mappings_text }
{
    Ok(mappings_of(alloc, map.source_map()?)?)
}

/// Writes the mappings text of a map.
#[unsafe(no_mangle)]
pub extern "C" fn proved_get_mappings(
    alloc: Global,
    map: &Lent,
    out: &mut Handle,
    fault: &mut Fault,
) -> u32
    ensures text { result ≡ 0 → HoldsWritten mappings_text map.now.held out.new.held }
    ensures no_error { result ≡ 0 → fault.new ≡ no_fault }
    ensures error { result ≢ 0 → (out.new.held ≡ out.old.held)
        × IsErrorAs result fault.new (IsWritingError mappings_text (held_map map.now.held)) }
    ensures sure { (r : CallError) → IsMapMissing map.now.held r → result ≡ code_of r }
{
    put_text(alloc, get_mappings(alloc, map), out, fault)
}

/// The mappings text of these tokens.
fn encode_mappings(alloc: Global, tokens: &[TokenNumbers]) -> Result<String, CallError>
    ensures text { IfOk result (λ text. tokens_text (map token_of tokens.now)
        ≡ Ok (string_bytes text)) }
    ensures error { IfErr result (λ r. (r ≢ out_of_memory)
        → IsTokensError (map token_of tokens.now) r) }
{
    let tokens = tokens_of(alloc, tokens)?;
    Ok(encode(alloc, tokens.as_slice(), None)?)
}

/// Writes the mappings text of tokens.
#[unsafe(no_mangle)]
pub extern "C" fn proved_encode_mappings(
    alloc: Global,
    tokens: &[TokenNumbers],
    out: &mut Handle,
    fault: &mut Fault,
) -> u32
    ensures text { result ≡ 0 → HoldsString out.new.held
        (λ text. tokens_text (map token_of tokens.now) ≡ Ok text) }
    ensures no_error { result ≡ 0 → fault.new ≡ no_fault }
    ensures error { result ≢ 0 → (out.new.held ≡ out.old.held)
        × IsErrorAs result fault.new (IsTokensError (map token_of tokens.now)) }
{
    put_text(alloc, encode_mappings(alloc, tokens), out, fault)
}

/// The text that shows a code beside the sources of the map that is borrowed.
fn visualize(alloc: Global, map: &Lent, code: &[u8]) -> Result<String, CallError>
    ensures text { IfOk result (λ text. HoldsMap map.now.held
        (λ m. IsVisualText code.now m (string_bytes text))) }
    ensures error { IfErr result (λ r. (r ≢ out_of_memory)
        → IsVisualError code.now map.now.held r) }
    ensures sure { (r : CallError) → IsMapMissing map.now.held r → result ≡ Err r }
{
    let map = map.source_map()?;
    let code = text_of(code)?;
    Ok(SourcemapVisualizer::new(code, map.as_source_map()).get_text(alloc)?)
}

/// Writes the text that shows a code beside the sources of its map.
#[unsafe(no_mangle)]
pub extern "C" fn proved_visualize(
    alloc: Global,
    map: &Lent,
    code: &[u8],
    out: &mut Handle,
    fault: &mut Fault,
) -> u32
    ensures text { result ≡ 0 → HoldsMap map.now.held
        (λ m. HoldsString out.new.held (IsVisualText code.now m)) }
    ensures no_error { result ≡ 0 → fault.new ≡ no_fault }
    ensures error { result ≢ 0 → (out.new.held ≡ out.old.held)
        × IsErrorAs result fault.new (IsVisualError code.now map.now.held) }
    ensures sure { (r : CallError) → IsMapMissing map.now.held r → result ≡ code_of r }
{
    put_text(alloc, visualize(alloc, map, code), out, fault)
}

/// The link to a page that shows a code and the map that is borrowed.
fn visualizer_url(alloc: Global, map: &Lent, code: &[u8]) -> Result<String, CallError>
    ensures text { IfOk result (λ text. HoldsMap map.now.held
        (λ m. map_link code.now m ≡ Ok (string_bytes text))) }
    ensures error { IfErr result (λ r. (r ≢ out_of_memory)
        → IsLinkError code.now map.now.held r) }
    ensures sure { (r : CallError) → IsMapMissing map.now.held r → result ≡ Err r }
{
    let map = map.source_map()?;
    let code = text_of(code)?;
    Ok(SourcemapVisualizer::new(code, map.as_source_map()).get_url(alloc)?)
}

/// Writes the link to a page that shows a code and its map.
#[unsafe(no_mangle)]
pub extern "C" fn proved_visualizer_url(
    alloc: Global,
    map: &Lent,
    code: &[u8],
    out: &mut Handle,
    fault: &mut Fault,
) -> u32
    ensures text { result ≡ 0 → HoldsMap map.now.held
        (λ m. HoldsString out.new.held (λ text. map_link code.now m ≡ Ok text)) }
    ensures no_error { result ≡ 0 → fault.new ≡ no_fault }
    ensures error { result ≢ 0 → (out.new.held ≡ out.old.held)
        × IsErrorAs result fault.new (IsLinkError code.now map.now.held) }
    ensures sure { (r : CallError) → IsMapMissing map.now.held r → result ≡ code_of r }
{
    put_text(alloc, visualizer_url(alloc, map, code), out, fault)
}
