//! The trace of a map at a generated position, as a line of text.
ghost use Rattle.std.specs.Prelude.{◌≡◌, ◌≢◌, true, string_bytes, slice_get, Some, IfOk, IfErr};
ghost use Rattle.std.specs.Prelude.{Ok, Err};
ghost use Rattle.std.specs.Option.{option_and_then};
ghost use Rattle.smap_run.specs.Words.{OutOfMemory, IsInLineOrder, are_tokens_sorted, token_for};
ghost use Rattle.smap_run.specs.Words.{record_of_parts, original_in, name_of, Map};
ghost use Rattle.smap_run.specs.Words.{number_part, name_part, original_text, trace_text};
ghost use Rattle.smap_run.specs.Words.{traced_of, traced, OnlyMemory, Pushes, lent_item};

use oxc_sourcemap_json::{decode_parts_from_string, push_json_string};
use oxc_sourcemap_lookup::{Bias, LineIndex, Traced};
use oxc_sourcemap_parts::{SourceMapParts, are_sorted};
use oxc_sourcemap_tokens::{Error, PlanError, Position, Token};
use std::alloc::Global;

/// Appends a colon and a number.
fn push_number(alloc: Global, number: u32, out: &mut String) -> Result<(), Error>
    ensures text { Pushes result out.old out.new (number_part number) }
    ensures error { OnlyMemory result }
{
    out.push(':')?;
    out.push_str(number.to_string(alloc)?.as_str())?;
    Ok(())
}

/// Appends a space and a name, if there is one.
fn push_name(name: Option<&str>, out: &mut String) -> Result<(), Error>
    ensures text { Pushes result out.old out.new (name_part (lent_item name.entry)) }
    ensures error { OnlyMemory result }
{
    let Some(name) = name else {
        return Ok(());
    };
    out.push(' ')?;
    push_json_string(name, out)
}

/// The text of an original position: a source, a source line and column, and a name.
fn original_text(
    alloc: Global,
    source: &str,
    line: u32,
    col: u32,
    name: Option<&str>,
) -> Result<String, Error>
    ensures text { IfOk result (λ out. string_bytes out
        ≡ original_text source.now line col (lent_item name.entry)) }
    ensures error { OnlyMemory result }
{
    let mut out = String::new(alloc);
    push_json_string(source, &mut out)?;
    push_number(alloc, line, &mut out)?;
    push_number(alloc, col, &mut out)?;
    push_name(name, &mut out)?;
    Ok(out)
}

/// The source of a token. None if it has no source id, or one out of range.
fn token_source<'m>(map: &'m SourceMapParts<'_>, token: &Token) -> Option<&'m str>
    ensures { lent_item result ≡ option_and_then (slice_get (record_of_parts map.now).sources)
        token.now.source_id }
{
    Some(map.sources.get(token.get_source_id()? as usize)?.as_str())
}

/// The name of a token. None if it has no name id, or one out of range.
fn token_name<'m>(map: &'m SourceMapParts<'_>, token: &Token) -> Option<&'m str>
    ensures { lent_item result ≡ name_of (record_of_parts map.now).names token.now }
{
    Some(map.names.get(token.get_name_id()? as usize)?.as_str())
}

/// The text of a token that was found.
fn token_text(alloc: Global, map: &SourceMapParts<'_>, token: &Token) -> Result<String, Error>
    ensures text { IfOk result (λ out. string_bytes out
        ≡ trace_text (Some (original_in (record_of_parts map.now) token.now))) }
    ensures error { OnlyMemory result }
{
    match token_source(map, token) {
        Some(source) => original_text(
            alloc,
            source,
            token.get_src_line(),
            token.get_src_col(),
            token_name(map, token),
        ),
        None => Ok(String::from_str(alloc, "unmapped")?),
    }
}

/// The token at a generated position of a sorted map. It is found by an index of the lines that have tokens, so the memory
/// that this takes does not depend on line numbers.
fn token_at(
    alloc: Global,
    map: &SourceMapParts<'_>,
    line: u32,
    col: u32,
) -> Result<Option<Token>, Error>
    requires sorted { are_tokens_sorted (record_of_parts map.now).tokens ≡ true }
    requires in_line_order { IsInLineOrder (record_of_parts map.now).tokens }
    ensures found { IfOk result (λ token. token
        ≡ token_for (record_of_parts map.now).tokens line col) }
    ensures error { IfErr result (λ e. (e ≢ OutOfMemory) → ⊥) }
{
    let tokens = map.tokens.as_slice();
    let index = LineIndex::new(alloc, tokens)?;
    Ok(Traced::new(tokens, &index).token(Position { line, column: col }, Bias::Before))
}

/// The text of the trace of a map at a generated position.
pub(crate) fn trace_in(
    alloc: Global,
    map: &SourceMapParts<'_>,
    line: u32,
    col: u32,
) -> Result<String, PlanError>
    ensures text { IfOk result (λ out. traced_of (Ok (record_of_parts map.now)) line col
        ≡ Ok (string_bytes out)) }
    ensures error { IfErr result (λ e. (e ≢ Map OutOfMemory)
        → traced_of (Ok (record_of_parts map.now)) line col ≡ Err e) }
{
    if !are_sorted(map.tokens.as_slice()) {
        return Err(PlanError::Unsorted);
    }
    match token_at(alloc, map, line, col)? {
        Some(token) => Ok(token_text(alloc, map, &token)?),
        None => Ok(String::from_str(alloc, "nothing")?),
    }
}

/// Looks up a generated line and column in the map of a JSON text. The result is `nothing` if no token is found, `unmapped`
/// if the token has no source; else its source as a JSON string, `:`, the source line, `:`, the source column, and, if it
/// has a name, a space and that, as a JSON string too. Lines and columns count from 0; columns are in UTF-16 code units.
///
/// ```rust
/// use smap_run::trace;
///
/// let text = r#"{"version":3,"sources":["a.js"],"names":["x"],"mappings":"AAAA,IAAIA"}"#;
/// assert_eq!(rt; trace(alloc, text, 0, 5)?.as_str(), r#""a.js":0:4 "x""#);
/// ```
///
/// Fails with `Map(e)` if `SourceMap::from_json_string` fails with `e`, then with `Unsorted` if the tokens are not sorted,
/// and with `Map(OutOfMemory)` for want of memory.
pub fn trace(alloc: Global, text: &str, line: u32, col: u32) -> Result<String, PlanError>
    ensures text { IfOk result (λ out. traced text.now line col ≡ Ok (string_bytes out)) }
    ensures error { IfErr result (λ e. (e ≢ Map OutOfMemory) → traced text.now line col ≡ Err e) }
{
    let map = decode_parts_from_string(alloc, text)?;
    trace_in(alloc, &map, line, col)
}
