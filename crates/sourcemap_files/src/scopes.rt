//! The scopes of maps.
use crate::compiled::Written;
use crate::finding::{MapText, read_map};
use crate::input::{read_text, tell, warn};
use oxc_sourcemap_parts::SourceMapParts;
use oxc_sourcemap_scopes::{Scopes, ScopesError, read_scopes};
use sourcemap_texts::has_member;
use sourcemap_words::{Failure, Outcome};

/// The key of scopes, as it is written.
const KEY: &str = "\"scopes\"";

/// A text without what may precede JSON: a mark of the order of bytes, and a first line that no script may run.
fn json_in(text: &str) -> &str {
    let text = text.strip_prefix('\u{feff}').unwrap_or(text);
    if !text.starts_with(")]}'") {
        return text;
    }
    match text.split_once('\n') {
        Some((_, rest)) => rest,
        None => text,
    }
}

/// The scopes that the text of a map has, if there are some with ranges. If they are faulty, the map is used without them, and a
/// warning reports that, unless it `is_told` already.
fn scopes_in(rt: &HostRuntime, name: &str, text: &str, is_told: bool) -> Outcome<Option<Scopes>> {
    if !text.contains(KEY) {
        return Ok(None);
    }
    match read_scopes(rt.alloc(), json_in(text)) {
        Ok(scopes) if scopes.range_count() > 0 => Ok(Some(scopes)),
        Ok(_) => Ok(None),
        Err(ScopesError::OutOfMemory) => Err(Failure::Memory),
        Err(error) => {
            if !is_told {
                let why = format!(in rt.alloc(); "{error}, so the map is used without scopes")?;
                warn(rt, name, why.as_str());
            }
            Ok(None)
        }
    }
}

/// The scopes of the map in a file, of which a compiled map was made.
fn scopes_behind(rt: &HostRuntime, path: &str, is_told: bool) -> Outcome<Option<Scopes>> {
    match read_text(rt, path) {
        Ok(text) => scopes_in(rt, path, text.as_str(), is_told),
        Err(Failure::Told(why)) => {
            if !is_told {
                let why = format!(in rt.alloc(); "{why}: no scopes are read")?;
                tell(rt, why.as_str());
            }
            Ok(None)
        }
        Err(failure) => Err(failure),
    }
}

/// The scopes of a map; of a compiled one, which has none, those of the map beside it. Warns of what is wrong with them unless it
/// `is_told` already.
pub fn scopes_of_map(rt: &HostRuntime, map: &MapText, is_told: bool) -> Outcome<Option<Scopes>> {
    match (&map.written, map.behind.as_deref()) {
        (Written::Text(text), _) => scopes_in(rt, map.name.as_str(), text.as_str(), is_told),
        (Written::Compiled(_), Some(path)) => scopes_behind(rt, path, is_told),
        (Written::Compiled(_), None) => Ok(None),
    }
}

/// Warns that the scopes of a map are left out, if its text has some.
fn tell_left_out(rt: &HostRuntime, map: &MapText) -> Outcome<()> {
    if let Written::Text(text) = &map.written
        && text.contains(KEY)
        && has_member(rt.alloc(), text.as_str(), KEY)?
    {
        warn(
            rt,
            map.name.as_str(),
            "scopes are left out: what is written has none",
        );
    }
    Ok(())
}

/// Reads a map of which another one is made, without its scopes. Warns that they are left out.
pub fn read_without_scopes(rt: &HostRuntime, map: &MapText) -> Outcome<SourceMapParts<'static>> {
    let parts = read_map(rt, map)?;
    tell_left_out(rt, map)?;
    Ok(parts)
}
