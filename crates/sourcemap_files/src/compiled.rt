//! Compiled maps: bytes made of a map, which have the length and the SHA-256 of the text of that map.
ghost use Rattle.std.specs.Prelude.{◌≡◌, ◌↔◌, IsTrue, IfOk, IfSome, Some, length};
ghost use Rattle.oxc_sourcemap_parts.specs.Words.{record_of_parts, IsSound};
ghost use Rattle.oxc_sourcemap_compiled.specs.Words.{AreBytesOf, checked_map, compiled_in};
ghost use Rattle.sha2.specs.Sha256.{sha256};

use crate::input::{read_bytes, read_text, tell, text_in, warn};
use oxc_sourcemap_compiled::{CompiledMap, compile};
use oxc_sourcemap_parts::{SourceMapParts, are_sound, owned_parts};
use oxc_sourcemap_tokens::{Error, PlanError};
use sha2::{Digest, Sha256};
use sourcemap_words::{Failure, Outcome, failure_of};
use std::alloc::Global;
use std::fs;
use std::fs::Metadata;

/// The suffix of a compiled map, behind the name of its map.
pub const COMPILED_END: &str = ".smc";

/// The compiled map of these parts, with the length and the SHA-256 of the text that they were read from. `name` is for messages.
pub fn compiled_of(
    alloc: Global,
    name: &str,
    parts: &SourceMapParts<'_>,
    text: &str,
) -> Outcome<Vec<u8>>
    ensures { IfOk result (λ bytes. AreBytesOf (record_of_parts parts.now) (length text.now)
        (sha256 text.now) bytes.items) }
{
    let stamp = Sha256::digest(text.as_bytes());
    match compile(alloc, parts, text.len() as u64, &stamp) {
        Ok(bytes) => Ok(bytes),
        Err(PlanError::Map(Error::OutOfMemory)) => Err(Failure::Memory),
        Err(error) => Err(failure_of(alloc, name, error)),
    }
}

/// Whether a compiled map was made of this text, by the length and the SHA-256 that it has.
fn is_of_text(map: &CompiledMap<'_>, text: &str) -> bool
    ensures { IsTrue result ↔ (((compiled_in map.now).text_length ≡ length text.now)
        × ((compiled_in map.now).stamp ≡ sha256 text.now)) }
{
    let stamp = Sha256::digest(text.as_bytes());
    map.text_length() == text.len() as u64 && map.stamp() == stamp.as_slice()
}

/// Whether bytes are a compiled map that was made of another text than this one.
pub fn is_stale(bytes: &[u8], text: &str) -> bool {
    match CompiledMap::open(bytes) {
        Ok(map) => !is_of_text(&map, text),
        Err(_) => false,
    }
}

/// Whether two compiled maps were made of one text, by the lengths and stamps that they have; false if one is no compiled map.
pub fn is_of_same_text(a: &[u8], b: &[u8]) -> bool {
    match (CompiledMap::open(a), CompiledMap::open(b)) {
        (Ok(a), Ok(b)) => a.text_length() == b.text_length() && a.stamp() == b.stamp(),
        _ => false,
    }
}

/// Whether a file was last written no earlier than another one; false if the system does not report that.
fn is_no_older(a: &Metadata, b: &Metadata) -> bool {
    match (a.modified(), b.modified()) {
        (Ok(a), Ok(b)) => a.duration_since(b).is_ok(),
        _ => false,
    }
}

/// Whether the compiled map in this file is that of a map: it was made of a text of the same length, and is no older, or has the SHA-256
/// of the text.
fn is_fresh(rt: &HostRuntime, path: &str, map: &CompiledMap<'_>, of: &str) -> Outcome<bool> {
    let (Ok(own), Ok(other)) = (fs::metadata(rt, path), fs::metadata(rt, of)) else {
        return Ok(false);
    };
    if map.text_length() != other.len() {
        return Ok(false);
    }
    Ok(is_no_older(&own, &other) || is_of_text(map, read_text(rt, of)?.as_str()))
}

/// Whether bytes in the file `path` are the compiled map of the map in the file `of`. Warns if they are no compiled map, or stale.
fn is_taken(rt: &HostRuntime, path: &str, bytes: &[u8], of: &str) -> Outcome<bool> {
    match CompiledMap::open(bytes) {
        Ok(map) => {
            let is_fresh = is_fresh(rt, path, &map, of)?;
            if !is_fresh {
                warn(
                    rt,
                    path,
                    "is out of date, so its map is read: compile it again",
                );
            }
            Ok(is_fresh)
        }
        Err(error) => {
            let why = format!(in rt.alloc(); "{error}, so its map is read")?;
            warn(rt, path, why.as_str());
            Ok(false)
        }
    }
}

/// The bytes of the compiled map in the file `path`, if it is that of the map in the file `of`. A warning says why it
/// is not used.
pub fn read_fresh(rt: &HostRuntime, path: &str, of: &str) -> Outcome<Option<Vec<u8>>> {
    let bytes = match read_bytes(rt, path) {
        Ok(bytes) => bytes,
        Err(Failure::Told(why)) => {
            tell(rt, why.as_str());
            return Ok(None);
        }
        Err(failure) => return Err(failure),
    };
    if is_taken(rt, path, bytes.as_slice(), of)? {
        return Ok(Some(bytes));
    }
    Ok(None)
}

/// The content of a file that has a map.
#[derive(Drop)]
pub enum Written {
    /// The text of a map, or of a code.
    Text(String),
    /// A compiled map.
    Compiled(Vec<u8>),
}

/// Whether a file is a compiled map: by its name, or by the first bytes of one, in which no text has a NUL.
fn is_compiled(path: &str, bytes: &[u8]) -> bool {
    path.ends_with(COMPILED_END) || bytes.starts_with(b"smap") && bytes.get(7) == Some(&0)
}

/// What a file holds, or standard input for `-`.
pub fn read_written(rt: &HostRuntime, path: &str) -> Outcome<Written> {
    let bytes = read_bytes(rt, path)?;
    if is_compiled(path, bytes.as_slice()) {
        return Ok(Written::Compiled(bytes));
    }
    Ok(Written::Text(text_in(rt.alloc(), path, bytes)?))
}

/// What to do about a compiled map that is damaged.
pub const COMPILE_AGAIN: &str = ": compile its map again";

/// What the bytes of a compiled map are.
#[derive(Drop)]
pub enum Decompiled {
    Map(SourceMapParts<'static>),
    /// No map, and why.
    Wrong(String),
}

/// The parts of a compiled map; None if they are not sound, as those of each map are that is found.
fn sound_parts(alloc: Global, map: &CompiledMap<'_>) -> Outcome<Option<SourceMapParts<'static>>>
    ensures sound { IfOk result (λ parts. IfSome parts (λ parts. IsSound (record_of_parts parts))) }
    ensures map { IfOk result (λ parts. IfSome parts (λ parts.
        checked_map (compiled_in map.now).content ≡ Some (record_of_parts parts))) }
{
    if let Some(parts) = map.decompile(alloc)?
        && are_sound(&parts)
    {
        return Ok(Some(owned_parts(alloc, parts)?));
    }
    Ok(None)
}

/// What the bytes of a compiled map are: a map, or what is wrong with them.
pub fn decompile(alloc: Global, bytes: &[u8]) -> Outcome<Decompiled> {
    let map = match CompiledMap::open(bytes) {
        Ok(map) => map,
        Err(error) => return Ok(Decompiled::Wrong(format!(in alloc; "{error}")?)),
    };
    Ok(match sound_parts(alloc, &map)? {
        Some(parts) => Decompiled::Map(parts),
        None => Decompiled::Wrong(format!(in alloc; "is damaged{COMPILE_AGAIN}")?),
    })
}
