//! Contents of sources that are apart from a compiled map, in another one that has sources and contents alone.
ghost use Rattle.std.specs.Prelude.{◌≡◌, IfOk, IfErr};
ghost use Rattle.oxc_sourcemap_parts.specs.Words.{cow_texts, record_of_parts, texts_of};
ghost use Rattle.sourcemap_files.specs.Contents.{contents_alone, without_contents};

use crate::compiled::{
    COMPILE_AGAIN, COMPILED_END, Decompiled, compiled_of, decompile, is_of_same_text,
};
use crate::finding::{Places, is_in_root};
use crate::input::{is_regular, read_bytes, read_text, tell, warn};
use crate::paths::{folder_of, is_inside};
use crate::sections::are_same;
use oxc_sourcemap_parts::{SourceMapParts, owned_text};
use sourcemap_words::{Failure, Outcome};
use std::alloc::Global;
use std::borrow::CowStr;
use std::mem;

/// The suffix of a file with the contents of a map, behind the name of the map.
pub const CONTENTS_END: &str = ".contents.smc";

/// Copies of texts.
pub fn copies_of(alloc: Global, texts: &[CowStr<'static>]) -> Outcome<Vec<CowStr<'static>>>
    ensures { IfOk result (λ copies. texts_of copies ≡ cow_texts texts.now) }
{
    let mut copies = Vec::with_capacity(alloc, texts.len())?;
    for text in texts {
        copies.push(owned_text(alloc, text.as_str())?)?;
    }
    Ok(copies)
}

/// Takes the contents out of a map: the sources with them, and nothing else. After an error the map is as it was.
pub fn take_contents(
    alloc: Global,
    parts: &mut SourceMapParts<'static>,
) -> Outcome<SourceMapParts<'static>>
    ensures left { IfOk result (λ apart. record_of_parts parts.new
        ≡ without_contents (record_of_parts parts.old)) }
    ensures apart { IfOk result (λ apart. record_of_parts apart
        ≡ contents_alone (record_of_parts parts.old)) }
    ensures kept { IfErr result (λ e. record_of_parts parts.new ≡ record_of_parts parts.old) }
{
    let mut apart = SourceMapParts::empty(alloc)?;
    apart.sources = copies_of(alloc, parts.sources.as_slice())?;
    apart.source_contents = mem::replace(&mut parts.source_contents, Vec::new(alloc));
    Ok(apart)
}

/// Whether bytes are what a map is compiled to: with its contents or without them, or, apart, they alone. `name` is for messages.
pub fn is_made_of(
    alloc: Global,
    name: &str,
    parts: SourceMapParts<'static>,
    text: &str,
    bytes: &[u8],
    is_apart: bool,
) -> Outcome<bool> {
    let mut parts = parts;
    if !is_apart && compiled_of(alloc, name, &parts, text)?.as_slice() == bytes {
        return Ok(true);
    }
    let apart = take_contents(alloc, &mut parts)?;
    let other = if is_apart { apart } else { parts };
    Ok(compiled_of(alloc, name, &other, text)?.as_slice() == bytes)
}

/// Whether a map has sources, and the content of none.
fn lacks_contents(parts: &SourceMapParts<'_>) -> bool {
    !parts.sources.is_empty()
        && parts
            .source_contents
            .iter()
            .all(|content| content.is_none())
}

/// The bytes of the file with the contents of the compiled map in the file `path`; None if there is no such file. If it cannot be read
/// or leads out of the folder, warns and returns None.
fn read_apart(rt: &HostRuntime, apart: &str, path: &str) -> Outcome<Option<Vec<u8>>> {
    if !is_regular(rt, apart) {
        return Ok(None);
    }
    if !is_inside(rt, apart, folder_of(path)) {
        warn(rt, apart, "leads out of its folder, so it is not read");
        return Ok(None);
    }
    match read_bytes(rt, apart) {
        Ok(bytes) => Ok(Some(bytes)),
        Err(Failure::Told(why)) => {
            tell(rt, why.as_str());
            Ok(None)
        }
        Err(failure) => Err(failure),
    }
}

/// The map in a file with the contents of the compiled map in the file `path`, whose bytes and sources are these; None if there is no
/// such file. A warning says why a file is not used.
fn read_contents(
    rt: &HostRuntime,
    path: &str,
    bytes: &[u8],
    sources: &[CowStr<'static>],
) -> Outcome<Option<SourceMapParts<'static>>> {
    let alloc = rt.alloc();
    let name = path.strip_suffix(COMPILED_END).unwrap_or(path);
    let apart = format!(in alloc; "{name}{CONTENTS_END}")?;
    let apart = apart.as_str();
    let Some(found) = read_apart(rt, apart, path)? else {
        return Ok(None);
    };
    let why = match decompile(alloc, found.as_slice())? {
        Decompiled::Map(parts) => {
            if is_of_same_text(bytes, found.as_slice())
                && are_same(sources, parts.sources.as_slice())
            {
                return Ok(Some(parts));
            }
            format!(in alloc; "is of another map than {path}")?
        }
        Decompiled::Wrong(why) => {
            let why = why.as_str();
            String::from_str(alloc, why.strip_suffix(COMPILE_AGAIN).unwrap_or(why))?
        }
    };
    let why = format!(in alloc; "{why}, so it is not read: compile the map again")?;
    warn(rt, apart, why.as_str());
    Ok(None)
}

/// Puts the contents that are apart from the compiled map in the file `path`, whose bytes are these, into its parts, and changes nothing
/// else.
pub fn put_contents(
    rt: &HostRuntime,
    path: &str,
    bytes: &[u8],
    parts: &mut SourceMapParts<'static>,
) -> Outcome<()>
    ensures { without_contents (record_of_parts parts.new)
        ≡ without_contents (record_of_parts parts.old) }
{
    if lacks_contents(parts)
        && let Some(apart) = read_contents(rt, path, bytes, parts.sources.as_slice())?
    {
        parts.source_contents = apart.source_contents;
    }
    Ok(())
}

/// The content of a source in its file, if that is in the root and can be read.
pub fn content_on_disk(
    rt: &HostRuntime,
    path: &str,
    places: Places<'_>,
) -> Outcome<Option<String>> {
    if !is_regular(rt, path) || !is_in_root(rt, path, places) {
        return Ok(None);
    }
    match read_text(rt, path) {
        Ok(content) => Ok(Some(content)),
        Err(Failure::Told(why)) => {
            tell(rt, why.as_str());
            Ok(None)
        }
        Err(failure) => Err(failure),
    }
}
