//! Moves the texts of maps from one folder to another: the paths of sources change, and nothing else does.
use crate::editing::{is_data_url, refusal};
use oxc_sourcemap_parts::SourceMapParts;
use sourcemap_files::{current_folder, parts_in};
use sourcemap_run::{Change, changed, push_entries, push_value};
use sourcemap_texts::{Piece, maps_in, relative_path};
use sourcemap_words::Outcome;
use std::alloc::Global;

/// Two folders, each empty or with a slash at its end, and the current one.
#[derive(Clone, Copy)]
struct Way<'a> {
    current: &'a str,
    from: &'a str,
    to: &'a str,
}

/// A path of the one folder in the other; None if it stays.
fn moved_path(alloc: Global, way: Way<'_>, path: &str) -> Outcome<Option<String>> {
    let moved = relative_path(alloc, way.current, way.from, way.to, path)?;
    Ok(if moved.as_str() == path {
        None
    } else {
        Some(moved)
    })
}

/// Those of sources that have no root.
fn moved_sources(
    alloc: Global,
    way: Way<'_>,
    parts: &SourceMapParts<'_>,
) -> Outcome<Vec<Option<String>>> {
    let mut paths = Vec::new(alloc);
    for source in &parts.sources {
        let path = moved_path(alloc, way, source.as_str())?;
        paths.push(path)?;
    }
    Ok(paths)
}

/// Appends the changes that move the sources of a map: of its root, or, if it has none, of each. Returns whether its text has what is to
/// change.
fn push_moved(
    alloc: Global,
    way: Way<'_>,
    map: Piece<'_>,
    parts: &SourceMapParts<'_>,
    changes: &mut Vec<Change>,
) -> Outcome<bool> {
    let root = parts.source_root.as_ref().map_or("", |root| root.as_str());
    if !root.is_empty() {
        return match moved_path(alloc, way, root)? {
            Some(moved) => Ok(push_value(alloc, map, "\"sourceRoot\"", moved.as_str(), changes)?),
            None => Ok(true),
        };
    }
    let paths = moved_sources(alloc, way, parts)?;
    if paths.iter().all(|path| path.is_none()) {
        return Ok(true);
    }
    Ok(push_entries(alloc, map, "\"sources\"", paths.as_slice(), changes)?)
}

/// The text of a map with sources relative to the folder `from`, with sources relative to the folder `to`. `name` is for messages. Fails
/// for a text that is no map.
pub fn moved_text(
    rt: &HostRuntime,
    name: &str,
    text: &str,
    from: &str,
    to: &str,
) -> Outcome<String> {
    let alloc = rt.alloc();
    parts_in(alloc, name, text)?;
    if from == to {
        return Ok(String::from_str(alloc, text)?);
    }
    let current = current_folder(rt)?;
    let way = Way {
        current: current.as_str(),
        from,
        to,
    };
    let mut changes = Vec::new(alloc);
    let mut is_whole = !is_data_url(text);
    for map in &maps_in(alloc, text)? {
        let parts = parts_in(alloc, name, map.text)?;
        is_whole &= push_moved(alloc, way, *map, &parts, &mut changes)?;
    }
    if let Some(text) = changed(alloc, text, changes.as_slice())?
        && is_whole
    {
        return Ok(text);
    }
    Err(refusal(alloc, name))
}
