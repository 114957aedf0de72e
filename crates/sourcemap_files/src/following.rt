//! Maps traced through the maps of their sources, which are found beside these.
use crate::finding::{Lookup, MapText, Places, map_of_code};
use crate::input::{is_file, read_text, warn};
use crate::paths::{current_folder, is_inside, plain_path, real_name};
use crate::scopes::read_without_scopes;
use oxc_sourcemap_parts::{SourceMapParts, apply_root};
use oxc_sourcemap_steps::remap_owned_parts;
use sourcemap_texts::{is_url, relative_path};
use sourcemap_words::{Outcome, failure_of};
use std::alloc::Global;
use std::borrow::CowStr;

/// The greatest number of maps one above the other.
const DEEPEST: u32 = 256;

/// The maps on the way from the one that is traced, by their real paths: a map that is met again would be its own source.
#[derive(Clone, Copy)]
struct Way<'a> {
    name: &'a str,
    before: Option<&'a Way<'a>>,
}

fn has_been(way: &Way<'_>, name: &str) -> bool {
    let mut at = Some(way);
    for _ in 0..DEEPEST {
        let Some(here) = at else {
            return false;
        };
        if here.name == name {
            return true;
        }
        at = here.before;
    }
    false
}

/// Follows maps, and counts those that are traced through.
#[derive(Drop)]
struct Follower<'a> {
    rt: &'a HostRuntime,
    places: Places<'a>,
    count: u64,
}

/// Makes the sources of a map in the folder `from`, its root applied, relative to the folder `to`.
fn rebase(
    rt: &HostRuntime,
    parts: &mut SourceMapParts<'static>,
    from: &str,
    to: &str,
) -> Outcome<()> {
    if from == to {
        return Ok(());
    }
    let alloc = rt.alloc();
    let current = current_folder(rt)?;
    let mut sources = Vec::new(alloc);
    for source in &parts.sources {
        let path = relative_path(alloc, current.as_str(), from, to, source.as_str())?;
        sources.push(CowStr::Owned(path))?;
    }
    parts.sources = sources;
    Ok(())
}

/// A map traced through inputs.
fn traced(
    alloc: Global,
    parts: SourceMapParts<'static>,
    inputs: Vec<(String, SourceMapParts<'static>)>,
) -> Outcome<SourceMapParts<'static>> {
    let mut paths = Vec::new(alloc);
    let mut maps = Vec::new(alloc);
    for (path, map) in inputs {
        paths.push(path)?;
        maps.push(map)?;
    }
    let mut lent = Vec::new(alloc);
    for (path, map) in paths.iter().zip(maps.into_iter()) {
        lent.push((path.as_str(), map))?;
    }
    Ok(remap_owned_parts(alloc, parts, lent)?)
}

impl<'a> Follower<'a> {
    /// The map of a source, found beside it; None if the source is not there, or has no map.
    fn map_of_source(&self, folder: &str, source: &str) -> Outcome<Option<MapText>> {
        if source.is_empty() || is_url(source) {
            return Ok(None);
        }
        let (rt, places) = (self.rt, self.places);
        let path = plain_path(rt.alloc(), folder, source)?;
        let path = path.as_str();
        if !is_file(rt, path) {
            return Ok(None);
        }
        if !places.outside && !is_inside(rt, path, places.root) && !is_inside(rt, path, folder) {
            warn(
                rt,
                path,
                "is outside of the root, and is not followed: allow it by --outside",
            );
            return Ok(None);
        }
        let text = read_text(rt, path)?;
        match map_of_code(rt, path, text.as_str(), places)? {
            Lookup::Map(map) => Ok(Some(map)),
            Lookup::None(_) => Ok(None),
        }
    }

    /// The map of a source, traced to its own originals, its sources relative to the folder of the outer map.
    #[cycle(follow)]
    fn followed_source(
        &mut self,
        text: &MapText,
        folder: &str,
        way: &Way<'_>,
        depth: u32,
    ) -> Outcome<SourceMapParts<'static>> {
        let rt = self.rt;
        let name = real_name(rt, text.name.as_str())?;
        if has_been(way, name.as_str()) {
            return Err(failure_of(
                rt.alloc(),
                text.name.as_str(),
                "is the map of one of its own sources, a cycle: mend the map, or do without --follow",
            ));
        }
        let Some(depth) = depth.checked_sub(1) else {
            return Err(failure_of(
                rt.alloc(),
                text.name.as_str(),
                "lies above too many maps: do without --follow",
            ));
        };
        self.count = self.count.saturating_add(1);
        let way = Way {
            name: name.as_str(),
            before: Some(way),
        };
        let mut parts = read_without_scopes(rt, text)?;
        apply_root(rt.alloc(), &mut parts)?;
        let mut parts = self.follow(text.folder.as_str(), parts, &way, depth)?;
        rebase(rt, &mut parts, text.folder.as_str(), folder)?;
        Ok(parts)
    }

    /// A map in a folder, its root applied, traced through the maps of its sources, at any depth.
    #[cycle(follow)]
    fn follow(
        &mut self,
        folder: &str,
        parts: SourceMapParts<'static>,
        way: &Way<'_>,
        depth: u32,
    ) -> Outcome<SourceMapParts<'static>> {
        let alloc = self.rt.alloc();
        let mut inputs = Vec::new(alloc);
        for source in &parts.sources {
            let source = source.as_str();
            if let Some(text) = self.map_of_source(folder, source)? {
                let input = self.followed_source(&text, folder, way, depth)?;
                inputs.push((String::from_str(alloc, source)?, input))?;
            }
        }
        if inputs.is_empty() {
            return Ok(parts);
        }
        traced(alloc, parts, inputs)
    }
}

/// A map that was read from this text, its root applied, traced through the maps of its sources, at any depth, and through how many.
/// Its sources are relative to its own folder as before.
pub fn followed(
    rt: &HostRuntime,
    places: Places<'_>,
    text: &MapText,
    parts: SourceMapParts<'static>,
) -> Outcome<(SourceMapParts<'static>, u64)> {
    let name = real_name(rt, text.name.as_str())?;
    let way = Way {
        name: name.as_str(),
        before: None,
    };
    let mut follower = Follower {
        rt,
        places,
        count: 0,
    };
    let parts = follower.follow(text.folder.as_str(), parts, &way, DEEPEST)?;
    Ok((parts, follower.count))
}
