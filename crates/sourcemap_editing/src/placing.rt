//! The files of sources below a folder, as `extract` writes them and `embed` finds them again.
use sourcemap_files::plain_path;
use sourcemap_texts::{Placed, is_url, place_below};
use sourcemap_words::Outcome;
use std::alloc::Global;

/// The host of a URL, and the path behind it; None if it has no host.
fn host_of(source: &str) -> Option<(&str, &str)> {
    if !is_url(source) {
        return None;
    }
    let (_, behind) = source.split_once(':')?;
    let (host, path) = behind.strip_prefix("//")?.split_once('/')?;
    if host.is_empty() {
        return None;
    }
    Some((host, path))
}

/// A path without the parts `..` that it begins with.
fn below_root(path: &str) -> &str {
    let mut rest = path;
    for _ in 0..path.len() {
        match rest.strip_prefix("../") {
            Some(behind) => rest = behind,
            None => break,
        }
    }
    rest
}

/// Where a source is put below a folder, as `place_below` does; but no `..` in the URL of a host leads above the root of the host.
pub fn place_of_source(alloc: Global, source: &str) -> Outcome<Option<Placed>> {
    let Some((host, path)) = host_of(source) else {
        return Ok(place_below(alloc, source)?);
    };
    let plain = plain_path(alloc, "", path.trim_start_matches('/'))?;
    let rest = below_root(plain.as_str());
    if rest.len() == plain.len() {
        return Ok(place_below(alloc, source)?);
    }
    let placed = place_below(alloc, format!(in alloc; "{host}/{rest}")?.as_str())?;
    Ok(placed.map(|placed| placed.moved()))
}
