//! Reading maps as `trace` and `resolve` use them.
use oxc_sourcemap_parts::{SourceMapParts, apply_root};
use sourcemap_files::{Asked, MapText, followed, read_map, read_map_alone};
use sourcemap_words::Outcome;

/// Reads a map, its root applied, and, if that is asked for, traced through the maps of its sources. Returns whether there were any.
pub fn read_parts(
    asked: &Asked<'_, '_>,
    text: &MapText,
) -> Outcome<(SourceMapParts<'static>, bool)> {
    let rt = asked.rt;
    let mut parts = if asked.number("context").is_some() {
        read_map(rt, text)?
    } else {
        read_map_alone(rt, text)?
    };
    apply_root(rt.alloc(), &mut parts)?;
    if !asked.has("follow") {
        return Ok((parts, false));
    }
    let (parts, count) = followed(rt, asked.places(), text, parts)?;
    Ok((parts, count > 0))
}
