//! What tokens of two maps point to, compared by texts.
ghost use Rattle.std.specs.Prelude.{◌≡◌, ◌≢◌, ◌↔◌, IsTrue, option_map, slice_get, None};
ghost use Rattle.oxc_sourcemap_queries.specs.Words.{lent_item, name_of, record_of_parts};
ghost use Rattle.oxc_sourcemap_queries.specs.Words.{content_at, source_of, source_at, source_with};
ghost use Rattle.oxc_sourcemap_queries.specs.Words.{AreEqualSources, AreShared, is_shared};
ghost use Rattle.oxc_sourcemap_queries.specs.Words.{found_with, original_in};

use oxc_sourcemap_parts::SourceMapParts;
use oxc_sourcemap_tokens::Token;

/// A source: its path or URL as listed, and its content where that is known.
#[derive(Clone, Copy)]
pub(crate) struct Source<'m> {
    path: &'m str,
    content: Option<&'m str>,
}

/// Which sources of two maps are known to be equal, by path and content. Texts of sources can be long, so they are not compared
/// for each token again.
#[derive(Clone, Copy)]
pub(crate) struct EqualSources {
    /// How many sources at the front of both lists are equal, each to the one at its index.
    shared: u32,
    /// The ids of two equal sources, one of each map, that tokens led to; or none, and none.
    first: Option<u32>,
    second: Option<u32>,
}

/// Whether two texts are equal, or both are missing.
fn are_texts_equal(a: Option<&str>, b: Option<&str>) -> bool
    ensures { IsTrue result ↔ (lent_item a.entry ≡ lent_item b.entry) }
{
    match (a, b) {
        (Some(a), Some(b)) => a == b,
        (None, None) => true,
        _ => false,
    }
}

/// The path listed at an index, if there is one.
fn path_at<'m>(parts: &'m SourceMapParts<'_>, id: u32) -> Option<&'m str>
    ensures { lent_item result ≡ slice_get (record_of_parts parts.now).sources id }
{
    Some(parts.sources.get(id as usize)?.as_str())
}

/// The content listed at an index. None if none is listed there, or it is not known.
fn content_at<'m>(parts: &'m SourceMapParts<'_>, id: u32) -> Option<&'m str>
    ensures { lent_item result ≡ content_at (record_of_parts parts.now).source_contents id }
{
    parts.source_contents.get(id as usize)?.as_deref()
}

/// The source listed at an index, if there is one.
fn source_at<'m>(parts: &'m SourceMapParts<'_>, id: u32) -> Option<Source<'m>>
    ensures { option_map source_of result ≡ source_at (record_of_parts parts.now) id }
{
    let path = path_at(parts, id)?;
    Some(Source {
        path,
        content: content_at(parts, id),
    })
}

/// The source with an id. None without an id, or if it is out of range.
fn source_with<'m>(parts: &'m SourceMapParts<'_>, id: Option<u32>) -> Option<Source<'m>>
    ensures { option_map source_of result ≡ source_with (record_of_parts parts.now) id }
{
    source_at(parts, id?)
}

/// Whether two sources are equal by path and content, or both are missing.
fn are_sources_equal(a: Option<Source<'_>>, b: Option<Source<'_>>) -> bool
    ensures { IsTrue result ↔ (option_map source_of a.entry ≡ option_map source_of b.entry) }
{
    match (a, b) {
        (Some(a), Some(b)) => a.path == b.path && are_texts_equal(a.content, b.content),
        (None, None) => true,
        _ => false,
    }
}

/// The name of a token. None if it has no name id, or one out of range.
fn name_of<'m>(parts: &'m SourceMapParts<'_>, token: &Token) -> Option<&'m str>
    ensures { lent_item result ≡ name_of (record_of_parts parts.now).names token.now }
{
    Some(parts.names.get(token.get_name_id()? as usize)?.as_str())
}

/// How many sources at the front of the lists of two maps are equal.
fn count_shared(a: &SourceMapParts<'_>, b: &SourceMapParts<'_>) -> u32
    ensures { AreShared (record_of_parts a.now) (record_of_parts b.now) result }
{
    for id in 0..u32::MAX {
        let source = source_at(a, id);
        if source.is_none() || !are_sources_equal(source, source_at(b, id)) {
            return id;
        }
    }
    u32::MAX
}

/// The sources at the front of both lists that are equal.
pub(crate) fn shared_sources(a: &SourceMapParts<'_>, b: &SourceMapParts<'_>) -> EqualSources
    ensures { AreEqualSources (record_of_parts a.now) (record_of_parts b.now) result }
{
    EqualSources {
        shared: count_shared(a, b),
        first: None,
        second: None,
    }
}

/// Whether two ids are the same one, below a count.
fn is_shared(first: Option<u32>, second: Option<u32>, shared: u32) -> bool
    ensures { result ≡ is_shared first second shared }
{
    match (first, second) {
        (Some(i), Some(j)) => i == j && i < shared,
        _ => false,
    }
}

/// Whether the sources of two tokens are equal, or both are missing. They are compared unless `equal` has their ids.
fn lead_to_equal_sources(
    a: &SourceMapParts<'_>,
    t: &Token,
    b: &SourceMapParts<'_>,
    u: &Token,
    equal: &mut EqualSources,
) -> bool
    requires { AreEqualSources (record_of_parts a.now) (record_of_parts b.now) equal.old }
    ensures same { IsTrue result ↔ (source_with (record_of_parts a.now) t.now.source_id
        ≡ source_with (record_of_parts b.now) u.now.source_id) }
    ensures equal { AreEqualSources (record_of_parts a.now) (record_of_parts b.now) equal.new }
{
    let (first, second) = (t.get_source_id(), u.get_source_id());
    if is_shared(first, second, equal.shared) {
        return true;
    }
    if first == equal.first && second == equal.second {
        return true;
    }
    let are_equal = are_sources_equal(source_with(a, first), source_with(b, second));
    if are_equal {
        equal.first = first;
        equal.second = second;
    }
    are_equal
}

/// Whether two tokens, each of its own map, have the same source line, source column and name.
fn are_alike_within_sources(
    a: &SourceMapParts<'_>,
    t: &Token,
    b: &SourceMapParts<'_>,
    u: &Token,
) -> bool
    ensures { IsTrue result ↔ ((t.now.src_line ≡ u.now.src_line) × (t.now.src_col ≡ u.now.src_col)
        × (name_of (record_of_parts a.now).names t.now
        ≡ name_of (record_of_parts b.now).names u.now)) }
{
    t.get_src_line() == u.get_src_line()
        && t.get_src_col() == u.get_src_col()
        && are_texts_equal(name_of(a, t), name_of(b, u))
}

/// Whether a token has a source in its map.
fn is_in_source(parts: &SourceMapParts<'_>, token: &Token) -> bool
    ensures { IsTrue result ↔ (source_with (record_of_parts parts.now) token.now.source_id ≢ None) }
{
    source_with(parts, token.get_source_id()).is_some()
}

/// Whether two tokens, each of its own map, point to the same: to equal sources, the same line and column and equal names, or
/// both to nothing.
fn point_alike(
    a: &SourceMapParts<'_>,
    t: &Token,
    b: &SourceMapParts<'_>,
    u: &Token,
    equal: &mut EqualSources,
) -> bool
    requires { AreEqualSources (record_of_parts a.now) (record_of_parts b.now) equal.old }
    ensures same { IsTrue result ↔ (original_in (record_of_parts a.now) t.now
        ≡ original_in (record_of_parts b.now) u.now) }
    ensures equal { AreEqualSources (record_of_parts a.now) (record_of_parts b.now) equal.new }
{
    lead_to_equal_sources(a, t, b, u, equal)
        && (!is_in_source(a, t) || are_alike_within_sources(a, t, b, u))
}

/// Whether what a lookup finds in two maps is the same: nothing in both, or tokens that point to the same.
pub(crate) fn is_found_alike(
    a: &SourceMapParts<'_>,
    t: Option<Token>,
    b: &SourceMapParts<'_>,
    u: Option<Token>,
    equal: &mut EqualSources,
) -> bool
    requires { AreEqualSources (record_of_parts a.now) (record_of_parts b.now) equal.old }
    ensures same { IsTrue result ↔ (found_with (record_of_parts a.now) t
        ≡ found_with (record_of_parts b.now) u) }
    ensures equal { AreEqualSources (record_of_parts a.now) (record_of_parts b.now) equal.new }
{
    match (t, u) {
        (Some(t), Some(u)) => point_alike(a, &t, b, &u, equal),
        (None, None) => true,
        _ => false,
    }
}
