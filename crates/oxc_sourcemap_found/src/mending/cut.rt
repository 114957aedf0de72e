//! Sections that reach into the next one are cut where that begins.
ghost use Rattle.std.specs.Prelude.{◌≡◌, ◌++◌, not, map, drop, filter, count_by, option_map, IfOk};
ghost use Rattle.oxc_sourcemap_found.specs.Words.{record_of_parts, owned_records, is_behind};
ghost use Rattle.oxc_sourcemap_found.specs.Words.{reaches_into, cut_map, cut_kinds, cut_maps};
ghost use Rattle.oxc_sourcemap_found.specs.Words.{section_mends, mends_in, mended_view};
ghost use Rattle.oxc_sourcemap_found.specs.Words.{section_view};

use crate::mending::mend::{Mend, MendKind};
use crate::mending::plain::MendedParts;
use crate::mending::sections::Section;
use oxc_sourcemap_parts::SourceMapParts;
use oxc_sourcemap_tokens::{Memory, Position, Token};
use std::alloc::Global;

/// Whether a token of a section at this offset is behind the place where the next one begins.
fn is_behind(next: Position, offset: Position, token: Token) -> bool
    ensures { result ≡ is_behind next offset token }
{
    let line = u64::from(token.get_dst_line()) + u64::from(offset.line);
    let moved = if token.get_dst_line() == 0 {
        offset.column
    } else {
        0
    };
    let column = u64::from(token.get_dst_col()) + u64::from(moved);
    let (next_line, next_column) = (u64::from(next.line), u64::from(next.column));
    !(line < next_line || (line == next_line && column <= next_column))
}

/// Whether the last of these tokens, as listed, is behind that place. The exact reader refuses this, and no other token there.
fn reaches_into(next: Position, offset: Position, tokens: &[Token]) -> bool
    ensures { result ≡ reaches_into next offset tokens.now }
{
    match tokens.last() {
        Some(token) => is_behind(next, offset, *token),
        None => false,
    }
}

/// How many of these tokens are behind that place.
fn count_behind(next: Position, offset: Position, tokens: &[Token]) -> usize
    ensures { result ≡ count_by (is_behind next offset) tokens.now }
{
    tokens
        .iter()
        .filter(|token| is_behind(next, offset, **token))
        .count()
}

/// The others of these tokens.
fn tokens_before(
    alloc: Global,
    next: Position,
    offset: Position,
    tokens: &[Token],
) -> Memory<Vec<Token>>
    ensures { IfOk result (λ kept. kept.items
        ≡ filter (λ t. not (is_behind next offset t)) tokens.now) }
{
    let mut kept = Vec::with_capacity(alloc, tokens.len())?;
    for token in tokens {
        if !is_behind(next, offset, *token) {
            kept.push(*token)?;
        }
    }
    Ok(kept)
}

/// The map of a section, cut where the next one begins if it reaches into that.
fn cut(alloc: Global, next: Option<Position>, section: Section) -> Memory<MendedParts>
    ensures map { IfOk result (λ m. record_of_parts m.parts
        ≡ cut_map next section.place (record_of_parts section.map.parts)) }
    ensures kinds { IfOk result (λ m. m.kinds.items ≡ section.map.kinds.items
        ++ cut_kinds next section.place (record_of_parts section.map.parts)) }
{
    let Section { map, place } = section;
    let Some(next) = next else {
        return Ok(map);
    };
    if !reaches_into(next, place, map.parts.tokens.as_slice()) {
        return Ok(map);
    }
    let MendedParts {
        mut parts,
        mut kinds,
    } = map;
    let count = count_behind(next, place, parts.tokens.as_slice());
    kinds.push(MendKind::Cut(count))?;
    let kept = tokens_before(alloc, next, place, parts.tokens.as_slice())?;
    parts.tokens = kept.into_boxed_slice();
    Ok(MendedParts { parts, kinds })
}

/// What was mended in a section, or outside of sections.
pub(crate) fn mends_in(
    alloc: Global,
    section: Option<usize>,
    kinds: &[MendKind],
) -> Memory<Vec<Mend>>
    ensures { IfOk result (λ mends. mends.items ≡ mends_in section kinds.now) }
{
    let mut mends = Vec::with_capacity(alloc, kinds.len())?;
    for kind in kinds {
        mends.push(Mend {
            section,
            kind: *kind,
        })?;
    }
    Ok(mends)
}

/// Where these sections begin.
fn places_of(alloc: Global, sections: &[Section]) -> Memory<Vec<Position>>
    ensures { IfOk result (λ places. places.items ≡ map (λ s. s.place) sections.now) }
{
    let mut places = Vec::with_capacity(alloc, sections.len())?;
    for section in sections {
        places.push(section.place)?;
    }
    Ok(places)
}

/// These places without the first.
fn behind_first(places: &[Position]) -> &[Position]
    ensures { result.now ≡ drop 1 places.now }
{
    match places.split_first() {
        Some((_, others)) => others,
        None => places,
    }
}

/// The maps of sections, each cut if it reaches into the next one, and what was mended in them.
#[derive(Drop)]
pub(crate) struct CutSections {
    pub(crate) maps: Vec<(SourceMapParts<'static>, Position)>,
    pub(crate) mends: Vec<Mend>,
}

/// Cuts the sections that reach into the next one.
pub(crate) fn cut_sections(alloc: Global, sections: Vec<Section>) -> Memory<CutSections>
    ensures maps { IfOk result (λ cut. owned_records cut.maps.items
        ≡ cut_maps (map section_view sections.items)) }
    ensures mends { IfOk result (λ cut. cut.mends.items
        ≡ section_mends 0 (map section_view sections.items)) }
{
    let places = places_of(alloc, sections.as_slice())?;
    let mut nexts = places.as_slice();
    let mut maps = Vec::with_capacity(alloc, sections.len())?;
    let mut mends = Vec::new(alloc);
    for section in sections {
        nexts = behind_first(nexts);
        let place = section.place;
        let map = cut(alloc, nexts.first().copied(), section)?;
        let mut told = mends_in(alloc, Some(maps.len()), map.kinds.as_slice())?;
        mends.append(&mut told)?;
        maps.push((map.parts, place))?;
    }
    Ok(CutSections { maps, mends })
}
