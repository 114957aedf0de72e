//! The join of owned maps that are all there, and room for joins.
ghost use Rattle.std.specs.Prelude.{◌≡◌, ◌⊎◌, IfSome, IfOk, IfErr};
ghost use Rattle.oxc_sourcemap_join.specs.Words.{OutOfMemory, TooLarge, ChunksFit, joined};
ghost use Rattle.oxc_sourcemap_join.specs.Words.{nothing_joined, IsWithinLimits, OnlyMemory};
ghost use Rattle.oxc_sourcemap_join.specs.Words.{record_of_parts, owned_records};

use crate::joined_parts::JoinedParts;
use crate::lists::Lengths;
use oxc_sourcemap_parts::SourceMapParts;
use oxc_sourcemap_tokens::{Position, Result};
use std::alloc::Global;

/// The lengths of maps with those of one map more added. A sum too large for `usize` is its largest value: it is only asked
/// for as room.
pub fn with_lengths(lengths: Lengths, parts: &SourceMapParts<'_>) -> Lengths {
    Lengths {
        names: lengths.names.saturating_add(parts.names.len()),
        sources: lengths.sources.saturating_add(parts.sources.len()),
        tokens: lengths.tokens.saturating_add(parts.tokens.len()),
    }
}

/// The join of no maps, with room for maps of these lengths, and for this many chunks. Fails only with `OutOfMemory`.
pub fn with_room<'a>(alloc: Global, lengths: Lengths, chunks: usize) -> Result<JoinedParts<'a>>
    ensures parts { IfOk result (λ parts. parts ≡ nothing_joined) }
    ensures error { OnlyMemory result }
{
    JoinedParts::with_capacity(
        alloc,
        lengths.names,
        lengths.sources,
        lengths.tokens,
        chunks,
    )
}

/// The lengths of owned maps, summed.
fn owned_lengths(maps: &[(SourceMapParts<'_>, Position)]) -> Lengths {
    let mut lengths = Lengths::default();
    for (parts, _) in maps {
        lengths = with_lengths(lengths, parts);
    }
    lengths
}

/// The join of maps, each at the position where its code begins, without their source roots (`apply_root`, called before, keeps
/// them). Their strings are moved.
///
/// Room is taken first for all of them (`OutOfMemory`); then the first error of an add is returned. All maps are then
/// dropped.
pub fn join_owned_parts<'a>(
    alloc: Global,
    maps: Vec<(SourceMapParts<'a>, Position)>,
) -> Result<SourceMapParts<'a>>
    ensures joined { IfOk result (λ parts. record_of_parts parts
        ≡ joined (owned_records maps.entry.items)) }
    ensures fits { IfOk result (λ parts. IfSome (record_of_parts parts).token_chunks
        (ChunksFit (record_of_parts parts).tokens)) }
    ensures limits { IfOk result (λ parts. IsWithinLimits (record_of_parts parts)) }
    ensures error { IfErr result (λ e. (e ≡ OutOfMemory)
        ⊎ ((e ≡ TooLarge) × ¬ (IsWithinLimits (joined (owned_records maps.entry.items))))) }
{
    let mut joined = with_room(alloc, owned_lengths(maps.as_slice()), maps.len())?;
    for (parts, position) in maps {
        joined.add_moved(parts, position)?;
    }
    Ok(joined.into_parts())
}
