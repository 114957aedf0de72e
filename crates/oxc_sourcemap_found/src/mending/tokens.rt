//! The tokens of a map as they are found: those whose ids are out of range, and those out of order.
ghost use Rattle.std.specs.Prelude.{◌≡◌, ◌++◌, ◌==◌, ◌∷◌, [], map, count_by, IfOk, OnOk};
ghost use Rattle.std.specs.Prelude.{if◌then◌else◌};
ghost use Rattle.std.specs.Box.{boxed_slice_items};
ghost use Rattle.oxc_sourcemap_found.specs.Words.{record_of_parts, is_past, has_bad_source};
ghost use Rattle.oxc_sourcemap_found.specs.Words.{has_bad_name, token_in_range, map_in_range};
ghost use Rattle.oxc_sourcemap_found.specs.Words.{source_kinds, name_kinds, order_mends};
ghost use Rattle.oxc_sourcemap_found.specs.Words.{sorted_map};

use crate::mending::mend::{Mend, MendKind};
use oxc_sourcemap_parts::{SourceMapParts, are_sorted};
use oxc_sourcemap_steps::sort_parts;
use oxc_sourcemap_tokens::{Memory, Token};
use std::alloc::Global;

/// Whether an id is not below a count.
fn is_past(count: usize, id: Option<u32>) -> bool
    ensures { result ≡ is_past count id }
{
    match id {
        Some(id) => id as usize >= count,
        None => false,
    }
}

/// The numbers of names and sources of a map.
#[derive(Clone, Copy)]
struct Counts {
    names: usize,
    sources: usize,
}

impl Counts {
    /// Whether the source id of a token is out of range.
    fn has_bad_source(self, token: Token) -> bool
        ensures { result ≡ has_bad_source self.sources token }
    {
        is_past(self.sources, token.get_source_id())
    }

    /// Whether the name id of a token is out of range, and its source id is not.
    fn has_bad_name(self, token: Token) -> bool
        ensures { result ≡ has_bad_name self.names self.sources token }
    {
        !self.has_bad_source(token) && is_past(self.names, token.get_name_id())
    }

    /// A token as it is read.
    fn token_in_range(self, token: Token) -> Token
        ensures { result ≡ token_in_range self.names self.sources token }
    {
        let (line, column) = (token.get_dst_line(), token.get_dst_col());
        if self.has_bad_source(token) {
            return Token::new(line, column, 0, 0, None, None);
        }
        if !is_past(self.names, token.get_name_id()) {
            return token;
        }
        let (src_line, src_col) = (token.get_src_line(), token.get_src_col());
        Token::new(line, column, src_line, src_col, token.get_source_id(), None)
    }

    /// How many of these tokens have a source id out of range.
    fn bad_sources(self, tokens: &[Token]) -> usize
        ensures { result ≡ count_by (has_bad_source self.sources) tokens.now }
    {
        tokens
            .iter()
            .filter(|token| self.has_bad_source(**token))
            .count()
    }

    /// How many of these tokens have a name id out of range, and no such source id.
    fn bad_names(self, tokens: &[Token]) -> usize
        ensures { result ≡ count_by (has_bad_name self.names self.sources) tokens.now }
    {
        tokens
            .iter()
            .filter(|token| self.has_bad_name(**token))
            .count()
    }

    /// These tokens as they are read.
    fn tokens_in_range(self, alloc: Global, tokens: &[Token]) -> Memory<Vec<Token>>
        ensures { IfOk result (λ v. v.items
            ≡ map (token_in_range self.names self.sources) tokens.now) }
    {
        let mut read = Vec::with_capacity(alloc, tokens.len())?;
        for token in tokens {
            read.push(self.token_in_range(*token))?;
        }
        Ok(read)
    }
}

/// Tells of what was mended so often, if it was.
fn push_count(kinds: &mut Vec<MendKind>, count: usize, kind: MendKind) -> Memory<()>
    ensures { OnOk result (kinds.new.items
        ≡ kinds.old.items ++ (if count == 0 then [] else kind ∷ [])) }
{
    if count > 0 {
        kinds.push(kind)?;
    }
    Ok(())
}

/// Makes the ids of tokens ids in range, and reports how many were not.
pub(crate) fn mend_ids(
    alloc: Global,
    kinds: &mut Vec<MendKind>,
    parts: &mut SourceMapParts<'_>,
) -> Memory<()>
    ensures parts { OnOk result (record_of_parts parts.new
        ≡ map_in_range (record_of_parts parts.old)) }
    ensures kinds { OnOk result (kinds.new.items
        ≡ kinds.old.items ++ source_kinds (record_of_parts parts.old)
        ++ name_kinds (record_of_parts parts.old)) }
{
    let counts = Counts {
        names: parts.names.len(),
        sources: parts.sources.len(),
    };
    let sources = counts.bad_sources(parts.tokens.as_slice());
    let names = counts.bad_names(parts.tokens.as_slice());
    if sources == 0 && names == 0 {
        return Ok(());
    }
    push_count(kinds, sources, MendKind::SourceIds(sources))?;
    push_count(kinds, names, MendKind::NameIds(names))?;
    let tokens = counts.tokens_in_range(alloc, parts.tokens.as_slice())?;
    parts.tokens = tokens.into_boxed_slice();
    Ok(())
}

/// Sorts tokens that are not sorted, and reports it.
pub(crate) fn mend_order(
    alloc: Global,
    mends: &mut Vec<Mend>,
    parts: &mut SourceMapParts<'_>,
) -> Memory<()>
    ensures parts { OnOk result (record_of_parts parts.new
        ≡ sorted_map (record_of_parts parts.old)) }
    ensures mends { OnOk result (mends.new.items
        ≡ mends.old.items ++ order_mends (boxed_slice_items parts.old.tokens)) }
{
    if are_sorted(parts.tokens.as_slice()) {
        return Ok(());
    }
    mends.push(Mend {
        section: None,
        kind: MendKind::Unsorted,
    })?;
    sort_parts(alloc, parts)
}
