//! A map in which positions are traced.
ghost use Rattle.std.specs.Prelude.{◌≡◌, ◌≢◌, false, slice_get, map, IfOk, IfErr};
ghost use Rattle.std.specs.Option.{option_and_then};
ghost use Rattle.sourcemap_run.specs.Words.{Map, OutOfMemory, Unsorted, are_tokens_sorted};
ghost use Rattle.sourcemap_run.specs.Words.{token_by, pointed, map_answer, seen, original_in};
ghost use Rattle.sourcemap_run.specs.Words.{content_at, lent_item, lent_original, name_of};
ghost use Rattle.sourcemap_run.specs.Words.{cow_texts, text_of, record_of_parts};

use oxc_sourcemap_lookup::{Bias, LineIndex, Traced};
use oxc_sourcemap_parts::{SourceMapParts, are_sorted};
use oxc_sourcemap_tokens::{PlanError, Position, Token};
use std::alloc::Global;
use std::borrow::CowStr;
use std::marker::Model;

/// What a generated position comes from: a line and a column of a source, from 0, and a name.
#[derive(Clone, Copy)]
pub struct Spot<'m> {
    pub source: &'m str,
    pub line: u32,
    pub column: u32,
    pub name: Option<&'m str>,
    /// The content of the source, if the map has it.
    pub content: Option<&'m str>,
}

/// A map's answer for a generated position.
#[derive(Clone, Copy)]
pub enum Answer<'m> {
    /// There is no token for it.
    Nothing,
    /// Its token points to no source.
    Unmapped,
    At(Spot<'m>),
}

/// A map whose tokens are sorted, with an index of its lines.
#[derive(Drop)]
pub struct Tracer {
    parts: SourceMapParts<'static>,
    index: LineIndex,
}

impl Model for Tracer {
    ghost use Rattle.std.specs.Box.{boxed_slice_items};
    ghost use Rattle.oxc_sourcemap_parts.specs.Record.{MapRecord};
    ghost use Rattle.oxc_sourcemap_parts.specs.Views.{record_of_parts};
    ghost use Rattle.sourcemap_run.specs.Indices.{IsIndexed};

    ghost Value = { MapRecord };

    ghost view = { λ t. record_of_parts t.parts };

    ghost invariant = { λ t. IsIndexed (boxed_slice_items t.parts.tokens) t.index };
}

/// The text listed at an index. None if there is none.
fn text_at<'t>(texts: &'t [CowStr<'_>], id: u32) -> Option<&'t str>
    ensures { lent_item result ≡ slice_get (cow_texts texts.now) id }
{
    Some(texts.get(id as usize)?.as_str())
}

/// The content listed at an index. None if none is listed, or it is not known.
fn content_at<'t>(contents: &'t [Option<CowStr<'_>>], id: u32) -> Option<&'t str>
    ensures { lent_item result ≡ content_at (map text_of contents.now) id }
{
    contents.get(id as usize)?.as_deref()
}

impl Tracer {
    /// Makes the index of a map. Fails with `Unsorted` if its tokens are not sorted, and with `Map(OutOfMemory)`.
    pub fn new(alloc: Global, parts: SourceMapParts<'static>) -> Result<Tracer, PlanError>
        ensures map { IfOk result (λ tracer. tracer ≡ record_of_parts parts.entry) }
        ensures error { IfErr result (λ e. (e ≢ Map OutOfMemory) → (e ≡ Unsorted)
            × (are_tokens_sorted (record_of_parts parts.entry).tokens ≡ false)) }
    {
        if !are_sorted(parts.tokens.as_slice()) {
            return Err(PlanError::Unsorted);
        }
        let index = LineIndex::new(alloc, parts.tokens.as_slice())?;
        Ok(Tracer { parts, index })
    }

    /// The parts of the map.
    pub fn parts(&self) -> &SourceMapParts<'static>
        ensures { record_of_parts result.now ≡ self.now }
    {
        &self.parts
    }

    /// The tokens of the map.
    fn tokens(&self) -> &[Token]
        ensures tokens { result.now ≡ self.now.tokens }
    {
        self.parts.tokens.as_slice()
    }

    /// The token that answers for a position.
    pub fn token(&self, position: Position, bias: Bias) -> Option<Token>
        ensures { result ≡ token_by bias self.now.tokens position.line position.column }
    {
        Traced::new(self.tokens(), &self.index).token(position, bias)
    }

    /// The source of a token. None if it has no source id, or one out of range.
    fn source(&self, token: &Token) -> Option<&str>
        ensures { lent_item result ≡ option_and_then (slice_get self.now.sources)
            token.now.source_id }
    {
        text_at(self.parts.sources.as_slice(), token.get_source_id()?)
    }

    /// The name of a token. None if it has no name id, or one out of range.
    fn name(&self, token: &Token) -> Option<&str>
        ensures { lent_item result ≡ name_of self.now.names token.now }
    {
        text_at(self.parts.names.as_slice(), token.get_name_id()?)
    }

    /// The content of the source of a token, if the map has it.
    fn content(&self, token: &Token) -> Option<&str>
        ensures { lent_item result ≡ option_and_then (content_at self.now.source_contents)
            token.now.source_id }
    {
        let contents = self.parts.source_contents.as_slice();
        content_at(contents, token.get_source_id()?)
    }

    /// What a token of the map points to.
    fn spot(&self, token: &Token) -> Option<Spot<'_>>
        ensures { lent_original result ≡ original_in self.now token.now }
    {
        match self.source(token) {
            Some(source) => Some(Spot {
                source,
                line: token.get_src_line(),
                column: token.get_src_col(),
                name: self.name(token),
                content: self.content(token),
            }),
            None => None,
        }
    }

    /// What the token that answers for a position points to.
    fn answer_by(&self, position: Position, bias: Bias) -> Answer<'_>
        ensures { seen result ≡ pointed bias self.now position.line position.column }
    {
        let Some(token) = self.token(position, bias) else {
            return Answer::Nothing;
        };
        match self.spot(&token) {
            Some(spot) => Answer::At(spot),
            None => Answer::Unmapped,
        }
    }

    /// The map's answer for a position: the result of its trace there, for `Clamped` that of the clamped one.
    pub fn answer(&self, position: Position, bias: Bias) -> Answer<'_>
        ensures { seen result ≡ map_answer bias self.now position.line position.column }
    {
        self.answer_by(position, bias)
    }
}
