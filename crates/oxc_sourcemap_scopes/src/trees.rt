//! Trees of spans: how they grow, and which of their spans contain a place.
ghost use Rattle.std.specs.Prelude.{◌≡◌, ◌<◌, ◌≤◌, length, OnOk, IfSome, Some, None, nat_le};
ghost use Rattle.oxc_sourcemap_scopes.specs.Words.{place_of, started, ended, nothing_grown};
ghost use Rattle.oxc_sourcemap_scopes.specs.Words.{at_next_source, span_at};
ghost use Rattle.oxc_sourcemap_scopes.specs.Words.{AreNested, AreWithin, innermost, start_key, key};

use crate::scopes::{Span, place_of};
use oxc_sourcemap_tokens::{Memory, Position};
use std::alloc::Global;
use std::marker::Model;

/// A tree as it grows.
#[derive(Drop)]
pub(crate) struct Tree {
    spans: Vec<Span>,
    /// The index of the innermost span that has no end yet.
    current: Option<usize>,
    /// How many spans have no end yet.
    depth: usize,
    /// The source of the next span.
    source: u32,
    /// The position that was reached.
    position: Position,
}

impl Model for Tree {
    ghost use Rattle.oxc_sourcemap_scopes.specs.Trees.{Grown, IsGrowing};

    ghost Value = { Grown };

    ghost view = { λ t. record { spans = t.spans.items; current = t.current; depth = t.depth; source = t.source; position = t.position } };

    ghost invariant = { λ t. IsGrowing (record { spans = t.spans.items; current = t.current; depth = t.depth; source = t.source; position = t.position }) };
}

impl Tree {
    pub(crate) fn new(alloc: Global) -> Self
        ensures { result ≡ nothing_grown }
    {
        Self {
            spans: Vec::new(alloc),
            current: None,
            depth: 0,
            source: 0,
            position: Position { line: 0, column: 0 },
        }
    }

    /// The index of the innermost span that has no end yet.
    pub(crate) fn current(&self) -> Option<usize>
        ensures current { result ≡ self.now.current }
        ensures within { IfSome result (λ i. i < length self.now.spans) }
    {
        self.current
    }

    /// How many spans have no end yet.
    pub(crate) fn depth(&self) -> usize
        ensures { result ≡ self.now.depth }
    {
        self.depth
    }

    /// The source of the next span.
    pub(crate) fn source(&self) -> u32
        ensures { result ≡ self.now.source }
    {
        self.source
    }

    /// The position that was reached.
    pub(crate) fn position(&self) -> Position
        ensures { result ≡ self.now.position }
    {
        self.position
    }

    /// Where the span at an index starts.
    pub(crate) fn start_of(&self, index: usize) -> Position
        requires { index < length self.now.spans }
        ensures { result ≡ (span_at self.now.spans index).start }
    {
        self.spans[index].start
    }

    /// How many spans there are.
    pub(crate) fn len(&self) -> usize
        ensures { result ≡ length self.now.spans }
    {
        self.spans.len()
    }

    /// The spans, which are nested.
    pub(crate) fn into_spans(self) -> Vec<Span>
        ensures spans { result.items ≡ self.spans }
        ensures nested { AreNested result.items }
        ensures within { self.current ≡ None → AreWithin result.items }
    {
        self.spans
    }

    /// Goes to the start of the next source. No span is open.
    pub(crate) fn begin_next_source(&mut self)
        requires none { self.old.current ≡ None }
        requires more { self.old.source < 4294967295 }
        ensures { self.new ≡ at_next_source self.old }
    {
        self.source += 1;
        self.position = Position { line: 0, column: 0 };
    }

    /// Begins a span, within the innermost that is open. An `Err` changes nothing.
    pub(crate) fn start(&mut self, here: Position) -> Memory<()>
        requires after { place_of self.old.position ≤ place_of here }
        requires room { self.old.depth < 1024 }
        ensures ok { OnOk result (self.new ≡ started self.old here) }
    {
        let index = self.spans.len();
        self.spans.push(Span {
            source: self.source,
            start: here,
            end: here,
            parent: self.current,
        })?;
        self.current = Some(index);
        self.depth += 1;
        self.position = here;
        Ok(())
    }

    /// Ends the innermost span that is open, which has this index.
    pub(crate) fn end(&mut self, index: usize, here: Position)
        requires current { self.old.current ≡ Some index }
        requires after { place_of self.old.position ≤ place_of here }
        ensures { self.new ≡ ended self.old index here }
    {
        let span = self.spans[index];
        self.spans[index] = Span { end: here, ..span };
        self.current = span.parent;
        self.depth = self.depth.saturating_sub(1);
        self.position = here;
    }
}

/// Whether a span starts at a place of a source, or before it.
fn starts_by(span: &Span, source: u32, place: u64) -> bool
    ensures { result ≡ nat_le (start_key span.now) (key source place) }
{
    let start = place_of(span.start);
    span.source < source || (span.source == source && start <= place)
}

/// The index of the innermost of these spans that contains a place of a source.
pub(crate) fn innermost_at(spans: &[Span], source: u32, place: u64) -> Option<usize>
    requires { AreNested spans.now }
    ensures index { result ≡ innermost spans.now source place }
    ensures within { IfSome result (λ i. i < length spans.now) }
{
    let started = spans.partition_point(|span: &Span| starts_by(span, source, place));
    let mut next = started.checked_sub(1);
    while let Some(index) = next {
        let span = &spans[index];
        if span.source == source && place < place_of(span.end) {
            return Some(index);
        }
        next = span.parent;
    }
    None
}
