//! What a handle holds.
ghost use Rattle.oxc_sourcemap_c.specs.Words.{IsIndexed, IsUsualIndexOf, Before};
ghost use Rattle.oxc_sourcemap_c.specs.Words.{IsInLineOrder, are_tokens_sorted, FailsBy};
ghost use Rattle.oxc_sourcemap_c.specs.Words.{IsIndexOf, IsOutOfOrder, index_by};
ghost use Rattle.oxc_sourcemap_c.specs.Words.{IsTraceOf, AreTracesOf, AreFoundIn, OnlyMemory};
ghost use Rattle.oxc_sourcemap_c.specs.Words.{IsSeen, IsSourceOrderOf, NoIndex, Reports};
ghost use Rattle.oxc_sourcemap_c.specs.Words.{index_fault, capped};
ghost use Rattle.std.specs.Prelude.{◌≡◌, ◌<◌, true, false, length, Ok, IfOk, IfErr, OnOk, OnErr};
ghost use Rattle.std.specs.Prelude.{IfSome};

use crate::numbers::call_error::CallError;
use crate::texts::text::{Original, index_or_none};
use oxc_sourcemap_compiled::CompiledMap;
use oxc_sourcemap_found::Mend;
use oxc_sourcemap_lookup::{Bias, LineIndex, Traced, UsualIndex};
use oxc_sourcemap_map::{ConcatSourceMapBuilder, OwnedSourceMap, SourceMapBuilder, SourceOrder};
use oxc_sourcemap_scopes::Scopes;
use oxc_sourcemap_tokens::{Error, Position, Result, Token};
use std::alloc::Global;
use std::marker::Model;
use std::sync::Arc;

/// A map, the index of its lines, or the error of making that, and the order of its tokens by original positions, if it was asked
/// for. It borrows nothing.
#[derive(Drop)]
pub struct LoadedMap {
    pub(crate) map: OwnedSourceMap,
    pub(crate) index: Result<LineIndex>,
    pub(crate) order: Option<SourceOrder>,
}

impl Model for LoadedMap {
    ghost use Rattle.oxc_sourcemap_c.specs.Indices.{Loaded, loaded_of, IsLoaded};

    ghost Value = { Loaded };

    ghost view = { λ l. loaded_of l.map l.index l.order };

    ghost invariant = { λ l. IsLoaded l.map.tokens l.index l.order };
}

impl LoadedMap {
    /// The map with the index of its lines. Fails only with `OutOfMemory`.
    pub fn new(alloc: Global, map: OwnedSourceMap) -> Result<LoadedMap>
        ensures map { IfOk result (λ loaded. (loaded.map ≡ map) × (loaded.has_order ≡ false)) }
        ensures error { OnlyMemory result }
    {
        let index = index_of(alloc, map.get_tokens().as_slice())?;
        Ok(LoadedMap::with_index(map, index))
    }

    /// The map with what was made as the index of its lines, and no index by original positions.
    pub fn with_index(map: OwnedSourceMap, index: Result<LineIndex>) -> LoadedMap
        requires { IsIndexed map.tokens index }
        ensures { (result.map ≡ map) × (result.has_order ≡ false) }
    {
        LoadedMap {
            map,
            index,
            order: None,
        }
    }

    /// The map, without its indices.
    pub fn into_map(self) -> OwnedSourceMap
        ensures { result ≡ self.map }
    {
        let LoadedMap {
            map,
            index: _,
            order: _,
        } = self;
        map
    }

    /// The map, borrowed.
    pub fn map(&self) -> &OwnedSourceMap
        ensures { result.now ≡ self.now.map }
    {
        &self.map
    }

    /// The tokens of the map.
    pub fn tokens(&self) -> &[Token]
        ensures { result.now ≡ self.now.map.tokens }
    {
        self.map.get_tokens().as_slice()
    }

    /// The number of bytes of memory that the indices hold; 18446744073709551615 stands for more.
    pub fn index_bytes(&self) -> usize
        ensures { result ≡ capped self.now.index_bytes }
    {
        let lines = match &self.index {
            Ok(index) => index.bytes(),
            Err(_) => 0,
        };
        let sources = match &self.order {
            Some(order) => order.bytes(),
            None => 0,
        };
        lines.saturating_add(sources)
    }

    /// Makes the order of the tokens by original positions, if there is none. Fails with `TooLarge` if there are more than
    /// 4294967295 tokens, and else only with `OutOfMemory`.
    pub fn index_sources(&mut self, alloc: Global) -> Result<()>
        ensures made { OnOk result ((self.new.map ≡ self.old.map) × (self.new.has_order ≡ true)) }
        ensures kept { self.old.has_order ≡ true → (self.new ≡ self.old) × (result ≡ Ok tt) }
        ensures error { FailsBy (index_fault self.old.map.tokens) result }
        ensures fault { self.old.has_order ≡ false
            → Reports (index_fault self.old.map.tokens) result }
        ensures unchanged { OnErr result (self.new ≡ self.old) }
    {
        if self.order.is_none() {
            let order = SourceOrder::new(alloc, self.map.get_tokens().as_slice())?;
            self.order = Some(order);
        }
        Ok(())
    }

    /// The order of the tokens by original positions. Fails with `NoIndex` if it was not made.
    pub fn order(&self) -> std::result::Result<&SourceOrder, CallError>
        ensures order { IfOk result (λ order. (self.now.has_order ≡ true)
            × IsSourceOrderOf self.now.map.tokens order.now) }
        ensures error { IfErr result (λ r. (r ≡ NoIndex) × (self.now.has_order ≡ false)) }
    {
        match &self.order {
            Some(order) => Ok(order),
            None => Err(CallError::NoIndex),
        }
    }

    /// The index of the lines. Fails with `LineOrder` if the tokens are not in line order.
    #[inline(always)]
    fn index(&self) -> Result<&LineIndex>
        ensures index { IfOk result (λ index. IsIndexOf self.now.map.tokens index.now) }
        ensures order { OnOk result (IsInLineOrder self.now.map.tokens) }
        ensures error { IfErr result (IsOutOfOrder self.now.map.tokens) }
    {
        match &self.index {
            Ok(index) => Ok(index),
            Err(e) => Err(*e),
        }
    }

    /// The index of the token that answers for a generated position, found by this index of lines.
    fn find(&self, index: &LineIndex, at: Position, bias: Bias) -> Option<usize>
        requires { IsIndexOf self.now.map.tokens index.now }
        ensures found { are_tokens_sorted self.now.map.tokens ≡ true
            → result ≡ index_by bias self.now.map.tokens at.line at.column }
        ensures within { IfSome result (λ i. i < length self.now.map.tokens) }
    {
        Traced::new(self.tokens(), index).find(at, bias)
    }

    /// As `find` by the last token before the position.
    #[inline(always)]
    fn find_usual(&self, index: UsualIndex<'_>, at: Position) -> Option<usize>
        requires { IsUsualIndexOf self.now.map.tokens index }
        ensures found { are_tokens_sorted self.now.map.tokens ≡ true
            → result ≡ index_by Before self.now.map.tokens at.line at.column }
        ensures within { IfSome result (λ i. i < length self.now.map.tokens) }
    {
        index.lookup_index(self.map.get_tokens().as_slice(), at.line, at.column)
    }

    /// Writes what the token at this index says, or that there is none.
    #[inline(always)]
    fn write_original<'c>(&'c self, found: Option<usize>, out: &mut Original<'c>)
        requires { IfSome found (λ i. i < length self.now.map.tokens) }
        ensures { IsSeen self.now.map found out.new }
    {
        match found {
            Some(i) => {
                let token = self.map.get_tokens().as_slice()[i];
                out.write(i, token, self.map.as_source_map());
            }
            None => *out = Original::nothing(),
        }
    }

    /// Writes what the map says of a generated position, found by this index of lines.
    fn trace_by<'c>(&'c self, index: &LineIndex, at: Position, bias: Bias, out: &mut Original<'c>)
        requires { IsIndexOf self.now.map.tokens index.now }
        ensures { IsTraceOf bias self.now.map at out.new }
    {
        self.write_original(self.find(index, at, bias), out)
    }

    /// As `trace_by` by the last token before the position.
    #[inline(always)]
    fn trace_by_usual<'c>(&'c self, index: UsualIndex<'_>, at: Position, out: &mut Original<'c>)
        requires { IsUsualIndexOf self.now.map.tokens index }
        ensures { IsTraceOf Before self.now.map at out.new }
    {
        self.write_original(self.find_usual(index, at), out)
    }

    /// The index of the lines, if it has the usual form.
    #[inline(always)]
    fn usual_index(&self) -> Option<UsualIndex<'_>>
        ensures { IfSome result (IsUsualIndexOf self.now.map.tokens) }
    {
        match &self.index {
            Ok(index) => index.usual(),
            Err(_) => None,
        }
    }

    /// As `trace` by the last token before the position, if the index of lines has the usual form. Else it writes nothing, and
    /// returns false.
    // Compiled it has no call, so the usual lookup saves few registers.
    #[inline(always)]
    pub fn trace_usual<'c>(&'c self, at: Position, out: &mut Original<'c>) -> bool
        ensures traced { result ≡ true → IsInLineOrder self.now.map.tokens
            × IsTraceOf Before self.now.map at out.new }
        ensures unchanged { result ≡ false → out.new ≡ out.old }
    {
        match self.usual_index() {
            Some(index) => {
                self.trace_by_usual(index, at, out);
                true
            }
            None => false,
        }
    }

    /// Writes what the map says of a generated position. Fails with `LineOrder` if the tokens are not in line order, and writes
    /// nothing then.
    pub fn trace<'c>(&'c self, at: Position, bias: Bias, out: &mut Original<'c>) -> Result<()>
        ensures traced { OnOk result (IsInLineOrder self.now.map.tokens
            × IsTraceOf bias self.now.map at out.new) }
        ensures error { IfErr result (IsOutOfOrder self.now.map.tokens) }
        ensures unchanged { OnErr result (out.new ≡ out.old) }
    {
        let index = self.index()?;
        self.trace_by(index, at, bias, out);
        Ok(())
    }

    /// Writes what the map says of many positions, found by this index of lines, each at the index of its position.
    fn write_traces<'c>(
        &'c self,
        index: &LineIndex,
        positions: &[Position],
        bias: Bias,
        out: &mut [Original<'c>],
    )
        requires index { IsIndexOf self.now.map.tokens index.now }
        requires lengths { length positions.now ≡ length out.old }
        ensures { AreTracesOf bias positions.now out.new self.now.map }
    {
        for i in 0..positions.len() {
            self.trace_by(index, positions[i], bias, &mut out[i]);
        }
    }

    /// As `write_traces` by the last token before each position.
    fn write_usual_traces<'c>(
        &'c self,
        index: UsualIndex<'_>,
        positions: &[Position],
        out: &mut [Original<'c>],
    )
        requires index { IsUsualIndexOf self.now.map.tokens index }
        requires lengths { length positions.now ≡ length out.old }
        ensures { AreTracesOf Before positions.now out.new self.now.map }
    {
        for i in 0..positions.len() {
            self.trace_by_usual(index, positions[i], &mut out[i]);
        }
    }

    /// What the map says of many positions, each at the index of its position. Fails as `trace` does, and writes nothing then.
    pub fn trace_all<'c>(
        &'c self,
        positions: &[Position],
        bias: Bias,
        out: &mut [Original<'c>],
    ) -> Result<()>
        requires { length positions.now ≡ length out.old }
        ensures traced { OnOk result (AreTracesOf bias positions.now out.new self.now.map) }
        ensures error { IfErr result (IsOutOfOrder self.now.map.tokens) }
        ensures unchanged { OnErr result (out.new ≡ out.old) }
    {
        let index = self.index()?;
        match (bias, index.usual()) {
            (Bias::Before, Some(usual)) => self.write_usual_traces(usual, positions, out),
            _ => self.write_traces(index, positions, bias, out),
        }
        Ok(())
    }

    /// Writes the indices of the tokens that answer for many positions, found by this index of lines, each at the index of its
    /// position; 4294967295 for none.
    fn write_found(&self, index: &LineIndex, positions: &[Position], bias: Bias, out: &mut [u32])
        requires index { IsIndexOf self.now.map.tokens index.now }
        requires lengths { length positions.now ≡ length out.old }
        ensures { AreFoundIn bias positions.now out.new self.now.map }
    {
        for i in 0..positions.len() {
            out[i] = index_or_none(self.find(index, positions[i], bias));
        }
    }

    /// As `write_found` by the last token before each position.
    fn write_usual_found(&self, index: UsualIndex<'_>, positions: &[Position], out: &mut [u32])
        requires index { IsUsualIndexOf self.now.map.tokens index }
        requires lengths { length positions.now ≡ length out.old }
        ensures { AreFoundIn Before positions.now out.new self.now.map }
    {
        for i in 0..positions.len() {
            out[i] = index_or_none(self.find_usual(index, positions[i]));
        }
    }

    /// The indices of the tokens that answer for many positions, each at the index of its position; 4294967295 for none. Fails as
    /// `trace` does, and writes nothing then.
    pub fn find_all(&self, positions: &[Position], bias: Bias, out: &mut [u32]) -> Result<()>
        requires { length positions.now ≡ length out.old }
        ensures found { OnOk result (AreFoundIn bias positions.now out.new self.now.map) }
        ensures error { IfErr result (IsOutOfOrder self.now.map.tokens) }
        ensures unchanged { OnErr result (out.new ≡ out.old) }
    {
        let index = self.index()?;
        match (bias, index.usual()) {
            (Bias::Before, Some(usual)) => self.write_usual_found(usual, positions, out),
            _ => self.write_found(index, positions, bias, out),
        }
        Ok(())
    }
}

/// The index of the lines of tokens, or the error of making it. Fails only with `OutOfMemory`.
pub fn index_of(alloc: Global, tokens: &[Token]) -> Result<Result<LineIndex>>
    ensures index { IfOk result (IsIndexed tokens.now) }
    ensures error { OnlyMemory result }
{
    match LineIndex::for_lookups(alloc, tokens) {
        Err(Error::OutOfMemory) => Err(Error::OutOfMemory),
        index => Ok(index),
    }
}

/// What a handle holds. All but the bytes of a compiled map is its own.
#[derive(Drop)]
pub enum Held {
    Map(LoadedMap),
    /// A text that the library made.
    Written(String),
    /// A map that is being built, in a box of its own, since all that handles hold takes as much memory as the largest.
    Building(Box<SourceMapBuilder<'static>>),
    /// Maps that are being joined.
    Joining(ConcatSourceMapBuilder<'static>),
    /// What was mended in a map.
    Mended(Vec<Mend>),
    /// The bytes of a compiled map that the library made.
    Bytes(Vec<u8>),
    /// A compiled map that is open, in bytes of the caller, who keeps them until the handle is freed.
    Compiled(CompiledMap<'static>),
    /// The scopes of a map.
    Scopes(Scopes),
    /// A map that several handles may hold, and that no call changes.
    Shared(Arc<LoadedMap, Global>),
}
