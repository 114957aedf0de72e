//! The scopes around a position of the generated code, each with the range that has the values of its variables.
ghost use Rattle.std.specs.Prelude.{◌≡◌, ◌<◌, length, IfSome, IfOk, option_map, slice_get, Some};
ghost use Rattle.oxc_sourcemap_scopes.specs.Words.{is_code_of, code_of, chain_of, scope_chain};
ghost use Rattle.oxc_sourcemap_scopes.specs.Words.{frame_starts, caller_starts};
ghost use Rattle.oxc_sourcemap_scopes.specs.Words.{scope_chain_at, range_at, definition_of, around};

use crate::scopes::{RangeInfo, Scopes};
use oxc_sourcemap_tokens::Memory;
use std::alloc::Global;

/// A scope of the source that a position of the generated code is in.
#[derive(Clone, Copy, Debug, PartialEq, Eq)]
pub struct ScopeChainEntry {
    /// The index of the scope.
    pub scope: usize,
    /// The index of the innermost range there that is the code of the scope, in which its variables have their values; None if none is.
    pub range: Option<usize>,
}

impl Scopes {
    /// The scopes that a position of the generated code is in, from the inside out: that which the innermost range there is the code
    /// of, and those around it. `get_variables` has the variables of each, `value_at` their values. None where no range contains the
    /// position, or where it is the code of no scope. It takes time by the scopes times the ranges that are nested there, at most 1024
    /// each.
    ///
    /// # Errors
    ///
    /// An allocation failed.
    ///
    /// ```rust
    /// use oxc_sourcemap::decode_scopes;
    ///
    /// // A function `f` with a variable `a`, whose value in its code is `x`.
    /// let names = ["f", "a", "x"];
    /// let scopes = decode_scopes(alloc, "BFAAA,DC,CJA,EGAA,GD,FU", names.len())?;
    /// let chain = scopes.scope_chain_at(alloc, 0, 4)?;
    /// assert_eq!(rt; chain.len(), 1);
    /// let variables = scopes.get_variables(chain[0].scope).unwrap_or(&[]);
    /// assert_eq!(rt; names[variables[0] as usize], "a");
    /// let value = chain[0].range.and_then(|range| scopes.value_at(range, 0, 0, 4));
    /// assert_eq!(rt; value.map(|i| names[i as usize]), Some("x"));
    /// ```
    pub fn scope_chain_at(
        &self,
        alloc: Global,
        line: u32,
        column: u32,
    ) -> Memory<Vec<ScopeChainEntry>>
        ensures { IfOk result (λ chain. chain.items ≡ scope_chain_at self.now line column) }
    {
        let range = self.range_at(line, column);
        self.chain(alloc, self.definition_of(range), range)
    }

    /// The same for a frame of the source at a position of the generated code, by its index in what `frames_at` returns: for the first
    /// frame the scopes of `scope_chain_at`, for that of a call which was inlined those at its place, from the scope there on, with the
    /// ranges around the inlined body. None past the last frame.
    ///
    /// # Errors
    ///
    /// An allocation failed.
    pub fn scope_chain(
        &self,
        alloc: Global,
        frame: usize,
        line: u32,
        column: u32,
    ) -> Memory<Option<Vec<ScopeChainEntry>>>
        ensures { IfOk result (λ chain. option_map (λ entries. entries.items) chain
            ≡ scope_chain self.now frame line column) }
    {
        let Some(range) = self.range_at(line, column) else {
            return Ok(None);
        };
        let Some((scope, range)) = self.frame_start(frame, range) else {
            return Ok(None);
        };
        Ok(Some(self.chain(alloc, scope, range)?))
    }

    /// The innermost scope of a frame at a range, by its index, and the range from which its values are looked for.
    fn frame_start(&self, frame: usize, range: usize) -> Option<(Option<usize>, Option<usize>)>
        requires { range < length self.now.ranges }
        ensures start { result ≡ slice_get (frame_starts self.now range) frame }
        ensures within { IfSome result (λ start. IfSome start.0 (λ i. i < length self.now.scopes)
            × IfSome start.1 (λ i. i < length self.now.ranges)) }
    {
        if frame == 0 {
            return Some((self.definition_of(Some(range)), Some(range)));
        }
        self.caller_start(frame - 1, range)
    }

    /// The same of the frame of a call that was inlined, by its index among those.
    fn caller_start(&self, caller: usize, range: usize) -> Option<(Option<usize>, Option<usize>)>
        requires { range < length self.now.ranges }
        ensures start { result ≡ slice_get (caller_starts self.now (Some range)) caller }
        ensures within { IfSome result (λ start. IfSome start.0 (λ i. i < length self.now.scopes)
            × IfSome start.1 (λ i. i < length self.now.ranges)) }
    {
        let mut left = caller;
        let mut next = Some(range);
        while let Some(index) = next {
            let info = &self.range_infos[index];
            if info.is_stack_frame {
                return None;
            }
            let outer = self.ranges[index].parent;
            if let Some(call) = info.call_site {
                if left == 0 {
                    return Some((self.scope_at(call.source, call.line, call.column), outer));
                }
                left -= 1;
            }
            next = outer;
        }
        None
    }

    /// The scope that a range is the code of.
    fn definition_of(&self, range: Option<usize>) -> Option<usize>
        requires { IfSome range (λ i. i < length self.now.ranges) }
        ensures scope { result ≡ definition_of self.now range }
        ensures within { IfSome result (λ i. i < length self.now.scopes) }
    {
        let info = self.range_infos.get(range?)?;
        info.definition.map(|i| i as usize)
    }

    /// A scope and those around it, each with the first of a range and those around it that is its code.
    fn chain(
        &self,
        alloc: Global,
        scope: Option<usize>,
        range: Option<usize>,
    ) -> Memory<Vec<ScopeChainEntry>>
        requires scope { IfSome scope (λ i. i < length self.now.scopes) }
        requires range { IfSome range (λ i. i < length self.now.ranges) }
        ensures { IfOk result (λ chain. chain.items ≡ chain_of self.now scope range) }
    {
        let mut chain = Vec::new(alloc);
        let mut next = scope;
        while let Some(index) = next {
            chain.push(ScopeChainEntry {
                scope: index,
                range: self.code_of(index, range),
            })?;
            next = self.scopes[index].parent;
        }
        Ok(chain)
    }

    /// The first of a range and those around it, from the inside out, that is the code of a scope.
    fn code_of(&self, scope: usize, range: Option<usize>) -> Option<usize>
        requires { IfSome range (λ i. i < length self.now.ranges) }
        ensures { result ≡ code_of self.now.range_infos scope (around self.now.ranges range) }
    {
        let mut next = range;
        while let Some(index) = next {
            if is_code_of(&self.range_infos[index], scope) {
                return Some(index);
            }
            next = self.ranges[index].parent;
        }
        None
    }
}

/// Whether a range is the code of a scope.
fn is_code_of(range: &RangeInfo, scope: usize) -> bool
    ensures { result ≡ is_code_of scope range.now }
{
    match range.definition {
        Some(definition) => definition as usize == scope,
        None => false,
    }
}
