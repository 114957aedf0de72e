//! What is asked of scopes: the innermost scope, range or function at a position, and the frames that a position stands for.
ghost use Rattle.std.specs.Prelude.{◌≡◌, ◌<◌, length, get_or, option_map, filter, Some};
ghost use Rattle.std.specs.Prelude.{IfSome, IfOk};
ghost use Rattle.oxc_sourcemap_scopes.specs.Words.{scope_at, range_at, function_of, function_at};
ghost use Rattle.oxc_sourcemap_scopes.specs.Words.{frames_at, frames_record, scope_seen};
ghost use Rattle.oxc_sourcemap_scopes.specs.Words.{range_seen, place, AreNested};
ghost use Rattle.oxc_sourcemap_scopes.specs.Words.{callers_of, no_range, IsCalled};
ghost use Rattle.oxc_sourcemap_scopes.specs.Words.{variables_of, values_of, value_count};
ghost use Rattle.oxc_sourcemap_scopes.specs.Words.{value_seen, expression_of, starts_by};
ghost use Rattle.oxc_sourcemap_scopes.specs.Words.{last_expression, value_at};

use crate::scopes::{CallSite, ScopeFrame, ScopeInfo, Scopes, Span, ValuePiece, place_of};
use crate::trees::innermost_at;
use oxc_sourcemap_tokens::{Memory, Position};
use std::alloc::Global;

/// A scope of a source: a function, a block, a class or the like. All lines and columns count from 0, columns in UTF-16 units.
#[derive(Clone, Copy)]
pub struct OriginalScope {
    /// The index of the source.
    pub source: u32,
    pub start: Position,
    /// The first position after it.
    pub end: Position,
    /// The index of its name in the names of the map.
    pub name: Option<u32>,
    /// The index among the names of what it is, as `function`.
    pub kind: Option<u32>,
    /// A call of it makes a frame of the stack.
    pub is_stack_frame: bool,
    /// The index of the innermost scope that contains it.
    pub parent: Option<usize>,
}

/// A range of the generated code. All lines and columns count from 0, columns in UTF-16 units.
#[derive(Clone, Copy)]
pub struct GeneratedRange {
    pub start: Position,
    /// The first position after it.
    pub end: Position,
    /// The index of the scope that it is the code of.
    pub definition: Option<u32>,
    /// A call of it makes a frame of the stack.
    pub is_stack_frame: bool,
    /// The source has no frame for it, as where a helper was made.
    pub is_hidden: bool,
    /// Where it was called, if it is the body of a function that was inlined.
    pub call_site: Option<CallSite>,
    /// The index of the innermost range that contains it.
    pub parent: Option<usize>,
}

/// The frames of the source that a frame of the stack stands for.
#[derive(Drop)]
pub struct Frames {
    /// From the inside out: where the mappings lead, then the place of each call that was inlined.
    pub frames: Vec<ScopeFrame>,
    /// The frame of the stack is that of a helper that the source does not have, so a trace leaves it out.
    pub is_hidden: bool,
}

impl Scopes {
    /// How many sources have a tree of scopes, or none.
    pub fn source_count(&self) -> u32
        ensures { result ≡ self.now.sources }
    {
        self.sources
    }

    /// How many scopes there are, of all sources.
    pub fn scope_count(&self) -> usize
        ensures { result ≡ length self.now.scopes }
    {
        self.scopes.as_slice().len()
    }

    /// How many ranges of the generated code there are.
    pub fn range_count(&self) -> usize
        ensures { result ≡ length self.now.ranges }
    {
        self.ranges.as_slice().len()
    }

    /// A scope by its index, in the order of their starts, those of one source after those of another; None past the last one.
    pub fn get_scope(&self, index: usize) -> Option<OriginalScope>
        ensures { result ≡ scope_seen self.now index }
    {
        let span = self.scopes.get(index)?;
        let info = self.scope_infos.get(index)?;
        Some(OriginalScope {
            source: span.source,
            start: span.start,
            end: span.end,
            name: info.name,
            kind: info.kind,
            is_stack_frame: info.is_stack_frame,
            parent: span.parent,
        })
    }

    /// A range by its index, in the order of their starts; None past the last one.
    pub fn get_range(&self, index: usize) -> Option<GeneratedRange>
        ensures { result ≡ range_seen self.now index }
    {
        let span = self.ranges.get(index)?;
        let info = self.range_infos.get(index)?;
        Some(GeneratedRange {
            start: span.start,
            end: span.end,
            definition: info.definition,
            is_stack_frame: info.is_stack_frame,
            is_hidden: info.is_hidden,
            call_site: info.call_site,
            parent: span.parent,
        })
    }

    /// The variables of a scope by its index, as indices of names, in their order; None past the last scope.
    pub fn get_variables(&self, scope: usize) -> Option<&[u32]>
        ensures { option_map (λ list. list.now) result ≡ variables_of self.now scope }
    {
        match self.variables.get(scope) {
            Some(list) => Some(list.as_slice()),
            None => None,
        }
    }

    /// How many values a range has, by its index: of as many variables of its scope, the first ones. A range past the last one has none.
    pub fn value_count(&self, range: usize) -> usize
        ensures { result ≡ value_count (values_of self.now range) }
    {
        match self.values.get(range) {
            Some(list) => list.len(),
            None => 0,
        }
    }

    /// The value of a variable in a range, both by their index: the index of the name that has the expression for it. None if it has no
    /// value there, and past the last value or range.
    pub fn get_value(&self, range: usize, variable: usize) -> Option<u32>
        ensures { result ≡ expression_of (value_seen (values_of self.now range) variable) }
    {
        let list = self.values.get(range)?;
        list.get(variable)?.expression
    }

    /// The value of a variable in a range, both by their index, at a position of the generated code that the range contains: the index
    /// of the name that has the expression for it. None if it has no value there, and past the last value or range. Behind the range
    /// it is as at its end, and before it as at its start. It takes time by the sub-ranges of the values of the range.
    pub fn value_at(&self, range: usize, variable: usize, line: u32, column: u32) -> Option<u32>
        ensures { result ≡ value_at self.now range variable line column }
    {
        let whole = self.get_value(range, variable);
        match self.pieces.get(range) {
            Some(list) => expression_at(list, variable as u64, place(line, column), whole),
            None => whole,
        }
    }

    /// The index of the innermost scope of a source that contains a position.
    pub fn scope_at(&self, source: u32, line: u32, column: u32) -> Option<usize>
        ensures index { result ≡ scope_at self.now source line column }
        ensures within { IfSome result (λ i. i < length self.now.scopes) }
    {
        innermost_at(&self.scopes, source, place(line, column))
    }

    /// The index of the innermost range that contains a position of the generated code.
    pub fn range_at(&self, line: u32, column: u32) -> Option<usize>
        ensures index { result ≡ range_at self.now line column }
        ensures within { IfSome result (λ i. i < length self.now.ranges) }
    {
        innermost_at(&self.ranges, 0, place(line, column))
    }

    /// The index of the scope of the function of a source that a position is in; None outside of functions.
    pub fn function_at(&self, source: u32, line: u32, column: u32) -> Option<usize>
        ensures { result ≡ function_at self.now source line column }
    {
        let scope = innermost_at(&self.scopes, source, place(line, column));
        function_of(&self.scopes, &self.scope_infos, scope)
    }

    /// The frames of the source that a frame of a stack trace at this position of the generated code stands for. The first is where
    /// the mappings lead, and has the name of the function that the code there is of; one more is at the place of each call that was
    /// inlined there, from the inside out. There is none where no range contains the position. It takes time by the scopes and ranges
    /// that are nested there, at most 1024 each.
    ///
    /// # Errors
    ///
    /// An allocation failed.
    pub fn frames_at(&self, alloc: Global, line: u32, column: u32) -> Memory<Frames>
        ensures { IfOk result (λ frames. frames_record frames ≡ frames_at self.now line column) }
    {
        let Some(range) = self.range_at(line, column) else {
            return Ok(Frames {
                frames: Vec::new(alloc),
                is_hidden: false,
            });
        };
        let mut frames = Vec::new(alloc);
        frames.push(ScopeFrame {
            scope: self.function_of_range(range),
            call_site: None,
        })?;
        let is_hidden = self.push_callers(&mut frames, range)?;
        Ok(Frames { frames, is_hidden })
    }

    /// The function that a range is the code of.
    fn function_of_range(&self, range: usize) -> Option<usize>
        requires { range < length self.now.ranges }
        ensures { result ≡ function_of self.now.scopes self.now.scope_infos
            (get_or self.now.range_infos range no_range).definition }
    {
        let definition = self.range_infos[range].definition.map(|i| i as usize);
        function_of(&self.scopes, &self.scope_infos, definition)
    }

    /// Appends the frames in which the bodies of a range and of those around it were called. Returns whether the range that ends
    /// them is hidden.
    fn push_callers(&self, frames: &mut Vec<ScopeFrame>, range: usize) -> Memory<bool>
        requires { range < length self.now.ranges }
        ensures { IfOk result (λ is_hidden. IsCalled frames.old.items frames.new.items is_hidden
            (callers_of self.now (Some range))) }
    {
        let mut next = Some(range);
        while let Some(index) = next {
            let info = &self.range_infos[index];
            if info.is_stack_frame {
                return Ok(info.is_hidden);
            }
            if let Some(call) = info.call_site {
                let scope = self.function_at(call.source, call.line, call.column);
                frames.push(ScopeFrame {
                    scope,
                    call_site: Some(call),
                })?;
            }
            next = self.ranges[index].parent;
        }
        Ok(false)
    }
}

/// The expression of the last of the pieces of a variable's value that starts by a place, else the one before them.
fn expression_at(
    pieces: &[ValuePiece],
    variable: u64,
    place: u64,
    before: Option<u32>,
) -> Option<u32>
    ensures { result ≡ last_expression before (filter (starts_by variable place) pieces.now) }
{
    let mut found = before;
    for piece in pieces {
        if piece.variable == variable && place_of(piece.start) <= place {
            found = piece.expression;
        }
    }
    found
}

/// The index of the first of a scope and those around it, from the inside out, that is a stack frame.
fn function_of(scopes: &[Span], infos: &[ScopeInfo], scope: Option<usize>) -> Option<usize>
    requires nested { AreNested scopes.now }
    requires infos { length infos.now ≡ length scopes.now }
    requires within { IfSome scope (λ i. i < length scopes.now) }
    ensures { result ≡ function_of scopes.now infos.now scope }
{
    let mut next = scope;
    while let Some(index) = next {
        if infos[index].is_stack_frame {
            return Some(index);
        }
        next = scopes[index].parent;
    }
    None
}

/// A line and a column as one number.
fn place(line: u32, column: u32) -> u64
    ensures { result ≡ place line column }
{
    (u64::from(line) << 32) + u64::from(column)
}
