//! What a `scopes` text says.
ghost use Rattle.std.specs.Prelude.{◌≡◌, ◌+◌, ◌*◌};
ghost use Rattle.oxc_sourcemap_scopes.specs.Trees.{place_of};

use oxc_sourcemap_tokens::Position;
use std::marker::Model;

/// Where a scope or a range lies.
#[derive(Clone, Copy)]
pub(crate) struct Span {
    /// The index of the source that it lies in; 0 for a range of the generated code.
    pub(crate) source: u32,
    pub(crate) start: Position,
    /// The first position after it.
    pub(crate) end: Position,
    /// The index of the innermost span that contains it.
    pub(crate) parent: Option<usize>,
}

/// What a scope has beside its place. Its name and its kind are indices of names.
#[derive(Clone, Copy)]
pub(crate) struct ScopeInfo {
    pub(crate) name: Option<u32>,
    pub(crate) kind: Option<u32>,
    pub(crate) is_stack_frame: bool,
}

/// What a range has beside its place.
#[derive(Clone, Copy)]
pub(crate) struct RangeInfo {
    /// The index of the scope that it is the code of.
    pub(crate) definition: Option<u32>,
    pub(crate) is_stack_frame: bool,
    pub(crate) is_hidden: bool,
    pub(crate) call_site: Option<CallSite>,
}

/// The place of a call, in a source.
#[derive(Clone, Copy, Debug, PartialEq, Eq)]
pub struct CallSite {
    /// The index of the source.
    pub source: u32,
    pub line: u32,
    pub column: u32,
}

/// A frame of a stack trace in the source.
#[derive(Clone, Copy, Debug, PartialEq, Eq)]
pub struct ScopeFrame {
    /// The index of the scope whose name the frame has; None if no scope there is a function.
    pub scope: Option<usize>,
    /// Where the frame is: the place of the call that was inlined; None for the first frame, which is where the mappings lead.
    pub call_site: Option<CallSite>,
}

/// The value of a variable in a range of the generated code.
#[derive(Clone, Copy)]
pub(crate) struct Value {
    /// The index of the name that has its expression; None if it has no value.
    pub(crate) expression: Option<u32>,
    /// It changes at positions that its pieces have.
    pub(crate) is_split: bool,
}

/// What the value of a variable is from a position on, until its next piece.
#[derive(Clone, Copy)]
pub(crate) struct ValuePiece {
    /// The index of the variable in its scope.
    pub(crate) variable: u64,
    pub(crate) start: Position,
    /// The index of the name that has the expression; None if it has no value.
    pub(crate) expression: Option<u32>,
}

/// The scopes of a map: for each source the tree of its scopes, and for the generated code a tree of ranges.
#[derive(Drop)]
pub struct Scopes {
    pub(crate) sources: u32,
    pub(crate) scopes: Vec<Span>,
    pub(crate) scope_infos: Vec<ScopeInfo>,
    /// The variables of each scope, as indices of names.
    pub(crate) variables: Vec<Vec<u32>>,
    pub(crate) ranges: Vec<Span>,
    pub(crate) range_infos: Vec<RangeInfo>,
    /// The values in each range, of the variables of its scope.
    pub(crate) values: Vec<Vec<Value>>,
    /// The pieces of values in each range.
    pub(crate) pieces: Vec<Vec<ValuePiece>>,
}

impl Model for Scopes {
    ghost use Rattle.std.specs.Prelude.{map};
    ghost use Rattle.oxc_sourcemap_scopes.specs.Reading.{ScopesRecord, AreSound};

    ghost Value = { ScopesRecord };

    ghost view = { λ s. record {
      sources = s.sources;
      scopes = s.scopes.items;
      scope_infos = s.scope_infos.items;
      variables = map (λ v. v.items) s.variables.items;
      ranges = s.ranges.items;
      range_infos = s.range_infos.items;
      values = map (λ v. v.items) s.values.items;
      pieces = map (λ v. v.items) s.pieces.items;
    } };

    ghost invariant = { λ s. AreSound (record {
      sources = s.sources;
      scopes = s.scopes.items;
      scope_infos = s.scope_infos.items;
      variables = map (λ v. v.items) s.variables.items;
      ranges = s.ranges.items;
      range_infos = s.range_infos.items;
      values = map (λ v. v.items) s.values.items;
      pieces = map (λ v. v.items) s.pieces.items;
    }) };
}

/// A position as one number.
pub(crate) fn place_of(position: Position) -> u64
    ensures { result ≡ place_of position }
{
    (u64::from(position.line) << 32) + u64::from(position.column)
}
