//! Scopes, ranges and frames as C reads them.
ghost use Rattle.std.specs.Prelude.{◌≡◌};
ghost use Rattle.oxc_sourcemap_c.specs.Words.{scope_numbers, range_numbers, frame_numbers};
ghost use Rattle.oxc_sourcemap_c.specs.Words.{scopes_counts_of, call_numbers, name_of_scope};
ghost use Rattle.oxc_sourcemap_c.specs.Words.{chain_entry_numbers};

use crate::reading::getters::flag;
use crate::texts::text::{index_or_none, number_or_none};
use oxc_sourcemap_scopes::{
    CallSite, GeneratedRange, OriginalScope, ScopeChainEntry, ScopeFrame, Scopes,
};
use oxc_sourcemap_tokens::Position;

/// How many sources, scopes and ranges there are.
#[repr(C)]
#[derive(Clone, Copy)]
pub struct ScopesCounts {
    pub sources: u64,
    pub scopes: u64,
    pub ranges: u64,
}

impl ScopesCounts {
    /// The counts of scopes.
    pub fn of(scopes: &Scopes) -> ScopesCounts
        ensures { result ≡ scopes_counts_of scopes.now }
    {
        ScopesCounts {
            sources: u64::from(scopes.source_count()),
            scopes: scopes.scope_count() as u64,
            ranges: scopes.range_count() as u64,
        }
    }
}

/// A scope of a source. 4294967295 stands for no name, kind or parent.
#[repr(C)]
#[derive(Clone, Copy)]
pub struct ScopeNumbers {
    pub source: u32,
    pub start: Position,
    pub end: Position,
    pub name: u32,
    pub kind: u32,
    pub is_stack_frame: u32,
    pub parent: u32,
}

impl ScopeNumbers {
    /// The numbers of a scope.
    pub fn of(scope: &OriginalScope) -> ScopeNumbers
        ensures { result ≡ scope_numbers scope.now }
    {
        ScopeNumbers {
            source: scope.source,
            start: scope.start,
            end: scope.end,
            name: number_or_none(scope.name),
            kind: number_or_none(scope.kind),
            is_stack_frame: flag(scope.is_stack_frame),
            parent: index_or_none(scope.parent),
        }
    }
}

/// Where in a source a function was called: the index of the source, the line and the column; all are 4294967295 for none.
#[repr(C)]
#[derive(Clone, Copy)]
pub struct CallNumbers {
    pub source: u32,
    pub line: u32,
    pub column: u32,
}

impl CallNumbers {
    /// The numbers of the place of a call.
    pub fn of(call: Option<CallSite>) -> CallNumbers
        ensures { result ≡ call_numbers call }
    {
        match call {
            Some(call) => CallNumbers {
                source: call.source,
                line: call.line,
                column: call.column,
            },
            None => CallNumbers {
                source: 4294967295,
                line: 4294967295,
                column: 4294967295,
            },
        }
    }
}

/// A range of the generated code. 4294967295 stands for no definition, call or parent.
#[repr(C)]
#[derive(Clone, Copy)]
pub struct RangeNumbers {
    pub start: Position,
    pub end: Position,
    pub definition: u32,
    pub is_stack_frame: u32,
    pub is_hidden: u32,
    pub call: CallNumbers,
    pub parent: u32,
}

impl RangeNumbers {
    /// The numbers of a range.
    pub fn of(range: &GeneratedRange) -> RangeNumbers
        ensures { result ≡ range_numbers range.now }
    {
        RangeNumbers {
            start: range.start,
            end: range.end,
            definition: number_or_none(range.definition),
            is_stack_frame: flag(range.is_stack_frame),
            is_hidden: flag(range.is_hidden),
            call: CallNumbers::of(range.call_site),
            parent: index_or_none(range.parent),
        }
    }
}

/// A frame of a stack trace in the source: the id of the name of its function, the index of the scope that is the function, and the
/// place of the call. 4294967295 stands for none.
#[repr(C)]
#[derive(Clone, Copy)]
pub struct FrameNumbers {
    pub name: u32,
    pub scope: u32,
    pub call: CallNumbers,
}

/// The id of the name of a scope.
fn name_of(scopes: &Scopes, scope: Option<usize>) -> Option<u32>
    ensures { result ≡ name_of_scope scopes.now scope }
{
    scopes.get_scope(scope?)?.name
}

impl FrameNumbers {
    /// The numbers of a frame.
    pub fn of(scopes: &Scopes, frame: &ScopeFrame) -> FrameNumbers
        ensures { result ≡ frame_numbers scopes.now frame.now }
    {
        FrameNumbers {
            name: number_or_none(name_of(scopes, frame.scope)),
            scope: index_or_none(frame.scope),
            call: CallNumbers::of(frame.call_site),
        }
    }
}

/// A scope around a generated position, and the range that has the values of its variables, by their index. 4294967295 stands for no
/// range.
#[repr(C)]
#[derive(Clone, Copy)]
pub struct ChainEntryNumbers {
    pub scope: u32,
    pub range: u32,
}

impl ChainEntryNumbers {
    /// The numbers of an entry.
    pub fn of(entry: &ScopeChainEntry) -> ChainEntryNumbers
        ensures { result ≡ chain_entry_numbers entry.now }
    {
        ChainEntryNumbers {
            scope: index_or_none(Some(entry.scope)),
            range: index_or_none(entry.range),
        }
    }
}
