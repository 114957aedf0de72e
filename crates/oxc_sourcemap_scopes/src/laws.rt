//! Laws of scopes. Each is a function that does nothing: its contract is the law.
ghost use Rattle.oxc_sourcemap_scopes.specs.Laws.{RangesAround, ScopesAround};
ghost use Rattle.oxc_sourcemap_scopes.specs.Laws.{FunctionsContain, FramesContain, NamesLead};
ghost use Rattle.oxc_sourcemap_scopes.specs.Laws.{SourcesLead, ValuesLead};

/// What is found from the inside out at a position are all ranges, and all scopes of a source, that contain it: they start by the
/// position, and end after it. So its function is the innermost of these scopes that is a stack frame, and its frames are those of
/// these ranges.
///
/// ```rust
/// use oxc_sourcemap::decode_scopes;
/// use oxc_sourcemap::laws::found_contain;
///
/// found_contain();
/// let scopes = decode_scopes(alloc, "BFAAA,BFCAC,CCA,CFA", 2)?;
/// assert_eq!(rt; scopes.function_at(0, 3, 7), Some(1));
/// assert_eq!(rt; scopes.function_at(0, 4, 0), Some(0));
/// ```
pub fn found_contain()
    ensures ranges { RangesAround }
    ensures scopes { ScopesAround }
    ensures functions { FunctionsContain }
    ensures frames { FramesContain }
{}

/// The indices that scopes were read with lead somewhere: the names, kinds and variables of scopes, and the expressions of values, are
/// below the number of names, and the source of a scope is below the number of sources (`source_count`). That of a call site may be
/// any; that a definition leads to a scope is an invariant of `Scopes`.
///
/// ```rust
/// use oxc_sourcemap::decode_scopes;
/// use oxc_sourcemap::laws::scopes_lead;
///
/// scopes_lead();
/// let names = ["f"];
/// let scopes = decode_scopes(alloc, "BFAAA,CFA", names.len())?;
/// let name = scopes.get_scope(0).and_then(|scope| scope.name);
/// assert!(rt; name.is_some_and(|i| (i as usize) < names.len()));
/// ```
pub fn scopes_lead()
    ensures names { NamesLead }
    ensures sources { SourcesLead }
    ensures values { ValuesLead }
{}
