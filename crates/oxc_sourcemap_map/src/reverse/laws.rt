//! Laws of reverse lookups.
ghost use Rattle.oxc_sourcemap_map.specs.Words.{LookupLeadsBack, FoundAtPlace, FoundOnLine};
ghost use Rattle.oxc_sourcemap_map.specs.Words.{FoundBefore, FoundAfter, AllFoundOnLine};
ghost use Rattle.oxc_sourcemap_map.specs.Words.{FoundTracesBack, FirstTracesBack, TracedIsFound};

/// What reverse lookups find points to what was asked for, and traces back to it, in any list of tokens.
/// - The lookup (`token_for`) of the generated position of a token finds a token at that very position (`leads_back`); the
///   lookups of a sorted map are this lookup.
/// - Tokens found at a place point there (`at_place`), those of a line to that line of that source (`on_line`).
/// - The token of `generated_for` points to the line, not past the column (`before`), that of `generated_from` not before it
///   (`after`); all tokens at the place of either point to the line (`all_on_line`).
pub fn reverse_lookups()
    ensures leads_back { LookupLeadsBack }
    ensures at_place { FoundAtPlace }
    ensures on_line { FoundOnLine }
    ensures before { FoundBefore }
    ensures after { FoundAfter }
    ensures all_on_line { AllFoundOnLine }
{}

/// What a reverse lookup finds traces back to where it was found.
/// - Where no two tokens have the same generated position, the lookup of the generated position of each token that is found
///   finds this token, and the trace there is the source with the id, the line and the column where the token was found: the
///   ones that were asked, or those of the nearest token (`found`). In any map, sorted or not, that holds of each token that
///   is found and is the first at its generated position (`first`).
/// - The other way round, the token that a lookup finds, clamped or not, is found where it points to (`traced`).
///
/// ```rust
/// use oxc_sourcemap::{SourceIndex, SourceMap};
///
/// let text = r#"{"version":3,"sources":["a.js"],"mappings":"AAAA,IAAI;AAAA"}"#;
/// let map = SourceMap::from_json_string(alloc, text)?;
/// let table = map.generate_lookup_table(alloc)?;
/// let index = SourceIndex::new(alloc, &map)?;
/// for token in index.generated_at(0, 0, 4) {
///     let (line, col) = (token.get_dst_line(), token.get_dst_col());
///     let found = map.lookup_token(table.as_slice(), line, col).unwrap();
///     assert_eq!(rt; (found.get_src_line(), found.get_src_col()), (0, 4));
/// }
/// ```
pub fn reverse_round_trip()
    ensures found { FoundTracesBack }
    ensures first { FirstTracesBack }
    ensures traced { TracedIsFound }
{}
