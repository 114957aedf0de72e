//! Laws of the definitions. Each is a function that does nothing: its contract is the law, and a caller gets it by calling the
//! function, which costs nothing at run time. All but `tokens_in_bounds` have no parameters, result or body.
//!
//! Users find them in the module `laws` of the crate `oxc_sourcemap`.
mod comments;
mod data_urls;
mod faults;
mod inputs;
mod simplifying;

ghost use Rattle.oxc_sourcemap_plan.specs.Words.{CanonicalUnique, ReadsBack, ReadsAgain, InPieces};
ghost use Rattle.oxc_sourcemap_plan.specs.Words.{ChunkTextsAreAscii, SoundIsWritten};
ghost use Rattle.oxc_sourcemap_plan.specs.Words.{SoundIsTooLarge};
ghost use Rattle.oxc_sourcemap_plan.specs.Words.{SoundReadsBack, SoundStaysSound, ReadIsInBounds};
ghost use Rattle.oxc_sourcemap_plan.specs.Words.{ReadIsInLineOrder, ValueOfSections};
ghost use Rattle.oxc_sourcemap_plan.specs.Words.{TextOfSections, DecodedMapOfComposition};
ghost use Rattle.oxc_sourcemap_plan.specs.Words.{CompositionKeepsEqualUpToRepeats};
ghost use Rattle.oxc_sourcemap_plan.specs.Words.{CompositionStandsFor, DecodedMapsAssociative};
ghost use Rattle.oxc_sourcemap_plan.specs.Words.{ComposedMapsAssociative, CompositionAssociative};
ghost use Rattle.oxc_sourcemap_plan.specs.Words.{GroupingsFailTogether, GroupingsAnswered};
ghost use Rattle.oxc_sourcemap_plan.specs.Words.{GroupingsTell, CompositionInRange};
ghost use Rattle.oxc_sourcemap_plan.specs.Words.{CompositionNames, CompositionTokens};
ghost use Rattle.oxc_sourcemap_plan.specs.Words.{CompositionTooLarge, CompositionInBounds};
ghost use Rattle.oxc_sourcemap_plan.specs.Words.{SortedGoesOn, RepeatsHarmless, TracesAgree};
ghost use Rattle.oxc_sourcemap_plan.specs.Words.{TestsAgree, JoinKeepsEqualUpToRepeats};
ghost use Rattle.oxc_sourcemap_plan.specs.Words.{DecodedMapOfJoin, JoinStandsFor, JoinInRange};
ghost use Rattle.oxc_sourcemap_plan.specs.Words.{JoinNames, JoinTokens, JoinChunksFit};
ghost use Rattle.oxc_sourcemap_plan.specs.Words.{JoinsAssociative, JoinOneMore};
ghost use Rattle.oxc_sourcemap_plan.specs.Words.{TracesOfComposition, TracesOfComposedMaps};
ghost use Rattle.oxc_sourcemap_plan.specs.Words.{TracesOnOwnLine, TracesOfSortedJoin};
ghost use Rattle.oxc_sourcemap_plan.specs.Words.{TracesWithinPart, TracesOfJoinedMaps};
ghost use Rattle.oxc_sourcemap_plan.specs.Words.{TracesOnOwnLineOfMaps, TracesOfRemapping};
ghost use Rattle.oxc_sourcemap_plan.specs.Words.{TracesOfBundle};
ghost use Rattle.oxc_sourcemap_plan.specs.Words.{TracesOfRemappedMaps, SimplifiedComposed};
ghost use Rattle.oxc_sourcemap_plan.specs.Words.{SimplifiedRemapped, SimplifiedJoined};
ghost use Rattle.oxc_sourcemap_plan.specs.Words.{SimplifyingEndsRepeats, SimplifyingStandsFor};
ghost use Rattle.oxc_sourcemap_plan.specs.Words.{SimplifyingCounts, SimplifyingNames};
ghost use Rattle.oxc_sourcemap_plan.specs.Words.{SimplifyingInBounds, DecodedMapOfRemapping};
ghost use Rattle.oxc_sourcemap_plan.specs.Words.{RemappingIgnores, NothingRemapped};
ghost use Rattle.oxc_sourcemap_plan.specs.Words.{RemappedDecodedMapsAssociative};
ghost use Rattle.oxc_sourcemap_plan.specs.Words.{RemappedMapsAssociative, JoinRemapped};
ghost use Rattle.oxc_sourcemap_plan.specs.Words.{JoinedMapsRemapped, CompositionRemapped};
ghost use Rattle.oxc_sourcemap_plan.specs.Words.{ComposedMapsRemapped, OneRemapped, OneMapRemapped};
ghost use Rattle.oxc_sourcemap_plan.specs.Words.{RemappingKeepsEqualUpToRepeats};
ghost use Rattle.oxc_sourcemap_plan.specs.Words.{RemappingStandsFor, RemappingSorted};
ghost use Rattle.oxc_sourcemap_plan.specs.Words.{RemappingInRange, RemappingIsSound};
ghost use Rattle.oxc_sourcemap_plan.specs.Words.{RemappingCounts, RemappingNames, SortedInputsGoOn};
ghost use Rattle.oxc_sourcemap_plan.specs.Words.{RemappingAnswered, RemappingTooLarge};
ghost use Rattle.oxc_sourcemap_plan.specs.Words.{RemappingInBounds, SomeRemappingIsSound};
ghost use Rattle.oxc_sourcemap_plan.specs.Words.{DecodedMapOfRooting, RootingAgain};
ghost use Rattle.oxc_sourcemap_plan.specs.Words.{RootedDecodedMapsAgain, RootingKeeps};
ghost use Rattle.oxc_sourcemap_plan.specs.Words.{RootedDecodedMapsKeep, TracesOfRooting};
ghost use Rattle.oxc_sourcemap_plan.specs.Words.{RootingKeepsEqualUpToRepeats, RootingIsSound};
ghost use Rattle.oxc_sourcemap_plan.specs.Words.{RootingStandsFor};

pub use comments::comment_is_cut;
pub use data_urls::data_urls_read_back;
pub use faults::mappings_fault_is_first;
pub use inputs::remap_inputs_by_path;
pub use oxc_sourcemap_tokens::tokens_in_bounds;
pub use simplifying::{simplified_differs_nowhere, simplified_needed, simplifying_idempotent};

/// The `mappings` text of a list is unique, and reading undoes writing. Lists are *equal as written* if they differ only in
/// what texts leave out: the source position and name of unmapped tokens.
/// - Lists in line order and in bounds (lines and columns of 0 to 4294967295, ids of 0 to 4294967294; the tokens of any map
///   are, by `tokens_in_bounds`) have the same text exactly if they are equal as written (`unique`).
/// - The text of such a list is read without error, with counts above its ids, and gives a list equal as written; an
///   unmapped token comes back with the source line and column reached there (`reads_back`).
/// - The tokens of a text are in line order and in bounds, and written and read again they are the same (`reads_again`).
/// - The parts of fitting chunks, one after the other, are the text (`in_pieces`). The part of any chunk is ASCII
///   (`chunk_texts_are_ascii`).
/// - A sound map of at most 4294967295 tokens is written (`sound_is_written`), one of more is `TooLarge`
///   (`sound_is_too_large`). What is written is read as a map with the same decoded map (its ids looked up), the same
///   names, and tokens equal as written (`sound_reads_back`). It is sound, has as many tokens, and comes back a second time
///   with the same tokens (`sound_stays_sound`).
/// - The tokens of a map that was read from a JSON text are in bounds (`read_is_in_bounds`) and in line order
///   (`read_is_in_line_order`).
pub fn canonical_unique()
    ensures unique { CanonicalUnique }
    ensures reads_back { ReadsBack }
    ensures reads_again { ReadsAgain }
    ensures in_pieces { InPieces }
    ensures chunk_texts_are_ascii { ChunkTextsAreAscii }
    ensures sound_is_written { SoundIsWritten }
    ensures sound_is_too_large { SoundIsTooLarge }
    ensures sound_reads_back { SoundReadsBack }
    ensures sound_stays_sound { SoundStaysSound }
    ensures read_is_in_bounds { ReadIsInBounds }
    ensures read_is_in_line_order { ReadIsInLineOrder }
{}

/// Dropping repeated mappings is harmless. A mapping of a decoded map (a map with its ids looked up) is a repeat if it
/// equals the one before it; two decoded maps are *equal up to repeats* if they are equal once repeats are dropped. A join
/// of records is what a list of adds to a `ConcatSourceMapBuilder` makes, which drops the first token of a map if it equals
/// the last token so far.
/// - Dropping repeats changes no trace, exact or clamped, at any line and column, and a decoded map is sorted exactly if it
///   is sorted without its repeats (`repeats`). So decoded maps that are equal up to repeats have the same traces
///   (`traces_agree`), and the same result of every test of mappings that repeats do not change (`tests_agree`).
/// - Joins of decoded maps that are equal up to repeats are equal up to repeats (`joins_up_to_repeats`).
/// - If the ids of all maps are in range, the decoded map of their join equals, up to repeats, the join of their decoded
///   maps (`decoded_map_of_join`), and the ids of the join are in range, sorted or not, with its ignore list if those of
///   the maps are (`in_range`).
/// - If each map is sound and its decoded map equal up to repeats to a given one, the join is sorted exactly if the join of
///   the given ones is, and then it is sound and equal to that up to repeats (`stands_for`).
/// - The names of a join are those of its maps, in order (`names`), and it has no more tokens than they have (`tokens`).
/// - The decoded map of an indexed map that is read from a JSON value or a JSON text equals, up to repeats, the join of the
///   decoded maps of its sections, each at its offset, with the file of the value (`value_of_sections`, `text_of_sections`).
pub fn dropping_harmless()
    ensures repeats { RepeatsHarmless }
    ensures traces_agree { TracesAgree }
    ensures tests_agree { TestsAgree }
    ensures joins_up_to_repeats { JoinKeepsEqualUpToRepeats }
    ensures decoded_map_of_join { DecodedMapOfJoin }
    ensures in_range { JoinInRange }
    ensures stands_for { JoinStandsFor }
    ensures names { JoinNames }
    ensures tokens { JoinTokens }
    ensures value_of_sections { ValueOfSections }
    ensures text_of_sections { TextOfSections }
{}

/// Joins may be grouped, for any maps, sound or not.
/// - Joining maps in groups and then the groups is joining all maps, each at the sum of its lines, apart from the chunks
///   (`associative`). All are joined at column 0. Groups may be empty. Lines and ids are unlimited numbers here.
/// - Joining one map more is adding it to the join of the others (`one_more`), so a caller that adds maps in a loop joins
///   them.
/// - A join has one chunk for each map, and they fit its tokens (`chunks_fit`), so its canonical text is the parts of its
///   chunks in order (`in_pieces` of `canonical_unique`).
pub fn joins_associative()
    ensures associative { JoinsAssociative }
    ensures one_more { JoinOneMore }
    ensures chunks_fit { JoinChunksFit }
{}

/// Composition is associative: of records, as `SourceMap::compose` makes it, and of decoded maps, which have names and
/// sources in place of ids.
/// - If the source ids of the first map and the ids of the second map's tokens are in range, the decoded map of the
///   composed map is the composition of the decoded maps (`decoded_map_of_composition`).
/// - Decoded maps that are equal up to repeats stay so when they are composed, on either side (`keeps_up_to_repeats`). If
///   two maps are sound and their decoded maps equal up to repeats to given ones, the composed map is sound and equal up to
///   repeats to the composition of the given ones (`stands_for`).
/// - Composition of decoded maps is associative (`decoded_maps`). So the two groupings of three sound maps have the same
///   decoded map, as records without limits (`composed_maps`), and as results, if both succeed (`associative`). The lists
///   of names may differ.
/// - Unless a grouping fails with `TooLarge`, both fail with `SeveralSources` or neither does; their numbers may differ
///   (`fail_together`). If the first and the second map have at most one source, both succeed (`answered`). If one grouping
///   succeeds, the other succeeds with the same decoded map or fails with `TooLarge`; if one fails with `SeveralSources`,
///   the other fails with `SeveralSources` or `TooLarge` (`tell`).
/// - The ids of a composed map are in range if those of the second map are (`in_range`). Its names are names of the two
///   maps, and at most as many as they have together (`names`); it has as many tokens as the first map (`tokens`). An id is
///   too large only if the two maps have more than 4294967295 names (`too_large`). Its tokens are in bounds if those of the
///   two maps are (`in_bounds`).
/// - On no line of sorted tokens do columns go back, as the clauses `map` and `error` of `SourceMap::compose` ask of `input`
///   (`sorted_goes_on`).
pub fn composition_associative()
    ensures decoded_map_of_composition { DecodedMapOfComposition }
    ensures keeps_up_to_repeats { CompositionKeepsEqualUpToRepeats }
    ensures stands_for { CompositionStandsFor }
    ensures decoded_maps { DecodedMapsAssociative }
    ensures composed_maps { ComposedMapsAssociative }
    ensures associative { CompositionAssociative }
    ensures fail_together { GroupingsFailTogether }
    ensures answered { GroupingsAnswered }
    ensures tell { GroupingsTell }
    ensures in_range { CompositionInRange }
    ensures names { CompositionNames }
    ensures tokens { CompositionTokens }
    ensures too_large { CompositionTooLarge }
    ensures in_bounds { CompositionInBounds }
    ensures sorted_goes_on { SortedGoesOn }
{}

/// Remapping is associative: of records, as `SourceMap::remap` makes it, and of decoded maps, which have names and sources in
/// place of ids. A map is remapped by inputs, each a map for the sources of one path, byte for byte; the first for a path
/// counts.
/// - The decoded map of a remapped map is the remapping of the decoded maps, whatever the maps are
///   (`decoded_map_of_remapping`). A source that stays is ignored exactly if it was, and one of an input exactly if the input
///   ignores it (`ignores`).
/// - Remapping by inputs and then by others is remapping by the inputs, each remapped by the others, and after them the others:
///   these count for a source that has no input among the first (`decoded_maps`, and `maps` of the decoded maps of records).
/// - A join that is remapped is the join of its remapped parts, if the entries of their ignore lists are in range (`join`). Of
///   records that is so up to repeats, if all ids are in range (`joined_maps`).
/// - Composing with a remapped map is remapping the composed one (`composition`; of records, if the source ids of the first
///   map and the ids of the second map's tokens are in range, `composed_maps`).
/// - A map of one source that has an input is composed with the input (`one`, `one_map`), and a decoded map without inputs
///   stays (`nothing`), but for the source root, which is dropped, and for how the ignore list is written: ascending, each
///   source once, and none without entries.
/// - Decoded maps that are equal up to repeats stay so when they are remapped, inputs too (`keeps_up_to_repeats`). If maps are
///   sound and their decoded maps equal up to repeats to given ones, the remapped map is sound and equal up to repeats to the
///   remapping of the given ones (`stands_for`).
/// - A remapped map is sorted exactly if the first map is (`sorted`), and its ids are in range (`in_range`), whatever the
///   inputs are; so it is sound if the first map is (`sound`). The same holds of any result where columns go back on a line of
///   an input (`any_map`). It has as many tokens as the first map, and a content for each source (`counts`). Its names are
///   names of the maps, and at most as many as they have together (`names`).
/// - On no line of sorted inputs do columns go back, as the clauses `map` and `error` of `SourceMap::remap` ask, and they have
///   no fault (`sorted_goes_on`). If inputs have no fault, the result is a map or `TooLarge` (`answered`): only if the remapped
///   map has more than 4294967295 sources, or the maps more names (`too_large`). Its tokens are in bounds if those of the maps
///   are (`in_bounds`).
pub fn remapping_associative()
    ensures decoded_map_of_remapping { DecodedMapOfRemapping }
    ensures ignores { RemappingIgnores }
    ensures decoded_maps { RemappedDecodedMapsAssociative }
    ensures maps { RemappedMapsAssociative }
    ensures join { JoinRemapped }
    ensures joined_maps { JoinedMapsRemapped }
    ensures composition { CompositionRemapped }
    ensures composed_maps { ComposedMapsRemapped }
    ensures one { OneRemapped }
    ensures one_map { OneMapRemapped }
    ensures nothing { NothingRemapped }
    ensures keeps_up_to_repeats { RemappingKeepsEqualUpToRepeats }
    ensures stands_for { RemappingStandsFor }
    ensures sorted { RemappingSorted }
    ensures in_range { RemappingInRange }
    ensures sound { RemappingIsSound }
    ensures any_map { SomeRemappingIsSound }
    ensures counts { RemappingCounts }
    ensures names { RemappingNames }
    ensures sorted_goes_on { SortedInputsGoOn }
    ensures answered { RemappingAnswered }
    ensures too_large { RemappingTooLarge }
    ensures in_bounds { RemappingInBounds }
{}

/// A source root is applied once: each source gets the root before it, as `SourceMap::apply_source_root` does, and the root
/// becomes none.
/// - The decoded map of the result is the decoded map with its source root applied (`decoded_map_of_rooting`). Applied again,
///   or without a root, nothing changes (`again`; of decoded maps, `decoded_maps_again`).
/// - Nothing changes but the source root and the texts of sources, of which there are as many (`keeps`; of decoded maps,
///   `decoded_maps_keep`). The traces, exact and clamped, lead to the same positions and names, with the root before the
///   source (`traces`).
/// - Decoded maps that are equal up to repeats stay so (`keeps_up_to_repeats`), a sound map stays sound (`sound`), and one
///   that is sound and whose decoded map is equal up to repeats to a given one stays so, once the roots of both are applied
///   (`stands_for`).
pub fn rooting_idempotent()
    ensures decoded_map_of_rooting { DecodedMapOfRooting }
    ensures again { RootingAgain }
    ensures decoded_maps_again { RootedDecodedMapsAgain }
    ensures keeps { RootingKeeps }
    ensures decoded_maps_keep { RootedDecodedMapsKeep }
    ensures traces { TracesOfRooting }
    ensures keeps_up_to_repeats { RootingKeepsEqualUpToRepeats }
    ensures sound { RootingIsSound }
    ensures stands_for { RootingStandsFor }
{}

/// The traces of a composition are those of its first decoded map, led on through the second. A trace is what the mapping
/// found at a generated position points to.
/// - The exact trace of the composition of two decoded maps at a line and a column is nothing where the exact trace of the
///   first is nothing, and unmapped where that is unmapped. Else that gives an original position, and the trace of the
///   composition is what the clamped trace of the second says at its line and column, with the name of the original position
///   if the second has none there. It is unmapped if the clamped trace of the second finds nothing, or an unmapped mapping.
///   The clamped trace of the composition is the clamped trace of the first, led on in the same way (`decoded_maps`). Neither
///   decoded map need be sorted.
/// - The same holds of maps, if the source ids of the first map and the ids of the second map's tokens are in range (`maps`).
///
/// It is not true with the exact trace of the second: in front of the first mapping of a line only the clamped trace finds
/// one.
pub fn trace_of_composition()
    ensures decoded_maps { TracesOfComposition }
    ensures maps { TracesOfComposedMaps }
{}

/// The traces of a remapped map are those of the first map, led on through the input for the source.
/// - The exact trace of a remapped decoded map at a line and a column is nothing where the exact trace of the first is nothing,
///   and unmapped where that is unmapped. Else that gives an original position. If its source has no input, it is the trace.
///   If it has one, the trace is what the clamped trace of the input says at its line and column, with the name of the original
///   position if the input has none there; it is unmapped if the clamped trace of the input finds nothing, or an unmapped
///   mapping. The clamped trace is the clamped trace of the first, led on in the same way (`decoded_maps`). Nothing is asked
///   of the decoded maps.
/// - The same holds of maps, whatever they are (`maps`).
///
/// It is not true with the exact trace of the input: in front of the first mapping of a line only the clamped trace finds one.
pub fn trace_of_remap()
    ensures decoded_maps { TracesOfRemapping }
    ensures maps { TracesOfRemappedMaps }
{}

/// The traces of a join are those of its parts. A part is a decoded map and the offset where its code begins. A line and a
/// column of it come to stand at a position of the join: further down by the line of the offset, and on line 0 of the part
/// further right by the column of the offset.
/// - On a line of a part where no other part has a mapping, the traces of the join, exact and clamped, are those of the part,
///   at every column (`own_line`; of maps `own_line_of_maps`, if all ids are in range). The join need not be sorted. So if each
///   part begins on a line past all lines of the parts before it, a part is traced in the join as by itself, on every line
///   before that where the next part begins.
/// - In a sorted join, one part answers at a position: the first one with a mapping at the position itself, or else the last
///   one with a mapping before it on its line. The exact trace of the join is that of this part, and nothing if there is no
///   such part. The clamped trace is the clamped trace of this part, or else of the first part with a mapping on the line
///   (`in_order`).
/// - So the traces of a sorted join, exact and clamped, are those of a part where it has a mapping at the position or before
///   it on the line, no part before it has one at the position itself, and no part after it has begun (`within_part`).
/// - The traces of a sorted join of maps, if all ids are in range, are those of its parts in the same way (`maps`).
///
/// It is not true that the last part that has begun always answers: where it begins at a mapping of a part before it, that
/// mapping is found; and where it has no mapping yet, the last one of a part before it on the line. Nor need the part that
/// answers be that of `in_order` if parts share a line and columns go back on it.
pub fn trace_of_join()
    ensures own_line { TracesOnOwnLine }
    ensures in_order { TracesOfSortedJoin }
    ensures within_part { TracesWithinPart }
    ensures maps { TracesOfJoinedMaps }
    ensures own_line_of_maps { TracesOnOwnLineOfMaps }
{}

/// The traces of a bundle: of a join of maps at the lines where their codes begin. On a line of one code they are, exact and clamped,
/// those of its map there, if all ids are in range, the tokens of the maps before it are before its code, and the maps behind it begin
/// behind its code. There may be other lines between the codes.
pub fn trace_of_bundle()
    ensures { TracesOfBundle }
{}

/// Steps over simplified decoded maps have the traces, exact and clamped, that they have over the decoded maps themselves, at every
/// position. All that are simplified have to be sorted.
/// - The composition of two, both simplified (`composed`).
/// - One remapped by inputs, it and all inputs simplified (`remapped`).
/// - A join with one part simplified, at each position of that part that comes to stand on a line where no other part has a
///   mapping: so everywhere, if each part begins on a line past all lines of the parts before it (`joined`).
pub fn steps_over_simplified()
    ensures composed { SimplifiedComposed }
    ensures remapped { SimplifiedRemapped }
    ensures joined { SimplifiedJoined }
{}

/// Simplified maps, as steps over maps need them; that a simplified map means the simplified decoded map is the clause
/// `decoded_map` of `simplifying_harmless`.
/// - Decoded maps that are equal up to repeats are equal once they are simplified (`ends_repeats`). If a map is sound and its
///   decoded map equal up to repeats to a given one, the simplified map is sound, and its decoded map equal up to repeats to the
///   given one, simplified (`stands_for`).
/// - A simplified map has no more tokens and no more sources than the map, and as many contents as sources (`counts`). Its names
///   are names of the map, and no more (`names`).
/// - Its tokens are in bounds if those of the map are, its names and sources number at most 4294967295 each, and no column is
///   above that (`in_bounds`).
pub fn simplifying_stands()
    ensures ends_repeats { SimplifyingEndsRepeats }
    ensures stands_for { SimplifyingStandsFor }
    ensures counts { SimplifyingCounts }
    ensures names { SimplifyingNames }
    ensures in_bounds { SimplifyingInBounds }
{}
