//! Laws of the definitions. Each is a function that does nothing: its contract is the law, and a caller gets it by calling the
//! function. All but `tokens_in_bounds` have no parameters, result or body.

pub use oxc_sourcemap_compiled::compiled_means_map;
pub use oxc_sourcemap_found::mending_harmless;
pub use oxc_sourcemap_map::{name_ids_unique, reverse_lookups, reverse_round_trip};
pub use oxc_sourcemap_plan::{
    canonical_unique, comment_is_cut, composition_associative, data_urls_read_back,
    dropping_harmless, joins_associative, mappings_fault_is_first, remap_inputs_by_path,
    remapping_associative, rooting_idempotent, simplified_differs_nowhere, simplified_needed,
    simplifying_idempotent, simplifying_stands, steps_over_simplified, tokens_in_bounds,
    trace_of_bundle, trace_of_composition, trace_of_join, trace_of_remap,
};
pub use oxc_sourcemap_queries::range_pieces;
pub use oxc_sourcemap_scopes::{found_contain, scopes_lead};
pub use oxc_sourcemap_steps::{simplifying_harmless, sorting_harmless};
pub use oxc_sourcemap_text::{appended_comment_found, positions_and_offsets_inverse};
