//! Laws of the definitions; and plans: pipelines of reading, rewriting, simplifying, joining, composing and remapping maps and of
//! applying source roots. `evaluate_to_parts` makes the map that a plan means, `evaluate_where` also names the text at fault, and
//! `read_plan` reads a plan from words. Part of `oxc_sourcemap`.
#![tactic(auto)]

mod collecting;
mod fault;
mod laws;
mod numbers;
mod places;
mod plan;
mod plan_arguments;
mod run_error;

pub use fault::PlanFault;
pub use laws::{
    canonical_unique, comment_is_cut, composition_associative, data_urls_read_back,
    dropping_harmless, joins_associative, mappings_fault_is_first, remap_inputs_by_path,
    remapping_associative, rooting_idempotent, simplified_differs_nowhere, simplified_needed,
    simplifying_idempotent, simplifying_stands, steps_over_simplified, tokens_in_bounds,
    trace_of_bundle, trace_of_composition, trace_of_join, trace_of_remap,
};
pub use numbers::read_number;
pub use places::plan_fault_at;
pub use plan::{Plan, evaluate_to_parts, evaluate_where};
pub use plan_arguments::{inputs_of, read_plan};
pub use run_error::RunError;
