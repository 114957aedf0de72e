//! What maps have in them, taken out and put in, and maps in codes: the commands `debug-id`, `embed`, `external`, `extract`,
//! `inline` and `strip` of the program `sourcemap`.
#![tactic(auto)]

pub mod data_urls;
pub mod debug_id;
mod editing;
pub mod embed;
pub mod extract;
mod moving;
mod naming;
mod placing;
pub mod strip;
