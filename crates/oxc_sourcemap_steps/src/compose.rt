//! Composing two maps: what the first leads to, the second leads on.

mod compose;
mod inherited_names;

pub use compose::{compose_lent_parts, compose_parts, target};
