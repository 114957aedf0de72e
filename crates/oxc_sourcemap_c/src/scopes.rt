//! The scopes of maps: read, and asked for frames and for values of variables.

pub mod asking;
pub mod chains;
pub mod making;
pub mod values;
