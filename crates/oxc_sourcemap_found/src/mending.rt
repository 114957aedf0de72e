//! What is mended in a map as it is found.

pub(crate) mod cut;
pub(crate) mod members;
pub(crate) mod mend;
pub(crate) mod plain;
pub(crate) mod sections;
pub(crate) mod tokens;

pub use mend::{Mend, MendKind};
