//! The calls for C that read what handles hold, and the messages of errors.

pub(crate) mod asked;
pub mod getters;
pub mod lookups;
pub mod mends;
pub mod messages;
pub mod reverse;
pub mod urls;
pub mod within;
pub mod writing;
