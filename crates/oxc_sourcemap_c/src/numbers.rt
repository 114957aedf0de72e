//! Numbers for what C sees: errors, fields, options and places.

pub(crate) mod call_error;
pub(crate) mod fault;
mod field_numbers;
mod options;
mod place_numbers;
mod scopes_kinds;

pub use call_error::CallError;
pub use fault::Fault;
pub use options::{Direction, bias_from};
pub use place_numbers::{PlaceNumbers, number_told, told_number};
