//! Errors, and the places of faults.

mod error;
mod fault;
mod plan_error;

pub use error::{Error, Field, JsonFault, Memory, Result};
pub use fault::{Fault, FaultPlace, FaultSpot, Located, SegmentPlace, name_of};
pub use plan_error::PlanError;
