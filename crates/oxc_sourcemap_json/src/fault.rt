//! Where a JSON text or value has its first fault, and what is really wrong there.

mod fault_reason;
mod json_fault;

pub use fault_reason::{
    FaultReason, json_fault_reason, reading_reason, segment_reason, value_reason,
};
pub use json_fault::{json_fault_at, place_of, value_fault_at};
