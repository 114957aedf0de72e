//! Maps as they are found: a reader that mends what the exact reader refuses. Part of `oxc_sourcemap`.
#![tactic(auto)]

mod found;
mod laws;
mod mending;
mod opening;
mod reading;
mod reason;

pub use found::{FoundParts, found_fault_at, read_found_parts, read_located};
pub use laws::mending_harmless;
pub use mending::{Mend, MendKind};
pub use reason::fault_reason;
