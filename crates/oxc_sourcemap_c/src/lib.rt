//! The library for C: opaque handles, numbers, and texts as pointers with lengths (`bindings/c/oxc_sourcemap.h`). The export
//! `proved_X` of each call `smap_X` stands beside the call over what handles hold.
//!
//! A call returns 0, or the code of its error (`fault_of`). A call that fails leaves handles as they were.
#![tactic(auto)]

mod answers;
pub mod compiled;
pub mod freeing;
pub mod holding;
pub mod making;
pub mod numbers;
pub mod reading;
pub mod scopes;
pub mod texts;
