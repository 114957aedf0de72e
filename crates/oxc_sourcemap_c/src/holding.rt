//! Handles, what they hold, and what is borrowed of it.

mod compiled;
mod handle;
mod held;
mod lent;
mod loose;
mod operations;
mod sent;
mod setters;

pub use compiled::{
    find_all_compiled, put_bytes, put_compiled, trace_all_compiled, trace_compiled,
};
pub use handle::Handle;
pub use held::{Held, LoadedMap, index_of};
pub use lent::Lent;
pub use operations::{box_map, empty_box, put, put_map, put_scopes, put_text};
