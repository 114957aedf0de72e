//! The program `smap` as a library: it reads a command from arguments, and runs it over a reader and a writer.
#![tactic(auto)]

mod arguments;
mod failure;
mod placing;
mod port;
mod running;
mod tracing;

pub use arguments::{Command, read_words, take_where};
pub use failure::Failure;
pub use oxc_sourcemap_plan::{RunError, inputs_of, read_number, read_plan};
pub use placing::run_where;
pub use port::Port;
pub use running::run;
pub use tracing::trace;
