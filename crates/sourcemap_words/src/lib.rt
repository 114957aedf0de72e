//! What the program `sourcemap` reads as words: its arguments, frames of stack traces and V8's coverage; and why a command fails. Help, completions and the manual are made from the texts of `arguments`.
#![tactic(auto)]

mod arguments;
mod calling;
mod completions;
mod failure;
mod frames;
mod manual;
mod patterns;
mod v8;
mod views;
mod wrapping;

pub use arguments::{VERSION, program};
pub use calling::{Calling, FrameForm};
pub use completions::completions_of;
pub use failure::{Failure, Outcome, failure_of, file_failure};
pub use frames::{Finder, Line, NO_TEXT, Named, Patterns};
pub use manual::manual_of;
pub use patterns::PathPattern;
pub use v8::{Called, Report, Run, Script, ranges_of, runs_of};
pub use views::{Nesting, Row};
pub use wrapping::wrapped;
