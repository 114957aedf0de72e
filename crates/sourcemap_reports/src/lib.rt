//! What is wrong in maps, what differs, what ran and how long it is: the commands `check`, `coverage`, `diff`, `page` and `size` of the
//! program `sourcemap`.
#![tactic(auto)]

pub mod check;
mod codes;
pub mod coverage;
pub mod diff;
mod functions;
mod gzip;
mod html;
mod originals;
pub mod page;
mod report;
mod scopes;
pub mod size;
mod template;
