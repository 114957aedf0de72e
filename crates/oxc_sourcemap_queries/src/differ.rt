//! Where the traces of two maps differ first.

mod difference;
mod originals;
mod walk;

pub use difference::first_difference_of_parts;
