//! Positions of generated code.

/// A position of generated code: a line and a column, each from 0, the column in UTF-16 code units. In a join, where the
/// code of a map begins.
#[repr(C)]
#[derive(Clone, Copy)]
pub struct Position {
    pub line: u32,
    pub column: u32,
}
