//! The JSON object of a source map (ECMA-426, "Source map format"): its fields, read from a JSON value or, token by token, from a text.

mod json_source_map;
mod members;
mod plain;
mod shape;
mod token_reader;
mod usual;

pub use json_source_map::JSONSourceMap;
pub use members::json_of;
pub use shape::{file_from_value, ignored_field, read_file, read_id};
pub use usual::{UsualMap, plain_map, usual_map};
