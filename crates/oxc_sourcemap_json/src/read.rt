//! The parts of a map read from JSON: from the JSON object of a source map, and from any JSON value or JSON text, in which an indexed
//! map (ECMA-426, "Index source map") is the join of its sections.

mod decode;
mod offsets;
mod reading;
mod sections;

pub use decode::{decode_parts, read_fields};
pub use offsets::{may_follow, offset_in};
pub use reading::{reading_byte, reading_place};
pub use sections::{
    decode_parts_from_string, decode_parts_from_value, into_member, is_indexed, is_plain,
    offset_place, read_parts_from_string, read_parts_from_value,
};
