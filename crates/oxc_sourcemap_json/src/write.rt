//! The parts of a map written as JSON: as a JSON object, as a JSON text with its strings, and as a data URL.

mod encode;
mod escapes;
mod json_string;
mod json_text;
mod room;
mod within;

pub use encode::{encode_owned_parts, encode_parts};
pub use json_string::push_json_string;
pub use json_text::{encode_parts_into, encode_parts_to_data_url, encode_parts_to_string};
pub use within::{
    encode_mappings_within, encode_parts_to_data_url_within, encode_parts_to_string_within,
};
