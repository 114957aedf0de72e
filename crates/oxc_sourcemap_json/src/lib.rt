//! The JSON text of a map: its members, reading, writing, and where a text is wrong. Part of `oxc_sourcemap`.
#![tactic(auto)]

mod fault;
mod object;
mod read;
mod write;

pub use fault::{
    FaultReason, json_fault_at, json_fault_reason, place_of, reading_reason, segment_reason,
    value_fault_at, value_reason,
};
pub use object::{JSONSourceMap, file_from_value, ignored_field, json_of, read_file, read_id};
pub use read::{
    decode_parts, decode_parts_from_string, decode_parts_from_value, into_member, is_indexed,
    is_plain, may_follow, offset_in, offset_place, read_fields, read_parts_from_string,
    reading_byte, reading_place,
};
pub use write::{
    encode_mappings_within, encode_owned_parts, encode_parts, encode_parts_into,
    encode_parts_to_data_url, encode_parts_to_data_url_within, encode_parts_to_string,
    encode_parts_to_string_within, push_json_string,
};
