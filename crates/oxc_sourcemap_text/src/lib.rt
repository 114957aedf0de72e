//! Texts: lines, positions and offsets in UTF-16 units, comments that name a map, and data URLs. Part of `oxc_sourcemap`.
#![tactic(auto)]

mod positions;
mod url;

pub use positions::{
    Lines, PositionError, TextPositions, positions_and_offsets_inverse, utf16_units,
};
pub use url::{
    DataUrlError, Language, SourceMappingComment, appended_comment_found, decode_data_url,
    source_mapping_comment, source_mapping_url, split_line,
};
