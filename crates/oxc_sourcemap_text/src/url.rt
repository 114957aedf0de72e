//! Data URLs of maps, and the URL that a code names for its map.

mod comment;
mod data_url;
mod data_url_error;
mod language;
mod laws;
mod line;
mod mapping_url;

pub use data_url::decode_data_url;
pub use data_url_error::DataUrlError;
pub use language::Language;
pub use laws::appended_comment_found;
pub use line::split_line;
pub use mapping_url::{SourceMappingComment, source_mapping_comment, source_mapping_url};
