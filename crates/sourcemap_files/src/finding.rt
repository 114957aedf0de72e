//! Finding the code and the map that an argument or a frame names.

mod finding;
mod matching;

pub use finding::{
    CodeFile, Lookup, MapText, Places, Sought, error_text, find_code, found_error_text, is_in_root,
    is_map, is_map_file, language_of, map_by_name, map_of_code, map_of_file, map_without_code,
    read_map, read_map_alone, rooted_map, text_of_map,
};
pub use matching::{CodePath, InputPrefix, prefix_of};
