//! What the commands of the program `sourcemap` share: what they are asked for, reading and writing files, paths, and finding the maps
//! of codes.
#![tactic(auto)]

mod asked;
mod compiled;
mod contents;
mod finding;
mod folders;
mod following;
mod input;
mod limit;
mod naming;
mod paths;
mod progress;
mod scopes;
mod sections;
mod writing;

pub use asked::{Asked, Status};
pub use compiled::{
    COMPILED_END, Decompiled, Written, compiled_of, decompile, is_stale, read_written,
};
pub use contents::{CONTENTS_END, content_on_disk, is_made_of, put_contents, take_contents};
pub use finding::{
    CodeFile, InputPrefix, Lookup, MapText, Places, Sought, error_text, find_code,
    found_error_text, is_in_root, is_map, is_map_file, language_of, map_by_name, map_of_code,
    map_of_file, map_without_code, read_map, read_map_alone, rooted_map, text_of_map,
};
pub use folders::{Listed, files_below, files_matching, files_with_maps, names_folder};
pub use following::followed;
pub use input::{
    is_file, is_regular, print, print_bytes, read_bytes, read_text, shown_name, tell, usage, warn,
};
pub use limit::{limit_of, limited_json};
pub use naming::{SourceNames, first_sources};
pub use paths::{
    bytes_to_escape, current_folder, file_name, folder_of, is_inside, path_of_url, place_of,
    plain_path, real_name, relative_to, with_slash, written_name,
};
pub use progress::Progress;
pub use scopes::{read_without_scopes, scopes_of_map};
pub use sections::{parts_in, section_maps};
pub use writing::{refuse_overwriting, write_files, write_text};
