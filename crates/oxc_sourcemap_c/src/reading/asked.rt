//! The texts of a map that a call may ask for.
ghost use Rattle.std.specs.Prelude.{◌≡◌};
ghost use Rattle.oxc_sourcemap_c.specs.Words.{text_at, lent_item};

use oxc_sourcemap_map::OwnedSourceMap;

/// Which text of a map is asked for.
#[derive(Clone, Copy)]
pub enum Asked {
    Name(u32),
    Source(u32),
    SourceContent(u32),
    File,
    SourceRoot,
    DebugId,
}

impl Asked {
    /// The text of a map that is asked for. None if the map has no such text.
    pub(crate) fn text_in(self, map: &OwnedSourceMap) -> Option<&str>
        ensures { lent_item result ≡ text_at map.now self }
    {
        match self {
            Asked::Name(id) => map.get_name(id),
            Asked::Source(id) => map.get_source(id),
            Asked::SourceContent(id) => map.get_source_content(id),
            Asked::File => map.get_file(),
            Asked::SourceRoot => map.get_source_root(),
            Asked::DebugId => map.get_debug_id(),
        }
    }
}
