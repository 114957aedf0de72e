//! Room for the JSON text of a map, taken once, so that a large text is not moved while it is written.
ghost use Rattle.std.specs.Prelude.{◌+◌};
ghost use Rattle.std.specs.List.{sum_by};
ghost use Rattle.oxc_sourcemap_json.specs.Words.{string_room, content_room, IsRoomFor};

use oxc_sourcemap_parts::SourceMapParts;
use std::borrow::CowStr;

/// Room for the keys, the brackets and the short fields of a map.
const KEYS: usize = 256;

/// Room for a token in the mappings. Most take fewer bytes.
const TOKEN: usize = 8;

/// Room for a string in a list, with an eighth more for its escapes.
fn string_room(text: &CowStr<'_>) -> usize
    ensures { IsRoomFor (string_room text.now) result }
{
    let len = text.as_str().len();
    len.saturating_add(len / 8).saturating_add(3)
}

/// Room for a list of strings.
fn texts_room(texts: &[CowStr<'_>]) -> usize
    ensures { IsRoomFor (sum_by string_room texts.now) result }
{
    let mut room: usize = 0;
    for text in texts {
        room = room.saturating_add(string_room(text));
    }
    room
}

/// Room for a list of contents.
fn contents_room(contents: &[Option<CowStr<'_>>]) -> usize
    ensures { IsRoomFor (sum_by content_room contents.now) result }
{
    let mut room: usize = 0;
    for content in contents {
        room = room.saturating_add(match content {
            Some(text) => string_room(text),
            None => 5,
        });
    }
    room
}

/// Room for the JSON text of a map. A text with more escapes or longer mappings grows on.
pub(crate) fn text_room(parts: &SourceMapParts<'_>) -> usize
    ensures { IsRoomFor (sum_by string_room parts.now.names.items +
        (sum_by string_room parts.now.sources.items +
        sum_by content_room parts.now.source_contents.items)) result }
{
    let names = texts_room(parts.names.as_slice());
    let sources = texts_room(parts.sources.as_slice());
    let contents = contents_room(parts.source_contents.as_slice());
    let mappings = parts.tokens.len().saturating_mul(TOKEN);
    names
        .saturating_add(sources)
        .saturating_add(contents)
        .saturating_add(mappings)
        .saturating_add(KEYS)
}
