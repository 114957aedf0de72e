//! The offsets of sections, and whether they are in order.
ghost use Rattle.std.specs.Prelude.{◌≡◌, ◌&&◌, List, option_map};
ghost use Rattle.oxc_sourcemap_json.specs.Words.{view, MapRecord, last, Position, joined};
ghost use Rattle.oxc_sourcemap_json.specs.Words.{number_at, as_position, offset_in, position_of};
ghost use Rattle.oxc_sourcemap_json.specs.Words.{may_follow, offset_after};

use crate::object::read_id;
use oxc_sourcemap_join::JoinedParts;
use oxc_sourcemap_tokens::{Error, Field, JsonFault, Position, Result, Token};
use serde_json::Value;

/// The whole number of 0 to 4294967295 at a key of a value.
fn number_at(value: &Value, key: &str) -> Option<u32>
    ensures { result ≡ number_at key.now (view value.now) }
{
    read_id(value.get(key)?)
}

/// A value as a position, if it is an object with a line and a column.
fn as_position(value: &Value) -> Option<Position>
    ensures { result ≡ as_position (view value.now) }
{
    let line = number_at(value, "line")?;
    let column = number_at(value, "column")?;
    Some(Position { line, column })
}

/// The offset of a section. Fails with `BadJson(Shape(Sections))` if the section is no object, then with
/// `BadJson(Shape(Offset))` if its offset is no object with a line and a column.
pub fn offset_in(section: &Value) -> Result<Position>
    ensures { result ≡ offset_in (view section.now) }
{
    if !section.is_object() {
        return Err(Error::BadJson(JsonFault::Shape(Field::Sections)));
    }
    let Some(place) = section.get("offset").and_then(as_position) else {
        return Err(Error::BadJson(JsonFault::Shape(Field::Offset)));
    };
    Ok(place)
}

/// The generated position of a token.
fn position_of(token: Token) -> Position
    ensures { result ≡ position_of token }
{
    Position {
        line: token.get_dst_line(),
        column: token.get_dst_col(),
    }
}

/// Whether a position is not before another one, if there is another one.
pub fn may_follow(before: Option<Position>, place: Position) -> bool
    ensures { result ≡ may_follow before place }
{
    match before {
        Some(before) => {
            before.line < place.line || (before.line == place.line && before.column <= place.column)
        }
        None => true,
    }
}

/// The position of the last token of a join.
fn last_position(so_far: &JoinedParts<'_>) -> Option<Position>
    ensures { result ≡ option_map position_of (last so_far.now.tokens) }
{
    so_far.last_token().map(position_of)
}

/// Whether a section may begin at a position, after the joined ones, the last of which begins at `before`.
fn may_begin(so_far: &JoinedParts<'_>, before: Option<Position>, place: Position) -> bool
    ensures { result ≡ (may_follow before place
        && may_follow (option_map position_of (last so_far.now.tokens)) place) }
{
    may_follow(before, place) && may_follow(last_position(so_far), place)
}

/// The offset of the section after the joined ones, the last of which begins at `before`. Fails with `BadJson` if the section has
/// none, and with `SectionOrder` if it is before `before` or before the last joined token.
pub(crate) fn offset_after(
    so_far: &JoinedParts<'_>,
    before: Option<Position>,
    section: &Value,
) -> Result<Position>
    ensures { (front : List (MapRecord × Position)) → so_far.now ≡ joined front
        → before ≡ option_map (λ s. s.1) (last front)
        → result ≡ offset_after front (view section.now) }
{
    let place = offset_in(section)?;
    if !may_begin(so_far, before, place) {
        return Err(Error::SectionOrder(so_far.map_count()));
    }
    Ok(place)
}
