//! The JSON text of a map, written field by field, and its data URL.
ghost use Rattle.std.specs.Prelude.{◌≡◌, ◌≢◌, ◌++◌, map, string_bytes, codes, decimal, IfErr, OnOk};
ghost use Rattle.std.specs.Prelude.{OnErr, Ok, Some, None};
ghost use Rattle.std.specs.Cow.{cow_str_bytes};
ghost use Rattle.oxc_sourcemap_json.specs.Words.{OutOfMemory, canonical, writing_fault};
ghost use Rattle.oxc_sourcemap_json.specs.Words.{json_string, text_of, ids_of, record_of_parts};
ghost use Rattle.oxc_sourcemap_json.specs.Words.{cow_texts, written_contents, encoded_record};
ghost use Rattle.oxc_sourcemap_json.specs.Words.{json_list, content_text, field_text};
ghost use Rattle.oxc_sourcemap_json.specs.Words.{optional_field, json_text, map_text, map_url};
ghost use Rattle.oxc_sourcemap_json.specs.Words.{head_text, lists_text, tail_text, Answers};
ghost use Rattle.oxc_sourcemap_json.specs.Words.{OnlyMemory, OnlyAdds, Pushes, appended};

use crate::write::encode::{chunks_of, has_content};
use crate::write::json_string::{push_comma, push_json_string, push_json_strings};
use crate::write::room::text_room;
use base64::engine::general_purpose::STANDARD;
use oxc_sourcemap_mappings::encode_mappings;
use oxc_sourcemap_parts::SourceMapParts;
use oxc_sourcemap_tokens::Result;
use std::alloc::Global;
use std::borrow::CowStr;

// After an `Err` a function `push_` leaves a beginning of what it adds; `encode_parts_into` cuts it off.

/// Appends a comma, a key and a colon.
fn push_key(key: &str, out: &mut String) -> Result<()>
    ensures text { Pushes result out.old out.new (codes ",\"" ++ (key.now ++ codes "\":")) }
    ensures error { OnlyMemory result }
    ensures adds { OnlyAdds out.old out.new }
{
    out.push_str(",\"")?;
    out.push_str(key)?;
    out.push_str("\":")?;
    Ok(())
}

/// Appends a string.
fn push_text(text: &CowStr<'_>, out: &mut String) -> Result<()>
    ensures text { Pushes result out.old out.new (json_string (cow_str_bytes text.now)) }
    ensures error { OnlyMemory result }
    ensures adds { OnlyAdds out.old out.new }
{
    push_json_string(text.as_str(), out)
}

/// Appends a list of strings.
#[tactic(auto, unfolding(crate::specs::JsonText::json_list))]
fn push_texts(texts: &[CowStr<'_>], out: &mut String) -> Result<()>
    ensures text { Pushes result out.old out.new (json_list json_string (cow_texts texts.now)) }
    ensures error { OnlyMemory result }
    ensures adds { OnlyAdds out.old out.new }
{
    out.push('[')?;
    push_json_strings(texts, out)?;
    out.push(']')?;
    Ok(())
}

/// Appends a content, or `null` if it is not known.
fn push_content(content: &Option<CowStr<'_>>, out: &mut String) -> Result<()>
    ensures text { Pushes result out.old out.new (content_text (text_of content.now)) }
    ensures error { OnlyMemory result }
    ensures adds { OnlyAdds out.old out.new }
{
    match content {
        Some(content) => push_text(content, out),
        None => Ok(out.push_str("null")?),
    }
}

/// Appends a list of contents.
#[tactic(auto, unfolding(crate::specs::JsonText::json_list))]
fn push_contents(contents: &[Option<CowStr<'_>>], out: &mut String) -> Result<()>
    ensures text { Pushes result out.old out.new
        (json_list content_text (map text_of contents.now)) }
    ensures error { OnlyMemory result }
    ensures adds { OnlyAdds out.old out.new }
{
    out.push('[')?;
    let mut is_first = true;
    for content in contents {
        push_comma(out, is_first)?;
        push_content(content, out)?;
        is_first = false;
    }
    out.push(']')?;
    Ok(())
}

/// Appends a number.
fn push_id(id: u32, out: &mut String) -> Result<()>
    ensures text { Pushes result out.old out.new (decimal id) }
    ensures error { OnlyMemory result }
    ensures adds { OnlyAdds out.old out.new }
{
    let alloc = *out.allocator();
    out.push_str(id.to_string(alloc)?.as_str())?;
    Ok(())
}

/// Appends a list of numbers.
#[tactic(auto, unfolding(crate::specs::JsonText::json_list))]
fn push_ids(ids: &[u32], out: &mut String) -> Result<()>
    ensures text { Pushes result out.old out.new (json_list decimal ids.now) }
    ensures error { OnlyMemory result }
    ensures adds { OnlyAdds out.old out.new }
{
    out.push('[')?;
    let mut is_first = true;
    for id in ids {
        push_comma(out, is_first)?;
        push_id(*id, out)?;
        is_first = false;
    }
    out.push(']')?;
    Ok(())
}

/// Appends a field with a text, if there is one.
#[tactic(auto, unfolding(crate::specs::JsonText::field_text, crate::specs::JsonText::optional_field))]
fn push_optional_text(key: &str, text: &Option<CowStr<'_>>, out: &mut String) -> Result<()>
    ensures text { Pushes result out.old out.new
        (optional_field key.now json_string (text_of text.now)) }
    ensures error { OnlyMemory result }
    ensures adds { OnlyAdds out.old out.new }
{
    let Some(text) = text else {
        return Ok(());
    };
    push_key(key, out)?;
    push_text(text, out)
}

/// Appends a field with contents, if one of them is known.
#[tactic(auto, unfolding(crate::specs::JsonText::field_text, crate::specs::JsonText::optional_field))]
fn push_optional_contents(
    key: &str,
    contents: &[Option<CowStr<'_>>],
    out: &mut String,
) -> Result<()>
    ensures text { Pushes result out.old out.new
        (optional_field key.now (json_list content_text)
        (written_contents (map text_of contents.now))) }
    ensures error { OnlyMemory result }
    ensures adds { OnlyAdds out.old out.new }
{
    if !has_content(contents) {
        return Ok(());
    }
    push_key(key, out)?;
    push_contents(contents, out)
}

/// Appends a field with a list of numbers, if there is one.
#[tactic(auto, unfolding(crate::specs::JsonText::field_text, crate::specs::JsonText::optional_field))]
fn push_optional_ids(key: &str, list: &Option<Vec<u32>>, out: &mut String) -> Result<()>
    ensures text { Pushes result out.old out.new
        (optional_field key.now (json_list decimal) (ids_of list.now)) }
    ensures error { OnlyMemory result }
    ensures adds { OnlyAdds out.old out.new }
{
    let Some(list) = list else {
        return Ok(());
    };
    push_key(key, out)?;
    push_ids(list.as_slice(), out)
}

/// Appends a field with strings.
#[tactic(auto, unfolding(crate::specs::JsonText::field_text))]
fn push_texts_field(key: &str, texts: &[CowStr<'_>], out: &mut String) -> Result<()>
    ensures text { Pushes result out.old out.new
        (field_text key.now (json_list json_string (cow_texts texts.now))) }
    ensures error { OnlyMemory result }
    ensures adds { OnlyAdds out.old out.new }
{
    push_key(key, out)?;
    push_texts(texts, out)
}

/// Appends the field with the mappings: the canonical text of the tokens, in which no byte needs an escape.
#[tactic(auto, unfolding(crate::specs::JsonText::field_text, crate::specs::JsonString::json_string))]
fn push_mappings(parts: &SourceMapParts<'_>, out: &mut String) -> Result<()>
    ensures text { let r = record_of_parts parts.now in
        Pushes result out.old out.new (field_text (codes "mappings")
        (json_string (canonical r.tokens))) }
    ensures clean { let r = record_of_parts parts.now in
        OnOk result (writing_fault r.tokens r.token_chunks ≡ None) }
    ensures error { let r = record_of_parts parts.now in
        IfErr result (λ e. (e ≢ OutOfMemory) → writing_fault r.tokens r.token_chunks ≡ Some e) }
    ensures adds { OnlyAdds out.old out.new }
{
    out.push_str(",\"mappings\":\"")?;
    encode_mappings(parts.tokens.as_slice(), chunks_of(parts), out)?;
    out.push('"')?;
    Ok(())
}

/// Appends the beginning of the object, up to the source root.
#[tactic(auto, unfolding(crate::specs::JsonParts::head_text))]
fn push_head(
    file: &Option<CowStr<'_>>,
    source_root: &Option<CowStr<'_>>,
    out: &mut String,
) -> Result<()>
    ensures text { Pushes result out.old out.new
        (head_text (text_of file.now) (text_of source_root.now)) }
    ensures error { OnlyMemory result }
    ensures adds { OnlyAdds out.old out.new }
{
    out.push_str("{\"version\":3")?;
    push_optional_text("file", file, out)?;
    push_optional_text("sourceRoot", source_root, out)?;
    Ok(())
}

/// Appends the lists of names, sources and contents, and the ignore list.
#[tactic(auto, unfolding(crate::specs::JsonParts::lists_text))]
fn push_lists(
    names: &[CowStr<'_>],
    sources: &[CowStr<'_>],
    contents: &[Option<CowStr<'_>>],
    ignore_list: &Option<Vec<u32>>,
    out: &mut String,
) -> Result<()>
    ensures text { Pushes result out.old out.new
        (lists_text (cow_texts names.now) (cow_texts sources.now)
        (written_contents (map text_of contents.now)) (ids_of ignore_list.now)) }
    ensures error { OnlyMemory result }
    ensures adds { OnlyAdds out.old out.new }
{
    push_texts_field("names", names, out)?;
    push_texts_field("sources", sources, out)?;
    push_optional_contents("sourcesContent", contents, out)?;
    push_optional_ids("ignoreList", ignore_list, out)?;
    Ok(())
}

/// Appends the mappings, the debug id, and the end of the object.
#[tactic(auto, unfolding(crate::specs::JsonParts::tail_text))]
fn push_tail(parts: &SourceMapParts<'_>, out: &mut String) -> Result<()>
    ensures text { let r = record_of_parts parts.now in
        Pushes result out.old out.new (tail_text (canonical r.tokens) r.debug_id) }
    ensures clean { let r = record_of_parts parts.now in
        OnOk result (writing_fault r.tokens r.token_chunks ≡ None) }
    ensures error { let r = record_of_parts parts.now in
        IfErr result (λ e. (e ≢ OutOfMemory) → writing_fault r.tokens r.token_chunks ≡ Some e) }
    ensures adds { OnlyAdds out.old out.new }
{
    push_mappings(parts, out)?;
    push_optional_text("debugId", &parts.debug_id, out)?;
    out.push('}')?;
    Ok(())
}

/// Appends the fields of a map as a JSON object.
fn push_object(parts: &SourceMapParts<'_>, out: &mut String) -> Result<()>
    ensures text { Pushes result out.old out.new
        (json_text (encoded_record (record_of_parts parts.now))) }
    ensures clean { let r = record_of_parts parts.now in
        OnOk result (writing_fault r.tokens r.token_chunks ≡ None) }
    ensures error { let r = record_of_parts parts.now in
        IfErr result (λ e. (e ≢ OutOfMemory) → writing_fault r.tokens r.token_chunks ≡ Some e) }
    ensures adds { OnlyAdds out.old out.new }
{
    push_head(&parts.file, &parts.source_root, out)?;
    push_lists(
        parts.names.as_slice(),
        parts.sources.as_slice(),
        parts.source_contents.as_slice(),
        &parts.ignore_list,
        out,
    )?;
    push_tail(parts, out)?;
    Ok(())
}

/// Appends the JSON text of a map to `out`: what `encode_parts` gives, as text. `encode_to_string` of `oxc_sourcemap` has
/// the order of its members and which of them are there. Fails as `encode_parts` does; `out` is then as it was.
#[tactic(auto, unfolding(crate::specs::JsonText::map_text))]
pub fn encode_parts_into(parts: &SourceMapParts<'_>, out: &mut String) -> Result<()>
    ensures text { Answers (λ _. string_bytes out.new) result
        (appended (string_bytes out.old) (map_text (record_of_parts parts.now))) }
    ensures unchanged { OnErr result (string_bytes out.new ≡ string_bytes out.old) }
{
    out.reserve(text_room(parts))?;
    let before = out.len();
    if let Err(error) = push_object(parts, out) {
        out.truncate(before);
        return Err(error);
    }
    Ok(())
}

/// The JSON text of a map, as `encode_parts_into` writes it. Fails as `encode_parts` does.
pub fn encode_parts_to_string(alloc: Global, parts: &SourceMapParts<'_>) -> Result<String>
    ensures { Answers string_bytes result (map_text (record_of_parts parts.now)) }
{
    let mut out = String::new(alloc);
    encode_parts_into(parts, &mut out)?;
    Ok(out)
}

/// The data URL of the JSON text of a map (RFC 2397): `data:application/json;charset=utf-8;base64,` and the text in padded
/// base64 of the standard alphabet (RFC 4648). Fails as `encode_parts_to_string` does.
#[tactic(auto, unfolding(crate::specs::JsonText::map_url))]
pub fn encode_parts_to_data_url(alloc: Global, parts: &SourceMapParts<'_>) -> Result<String>
    ensures { Answers string_bytes result (map_url (record_of_parts parts.now)) }
{
    let text = encode_parts_to_string(alloc, parts)?;
    let mut url = String::from_str(alloc, "data:application/json;charset=utf-8;base64,")?;
    STANDARD.encode_string(text.as_bytes(), &mut url)?;
    Ok(url)
}
