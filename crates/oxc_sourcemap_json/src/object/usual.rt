//! Reading the JSON text of a usual source map token by token, with no value in between. What is unusual goes by a value
//! (`json_of`).
ghost use Rattle.std.specs.Prelude.{◌≡◌, ◌<◌, ◌≤◌, length, map, true, IsTrue, IfOk, IfSome, Ok};
ghost use Rattle.std.specs.Prelude.{IsSomeAnd, OnOk, ◌++◌, ◌∷◌, [], option_map, string_bytes, Some};
ghost use Rattle.std.specs.Prelude.{List, ℕ};
ghost use Rattle.json.specs.Lex.{tokens};
ghost use Rattle.std.specs.List.{All};
ghost use Rattle.oxc_sourcemap_json.specs.Words.{texts_of, contents_of, usual_record, shape, Data};
ghost use Rattle.oxc_sourcemap_json.specs.Words.{Members, number, unsigned, string, object};
ghost use Rattle.oxc_sourcemap_json.specs.Words.{no_members, Begins, BeginsAny, BeginItems};
ghost use Rattle.oxc_sourcemap_json.specs.Words.{BeginMembers, IsAll, IsJsonOf, AreHeld, text_data};
ghost use Rattle.oxc_sourcemap_json.specs.Words.{texts_data, contents_data, content_data};
ghost use Rattle.oxc_sourcemap_json.specs.Words.{members_held, with_held, ids_data, HaveIds};
ghost use Rattle.oxc_sourcemap_json.specs.Words.{number_of, ignored_by, ignored_field};

use crate::object::token_reader::TokenReader;
use fast_float::Numeral;
use json::Scratch;
use oxc_sourcemap_parts::from_string;
use oxc_sourcemap_tokens::{Field, Memory};
use std::alloc::Global;
use std::borrow::CowStr;

/// The fields of a map whose version is 3, as those of `JSONSourceMap`: what a usual text is read as. The mappings text is borrowed,
/// and the lists of strings are those of a map: they need not be moved into others.
#[derive(Drop)]
pub struct UsualMap<'a> {
    pub file: Option<String>,
    pub mappings: &'a str,
    pub source_root: Option<String>,
    pub sources: Vec<CowStr<'static>>,
    /// None where the text has no list.
    pub source_contents: Option<Vec<Option<CowStr<'static>>>>,
    pub names: Vec<CowStr<'static>>,
    pub debug_id: Option<String>,
    pub ignore_list: Option<Vec<u32>>,
    /// The member that is the ignore list.
    pub ignored: Field,
}

/// The members of a source map that were read so far. One that comes again replaces the one before.
#[derive(Drop)]
struct UsualMembers<'a> {
    /// Whether there is a version, which is 3.
    has_version: bool,
    file: Option<String>,
    mappings: Option<&'a str>,
    source_root: Option<String>,
    sources: Option<Vec<CowStr<'static>>>,
    source_contents: Option<Vec<Option<CowStr<'static>>>>,
    names: Option<Vec<CowStr<'static>>>,
    debug_id: Option<String>,
    ignore_list: Option<Vec<u32>>,
    older_ignore_list: Option<Vec<u32>>,
}

/// Whether the next value is the number 3.
fn next_is_three(reader: &mut TokenReader<'_>) -> bool
    ensures three { IsTrue result → Begins reader.old (number (unsigned 3)) reader.new }
    ensures shorter { IsTrue result → length reader.new < length reader.old }
{
    match reader.next_digits() {
        Some(digits) => digits == "3",
        None => false,
    }
}

/// The next value, if it is a text.
fn next_text(alloc: Global, reader: &mut TokenReader<'_>) -> Memory<Option<String>>
    ensures text { IfOk result (λ found. IfSome found
        (λ text. BeginsAny reader.old (text_data text) reader.new)) }
    ensures member { IfOk result (λ found. IfSome found
        (λ text. Begins reader.old (text_data text) reader.new)) }
    ensures shorter { IfOk result (λ found. IfSome found
        (λ _. length reader.new < length reader.old)) }
{
    reader.next_text(alloc)
}

/// For so many sources, or contents, small maps need room.
const FEW_SOURCES: usize = 1;

/// For so many names small maps need room.
const FEW_NAMES: usize = 4;

/// Appends an item. For the first, memory is taken for `few` items.
fn push_item<T: Drop>(list: &mut Vec<T>, item: T, few: usize) -> Memory<()>
    ensures { OnOk result (list.new.items ≡ list.old.items ++ item ∷ []) }
{
    if list.is_empty() {
        list.reserve_exact(few)?;
    }
    Ok(list.push(item)?)
}

/// The next value, if it is a text, which is borrowed and not copied.
fn next_str<'a>(reader: &mut TokenReader<'a>) -> Option<&'a str>
    ensures member { IfSome result (λ text. Begins reader.old (string text.now) reader.new) }
    ensures shorter { IfSome result (λ _. length reader.new < length reader.old) }
{
    reader.next_str()
}

/// The texts up to the bracket that ends their list; None if something else is among them. At first there is room for `few`.
fn rest_of_texts(
    alloc: Global,
    reader: &mut TokenReader<'_>,
    few: usize,
) -> Memory<Option<Vec<CowStr<'static>>>>
    ensures texts { IfOk result (λ found. IfSome found
        (λ texts. BeginItems reader.old (map string (texts_of texts)) reader.new)) }
    ensures shorter { IfOk result (λ found. IfSome found
        (λ _. length reader.new ≤ length reader.old)) }
{
    let mut texts = Vec::new(alloc);
    'texts: while !reader.take_end_array() {
        let Some(text) = next_text(alloc, reader)? else {
            return Ok(None);
        };
        push_item(&mut texts, CowStr::Owned(text), few)?;
    }
    Ok(Some(texts))
}

/// The next value, if it is a list of texts. At first there is room for `few`.
fn next_texts(
    alloc: Global,
    reader: &mut TokenReader<'_>,
    few: usize,
) -> Memory<Option<Vec<CowStr<'static>>>>
    ensures texts { IfOk result (λ found. IfSome found
        (λ texts. Begins reader.old (texts_data (texts_of texts)) reader.new)) }
    ensures shorter { IfOk result (λ found. IfSome found
        (λ _. length reader.new < length reader.old)) }
{
    if !reader.begin_array() {
        return Ok(None);
    }
    rest_of_texts(alloc, reader, few)
}

/// The next value, if it is a content: a text, or null for one that is not known.
fn next_content(alloc: Global, reader: &mut TokenReader<'_>) -> Memory<Option<Option<String>>>
    ensures content { IfOk result (λ found. IfSome found (λ content.
        BeginsAny reader.old (content_data (option_map string_bytes content)) reader.new)) }
    ensures shorter { IfOk result (λ found. IfSome found
        (λ _. length reader.new < length reader.old)) }
{
    reader.next_content(alloc)
}

/// The contents up to the bracket that ends their list; None if something else is among them.
fn rest_of_contents(
    alloc: Global,
    reader: &mut TokenReader<'_>,
) -> Memory<Option<Vec<Option<CowStr<'static>>>>>
    ensures contents { IfOk result (λ found. IfSome found (λ contents. BeginItems reader.old
        (map content_data (contents_of contents)) reader.new)) }
    ensures shorter { IfOk result (λ found. IfSome found
        (λ _. length reader.new ≤ length reader.old)) }
{
    let mut contents = Vec::new(alloc);
    'contents: while !reader.take_end_array() {
        let Some(content) = next_content(alloc, reader)? else {
            return Ok(None);
        };
        push_item(&mut contents, from_string(content), FEW_SOURCES)?;
    }
    Ok(Some(contents))
}

/// The next value, if it is a list of contents.
fn next_contents(
    alloc: Global,
    reader: &mut TokenReader<'_>,
) -> Memory<Option<Vec<Option<CowStr<'static>>>>>
    ensures contents { IfOk result (λ found. IfSome found
        (λ contents. Begins reader.old (contents_data (contents_of contents)) reader.new)) }
    ensures shorter { IfOk result (λ found. IfSome found
        (λ _. length reader.new < length reader.old)) }
{
    if !reader.begin_array() {
        return Ok(None);
    }
    rest_of_contents(alloc, reader)
}

/// The number of a token of JSON, if it is a whole one of 0 to 4294967295 without a sign.
fn id_of(digits: &[u8]) -> Option<u32>
    ensures { IfSome result (λ id. number_of digits.now ≡ Some (unsigned id)) }
{
    if digits.is_empty() || digits[0] == b'-' {
        return None;
    }
    let number = Numeral::scan(digits).to_u64()?;
    if number > 4294967295 {
        return None;
    }
    Some(number as u32)
}

/// The next value, if it is a whole number of 0 to 4294967295.
fn next_id(reader: &mut TokenReader<'_>) -> Option<u32>
    ensures id { IfSome result (λ id. BeginsAny reader.old (number (unsigned id)) reader.new) }
    ensures small { IfSome result (λ id. id < 4294967296) }
    ensures shorter { IfSome result (λ _. length reader.new < length reader.old) }
{
    id_of(reader.next_digits()?.as_bytes())
}

/// The ids up to the bracket that ends their list; None if something else is among them.
fn rest_of_ids(alloc: Global, reader: &mut TokenReader<'_>) -> Memory<Option<Vec<u32>>>
    ensures ids { IfOk result (λ found. IfSome found (λ ids. BeginItems reader.old
        (map (λ id. number (unsigned id)) ids.items) reader.new)) }
    ensures small { IfOk result (λ found. IfSome found
        (λ ids. All (λ id. id < 4294967296) ids.items)) }
    ensures shorter { IfOk result (λ found. IfSome found
        (λ _. length reader.new ≤ length reader.old)) }
{
    let mut ids = Vec::new(alloc);
    'ids: while !reader.take_end_array() {
        let Some(id) = next_id(reader) else {
            return Ok(None);
        };
        ids.push(id)?;
    }
    Ok(Some(ids))
}

/// The next value, if it is a list of ids.
fn next_ids(alloc: Global, reader: &mut TokenReader<'_>) -> Memory<Option<Vec<u32>>>
    ensures ids { IfOk result (λ found. IfSome found
        (λ ids. Begins reader.old (ids_data ids.items) reader.new)) }
    ensures small { IfOk result (λ found. IfSome found
        (λ ids. All (λ id. id < 4294967296) ids.items)) }
    ensures shorter { IfOk result (λ found. IfSome found
        (λ _. length reader.new < length reader.old)) }
{
    if !reader.begin_array() {
        return Ok(None);
    }
    rest_of_ids(alloc, reader)
}

/// Keeps the next value, a text. False if it is something else; what is kept then counts for nothing.
fn keep_text(alloc: Global, reader: &mut TokenReader<'_>, kept: &mut Option<String>) -> Memory<bool>
    ensures text { result ≡ Ok true → IsSomeAnd kept.new
        (λ text. Begins reader.old (text_data text) reader.new) }
    ensures shorter { result ≡ Ok true → length reader.new < length reader.old }
{
    *kept = next_text(alloc, reader)?;
    Ok(kept.is_some())
}

/// Keeps the next value, a list of texts, likewise.
fn keep_texts(
    alloc: Global,
    reader: &mut TokenReader<'_>,
    few: usize,
    kept: &mut Option<Vec<CowStr<'static>>>,
) -> Memory<bool>
    ensures texts { result ≡ Ok true → IsSomeAnd kept.new
        (λ texts. Begins reader.old (texts_data (texts_of texts)) reader.new) }
    ensures shorter { result ≡ Ok true → length reader.new < length reader.old }
{
    *kept = next_texts(alloc, reader, few)?;
    Ok(kept.is_some())
}

/// Keeps the next value, a list of ids, likewise.
fn keep_ids(
    alloc: Global,
    reader: &mut TokenReader<'_>,
    kept: &mut Option<Vec<u32>>,
) -> Memory<bool>
    ensures ids { result ≡ Ok true → IsSomeAnd kept.new
        (λ ids. Begins reader.old (ids_data ids.items) reader.new) }
    ensures small { result ≡ Ok true → IsSomeAnd kept.new
        (λ ids. All (λ id. id < 4294967296) ids.items) }
    ensures shorter { result ≡ Ok true → length reader.new < length reader.old }
{
    *kept = next_ids(alloc, reader)?;
    Ok(kept.is_some())
}

/// The member that is the ignore list, where this is the newer one.
fn ignored_by(ignore_list: &Option<Vec<u32>>) -> Field
    ensures { result ≡ ignored_by (option_map (λ ids. ids_data ids.items) ignore_list.now) }
{
    match ignore_list {
        Some(_) => Field::IgnoreList,
        None => Field::GoogleIgnoreList,
    }
}

impl<'a> UsualMembers<'a> {
    /// No members.
    fn none() -> UsualMembers<'a>
        ensures held { AreHeld result no_members }
        ensures ids { HaveIds result }
    {
        UsualMembers {
            has_version: false,
            file: None,
            mappings: None,
            source_root: None,
            sources: None,
            source_contents: None,
            names: None,
            debug_id: None,
            ignore_list: None,
            older_ignore_list: None,
        }
    }

    /// Reads the value of a member. False if the member is unusual; what was read then counts for nothing.
    fn read(&mut self, alloc: Global, key: &str, reader: &mut TokenReader<'a>) -> Memory<bool>
        ensures read { result ≡ Ok true → (d : Data) × Begins reader.old d reader.new
            × (members_held self.new ≡ with_held key.now d (members_held self.old)) }
        ensures ids { result ≡ Ok true → HaveIds self.old → HaveIds self.new }
        ensures shorter { result ≡ Ok true → length reader.new < length reader.old }
    {
        match (key.len(), key) {
            (7, "version") => {
                self.has_version = next_is_three(reader);
                Ok(self.has_version)
            }
            (4, "file") => keep_text(alloc, reader, &mut self.file),
            (8, "mappings") => {
                self.mappings = next_str(reader);
                Ok(self.mappings.is_some())
            }
            (10, "sourceRoot") => keep_text(alloc, reader, &mut self.source_root),
            (7, "sources") => keep_texts(alloc, reader, FEW_SOURCES, &mut self.sources),
            (14, "sourcesContent") => {
                self.source_contents = next_contents(alloc, reader)?;
                Ok(self.source_contents.is_some())
            }
            (5, "names") => keep_texts(alloc, reader, FEW_NAMES, &mut self.names),
            (7, "debugId") => keep_text(alloc, reader, &mut self.debug_id),
            (10, "ignoreList") => keep_ids(alloc, reader, &mut self.ignore_list),
            (19, "x_google_ignoreList") => keep_ids(alloc, reader, &mut self.older_ignore_list),
            _ => Ok(false),
        }
    }

    /// The fields that the members have; None if one that has to be there is not.
    fn into_map(self, alloc: Global) -> Option<UsualMap<'a>>
        ensures fields { IfSome result (λ map. (ms : Members) → AreHeld self.entry ms
            → HaveIds self.entry → shape (object ms) ≡ Ok (usual_record map)) }
        ensures ignored { IfSome result (λ map. (ms : Members) → AreHeld self.entry ms
            → ignored_field (object ms) ≡ map.ignored) }
    {
        let UsualMembers {
            has_version,
            file,
            mappings,
            source_root,
            sources,
            source_contents,
            names,
            debug_id,
            ignore_list,
            older_ignore_list,
        } = self;
        if !has_version {
            return None;
        }
        Some(UsualMap {
            file,
            mappings: mappings?,
            source_root,
            sources: sources?,
            source_contents,
            names: names.unwrap_or(Vec::new(alloc)),
            debug_id,
            ignored: ignored_by(&ignore_list),
            ignore_list: ignore_list.or(older_ignore_list),
        })
    }
}

/// The members up to the brace that ends their object; None if one of them is unusual.
// Put into its one caller, as that is into its own: each call that returns members copies some 300 bytes.
#[inline(always)]
fn rest_of_members<'a>(
    alloc: Global,
    reader: &mut TokenReader<'a>,
) -> Memory<Option<UsualMembers<'a>>>
    ensures { IfOk result (λ found. IfSome found (λ m. (ms : Members)
        × BeginMembers reader.old ms reader.new × AreHeld m ms × HaveIds m)) }
{
    let mut members = UsualMembers::none();
    'members: while let Some(next) = reader.next_key() {
        let Some(key) = next else {
            return Ok(Some(members));
        };
        if !members.read(alloc, key, reader)? {
            return Ok(None);
        }
    }
    Ok(None)
}

/// The members of the object that is all of a text; None if it is something else, or one of them is unusual.
#[inline(always)]
fn members_of<'a>(alloc: Global, reader: &mut TokenReader<'a>) -> Memory<Option<UsualMembers<'a>>>
    ensures { IfOk result (λ found. IfSome found (λ m. (ms : Members)
        × IsAll reader.old (object ms) × AreHeld m ms × HaveIds m)) }
{
    if !reader.begin_object() {
        return Ok(None);
    }
    let members = rest_of_members(alloc, reader)?;
    if !reader.is_at_end() {
        return Ok(None);
    }
    Ok(members)
}

/// The longest text that is read byte by byte, in bytes.
const MOST_PLAIN: usize = 4096;

/// The fields of the tokens that are left, which are those of the text.
fn fields_of<'a>(alloc: Global, reader: &mut TokenReader<'a>) -> Memory<Option<UsualMap<'a>>>
    ensures { IfOk result (λ found. IfSome found (λ map. (text : List ℕ) → reader.old ≡ tokens text
        → IsJsonOf text (usual_record map) map.ignored)) }
{
    let Some(members) = members_of(alloc, reader)? else {
        return Ok(None);
    };
    Ok(members.into_map(alloc))
}

/// The fields of the JSON text of a map by itself, if it is short and plain, as `usual_map` gives them.
pub fn plain_map<'a>(alloc: Global, text: &'a str) -> Memory<Option<UsualMap<'a>>>
    ensures { IfOk result (λ found. IfSome found
        (λ map. IsJsonOf text.now (usual_record map) map.ignored)) }
{
    if text.len() > MOST_PLAIN {
        return Ok(None);
    }
    let mut reader = TokenReader::plain(text);
    fields_of(alloc, &mut reader)
}

/// The fields of the JSON text of a map by itself, as `json_of` reads them from its value. None if the text is unusual: it is no
/// such map, has a fault, or has null as a member or a member that is not read here. `scratch` gives its memory; the mappings may
/// lie in it. Fails only for want of memory.
pub fn usual_map<'a>(
    alloc: Global,
    text: &'a str,
    scratch: &'a mut Scratch,
) -> Memory<Option<UsualMap<'a>>>
    ensures { IfOk result (λ found. IfSome found
        (λ map. IsJsonOf text.now (usual_record map) map.ignored)) }
{
    let mut reader = TokenReader::any(text, scratch)?;
    fields_of(alloc, &mut reader)
}
