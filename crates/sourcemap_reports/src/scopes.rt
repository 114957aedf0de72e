//! The scopes of a map: what is wrong with them, and what they need of the map.
use oxc_sourcemap_map::SourceMap;
use oxc_sourcemap_scopes::{Scopes, ScopesError, decode_scopes};
use serde_json::Value;
use sourcemap_words::{Failure, Outcome};
use std::alloc::{AllocError, Global};
use std::collections::HashSet;

/// The scopes of a map.
#[derive(Drop)]
pub struct MapScopes {
    pub scopes: Option<Scopes>,
    /// Why they are not read.
    pub fault: Option<ScopesError>,
    /// Of an indexed map, which of its sections have faulty scopes, and why.
    pub faults: Vec<(usize, ScopesError)>,
    /// Whether it is known which names they need. It is not of those that are not read, as those of sections, nor of those with pieces
    /// of values.
    are_names_known: bool,
}

/// How many names and sources scopes need, and no token.
#[derive(Clone, Copy)]
pub struct Needed {
    pub names: usize,
    pub sources: usize,
}

/// Sources past the last one of a map: how many times there is one, and the first.
#[derive(Clone, Copy, Default)]
pub struct PastSources {
    pub count: u64,
    pub first: Option<u32>,
}

impl PastSources {
    fn note(&mut self, source: u32) {
        self.count = self.count.saturating_add(1);
        if self.first.is_none() {
            self.first = Some(source);
        }
    }
}

/// The items of a map that scopes need, by their ids.
#[derive(Drop)]
struct Marks {
    names: Vec<bool>,
    sources: Vec<bool>,
}

fn mark(marks: &mut Vec<bool>, id: u32) {
    if let Some(slot) = marks.get_mut(id as usize) {
        *slot = true;
    }
}

fn mark_name(marks: &mut Marks, id: Option<u32>) {
    if let Some(id) = id {
        mark(&mut marks.names, id);
    }
}

/// Marks what a scope needs.
fn mark_scope(scopes: &Scopes, index: usize, marks: &mut Marks) {
    if let Some(scope) = scopes.get_scope(index) {
        mark(&mut marks.sources, scope.source);
        mark_name(marks, scope.name);
        mark_name(marks, scope.kind);
    }
    if let Some(variables) = scopes.get_variables(index) {
        for id in variables {
            mark(&mut marks.names, *id);
        }
    }
}

/// Marks what a range needs.
fn mark_range(scopes: &Scopes, index: usize, marks: &mut Marks) {
    if let Some(range) = scopes.get_range(index)
        && let Some(call) = range.call_site
    {
        mark(&mut marks.sources, call.source);
    }
    for variable in 0..scopes.value_count(index) {
        mark_name(marks, scopes.get_value(index, variable));
    }
}

/// As many marks as there are items, none of them set.
fn no_marks(alloc: Global, count: usize) -> Result<Vec<bool>, AllocError> {
    let mut marks = Vec::with_capacity(alloc, count)?;
    marks.resize(count, false)?;
    Ok(marks)
}

fn marks_of(alloc: Global, scopes: &Scopes, map: &SourceMap<'_>) -> Result<Marks, AllocError> {
    let mut marks = Marks {
        names: no_marks(alloc, map.get_names().count())?,
        sources: no_marks(alloc, map.get_sources().count())?,
    };
    for index in 0..scopes.scope_count() {
        mark_scope(scopes, index, &mut marks);
    }
    for index in 0..scopes.range_count() {
        mark_range(scopes, index, &mut marks);
    }
    Ok(marks)
}

/// Whether the item at an index is marked.
fn is_marked(marks: &[bool], index: usize) -> bool {
    marks.get(index).is_some_and(|mark| *mark)
}

/// How many of the marked names a simplified map lacks; equal ones are one.
fn names_beside(
    alloc: Global,
    map: &SourceMap<'_>,
    simple: &SourceMap<'_>,
    marks: &[bool],
) -> Result<usize, AllocError> {
    let mut seen = HashSet::new(alloc);
    for name in simple.get_names() {
        seen.insert(name)?;
    }
    let mut count = 0usize;
    for (id, name) in map.get_names().enumerate() {
        if is_marked(marks, id) && seen.insert(name)? {
            count = count.saturating_add(1);
        }
    }
    Ok(count)
}

/// The path of a source, and its content.
fn source_at<'m>(map: &'m SourceMap<'_>, id: usize) -> (&'m str, Option<&'m str>) {
    let id = u32::try_from(id).unwrap_or(u32::MAX);
    (map.get_source(id).unwrap_or(""), map.get_source_content(id))
}

/// How many of the marked sources a simplified map lacks; those with equal paths and contents are one.
fn sources_beside(
    alloc: Global,
    map: &SourceMap<'_>,
    simple: &SourceMap<'_>,
    marks: &[bool],
) -> Result<usize, AllocError> {
    let mut seen = HashSet::new(alloc);
    for id in 0..simple.get_sources().count() {
        seen.insert(source_at(simple, id))?;
    }
    let mut count = 0usize;
    for id in 0..map.get_sources().count() {
        if is_marked(marks, id) && seen.insert(source_at(map, id))? {
            count = count.saturating_add(1);
        }
    }
    Ok(count)
}

impl MapScopes {
    /// The scopes of a map that has none.
    pub fn none(alloc: Global) -> MapScopes {
        MapScopes {
            are_names_known: true,
            ..MapScopes::unread(alloc, None)
        }
    }

    /// Scopes that are not read, for this reason if it is to be reported.
    fn unread(alloc: Global, fault: Option<ScopesError>) -> MapScopes {
        MapScopes {
            scopes: None,
            fault,
            faults: Vec::new(alloc),
            are_names_known: false,
        }
    }

    /// What scopes that are not read are taken to need: all.
    pub fn unread_need(&self) -> Needed {
        let all = if self.are_names_known { 0 } else { usize::MAX };
        Needed {
            names: all,
            sources: all,
        }
    }

    /// What the scopes of a map need beside what its simplified form has.
    pub fn need(
        &self,
        alloc: Global,
        map: &SourceMap<'_>,
        simple: &SourceMap<'_>,
    ) -> Result<Needed, AllocError> {
        let Some(scopes) = &self.scopes else {
            return Ok(self.unread_need());
        };
        let marks = marks_of(alloc, scopes, map)?;
        let names = if self.are_names_known {
            names_beside(alloc, map, simple, marks.names.as_slice())?
        } else {
            usize::MAX
        };
        let sources = sources_beside(alloc, map, simple, marks.sources.as_slice())?;
        Ok(Needed { names, sources })
    }
}

/// The sources past the last one that have a tree of scopes.
pub fn trees_past(scopes: &Scopes, sources: usize) -> PastSources {
    let mut past = PastSources::default();
    let mut last = None;
    for index in 0..scopes.scope_count() {
        if let Some(scope) = scopes.get_scope(index)
            && scope.source as usize >= sources
            && last != Some(scope.source)
        {
            past.note(scope.source);
            last = Some(scope.source);
        }
    }
    past
}

/// The call sites in a source past the last one.
pub fn calls_past(scopes: &Scopes, sources: usize) -> PastSources {
    let mut past = PastSources::default();
    for index in 0..scopes.range_count() {
        if let Some(range) = scopes.get_range(index)
            && let Some(call) = range.call_site
            && call.source as usize >= sources
        {
            past.note(call.source);
        }
    }
    past
}

/// Whether a text of scopes may have pieces of values, whose names are not listed: an item that begins with the digit of their tag, 7,
/// or with that of a longer number which may be 7 too.
fn may_have_pieces(text: &str) -> bool {
    for item in text.split(',') {
        if matches!(item.as_bytes().first(), Some(b'H' | b'n')) {
            return true;
        }
    }
    false
}

/// Scopes by their text, in a map with `names` names.
fn scopes_of_text(alloc: Global, text: &str, names: usize) -> Outcome<MapScopes> {
    match decode_scopes(alloc, text, names) {
        Ok(scopes) => Ok(MapScopes {
            scopes: Some(scopes),
            are_names_known: !may_have_pieces(text),
            ..MapScopes::unread(alloc, None)
        }),
        Err(ScopesError::OutOfMemory) => Err(Failure::Memory),
        Err(error) => Ok(MapScopes::unread(alloc, Some(error))),
    }
}

/// The scopes of a map that has no sections, by its JSON value.
fn scopes_of_value(alloc: Global, map: &Value) -> Outcome<MapScopes> {
    let text = match map.get("scopes") {
        None | Some(Value::Null) => return Ok(MapScopes::none(alloc)),
        Some(value) => value.as_str(),
    };
    let Some(text) = text else {
        return Ok(MapScopes::unread(alloc, Some(ScopesError::NotText)));
    };
    let names = match map.get("names") {
        Some(names) => names.as_array().map_or(0, |names| names.len()),
        None => 0,
    };
    scopes_of_text(alloc, text, names)
}

/// The sections of an indexed map, by its JSON value; None for any other map.
fn sections_of(map: &Value) -> Option<&[Value]> {
    match map.get("sections") {
        None | Some(Value::Null) => None,
        Some(sections) => Some(match sections.as_array() {
            Some(sections) => sections.as_slice(),
            None => &[],
        }),
    }
}

/// What is wrong with the scopes of sections, and that they are not read if there are some.
fn scopes_of_sections(alloc: Global, sections: &[Value]) -> Outcome<MapScopes> {
    let mut held = MapScopes::unread(alloc, None);
    for (index, section) in sections.iter().enumerate() {
        let Some(map) = section.get("map") else {
            continue;
        };
        if matches!(map.get("scopes"), None | Some(Value::Null)) {
            continue;
        }
        held.fault = Some(ScopesError::Indexed);
        if let Some(fault) = scopes_of_value(alloc, map)?.fault {
            held.faults.push((index, fault))?;
        }
    }
    Ok(held)
}

/// The JSON value in the text of a map, without the text before the first brace; None if it is no JSON.
fn value_in(alloc: Global, text: &str) -> Outcome<Option<Value>> {
    let front = text.find('{').unwrap_or(text.len());
    match Value::from_str(alloc, text.get(front..).unwrap_or("")) {
        Ok(map) => Ok(Some(map)),
        Err(error) if error.is_memory() => Err(Failure::Memory),
        Err(_) => Ok(None),
    }
}

/// The scopes of a map, by its text. Text before the first brace is skipped; a text that is no JSON is reported elsewhere.
pub fn scopes_in(alloc: Global, text: &str) -> Outcome<MapScopes> {
    if !text.contains("\"scopes\"") {
        return Ok(MapScopes::none(alloc));
    }
    let Some(map) = value_in(alloc, text)? else {
        return Ok(MapScopes::unread(alloc, None));
    };
    match sections_of(&map) {
        Some(sections) => scopes_of_sections(alloc, sections),
        None => scopes_of_value(alloc, &map),
    }
}

/// A member that is there, and not null.
fn held(member: Option<&Value>) -> Option<&Value> {
    match member {
        Some(Value::Null) => None,
        other => other,
    }
}

/// Whether two members `scopes` are equal: texts with the same characters, or neither is a text, or neither is there.
fn is_same_member(a: Option<&Value>, b: Option<&Value>) -> bool {
    match (held(a), held(b)) {
        (Some(a), Some(b)) => match (a.as_str(), b.as_str()) {
            (Some(a), Some(b)) => a == b,
            (a, b) => a.is_none() && b.is_none(),
        },
        (a, b) => a.is_none() && b.is_none(),
    }
}

/// The member `scopes` of the map of a section.
fn member_of(section: &Value) -> Option<&Value> {
    section.get("map")?.get("scopes")
}

/// Whether sections have the same scopes, in their order; one that is not there has none.
fn are_same_sections(a: &[Value], b: &[Value]) -> bool {
    for index in 0..a.len().max(b.len()) {
        let (a, b) = (a.get(index), b.get(index));
        if !is_same_member(a.and_then(member_of), b.and_then(member_of)) {
            return false;
        }
    }
    true
}

/// Whether the maps in two texts have the same scopes: of indexed maps, their sections in their order. One that is no JSON has none.
pub fn are_scopes_equal(alloc: Global, a: &str, b: &str) -> Outcome<bool> {
    if !a.contains("\"scopes\"") && !b.contains("\"scopes\"") {
        return Ok(true);
    }
    let a = value_in(alloc, a)?.unwrap_or(Value::Null);
    let b = value_in(alloc, b)?.unwrap_or(Value::Null);
    let own = is_same_member(a.get("scopes"), b.get("scopes"));
    let sections = are_same_sections(
        sections_of(&a).unwrap_or(&[]),
        sections_of(&b).unwrap_or(&[]),
    );
    Ok(own && sections)
}
