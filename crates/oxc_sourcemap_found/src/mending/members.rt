//! The members of a map by itself, mended in their JSON object.
ghost use Rattle.std.specs.Prelude.{◌≡◌, map, Option, option_map, option_and_then, IfOk, OnOk};
ghost use Rattle.std.specs.Prelude.{is_some, Some};
ghost use Rattle.oxc_sourcemap_found.specs.Words.{view, items_view, members_view, lent_member};
ghost use Rattle.oxc_sourcemap_found.specs.Words.{get_member, put, as_array, present, is_id_of};
ghost use Rattle.oxc_sourcemap_found.specs.Words.{is_other_three, may_stay, stand_in, entry_kind};
ghost use Rattle.oxc_sourcemap_found.specs.Words.{list_kind, mended_entry, kinds_from, flat_map};
ghost use Rattle.oxc_sourcemap_found.specs.Words.{list_change, optional_list_change, changed};
ghost use Rattle.oxc_sourcemap_found.specs.Words.{replaced, state_of, source_count, with_version};
ghost use Rattle.oxc_sourcemap_found.specs.Words.{with_sources, with_contents, with_names};
ghost use Rattle.oxc_sourcemap_found.specs.Words.{with_ignore_list, with_google_ignore_list};
ghost use Rattle.oxc_sourcemap_found.specs.Words.{mended_members, Items, array, null, as_found};

use crate::mending::mend::MendKind;
use oxc_sourcemap_json::read_id;
use oxc_sourcemap_tokens::Memory;
use serde_json::{Map, Value};
use std::alloc::Global;

const THREE: f64 = 3.0;

/// A list of a map, whose entries may be mended. An ignore list comes with the number of sources.
#[derive(Clone, Copy)]
pub(crate) enum Entries {
    Sources,
    Contents,
    Ids(usize),
    GoogleIds(usize),
}

/// Whether a value is the id of one of so many sources.
fn is_id_of(count: usize, entry: &Value) -> bool
    ensures { result ≡ is_id_of count (view entry.now) }
{
    match read_id(entry) {
        Some(id) => (id as usize) < count,
        None => false,
    }
}

impl Entries {
    /// Whether an entry may stay in the list.
    fn may_keep(self, entry: &Value) -> bool
        ensures { result ≡ may_stay self (view entry.now) }
    {
        match self {
            Entries::Sources => !entry.is_null(),
            Entries::Contents => entry.is_null() || entry.is_string(),
            Entries::Ids(count) | Entries::GoogleIds(count) => is_id_of(count, entry),
        }
    }

    /// What stands in place of an entry that may not stay.
    fn stand_in(self, alloc: Global) -> Option<Value>
        ensures { option_map view result ≡ stand_in self }
    {
        match self {
            Entries::Sources => Some(Value::String(String::new(alloc))),
            Entries::Contents => Some(Value::Null),
            Entries::Ids(_) | Entries::GoogleIds(_) => None,
        }
    }

    /// What was mended at the entry of this index.
    fn entry_kind(self, k: usize) -> MendKind
        ensures { result ≡ entry_kind self k }
    {
        match self {
            Entries::Sources => MendKind::NullSource(k),
            Entries::Contents => MendKind::BadContent(k),
            Entries::Ids(_) => MendKind::BadIgnoredId(k),
            Entries::GoogleIds(_) => MendKind::BadGoogleIgnoredId(k),
        }
    }

    /// What was mended if there is no list.
    fn list_kind(self) -> MendKind
        ensures { result ≡ list_kind self }
    {
        match self {
            Entries::Sources => MendKind::NoSources,
            Entries::Contents => MendKind::NoContents,
            Entries::Ids(_) => MendKind::NoIgnoreList,
            Entries::GoogleIds(_) => MendKind::NoGoogleIgnoreList,
        }
    }
}

/// What has to be mended in the entries of a list.
fn find_kinds(alloc: Global, list: Entries, items: &[Value]) -> Memory<Vec<MendKind>>
    ensures { IfOk result (λ kinds. kinds.items ≡ kinds_from list 0 (map view items.now)) }
{
    let mut kinds = Vec::new(alloc);
    for (k, item) in items.iter().enumerate() {
        if !list.may_keep(item) {
            kinds.push(list.entry_kind(k))?;
        }
    }
    Ok(kinds)
}

/// The entries of a list, those that may not stay replaced or left out.
fn mend_items(alloc: Global, list: Entries, items: Vec<Value>) -> Memory<Vec<Value>>
    ensures { IfOk result (λ mended. map view mended.items
        ≡ flat_map (mended_entry list) (map view items.items)) }
{
    let mut mended = Vec::with_capacity(alloc, items.len())?;
    for item in items {
        if list.may_keep(&item) {
            mended.push(item)?;
        } else if let Some(entry) = list.stand_in(alloc) {
            mended.push(entry)?;
        }
    }
    Ok(mended)
}

/// Whether a value is the number 3.0, or the text 3.
fn is_other_three(value: &Value) -> bool
    ensures { result ≡ is_other_three (view value.now) }
{
    match value {
        Value::Number(number) => number.is_f64() && number.as_f64() == Some(THREE),
        Value::String(text) => text.as_str() == "3",
        _ => false,
    }
}

/// The JSON object of a map by itself while its members are mended, and what was mended so far.
#[derive(Drop)]
pub(crate) struct Mending {
    alloc: Global,
    object: Map<String, Value>,
    kinds: Vec<MendKind>,
}

impl Mending {
    /// The member at a key.
    fn member(&self, key: &str) -> Option<&Value>
        ensures { lent_member result ≡ get_member key.now (members_view self.now.object.entries) }
    {
        self.object.get(key)
    }

    /// The entries of the list at a key; None if there is no list.
    fn items(&self, key: &str) -> Option<&[Value]>
        ensures { option_map (λ items. items_view items.now) result ≡ option_and_then as_array
            (get_member key.now (members_view self.now.object.entries)) }
    {
        Some(self.member(key)?.as_array()?.as_slice())
    }

    /// Puts a value at a key, and returns the one that was there.
    fn put(&mut self, key: &str, value: Value) -> Memory<Option<Value>>
        ensures members { OnOk result (members_view self.new.object.entries
            ≡ put key.now (view value) (members_view self.old.object.entries)) }
        ensures old { IfOk result (λ old. option_map view old
            ≡ get_member key.now (members_view self.old.object.entries)) }
        ensures kinds { self.new.kinds ≡ self.old.kinds }
    {
        let key = String::from_str(self.alloc, key)?;
        Ok(self.object.insert(key, value)?)
    }

    /// The entries of the list at a key, moved out of it, where null is left.
    fn take_items(&mut self, key: &str) -> Memory<Vec<Value>>
        ensures members { OnOk result (members_view self.new.object.entries
            ≡ put key.now null (members_view self.old.object.entries)) }
        ensures items { IfOk result (λ items. (list : Items)
            → get_member key.now (members_view self.old.object.entries) ≡ Some (array list)
            → items_view items.items ≡ list) }
        ensures kinds { self.new.kinds ≡ self.old.kinds }
    {
        match self.put(key, Value::Null)? {
            Some(Value::Array(items)) => Ok(items),
            _ => Ok(Vec::new(self.alloc)),
        }
    }

    /// Puts a value in place of a member, for one reason.
    fn replace(&mut self, key: &str, value: Value, kind: MendKind) -> Memory<()>
        ensures { OnOk result (state_of self.new
            ≡ changed key.now (replaced (view value) kind) (state_of self.old)) }
    {
        let _old = self.put(key, value)?;
        self.kinds.push(kind)?;
        Ok(())
    }

    /// Mends the entries of a list, if the member at the key is one.
    fn mend_entries(&mut self, key: &str, list: Entries) -> Memory<()>
        ensures { OnOk result (state_of self.new ≡ changed key.now
            (option_and_then (list_change list) (option_and_then as_array
            (get_member key.now (members_view self.old.object.entries)))) (state_of self.old)) }
    {
        let Some(items) = self.items(key) else {
            return Ok(());
        };
        let mut kinds = find_kinds(self.alloc, list, items)?;
        if kinds.is_empty() {
            return Ok(());
        }
        let items = self.take_items(key)?;
        let items = mend_items(self.alloc, list, items)?;
        let _null = self.put(key, Value::Array(items))?;
        self.kinds.append(&mut kinds)
    }

    /// Whether a member is a list; None if it is missing or null.
    fn is_list(&self, key: &str) -> Option<bool>
        ensures { result ≡ option_map (λ d. is_some (as_array d))
            (present (get_member key.now (members_view self.now.object.entries))) }
    {
        let value = self.member(key)?;
        if value.is_null() {
            None
        } else {
            Some(value.is_array())
        }
    }

    /// Mends a list that may be missing or null.
    fn mend_optional_list(&mut self, key: &str, list: Entries) -> Memory<()>
        ensures { OnOk result (state_of self.new ≡ changed key.now (optional_list_change list
            (get_member key.now (members_view self.old.object.entries))) (state_of self.old)) }
    {
        match self.is_list(key) {
            None => Ok(()),
            Some(true) => self.mend_entries(key, list),
            Some(false) => self.replace(key, Value::Null, list.list_kind()),
        }
    }

    fn mend_version(&mut self) -> Memory<()>
        ensures { OnOk result (state_of self.new ≡ with_version (state_of self.old)) }
    {
        if !self.member("version").is_some_and(is_other_three) {
            return Ok(());
        }
        self.replace("version", Value::from(3u64), MendKind::Version)
    }

    fn mend_sources(&mut self) -> Memory<()>
        ensures { OnOk result (state_of self.new ≡ with_sources (state_of self.old)) }
    {
        if self.member("sources").is_some() {
            return self.mend_entries("sources", Entries::Sources);
        }
        let sources = Value::Array(Vec::new(self.alloc));
        self.replace("sources", sources, MendKind::NoSources)
    }

    fn mend_contents(&mut self) -> Memory<()>
        ensures { OnOk result (state_of self.new ≡ with_contents (state_of self.old)) }
    {
        self.mend_optional_list("sourcesContent", Entries::Contents)
    }

    fn mend_names(&mut self) -> Memory<()>
        ensures { OnOk result (state_of self.new ≡ with_names (state_of self.old)) }
    {
        if !self.member("names").is_some_and(Value::is_null) {
            return Ok(());
        }
        let names = Value::Array(Vec::new(self.alloc));
        self.replace("names", names, MendKind::NullNames)
    }

    /// The number of sources; 0 if they are no list.
    fn source_count(&self) -> usize
        ensures { result ≡ source_count (members_view self.now.object.entries) }
    {
        match self.items("sources") {
            Some(items) => items.len(),
            None => 0,
        }
    }

    fn mend_ignore_list(&mut self) -> Memory<()>
        ensures { OnOk result (state_of self.new ≡ with_ignore_list (state_of self.old)) }
    {
        let list = Entries::Ids(self.source_count());
        self.mend_optional_list("ignoreList", list)
    }

    /// The older key of the ignore list is read only if `ignoreList` is missing or null.
    fn mend_google_ignore_list(&mut self) -> Memory<()>
        ensures { OnOk result (state_of self.new ≡ with_google_ignore_list (state_of self.old)) }
    {
        if self.is_list("ignoreList").is_some() {
            return Ok(());
        }
        let list = Entries::GoogleIds(self.source_count());
        self.mend_optional_list("x_google_ignoreList", list)
    }
}

/// The members of an object while they are mended; nothing is mended so far.
fn nothing_mended(alloc: Global, object: Map<String, Value>) -> Mending
    ensures { state_of result ≡ as_found (members_view object.entries) }
{
    let kinds = Vec::new(alloc);
    Mending {
        alloc,
        object,
        kinds,
    }
}

/// Mends the version alone of an object, and returns both the object and what was mended.
pub(crate) fn mend_version(
    alloc: Global,
    object: Map<String, Value>,
) -> Memory<(Map<String, Value>, Vec<MendKind>)>
    ensures { IfOk result (λ m. with_version (as_found (members_view object.entries))
        ≡ record { members = members_view m.0.entries; kinds = m.1.items }) }
{
    let mut mending = nothing_mended(alloc, object);
    mending.mend_version()?;
    let Mending { object, kinds, .. } = mending;
    Ok((object, kinds))
}

/// Mends the members of a map by itself in their object, and returns both the object and what was mended.
pub(crate) fn mend_object(
    alloc: Global,
    object: Map<String, Value>,
) -> Memory<(Map<String, Value>, Vec<MendKind>)>
    ensures { IfOk result (λ m. mended_members (members_view object.entries)
        ≡ record { members = members_view m.0.entries; kinds = m.1.items }) }
{
    let mut mending = nothing_mended(alloc, object);
    mending.mend_version()?;
    mending.mend_sources()?;
    mending.mend_contents()?;
    mending.mend_names()?;
    mending.mend_ignore_list()?;
    mending.mend_google_ignore_list()?;
    let Mending { object, kinds, .. } = mending;
    Ok((object, kinds))
}
