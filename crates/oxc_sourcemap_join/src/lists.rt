//! The lists of names, sources and contents of a join.
ghost use Rattle.std.specs.Prelude.{◌≡◌, ◌≤◌, ◌+◌, ◌++◌, map, option_map};
ghost use Rattle.std.specs.Prelude.{length, replicate, take, List, Option, Some, None};
ghost use Rattle.std.specs.Prelude.{IsTrue, IfOk, OnOk};
ghost use Rattle.std.specs.Prelude.{vec_len};
ghost use Rattle.std.specs.Vec.{vec_capacity};
ghost use Rattle.std.specs.Cow.{cow_str_bytes};
ghost use Rattle.std.specs.Option.{unwrap_or};
ghost use Rattle.oxc_sourcemap_join.specs.Words.{texts_of, contents_of};
ghost use Rattle.oxc_sourcemap_join.specs.Words.{fitted};
ghost use Rattle.oxc_sourcemap_join.specs.Words.{cow_texts, Text};

use oxc_sourcemap_parts::{Contents, SourceMapParts, Texts, contents_in, owned_text, texts_in};
use oxc_sourcemap_tokens::Memory;
use std::alloc::Global;
use std::borrow::CowStr;

/// How many names, sources and tokens there are in a map, or in several.
#[derive(Clone, Copy, Default)]
pub struct Lengths {
    pub names: usize,
    pub sources: usize,
    pub tokens: usize,
}

/// Whether there is room in a list for this many more.
fn has_room<T>(list: &Vec<T>, additional: usize) -> bool
    ensures { IsTrue result → vec_len list.now + additional ≤ vec_capacity list.now }
{
    additional <= list.capacity() - list.len()
}

/// Takes room in a list for this many more.
#[cold]
#[inline(never)]
fn grow<T>(list: &mut Vec<T>, additional: usize) -> Memory<()>
    ensures items { list.new.items ≡ list.old.items }
    ensures room { OnOk result (vec_len list.new + additional ≤ vec_capacity list.new) }
{
    list.reserve(additional)
}

/// Takes room in a list for this many more, where it has none.
#[inline(always)]
pub(crate) fn make_room<T>(list: &mut Vec<T>, additional: usize) -> Memory<()>
    ensures items { list.new.items ≡ list.old.items }
    ensures room { OnOk result (vec_len list.new + additional ≤ vec_capacity list.new) }
{
    // (most joins have taken room for all maps before)
    if has_room(list, additional) {
        return Ok(());
    }
    grow(list, additional)
}

// Functions `push_` need room for what they add: they take no memory.

/// Adds texts, borrowed.
fn push_texts<'a>(texts: &mut Vec<CowStr<'a>>, lent: Texts<'a, '_>)
    requires { vec_len texts.old + length lent ≤ vec_capacity texts.old }
    ensures added { texts_of texts.new ≡ texts_of texts.old ++ lent.entry }
    ensures front { take (vec_len texts.old) texts.new.items ≡ texts.old.items }
{
    for text in lent {
        texts.push_reserved(CowStr::Borrowed(text));
    }
}

/// Adds this many unknown contents.
fn push_unknown<'a>(contents: &mut Vec<Option<CowStr<'a>>>, count: usize)
    requires { vec_len contents.old + count ≤ vec_capacity contents.old }
    ensures added { contents_of contents.new ≡ contents_of contents.old ++ replicate count None }
    ensures front { take (vec_len contents.old) contents.new.items ≡ contents.old.items }
{
    for i in 0..count {
        contents.push_reserved(None);
    }
}

/// A content, borrowed; one that is missing is unknown.
fn lent_content<'a>(content: Option<Option<&'a str>>) -> Option<CowStr<'a>>
    ensures { option_map cow_str_bytes result ≡ unwrap_or
        (option_map (option_map (λ text. text.now)) content.entry) None }
{
    match content {
        Some(Some(content)) => Some(CowStr::Borrowed(content)),
        _ => None,
    }
}

/// Keeps borrowed contents at the index of their source: a map may list fewer or more contents than sources, and the next map's
/// would else follow at the wrong index. Adds `count` contents, padded with unknown ones or cut.
fn push_lent_fitted<'a>(
    contents: &mut Vec<Option<CowStr<'a>>>,
    mut lent: Contents<'a, '_>,
    count: usize,
)
    requires { vec_len contents.old + count ≤ vec_capacity contents.old }
    ensures added { contents_of contents.new ≡ contents_of contents.old ++ fitted count lent.entry }
    ensures front { take (vec_len contents.old) contents.new.items ≡ contents.old.items }
{
    for id in 0..count {
        contents.push_reserved(lent_content(lent.next()));
    }
}

/// Keeps moved contents at the index of their source, as `push_lent_fitted` does with borrowed ones.
fn push_fitted<'a>(
    contents: &mut Vec<Option<CowStr<'a>>>,
    mut added: Vec<Option<CowStr<'a>>>,
    count: usize,
)
    requires { vec_len contents.old + count ≤ vec_capacity contents.old }
    ensures added { contents_of contents.new ≡ contents_of contents.old
        ++ fitted count (contents_of added.entry) }
    ensures front { take (vec_len contents.old) contents.new.items ≡ contents.old.items }
{
    added.truncate(count);
    let unknown = count - added.len();
    let appended = contents.append(&mut added);
    appended.unwrap();
    push_unknown(contents, unknown);
}

/// Adds copies of texts. On an error some may be added.
fn push_copies<'a>(alloc: Global, texts: &mut Vec<CowStr<'a>>, added: &[CowStr<'_>]) -> Memory<()>
    requires { vec_len texts.old + length added.now ≤ vec_capacity texts.old }
    ensures copied { OnOk result (texts_of texts.new ≡ texts_of texts.old ++ cow_texts added.now) }
    ensures front { take (vec_len texts.old) texts.new.items ≡ texts.old.items }
{
    for text in added {
        texts.push_reserved(owned_text(alloc, text.as_str())?);
    }
    Ok(())
}

/// A copy of a content, if it is known.
fn copied_content<'a>(alloc: Global, content: &Option<CowStr<'_>>) -> Memory<Option<CowStr<'a>>>
    ensures { IfOk result (λ copy. option_map cow_str_bytes copy
        ≡ option_map cow_str_bytes content.now) }
{
    match content {
        Some(text) => Ok(Some(owned_text(alloc, text.as_str())?)),
        None => Ok(None),
    }
}

/// Keeps copies of contents at the index of their source, as `push_lent_fitted` does with borrowed ones. On an error some may be
/// added.
fn push_copies_fitted<'a>(
    alloc: Global,
    contents: &mut Vec<Option<CowStr<'a>>>,
    added: &[Option<CowStr<'_>>],
    count: usize,
) -> Memory<()>
    requires { vec_len contents.old + count ≤ vec_capacity contents.old }
    ensures copied { OnOk result (contents_of contents.new ≡ contents_of contents.old
        ++ fitted count (map (option_map cow_str_bytes) added.now)) }
    ensures front { take (vec_len contents.old) contents.new.items ≡ contents.old.items }
{
    let known = added.len().min(count);
    for content in &added[..known] {
        contents.push_reserved(copied_content(alloc, content)?);
    }
    push_unknown(contents, count - known);
    Ok(())
}

/// The strings of a join in the making.
#[derive(Drop)]
pub(crate) struct Lists<'a> {
    pub(crate) names: Vec<CowStr<'a>>,
    pub(crate) sources: Vec<CowStr<'a>>,
    /// The content of each source.
    pub(crate) contents: Vec<Option<CowStr<'a>>>,
}

impl<'a> Lists<'a> {
    /// Takes room for this many names, and sources with their contents.
    // What adds a map is put into its caller: this, `push_moved`, `push_tokens`, `addition`, `add` and `add_copied`. A small map
    // then takes a tenth less time.
    #[inline(always)]
    pub(crate) fn make_room(&mut self, names_len: usize, sources_len: usize) -> Memory<()>
        ensures names { self.new.names.items ≡ self.old.names.items }
        ensures sources { self.new.sources.items ≡ self.old.sources.items }
        ensures contents { self.new.contents.items ≡ self.old.contents.items }
        ensures room_for_names { OnOk result
            (vec_len self.new.names + names_len ≤ vec_capacity self.new.names) }
        ensures room_for_sources { OnOk result
            (vec_len self.new.sources + sources_len ≤ vec_capacity self.new.sources) }
        ensures room_for_contents { OnOk result
            (vec_len self.new.contents + sources_len ≤ vec_capacity self.new.contents) }
    {
        make_room(&mut self.names, names_len)?;
        make_room(&mut self.sources, sources_len)?;
        make_room(&mut self.contents, sources_len)
    }

    /// Drops what was added to lists of these lengths.
    #[cold]
    pub(crate) fn cut(&mut self, names_len: usize, sources_len: usize)
        ensures names { self.new.names.items ≡ take names_len self.old.names.items }
        ensures sources { self.new.sources.items ≡ take sources_len self.old.sources.items }
        ensures contents { self.new.contents.items ≡ take sources_len self.old.contents.items }
    {
        self.names.truncate(names_len);
        self.sources.truncate(sources_len);
        self.contents.truncate(sources_len);
    }
}

/// The strings of a map, and how they come into a join: borrowed, moved or copied.
pub(crate) trait Strings<'a>: Drop {
    ghost names: { Self → List Text };

    ghost sources: { Self → List Text };

    ghost contents: { Self → List (Option Text) };

    fn names_len(&self) -> usize
        ensures { result ≡ length (names self.now) };

    fn sources_len(&self) -> usize
        ensures { result ≡ length (sources self.now) };

    /// Adds them to lists with room for them. On an error some may be added.
    fn push(self, alloc: Global, lists: &mut Lists<'a>) -> Memory<()>
        requires room_for_names { vec_len lists.old.names + length (names self)
            ≤ vec_capacity lists.old.names }
        requires room_for_sources { vec_len lists.old.sources + length (sources self)
            ≤ vec_capacity lists.old.sources }
        requires room_for_contents { vec_len lists.old.contents + length (sources self)
            ≤ vec_capacity lists.old.contents }
        ensures names { OnOk result (texts_of lists.new.names
            ≡ texts_of lists.old.names ++ names self) }
        ensures sources { OnOk result (texts_of lists.new.sources
            ≡ texts_of lists.old.sources ++ sources self) }
        ensures contents { OnOk result (contents_of lists.new.contents
            ≡ contents_of lists.old.contents
            ++ fitted (length (sources self)) (contents self)) }
        ensures names_front { take (vec_len lists.old.names) lists.new.names.items
            ≡ lists.old.names.items }
        ensures sources_front { take (vec_len lists.old.sources) lists.new.sources.items
            ≡ lists.old.sources.items }
        ensures contents_front { take (vec_len lists.old.contents) lists.new.contents.items
            ≡ lists.old.contents.items };
}

/// The strings of a map, borrowed.
#[derive(Clone, Copy)]
pub(crate) struct Lent<'a>(pub(crate) &'a SourceMapParts<'a>);

impl<'a> Strings<'a> for Lent<'a> {
    ghost names = { λ s. texts_of s.0.now.names };

    ghost sources = { λ s. texts_of s.0.now.sources };

    ghost contents = { λ s. contents_of s.0.now.source_contents };

    fn names_len(&self) -> usize {
        self.0.names.len()
    }

    fn sources_len(&self) -> usize {
        self.0.sources.len()
    }

    #[inline(always)]
    fn push(self, alloc: Global, lists: &mut Lists<'a>) -> Memory<()> {
        let parts = self.0;
        push_texts(&mut lists.names, texts_in(parts.names.as_slice()));
        push_texts(&mut lists.sources, texts_in(parts.sources.as_slice()));
        push_lent_fitted(
            &mut lists.contents,
            contents_in(parts.source_contents.as_slice()),
            parts.sources.len(),
        );
        Ok(())
    }
}

/// The strings of a map, moved.
impl<'a> Strings<'a> for Lists<'a> {
    ghost names = { λ s. texts_of s.names };

    ghost sources = { λ s. texts_of s.sources };

    ghost contents = { λ s. contents_of s.contents };

    fn names_len(&self) -> usize {
        self.names.len()
    }

    fn sources_len(&self) -> usize {
        self.sources.len()
    }

    #[inline(always)]
    fn push(self, alloc: Global, lists: &mut Lists<'a>) -> Memory<()> {
        let Lists {
            mut names,
            mut sources,
            contents,
        } = self;
        let count = sources.len();
        lists.names.append(&mut names).unwrap();
        lists.sources.append(&mut sources).unwrap();
        push_fitted(&mut lists.contents, contents, count);
        Ok(())
    }
}

/// The strings of a map, copied.
#[derive(Clone, Copy)]
pub(crate) struct Copied<'s>(pub(crate) &'s SourceMapParts<'s>);

impl<'a, 's> Strings<'a> for Copied<'s> {
    ghost names = { λ s. texts_of s.0.now.names };

    ghost sources = { λ s. texts_of s.0.now.sources };

    ghost contents = { λ s. contents_of s.0.now.source_contents };

    fn names_len(&self) -> usize {
        self.0.names.len()
    }

    fn sources_len(&self) -> usize {
        self.0.sources.len()
    }

    #[inline(always)]
    fn push(self, alloc: Global, lists: &mut Lists<'a>) -> Memory<()> {
        let parts = self.0;
        push_copies(alloc, &mut lists.names, parts.names.as_slice())?;
        push_copies(alloc, &mut lists.sources, parts.sources.as_slice())?;
        push_copies_fitted(
            alloc,
            &mut lists.contents,
            parts.source_contents.as_slice(),
            parts.sources.len(),
        )
    }
}
