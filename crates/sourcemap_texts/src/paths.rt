//! Makes paths of sources relative to another folder.
ghost use Rattle.std.specs.Prelude.{◌≡◌, ◌<◌, ◌≤◌, ◌+◌, ℕ, List, Some, true, IfOk, OnOk};
ghost use Rattle.std.specs.Prelude.{length, take, slice_get, string_bytes, vec_len};
ghost use Rattle.std.specs.List.{common_prefix_len, list_all};
ghost use Rattle.std.specs.Str.{bytes_eq};
ghost use Rattle.sourcemap_texts.specs.Words.{lent_items, parts_of, is_here, outer_folder, way};
ghost use Rattle.sourcemap_texts.specs.Words.{gone_up, climbed, climbed_along, way_of};
ghost use Rattle.sourcemap_texts.specs.Words.{begins_with_slash, stands_by_itself};
ghost use Rattle.sourcemap_texts.specs.Words.{is_url, is_in_folder, is_name, begins_plainly};
ghost use Rattle.sourcemap_texts.specs.Words.{front_of, climbing, LeadsTo, IsMoved};

use oxc_sourcemap_parts::has_scheme;
use oxc_sourcemap_tokens::Memory;
use std::alloc::Global;

/// Whether a path begins with a slash of some system.
pub(crate) fn begins_with_slash(path: &str) -> bool
    ensures { result ≡ begins_with_slash path.now }
{
    matches!(path.as_bytes().first(), Some(b'/' | b'\\'))
}

/// Whether a path stands by itself: from the root, from a drive, or a URL.
pub fn stands_by_itself(path: &str) -> bool
    ensures { result ≡ stands_by_itself path.now }
{
    begins_with_slash(path) || has_scheme(path.as_bytes())
}

/// Whether a path begins as a URL does, with a scheme of two characters or more and a colon. One letter is a drive of Windows.
pub fn is_url(path: &str) -> bool
    ensures { result ≡ is_url path.now }
{
    has_scheme(path.as_bytes()) && !matches!(path.as_bytes().get(1), Some(b':'))
}

/// Whether a path is relative to the folder that it is in.
fn is_in_folder(path: &str) -> bool
    ensures { result ≡ is_in_folder path.now }
{
    !path.is_empty() && !stands_by_itself(path)
}

/// A place in the tree of folders, as paths reach it.
#[derive(Drop)]
struct Place<'p> {
    /// Their parts `..` that went above the root.
    above: Vec<&'p str>,
    /// Its parts from the root on.
    parts: Vec<&'p str>,
}

/// The parts of a path, between its slashes.
fn parts_of<'p>(alloc: Global, path: &'p str) -> Memory<Vec<&'p str>>
    ensures { IfOk result (λ parts. lent_items parts.items ≡ parts_of path.entry.now) }
{
    path.split('/').collect(alloc)
}

/// Whether a part stays in its folder.
pub(crate) fn is_here(part: &str) -> bool
    ensures { result ≡ is_here part.now }
{
    part.is_empty() || part == "."
}

impl<'p> Place<'p> {
    /// Goes up by the part `up`: to the folder that this one is in, or from the root above it.
    fn leave(&mut self, up: &'p str) -> Memory<()>
        ensures { OnOk result (way self.new ≡ gone_up (way self.old)) }
    {
        if self.parts.pop().is_some() {
            return Ok(());
        }
        self.above.push(up)?;
        Ok(())
    }

    /// Follows a part.
    fn step(&mut self, part: &'p str) -> Memory<()>
        ensures { OnOk result (way self.new ≡ climbed (way self.old) part.entry.now) }
    {
        if is_here(part) {
            return Ok(());
        }
        if part != ".." {
            self.parts.push(part)?;
            return Ok(());
        }
        self.leave(part)
    }

    /// Follows a path.
    fn follow(&mut self, alloc: Global, path: &'p str) -> Memory<()>
        ensures { OnOk result (way self.new ≡ climbed_along (way self.old) path.entry.now) }
    {
        let parts = parts_of(alloc, path)?;
        for part in parts.as_slice() {
            self.step(*part)?;
        }
        Ok(())
    }
}

/// The folder that a folder is in: the root if it begins with a slash, else `current`.
fn outer_folder<'p>(current: &'p str, folder: &str) -> &'p str
    ensures { result.now ≡ outer_folder current.entry.now folder.now }
{
    match folder.as_bytes().first() {
        Some(b'/') => "",
        _ => current,
    }
}

/// The place of a folder.
fn place_of<'p>(alloc: Global, current: &'p str, folder: &'p str) -> Memory<Place<'p>>
    ensures { IfOk result (λ place. way place ≡ way_of current.entry.now folder.entry.now) }
{
    let mut place = Place {
        above: Vec::new(alloc),
        parts: Vec::new(alloc),
    };
    place.follow(alloc, outer_folder(current, folder))?;
    place.follow(alloc, folder)?;
    Ok(place)
}

/// How many parts two places have in common from the root on.
fn common_count(a: &[&str], b: &[&str]) -> usize
    ensures { result ≡ common_prefix_len bytes_eq (lent_items a.now) (lent_items b.now) }
{
    let mut count = 0;
    while count < a.len() && count < b.len() && a[count] == b[count] {
        count += 1;
    }
    count
}

/// Whether there is a first part, and it is not empty and begins with no backslash, drive or scheme.
fn begins_plainly(parts: &[&str]) -> bool
    ensures { result ≡ begins_plainly (lent_items parts.now) }
{
    match parts.first() {
        Some(part) => is_in_folder(part),
        None => false,
    }
}

/// `./`, where a path that does not go up would be empty, or begin with a backslash, a drive or a scheme.
fn front_of(above: usize, up: usize, parts: &[&str]) -> &'static str
    ensures { result.now ≡ front_of (above + up) (lent_items parts.now) }
{
    if above == 0 && up == 0 && !begins_plainly(parts) {
        "./"
    } else {
        ""
    }
}

/// A path that goes `above` folders above the root and `up` folders up, and then has these parts.
fn climbing_path(alloc: Global, above: usize, up: usize, parts: &[&str]) -> Memory<String>
    ensures { IfOk result (λ path. string_bytes path
        ≡ climbing (above + up) (lent_items parts.now)) }
{
    let mut path = "../".repeat(alloc, above)?;
    path.push_str("../".repeat(alloc, up)?.as_str())?;
    path.push_str(front_of(above, up, parts))?;
    path.push_str(parts.join(alloc, "/")?.as_str())?;
    Ok(path)
}

/// How many parts a place has in common with the place `base`; none if it is above the root.
fn shared_count(base: &[&str], place: &Place<'_>) -> usize
    ensures within { (result ≤ length base.now) × (result ≤ length place.now.parts.items) }
    ensures same { take result (lent_items base.now)
        ≡ take result (lent_items place.now.parts.items) }
    ensures above { 0 < vec_len place.now.above → result ≡ 0 }
    ensures apart { (name : List ℕ) → slice_get (lent_items base.now) result ≡ Some name
        → slice_get (lent_items place.now.parts.items) result ≡ Some name
        → 0 < vec_len place.now.above }
{
    if !place.above.is_empty() {
        return 0;
    }
    common_count(base, place.parts.as_slice())
}

/// The path of a place, as it is seen from the place `base`. A place above the root is as far above it.
fn path_from(alloc: Global, base: &[&str], place: &Place<'_>) -> Memory<String>
    ensures { IfOk result (λ path. list_all is_name (lent_items place.now.parts.items) ≡ true
        → LeadsTo (lent_items base.now) (way place.now) (string_bytes path)) }
{
    let shared = shared_count(base, place);
    let up = base.len() - shared;
    climbing_path(
        alloc,
        place.above.len(),
        up,
        &place.parts.as_slice()[shared..],
    )
}

/// Whether two places are one.
fn are_same(a: &[&str], b: &[&str]) -> bool
    ensures yes { result ≡ true → lent_items a.now ≡ lent_items b.now }
    ensures no { lent_items a.now ≡ lent_items b.now → result ≡ true }
{
    a == b
}

/// A path that is relative to the folder `from`, as one that is relative to the folder `to`. The folders are in the folder `current`,
/// which begins with a slash, where they do not begin with one themselves. What stands by itself (a path from the root or a drive, a
/// URL) stays, and so do the empty path and every path where both folders are one. A path above the root stays as far above it.
///
/// It uses the names of folders and follows no links: sources were written, and are read, relative to the folder by its name.
pub fn relative_path<'p>(
    alloc: Global,
    current: &'p str,
    from: &'p str,
    to: &'p str,
    path: &'p str,
) -> Memory<String>
    ensures { IfOk result (λ moved. IsMoved current.entry.now from.entry.now to.entry.now
        path.entry.now (string_bytes moved)) }
{
    let base = place_of(alloc, current, to)?;
    let mut place = place_of(alloc, current, from)?;
    if !is_in_folder(path) || are_same(base.parts.as_slice(), place.parts.as_slice()) {
        return String::from_str(alloc, path);
    }
    place.follow(alloc, path)?;
    path_from(alloc, base.parts.as_slice(), &place)
}
