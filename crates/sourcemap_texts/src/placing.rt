//! Where sources of maps are put, as files below a folder.
ghost use Rattle.std.specs.Prelude.{◌≡◌, ◌++◌, true, IfOk, string_bytes};
ghost use Rattle.std.specs.List.{list_all};
ghost use Rattle.sourcemap_texts.specs.Words.{is_name, written, joined, IsBelow};

use crate::matching::has_slash;
use crate::paths::{begins_with_slash, is_here, is_url};
use crate::texts::is_hidden;
use oxc_sourcemap_tokens::Memory;
use std::alloc::Global;
use std::marker::Model;

/// The name in place of a folder above the one that files are put below, and the mark in place of a hidden character.
const MARK: &str = "_";

/// Where a source is put below a folder: the names of folders and, at the end, that of the file.
#[derive(Drop)]
pub struct Placed {
    parts: Vec<String>,
    is_moved: bool,
}

impl Model for Placed {
    ghost use Rattle.std.specs.Prelude.{◌≡◌, List, true};
    ghost use Rattle.std.specs.List.{list_all};
    ghost use Rattle.oxc_sourcemap_parts.specs.Record.{Text};
    ghost use Rattle.sourcemap_texts.specs.Words.{is_name, written};

    ghost Value = { List Text };

    ghost view = { λ placed. written placed.parts.items };

    ghost invariant = { λ placed. list_all is_name (written placed.parts.items) ≡ true };
}

impl Placed {
    /// The names.
    pub fn parts(&self) -> &[String]
        ensures { written result.now ≡ self.now }
    {
        self.parts.as_slice()
    }

    /// Whether its path leads elsewhere, or cannot be that of a file: it is from a root or a drive, goes above the folder, or has hidden
    /// characters.
    pub fn is_moved(&self) -> bool {
        self.is_moved
    }

    /// The same place, of a source whose path leads elsewhere.
    pub fn moved(self) -> Placed
        ensures { result ≡ self }
    {
        Placed {
            parts: self.parts,
            is_moved: true,
        }
    }

    /// The path of the file below a folder, which is empty or ends in a slash. It does not lead out of the folder.
    pub fn path_below(&self, alloc: Global, folder: &str) -> Memory<String>
        ensures text { IfOk result (λ path. string_bytes path ≡ folder.now ++ joined self.now) }
        ensures below { IfOk result (λ path. IsBelow folder.now (string_bytes path)) }
    {
        let mut path = String::from_str(alloc, folder)?;
        path.push_str(self.parts.as_slice().join(alloc, "/")?.as_str())?;
        Ok(path)
    }
}

/// Whether a part leads from a folder into it.
fn is_name(part: &str) -> bool
    ensures { result ≡ is_name part.now }
{
    !(is_here(part) || part == ".." || has_slash(part))
}

/// A part without hidden characters, a mark for each.
fn without_hidden(alloc: Global, part: &str) -> Memory<String> {
    let mut plain = String::new(alloc);
    for ch in part.chars() {
        if is_hidden(ch) {
            plain.push_str(MARK)?;
        } else {
            plain.push(ch)?;
        }
    }
    Ok(plain)
}

/// The name of a file or a folder for a part.
fn name_of(alloc: Global, part: &str) -> Memory<String>
    ensures { IfOk result (λ name. is_name (string_bytes name) ≡ true) }
{
    let plain = without_hidden(alloc, part)?;
    if is_name(plain.as_str()) {
        return Ok(plain);
    }
    String::from_str(alloc, MARK)
}

/// A path without the scheme of a URL.
fn without_scheme(source: &str) -> &str {
    match source.split_once(':') {
        Some((_, path)) if is_url(source) => path,
        _ => source,
    }
}

/// Whether a part is a drive of Windows.
fn is_drive(part: &str) -> bool {
    match part.as_bytes() {
        [letter, b':'] => letter.is_ascii_alphabetic(),
        _ => false,
    }
}

/// Where a path leads from a folder: how often above it, and then by which parts.
#[derive(Drop)]
struct Steps<'p> {
    above: Vec<&'p str>,
    parts: Vec<&'p str>,
    has_drive: bool,
}

impl<'p> Steps<'p> {
    fn go(&mut self, part: &'p str) -> Memory<()> {
        if is_here(part) {
            return Ok(());
        }
        if part == ".." {
            if self.parts.pop().is_none() {
                self.above.push(MARK)?;
            }
            return Ok(());
        }
        if self.parts.is_empty() && self.above.is_empty() && is_drive(part) {
            self.has_drive = true;
            return Ok(());
        }
        self.parts.push(part)?;
        Ok(())
    }
}

/// Whether a path names a file: it ends in a name.
fn names_file(path: &str) -> bool {
    let slashes = ['/', '\\'];
    match path.rsplit(slashes.as_slice()).next() {
        Some(last) => !is_here(last) && last != ".." && !is_drive(last),
        None => false,
    }
}

fn steps_of<'p>(alloc: Global, path: &'p str) -> Memory<Steps<'p>> {
    let mut steps = Steps {
        above: Vec::new(alloc),
        parts: Vec::new(alloc),
        has_drive: false,
    };
    for part in path.split(['/', '\\'].as_slice()) {
        steps.go(part)?;
    }
    Ok(steps)
}

/// The names of parts.
fn names_of(alloc: Global, parts: &[&str]) -> Memory<Vec<String>>
    ensures { IfOk result (λ names. list_all is_name (written names.items) ≡ true) }
{
    let mut names = Vec::new(alloc);
    for part in parts {
        names.push(name_of(alloc, part)?)?;
    }
    Ok(names)
}

/// Where a source is put below a folder; None if it names no file, since it is empty or ends as a folder. The scheme of a URL is left
/// out, and its host is kept. A drive is left out too, and so are leading slashes. Backslashes are slashes; `..` goes back to the folder
/// before it, or else becomes `_`, as each hidden character does. So no source leads out of the folder.
pub fn place_below(alloc: Global, source: &str) -> Memory<Option<Placed>> {
    let path = without_scheme(source);
    if !names_file(path) {
        return Ok(None);
    }
    let Steps {
        above,
        parts,
        has_drive,
    } = steps_of(alloc, path)?;
    let is_from_root = !is_url(source) && begins_with_slash(source);
    let is_moved = !above.is_empty()
        || has_drive
        || is_from_root
        || path.chars().any(|ch| is_hidden(ch));
    let mut all = above;
    all.extend_from_slice(parts.as_slice())?;
    Ok(Some(Placed {
        parts: names_of(alloc, all.as_slice())?,
        is_moved,
    }))
}
