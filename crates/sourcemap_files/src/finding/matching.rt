//! Which file of a folder the path of a code means, as an engine names it: a rule over paths and over which files there are. What is read
//! of the disk is behind `Files`.
use crate::paths::path_of_url;
use percent_encoding::percent_decode_str;
use sourcemap_texts::{Candidate, Choice, Prefix, choose, is_url, longest_prefix};
use std::alloc::{AllocError, Global};
use std::collections::HashMap;

/// Which files a folder has.
pub trait Files {
    /// Whether the code or its map is there; the path is from the folder, with slashes.
    fn has(&self, path: &str) -> Result<bool, AllocError>;
}

/// The path of a code, with slashes, and without dots, empty parts and escapes.
#[derive(Drop)]
pub struct CodePath {
    /// The host's URL, a drive with its slash, and the path: `https://h/a/b.js`, `C:/a/b.js`, `/a/b.js` or `a/b.js`.
    pub text: String,
    /// The length of what is before the path: of `https://h/`, `C:/`, `/`, or 0.
    root: usize,
    /// Whether it is the URL of a host.
    pub is_remote: bool,
}

/// The parts of a path of any system, without empty parts and dots; two dots remove the part before them. None if a URL has two dots left.
fn normal_path(alloc: Global, path: &str, is_relative: bool) -> Result<String, AllocError> {
    let mut parts: Vec<&str> = Vec::new(alloc);
    for part in path.split(['/', '\\'].as_slice()) {
        let is_up = part == "..";
        let can_go_up = matches!(parts.as_slice().last(), Some(last) if *last != "..");
        if is_up && can_go_up {
            let _ = parts.pop();
        } else if is_up && is_relative || !is_up && !part.is_empty() && part != "." {
            parts.push(part)?;
        }
    }
    let mut text = String::new(alloc);
    for (i, part) in parts.iter().enumerate() {
        if i > 0 {
            text.push('/')?;
        }
        text.push_str(part)?;
    }
    Ok(text)
}

/// A URL without the front that React puts before the codes of its servers, which escapes it once more.
fn without_react(alloc: Global, name: &str) -> Result<Option<String>, AllocError> {
    let Some(rest) = name
        .strip_prefix("rsc://React/")
        .or(name.strip_prefix("about://React/"))
    else {
        return Ok(Some(String::from_str(alloc, name)?));
    };
    let Some((_, url)) = rest.split_once('/') else {
        return Ok(None);
    };
    let url = url.rsplit_once('?').map_or(url, |(url, _)| url);
    match percent_decode_str(url).decode_utf8(alloc) {
        Ok(text) => Ok(Some(text.into_owned(alloc)?)),
        Err(_) => Ok(None),
    }
}

/// The front of a path and what is behind it: a drive with its slash, a slash, or nothing.
fn split_drive(path: &str) -> (&str, &str) {
    let inner = path.strip_prefix(['/', '\\'].as_slice()).unwrap_or(path);
    let is_drive = inner
        .as_bytes()
        .first()
        .is_some_and(|byte| byte.is_ascii_alphabetic())
        && matches!(inner.get(1..3), Some(":/" | ":\\"));
    match inner.split_at_checked(2) {
        Some(split) if is_drive => split,
        _ => path
            .split_at_checked(path.len().saturating_sub(inner.len()))
            .unwrap_or(("", path)),
    }
}

impl CodePath {
    /// The path of a host's URL: of `https://h/a/b.js?v=2` it is `a/b.js` at `https://h/`.
    fn of_url(alloc: Global, url: &str) -> Result<Option<CodePath>, AllocError> {
        let Some(path) = path_of_url(alloc, url)? else {
            return Ok(None);
        };
        if path
            .as_str()
            .split(['/', '\\'].as_slice())
            .any(|part| part == "..")
        {
            return Ok(None);
        }
        let (scheme, rest) = url.split_once("://").unwrap_or(("", url));
        let end = rest.find(['/', '?', '#'].as_slice()).unwrap_or(rest.len());
        let host = rest.get(..end).unwrap_or("");
        let mut text = format!(in alloc; "{scheme}://{host}/")?;
        let root = text.len();
        text.push_str(normal_path(alloc, path.as_str(), false)?.as_str())?;
        Ok(Some(CodePath {
            text,
            root,
            is_remote: true,
        }))
    }

    fn of_path(alloc: Global, path: &str) -> Result<CodePath, AllocError> {
        let (front, rest) = split_drive(path);
        let mut text = String::from_str(alloc, front.trim_end_matches(['/', '\\'].as_slice()))?;
        if !front.is_empty() {
            text.push('/')?;
        }
        let root = text.len();
        text.push_str(normal_path(alloc, rest, front.is_empty())?.as_str())?;
        Ok(CodePath {
            text,
            root,
            is_remote: false,
        })
    }

    /// The path of a name in a frame: a URL or a path. None if it is neither.
    pub fn of_name(alloc: Global, name: &str) -> Result<Option<CodePath>, AllocError> {
        let Some(name) = without_react(alloc, name)? else {
            return Ok(None);
        };
        let name = name.as_str();
        if !is_url(name) || !name.contains("://") {
            return Ok(Some(CodePath::of_path(alloc, name)?));
        }
        if !name.starts_with("file:") {
            return CodePath::of_url(alloc, name);
        }
        match path_of_url(alloc, name)? {
            Some(path) => Ok(Some(CodePath::of_path(alloc, path.as_str())?)),
            None => Ok(None),
        }
    }

    /// The whole path below its root: without a host, a drive or the slash in front; None if it begins with two dots, or is empty.
    pub fn whole(&self) -> Option<&str> {
        let path = self.text.as_str().get(self.root..)?;
        if path.is_empty() || path.starts_with("../") {
            None
        } else {
            Some(path)
        }
    }

    /// The path up to byte `end`, and the rest.
    fn split(&self, end: usize) -> (&str, &str) {
        let text = self.text.as_str();
        text.split_at_checked(end).unwrap_or((text, ""))
    }

    /// Whether it is the path of a file of an installed package.
    pub fn is_in_package(&self) -> bool {
        self.text
            .as_str()
            .split('/')
            .any(|part| part == "node_modules")
    }
}

/// What a prefix leaves of a path, where that is in the folder.
#[derive(Drop)]
pub struct Below {
    pub prefix: String,
    pub rest: String,
}

impl Below {
    fn new(alloc: Global, prefix: &str, rest: &str) -> Result<Below, AllocError> {
        Ok(Below {
            prefix: String::from_str(alloc, prefix)?,
            rest: String::from_str(alloc, rest)?,
        })
    }
}

/// How a path is found below a prefix of it.
#[derive(Drop)]
pub enum Found {
    /// Below the prefix of the input.
    Below(Below),
    /// Below a prefix of which too little is known: a file that it may be.
    Maybe(Below),
    Nothing,
}

/// The prefix of an input: what is before the paths in a folder, on the machine that an input is from. It is one for the whole input, and
/// the first path that determines it does so.
#[derive(Drop)]
pub struct InputPrefix {
    /// The folder's own name between slashes; empty if it has none.
    own: String,
    known: Option<String>,
    /// What is in the folder below prefixes of earlier paths: of each the first one.
    seen: HashMap<String, String>,
}

/// The prefixes of a path whose rests are in a folder, by their lengths. No prefix has a part `node_modules`.
fn ends_there<F: Files>(
    alloc: Global,
    path: &CodePath,
    files: &F,
) -> Result<Vec<usize>, AllocError> {
    let mut ends = Vec::new(alloc);
    let text = path.text.as_str();
    for (at, _) in text.match_indices('/') {
        let end = at.saturating_add(1);
        let (prefix, rest) = path.split(end);
        if prefix.ends_with("/node_modules/") || prefix == "node_modules/" {
            break;
        }
        if end >= path.root && !rest.is_empty() && files.has(rest)? {
            ends.push(end)?;
        }
    }
    Ok(ends)
}

impl InputPrefix {
    /// For a folder with this name; empty if it has none.
    pub fn new(alloc: Global, name: &str) -> Result<InputPrefix, AllocError> {
        let own = if name.is_empty() {
            String::new(alloc)
        } else {
            format!(in alloc; "/{name}/")?
        };
        Ok(InputPrefix {
            own,
            known: None,
            seen: HashMap::new(alloc),
        })
    }

    pub fn is_known(&self) -> bool {
        self.known.is_some()
    }

    /// What the known prefix leaves of a path, if that is in the folder.
    fn below_known<F: Files>(
        &self,
        alloc: Global,
        path: &CodePath,
        files: &F,
    ) -> Result<Found, AllocError> {
        if let Some(prefix) = &self.known
            && let Some(rest) = path.text.as_str().strip_prefix(prefix.as_str())
            && files.has(rest)?
        {
            return Ok(Found::Below(Below::new(alloc, prefix.as_str(), rest)?));
        }
        Ok(Found::Nothing)
    }

    /// Which of the prefixes of a path with these lengths is that of the input.
    fn choice(&self, alloc: Global, path: &CodePath, ends: &[usize]) -> Result<Choice, AllocError> {
        let mut candidates = Vec::new(alloc);
        for end in ends {
            let (prefix, rest) = path.split(*end);
            let earlier = self.seen.get(prefix).map(|earlier| earlier.as_str());
            candidates.push(Candidate {
                prefix,
                rest,
                earlier,
            })?;
        }
        Ok(choose(self.own.as_str(), path.is_remote, candidates.as_slice()))
    }

    /// Keeps what these prefixes leave of a path, for paths that come later.
    fn remember(
        &mut self,
        alloc: Global,
        path: &CodePath,
        ends: &[usize],
    ) -> Result<(), AllocError> {
        for end in ends {
            let (prefix, rest) = path.split(*end);
            if !self.seen.contains_key(prefix) {
                let Below { prefix, rest } = Below::new(alloc, prefix, rest)?;
                self.seen.insert(prefix, rest)?;
            }
        }
        Ok(())
    }

    /// Finds what a prefix leaves of a path that is not in the folder as a whole.
    pub fn find<F: Files>(
        &mut self,
        alloc: Global,
        path: &CodePath,
        files: &F,
    ) -> Result<Found, AllocError> {
        if self.is_known() {
            return self.below_known(alloc, path, files);
        }
        let ends = ends_there(alloc, path, files)?;
        let ends = ends.as_slice();
        let (choice, first) = (self.choice(alloc, path, ends)?, ends.first());
        if let Choice::Determined(i) = choice
            && let Some(end) = ends.get(i)
        {
            let (prefix, rest) = path.split(*end);
            self.known = Some(String::from_str(alloc, prefix)?);
            return Ok(Found::Below(Below::new(alloc, prefix, rest)?));
        }
        self.remember(alloc, path, ends)?;
        match (choice, first) {
            (Choice::MaybeFirst, Some(end)) => {
                let (prefix, rest) = path.split(*end);
                Ok(Found::Maybe(Below::new(alloc, prefix, rest)?))
            }
            _ => Ok(Found::Nothing),
        }
    }
}

/// The prefix of a URL or a path, whose rests are in a folder with a slash at its end; None if it is neither.
pub fn prefix_of(alloc: Global, left: &str, folder: String) -> Result<Option<Prefix>, AllocError> {
    let Some(path) = CodePath::of_name(alloc, left)? else {
        return Ok(None);
    };
    let mut left = path.text;
    if !left.ends_with('/') {
        left.push('/')?;
    }
    Ok(Some(Prefix { left, folder }))
}

/// The longest of some prefixes that a path has, and what is behind it there.
pub fn named_prefix<'a, 'p>(
    prefixes: &'a [Prefix],
    path: &'p CodePath,
) -> Option<(&'a Prefix, &'p str)> {
    let text = path.text.as_str();
    let prefix = prefixes.get(longest_prefix(prefixes, text)?)?;
    Some((prefix, text.strip_prefix(prefix.left.as_str())?))
}
