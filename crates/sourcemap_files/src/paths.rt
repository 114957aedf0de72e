//! Paths, as texts with slashes.
use percent_encoding::{AsciiSet, CONTROLS, percent_decode_str};
use sourcemap_texts::{is_url, relative_path, stands_by_itself};
use sourcemap_words::{Outcome, failure_of};
use std::alloc::{AllocError, Global};
use std::{env, fs};
use url::Url;

/// The folder of a path, with its slash; empty if there is none.
pub fn folder_of(path: &str) -> &str {
    match path.rsplit_once('/') {
        Some((folder, name)) => path.strip_suffix(name).unwrap_or(folder),
        None => "",
    }
}

/// The last part of a path.
pub fn file_name(path: &str) -> &str {
    match path.rsplit_once('/') {
        Some((_, name)) => name,
        None => path,
    }
}

/// A path in a folder, where the folder is empty or ends in a slash. A path that stands by itself stays.
pub fn join_path(alloc: Global, folder: &str, path: &str) -> Result<String, AllocError> {
    if stands_by_itself(path) {
        return String::from_str(alloc, path);
    }
    format!(in alloc; "{folder}{path}")
}

/// The folder with a slash at its end.
pub fn with_slash(alloc: Global, folder: &str) -> Result<String, AllocError> {
    if folder.is_empty() || folder.ends_with('/') {
        return String::from_str(alloc, folder);
    }
    format!(in alloc; "{folder}/")
}

/// The path of a URL or of a relative reference, without query and fragment, its escapes decoded; None if the result is no text.
pub fn path_of_url(alloc: Global, url: &str) -> Result<Option<String>, AllocError> {
    let path = if is_url(url) {
        match Url::parse(alloc, url) {
            Ok(url) => String::from_str(alloc, url.path())?,
            Err(_) => return Ok(None),
        }
    } else {
        let end = url.find(['?', '#'].as_slice()).unwrap_or(url.len());
        String::from_str(alloc, url.get(..end).unwrap_or(url))?
    };
    match percent_decode_str(path.as_str()).decode_utf8(alloc) {
        Ok(text) => Ok(Some(text.into_owned(alloc)?)),
        Err(_) => Ok(None),
    }
}

/// The path of a file without links and dots; None if the file is not there.
fn real_path(rt: &HostRuntime, path: &str) -> Option<String> {
    let path = if path.is_empty() { "." } else { path };
    let real = fs::canonicalize(rt, path).ok()?;
    String::from_str(rt.alloc(), real.as_path().as_str()).ok()
}

/// Whether a folder is there; an empty path is the current one.
pub fn is_folder(rt: &HostRuntime, path: &str) -> bool {
    match fs::metadata(rt, if path.is_empty() { "." } else { path }) {
        Ok(metadata) => metadata.is_dir(),
        Err(_) => false,
    }
}

/// The own name of a folder: the last part of its path, or, where that has dots alone, of its path from the root; empty if it has none.
pub fn folder_name(rt: &HostRuntime, folder: &str) -> Result<String, AllocError> {
    let alloc = rt.alloc();
    let given = file_name(folder.trim_end_matches('/'));
    if !matches!(given, "" | "." | "..") {
        return String::from_str(alloc, given);
    }
    match real_path(rt, folder) {
        Some(real) => String::from_str(alloc, file_name(real.as_str())),
        None => Ok(String::new(alloc)),
    }
}

/// Whether a file is in a folder, links followed.
pub fn is_inside(rt: &HostRuntime, path: &str, folder: &str) -> bool {
    let (Some(path), Some(folder)) = (real_path(rt, path), real_path(rt, folder)) else {
        return false;
    };
    match path.as_str().strip_prefix(folder.as_str()) {
        Some(rest) => rest.starts_with('/') || folder.as_str() == "/",
        None => false,
    }
}

/// The parts of a path of any system: without a drive, and without empty parts and single dots. None if a part is `..`.
pub fn parts_of(alloc: Global, path: &str) -> Result<Option<Vec<&str>>, AllocError> {
    let mut parts = Vec::new(alloc);
    for part in path.split(['/', '\\'].as_slice()) {
        if part == ".." {
            return Ok(None);
        }
        let is_drive = part.len() == 2 && part.ends_with(':');
        if !part.is_empty() && part != "." && !is_drive {
            parts.push(part)?;
        }
    }
    Ok(Some(parts))
}

/// Parts with slashes between them.
pub fn path_of(alloc: Global, folder: &str, parts: &[&str]) -> Result<String, AllocError> {
    let mut path = String::from_str(alloc, folder)?;
    for (i, part) in parts.iter().enumerate() {
        if i > 0 {
            path.push('/')?;
        }
        path.push_str(part)?;
    }
    Ok(path)
}

/// The file to write to, if others are to be beside it: for a link the file that it leads to. None for a link to nothing.
pub fn written_name(rt: &HostRuntime, path: &str) -> Result<Option<String>, AllocError> {
    match fs::symlink_metadata(rt, path) {
        Ok(metadata) if metadata.is_symlink() => Ok(real_path(rt, path)),
        _ => Ok(Some(String::from_str(rt.alloc(), path)?)),
    }
}

/// The path of a file without links and dots, by which two names of one file are the same; the name itself if it is not there.
pub fn real_name(rt: &HostRuntime, path: &str) -> Result<String, AllocError> {
    match real_path(rt, path) {
        Some(real) => Ok(real),
        None => String::from_str(rt.alloc(), path),
    }
}

/// As `real_name`, but of a file that is not there in a folder that is: without links and dots in front of its name.
pub fn place_of(rt: &HostRuntime, path: &str) -> Result<String, AllocError> {
    if let Some(real) = real_path(rt, path) {
        return Ok(real);
    }
    let folder = real_name(rt, folder_of(path))?;
    format!(in rt.alloc(); "{}/{}", folder.as_str(), file_name(path))
}

/// The parts of a path in a folder, `.` left out and each `..` taken together with the part before it.
fn plain_parts<'p>(
    alloc: Global,
    folder: &'p str,
    path: &'p str,
) -> Result<Vec<&'p str>, AllocError> {
    let mut parts: Vec<&str> = Vec::new(alloc);
    for part in folder.split('/').chain(path.split('/')) {
        if part.is_empty() || part == "." {
            continue;
        }
        let goes_up = part == ".." && parts.as_slice().last().is_some_and(|last| *last != "..");
        if goes_up {
            let _ = parts.pop();
        } else {
            parts.push(part)?;
        }
    }
    Ok(parts)
}

/// The path of a source in a folder, `..` joined with the parts before it; a path that stands by itself stays.
pub fn plain_path(alloc: Global, folder: &str, path: &str) -> Result<String, AllocError> {
    if stands_by_itself(path) {
        return String::from_str(alloc, path);
    }
    let root = if folder.starts_with('/') { "/" } else { "" };
    path_of(alloc, root, plain_parts(alloc, folder, path)?.as_slice())
}

/// The current folder, by the name that the shell has for it (`PWD`), if that is its name: it is the one that users see and write, where
/// links lead to the folder.
pub fn current_folder(rt: &HostRuntime) -> Outcome<String> {
    let alloc = rt.alloc();
    let real = match env::current_dir(rt) {
        Ok(real) => real,
        Err(error) => return Err(failure_of(alloc, "the current folder", error)),
    };
    if let Ok(shown) = env::var(rt, "PWD")
        && shown.as_str().starts_with('/')
        && let Ok(shown_real) = fs::canonicalize(rt, shown.as_str())
        && shown_real.as_path().as_str() == real.as_path().as_str()
    {
        return Ok(shown);
    }
    Ok(String::from_str(alloc, real.as_path().as_str())?)
}

/// `relative_path` in the current folder.
pub fn relative_to(rt: &HostRuntime, from: &str, to: &str, path: &str) -> Outcome<String> {
    let current = current_folder(rt)?;
    Ok(relative_path(rt.alloc(), current.as_str(), from, to, path)?)
}

/// What a path may not have in a comment that names a map.
pub fn bytes_to_escape() -> AsciiSet {
    let spaces = CONTROLS.add(b' ').add(b'#').add(b'%').add(b'?');
    let quotes = spaces.add(b'"').add(b'\'').add(b'`');
    quotes.add(b'*').add(b':')
}
