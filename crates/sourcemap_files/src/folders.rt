//! The files in a folder that have maps.
use crate::compiled::COMPILED_END;
use crate::contents::CONTENTS_END;
use crate::finding::{Lookup, Places, language_of, map_of_code};
use crate::input::{is_file, read_text, warn};
use crate::paths::{is_folder, real_name};
use oxc_sourcemap_text::source_mapping_url;
use sourcemap_words::{Failure, Outcome, PathPattern, file_failure};
use std::alloc::{AllocError, Global};
use std::collections::HashSet;
use std::fs;
use std::io::ErrorKind;

/// Whether a word names a folder, and not standard input.
pub fn names_folder(rt: &HostRuntime, word: &str) -> bool {
    word != "-" && !word.is_empty() && is_folder(rt, word)
}

/// Files in a folder and in those below it.
#[derive(Drop)]
pub struct Listed {
    pub files: Vec<String>,
    /// Why folders could not be looked through.
    pub failures: Vec<String>,
}

/// What is found in a folder and in those below it.
#[derive(Drop)]
struct Found {
    listed: Listed,
    /// The folders that are still to be looked through.
    folders: Vec<String>,
}

impl Found {
    /// Adds why a folder could not be looked through. What ends the run is returned.
    fn fail(&mut self, failure: Failure) -> Outcome<()> {
        match failure {
            Failure::Told(why) => Ok(self.listed.failures.push(why)?),
            failure => Err(failure),
        }
    }
}

/// Adds what a folder has, but for links, and for folders of installed packages.
fn look_through(rt: &HostRuntime, folder: &str, found: &mut Found) -> Outcome<()> {
    let alloc = rt.alloc();
    let entries = match fs::read_dir(rt, folder) {
        Ok(entries) => entries,
        Err(error) => return found.fail(file_failure(alloc, folder, error)),
    };
    for entry in entries {
        let entry = match entry {
            Ok(entry) => entry,
            Err(error) if error.kind() == ErrorKind::InvalidFilename => {
                warn(
                    rt,
                    folder,
                    "a file or folder whose name is not UTF-8 is left out",
                );
                continue;
            }
            Err(error) => return found.fail(file_failure(alloc, folder, error)),
        };
        let path = String::from_str(alloc, entry.path().as_str())?;
        match entry.file_type() {
            Ok(kind) if kind.is_file() => found.listed.files.push(path)?,
            Ok(kind) if kind.is_dir() && entry.file_name() != "node_modules" => {
                found.folders.push(path)?
            }
            Ok(_) => {}
            Err(error) => found.fail(file_failure(alloc, path.as_str(), error))?,
        }
    }
    Ok(())
}

/// The files in a folder and below it, in order of their paths, but for links, and for those of installed packages.
pub fn files_below(rt: &HostRuntime, folder: &str) -> Outcome<Listed> {
    let alloc = rt.alloc();
    let mut found = Found {
        listed: Listed {
            files: Vec::new(alloc),
            failures: Vec::new(alloc),
        },
        folders: Vec::new(alloc),
    };
    found.folders.push(String::from_str(alloc, folder)?)?;
    // (A bound for the proof: it ends with the last folder.)
    for _ in 0..usize::MAX {
        let Some(next) = found.folders.pop() else {
            break;
        };
        look_through(rt, next.as_str(), &mut found)?;
    }
    let mut listed = found.listed;
    listed.files.sort()?;
    Ok(listed)
}

/// Whether the name of a file is that of a script that may have a map.
fn is_script(path: &str) -> bool {
    path.ends_with(".js")
        || path.ends_with(".mjs")
        || path.ends_with(".cjs")
        || path.ends_with(".css")
}

/// Whether the name of a file is that of a compiled map, or of contents that lie apart from one.
fn is_compiled_name(path: &str) -> bool {
    let of = path
        .strip_suffix(CONTENTS_END)
        .or(path.strip_suffix(COMPILED_END));
    of.is_some_and(|of| of.ends_with(".map"))
}

/// Whether a script names a map, has one, or has one beside it. Its map is added to those that are `taken`.
fn may_have_map(
    rt: &HostRuntime,
    script: &str,
    places: Places<'_>,
    taken: &mut HashSet<String>,
) -> Outcome<bool> {
    let beside = format!(in rt.alloc(); "{script}.map")?;
    let text = match read_text(rt, script) {
        Ok(text) => text,
        Err(Failure::Told(_)) => return Ok(is_file(rt, beside.as_str())),
        Err(failure) => return Err(failure),
    };
    let is_named = source_mapping_url(text.as_str(), language_of(script)).is_some();
    match map_of_code(rt, script, text.as_str(), places) {
        Ok(Lookup::Map(map)) => {
            if map.is_file {
                taken.insert(real_name(rt, map.name.as_str())?)?;
            }
            Ok(true)
        }
        Ok(Lookup::None(_)) => Ok(is_named || is_file(rt, beside.as_str())),
        Err(Failure::Told(_)) => Ok(true),
        Err(failure) => Err(failure),
    }
}

/// Adds those of some files that are scripts which may have maps. Their maps are added to those that are `taken`.
fn push_scripts(
    rt: &HostRuntime,
    all: &[String],
    places: Places<'_>,
    taken: &mut HashSet<String>,
    files: &mut Vec<String>,
) -> Outcome<()> {
    for path in all {
        let path = path.as_str();
        if is_script(path) && may_have_map(rt, path, places, taken)? {
            files.push(String::from_str(rt.alloc(), path)?)?;
        }
    }
    Ok(())
}

/// Adds those of some files that are maps, and not `taken` by scripts, or compiled maps.
fn push_maps(
    rt: &HostRuntime,
    all: &[String],
    taken: &HashSet<String>,
    files: &mut Vec<String>,
) -> Outcome<()> {
    for path in all {
        let path = path.as_str();
        if is_compiled_name(path)
            || path.ends_with(".map") && !taken.contains(real_name(rt, path)?.as_str())
        {
            files.push(String::from_str(rt.alloc(), path)?)?;
        }
    }
    Ok(())
}

/// The files in a folder and below it that have maps, in order of their paths: scripts, maps that are those of no such script, and
/// compiled maps. Folders `node_modules` below it are left out, and links.
pub fn files_with_maps(rt: &HostRuntime, folder: &str, places: Places<'_>) -> Outcome<Listed> {
    let alloc = rt.alloc();
    let Listed {
        files: all,
        failures,
    } = files_below(rt, folder)?;
    let mut taken = HashSet::new(alloc);
    let mut files = Vec::new(alloc);
    push_scripts(rt, all.as_slice(), places, &mut taken, &mut files)?;
    push_maps(rt, all.as_slice(), &taken, &mut files)?;
    files.sort()?;
    Ok(Listed { files, failures })
}

/// A path as a pattern names it that names no folder: from the current folder.
fn without_dot(alloc: Global, path: &str) -> Result<String, AllocError> {
    String::from_str(alloc, path.strip_prefix("./").unwrap_or(path))
}

/// The files below the folder of a pattern, by their paths as that names them.
fn files_named(rt: &HostRuntime, folder: &str) -> Outcome<Listed> {
    if !folder.is_empty() {
        return files_below(rt, folder);
    }
    let Listed {
        files: all,
        failures,
    } = files_below(rt, ".")?;
    let mut files = Vec::new(rt.alloc());
    for path in all {
        files.push(without_dot(rt.alloc(), path.as_str())?)?;
    }
    Ok(Listed { files, failures })
}

/// The scripts, maps and compiled maps whose paths a pattern matches, in order of these, but for maps of such scripts. Links are left out, and
/// folders `node_modules` below that of the pattern.
pub fn files_matching(
    rt: &HostRuntime,
    pattern: &PathPattern,
    places: Places<'_>,
) -> Outcome<Listed> {
    let alloc = rt.alloc();
    let Listed {
        files: all,
        failures,
    } = files_named(rt, pattern.folder.as_str())?;
    let matching = pattern.matching(alloc, all)?;
    let mut taken = HashSet::new(alloc);
    let mut files = Vec::new(alloc);
    for path in &matching {
        if is_script(path.as_str()) {
            let _ = may_have_map(rt, path.as_str(), places, &mut taken)?;
            files.push(String::from_str(alloc, path.as_str())?)?;
        }
    }
    push_maps(rt, matching.as_slice(), &taken, &mut files)?;
    files.sort()?;
    Ok(Listed { files, failures })
}
