//! What a command was asked for, and how it ends.
ghost use Rattle.std.specs.Prelude.{◌≡◌, MatchBool};

use crate::finding::{InputPrefix, Places, prefix_of};
use crate::paths::{folder_name, is_folder, with_slash};
use clap::ArgMatches;
use sourcemap_texts::Prefix;
use sourcemap_words::{Outcome, failure_of};
use std::alloc::{AllocError, Global};

/// The status of a command that gave an answer.
#[derive(Clone, Copy, Debug, PartialEq, Eq)]
pub enum Status {
    /// Something was found, and nothing is wrong.
    Found,
    /// Nothing was found, or something is wrong or different.
    Nothing,
}

impl Status {
    /// How a command ends: `found` is whether something was found and nothing is wrong.
    pub fn of(found: bool) -> Status
        ensures { MatchBool found (result ≡ Status.Found) (result ≡ Status.Nothing) }
    {
        if found {
            Status::Found
        } else {
            Status::Nothing
        }
    }
}

/// What a command was asked for.
#[derive(Drop)]
pub struct Asked<'a, 'm> {
    pub rt: &'a HostRuntime,
    pub matches: &'a ArgMatches<'m>,
    /// The folders of `--root` and `--maps`, with a slash at their ends.
    pub root: String,
    pub maps: Option<String>,
    /// The prefixes of `--prefix`.
    pub prefixes: Vec<Prefix>,
}

/// A folder that an option names, with a slash at its end.
fn named_folder(rt: &HostRuntime, option: &str, folder: &str) -> Outcome<String> {
    let alloc = rt.alloc();
    let is_current = matches!(folder, "." | "./");
    let found = with_slash(alloc, if is_current { "" } else { folder })?;
    if !is_folder(rt, found.as_str()) {
        let text = format!(in alloc; "{folder:?} is no folder")?;
        return Err(failure_of(alloc, option, text.as_str()));
    }
    Ok(found)
}

/// A prefix with its folder, in the words `PREFIX=DIR`.
fn word_prefix(rt: &HostRuntime, word: &str) -> Outcome<Prefix> {
    let alloc = rt.alloc();
    if let Some((left, folder)) = word.rsplit_once('=')
        && !left.is_empty()
        && let Some(prefix) = prefix_of(alloc, left, named_folder(rt, "--prefix", folder)?)?
    {
        return Ok(prefix);
    }
    let text = format!(in alloc;
        "{word:?} is no prefix of a path or URL with its folder: write PREFIX=DIR"
    )?;
    Err(failure_of(alloc, "--prefix", text.as_str()))
}

/// The prefixes of `--prefix`, of commands that have it.
fn prefixes_of(rt: &HostRuntime, matches: &ArgMatches<'_>) -> Outcome<Vec<Prefix>> {
    let mut prefixes = Vec::new(rt.alloc());
    if let Some(words) = matches.get_strs("prefix") {
        for word in words {
            prefixes.push(word_prefix(rt, word)?)?;
        }
    }
    Ok(prefixes)
}

impl<'a, 'm> Asked<'a, 'm> {
    /// Reads the options of all commands about files. Fails for a folder that is not there.
    pub fn new(rt: &'a HostRuntime, matches: &'a ArgMatches<'m>) -> Outcome<Asked<'a, 'm>> {
        let root = match matches.get_str("root") {
            Some(root) => named_folder(rt, "--root", root)?,
            None => String::new(rt.alloc()),
        };
        let maps = match matches.get_str("maps") {
            Some(maps) => Some(named_folder(rt, "--maps", maps)?),
            None => None,
        };
        let prefixes = prefixes_of(rt, matches)?;
        Ok(Asked {
            rt,
            matches,
            root,
            maps,
            prefixes,
        })
    }

    pub fn alloc(&self) -> Global {
        self.rt.alloc()
    }

    /// Whether a flag is given.
    pub fn has(&self, name: &str) -> bool {
        self.matches.get_flag(name)
    }

    /// The word of an argument; empty if it is not given.
    pub fn word(&self, name: &str) -> &'m str {
        let matches = self.matches;
        match matches.get_str(name) {
            Some(word) => word,
            None => "",
        }
    }

    /// The words of an argument.
    pub fn words(&self, name: &str) -> Result<Vec<&'m str>, AllocError> {
        let mut words = Vec::new(self.alloc());
        let matches = self.matches;
        if let Some(found) = matches.get_strs(name) {
            for word in found {
                words.push(*word)?;
            }
        }
        Ok(words)
    }

    pub fn number(&self, name: &str) -> Option<u32> {
        self.matches.get_one::<u32>(name)
    }

    /// Where to look for files.
    pub fn places(&self) -> Places<'_> {
        Places {
            root: self.root.as_str(),
            maps: self.maps.as_deref(),
            outside: self.has("outside"),
            prefixes: self.prefixes.as_slice(),
            takes_compiled: false,
        }
    }

    /// The prefix of an input whose codes are in the root; it is not known yet.
    pub fn input_prefix(&self) -> Result<InputPrefix, AllocError> {
        let name = folder_name(self.rt, self.root.as_str())?;
        InputPrefix::new(self.alloc(), name.as_str())
    }
}
