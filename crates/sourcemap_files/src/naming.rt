//! How sources are named in what is printed.
use crate::asked::Asked;
use crate::paths::{path_of_url, plain_path};
use oxc_sourcemap_parts::SourceMapParts;
use sourcemap_texts::push_shown;
use sourcemap_words::{Outcome, failure_of};
use std::alloc::{AllocError, Global};
use std::borrow::CowStr;
use std::env;

/// How many sources a message lists.
const FEW: usize = 8;

/// How sources are named.
#[derive(Clone, Copy, PartialEq, Eq)]
enum Form {
    /// From the current folder, if they are in it, else from the root.
    FromHere,
    FromRoot,
    /// As their maps have them.
    Raw,
}

/// Names sources.
#[derive(Drop)]
pub struct SourceNames {
    alloc: Global,
    form: Form,
    /// The current folder, with a slash at its end.
    current: String,
}

/// Whether a source has no name: it is null, which is read as an empty path, behind the root of its map if there is one.
fn is_unnamed(source: &str) -> bool {
    source.is_empty() || source.ends_with('/')
}

impl SourceNames {
    /// Names sources from the current folder, if they are in it, else from the root.
    pub fn from_here(rt: &HostRuntime) -> Outcome<SourceNames> {
        let alloc = rt.alloc();
        match env::current_dir(rt) {
            Ok(folder) => Ok(SourceNames {
                alloc,
                form: Form::FromHere,
                current: format!(in alloc; "{}/", folder.as_path().as_str())?,
            }),
            Err(error) => Err(failure_of(alloc, "the current folder", error)),
        }
    }

    /// Names sources as `--absolute` and `--raw` ask for, of a command that has them.
    pub fn new(asked: &Asked<'_, '_>) -> Outcome<SourceNames> {
        let names = SourceNames::from_here(asked.rt)?;
        let form = if asked.has("raw") {
            Form::Raw
        } else if asked.has("absolute") {
            Form::FromRoot
        } else {
            Form::FromHere
        };
        Ok(SourceNames { form, ..names })
    }

    /// The path from the root of a source of a map in a folder, `..` taken together with the parts before it. An empty path, a URL but
    /// one of a file, and a path from a drive stay.
    fn whole_path(&self, folder: &str, source: &str) -> Result<String, AllocError> {
        let alloc = self.alloc;
        let named = if source.starts_with("file:") {
            path_of_url(alloc, source)?
        } else {
            None
        };
        let source = named.as_ref().map_or(source, |path| path.as_str());
        let (folder, path) = match source.strip_prefix('/') {
            Some(path) => (String::from_str(alloc, "/")?, path),
            None if folder.starts_with('/') => (String::from_str(alloc, folder)?, source),
            None => (format!(in alloc; "{}{folder}", self.current)?, source),
        };
        plain_path(alloc, folder.as_str(), path)
    }

    /// The name of a source of a map in a folder, its root applied; of an empty one an empty name.
    pub fn name(&self, folder: &str, source: &str) -> Result<String, AllocError> {
        if self.form == Form::Raw || source.is_empty() {
            return String::from_str(self.alloc, source);
        }
        let whole = self.whole_path(folder, source)?;
        let whole = whole.as_str();
        let shown = match (self.form, whole.strip_prefix(self.current.as_str())) {
            (Form::FromHere, Some(rest)) => rest,
            _ => whole,
        };
        String::from_str(self.alloc, shown)
    }

    /// Gives the sources of a map in a folder, its root applied, their names. Those that are null stay.
    pub fn rename(&self, folder: &str, parts: &mut SourceMapParts<'static>) -> Outcome<()> {
        let mut names = Vec::with_capacity(self.alloc, parts.sources.len())?;
        for source in &parts.sources {
            let source = source.as_str();
            names.push(CowStr::Owned(if is_unnamed(source) {
                String::from_str(self.alloc, source)?
            } else {
                self.name(folder, source)?
            }))?;
        }
        parts.sources = names;
        Ok(())
    }

    /// The file of a source of a map in a folder that has this name; None if it is none of this machine.
    pub fn file(&self, folder: &str, name: &str) -> Result<Option<String>, AllocError> {
        if is_unnamed(name) {
            return Ok(None);
        }
        let folder = if self.form == Form::Raw { folder } else { "" };
        let path = self.whole_path(folder, name)?;
        Ok(if path.starts_with('/') {
            Some(path)
        } else {
            None
        })
    }
}

/// The first of some sources, for messages.
pub fn first_sources(alloc: Global, sources: &[CowStr<'_>]) -> Outcome<String> {
    let mut text = String::new(alloc);
    for (i, source) in sources.iter().take(FEW).enumerate() {
        if i > 0 {
            text.push_str(", ")?;
        }
        push_shown(source.as_str(), &mut text)?;
    }
    if sources.len() > FEW {
        text.push_str(" and others")?;
    }
    Ok(text)
}
