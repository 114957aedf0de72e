//! `extract`: the contents of sources, as files below a folder.
ghost use Rattle.std.specs.Prelude.{◌≡◌, None, string_bytes, IfOk, IfSome};
ghost use Rattle.sourcemap_texts.specs.Words.{IsBelow};
ghost use Rattle.sourcemap_editing.specs.Fates.{file_of};

use crate::editing::{is_done, rooted_maps};
use crate::naming::Names;
use crate::placing::place_of_source;
use oxc_sourcemap_parts::SourceMapParts;
use sourcemap_files::{
    Asked, Progress, Status, map_of_file, print, tell, usage, warn, with_slash, write_files,
};
use sourcemap_run::{push_number_member, push_object, push_text_member};
use sourcemap_texts::Placed;
use sourcemap_words::{Failure, Outcome, failure_of, file_failure};
use std::alloc::Global;
use std::collections::HashMap;
use std::fs;
use std::fs::Metadata;
use std::io::ErrorKind;

/// More bytes than a name of a file has.
const LONG_NAME: usize = 256;
/// More bytes than a path has.
const LONG_PATH: usize = 4096;

/// What becomes of a source.
#[derive(Drop)]
enum Fate {
    /// It is in this file.
    File(String),
    /// It has no file, and why.
    None(String),
}

/// The sources that are extracted.
#[derive(Drop)]
struct Extract<'a> {
    rt: &'a HostRuntime,
    /// The folder, with a slash at its end.
    folder: String,
    has_force: bool,
    /// The files that have a content, and the source that each is of, with the number of its map.
    files: HashMap<String, (String, u64)>,
    /// How many maps there were.
    maps: u64,
    /// How many sources there were.
    sources: u64,
    /// How many have a content and no file.
    left: u64,
    /// The objects of `--json`.
    out: String,
}

/// The sources of a map that are named together.
#[derive(Drop)]
struct Named {
    missing: Names,
    moved: Names,
}

/// A reason why a source has no file.
fn none(alloc: Global, why: &str) -> Outcome<Fate>
    ensures { IfOk result (λ fate. file_of fate ≡ None) }
{
    Ok(Fate::None(String::from_str(alloc, why)?))
}

/// What is at a path, links not followed; None if nothing is.
pub fn entry_at(rt: &HostRuntime, path: &str) -> Outcome<Option<Metadata>> {
    match fs::symlink_metadata(rt, path) {
        Ok(metadata) => Ok(Some(metadata)),
        Err(error) if error.kind() == ErrorKind::NotFound => Ok(None),
        Err(error) => Err(file_failure(rt.alloc(), path, error)),
    }
}

/// Makes a folder, unless it is there. Says why it cannot be one in which files are put.
fn make_folder(rt: &HostRuntime, path: &str) -> Outcome<Option<&'static str>> {
    match entry_at(rt, path)? {
        Some(metadata) if metadata.is_symlink() => Ok(Some(
            "is a link, and is not followed: remove it",
        )),
        Some(metadata) if metadata.is_dir() => Ok(None),
        Some(_) => Ok(Some("is a file, and no folder")),
        None => match fs::create_dir(rt, path) {
            Ok(()) => Ok(None),
            Err(error) => Err(file_failure(rt.alloc(), path, error)),
        },
    }
}

/// Whether a file has these bytes.
pub fn has_bytes(rt: &HostRuntime, path: &str, metadata: &Metadata, bytes: &[u8]) -> Outcome<bool> {
    if metadata.len() != bytes.len() as u64 {
        return Ok(false);
    }
    match fs::read(rt, path) {
        Ok(found) => Ok(found.as_slice() == bytes),
        Err(error) => Err(file_failure(rt.alloc(), path, error)),
    }
}

/// Whether the names of a path are too long for files.
fn is_too_long(folder: &str, placed: &Placed) -> bool {
    let mut len = folder.len();
    for part in placed.parts() {
        len = len.saturating_add(part.len()).saturating_add(1);
        if part.len() >= LONG_NAME {
            return true;
        }
    }
    len > LONG_PATH
}

impl<'a> Extract<'a> {
    fn alloc(&self) -> Global {
        self.rt.alloc()
    }

    /// Makes the folder, with those that it is in, unless it is there.
    fn make(&self) -> Outcome<()> {
        let folder = self.folder.as_str();
        match fs::create_dir_all(self.rt, folder) {
            Ok(()) => Ok(()),
            Err(error) if error.kind() == ErrorKind::PermissionDenied => {
                Err(file_failure(self.alloc(), folder, error))
            }
            Err(_) => Err(failure_of(
                self.alloc(),
                folder,
                "is no folder, and cannot be made one: name another by -o",
            )),
        }
    }

    /// Makes the folders that a file is in, or says why one cannot be made.
    fn make_folders(&self, file: &str) -> Outcome<Option<String>> {
        for (at, _) in file.match_indices('/') {
            let path = file.get(..at).unwrap_or("");
            if at >= self.folder.len()
                && let Some(why) = make_folder(self.rt, path)?
            {
                return Ok(Some(format!(in self.alloc(); "{path} {why}")?));
            }
        }
        Ok(None)
    }

    /// Why a content cannot be put where another one is; None if it can.
    fn refusal(&self, path: &str) -> Outcome<Option<String>> {
        let alloc = self.alloc();
        if let Some((other, map)) = self.files.get(path) {
            let advice = if *map == self.maps {
                "give one of them another path in the map"
            } else {
                "extract maps to folders of their own"
            };
            let text = format!(in alloc;
                "{path} has the content of {other}, which came first: {advice}"
            )?;
            return Ok(Some(text));
        }
        if self.has_force {
            return Ok(None);
        }
        let text = format!(in alloc;
            "{path} is there with another content: --force overwrites it"
        )?;
        Ok(Some(text))
    }

    /// Writes a content to a file below the folder, unless the file has it.
    fn write(&self, path: String, content: &str) -> Outcome<Fate>
        requires { IsBelow (string_bytes self.now.folder) (string_bytes path) }
        ensures { IfOk result (λ fate. IfSome (file_of fate) (λ file.
            file ≡ string_bytes path)) }
    {
        let (rt, alloc) = (self.rt, self.alloc());
        let bytes = content.as_bytes();
        if let Some(metadata) = entry_at(rt, path.as_str())? {
            if metadata.is_symlink() {
                return Ok(Fate::None(format!(in alloc;
                    "{path} is a link, and is not followed: remove it"
                )?));
            }
            if !metadata.is_file() {
                return Ok(Fate::None(format!(in alloc; "{path} is there, and is no file")?));
            }
            if has_bytes(rt, path.as_str(), &metadata, bytes)? {
                return Ok(Fate::File(path));
            }
            if let Some(why) = self.refusal(path.as_str())? {
                return Ok(Fate::None(why));
            }
        }
        write_files(rt, &[(path.as_str(), bytes)])?;
        Ok(Fate::File(path))
    }

    /// Puts a content into the file of its source.
    fn put(&self, source: &str, content: &str, named: &mut Named) -> Outcome<Fate>
        ensures { IfOk result (λ fate. IfSome (file_of fate) (λ file.
            IsBelow (string_bytes self.now.folder) file)) }
    {
        let alloc = self.alloc();
        let Some(placed) = place_of_source(alloc, source)? else {
            return none(alloc, "its name is that of no file");
        };
        if is_too_long(self.folder.as_str(), &placed) {
            return none(
                alloc,
                "its path is too long: 255 bytes a name, and 4095 in all",
            );
        }
        let path = placed.path_below(alloc, self.folder.as_str())?;
        if let Some(why) = self.make_folders(path.as_str())? {
            return Ok(Fate::None(why));
        }
        let fate = self.write(path, content)?;
        if let Fate::File(path) = &fate
            && placed.is_moved()
        {
            named.moved.push(source, path.as_str())?;
        }
        Ok(fate)
    }

    /// The same; a failure of a file is why the source has none.
    fn put_or_tell(&mut self, source: &str, content: &str, named: &mut Named) -> Outcome<Fate> {
        match self.put(source, content, named) {
            Err(Failure::Told(why)) => Ok(Fate::None(why)),
            done => done,
        }
    }

    /// Extracts a source of a map. `name` is that of the map, for messages.
    fn take(
        &mut self,
        name: &str,
        source: &str,
        content: Option<&str>,
        named: &mut Named,
    ) -> Outcome<()> {
        let alloc = self.alloc();
        let fate = match content {
            Some(content) => self.put_or_tell(source, content, named)?,
            None => none(alloc, "no content")?,
        };
        let mut members = String::new(alloc);
        push_text_member("source", source, &mut members)?;
        match fate {
            Fate::File(path) => {
                let bytes = content.map_or(0, |content| content.len() as u64);
                push_text_member("file", path.as_str(), &mut members)?;
                push_number_member(alloc, "bytes", bytes, &mut members)?;
                if !self.files.contains_key(path.as_str()) {
                    let of = (String::from_str(alloc, source)?, self.maps);
                    self.files.insert(path, of)?;
                }
            }
            Fate::None(why) => {
                push_text_member("missing", why.as_str(), &mut members)?;
                self.tell_none(name, source, why.as_str(), content.is_some(), named)?;
            }
        }
        push_object(members.as_str(), &mut self.out)?;
        Ok(self.out.push('\n')?)
    }

    /// Reports why a source has no file. Sources without a content are reported later, together.
    fn tell_none(
        &mut self,
        name: &str,
        source: &str,
        why: &str,
        has_content: bool,
        named: &mut Named,
    ) -> Outcome<()> {
        if !has_content {
            return named.missing.push(source, "");
        }
        self.left = self.left.saturating_add(1);
        let (alloc, len) = (self.alloc(), source.len());
        let text = if len < LONG_NAME {
            format!(in alloc; "{source:?} is not written: {why}")?
        } else {
            format!(in alloc; "a source whose name has {len} bytes is not written: {why}")?
        };
        warn(self.rt, name, text.as_str());
        Ok(())
    }

    /// Extracts the sources of a map, or of a section.
    fn take_map(&mut self, name: &str, map: &SourceMapParts<'_>, named: &mut Named) -> Outcome<()> {
        if map.source_contents.iter().any(|content| content.is_some()) {
            self.make()?;
        }
        for (id, source) in map.sources.iter().enumerate() {
            let content = match map.source_contents.get(id) {
                Some(Some(content)) => Some(content.as_str()),
                _ => None,
            };
            self.sources = self.sources.saturating_add(1);
            self.take(name, source.as_str(), content, named)?;
        }
        Ok(())
    }

    /// Extracts the sources of the maps in a file.
    fn take_all(&mut self, name: &str, maps: &[SourceMapParts<'static>]) -> Outcome<()> {
        let alloc = self.alloc();
        let mut named = Named {
            missing: Names::new(alloc),
            moved: Names::new(alloc),
        };
        let mut all = 0usize;
        self.maps = self.maps.saturating_add(1);
        for map in maps {
            self.take_map(name, map, &mut named)?;
            all = all.saturating_add(map.sources.len());
        }
        let count = named.missing.count;
        let missing = format!(in alloc; "no content of {count} of {all} sources")?;
        named.missing.tell(self.rt, name, missing.as_str())?;
        let moved =
            "paths that lead elsewhere, or cannot be those of files, are put below the folder";
        named.moved.tell(self.rt, name, moved)
    }

    /// How a run ends.
    fn summary(&self) -> Outcome<Status> {
        let alloc = self.alloc();
        let (files, sources, folder) = (self.files.len(), self.sources, self.folder.as_str());
        let shown_files = if files == 1 { "file" } else { "files" };
        let shown_sources = if sources == 1 { "source" } else { "sources" };
        let text = format!(in alloc;
            "extract: {files} {shown_files} of {sources} {shown_sources} in {folder}"
        )?;
        tell(self.rt, text.as_str());
        if self.left > 0 {
            let left = format!(in alloc; "sources that are not written, see above: {}", self.left)?;
            return Err(failure_of(alloc, "extract", left.as_str()));
        }
        Ok(Status::of(files > 0))
    }
}

/// Reads the map of a file, and extracts its sources.
fn extract_file(asked: &Asked<'_, '_>, file: &str, extract: &mut Extract<'_>) -> Outcome<()> {
    let text = map_of_file(asked.rt, file, asked.places())?;
    let maps = rooted_maps(asked.rt, &text)?;
    extract.take_all(text.name.as_str(), maps.as_slice())
}

/// The folder to write to.
fn folder_of_output(asked: &Asked<'_, '_>) -> Outcome<String> {
    let output = asked.word("output");
    if output.is_empty() || output == "-" {
        return Err(usage(asked.rt, "-o names the folder that files are written to"));
    }
    Ok(with_slash(asked.alloc(), output)?)
}

/// Runs the command `extract`. Reports each file that has no map or cannot be read, and extracts the others.
pub fn run(asked: &Asked<'_, '_>) -> Outcome<Status> {
    let (rt, alloc) = (asked.rt, asked.alloc());
    let files = asked.words("FILE")?;
    let mut extract = Extract {
        rt,
        folder: folder_of_output(asked)?,
        has_force: asked.has("force"),
        files: HashMap::new(alloc),
        maps: 0,
        sources: 0,
        left: 0,
        out: String::new(alloc),
    };
    let mut progress = Progress::new(rt, files.len());
    let mut trouble = None;
    for file in &files {
        progress.begin(rt, file);
        let extracted = extract_file(asked, file, &mut extract);
        if !is_done(rt, &progress, extracted)? {
            trouble = Some(*file);
        }
    }
    progress.clear(rt);
    if asked.has("json") {
        print(rt, extract.out.as_str())?;
    }
    let status = extract.summary();
    match trouble {
        Some(file) => Err(failure_of(alloc, file, "was not extracted, see above")),
        None => status,
    }
}
