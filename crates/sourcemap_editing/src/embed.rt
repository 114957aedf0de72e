//! `embed`: a map with the contents of its sources, which are read from files.
ghost use Rattle.std.specs.Prelude.{string_bytes, IfOk, IfSome};
ghost use Rattle.sourcemap_texts.specs.Words.{IsBelow};

use crate::editing::{Edited, map_to_edit};
use crate::naming::Names;
use crate::placing::place_of_source;
use oxc_sourcemap_parts::{SourceMapParts, apply_root};
use sourcemap_files::{
    Asked, Status, is_inside, is_regular, parts_in, path_of_url, plain_path, print, read_text,
    tell, with_slash,
};
use sourcemap_run::{
    Change, changed, push_contents, push_number_member, push_object, push_text_member,
};
use sourcemap_texts::{Piece, is_url, maps_in};
use sourcemap_words::{Failure, Outcome, failure_of};
use std::alloc::Global;

/// What is read for a source.
#[derive(Drop)]
enum Read {
    /// The content, and the file that it is in.
    Content(String, String),
    NotThere,
    /// This file, which may not be read.
    Outside(String),
    /// Why its file cannot be read.
    Wrong(String),
}

/// The sources that lack a content.
#[derive(Drop)]
struct Lacking {
    found: usize,
    not_there: Names,
    outside: Names,
    /// How many files could not be read.
    wrong: usize,
    /// The objects of `--json`.
    out: String,
}

/// The file of a source below the folder of `--from`, where `extract` puts it; None if it names none.
fn file_below(alloc: Global, from: &str, source: &str) -> Outcome<Option<String>>
    ensures { IfOk result (λ path. IfSome path (λ path. IsBelow from.now (string_bytes path))) }
{
    let Some(placed) = place_of_source(alloc, source)? else {
        return Ok(None);
    };
    Ok(Some(placed.path_below(alloc, from)?))
}

/// The file of a source: below the folder of `--from`, if that is there, else by its path from the folder of the map; None if it names
/// none.
fn file_of(alloc: Global, from: &str, folder: &str, source: &str) -> Outcome<Option<String>> {
    if !from.is_empty() {
        return file_below(alloc, from, source);
    }
    if source.starts_with("file:") {
        return Ok(path_of_url(alloc, source)?);
    }
    if source.is_empty() || is_url(source) {
        return Ok(None);
    }
    Ok(Some(plain_path(alloc, folder, source)?))
}

/// Reads the file of a source.
fn read_source(asked: &Asked<'_, '_>, folder: &str, source: &str) -> Outcome<Read> {
    let (rt, places) = (asked.rt, asked.places());
    let from = with_slash(asked.alloc(), asked.word("from"))?;
    let Some(path) = file_of(asked.alloc(), from.as_str(), folder, source)? else {
        return Ok(Read::NotThere);
    };
    let folder = if from.is_empty() {
        folder
    } else {
        from.as_str()
    };
    if !is_regular(rt, path.as_str()) {
        return Ok(Read::NotThere);
    }
    let may_read = places.outside
        || is_inside(rt, path.as_str(), places.root)
        || is_inside(rt, path.as_str(), folder);
    if !may_read {
        return Ok(Read::Outside(path));
    }
    match read_text(rt, path.as_str()) {
        Ok(content) => Ok(Read::Content(content, path)),
        Err(Failure::Told(why)) => Ok(Read::Wrong(why)),
        Err(failure) => Err(failure),
    }
}

impl Lacking {
    fn new(alloc: Global) -> Lacking {
        Lacking {
            found: 0,
            not_there: Names::new(alloc),
            outside: Names::new(alloc),
            wrong: 0,
            out: String::new(alloc),
        }
    }

    /// The content of a source, if its file is found.
    fn take(
        &mut self,
        asked: &Asked<'_, '_>,
        folder: &str,
        source: &str,
    ) -> Outcome<Option<String>> {
        let alloc = asked.alloc();
        let mut members = String::new(alloc);
        push_text_member("source", source, &mut members)?;
        let mut taken = None;
        match read_source(asked, folder, source)? {
            Read::Content(content, path) => {
                self.found = self.found.saturating_add(1);
                push_text_member("file", path.as_str(), &mut members)?;
                push_number_member(alloc, "bytes", content.len() as u64, &mut members)?;
                taken = Some(content);
            }
            Read::NotThere => {
                push_text_member("missing", "not there", &mut members)?;
                self.not_there.push(source, "")?;
            }
            Read::Outside(path) => {
                push_text_member("missing", "outside of the root", &mut members)?;
                self.outside.push(path.as_str(), "")?;
            }
            Read::Wrong(why) => {
                push_text_member("missing", why.as_str(), &mut members)?;
                self.wrong = self.wrong.saturating_add(1);
                tell(asked.rt, why.as_str());
            }
        }
        push_object(members.as_str(), &mut self.out)?;
        self.out.push('\n')?;
        Ok(taken)
    }

    /// How many sources have no content in the end.
    fn left(&self) -> usize {
        self.not_there
            .count
            .saturating_add(self.outside.count)
            .saturating_add(self.wrong)
    }

    /// Reports what was found, and what was not.
    fn tell(&self, asked: &Asked<'_, '_>, name: &str) -> Outcome<()> {
        let (rt, alloc) = (asked.rt, asked.alloc());
        let there = "no files of sources";
        self.not_there.tell(rt, name, there)?;
        let outside = "outside of the root, and not read: allow it by --outside";
        self.outside.tell(rt, name, outside)?;
        let (found, all) = (self.found, self.found.saturating_add(self.left()));
        let contents = if all == 1 {
            "missing content is"
        } else {
            "missing contents are"
        };
        let text = format!(in alloc; "embed: {found} of {all} {contents} found")?;
        tell(rt, text.as_str());
        Ok(())
    }
}

/// Appends the changes that put the contents of a map, or of a section, into its text.
fn push_map(
    asked: &Asked<'_, '_>,
    edited: &Edited,
    map: Piece<'_>,
    lacking: &mut Lacking,
    changes: &mut Vec<Change>,
) -> Outcome<()> {
    let alloc = asked.alloc();
    let mut parts = parts_in(alloc, edited.name.as_str(), map.text)?;
    apply_root(alloc, &mut parts)?;
    let found = contents_of(asked, &parts, edited.folder.as_str(), lacking)?;
    if found.iter().any(|content| content.is_some()) {
        push_contents(alloc, map, found.as_slice(), changes)?;
    }
    Ok(())
}

/// The contents that a map lacks, by the number of their source; None for those that are not found, and for those that it has.
fn contents_of(
    asked: &Asked<'_, '_>,
    parts: &SourceMapParts<'_>,
    folder: &str,
    lacking: &mut Lacking,
) -> Outcome<Vec<Option<String>>> {
    let mut found = Vec::new(asked.alloc());
    for (id, source) in parts.sources.iter().enumerate() {
        let content = match parts.source_contents.get(id) {
            Some(Some(_)) => None,
            _ => lacking.take(asked, folder, source.as_str())?,
        };
        found.push(content)?;
    }
    Ok(found)
}

/// Runs the command `embed`.
pub fn run(asked: &Asked<'_, '_>) -> Outcome<Status> {
    let (rt, alloc) = (asked.rt, asked.alloc());
    let edited = map_to_edit(asked)?;
    let text = edited.text.as_str();
    let mut lacking = Lacking::new(alloc);
    let mut changes = Vec::new(alloc);
    for map in &maps_in(alloc, text)? {
        push_map(asked, &edited, *map, &mut lacking, &mut changes)?;
    }
    lacking.tell(asked, edited.name.as_str())?;
    let text = changed(alloc, text, changes.as_slice())?;
    edited.write(asked, text, edited.contents.saturating_add(lacking.found))?;
    if asked.has("json") {
        print(rt, lacking.out.as_str())?;
    }
    if lacking.wrong > 0 {
        let wrong = format!(in alloc; "files that cannot be read, see above: {}", lacking.wrong)?;
        return Err(failure_of(alloc, "embed", wrong.as_str()));
    }
    Ok(Status::of(lacking.found > 0 || lacking.left() == 0))
}
