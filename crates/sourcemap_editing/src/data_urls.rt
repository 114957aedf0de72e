//! `inline` and `external`: maps as data URLs in their codes, and as files beside them.
use crate::editing::{is_data_url, is_done};
use crate::extract::{entry_at, has_bytes};
use crate::moving::moved_text;
use oxc_sourcemap_text::{Language, SourceMappingComment, decode_data_url, source_mapping_comment};
use percent_encoding::utf8_percent_encode;
use sourcemap_files::{
    Asked, Lookup, Progress, Status, bytes_to_escape, file_name, folder_of, language_of,
    map_of_code, place_of, print, read_text, relative_to, text_of_map, usage, with_slash,
    write_files, write_text, written_name,
};
use sourcemap_run::{data_url, push_number_member, push_object, push_text_member};
use sourcemap_words::{Outcome, failure_of};
use std::alloc::{AllocError, Global};

/// Where the maps of codes go.
#[derive(Clone, Copy)]
enum Way {
    Inline,
    External,
}

/// What was done to codes.
#[derive(Drop)]
struct Done {
    /// The codes that were changed and the maps that were written out of them, by their names without links and dots.
    codes: Vec<String>,
    places: Vec<String>,
    /// The objects of `--json`.
    out: String,
}

impl Done {
    /// Appends the object of a code.
    fn push(&mut self, alloc: Global, code: &str, map: &str, bytes: usize) -> Outcome<()> {
        let mut members = String::new(alloc);
        push_text_member("code", code, &mut members)?;
        push_text_member("map", map, &mut members)?;
        push_number_member(alloc, "bytes", bytes as u64, &mut members)?;
        push_object(members.as_str(), &mut self.out)?;
        Ok(self.out.push('\n')?)
    }
}

/// The comment by which a code names its map.
pub fn comment_of<'c>(
    alloc: Global,
    file: &str,
    code: &'c str,
) -> Outcome<SourceMappingComment<'c>> {
    match source_mapping_comment(code, language_of(file)) {
        Some(found) => Ok(found),
        None => Err(failure_of(alloc, file, "has no comment that names its map")),
    }
}

/// A code with another URL in the comment that names its map.
pub fn with_url(
    alloc: Global,
    found: SourceMappingComment<'_>,
    url: &str,
) -> Result<String, AllocError> {
    let (key, rest) = found.comment.split_once('=').unwrap_or((found.comment, ""));
    let behind = rest.strip_prefix(found.url).unwrap_or("");
    let (front, back) = (found.front, found.back);
    format!(in alloc; "{front}{key}={url}{behind}{back}")
}

/// A code that names no map with a comment at its end that names one by this URL.
fn with_comment(alloc: Global, file: &str, code: &str, url: &str) -> Result<String, AllocError> {
    let feed = if code.is_empty() || code.ends_with('\n') {
        ""
    } else {
        "\n"
    };
    match language_of(file) {
        Language::JavaScript => { format!(in alloc; "{code}{feed}//# sourceMappingURL={url}\n") }
        Language::Css => format!(in alloc; "{code}{feed}/*# sourceMappingURL={url} */\n"),
    }
}

/// Puts the map of a code into it, its sources then relative to the folder of the code.
fn put_in(asked: &Asked<'_, '_>, file: &str, done: &mut Done) -> Outcome<()> {
    let (rt, alloc) = (asked.rt, asked.alloc());
    let code = read_text(rt, file)?;
    let found = source_mapping_comment(code.as_str(), language_of(file));
    if found.as_ref().is_some_and(|found| is_data_url(found.url)) {
        return Err(failure_of(alloc, file, "has its map in a data URL already"));
    }
    let map = match map_of_code(rt, file, code.as_str(), asked.places())? {
        Lookup::Map(map) => map,
        Lookup::None(why) => return Err(failure_of(alloc, file, why.as_str())),
    };
    let (name, folder) = (map.name.as_str(), map.folder.as_str());
    let text = text_of_map(rt, &map)?;
    let text = moved_text(rt, name, text.as_str(), folder, folder_of(file))?;
    let url = data_url(alloc, text.as_str())?;
    let changed = match found {
        Some(found) => with_url(alloc, found, url.as_str())?,
        None => with_comment(alloc, file, code.as_str(), url.as_str())?,
    };
    write_text(rt, file, changed.as_str())?;
    done.push(alloc, file, name, text.len())
}

/// The text of the map in the data URL of a code.
fn text_in(alloc: Global, file: &str, url: &str) -> Outcome<String> {
    match decode_data_url(alloc, url) {
        Ok(Some(text)) => Ok(text),
        Ok(None) => Err(failure_of(
            alloc,
            file,
            "has no map in it: its comment names no data URL of JSON",
        )),
        Err(error) => Err(failure_of(alloc, file, error)),
    }
}

/// The name of the code itself; for a link, of the file that it leads to.
fn code_file(rt: &HostRuntime, file: &str) -> Outcome<String> {
    match written_name(rt, file)? {
        Some(path) => Ok(path),
        None => Err(failure_of(rt.alloc(), file, "is a link to nothing")),
    }
}

/// Why a map is not written over what is at its path; None if it may be.
fn why_kept(asked: &Asked<'_, '_>, path: &str, text: &str) -> Outcome<Option<&'static str>> {
    let rt = asked.rt;
    let Some(metadata) = entry_at(rt, path)? else {
        return Ok(None);
    };
    if metadata.is_symlink() {
        return Ok(Some("is a link, and is not followed: remove it"));
    }
    if !metadata.is_file() {
        return Ok(Some("is there, and is no file"));
    }
    if asked.has("force") || has_bytes(rt, path, &metadata, text.as_bytes())? {
        return Ok(None);
    }
    Ok(Some(if asked.word("output").is_empty() {
        "is there with another content: --force overwrites it"
    } else {
        "is there with another content: name another folder by -o (--force overwrites it)"
    }))
}

/// Refuses to write a map over another file, or over that of an earlier code.
fn refuse_losing(asked: &Asked<'_, '_>, path: &str, text: &str, done: &mut Done) -> Outcome<()> {
    let alloc = asked.alloc();
    let place = place_of(asked.rt, path)?;
    if done.places.iter().any(|other| *other == place) {
        let why =
            "is that of an earlier code of this name: name another folder by -o, in a run of its own";
        return Err(failure_of(alloc, path, why));
    }
    if let Some(why) = why_kept(asked, path, text)? {
        return Err(failure_of(alloc, path, why));
    }
    Ok(done.places.push(place)?)
}

/// The URL by which a code in the folder `to` names a map in the folder `from`.
fn url_of(rt: &HostRuntime, from: &str, to: &str, name: &str) -> Outcome<String> {
    let alloc = rt.alloc();
    let path = format!(in alloc; "./{name}")?;
    let path = relative_to(rt, from, to, path.as_str())?;
    let path = path.as_str();
    let path = path.strip_prefix("./").unwrap_or(path);
    let url = utf8_percent_encode(path, bytes_to_escape()).into_cow(alloc)?;
    Ok(format!(in alloc; "{url}")?)
}

/// Takes the map out of a code, and writes it beside the code or to the folder of `-o`, its sources then relative to that.
fn take_out(asked: &Asked<'_, '_>, file: &str, done: &mut Done) -> Outcome<()> {
    let (rt, alloc) = (asked.rt, asked.alloc());
    let path = code_file(rt, file)?;
    let code = read_text(rt, file)?;
    let found = comment_of(alloc, file, code.as_str())?;
    let text = text_in(alloc, file, found.url)?;
    let folder = match asked.word("output") {
        "" => String::from_str(alloc, folder_of(path.as_str()))?,
        output => with_slash(alloc, output)?,
    };
    let folder = folder.as_str();
    let own = format!(in alloc; "{file} (its data URL)")?;
    let text = moved_text(rt, own.as_str(), text.as_str(), folder_of(file), folder)?;
    let name = format!(in alloc; "{}.map", file_name(path.as_str()))?;
    let map = format!(in alloc; "{folder}{name}")?;
    refuse_losing(asked, map.as_str(), text.as_str(), done)?;
    let url = url_of(rt, folder, folder_of(path.as_str()), name.as_str())?;
    let changed = with_url(alloc, found, url.as_str())?;
    let files = [
        (map.as_str(), text.as_str().as_bytes()),
        (path.as_str(), changed.as_str().as_bytes()),
    ];
    write_files(rt, &files)?;
    done.push(alloc, file, map.as_str(), text.len())
}

/// Changes a code, unless this run has changed it already.
fn change(asked: &Asked<'_, '_>, way: Way, file: &str, done: &mut Done) -> Outcome<()> {
    if file == "-" {
        return Err(usage(
            asked.rt,
            "standard input is no file that can be changed: name a code",
        ));
    }
    let place = place_of(asked.rt, file)?;
    if done.codes.iter().any(|other| *other == place) {
        return Ok(());
    }
    match way {
        Way::Inline => put_in(asked, file, done)?,
        Way::External => take_out(asked, file, done)?,
    }
    Ok(done.codes.push(place)?)
}

/// Changes codes. Reports each one that cannot be changed, and changes the others.
fn run(asked: &Asked<'_, '_>, way: Way) -> Outcome<Status> {
    let (rt, alloc) = (asked.rt, asked.alloc());
    let codes = asked.words("CODE")?;
    let mut progress = Progress::new(rt, codes.len());
    let mut done = Done {
        codes: Vec::new(alloc),
        places: Vec::new(alloc),
        out: String::new(alloc),
    };
    let mut trouble = None;
    for code in &codes {
        progress.begin(rt, code);
        let changed = change(asked, way, code, &mut done);
        if !is_done(rt, &progress, changed)? {
            trouble = Some(*code);
        }
    }
    progress.clear(rt);
    if asked.has("json") {
        print(rt, done.out.as_str())?;
    }
    match trouble {
        Some(code) => Err(failure_of(alloc, code, "stays as it was, see above")),
        None => Ok(Status::Found),
    }
}

/// Runs the command `inline`.
pub fn inline(asked: &Asked<'_, '_>) -> Outcome<Status> {
    run(asked, Way::Inline)
}

/// Runs the command `external`.
pub fn external(asked: &Asked<'_, '_>) -> Outcome<Status> {
    run(asked, Way::External)
}
