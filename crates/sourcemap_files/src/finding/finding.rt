//! Finding the map of a code.
use crate::compiled::{COMPILED_END, Decompiled, Written, decompile, read_fresh, read_written};
use crate::contents::put_contents;
use crate::finding::matching::{Below, CodePath, Files, Found as Match, InputPrefix, named_prefix};
use crate::input::{is_file, is_regular, read_text, shown_name, warn};
use crate::paths::{
    file_name, folder_of, is_folder, is_inside, join_path, parts_of, path_of, path_of_url,
};
use crate::sections::root_sections;
use oxc_sourcemap_found::{FoundParts, fault_reason, found_fault_at, read_found_parts};
use oxc_sourcemap_json::{encode_parts_to_string_within, json_fault_at};
use oxc_sourcemap_parts::{SourceMapParts, apply_root};
use oxc_sourcemap_text::{Language, decode_data_url, source_mapping_url};
use oxc_sourcemap_tokens::{Error, FaultPlace};
use sourcemap_texts::{Prefix, is_url};
use sourcemap_words::{Outcome, failure_of};
use std::alloc::{AllocError, Global};

/// Where to look for files that other files name.
#[derive(Clone, Copy)]
pub struct Places<'a> {
    /// The folder that named files are in; empty or with a slash at its end.
    pub root: &'a str,
    /// The folder of maps that are found by the name of their code, in the same form.
    pub maps: Option<&'a str>,
    /// Whether files outside of the root and of the folder of the code may be read.
    pub outside: bool,
    /// Where codes are that engines name by paths with these prefixes.
    pub prefixes: &'a [Prefix],
    /// Whether the compiled map beside a map is read in its place.
    pub takes_compiled: bool,
}

/// More bytes than a path may have.
const TOO_LONG: usize = 4096;
/// The most bytes of the text that is made of a compiled map.
const LONGEST: usize = 268_435_456;

/// A map as it is written, and how it is named in messages.
#[derive(Drop)]
pub struct MapText {
    pub name: String,
    /// The folder that its sources are relative to, with a slash at its end.
    pub folder: String,
    /// Whether it has a file of its own, of this name.
    pub is_file: bool,
    pub written: Written,
    /// The map of a compiled one, which is read if the compiled one is damaged.
    pub behind: Option<String>,
}

/// The map of a code, or why there is none.
#[derive(Drop)]
pub enum Lookup {
    Map(MapText),
    None(String),
}

/// The language of a code, by the end of its name.
pub fn language_of(path: &str) -> Language {
    if path.ends_with(".css") {
        Language::Css
    } else {
        Language::JavaScript
    }
}

/// Whether a file that another one names may be read.
fn may_read(rt: &HostRuntime, path: &str, code: &str, places: Places<'_>) -> bool {
    places.outside || is_inside(rt, path, places.root) || is_inside(rt, path, folder_of(code))
}

/// The map in a file.
fn map_in(
    alloc: Global,
    path: &str,
    written: Written,
    behind: Option<String>,
) -> Result<Lookup, AllocError> {
    Ok(Lookup::Map(MapText {
        name: String::from_str(alloc, path)?,
        folder: String::from_str(alloc, folder_of(path))?,
        is_file: true,
        written,
        behind,
    }))
}

/// The map in a file; or its compiled form, where that is used, is beside it, and is fresh.
fn map_text(rt: &HostRuntime, path: &str, places: Places<'_>) -> Outcome<Lookup> {
    let alloc = rt.alloc();
    let beside = format!(in alloc; "{path}{COMPILED_END}")?;
    let beside = beside.as_str();
    if places.takes_compiled
        && is_regular(rt, beside)
        && may_read(rt, beside, path, places)
        && let Some(bytes) = read_fresh(rt, beside, path)?
    {
        let behind = String::from_str(alloc, path)?;
        return Ok(map_in(alloc, beside, Written::Compiled(bytes), Some(behind))?);
    }
    Ok(map_in(alloc, path, read_written(rt, path)?, None)?)
}

/// The file in the root that a path from the root of a host names.
fn path_in_root(
    rt: &HostRuntime,
    path: &str,
    places: Places<'_>,
) -> Result<Option<String>, AllocError> {
    let alloc = rt.alloc();
    let Some(parts) = parts_of(alloc, path)? else {
        return Ok(None);
    };
    let path = path_of(alloc, places.root, parts.as_slice())?;
    Ok(if is_regular(rt, path.as_str()) {
        Some(path)
    } else {
        None
    })
}

/// Whether a URL is that of a host, and of no file.
fn is_remote(url: &str) -> bool {
    is_url(url) && !url.starts_with("file:")
}

/// The file that a URL of a code names: from the folder of the code, or from the root of a host; None if there is none.
fn named_file(
    rt: &HostRuntime,
    code: &str,
    url: &str,
    path: &str,
    places: Places<'_>,
) -> Result<Option<String>, AllocError> {
    if !is_remote(url) {
        let own = join_path(rt.alloc(), folder_of(code), path)?;
        if is_regular(rt, own.as_str()) {
            return Ok(Some(own));
        }
    }
    if is_remote(url) || path.starts_with('/') {
        return path_in_root(rt, path, places);
    }
    Ok(None)
}

/// Why the file that a URL of a code names is not found.
fn not_there(alloc: Global, code: &str, url: &str) -> Result<String, AllocError> {
    if is_remote(url) {
        return format!(in alloc;
            "{code} names the map {url}, and no network is used: give its folder by --maps"
        );
    }
    format!(in alloc; "{code} names the map {url}, which is not there")
}

/// The map that a URL of a code names, which is no data URL.
fn map_at_url(rt: &HostRuntime, code: &str, url: &str, places: Places<'_>) -> Outcome<Lookup> {
    let alloc = rt.alloc();
    let Some(path) = path_of_url(alloc, url)? else {
        return Ok(Lookup::None(format!(in alloc;
            "{code} names the map {url}, which is no URL of a file"
        )?));
    };
    let Some(path) = named_file(rt, code, url, path.as_str(), places)? else {
        return Ok(Lookup::None(not_there(alloc, code, url)?));
    };
    if !may_read(rt, path.as_str(), code, places) {
        return Ok(Lookup::None(format!(in alloc;
            "{code} names the map {path}, outside of the root: allow it by --outside"
        )?));
    }
    map_text(rt, path.as_str(), places)
}

/// The map that a code names.
fn map_named(rt: &HostRuntime, code: &str, url: &str, places: Places<'_>) -> Outcome<Lookup> {
    let alloc = rt.alloc();
    match decode_data_url(alloc, url) {
        Ok(Some(text)) => Ok(Lookup::Map(MapText {
            name: format!(in alloc; "{} (its data URL)", shown_name(code))?,
            folder: String::from_str(alloc, folder_of(code))?,
            is_file: false,
            written: Written::Text(text),
            behind: None,
        })),
        Ok(None) => map_at_url(rt, code, url, places),
        Err(error) => Err(failure_of(alloc, shown_name(code), error)),
    }
}

/// The map of a code in the folder of maps: by the path of the code in the root, or else by its name.
pub fn map_in_maps(rt: &HostRuntime, code: &str, places: Places<'_>) -> Outcome<Option<Lookup>> {
    let Some(maps) = places.maps else {
        return Ok(None);
    };
    let path = code.strip_prefix(places.root).unwrap_or(code);
    for name in [path, file_name(code)] {
        let map = format!(in rt.alloc(); "{maps}{name}.map")?;
        if is_regular(rt, map.as_str()) && is_inside(rt, map.as_str(), maps) {
            return Ok(Some(map_text(rt, map.as_str(), places)?));
        }
    }
    Ok(None)
}

/// The map beside a code, or in the folder of maps.
fn map_beside(rt: &HostRuntime, code: &str, places: Places<'_>) -> Outcome<Option<Lookup>> {
    let beside = format!(in rt.alloc(); "{code}.map")?;
    let beside = beside.as_str();
    if code != "-" && is_regular(rt, beside) && may_read(rt, beside, code, places) {
        return Ok(Some(map_text(rt, beside, places)?));
    }
    map_in_maps(rt, code, places)
}

/// Why a code that names no map has none.
fn names_none(rt: &HostRuntime, code: &str) -> Result<String, AllocError> {
    let alloc = rt.alloc();
    let beside = format!(in alloc; "{code}.map")?;
    let why = if is_file(rt, beside.as_str()) {
        "is a link out of the root: allow it by --outside"
    } else {
        "is not there"
    };
    format!(in alloc; "{} names no map, and {beside} {why}", shown_name(code))
}

/// The map of a code: the one that it names, else the one beside it, else the one in the folder of maps.
pub fn map_of_code(
    rt: &HostRuntime,
    code: &str,
    text: &str,
    places: Places<'_>,
) -> Outcome<Lookup> {
    let named = match source_mapping_url(text, language_of(code)) {
        Some(url) => map_named(rt, code, url, places)?,
        None => Lookup::None(names_none(rt, code)?),
    };
    if let Lookup::None(_) = &named
        && let Some(found) = map_beside(rt, code, places)?
    {
        return Ok(found);
    }
    Ok(named)
}

/// Whether a file that a frame or V8 names may be read.
pub fn is_in_root(rt: &HostRuntime, path: &str, places: Places<'_>) -> bool {
    places.outside || is_inside(rt, path, places.root)
}

/// The map of a code that is not there: beside where it was, or in the folder of maps.
pub fn map_without_code(
    rt: &HostRuntime,
    code: &str,
    places: Places<'_>,
) -> Outcome<Option<Lookup>> {
    let beside = format!(in rt.alloc(); "{code}.map")?;
    let beside = beside.as_str();
    if is_regular(rt, beside) && is_in_root(rt, beside, places) {
        return Ok(Some(map_text(rt, beside, places)?));
    }
    map_in_maps(rt, code, places)
}

/// A code if it is there, else the map beside it if that is there.
fn code_or_map(rt: &HostRuntime, path: &str) -> Result<Option<String>, AllocError> {
    let alloc = rt.alloc();
    if is_regular(rt, path) {
        return Ok(Some(String::from_str(alloc, path)?));
    }
    let map = format!(in alloc; "{path}.map")?;
    Ok(if is_regular(rt, map.as_str()) {
        Some(map)
    } else {
        None
    })
}

/// The files of a folder of this machine.
#[derive(Clone, Copy)]
struct Folder<'a> {
    rt: &'a HostRuntime,
    /// Empty or with a slash at its end.
    path: &'a str,
}

impl<'a> Files for Folder<'a> {
    fn has(&self, path: &str) -> Result<bool, AllocError> {
        let alloc = self.rt.alloc();
        // Of a long path most often the first folder is not there.
        if let Some((first, _)) = path.split_once('/')
            && !is_folder(self.rt, format!(in alloc; "{}{first}", self.path)?.as_str())
        {
            return Ok(false);
        }
        let path = format!(in alloc; "{}{path}", self.path)?;
        Ok(code_or_map(self.rt, path.as_str())?.is_some())
    }
}

/// The code that a frame or V8 names, or only its map.
#[derive(Drop)]
pub struct CodeFile {
    pub path: String,
    /// The folder that it has to be in, links followed, for it to be read.
    pub folder: String,
    /// The prefix of the input that it was found below; None if it was found by its whole path.
    pub prefix: Option<String>,
}

/// What a frame or V8 names.
#[derive(Drop)]
pub enum Sought {
    Code(CodeFile),
    /// Nothing that is known. It may be the file `path`, below this prefix of its name.
    Maybe { prefix: String, path: String },
    /// Nothing in this folder, where a prefix which the user named says that it is.
    NotIn(String),
    Nothing,
}

fn code_in(
    alloc: Global,
    folder: &str,
    rest: &str,
    prefix: Option<String>,
) -> Result<Sought, AllocError> {
    Ok(Sought::Code(CodeFile {
        path: format!(in alloc; "{folder}{rest}")?,
        folder: String::from_str(alloc, folder)?,
        prefix,
    }))
}

/// The file itself, if it is in the root: by its name, or by that without dots.
fn itself(
    rt: &HostRuntime,
    name: &str,
    path: &CodePath,
    places: Places<'_>,
) -> Result<Option<Sought>, AllocError> {
    if path.is_remote {
        return Ok(None);
    }
    for own in [name, path.text.as_str()] {
        if let Some(there) = code_or_map(rt, own)?
            && is_in_root(rt, there.as_str(), places)
        {
            let folder = String::from_str(rt.alloc(), places.root)?;
            return Ok(Some(Sought::Code(CodeFile {
                path: String::from_str(rt.alloc(), own)?,
                folder,
                prefix: None,
            })));
        }
    }
    Ok(None)
}

/// The code below a prefix which the user named.
fn below_named(
    rt: &HostRuntime,
    path: &CodePath,
    places: Places<'_>,
) -> Result<Option<Sought>, AllocError> {
    let Some((prefix, rest)) = named_prefix(places.prefixes, path) else {
        return Ok(None);
    };
    let folder = prefix.folder.as_str();
    if !(Folder { rt, path: folder }).has(rest)? {
        return Ok(Some(Sought::NotIn(String::from_str(rt.alloc(), folder)?)));
    }
    Ok(Some(code_in(rt.alloc(), folder, rest, None)?))
}

/// The code below a prefix of the input.
fn below_input(
    rt: &HostRuntime,
    path: &CodePath,
    places: Places<'_>,
    input: &mut InputPrefix,
) -> Result<Sought, AllocError> {
    let alloc = rt.alloc();
    let root = places.root;
    match input.find(alloc, path, &Folder { rt, path: root })? {
        Match::Below(Below { prefix, rest }) => code_in(alloc, root, rest.as_str(), Some(prefix)),
        Match::Maybe(Below { prefix, rest }) => Ok(Sought::Maybe {
            prefix,
            path: format!(in alloc; "{root}{rest}")?,
        }),
        Match::Nothing => Ok(Sought::Nothing),
    }
}

/// The code that a frame or V8 names: below a prefix that the user named; the file itself, if it is in the root; its whole path in the
/// root; or what the prefix of the input leaves of it.
pub fn find_code(
    rt: &HostRuntime,
    name: &str,
    places: Places<'_>,
    input: &mut InputPrefix,
) -> Result<Sought, AllocError> {
    let alloc = rt.alloc();
    if name.len() >= TOO_LONG {
        return Ok(Sought::Nothing);
    }
    let Some(path) = CodePath::of_name(alloc, name)? else {
        return Ok(Sought::Nothing);
    };
    if let Some(sought) = below_named(rt, &path, places)? {
        return Ok(sought);
    }
    if let Some(sought) = itself(rt, name, &path, places)? {
        return Ok(sought);
    }
    let root = Folder {
        rt,
        path: places.root,
    };
    if let Some(whole) = path.whole()
        && root.has(whole)?
    {
        return code_in(alloc, places.root, whole, None);
    }
    below_input(rt, &path, places, input)
}

/// The map in the folder of maps that is named as a code which was not found; None for codes of installed packages.
pub fn map_by_name(rt: &HostRuntime, name: &str, places: Places<'_>) -> Outcome<Option<Lookup>> {
    if name.len() >= TOO_LONG {
        return Ok(None);
    }
    match CodePath::of_name(rt.alloc(), name)? {
        Some(path) if !path.is_in_package() => map_in_maps(rt, path.text.as_str(), places),
        _ => Ok(None),
    }
}

/// Whether a text is that of a map, and not of a code.
pub fn is_map(text: &str) -> bool {
    let text = text.trim_start_matches('\u{feff}').trim_start();
    text.starts_with('{') && text.contains("\"version\"")
        || text.starts_with(")]}'")
        || text.starts_with("data:")
}

/// Whether a file is a map by its text or its name, and not a code.
pub fn is_map_file(path: &str, text: &str) -> bool {
    is_map(text) || path.ends_with(".map") || path.ends_with(".json")
}

/// A map, given as a map, or as a code whose map is found.
pub fn map_of_file(rt: &HostRuntime, path: &str, places: Places<'_>) -> Outcome<MapText> {
    let alloc = rt.alloc();
    let written = read_written(rt, path)?;
    if let Written::Text(text) = &written
        && !is_map_file(path, text.as_str())
    {
        return match map_of_code(rt, path, text.as_str(), places)? {
            Lookup::Map(map) => Ok(map),
            Lookup::None(why) => Err(failure_of(alloc, shown_name(path), why.as_str())),
        };
    }
    Ok(MapText {
        name: String::from_str(alloc, shown_name(path))?,
        folder: String::from_str(alloc, folder_of(path))?,
        is_file: path != "-",
        written,
        behind: None,
    })
}

/// The text behind the reason of an error: a number by itself does not say what is wrong with it.
fn behind_reason(error: Error) -> &'static str {
    match error {
        Error::BadSourceReference(_) => ", and the map has no such source",
        Error::BadNameReference(_) => ", and the map has no such name",
        _ => "",
    }
}

/// The text of an error of reading this text, with its place if it has one. Where the error does not say what is wrong, the
/// reason replaces it: `line 0, segment 3 (byte 12): a column below 0`.
fn placed_text(
    alloc: Global,
    text: &str,
    place: oxc_sourcemap_tokens::Result<Option<FaultPlace>>,
    error: Error,
) -> Result<String, AllocError> {
    let Ok(Some(place)) = place else {
        return format!(in alloc; "{error}");
    };
    match fault_reason(alloc, text, &place) {
        Ok(Some(reason)) => format!(in alloc; "{place}: {reason}{}", behind_reason(error)),
        _ => format!(in alloc; "{place}: {error}"),
    }
}

/// The text of an error of reading a map, with its place if it has one.
pub fn error_text(alloc: Global, text: &str, error: Error) -> Result<String, AllocError> {
    placed_text(alloc, text, json_fault_at(alloc, text), error)
}

/// The same for reading a map as it is found.
pub fn found_error_text(alloc: Global, text: &str, error: Error) -> Result<String, AllocError> {
    placed_text(alloc, text, found_fault_at(alloc, text), error)
}

/// Reads the text of a map as it is found, the source roots of sections applied. Warns of what is mended.
fn read_map_text(rt: &HostRuntime, name: &str, text: &str) -> Outcome<SourceMapParts<'static>> {
    let alloc = rt.alloc();
    match read_found_parts(alloc, text) {
        Ok(FoundParts { mut parts, mends }) => {
            for mend in &mends {
                let text = format!(in alloc; "mended: {mend}")?;
                warn(rt, name, text.as_str());
            }
            if !root_sections(alloc, name, text, &mut parts)? {
                warn(rt, name, "source roots of sections are left out");
            }
            Ok(parts)
        }
        Err(error) => {
            let text = found_error_text(alloc, text, error)?;
            Err(failure_of(alloc, name, text.as_str()))
        }
    }
}

/// Reads the map of a compiled one, which is damaged.
fn read_behind(rt: &HostRuntime, map: &MapText, why: &str) -> Outcome<SourceMapParts<'static>> {
    let Some(path) = map.behind.as_deref() else {
        return Err(failure_of(rt.alloc(), map.name.as_str(), why));
    };
    warn(
        rt,
        map.name.as_str(),
        "is damaged, so its map is read: compile it again",
    );
    let text = read_text(rt, path)?;
    read_map_text(rt, path, text.as_str())
}

/// Reads a map: its text as it is found, or its compiled form with the contents that are apart.
pub fn read_map(rt: &HostRuntime, map: &MapText) -> Outcome<SourceMapParts<'static>> {
    let mut parts = read_map_alone(rt, map)?;
    if let Written::Compiled(bytes) = &map.written {
        put_contents(rt, map.name.as_str(), bytes.as_slice(), &mut parts)?;
    }
    Ok(parts)
}

/// The same, without contents that are apart.
pub fn read_map_alone(rt: &HostRuntime, map: &MapText) -> Outcome<SourceMapParts<'static>> {
    match &map.written {
        Written::Text(text) => read_map_text(rt, map.name.as_str(), text.as_str()),
        Written::Compiled(bytes) => match decompile(rt.alloc(), bytes.as_slice())? {
            Decompiled::Map(parts) => Ok(parts),
            Decompiled::Wrong(why) => read_behind(rt, map, why.as_str()),
        },
    }
}

/// The text of a map; of a compiled one that of the map that it holds.
pub fn text_of_map(rt: &HostRuntime, map: &MapText) -> Outcome<String> {
    if let Written::Text(text) = &map.written {
        return Ok(String::from_str(rt.alloc(), text.as_str())?);
    }
    let parts = read_map(rt, map)?;
    Ok(encode_parts_to_string_within(rt.alloc(), &parts, LONGEST)?)
}

/// The map of a file, given as a map or as a code, with its source root applied; contents that are apart only if they are asked for.
pub fn rooted_map(
    rt: &HostRuntime,
    path: &str,
    places: Places<'_>,
    with_contents: bool,
) -> Outcome<SourceMapParts<'static>> {
    let text = map_of_file(rt, path, places)?;
    let mut map = if with_contents {
        read_map(rt, &text)?
    } else {
        read_map_alone(rt, &text)?
    };
    apply_root(rt.alloc(), &mut map)?;
    Ok(map)
}
