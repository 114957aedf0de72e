//! `check`: what is wrong in maps, and what they hold.
use crate::codes::{
    BAD_COMPILED, CONTENT_DIFFERS, Code, DEBUG_IDS, DIFFERENT_COMPILED, INSIDE_WORDS, Level,
    MISSING_CONTENT, NAME_DIFFERS, NO_MAP, PAST_CODE, PAST_CONTENT, SCOPES_SOURCE, SHIFTED,
    STALE_BESIDE, STALE_COMPILED, UNCOMPARED, UNNEEDED, UNREADABLE, UNREADABLE_BESIDE, UNSORTED,
    code_of_error, code_of_mend, code_of_refused, code_of_scopes,
};
use crate::originals::{Moved, contents_apart, names_apart, tokens_inside_words};
use crate::report::{Report, count_of};
use crate::scopes::{MapScopes, Needed, PastSources, calls_past, scopes_in, trees_past};
use oxc_sourcemap_found::{FoundParts, Mend, read_found_parts};
use oxc_sourcemap_map::SourceMap;
use oxc_sourcemap_text::TextPositions;
use oxc_sourcemap_tokens::{Error, Position, Token};
use sourcemap_files::{
    Asked, COMPILED_END, CONTENTS_END, Decompiled, Listed, Lookup, MapText, Places, Progress,
    Status, Written, decompile, error_text, files_matching, files_with_maps, folder_of,
    found_error_text, is_file, is_in_root, is_made_of, is_map_file, is_regular, is_stale,
    map_of_code, names_folder, parts_in, print, put_contents, read_text, read_written, shown_name,
    tell,
};
use sourcemap_run::{are_same_ids, debug_id_of_code, debug_id_of_map};
use sourcemap_texts::push_shown;
use sourcemap_words::{Failure, Outcome, PathPattern, failure_of};
use std::alloc::{AllocError, Global};

/// How many bytes of contents a map has.
fn content_bytes(map: &SourceMap<'_>) -> usize {
    let mut bytes = 0usize;
    for content in map.get_source_contents() {
        bytes = bytes.saturating_add(content.map_or(0, |content| content.len()));
    }
    bytes
}

fn tell_summary(report: &mut Report, bytes: usize, map: &SourceMap<'_>) -> Outcome<()> {
    let alloc = report.alloc;
    let tokens = map.get_tokens().as_slice();
    let lines = tokens
        .last()
        .map_or(0, |token| u64::from(token.get_dst_line()) + 1);
    let sources = count_of(alloc, map.get_sources().count() as u64, "source")?;
    let names = count_of(alloc, map.get_names().count() as u64, "name")?;
    let count = count_of(alloc, tokens.len() as u64, "token")?;
    let lines = count_of(alloc, lines, "line")?;
    let contents = content_bytes(map);
    let text = format!(in alloc;
        "{sources}, {names}, {count} on {lines}; {bytes} bytes, of which {contents} are contents"
    )?;
    report.tell_summary(text.as_str())
}

/// Lines on which a token is before the one ahead of it.
fn tell_unsorted(report: &mut Report, tokens: &[Token]) -> Outcome<()> {
    let mut lines = 0u64;
    let mut first = None;
    let mut last = None;
    for (ahead, token) in tokens.iter().zip(tokens.iter().skip(1)) {
        let (line, column) = (token.get_dst_line(), token.get_dst_col());
        if line != ahead.get_dst_line() || ahead.get_dst_col() <= column {
            continue;
        }
        if last != Some(line) {
            lines = lines.saturating_add(1);
        }
        last = Some(line);
        first = first.or(Some((line, column)));
    }
    let Some((line, column)) = first else {
        return Ok(());
    };
    let have = if lines == 1 { "has" } else { "have" };
    let lines = count_of(report.alloc, lines, "line")?;
    let text = format!(in report.alloc;
        "{lines} {have} tokens out of order, the first at line {line}, column {column}"
    )?;
    report.tell(UNSORTED, text.as_str())
}

/// What the exact reader refuses, and where. Of what is no JSON of a map to that reader, only what is mended is reported; of ids and
/// sections that is only how many are wrong.
fn tell_refused(report: &mut Report, text: &str, error: Error, mends: &[Mend]) -> Outcome<()> {
    if matches!(error, Error::BadJson(_)) && !mends.is_empty() {
        return Ok(());
    }
    let text = error_text(report.alloc, text, error)?;
    report.tell(code_of_refused(error, mends), text.as_str())
}

/// What the exact reader refuses or leaves unsorted, and where; and what the tolerant one mends.
fn tell_faults(report: &mut Report, text: &str, mends: &[Mend]) -> Outcome<()> {
    let alloc = report.alloc;
    match SourceMap::from_json_string(alloc, text) {
        Ok(map) => tell_unsorted(report, map.get_tokens().as_slice())?,
        Err(error) => tell_refused(report, text, error, mends)?,
    }
    for mend in mends {
        let text = format!(in alloc; "{mend}")?;
        report.tell(code_of_mend(mend.kind), text.as_str())?;
    }
    Ok(())
}

/// Positions that are not there in a text, as many as there are and the first of them.
#[derive(Clone, Copy, Default)]
struct Past {
    count: u64,
    first: Option<(u32, u32)>,
}

impl Past {
    fn note(&mut self, positions: &TextPositions<'_>, line: u32, column: u32) {
        if positions.offset(line, column).is_err() {
            self.count = self.count.saturating_add(1);
            if self.first.is_none() {
                self.first = Some((line, column));
            }
        }
    }

    fn tell(&self, report: &mut Report, code: Code, what: &str) -> Outcome<()> {
        let Some((line, column)) = self.first else {
            return Ok(());
        };
        let are = if self.count == 1 { "is" } else { "are" };
        let tokens = count_of(report.alloc, self.count, "token")?;
        let text = format!(in report.alloc;
            "{tokens} {are} past the end of {what} or of one of its lines, the first at line {line}, column {column}"
        )?;
        report.tell(code, text.as_str())
    }
}

fn tell_past_code(report: &mut Report, code: &str, tokens: &[Token]) -> Outcome<()> {
    let positions = TextPositions::new(report.alloc, code)?;
    let mut past = Past::default();
    for token in tokens {
        past.note(&positions, token.get_dst_line(), token.get_dst_col());
    }
    past.tell(report, PAST_CODE, "the code")
}

/// Whether a token points to a source.
fn is_of_source(token: &Token, id: u32) -> bool {
    token.get_source_id() == Some(id)
}

fn tell_past_content(
    report: &mut Report,
    map: &SourceMap<'_>,
    id: u32,
    content: &str,
) -> Outcome<()> {
    let positions = TextPositions::new(report.alloc, content)?;
    let mut past = Past::default();
    for token in map.get_tokens().as_slice() {
        if is_of_source(token, id) {
            past.note(&positions, token.get_src_line(), token.get_src_col());
        }
    }
    let mut what = String::from_str(report.alloc, "the content of ")?;
    push_shown(map.get_source(id).unwrap_or(""), &mut what)?;
    past.tell(report, PAST_CONTENT, what.as_str())
}

fn tell_contents(report: &mut Report, map: &SourceMap<'_>) -> Outcome<()> {
    let mut missing = String::new(report.alloc);
    for (id, source) in map.get_sources().enumerate() {
        let id = u32::try_from(id).unwrap_or(u32::MAX);
        match map.get_source_content(id) {
            Some(content) => tell_past_content(report, map, id, content)?,
            None => {
                missing.push_str(if missing.is_empty() {
                    "no content: "
                } else {
                    ", "
                })?;
                push_shown(source, &mut missing)?;
            }
        }
    }
    if missing.is_empty() {
        return Ok(());
    }
    report.tell(MISSING_CONTENT, missing.as_str())
}

/// Reports sources past the last one that something has.
fn tell_past_sources(report: &mut Report, past: PastSources, what: &str) -> Outcome<()> {
    let Some(first) = past.first else {
        return Ok(());
    };
    let have = if past.count == 1 { "has" } else { "have" };
    let what = count_of(report.alloc, past.count, what)?;
    let text = format!(in report.alloc;
        "scopes: {what} {have} a source past the last one, the first source {first}"
    )?;
    report.tell(SCOPES_SOURCE, text.as_str())
}

/// What is wrong with the scopes of a map.
fn tell_scopes(report: &mut Report, map: &SourceMap<'_>, held: &MapScopes) -> Outcome<()> {
    for (section, fault) in &held.faults {
        let text = format!(in report.alloc; "section {section}: {fault}")?;
        report.tell(code_of_scopes(*fault), text.as_str())?;
    }
    if let Some(fault) = held.fault {
        let text = format!(in report.alloc; "{fault}")?;
        report.tell(code_of_scopes(fault), text.as_str())?;
    }
    let Some(scopes) = &held.scopes else {
        return Ok(());
    };
    let sources = map.get_sources().count();
    tell_past_sources(report, trees_past(scopes, sources), "tree")?;
    tell_past_sources(report, calls_past(scopes, sources), "call site")
}

/// A simplified map.
fn simplified(alloc: Global, map: SourceMap<'static>) -> Outcome<SourceMap<'static>> {
    let mut simple = map;
    simple.simplify(alloc)?;
    Ok(simple)
}

/// A simplified map, and what scopes need beside what it has.
fn simplified_beside(
    alloc: Global,
    map: SourceMap<'static>,
    held: &MapScopes,
) -> Outcome<(SourceMap<'static>, Needed)> {
    if held.scopes.is_none() {
        return Ok((simplified(alloc, map)?, held.unread_need()));
    }
    let simple = simplified(alloc, map.clone(alloc)?)?;
    let needed = held.need(alloc, &map, &simple)?;
    Ok((simple, needed))
}

/// How much a simplified map has less, but for what scopes need.
fn tell_unneeded(report: &mut Report, map: SourceMap<'static>, held: &MapScopes) -> Outcome<()> {
    let alloc = report.alloc;
    let (tokens, names, sources) = (
        map.get_tokens().as_slice().len(),
        map.get_names().count(),
        map.get_sources().count(),
    );
    let (simple, needed) = simplified_beside(alloc, map, held)?;
    let tokens = tokens.saturating_sub(simple.get_tokens().as_slice().len());
    let names = names
        .saturating_sub(simple.get_names().count())
        .saturating_sub(needed.names);
    let sources = sources
        .saturating_sub(simple.get_sources().count())
        .saturating_sub(needed.sources);
    if tokens == 0 && names == 0 && sources == 0 {
        return Ok(());
    }
    let mut counts = String::new(alloc);
    for (count, noun) in [(tokens, "token"), (names, "name"), (sources, "source")] {
        if count == 0 {
            continue;
        }
        if !counts.is_empty() {
            counts.push_str(" and ")?;
        }
        counts.push_str(count_of(alloc, count as u64, noun)?.as_str())?;
    }
    let text = format!(in alloc; "nothing needs {counts}: see `sourcemap remap --simplify`")?;
    report.tell(UNNEEDED, text.as_str())
}

/// Reports that the debug id of a map is not that of its code, if both have one.
fn tell_debug_ids(report: &mut Report, map: Option<&str>, code: Option<&str>) -> Outcome<()> {
    let (Some(map), Some(code)) = (map, debug_id_of_code(code.unwrap_or(""))) else {
        return Ok(());
    };
    if are_same_ids(map, code) {
        return Ok(());
    }
    let text = format!(in report.alloc;
        "the code has the debug id {code}, and the map {map}: see `sourcemap debug-id`"
    )?;
    report.tell(DEBUG_IDS, text.as_str())
}

/// Reports tokens in the middle of words of the code, if they are many: then the map is of another code.
fn tell_inside_words(report: &mut Report, code: &str, tokens: &[Token]) -> Outcome<()> {
    let alloc = report.alloc;
    let Some((count, first)) = tokens_inside_words(alloc, code, tokens)? else {
        return Ok(());
    };
    let all = count_of(alloc, tokens.len() as u64, "token")?;
    let are = if count == 1 { "is" } else { "are" };
    let Position { line, column } = first;
    let text = format!(in alloc;
        "{count} of {all} {are} in the middle of words of the code, the first at line {line}, column {column}: is it the map of this code?"
    )?;
    report.tell(INSIDE_WORDS, text.as_str())
}

/// Reports names that are not in contents where the map says, and whether the lines of contents have moved.
fn tell_names(report: &mut Report, map: &SourceMap<'_>) -> Outcome<()> {
    let alloc = report.alloc;
    let Some(apart) = names_apart(alloc, map)? else {
        return Ok(());
    };
    let are = if apart.count == 1 { "is" } else { "are" };
    let names = count_of(alloc, apart.named, "name")?;
    let text = format!(in alloc;
        "{} of {names} {are} not in the contents at the original positions",
        apart.count
    )?;
    let (lines, way) = match apart.moved {
        Some(Moved::Down(lines)) => (lines, "down"),
        Some(Moved::Up(lines)) => (lines, "up"),
        None => {
            let (line, column) = (apart.first.line, apart.first.column);
            let text = format!(in alloc;
                "{text}, the first at line {line}, column {column} of the code"
            )?;
            return report.tell(NAME_DIFFERS, text.as_str());
        }
    };
    let lines = count_of(alloc, u64::from(lines), "line")?;
    let text = format!(in alloc;
        "{text}, but {lines} further {way}: was a banner added or removed?"
    )?;
    report.tell(SHIFTED, text.as_str())
}

/// Reports contents that are not those of the files of their sources.
fn tell_changed(report: &mut Report, map: &SourceMap<'_>, around: Around<'_>) -> Outcome<()> {
    let Around { rt, folder, places } = around;
    let Some((count, first)) = contents_apart(rt, map, folder, places)? else {
        return Ok(());
    };
    let contents = count_of(report.alloc, count, "content")?;
    let files = if count == 1 {
        "its file"
    } else {
        "their files"
    };
    let mut text = format!(in report.alloc; "{contents} not as in {files}: ")?;
    push_shown(first.as_str(), &mut text)?;
    if count > 1 {
        text.push_str(" and others")?;
    }
    report.tell(CONTENT_DIFFERS, text.as_str())
}

/// Where a map lies, and where files are that it names.
#[derive(Clone, Copy)]
struct Around<'a> {
    rt: &'a HostRuntime,
    /// The folder that its sources are relative to.
    folder: &'a str,
    places: Places<'a>,
}

/// Reports on a map that was read, and on its code if there is one.
fn tell_held(
    around: Around<'_>,
    report: &mut Report,
    map: SourceMap<'static>,
    held: &MapScopes,
    code: Option<&str>,
) -> Outcome<()> {
    tell_scopes(report, &map, held)?;
    if let Some(code) = code {
        tell_past_code(report, code, map.get_tokens().as_slice())?;
        tell_inside_words(report, code, map.get_tokens().as_slice())?;
    }
    tell_contents(report, &map)?;
    tell_names(report, &map)?;
    let mut map = map;
    map.apply_source_root(report.alloc)?;
    tell_changed(report, &map, around)?;
    tell_unneeded(report, map, held)
}

/// Reports on the text of a map.
fn check_text(
    around: Around<'_>,
    report: &mut Report,
    text: &str,
    code: Option<&str>,
) -> Outcome<()> {
    let alloc = report.alloc;
    let FoundParts { parts, mends } = match read_found_parts(alloc, text) {
        Ok(found) => found,
        Err(error) => {
            let text = found_error_text(alloc, text, error)?;
            return report.tell(code_of_error(error), text.as_str());
        }
    };
    let map = SourceMap::from_parts(parts);
    tell_summary(report, text.len(), &map)?;
    tell_faults(report, text, mends.as_slice())?;
    tell_debug_ids(report, debug_id_of_map(alloc, text)?, code)?;
    tell_held(around, report, map, &scopes_in(alloc, text)?, code)
}

/// Reports on a compiled map; on contents that are apart only the summary.
fn check_compiled(
    around: Around<'_>,
    report: &mut Report,
    bytes: &[u8],
    code: Option<&str>,
) -> Outcome<()> {
    let parts = match decompile(report.alloc, bytes)? {
        Decompiled::Map(parts) => parts,
        Decompiled::Wrong(why) => return report.tell(BAD_COMPILED, why.as_str()),
    };
    let map = SourceMap::from_parts(parts);
    tell_summary(report, bytes.len(), &map)?;
    if report.file.ends_with(CONTENTS_END) {
        return Ok(());
    }
    let mut parts = map.into_parts();
    put_contents(around.rt, report.file.as_str(), bytes, &mut parts)?;
    tell_debug_ids(report, parts.debug_id.as_ref().map(|id| id.as_str()), code)?;
    let map = SourceMap::from_parts(parts);
    tell_held(around, report, map, &MapScopes::none(report.alloc), code)
}

/// Reports on a map, and on its code if there is one.
fn check_map(
    around: Around<'_>,
    report: &mut Report,
    map: &Written,
    code: Option<&str>,
) -> Outcome<()> {
    match map {
        Written::Text(text) => check_text(around, report, text.as_str(), code),
        Written::Compiled(bytes) => check_compiled(around, report, bytes.as_slice(), code),
    }
}

/// The code of a map that is named as its code with `.map` at the end, and `.smc` behind that if it is compiled; None if it is no text.
fn code_of(rt: &HostRuntime, map: &str) -> Outcome<Option<String>> {
    match map
        .strip_suffix(COMPILED_END)
        .unwrap_or(map)
        .strip_suffix(".map")
    {
        Some(code) if is_file(rt, code) => match read_text(rt, code) {
            Ok(text) => Ok(Some(text)),
            Err(Failure::Told(_)) => Ok(None),
            Err(failure) => Err(failure),
        },
        _ => Ok(None),
    }
}

fn report_on(asked: &Asked<'_, '_>, file: &str) -> Result<Report, AllocError> {
    Ok(Report {
        alloc: asked.alloc(),
        file: String::from_str(asked.alloc(), shown_name(file))?,
        json: asked.has("json"),
        out: String::new(asked.alloc()),
        least: Level::of_name(asked.word("level")),
        is_wrong: false,
    })
}

/// Reports on a map and its code, as objects, one a line.
pub fn objects_of<'x>(asked: &'x Asked<'x, '_>, map: &'x MapText, code: &str) -> Outcome<String> {
    let mut report = report_on(asked, map.name.as_str())?;
    report.json = true;
    let around = Around {
        rt: asked.rt,
        folder: map.folder.as_str(),
        places: asked.places(),
    };
    check_map(around, &mut report, &map.written, Some(code))?;
    Ok(report.out)
}

/// Reports whether a compiled map differs from that of the text which it was made of, or, if its contents are apart, whether these do.
fn tell_different(
    report: &mut Report,
    bytes: &[u8],
    name: &str,
    text: &str,
    is_apart: bool,
) -> Outcome<()> {
    let alloc = report.alloc;
    let parts = match parts_in(alloc, name, text) {
        Ok(parts) => parts,
        Err(Failure::Told(why)) => return report.tell(UNREADABLE, why.as_str()),
        Err(failure) => return Err(failure),
    };
    if is_made_of(alloc, name, parts, text, bytes, is_apart)? {
        return Ok(());
    }
    let told = format!(in alloc; "differs from {name}: compile it again")?;
    report.tell(DIFFERENT_COMPILED, told.as_str())
}

/// Reports whether a compiled map is that of the map beside it.
fn tell_stale(rt: &HostRuntime, file: &str, bytes: &[u8], report: &mut Report) -> Outcome<()> {
    let is_apart = file.ends_with(CONTENTS_END);
    let end = if is_apart { CONTENTS_END } else { COMPILED_END };
    let Some(name) = file.strip_suffix(end) else {
        return Ok(());
    };
    if !is_file(rt, name) {
        let told = format!(in report.alloc; "not compared: {name} is not there")?;
        return report.tell(UNCOMPARED, told.as_str());
    }
    let text = read_text(rt, name)?;
    if !is_stale(bytes, text.as_str()) {
        return tell_different(report, bytes, name, text.as_str(), is_apart);
    }
    let told = format!(in report.alloc; "out of date: {name} has another text: compile it again")?;
    report.tell(STALE_COMPILED, told.as_str())
}

/// Reports the compiled map beside a map in a file, if it was made of another text or cannot be read. The map is checked all the same.
fn tell_stale_beside(rt: &HostRuntime, map: &str, text: &str, report: &mut Report) -> Outcome<()> {
    let name = format!(in report.alloc; "{map}{COMPILED_END}")?;
    if !is_regular(rt, name.as_str()) {
        return Ok(());
    }
    match read_written(rt, name.as_str()) {
        Ok(Written::Compiled(bytes)) => {
            if !is_stale(bytes.as_slice(), text) {
                return Ok(());
            }
            let told = format!(in report.alloc; "{name} is out of date: compile it again")?;
            report.tell(STALE_BESIDE, told.as_str())
        }
        Ok(Written::Text(_)) => Ok(()),
        Err(Failure::Told(why)) => report.tell(UNREADABLE_BESIDE, why.as_str()),
        Err(failure) => Err(failure),
    }
}

/// Reports on a map in a file, with its code if that is there, and compares it with a compiled map beside it.
fn check_as_map<'x>(
    rt: &'x HostRuntime,
    file: &'x str,
    places: Places<'x>,
    map: &Written,
    report: &mut Report,
) -> Outcome<()> {
    let code = code_of(rt, file)?;
    let around = Around {
        rt,
        folder: folder_of(file),
        places,
    };
    check_map(around, report, map, code.as_deref())?;
    match map {
        Written::Text(text) => tell_stale_beside(rt, file, text.as_str(), report),
        Written::Compiled(bytes) => tell_stale(rt, file, bytes.as_slice(), report),
    }
}

/// Reports on the map of a code.
fn check_as_code<'x>(
    asked: &'x Asked<'x, '_>,
    file: &str,
    places: Places<'x>,
    code: &str,
    report: &mut Report,
) -> Outcome<()> {
    match map_of_code(asked.rt, file, code, places)? {
        Lookup::Map(
            MapText {
                name,
                folder,
                is_file,
                written,
                behind: _,
            },
        ) => {
            report.file = name;
            let around = Around {
                rt: asked.rt,
                folder: folder.as_str(),
                places,
            };
            check_map(around, report, &written, Some(code))?;
            match &written {
                Written::Text(text) if is_file => {
                    let name = String::from_str(report.alloc, report.file.as_str())?;
                    tell_stale_beside(asked.rt, name.as_str(), text.as_str(), report)
                }
                _ => Ok(()),
            }
        }
        Lookup::None(why) => report.tell(NO_MAP, why.as_str()),
    }
}

/// A file that is to be checked.
#[derive(Drop)]
struct Item {
    path: String,
    /// The folder in which the files must lie that it names, with a slash at its end; None for that of `--root`.
    root: Option<String>,
}

/// Where to look for files.
fn places_in<'p>(asked: &'p Asked<'_, '_>, root: &'p Option<String>) -> Places<'p> {
    match root {
        Some(root) => Places {
            root: root.as_str(),
            ..asked.places()
        },
        None => asked.places(),
    }
}

/// The root of the files of a folder: the folder itself, if it is not in the root and none is named.
fn root_of(asked: &Asked<'_, '_>, folder: &str) -> Outcome<Option<String>> {
    let places = Places {
        outside: false,
        ..asked.places()
    };
    if !asked.root.is_empty() || is_in_root(asked.rt, folder, places) {
        return Ok(None);
    }
    let folder = folder.trim_end_matches('/');
    Ok(Some(format!(in asked.alloc(); "{folder}/")?))
}

/// Reports on a file, or on a folder that has none to be checked.
fn check_file(asked: &Asked<'_, '_>, item: &Item) -> Outcome<Report> {
    let file = item.path.as_str();
    let mut report = report_on(asked, file)?;
    if names_folder(asked.rt, file) {
        report.tell(NO_MAP, "no map is in this folder or below it")?;
        return Ok(report);
    }
    let written = read_written(asked.rt, file)?;
    let places = places_in(asked, &item.root);
    if let Written::Text(text) = &written
        && !is_map_file(file, text.as_str())
    {
        check_as_code(asked, file, places, text.as_str(), &mut report)?;
    } else {
        check_as_map(asked.rt, file, places, &written, &mut report)?;
    }
    Ok(report)
}

/// Adds files with a root, and reports the folders that could not be looked through. Returns whether there are none of these.
fn push_listed(
    asked: &Asked<'_, '_>,
    listed: Listed,
    root: Option<String>,
    items: &mut Vec<Item>,
) -> Outcome<bool> {
    for failure in &listed.failures {
        tell(asked.rt, failure.as_str());
    }
    for path in listed.files {
        let root = match &root {
            Some(root) => Some(String::from_str(asked.alloc(), root.as_str())?),
            None => None,
        };
        items.push(Item { path, root })?;
    }
    Ok(listed.failures.is_empty())
}

/// Adds the files that a pattern matches. Returns whether all folders could be looked through.
fn push_matching(
    asked: &Asked<'_, '_>,
    word: &str,
    pattern: &PathPattern,
    items: &mut Vec<Item>,
) -> Outcome<bool> {
    let listed = files_matching(asked.rt, pattern, asked.places())?;
    if listed.files.is_empty() && listed.failures.is_empty() {
        return Err(failure_of(asked.alloc(), word, "matches no code and no map"));
    }
    push_listed(asked, listed, None, items)
}

/// The files in a folder that have maps, with this root.
fn listed_in(asked: &Asked<'_, '_>, folder: &str, root: &Option<String>) -> Outcome<Listed> {
    files_with_maps(asked.rt, folder, places_in(asked, root))
}

/// Adds the files in a folder that have maps, or, if there are none, the folder itself. Returns whether all folders could be looked through.
fn push_folder(asked: &Asked<'_, '_>, folder: &str, items: &mut Vec<Item>) -> Outcome<bool> {
    let root = root_of(asked, folder)?;
    let listed = listed_in(asked, folder, &root)?;
    if listed.files.is_empty() && listed.failures.is_empty() {
        let path = String::from_str(asked.alloc(), folder)?;
        items.push(Item { path, root: None })?;
    }
    push_listed(asked, listed, root, items)
}

/// Adds the files that a word stands for: a folder, a pattern, if no file is named so, or a file. Returns whether all folders could be
/// looked through, and reports those that could not.
fn push_files(asked: &Asked<'_, '_>, word: &str, items: &mut Vec<Item>) -> Outcome<bool> {
    if names_folder(asked.rt, word) {
        return push_folder(asked, word, items);
    }
    if !is_file(asked.rt, word)
        && let Some(pattern) = PathPattern::new(asked.alloc(), word)?
    {
        return push_matching(asked, word, &pattern, items);
    }
    let path = String::from_str(asked.alloc(), word)?;
    items.push(Item { path, root: None })?;
    Ok(true)
}

/// Tells why something was not checked. What ends the run is returned.
fn tell_failure(rt: &HostRuntime, failure: Failure) -> Outcome<()> {
    match failure {
        Failure::Told(text) => {
            tell(rt, text.as_str());
            Ok(())
        }
        failure => Err(failure),
    }
}

/// The files that words stand for, and the last word of those whose folders cannot all be looked through.
fn files_of<'w>(asked: &Asked<'_, '_>, words: &[&'w str]) -> Outcome<(Vec<Item>, Option<&'w str>)> {
    let mut files = Vec::new(asked.alloc());
    let mut trouble = None;
    for word in words {
        match push_files(asked, word, &mut files) {
            Ok(true) => {}
            Ok(false) => trouble = Some(*word),
            Err(failure) => {
                tell_failure(asked.rt, failure)?;
                trouble = Some(*word);
            }
        }
    }
    Ok((files, trouble))
}

/// Runs the command `check`.
pub fn run(asked: &Asked<'_, '_>) -> Outcome<Status> {
    let words = asked.words("FILE")?;
    let (files, folder) = files_of(asked, words.as_slice())?;
    let mut progress = Progress::new(asked.rt, files.len());
    let mut is_wrong = false;
    let mut trouble = folder;
    for file in &files {
        progress.begin(asked.rt, file.path.as_str());
        let checked = check_file(asked, file);
        progress.clear(asked.rt);
        match checked {
            Ok(report) => {
                print(asked.rt, report.out.as_str())?;
                is_wrong |= report.is_wrong;
            }
            Err(failure) => {
                tell_failure(asked.rt, failure)?;
                trouble = Some(file.path.as_str());
            }
        }
    }
    match trouble {
        Some(file) => Err(failure_of(asked.alloc(), file, "was not checked, see above")),
        None => Ok(Status::of(!is_wrong)),
    }
}
