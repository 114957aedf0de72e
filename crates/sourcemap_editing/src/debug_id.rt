//! `debug-id`: the debug ids of codes and of their maps, reported or made the same.
use crate::data_urls::{comment_of, with_url};
use crate::editing::{is_data_url, is_done, refusal};
use oxc_sourcemap_text::Language;
use sourcemap_files::{
    Asked, Lookup, MapText, Progress, Status, Written, language_of, map_of_code, parts_in, print,
    read_map_alone, read_text, shown_name, usage, write_files,
};
use sourcemap_run::{
    Agreement, Origin, are_same_ids, code_with_debug_id, data_url, debug_id_member,
    debug_id_of_code, debug_id_of_map, made_debug_id, map_with_debug_id, push_object,
    push_text_member,
};
use sourcemap_texts::push_visible;
use sourcemap_words::{Outcome, failure_of};
use std::alloc::Global;

/// What is printed of codes.
#[derive(Drop)]
struct Told {
    json: bool,
    out: String,
    /// Whether the ids of each code and its map are the same.
    are_same: bool,
}

impl Told {
    /// Appends a row: of `--json` the object of these members, else this line.
    fn push(&mut self, line: &str, members: &str) -> Outcome<()> {
        if self.json {
            push_object(members, &mut self.out)?;
        } else {
            push_visible(line, &mut self.out)?;
        }
        Ok(self.out.push('\n')?)
    }
}

/// A debug id as it is reported.
fn shown_id(id: Option<&str>) -> &str {
    id.unwrap_or("none")
}

/// Appends the member of a debug id, if it is there.
fn push_id_member(key: &str, id: Option<&str>, members: &mut String) -> Outcome<()> {
    match id {
        Some(id) => Ok(push_text_member(key, id, members)?),
        None => Ok(()),
    }
}

/// The debug id of a code; None for CSS, for which there is no comment with one.
fn id_of_code<'c>(file: &str, code: &'c str) -> Option<&'c str> {
    match language_of(file) {
        Language::JavaScript => debug_id_of_code(code),
        Language::Css => None,
    }
}

/// The debug id of a map, which is read.
fn id_of_map(rt: &HostRuntime, map: &MapText) -> Outcome<Option<String>> {
    let alloc = rt.alloc();
    let parts = read_map_alone(rt, map)?;
    if let Some(id) = &parts.debug_id
        && !id.as_str().is_empty()
    {
        return Ok(Some(String::from_str(alloc, id.as_str())?));
    }
    let Written::Text(text) = &map.written else {
        return Ok(None);
    };
    match debug_id_of_map(alloc, text.as_str())? {
        Some(id) => Ok(Some(String::from_str(alloc, id)?)),
        None => Ok(None),
    }
}

/// How the debug ids of a code and of its map compare, as a text behind the name of the code.
fn agreement_text(
    alloc: Global,
    code_id: Option<&str>,
    map: &str,
    map_id: Option<&str>,
) -> Outcome<String> {
    let agreement = Agreement::of(code_id, map_id);
    let (word, own, other) = (agreement.word(), shown_id(code_id), shown_id(map_id));
    if agreement == Agreement::Same {
        return Ok(format!(in alloc; "{word}: {own}")?);
    }
    Ok(format!(in alloc; "{word}: {own}, and {map} has {other}")?)
}

/// Reports the debug ids of a code and of its map.
fn tell_pair(
    alloc: Global,
    code: &str,
    code_id: Option<&str>,
    map: &str,
    map_id: Option<&str>,
    told: &mut Told,
) -> Outcome<()> {
    let agreement = Agreement::of(code_id, map_id);
    told.are_same &= agreement == Agreement::Same;
    let text = agreement_text(alloc, code_id, map, map_id)?;
    let line = format!(in alloc; "{code}: {text}")?;
    let mut members = String::new(alloc);
    push_text_member("code", code, &mut members)?;
    push_text_member("map", map, &mut members)?;
    push_id_member("codeId", code_id, &mut members)?;
    push_id_member("mapId", map_id, &mut members)?;
    push_text_member("ids", agreement.word(), &mut members)?;
    told.push(line.as_str(), members.as_str())
}

/// Reports the debug id of a code without a map, and why it has none.
fn tell_alone(
    alloc: Global,
    code: &str,
    code_id: Option<&str>,
    why: &str,
    told: &mut Told,
) -> Outcome<()> {
    told.are_same = false;
    let (word, own) = (Agreement::Missing.word(), shown_id(code_id));
    let line = format!(in alloc; "{code}: {word}: {own}; {why}")?;
    let mut members = String::new(alloc);
    push_text_member("code", code, &mut members)?;
    push_id_member("codeId", code_id, &mut members)?;
    push_text_member("ids", word, &mut members)?;
    push_text_member("why", why, &mut members)?;
    told.push(line.as_str(), members.as_str())
}

/// Reports the debug ids of the code in a file and of its map.
fn tell_ids(asked: &Asked<'_, '_>, file: &str, told: &mut Told) -> Outcome<()> {
    let (rt, alloc) = (asked.rt, asked.alloc());
    let code = read_text(rt, file)?;
    let code_id = id_of_code(file, code.as_str());
    match map_of_code(rt, file, code.as_str(), asked.places())? {
        Lookup::Map(map) => {
            let map_id = id_of_map(rt, &map)?;
            let name = map.name.as_str();
            tell_pair(
                alloc,
                shown_name(file),
                code_id,
                name,
                map_id.as_deref(),
                told,
            )
        }
        Lookup::None(why) => tell_alone(alloc, shown_name(file), code_id, why.as_str(), told),
    }
}

/// Refuses a file that has no JavaScript code.
fn refuse_other(asked: &Asked<'_, '_>, file: &str) -> Outcome<()> {
    if file == "-" {
        return Err(usage(
            asked.rt,
            "standard input cannot be changed: name the file of a code",
        ));
    }
    if language_of(file) == Language::Css {
        let text = "is CSS, and there is no comment with a debug id for that";
        return Err(failure_of(asked.alloc(), file, text));
    }
    Ok(())
}

/// The map of a code that is to be changed.
fn map_to_change(asked: &Asked<'_, '_>, file: &str, code: &str) -> Outcome<MapText> {
    match map_of_code(asked.rt, file, code, asked.places())? {
        Lookup::Map(map) => Ok(map),
        Lookup::None(why) => Err(failure_of(asked.alloc(), file, why.as_str())),
    }
}

/// The text of a map that is to be changed, which is read.
fn text_to_change<'m>(rt: &HostRuntime, map: &'m MapText) -> Outcome<&'m str> {
    let (alloc, name) = (rt.alloc(), map.name.as_str());
    let Written::Text(text) = &map.written else {
        let why = "is compiled, and stays as it is: name its map";
        return Err(failure_of(alloc, name, why));
    };
    let parts = read_map_alone(rt, map)?;
    let read = parts.debug_id.as_ref().map_or("", |id| id.as_str());
    // A key with escapes stands for the member as well.
    let is_written = read.is_empty()
        || read == debug_id_member(alloc, text.as_str())?.unwrap_or("");
    if is_data_url(text.as_str()) || !is_written {
        return Err(refusal(alloc, name));
    }
    Ok(text.as_str())
}

/// The debug id that a code and its map get, and its origin.
fn chosen_id(
    asked: &Asked<'_, '_>,
    file: &str,
    code: &str,
    name: &str,
    map: &str,
) -> Outcome<(Origin, String)> {
    let alloc = asked.alloc();
    let (own, other) = (debug_id_of_code(code), debug_id_of_map(alloc, map)?);
    let Some(origin) = Origin::of(own, other, asked.has("force")) else {
        let text = agreement_text(alloc, own, name, other)?;
        let why = format!(in alloc;
            "{text}: --force takes a UUID, first that of the map, or makes one"
        )?;
        return Err(failure_of(alloc, file, why.as_str()));
    };
    let id = match origin {
        Origin::Both | Origin::Map => other,
        Origin::Code => own,
        Origin::Digest => None,
    };
    if let Some(id) = id {
        return Ok((origin, String::from_str(alloc, id)?));
    }
    match made_debug_id(alloc, map)? {
        Some(id) => Ok((origin, id)),
        None => Err(refusal(alloc, name)),
    }
}

/// Whether a debug id is there, and is this one.
fn is_id(found: Option<&str>, id: &str) -> bool {
    found.is_some_and(|found| are_same_ids(found, id))
}

/// The text of a map with this debug id; None if it has it.
fn changed_map(alloc: Global, name: &str, map: &str, id: &str) -> Outcome<Option<String>> {
    if is_id(debug_id_member(alloc, map)?, id) {
        return Ok(None);
    }
    let Some(text) = map_with_debug_id(alloc, map, id)? else {
        return Err(refusal(alloc, name));
    };
    let parts = parts_in(alloc, name, text.as_str())?;
    let read = parts.debug_id.as_ref().map_or(id, |read| read.as_str());
    if is_id(debug_id_member(alloc, text.as_str())?, id) && are_same_ids(read, id) {
        return Ok(Some(text));
    }
    Err(refusal(alloc, name))
}

/// The data URL of a map, in base64, that replaces another one. It keeps the head of that one, if that is one of base64.
fn url_in_place(alloc: Global, url: &str, map: &str) -> Outcome<String> {
    let made = data_url(alloc, map)?;
    let (head, _) = url.split_once(',').unwrap_or((url, ""));
    match made.as_str().split_once(',') {
        Some((_, data)) if head.ends_with(";base64") => Ok(format!(in alloc; "{head},{data}")?),
        _ => Ok(made),
    }
}

/// A code with another text of the map in its data URL.
fn with_map(alloc: Global, file: &str, code: &str, map: &str) -> Outcome<String> {
    let found = comment_of(alloc, file, code)?;
    let url = url_in_place(alloc, found.url, map)?;
    Ok(with_url(alloc, found, url.as_str())?)
}

/// A code with this debug id, and with the map in it that was changed; None if it has them.
fn changed_code(
    alloc: Global,
    file: &str,
    code: &str,
    id: &str,
    map_in_it: Option<&str>,
) -> Outcome<Option<String>> {
    let held = match map_in_it {
        Some(map) => with_map(alloc, file, code, map)?,
        None => String::from_str(alloc, code)?,
    };
    if !is_id(debug_id_of_code(held.as_str()), id) {
        return Ok(Some(code_with_debug_id(alloc, held.as_str(), id)?));
    }
    if map_in_it.is_some() {
        return Ok(Some(held));
    }
    Ok(None)
}

/// Writes what has changed, of a code and its map.
fn write_changed(
    rt: &HostRuntime,
    file: &str,
    code: Option<&str>,
    name: &str,
    map: Option<&str>,
) -> Outcome<()> {
    let mut files = Vec::new(rt.alloc());
    if let Some(map) = map {
        files.push((name, map.as_bytes()))?;
    }
    if let Some(code) = code {
        files.push((file, code.as_bytes()))?;
    }
    write_files(rt, files.as_slice())
}

/// Reports the debug id that a code and its map have now, and its origin.
fn tell_injected(
    alloc: Global,
    code: &str,
    map: &str,
    origin: Origin,
    id: &str,
    told: &mut Told,
) -> Outcome<()> {
    let line = match origin {
        Origin::Both => format!(in alloc; "{code}: {id}, as {map} had")?,
        Origin::Map => format!(in alloc; "{code}: {id}, that of {map}")?,
        Origin::Code => format!(in alloc; "{code}: {id}, which {map} has now")?,
        Origin::Digest => format!(in alloc; "{code}: {id}, made of {map}")?,
    };
    let mut members = String::new(alloc);
    push_text_member("code", code, &mut members)?;
    push_text_member("map", map, &mut members)?;
    push_text_member("debugId", id, &mut members)?;
    push_text_member("from", origin.word(), &mut members)?;
    told.push(line.as_str(), members.as_str())
}

/// Gives the code in a file and its map the same debug id.
fn inject(asked: &Asked<'_, '_>, file: &str, told: &mut Told) -> Outcome<()> {
    let (rt, alloc) = (asked.rt, asked.alloc());
    refuse_other(asked, file)?;
    let code = read_text(rt, file)?;
    let code = code.as_str();
    let map = map_to_change(asked, file, code)?;
    let (name, text) = (map.name.as_str(), text_to_change(rt, &map)?);
    let (origin, id) = chosen_id(asked, file, code, name, text)?;
    let id = id.as_str();
    let new_map = changed_map(alloc, name, text, id)?;
    let (in_file, in_code) = if map.is_file {
        (new_map.as_deref(), None)
    } else {
        (None, new_map.as_deref())
    };
    let new_code = changed_code(alloc, file, code, id, in_code)?;
    write_changed(rt, file, new_code.as_deref(), name, in_file)?;
    tell_injected(alloc, file, name, origin, id, told)
}

/// Reports or changes the debug ids of a code, as the command asks.
fn run_on(asked: &Asked<'_, '_>, file: &str, told: &mut Told) -> Outcome<()> {
    if asked.has("inject") {
        inject(asked, file, told)
    } else {
        tell_ids(asked, file, told)
    }
}

/// Runs the command `debug-id`. Reports each code that cannot be read or changed, and goes on with the others.
pub fn run(asked: &Asked<'_, '_>) -> Outcome<Status> {
    let (rt, alloc) = (asked.rt, asked.alloc());
    if asked.has("force") && !asked.has("inject") {
        return Err(usage(rt, "--force needs --inject"));
    }
    let codes = asked.words("CODE")?;
    let mut progress = Progress::new(rt, codes.len());
    let mut are_same = true;
    let mut trouble = None;
    for code in &codes {
        progress.begin(rt, code);
        let mut told = Told {
            json: asked.has("json"),
            out: String::new(alloc),
            are_same: true,
        };
        let ran = run_on(asked, code, &mut told);
        if !is_done(rt, &progress, ran)? {
            trouble = Some(*code);
        }
        progress.clear(rt);
        print(rt, told.out.as_str())?;
        are_same &= told.are_same;
    }
    match trouble {
        Some(code) if asked.has("inject") => {
            Err(failure_of(alloc, code, "stays as it was, see above"))
        }
        Some(code) => Err(failure_of(alloc, code, "was not looked at, see above")),
        None => Ok(Status::of(are_same)),
    }
}
