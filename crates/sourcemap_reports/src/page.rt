//! `page`: a code beside its originals, in one file for browsers.
use crate::check::objects_of;
use crate::template::{Template, push_list, refuse_two_texts};
use sourcemap_files::{
    Asked, Lookup, MapText, Status, Written, is_map, map_of_code, map_of_file, print, read_map,
    read_written, real_name, shown_name, text_of_map, usage,
};
use sourcemap_run::{push_number_member, push_object, push_text_member};
use sourcemap_words::{Failure, Outcome, failure_of};
use std::alloc::Global;

/// The template of the page.
const PAGE: Template = Template {
    variable: "SOURCEMAP_PAGE",
    beside: "../share/sourcemap/page.html",
};

/// The map that is named, or that of the code.
fn map_text(asked: &Asked<'_, '_>, code: &str, text: &str) -> Outcome<MapText> {
    if let Some(map) = asked.matches.get_str("MAP") {
        return map_of_file(asked.rt, map, asked.places());
    }
    match map_of_code(asked.rt, code, text, asked.places())? {
        Lookup::Map(map) => Ok(map),
        Lookup::None(why) => Err(failure_of(asked.alloc(), shown_name(code), why.as_str())),
    }
}

/// A map as its text. That of a compiled one is made once, so that its files are reported once; the page's report is on it.
fn as_text(rt: &HostRuntime, map: MapText) -> Outcome<MapText> {
    if let Written::Text(_) = &map.written {
        return Ok(map);
    }
    let text = text_of_map(rt, &map)?;
    let mut map = map;
    map.written = Written::Text(text);
    Ok(map)
}

/// Appends an object of a name and a text.
fn push_named(alloc: Global, name: &str, text: &str, out: &mut String) -> Outcome<()> {
    let mut members = String::new(alloc);
    push_text_member("name", name, &mut members)?;
    push_text_member("text", text, &mut members)?;
    Ok(push_object(members.as_str(), out)?)
}

/// The data of a page: the code, the map, and what `check` says of them.
fn data_of(asked: &Asked<'_, '_>, code: &str, text: &str, map: &MapText) -> Outcome<String> {
    let alloc = asked.alloc();
    let mut out = String::from_str(alloc, "{\"code\":")?;
    push_named(alloc, shown_name(code), text, &mut out)?;
    out.push_str(",\"map\":")?;
    let held = text_of_map(asked.rt, map)?;
    push_named(alloc, map.name.as_str(), held.as_str(), &mut out)?;
    out.push_str(",\"report\":")?;
    push_list(objects_of(asked, map, text)?.as_str(), &mut out)?;
    out.push('}')?;
    Ok(out)
}

/// The object of `--json`.
fn object_of(asked: &Asked<'_, '_>, code: &str, map: &MapText, bytes: usize) -> Outcome<String> {
    let alloc = asked.alloc();
    let mut members = String::new(alloc);
    push_text_member("output", asked.word("output"), &mut members)?;
    push_text_member("code", code, &mut members)?;
    push_text_member("map", map.name.as_str(), &mut members)?;
    push_number_member(alloc, "bytes", bytes as u64, &mut members)?;
    let mut object = String::new(alloc);
    push_object(members.as_str(), &mut object)?;
    object.push('\n')?;
    Ok(object)
}

/// Refuses words that are wrong together.
fn check_words(asked: &Asked<'_, '_>) -> Outcome<()> {
    if asked.word("CODE") == "-" && asked.word("MAP") == "-" {
        return Err(usage(
            asked.rt,
            "standard input is the code: name a file for the map",
        ));
    }
    refuse_two_texts(asked)
}

/// Refuses to write the page over a file that it is made of.
fn check_output(asked: &Asked<'_, '_>, map: &MapText) -> Outcome<()> {
    let (rt, output) = (asked.rt, asked.word("output"));
    let real = real_name(rt, output)?;
    let is_code = real == real_name(rt, asked.word("CODE"))?;
    if output != "-" && (is_code || real == real_name(rt, map.name.as_str())?) {
        return Err(failure_of(
            asked.alloc(),
            output,
            "is the code or the map: name another file by -o",
        ));
    }
    Ok(())
}

/// The failure of a code in whose place a map is named, with what to do.
fn no_code(alloc: Global, code: &str, instead: &str) -> Failure {
    match format!(in alloc; "is a map: {instead}") {
        Ok(text) => failure_of(alloc, shown_name(code), text.as_str()),
        Err(_) => Failure::Memory,
    }
}

/// The text of a code. Refuses a map in its place, and says what to do.
pub(crate) fn read_code(rt: &HostRuntime, code: &str, instead: &str) -> Outcome<String> {
    let text = match read_written(rt, code)? {
        Written::Text(text) => text,
        Written::Compiled(_) => return Err(no_code(rt.alloc(), code, instead)),
    };
    if is_map(text.as_str()) {
        return Err(no_code(rt.alloc(), code, instead));
    }
    Ok(text)
}

/// Writes the page, and reports it.
fn write(asked: &Asked<'_, '_>, text: &str, map: &MapText) -> Outcome<()> {
    let code = asked.word("CODE");
    let content = data_of(asked, code, text, map)?;
    let bytes = PAGE.write(asked, content.as_str())?;
    if asked.has("json") {
        let object = object_of(asked, code, map, bytes)?;
        print(asked.rt, object.as_str())?;
    }
    Ok(())
}

/// Runs the command `page`.
pub fn run(asked: &Asked<'_, '_>) -> Outcome<Status> {
    check_words(asked)?;
    let code = asked.word("CODE");
    let text = read_code(asked.rt, code, "name its code, and the map behind it")?;
    let map = as_text(asked.rt, map_text(asked, code, text.as_str())?)?;
    read_map(asked.rt, &map)?;
    check_output(asked, &map)?;
    write(asked, text.as_str(), &map)?;
    Ok(Status::Found)
}
