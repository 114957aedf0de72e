//! `bundle`: codes and their maps, joined into one code and one map.
use crate::codes::{hashbang_of, run_together, without_map_comments};
use crate::own::{mapped_to_itself, stop, with_stop};
use crate::rebasing::rebase;
use oxc_sourcemap_map::{SourceMap, parts_of};
use oxc_sourcemap_parts::SourceMapParts;
use oxc_sourcemap_text::Language;
use percent_encoding::utf8_percent_encode;
use sourcemap_files::{
    Asked, Lookup, Progress, Status, bytes_to_escape, file_name, folder_of, language_of, limit_of,
    limited_json, map_of_code, print, read_text, read_without_scopes, refuse_overwriting,
    relative_to, shown_name, usage, warn, write_files, written_name,
};
use sourcemap_run::{Bundle, push_number_member, push_object, push_text_member};
use sourcemap_words::{Outcome, failure_of};
use std::alloc::{AllocError, Global};

/// A code of the bundle, and the name of its map if it has one.
#[derive(Drop)]
struct Part {
    code: String,
    map: SourceMapParts<'static>,
    map_name: Option<String>,
}

/// A code that has no map, mapped to itself, so that no place of it counts as one of the file before it. Its path is relative to the
/// folder of the bundle.
fn unmapped_part(
    asked: &Asked<'_, '_>,
    file: &str,
    text: &str,
    code: String,
    folder: &str,
) -> Outcome<Part> {
    let source = relative_to(asked.rt, folder_of(file), folder, file_name(file))?;
    let map = mapped_to_itself(asked.alloc(), source.as_str(), text, code.as_str())?;
    Ok(Part {
        code,
        map,
        map_name: None,
    })
}

/// Reads a code and its map, whose sources are then relative to the folder of the bundle.
fn read_code_and_map(asked: &Asked<'_, '_>, file: &str, folder: &str) -> Outcome<Part> {
    let alloc = asked.alloc();
    let text = read_text(asked.rt, file)?;
    let code = without_map_comments(alloc, text.as_str(), language_of(file))?;
    match map_of_code(asked.rt, file, text.as_str(), asked.places())? {
        Lookup::Map(found) => {
            let mut map = read_without_scopes(asked.rt, &found)?;
            rebase(asked.rt, &mut map, found.folder.as_str(), folder)?;
            Ok(Part {
                code,
                map,
                map_name: Some(found.name),
            })
        }
        Lookup::None(why) => {
            let note = format!(in alloc; "{why}; the code is mapped to itself")?;
            warn(asked.rt, shown_name(file), note.as_str());
            unmapped_part(asked, file, text.as_str(), code, folder)
        }
    }
}

/// Appends the object of a file of the bundle.
fn push_file_object(
    alloc: Global,
    file: &str,
    map: Option<&str>,
    line: u32,
    out: &mut String,
) -> Outcome<()> {
    let mut members = String::new(alloc);
    push_text_member("file", file, &mut members)?;
    if let Some(map) = map {
        push_text_member("map", map, &mut members)?;
    }
    push_number_member(alloc, "line", u64::from(line), &mut members)?;
    push_object(members.as_str(), out)?;
    Ok(out.push('\n')?)
}

/// The texts of `--wrap`.
fn wrap_of<'m>(asked: &Asked<'_, 'm>) -> Result<Option<(&'m str, &'m str)>, AllocError> {
    match asked.words("wrap")?.as_slice() {
        [before, after] => Ok(Some((*before, *after))),
        _ => Ok(None),
    }
}

/// Appends the text before a code: a semicolon, where it would else run together with the code before it, and the first text of
/// `--wrap`. Returns how much of the code's own front is then left out: its hashbang, which may be at the beginning of the bundle alone.
fn push_front(
    alloc: Global,
    code: &str,
    language: Language,
    before: Option<&str>,
    bundle: &mut Bundle,
) -> Outcome<usize> {
    let is_first = bundle.line() == 0;
    let hashbang = match language {
        Language::JavaScript => hashbang_of(code),
        Language::Css => "",
    };
    let own = code.get(hashbang.len()..).unwrap_or(code);
    let begins = before.unwrap_or(own);
    if language == Language::JavaScript && !is_first && run_together(bundle.code(), begins) {
        bundle.push_text(alloc, ";")?;
    }
    let Some(before) = before else {
        return Ok(if is_first { 0 } else { hashbang.len() });
    };
    if is_first && !hashbang.is_empty() {
        bundle.push_text(alloc, hashbang)?;
    }
    bundle.push_text(alloc, before)?;
    Ok(hashbang.len())
}

/// Appends a file to the bundle, between the texts of `--wrap`.
fn push_file(
    asked: &Asked<'_, '_>,
    file: &str,
    output: &str,
    bundle: &mut Bundle,
    out: &mut String,
) -> Outcome<()> {
    let alloc = asked.alloc();
    let part = read_code_and_map(asked, file, folder_of(output))?;
    let Part {
        code,
        map,
        map_name,
    } = part;
    let wrap = wrap_of(asked)?;
    let is_first = bundle.line() == 0;
    let before = wrap.map(|wrap| wrap.0);
    let left_out = push_front(alloc, code.as_str(), language_of(file), before, bundle)?;
    let name = map_name.as_ref().map(|name| name.as_str());
    if let Some(name) = name {
        refuse_overwriting(asked, name, output_map(alloc, output)?.as_str())?;
    }
    push_file_object(alloc, file, name, bundle.line(), out)?;
    let map = if is_first {
        map
    } else {
        with_stop(alloc, map)?
    };
    bundle.push_code(alloc, code.as_str().get(left_out..).unwrap_or(""), map)?;
    if let Some((_, after)) = wrap {
        bundle.push_code(alloc, after, stop(alloc)?)?;
    }
    Ok(())
}

/// The file that the bundle is written to.
fn output_of(asked: &Asked<'_, '_>) -> Outcome<String> {
    let output = asked.word("output");
    if output == "-" {
        return Err(usage(asked.rt, "-o names a file: the map is written beside it"));
    }
    match written_name(asked.rt, output)? {
        Some(name) => Ok(name),
        None => Err(failure_of(
            asked.alloc(),
            output,
            "is a link to nothing: name a file by -o",
        )),
    }
}

/// The path of the bundle's map.
fn output_map(alloc: Global, output: &str) -> Result<String, AllocError> {
    format!(in alloc; "{output}.map")
}

/// The comment that names the map of a bundle.
fn comment_of(alloc: Global, output: &str) -> Result<String, AllocError> {
    let name = utf8_percent_encode(file_name(output), bytes_to_escape()).into_cow(alloc)?;
    match language_of(output) {
        Language::JavaScript => format!(in alloc; "//# sourceMappingURL={name}.map\n"),
        Language::Css => format!(in alloc; "/*# sourceMappingURL={name}.map */\n"),
    }
}

/// Writes the code, with a comment that names the map, and the map.
fn write(asked: &Asked<'_, '_>, output: String, bundle: Bundle, limit: u64) -> Outcome<()> {
    let alloc = asked.alloc();
    let (mut code, parts) = bundle.finish(alloc)?;
    code.push_str(comment_of(alloc, output.as_str())?.as_str())?;
    let mut map = SourceMap::from_parts(parts);
    map.set_file(alloc, file_name(output.as_str()))?;
    let path = output_map(alloc, output.as_str())?;
    let text = limited_json(alloc, path.as_str(), parts_of(&map), limit)?;
    let files = [
        (path.as_str(), text.as_str().as_bytes()),
        (output.as_str(), code.as_str().as_bytes()),
    ];
    write_files(asked.rt, &files)
}

/// Runs the command `bundle`.
pub fn run(asked: &Asked<'_, '_>) -> Outcome<Status> {
    let alloc = asked.alloc();
    let output = output_of(asked)?;
    let limit = limit_of(asked)?;
    let files = asked.words("FILE")?;
    let mut progress = Progress::new(asked.rt, files.len());
    let mut bundle = Bundle::new(alloc);
    let mut out = String::new(alloc);
    for file in &files {
        progress.begin(asked.rt, file);
        refuse_overwriting(asked, file, output.as_str())?;
        push_file(asked, file, output.as_str(), &mut bundle, &mut out)?;
    }
    progress.clear(asked.rt);
    write(asked, output, bundle, limit)?;
    if asked.has("json") {
        print(asked.rt, out.as_str())?;
    }
    Ok(Status::Found)
}
