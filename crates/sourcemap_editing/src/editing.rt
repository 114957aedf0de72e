//! Changes the texts of maps at some places, and writes them to their own files or to others.
use oxc_sourcemap_parts::{SourceMapParts, apply_root};
use sourcemap_files::{
    Asked, MapText, Progress, Written, map_of_file, parts_in, read_map, refuse_overwriting,
    section_maps, tell, text_of_map, usage, write_text,
};
use sourcemap_words::{Failure, Outcome, failure_of};
use std::alloc::Global;

/// The file that a changed map is written to: that of `-o`, or else the map's own.
fn output_of<'o>(asked: &'o Asked<'_, '_>, map: &'o MapText) -> Outcome<&'o str> {
    let (file, output, name) = (asked.word("MAP"), asked.word("output"), map.name.as_str());
    let is_compiled = matches!(&map.written, Written::Compiled(_));
    if !output.is_empty() {
        if file != "-" && (is_compiled || file != name) {
            refuse_overwriting(asked, file, output)?;
        }
        return Ok(output);
    }
    if is_compiled {
        let text = "is compiled: name the file for its map by -o";
        return Err(failure_of(asked.alloc(), name, text));
    }
    if map.is_file {
        return Ok(name);
    }
    if file == "-" {
        return Ok("-");
    }
    Err(failure_of(
        asked.alloc(),
        name,
        "has no file of its own: name one by -o",
    ))
}

/// A map that is changed, and the file that it is written to.
#[derive(Drop)]
pub struct Edited {
    /// The map's name, for messages, and the folder of its sources.
    pub name: String,
    pub folder: String,
    /// Its text, and how many contents it has.
    pub text: String,
    pub contents: usize,
    pub output: String,
}

/// Whether the text of a map is a data URL that has the map in it.
pub fn is_data_url(text: &str) -> bool {
    text.trim_start_matches('\u{feff}')
        .trim_start()
        .starts_with("data:")
}

/// The text of a map, and how many contents it has.
fn text_of(asked: &Asked<'_, '_>, map: &MapText) -> Outcome<(String, usize)> {
    let (rt, alloc) = (asked.rt, asked.alloc());
    if let Written::Text(text) = &map.written {
        let contents = contents_in(&read_map(rt, map)?);
        if is_data_url(text.as_str()) {
            return Err(refusal(alloc, map.name.as_str()));
        }
        return Ok((String::from_str(alloc, text.as_str())?, contents));
    }
    let mut text = text_of_map(rt, map)?;
    let contents = contents_in(&parts_in(alloc, map.name.as_str(), text.as_str())?);
    text.push('\n')?;
    Ok((text, contents))
}

/// The map that a command is to change.
pub fn map_to_edit(asked: &Asked<'_, '_>) -> Outcome<Edited> {
    let map = map_of_file(asked.rt, asked.word("MAP"), asked.places())?;
    let output = String::from_str(asked.alloc(), output_of(asked, &map)?)?;
    if asked.has("json") && output.as_str() == "-" {
        return Err(usage(
            asked.rt,
            "--json needs -o, as the map is on standard output without it",
        ));
    }
    let (text, contents) = text_of(asked, &map)?;
    let MapText { name, folder, .. } = map;
    Ok(Edited {
        name,
        folder,
        text,
        contents,
        output,
    })
}

/// The map of a text, or those of the sections of an indexed one, each with its source root applied.
pub fn rooted_maps(rt: &HostRuntime, map: &MapText) -> Outcome<Vec<SourceMapParts<'static>>> {
    let alloc = rt.alloc();
    let whole = read_map(rt, map)?;
    let mut maps = match &map.written {
        Written::Text(text) => section_maps(alloc, map.name.as_str(), text.as_str())?,
        Written::Compiled(_) => Vec::new(alloc),
    };
    if maps.is_empty() {
        maps.push(whole)?;
    }
    for map in maps.as_mut_slice() {
        apply_root(alloc, map)?;
    }
    Ok(maps)
}

/// Whether a command succeeded for a file. Reports a failure of the file, so that the others go on.
pub fn is_done(rt: &HostRuntime, progress: &Progress, done: Outcome<()>) -> Outcome<bool> {
    match done {
        Ok(()) => Ok(true),
        Err(Failure::Told(text)) => {
            progress.clear(rt);
            tell(rt, text.as_str());
            Ok(false)
        }
        Err(failure) => Err(failure),
    }
}

/// How many contents a map has.
pub fn contents_in(parts: &SourceMapParts<'_>) -> usize {
    parts
        .source_contents
        .iter()
        .filter(|content| content.is_some())
        .count()
}

/// The failure of a map whose text cannot be changed in place: a data URL, or one whose keys have escapes.
pub fn refusal(alloc: Global, name: &str) -> Failure {
    failure_of(
        alloc,
        name,
        "cannot be changed as it is written: write it anew by `sourcemap remap` first",
    )
}

impl Edited {
    /// Writes the changed text, if it is that of a map with this number of contents. An unchanged text is not written to its own file.
    pub fn write(
        &self,
        asked: &Asked<'_, '_>,
        text: Option<String>,
        contents: usize,
    ) -> Outcome<u64> {
        let (alloc, name) = (asked.alloc(), self.name.as_str());
        let Some(text) = text else {
            return Err(refusal(alloc, name));
        };
        if contents_in(&parts_in(alloc, name, text.as_str())?) != contents {
            return Err(refusal(alloc, name));
        }
        if text.as_str() != self.text.as_str() || self.output.as_str() != name {
            write_text(asked.rt, self.output.as_str(), text.as_str())?;
        }
        Ok(text.len() as u64)
    }
}
