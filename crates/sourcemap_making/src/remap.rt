//! `remap`: a map traced through the maps of its sources.
use crate::rebasing::rebase;
use oxc_sourcemap_map::{SourceMap, parts_of};
use sourcemap_files::{
    Asked, MapText, Status, first_sources, folder_of, followed, limit_of, limited_json,
    map_of_file, print, read_without_scopes, usage, warn, write_text,
};
use sourcemap_run::{push_number_member, push_object, push_text_member};
use sourcemap_words::{Outcome, failure_of};
use std::alloc::Global;

/// A map traced through inputs. It owns its strings.
fn remap_by(
    alloc: Global,
    map: &SourceMap<'_>,
    inputs: &[(String, SourceMap<'static>)],
) -> Outcome<SourceMap<'static>> {
    let mut lent = Vec::new(alloc);
    for (path, input) in inputs {
        lent.push((path.as_str(), input))?;
    }
    let led = map.remap(alloc, lent.as_slice())?;
    Ok(led.into_owned(alloc)?)
}

/// The maps of the arguments `PATH=MAP`, their sources relative to the folder of the outer map.
fn given_inputs(asked: &Asked<'_, '_>, folder: &str) -> Outcome<Vec<(String, SourceMap<'static>)>> {
    let alloc = asked.alloc();
    let mut inputs = Vec::new(alloc);
    let words = asked.words("PATH=MAP")?;
    for word in &words {
        let Some((path, file)) = word.rsplit_once('=') else {
            return Err(failure_of(
                alloc,
                word,
                "write PATH=MAP, the path of a source and its map",
            ));
        };
        let text = map_of_file(asked.rt, file, asked.places())?;
        let mut parts = read_without_scopes(asked.rt, &text)?;
        rebase(asked.rt, &mut parts, text.folder.as_str(), folder)?;
        inputs.push((String::from_str(alloc, path)?, SourceMap::from_parts(parts)))?;
    }
    Ok(inputs)
}

/// Warns of inputs that are for no source.
fn warn_unused(
    asked: &Asked<'_, '_>,
    map: &SourceMap<'_>,
    inputs: &[(String, SourceMap<'static>)],
) -> Outcome<()> {
    let alloc = asked.alloc();
    for (path, _) in inputs {
        if !map.get_sources().any(|source| source == path.as_str()) {
            let sources = first_sources(alloc, parts_of(map).sources.as_slice())?;
            let why = format!(in alloc;
                "is no source of the map, so its map is not used; the sources are {sources}"
            )?;
            warn(asked.rt, path.as_str(), why.as_str());
        }
    }
    Ok(())
}

fn summary(
    alloc: Global,
    asked: &Asked<'_, '_>,
    map: &SourceMap<'_>,
    inputs: u64,
) -> Outcome<String> {
    let mut members = String::new(alloc);
    push_text_member("output", asked.word("output"), &mut members)?;
    push_number_member(
        alloc,
        "sources",
        map.get_sources().count() as u64,
        &mut members,
    )?;
    push_number_member(alloc, "names", map.get_names().count() as u64, &mut members)?;
    push_number_member(
        alloc,
        "tokens",
        map.get_tokens().as_slice().len() as u64,
        &mut members,
    )?;
    push_number_member(alloc, "inputs", inputs, &mut members)?;
    let mut object = String::new(alloc);
    push_object(members.as_str(), &mut object)?;
    object.push('\n')?;
    Ok(object)
}

/// How the output is named in messages.
fn shown_output(output: &str) -> &str {
    if output == "-" {
        "standard output"
    } else {
        output
    }
}

/// Writes the map to the file that is asked for, else to standard output.
fn write(asked: &Asked<'_, '_>, map: &SourceMap<'_>, inputs: u64, limit: u64) -> Outcome<Status> {
    let alloc = asked.alloc();
    let output = asked.word("output");
    let output = if output.is_empty() { "-" } else { output };
    let text = limited_json(alloc, shown_output(output), parts_of(map), limit)?;
    write_text(asked.rt, output, text.as_str())?;
    if asked.has("json") {
        print(asked.rt, summary(alloc, asked, map, inputs)?.as_str())?;
    }
    Ok(Status::Found)
}

/// A map that was read, traced through the maps of the arguments.
fn led_by_given(
    asked: &Asked<'_, '_>,
    text: &MapText,
    count: &mut u64,
) -> Outcome<SourceMap<'static>> {
    let mut map = SourceMap::from_parts(read_without_scopes(asked.rt, text)?);
    map.apply_source_root(asked.alloc())?;
    let given = given_inputs(asked, text.folder.as_str())?;
    warn_unused(asked, &map, given.as_slice())?;
    *count = given.len() as u64;
    remap_by(asked.alloc(), &map, given.as_slice())
}

fn remap_text(
    asked: &Asked<'_, '_>,
    text: &MapText,
    count: &mut u64,
) -> Outcome<SourceMap<'static>> {
    let map = led_by_given(asked, text, count)?;
    if !asked.has("follow") {
        return Ok(map);
    }
    let (parts, followed) = followed(asked.rt, asked.places(), text, map.into_parts())?;
    if followed == 0 {
        warn(
            asked.rt,
            text.name.as_str(),
            "no source of it is there with a map, so none is followed",
        );
    }
    *count = count.saturating_add(followed);
    Ok(SourceMap::from_parts(parts))
}

/// Makes the sources relative to the folder of the output, and leaves out what is asked to be.
fn finish(
    asked: &Asked<'_, '_>,
    map: SourceMap<'static>,
    folder: &str,
) -> Outcome<SourceMap<'static>> {
    let output = asked.word("output");
    let mut parts = map.into_parts();
    if !output.is_empty() {
        rebase(asked.rt, &mut parts, folder, folder_of(output))?;
    }
    let mut map = SourceMap::from_parts(parts);
    if asked.has("simplify") {
        map.simplify(asked.alloc())?;
    }
    Ok(map)
}

/// Runs the command `remap`.
pub fn run(asked: &Asked<'_, '_>) -> Outcome<Status> {
    if asked.has("json") && asked.word("output").is_empty() {
        return Err(usage(
            asked.rt,
            "--json needs -o, as the map is on standard output without it",
        ));
    }
    let limit = limit_of(asked)?;
    let text = map_of_file(asked.rt, asked.word("MAP"), asked.places())?;
    let mut count = 0;
    let map = remap_text(asked, &text, &mut count)?;
    let map = finish(asked, map, text.folder.as_str())?;
    write(asked, &map, count, limit)
}
