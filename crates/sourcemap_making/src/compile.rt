//! `compile`: maps as bytes in which positions are looked up in place.
use oxc_sourcemap_parts::SourceMapParts;
use sourcemap_files::{
    Asked, COMPILED_END, CONTENTS_END, MapText, Progress, Status, Written, compiled_of, file_name,
    folder_of, is_inside, is_regular, map_of_file, place_of, print, read_without_scopes,
    refuse_overwriting, take_contents, tell, usage, warn, with_slash, write_files,
};
use sourcemap_run::{push_number_member, push_object, push_text_member};
use sourcemap_words::{Failure, Outcome, failure_of};
use std::fs;

/// A compiled map, or the contents that are apart from it, and the file that it is written to.
#[derive(Drop)]
struct Made {
    /// How its map is named in messages.
    map: String,
    output: String,
    /// The name of the output without links and dots.
    place: String,
    bytes: Vec<u8>,
}

/// The file that is made of the map of a file, by the end of its name: beside the map, or in the folder of `-o`. A map in a code is
/// named as one beside it would be.
fn output_of(asked: &Asked<'_, '_>, file: &str, map: &MapText, end: &str) -> Outcome<String> {
    let alloc = asked.alloc();
    let (name, dot_map) = if map.is_file {
        (map.name.as_str(), "")
    } else {
        (file, ".map")
    };
    let output = asked.word("output");
    if output.is_empty() {
        return Ok(format!(in alloc; "{name}{dot_map}{end}")?);
    }
    let folder = with_slash(alloc, output)?;
    Ok(format!(in alloc; "{folder}{}{dot_map}{end}", file_name(name))?)
}

/// A map that is compiled: its text, and the file that was named for it.
#[derive(Clone, Copy)]
struct Source<'a> {
    file: &'a str,
    map: &'a MapText,
    text: &'a str,
}

/// Compiles parts of a map, for the file with this end of its name.
fn made_with(
    asked: &Asked<'_, '_>,
    of: Source<'_>,
    parts: &SourceMapParts<'_>,
    end: &str,
) -> Outcome<Made> {
    let name = of.map.name.as_str();
    let output = output_of(asked, of.file, of.map, end)?;
    refuse_overwriting(asked, name, output.as_str())?;
    Ok(Made {
        map: String::from_str(asked.alloc(), name)?,
        place: place_of(asked.rt, output.as_str())?,
        output,
        bytes: compiled_of(asked.alloc(), name, parts, of.text)?,
    })
}

/// Refuses to write contents where no command reads them: by a link out of the folder of the compiled map.
fn refuse_leaving(asked: &Asked<'_, '_>, output: &str) -> Outcome<()> {
    let is_there = fs::symlink_metadata(asked.rt, output).is_ok();
    if is_there && !is_inside(asked.rt, output, folder_of(output)) {
        return Err(failure_of(
            asked.alloc(),
            output,
            "leads out of its folder, so no command would read it",
        ));
    }
    Ok(())
}

/// Reads the map of a file, and compiles it: to one file, or to another one with the contents too.
fn made_of(asked: &Asked<'_, '_>, file: &str) -> Outcome<Vec<Made>> {
    let (rt, alloc) = (asked.rt, asked.alloc());
    if file == "-" {
        return Err(usage(
            rt,
            "standard input has no name for its compiled map: name a file",
        ));
    }
    let map = map_of_file(rt, file, asked.places())?;
    let Written::Text(text) = &map.written else {
        return Err(failure_of(
            alloc,
            map.name.as_str(),
            "is compiled already: name its map",
        ));
    };
    let of = Source {
        file,
        map: &map,
        text: text.as_str(),
    };
    let mut parts = read_without_scopes(rt, &map)?;
    let mut all = Vec::new(alloc);
    if asked.has("contents-apart") {
        let apart = take_contents(alloc, &mut parts)?;
        let apart = made_with(asked, of, &apart, CONTENTS_END)?;
        refuse_leaving(asked, apart.output.as_str())?;
        all.push(apart)?;
    } else if asked.has("no-contents") {
        take_contents(alloc, &mut parts)?;
    }
    all.push(made_with(asked, of, &parts, COMPILED_END)?)?;
    Ok(all)
}

/// Refuses to write two maps to one file.
fn refuse_twice(asked: &Asked<'_, '_>, all: &[Made], new: &[Made]) -> Outcome<()> {
    for one in new {
        if all.iter().any(|made| made.place == one.place) {
            return Err(failure_of(
                asked.alloc(),
                one.output.as_str(),
                "would be written twice: name each map once, and those of one name apart",
            ));
        }
    }
    Ok(())
}

/// Writes the compiled maps.
fn write(asked: &Asked<'_, '_>, all: &[Made]) -> Outcome<()> {
    let mut files = Vec::new(asked.alloc());
    for made in all {
        files.push((made.output.as_str(), made.bytes.as_slice()))?;
    }
    write_files(asked.rt, files.as_slice())
}

/// Warns of contents beside compiled maps which are written without them.
fn tell_left(asked: &Asked<'_, '_>, all: &[Made]) -> Outcome<()> {
    if asked.has("contents-apart") {
        return Ok(());
    }
    for made in all {
        let output = made.output.as_str();
        let name = output.strip_suffix(COMPILED_END).unwrap_or(output);
        let left = format!(in asked.alloc(); "{name}{CONTENTS_END}")?;
        if is_regular(asked.rt, left.as_str()) {
            let why = "is left as it was: remove it, or compile with --contents-apart";
            warn(asked.rt, left.as_str(), why);
        }
    }
    Ok(())
}

/// The objects of `--json`, one a line.
fn objects_of(asked: &Asked<'_, '_>, all: &[Made]) -> Outcome<String> {
    let alloc = asked.alloc();
    let mut out = String::new(alloc);
    for made in all {
        let mut members = String::new(alloc);
        push_text_member("map", made.map.as_str(), &mut members)?;
        push_text_member("output", made.output.as_str(), &mut members)?;
        push_number_member(alloc, "bytes", made.bytes.len() as u64, &mut members)?;
        push_object(members.as_str(), &mut out)?;
        out.push('\n')?;
    }
    Ok(out)
}

/// Compiles the map of a file, unless one of these is written to the same file.
fn made_after(asked: &Asked<'_, '_>, all: &[Made], file: &str) -> Outcome<Vec<Made>> {
    let made = made_of(asked, file)?;
    refuse_twice(asked, all, made.as_slice())?;
    Ok(made)
}

/// Runs the command `compile`. Reports each file that has no map or cannot be compiled, and compiles the others.
pub fn run(asked: &Asked<'_, '_>) -> Outcome<Status> {
    let files = asked.words("FILE")?;
    let mut progress = Progress::new(asked.rt, files.len());
    let mut all = Vec::new(asked.alloc());
    let mut trouble = None;
    for file in &files {
        progress.begin(asked.rt, file);
        match made_after(asked, all.as_slice(), file) {
            Ok(mut made) => all.append(&mut made)?,
            Err(Failure::Told(text)) => {
                progress.clear(asked.rt);
                tell(asked.rt, text.as_str());
                trouble = Some(*file);
            }
            Err(failure) => return Err(failure),
        }
    }
    progress.clear(asked.rt);
    write(asked, all.as_slice())?;
    tell_left(asked, all.as_slice())?;
    if asked.has("json") {
        print(asked.rt, objects_of(asked, all.as_slice())?.as_str())?;
    }
    match trouble {
        Some(file) => Err(failure_of(asked.alloc(), file, "was not compiled, see above")),
        None => Ok(Status::Found),
    }
}
