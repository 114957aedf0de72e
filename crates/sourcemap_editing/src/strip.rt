//! `strip`: a map without the contents of its sources.
use crate::editing::map_to_edit;
use sourcemap_files::{Asked, Status, print};
use sourcemap_run::{cut_contents, push_number_member, push_object, push_text_member};
use sourcemap_words::Outcome;
use std::alloc::Global;

/// The object of `--json`.
fn object_of(alloc: Global, map: &str, output: &str, contents: u64, bytes: u64) -> Outcome<String> {
    let mut members = String::new(alloc);
    push_text_member("map", map, &mut members)?;
    push_text_member("output", output, &mut members)?;
    push_number_member(alloc, "contents", contents, &mut members)?;
    push_number_member(alloc, "bytes", bytes, &mut members)?;
    let mut object = String::new(alloc);
    push_object(members.as_str(), &mut object)?;
    object.push('\n')?;
    Ok(object)
}

/// Runs the command `strip`.
pub fn run(asked: &Asked<'_, '_>) -> Outcome<Status> {
    let (rt, alloc) = (asked.rt, asked.alloc());
    let edited = map_to_edit(asked)?;
    let bytes = edited.write(asked, cut_contents(alloc, edited.text.as_str())?, 0)?;
    if asked.has("json") {
        let (map, output) = (edited.name.as_str(), edited.output.as_str());
        let object = object_of(alloc, map, output, edited.contents as u64, bytes)?;
        print(rt, object.as_str())?;
    }
    Ok(Status::Found)
}
