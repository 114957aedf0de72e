//! The maps of codes by their debug ids.
use serde_json::Value;
use sourcemap_files::{Asked, MapText, Written, files_below, map_of_file, read_text, tell, usage};
use sourcemap_run::{are_same_ids, debug_id_of_map};
use sourcemap_words::{Failure, Outcome, failure_of};
use std::alloc::Global;

/// A map in a file, by its debug id.
#[derive(Drop)]
struct OwnId {
    id: String,
    path: String,
}

/// The debug ids of codes, as the file of `--debug-id-map` has them, and those of maps.
#[derive(Drop)]
pub struct DebugIds {
    /// An object with a debug id for each code; None if none is given.
    given: Option<Value>,
    /// The maps below the folder of maps, or else below the root, that have a debug id; None until one is needed.
    maps: Option<Vec<OwnId>>,
}

/// What was found for a code by its debug id.
#[derive(Drop)]
pub enum ById {
    /// No debug id is given for the code.
    Unknown,
    Map(MapText),
    /// Why there is no map.
    None(String),
}

/// The debug id in the map of a file; None if it has none. A file that cannot be read is reported.
fn id_in_file(asked: &Asked<'_, '_>, path: &str) -> Outcome<Option<String>> {
    let alloc = asked.alloc();
    let text = match read_text(asked.rt, path) {
        Ok(text) => text,
        Err(Failure::Told(why)) => {
            tell(asked.rt, why.as_str());
            return Ok(None);
        }
        Err(failure) => return Err(failure),
    };
    Ok(match debug_id_of_map(alloc, text.as_str())? {
        Some(id) => Some(String::from_str(alloc, id)?),
        None => None,
    })
}

/// The maps below a folder that have a debug id. Folders that cannot be looked through are reported.
fn maps_by_id(asked: &Asked<'_, '_>, folder: &str) -> Outcome<Vec<OwnId>> {
    let mut maps = Vec::new(asked.alloc());
    let folder = if folder.is_empty() { "." } else { folder };
    let listed = files_below(asked.rt, folder)?;
    for failure in &listed.failures {
        tell(asked.rt, failure.as_str());
    }
    for path in listed.files {
        if path.as_str().ends_with(".map")
            && let Some(id) = id_in_file(asked, path.as_str())?
        {
            maps.push(OwnId { id, path })?;
        }
    }
    Ok(maps)
}

/// The map in a file, if it is there and still has this debug id.
fn map_in_file(asked: &Asked<'_, '_>, path: &str, id: &str) -> Outcome<Option<MapText>> {
    let map = match map_of_file(asked.rt, path, asked.places()) {
        Ok(map) => map,
        Err(Failure::Told(_)) => return Ok(None),
        Err(failure) => return Err(failure),
    };
    let is_same = match &map.written {
        Written::Text(text) => debug_id_of_map(asked.alloc(), text.as_str())?.is_some_and(
            |own| are_same_ids(own, id),
        ),
        Written::Compiled(_) => false,
    };
    Ok(is_same.then(|| map))
}

/// The folder with the maps: that of `--maps`, else the root.
fn folder_of_maps<'a>(asked: &'a Asked<'_, '_>) -> &'a str {
    asked.maps.as_deref().unwrap_or(asked.root.as_str())
}

/// The object with debug ids in a text.
fn object_in(alloc: Global, path: &str, text: &str) -> Outcome<Value> {
    match Value::from_str(alloc, text.trim_start_matches('\u{feff}')) {
        Ok(value) if value.is_object() => Ok(value),
        Err(error) if error.is_memory() => Err(Failure::Memory),
        _ => {
            let why = "has no JSON object of debug ids, by the names of codes";
            Err(failure_of(alloc, path, why))
        }
    }
}

/// A debug id, if it is a UUID.
fn uuid_in(value: &Value) -> Option<&str> {
    value.as_str().filter(|id| are_same_ids(id, id))
}

/// What an object has for a file by its name, or by that without a query or a fragment.
fn value_of<'v>(given: &'v Value, file: &str) -> Option<&'v Value> {
    let end = file.find(['?', '#'].as_slice()).unwrap_or(file.len());
    given
        .get(file)
        .or_else(|| given.get(file.get(..end).unwrap_or(file)))
}

impl DebugIds {
    /// The debug ids in the file of `--debug-id-map`. Fails if that has no JSON object.
    pub fn new(asked: &Asked<'_, '_>) -> Outcome<DebugIds> {
        let path = asked.word("debug-id-map");
        let mut given = None;
        if path == "-" {
            let why = "standard input may be the trace: name a file by --debug-id-map";
            return Err(usage(asked.rt, why));
        }
        if !path.is_empty() {
            let text = read_text(asked.rt, path)?;
            given = Some(object_in(asked.alloc(), path, text.as_str())?);
        }
        Ok(DebugIds { given, maps: None })
    }

    /// The path of the map that has a debug id. The maps are listed if they are not.
    fn path_with(&mut self, asked: &Asked<'_, '_>, id: &str) -> Outcome<Option<String>> {
        if self.maps.is_none() {
            self.maps = Some(maps_by_id(asked, folder_of_maps(asked))?);
        }
        let maps = self.maps.as_deref().unwrap_or(&[]);
        match maps.iter().find(|map| are_same_ids(map.id.as_str(), id)) {
            Some(map) => Ok(Some(String::from_str(asked.alloc(), map.path.as_str())?)),
            None => Ok(None),
        }
    }

    /// The map that has a debug id. Where that of the list is gone or has another id by now, the maps are listed once again.
    fn map_with(&mut self, asked: &Asked<'_, '_>, id: &str) -> Outcome<Option<MapText>> {
        for _ in 0..2 {
            let Some(path) = self.path_with(asked, id)? else {
                return Ok(None);
            };
            if let Some(map) = map_in_file(asked, path.as_str(), id)? {
                return Ok(Some(map));
            }
            self.maps = None;
        }
        Ok(None)
    }

    /// The map that has the debug id of a code.
    pub fn find(&mut self, asked: &Asked<'_, '_>, file: &str) -> Outcome<ById> {
        let alloc = asked.alloc();
        let given = self.given.as_ref();
        let id = match given.and_then(|given| value_of(given, file)) {
            None => return Ok(ById::Unknown),
            Some(value) => match uuid_in(value) {
                Some(id) => String::from_str(alloc, id)?,
                None => {
                    let why = format!(in alloc; "the debug id of {file} is no UUID")?;
                    return Ok(ById::None(why));
                }
            },
        };
        if let Some(map) = self.map_with(asked, id.as_str())? {
            return Ok(ById::Map(map));
        }
        let folder = match folder_of_maps(asked) {
            "" => "the current folder",
            folder => folder,
        };
        let advice = match asked.maps {
            Some(_) => "",
            None => ": name its folder by --maps",
        };
        Ok(ById::None(format!(in alloc;
            "no map in {folder} has the debug id {id} of {file}{advice}"
        )?))
    }
}
