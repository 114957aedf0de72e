//! The maps of the files that frames name, and their answers for the places of frames.
use crate::code::Code;
use crate::debug_ids::{ById, DebugIds};
use crate::functions::{called_name, declared_name, identifier_of};
use crate::reading::read_parts;
use oxc_sourcemap_parts::SourceMapParts;
use oxc_sourcemap_scopes::{Frames, Scopes};
use oxc_sourcemap_tokens::Position;
use sourcemap_files::{
    Asked, CodeFile, InputPrefix, Lookup, MapText, Places, Sought, SourceNames, find_code, is_file,
    is_in_root, map_by_name, map_of_code, map_without_code, read_text, scopes_of_map,
};
use sourcemap_run::{Answer, Bias, Target, Tracer, answer_to, frame_position};
use sourcemap_words::{Failure, Named, Outcome};
use std::alloc::{AllocError, Global};
use std::collections::HashMap;

/// Why a frame stays as it is, in short.
#[derive(Clone, Copy, PartialEq, Eq)]
pub enum Reason {
    NotThere,
    NoMap,
    PastEnd,
    NotMapped,
    Elsewhere,
}

/// How many reasons there are.
pub const REASONS: [Reason; 5] = [
    Reason::NotThere,
    Reason::NoMap,
    Reason::PastEnd,
    Reason::NotMapped,
    Reason::Elsewhere,
];

/// Why a frame stays as it is.
#[derive(Drop)]
pub struct Stay {
    pub reason: Reason,
    pub why: String,
}

/// By which part of its path a code was found.
#[derive(Drop)]
pub enum Matched {
    /// All of its path was there.
    Whole,
    /// What is behind a prefix of it.
    Prefix { prefix: String, path: String },
    /// The name of its map alone.
    Name { map: String },
    /// Its debug id, which its map has.
    Id { map: String },
}

/// The result for a frame: where to look, or why it stays.
#[derive(Drop)]
pub struct Led {
    pub target: Option<Target>,
    pub stay: Option<Stay>,
    pub matched: Matched,
    /// The frames of the source, if the map has scopes that cover the place.
    pub source: Option<Frames>,
    /// Else the id of the name that the function of the frame has in the source, if the mappings have one.
    pub function: Option<u32>,
    /// Whether the map ignores the source.
    pub is_ignored: bool,
}

/// The map of a file, and what is known of its code.
#[derive(Drop)]
struct KnownMap {
    number: usize,
    matched: Matched,
    /// The code, if it is there.
    code: Option<Code>,
}

#[derive(Drop)]
enum Known {
    Map(KnownMap),
    None(Stay),
}

/// The maps of the files that frames name, each read once.
#[derive(Drop)]
pub struct Maps {
    files: HashMap<String, Known>,
    pub tracers: Vec<Tracer>,
    pub names: Vec<String>,
    /// Of each map the folder that its sources are relative to.
    pub folders: Vec<String>,
    /// Of each map the scopes, if it has some and they are asked for.
    pub scopes: Vec<Option<Scopes>>,
    /// Of each map which of its sources it ignores.
    ignored: Vec<Vec<bool>>,
    pub source_names: SourceNames,
    /// Whether functions have the names of the source.
    has_source_functions: bool,
    input: InputPrefix,
    ids: DebugIds,
}

/// What was found for a file that frames name.
#[derive(Drop)]
struct Search {
    lookup: Lookup,
    reason: Reason,
    matched: Matched,
    code: Option<Code>,
}

/// Which of its sources a map ignores; of a map that has no such list no source is named.
fn ignored_of(alloc: Global, parts: &SourceMapParts<'_>) -> Result<Vec<bool>, AllocError> {
    let mut ignored = Vec::new(alloc);
    let Some(ids) = &parts.ignore_list else {
        return Ok(ignored);
    };
    ignored.resize(parts.sources.len(), false)?;
    for id in ids {
        if let Some(is_ignored) = ignored.get_mut(*id as usize) {
            *is_ignored = true;
        }
    }
    Ok(ignored)
}

impl KnownMap {
    /// The path of the code, if it is there and has no such position.
    fn past_end(&self, position: Position) -> Option<&str> {
        let code = self.code.as_ref()?;
        if code.has(position) {
            None
        } else {
            Some(code.path.as_str())
        }
    }
}

impl Matched {
    fn copy(&self, alloc: Global) -> Result<Matched, AllocError> {
        Ok(match self {
            Matched::Whole => Matched::Whole,
            Matched::Prefix { prefix, path } => Matched::Prefix {
                prefix: String::from_str(alloc, prefix.as_str())?,
                path: String::from_str(alloc, path.as_str())?,
            },
            Matched::Name { map } => Matched::Name {
                map: String::from_str(alloc, map.as_str())?,
            },
            Matched::Id { map } => Matched::Id {
                map: String::from_str(alloc, map.as_str())?,
            },
        })
    }
}

impl Led {
    fn stays(reason: Reason, why: String, matched: Matched) -> Led {
        Led {
            target: None,
            stay: Some(Stay { reason, why }),
            matched,
            source: None,
            function: None,
            is_ignored: false,
        }
    }
}

fn link_out(alloc: Global, path: &str) -> Result<Lookup, AllocError> {
    Ok(Lookup::None(format!(in alloc; "{path} is a link out of the root: allow it by --outside")?))
}

/// The map of a code that is there, and the code. Of a code that is no text, as bytecode, the map beside it.
fn map_of_text(
    asked: &Asked<'_, '_>,
    path: &str,
    places: Places<'_>,
) -> Outcome<(Lookup, Option<Code>)> {
    let (rt, alloc) = (asked.rt, asked.alloc());
    match read_text(rt, path) {
        Ok(text) => {
            let lookup = map_of_code(rt, path, text.as_str(), places)?;
            Ok((lookup, Some(Code::new(alloc, path, text)?)))
        }
        Err(Failure::Told(why)) => match map_without_code(rt, path, places)? {
            Some(found) => Ok((found, None)),
            None => Ok((Lookup::None(why), None)),
        },
        Err(failure) => Err(failure),
    }
}

/// Where to look for files; compiled maps are used.
fn places_of<'a>(asked: &'a Asked<'_, '_>) -> Places<'a> {
    Places {
        takes_compiled: true,
        ..asked.places()
    }
}

/// The map of a code that was found.
fn search_code(asked: &Asked<'_, '_>, file: &str, found: CodeFile) -> Outcome<Search> {
    let (rt, alloc) = (asked.rt, asked.alloc());
    let CodeFile {
        path,
        folder,
        prefix,
    } = found;
    let is_package = file
        .split(['/', '\\'].as_slice())
        .any(|part| part == "node_modules");
    let places = places_of(asked);
    let places = Places {
        root: folder.as_str(),
        maps: if is_package { None } else { places.maps },
        ..places
    };
    let (lookup, code) = if !is_file(rt, path.as_str()) {
        match map_without_code(rt, path.as_str(), places)? {
            Some(found) => (found, None),
            None => (
                link_out(alloc, format!(in alloc; "{path}.map")?.as_str())?,
                None,
            ),
        }
    } else if !is_in_root(rt, path.as_str(), places) {
        (link_out(alloc, path.as_str())?, None)
    } else {
        map_of_text(asked, path.as_str(), places)?
    };
    let matched = match prefix {
        Some(prefix) => Matched::Prefix { prefix, path },
        None => Matched::Whole,
    };
    Ok(Search {
        lookup,
        reason: Reason::NoMap,
        matched,
        code,
    })
}

/// How a root is named in messages.
fn shown_root(root: &str) -> &str {
    if root.is_empty() {
        "the current folder"
    } else {
        root
    }
}

/// The URL of the folder of a file that a URL of a host names.
fn folder_of_url(file: &str) -> Option<&str> {
    if !file.starts_with("http://") && !file.starts_with("https://") {
        return None;
    }
    let (folder, _) = file.rsplit_once('/')?;
    Some(folder)
}

/// Why no code is known for a file that frames name.
fn not_there(asked: &Asked<'_, '_>, file: &str, sought: &Sought) -> Result<String, AllocError> {
    let alloc = asked.alloc();
    let root = asked.root.as_str();
    let shown = shown_root(root);
    match sought {
        Sought::Maybe { prefix, path } => {
            let folder = if root.is_empty() { "." } else { root };
            format!(in alloc;
                "{file} is not in {shown}: if it is {path}, say so by --prefix {prefix}={folder}"
            )
        }
        Sought::NotIn(folder) => {
            format!(in alloc; "{file} is not in {folder}, where --prefix says that it is")
        }
        _ => match folder_of_url(file) {
            Some(url) => format!(in alloc;
                "{file} is not in {shown}: name the folder of its codes by --prefix {url}=DIR"
            ),
            None => format!(in alloc; "{file} is not in {shown}: name its folder by --root"),
        },
    }
}

/// The map of a file that frames name, or why there is none.
fn search_file(asked: &Asked<'_, '_>, input: &mut InputPrefix, file: &str) -> Outcome<Search> {
    let (rt, places) = (asked.rt, places_of(asked));
    let sought = match find_code(rt, file, places, input)? {
        Sought::Code(found) => return search_code(asked, file, found),
        sought => sought,
    };
    if let Some(Lookup::Map(map)) = map_by_name(rt, file, places)? {
        let name = String::from_str(asked.alloc(), map.name.as_str())?;
        return Ok(Search {
            lookup: Lookup::Map(map),
            reason: Reason::NoMap,
            matched: Matched::Name { map: name },
            code: None,
        });
    }
    Ok(Search {
        lookup: Lookup::None(not_there(asked, file, &sought)?),
        reason: Reason::NotThere,
        matched: Matched::Whole,
        code: None,
    })
}

/// The result of a search for a code by its debug id; None if none is given for it.
fn search_by_id(asked: &Asked<'_, '_>, found: ById) -> Outcome<Option<Search>> {
    let (lookup, matched) = match found {
        ById::Unknown => return Ok(None),
        ById::Map(map) => {
            let name = String::from_str(asked.alloc(), map.name.as_str())?;
            (Lookup::Map(map), Matched::Id { map: name })
        }
        ById::None(why) => (Lookup::None(why), Matched::Whole),
    };
    Ok(Some(Search {
        lookup,
        reason: Reason::NoMap,
        matched,
        code: None,
    }))
}

impl Maps {
    pub fn new(asked: &Asked<'_, '_>) -> Outcome<Maps> {
        let alloc = asked.alloc();
        Ok(Maps {
            files: HashMap::new(alloc),
            tracers: Vec::new(alloc),
            names: Vec::new(alloc),
            folders: Vec::new(alloc),
            scopes: Vec::new(alloc),
            ignored: Vec::new(alloc),
            source_names: SourceNames::new(asked)?,
            has_source_functions: asked.word("names") != "code",
            input: asked.input_prefix()?,
            ids: DebugIds::new(asked)?,
        })
    }

    /// The map of a file that frames name, or why there is none: by its debug id, if that is given, else by its path.
    fn search(&mut self, asked: &Asked<'_, '_>, file: &str) -> Outcome<Search> {
        match search_by_id(asked, self.ids.find(asked, file)?)? {
            Some(found) => Ok(found),
            None => search_file(asked, &mut self.input, file),
        }
    }

    /// Reads the map of a file. If the map cannot be read, that is reported as the reason why frames stay.
    fn load(&mut self, asked: &Asked<'_, '_>, file: &str) -> Outcome<Known> {
        let Search {
            lookup,
            reason,
            matched,
            code,
        } = self.search(asked, file)?;
        let text = match lookup {
            Lookup::Map(text) => text,
            Lookup::None(why) => return Ok(Known::None(Stay { reason, why })),
        };
        let (parts, is_followed) = match read_parts(asked, &text) {
            Ok(read) => read,
            Err(Failure::Told(why)) => return Ok(Known::None(Stay { reason, why })),
            Err(failure) => return Err(failure),
        };
        let scopes = if is_followed {
            None
        } else {
            self.read_scopes(asked, &text)?
        };
        self.add(asked.alloc(), text, parts, scopes)?;
        Ok(Known::Map(KnownMap {
            number: self.tracers.len().saturating_sub(1),
            matched,
            code,
        }))
    }

    /// Adds a map that was read.
    fn add(
        &mut self,
        alloc: Global,
        text: MapText,
        parts: SourceMapParts<'static>,
        scopes: Option<Scopes>,
    ) -> Outcome<()> {
        let mut parts = parts;
        self.ignored.push(ignored_of(alloc, &parts)?)?;
        self.source_names.rename(text.folder.as_str(), &mut parts)?;
        self.scopes.push(scopes)?;
        self.tracers.push(Tracer::new(alloc, parts)?)?;
        self.names.push(text.name)?;
        Ok(self.folders.push(text.folder)?)
    }

    /// Reads the scopes of a map, if they are asked for. A fault of them is reported once, even if the map is read again.
    fn read_scopes(&self, asked: &Asked<'_, '_>, map: &MapText) -> Outcome<Option<Scopes>> {
        if !self.has_source_functions {
            return Ok(None);
        }
        let name = map.name.as_str();
        let is_told = self.names.iter().any(|other| other.as_str() == name);
        scopes_of_map(asked.rt, map, is_told)
    }

    /// The frames of the source that a frame at this place stands for, by the scopes of its map.
    fn source_frames(&self, alloc: Global, target: Option<Target>) -> Outcome<Option<Frames>> {
        let Some(Target { map, position }) = target else {
            return Ok(None);
        };
        let Some(Some(scopes)) = self.scopes.get(map) else {
            return Ok(None);
        };
        let found = scopes.frames_at(alloc, position.line, position.column)?;
        Ok(if found.frames.is_empty() {
            None
        } else {
            Some(found)
        })
    }

    /// The id of the source at a target.
    pub fn source_id(&self, target: Target) -> Option<u32> {
        let tracer = self.tracers.get(target.map)?;
        tracer.token(target.position, Bias::Before)?.get_source_id()
    }

    /// Whether the map of a target ignores the source there.
    fn is_ignored(&self, target: Option<Target>) -> bool {
        let Some(target) = target else {
            return false;
        };
        match self.ignored.get(target.map) {
            Some(ignored) if !ignored.is_empty() => self
                .source_id(target)
                .is_some_and(|id| ignored.get(id as usize) == Some(&true)),
            _ => false,
        }
    }

    /// The id of the name in the source of the function that a frame names so, by the place of the function in the code.
    fn declared(
        &self,
        alloc: Global,
        code: Option<&Code>,
        target: Option<Target>,
        function: &str,
    ) -> Outcome<Option<u32>> {
        if !self.has_source_functions {
            return Ok(None);
        }
        let (Some(code), Some(target), Some(identifier)) = (code, target, identifier_of(function))
        else {
            return Ok(None);
        };
        let Some(tracer) = self.tracers.get(target.map) else {
            return Ok(None);
        };
        let tokens = tracer.parts().tokens.as_slice();
        Ok(declared_name(alloc, tokens, code, target.position, identifier)?)
    }

    /// The id of the name in the source of the function that a frame names so, by the call of it in the frame of its caller. None if that
    /// is in another code.
    pub fn called(&self, function: &str, callee: &Led, caller: (&Named, &Led)) -> Option<u32> {
        if !self.has_source_functions {
            return None;
        }
        let (named, led) = caller;
        let target = led.target?;
        if callee.target?.map != target.map {
            return None;
        }
        let code = match self.files.get(named.file.as_str()) {
            Some(Known::Map(map)) => map.code.as_ref(),
            _ => None,
        };
        let tokens = self.tracers.get(target.map)?.parts().tokens.as_slice();
        called_name(tokens, code, target.position, identifier_of(function)?)
    }

    /// Reads the map of a file, if it was not read. Once the prefix of the input is known, it searches again for files that were not found.
    fn prepare(&mut self, asked: &Asked<'_, '_>, file: &str) -> Outcome<()> {
        if self.files.contains_key(file) {
            return Ok(());
        }
        let was_known = self.input.is_known();
        let known = self.load(asked, file)?;
        if self.input.is_known() && !was_known {
            self.files = HashMap::new(asked.alloc());
        }
        self.files
            .insert(String::from_str(asked.alloc(), file)?, known)?;
        Ok(())
    }

    /// The answer of the map of a file for a place in it, in a function that the frame names so.
    fn look_up(
        &self,
        alloc: Global,
        map: &KnownMap,
        named: &Named,
        function: &str,
    ) -> Outcome<Led> {
        let matched = map.matched.copy(alloc)?;
        let position = frame_position(named.line, named.column, named.is_bytecode);
        if let Some(position) = position
            && !named.is_bytecode
            && let Some(path) = map.past_end(position)
        {
            let why = format!(in alloc; "past the end of {path}, which is of another build")?;
            return Ok(Led::stays(Reason::PastEnd, why, matched));
        }
        let target = position.map(|position| Target {
            map: map.number,
            position,
        });
        let why = match answer_to(self.tracers.as_slice(), target) {
            Answer::At(_) => None,
            Answer::Unmapped => Some("unmapped position"),
            Answer::Nothing => Some("no mapping at this position"),
        };
        let stay = match why {
            Some(why) => Some(Stay {
                reason: Reason::NotMapped,
                why: String::from_str(alloc, why)?,
            }),
            None => None,
        };
        let source = self.source_frames(alloc, target)?;
        let function = if stay.is_none() && source.is_none() {
            self.declared(alloc, map.code.as_ref(), target, function)?
        } else {
            None
        };
        Ok(Led {
            target,
            stay,
            matched,
            source,
            function,
            is_ignored: self.is_ignored(target),
        })
    }

    /// The result for a frame that names its function so.
    pub fn lead(&mut self, asked: &Asked<'_, '_>, named: &Named, function: &str) -> Outcome<Led> {
        let alloc = asked.alloc();
        let file = named.file.as_str();
        self.prepare(asked, file)?;
        match self.files.get(file) {
            Some(Known::Map(map)) => self.look_up(alloc, map, named, function),
            Some(Known::None(Stay { reason, why })) => {
                let why = String::from_str(alloc, why.as_str())?;
                Ok(Led::stays(*reason, why, Matched::Whole))
            }
            None => Ok(Led::stays(Reason::NotThere, String::new(alloc), Matched::Whole)),
        }
    }
}
