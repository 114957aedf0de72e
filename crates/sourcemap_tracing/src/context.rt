//! The lines of originals around positions.
use bumpalo::Bump;
use oxc_sourcemap_tokens::Position;
use sourcemap_files::{Asked, SourceNames, content_on_disk};
use sourcemap_run::Content;
use sourcemap_words::Outcome;
use std::collections::HashMap;

/// A place in a source of a map.
#[derive(Clone, Copy)]
pub struct Place<'p> {
    /// The number of the map, and the id of the source.
    pub map: usize,
    pub source_id: u32,
    /// The folder that the sources of the map are relative to.
    pub folder: &'p str,
    /// The name of the source.
    pub source: &'p str,
    /// The content that the map has.
    pub content: Option<&'p str>,
    pub position: Position,
}

/// The contents of sources, each found, and cut into its lines, at the first position of it.
#[derive(Drop)]
pub struct Contents<'a> {
    texts: &'a Bump,
    /// By the number of the map and the id of the source; None of those that are not found.
    contents: HashMap<(usize, u32), Option<Content<'a>>>,
    /// How many lines are shown before and after that of a position.
    around: u32,
    /// What printed lines count from: 0 or 1.
    base: u8,
}

impl<'a> Contents<'a> {
    /// What `--context` asks for; None without it. `texts` gets the contents, and printed lines count from `base`.
    pub fn new(asked: &Asked<'_, '_>, texts: &'a Bump, base: u8) -> Option<Contents<'a>> {
        let around = asked.number("context")?;
        Some(Contents {
            texts,
            contents: HashMap::new(asked.alloc()),
            around,
            base,
        })
    }

    /// The content of a source, which the map has, or which is in its file in the root.
    fn find(
        &self,
        asked: &Asked<'_, '_>,
        names: &SourceNames,
        place: &Place<'_>,
    ) -> Outcome<Option<Content<'a>>> {
        let alloc = asked.alloc();
        if let Some(text) = place.content {
            let text = self.texts.try_alloc_str(text)?;
            return Ok(Some(Content::new(alloc, text)?));
        }
        let Some(path) = names.file(place.folder, place.source)? else {
            return Ok(None);
        };
        let Some(text) = content_on_disk(asked.rt, path.as_str(), asked.places())? else {
            return Ok(None);
        };
        let text = self.texts.try_alloc_str(text.as_str())?;
        Ok(Some(Content::new(alloc, text)?))
    }

    /// Appends the lines of a source around a position, its column marked.
    pub fn push(
        &mut self,
        asked: &Asked<'_, '_>,
        names: &SourceNames,
        place: &Place<'_>,
        out: &mut String,
    ) -> Outcome<()> {
        let key = (place.map, place.source_id);
        if !self.contents.contains_key(&key) {
            let found = self.find(asked, names, place)?;
            self.contents.insert(key, found)?;
        }
        match self.contents.get(&key) {
            Some(Some(content)) => {
                let (around, base) = (self.around, self.base);
                Ok(content.push_around(asked.alloc(), place.position, around, base, out)?)
            }
            _ => Ok(out.push_str(
                "        | (the map has no content of this source, and its file is not in the root: see --root and --outside)\n",
            )?),
        }
    }
}
