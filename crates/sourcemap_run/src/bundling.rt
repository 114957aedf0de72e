//! Codes and their maps, joined.
ghost use Rattle.std.specs.Prelude.{◌≡◌, ◌≢◌, ◌++◌, ◌∷◌, ◌⊎◌, ℕ, List, [], string_bytes, IfOk};
ghost use Rattle.std.specs.Prelude.{IfErr, OnOk, OnErr};
ghost use Rattle.sourcemap_run.specs.Words.{OnlyMemory, record_of_parts, joined, HasLineEnds};
ghost use Rattle.sourcemap_run.specs.Words.{IsEnded, IsPushed, IsInSize, IsTooLarge, StandsAt};
ghost use Rattle.sourcemap_run.specs.Words.{IsNext, at_line, IsWithinLimits, units_of};
ghost use Rattle.sourcemap_run.specs.Words.{OutOfMemory, TooLarge};

use oxc_sourcemap_join::join_owned_parts;
use oxc_sourcemap_parts::SourceMapParts;
use oxc_sourcemap_text::{TextPositions, utf16_units};
use oxc_sourcemap_tokens::{Error, Position, Result};
use std::alloc::Global;
use std::marker::Model;

/// Joined codes, each of which begins a line, and the line at which each of their maps begins.
#[derive(Drop)]
pub struct Bundle {
    code: String,
    line: u32,
    maps: Vec<(SourceMapParts<'static>, Position)>,
}

impl Model for Bundle {
    ghost use Rattle.std.specs.Prelude.{string_bytes, map};
    ghost use Rattle.sourcemap_run.specs.Bundled.{Bundled, placed_record, IsStanding};

    ghost Value = { Bundled };

    ghost view = { λ b. record {
      code = string_bytes b.code;
      line = b.line;
      maps = map placed_record b.maps.items;
    } };

    ghost invariant = { λ b. IsStanding (string_bytes b.code) b.line };
}

/// Returns how many lines end in a text. Fails with `TooLarge` exactly if it has more than 4294967295 UTF-16 units, and with `OutOfMemory`.
pub fn line_ends(alloc: Global, text: &str) -> Result<u32>
    ensures ends { IfOk result (HasLineEnds text.now) }
    ensures in_size { IfOk result (λ _. IsInSize text.now) }
    ensures error { IfErr result (λ e. (e ≢ OutOfMemory)
        → (e ≡ TooLarge) × ¬ (IsInSize text.now)) }
{
    let positions = TextPositions::new(alloc, text)?;
    let units = utf16_units(alloc, text)?;
    let len = units.as_slice().len();
    if len > 4294967295 {
        return Err(Error::TooLarge);
    }
    match positions.position(len as u32) {
        Ok((line, _)) => Ok(line),
        Err(_) => Err(Error::TooLarge),
    }
}

/// A text and a line feed.
fn with_line_feed(alloc: Global, text: &str) -> Result<String>
    ensures text { IfOk result (λ whole. string_bytes whole ≡ text.now ++ 10 ∷ []) }
    ensures units { IfOk result (λ whole. units_of (string_bytes whole)
        ≡ units_of text.now ++ 10 ∷ []) }
    ensures error { OnlyMemory result }
{
    let mut whole = String::from_str(alloc, text)?;
    whole.push('\n')?;
    Ok(whole)
}

/// A text, with a line feed at its end: its own, or, if it has none there, one more. Fails only with `OutOfMemory`.
pub fn with_line_end(alloc: Global, text: &str) -> Result<String>
    ensures text { IfOk result (λ whole. IsEnded text.now (string_bytes whole)) }
    ensures ends { IfOk result (λ whole. (front : List ℕ)
        × (units_of (string_bytes whole) ≡ front ++ 10 ∷ [])) }
    ensures error { OnlyMemory result }
{
    match text.strip_suffix('\n') {
        Some(front) => with_line_feed(alloc, front),
        None => with_line_feed(alloc, text),
    }
}

/// A text with a line feed at its end, and the line behind it, if it begins on this line.
fn ended_text(alloc: Global, line: u32, text: &str) -> Result<(String, u32)>
    ensures next { IfOk result (λ r. IsNext line text.now (string_bytes r.0) r.1) }
    ensures ends { IfOk result (λ r. (front : List ℕ)
        × (units_of (string_bytes r.0) ≡ front ++ 10 ∷ [])) }
    ensures error { IfErr result (λ e. (e ≢ OutOfMemory)
        → (e ≡ TooLarge) × IsTooLarge line text.now) }
{
    let whole = with_line_end(alloc, text)?;
    let Some(next) = line.checked_add(line_ends(alloc, whole.as_str())?) else {
        return Err(Error::TooLarge);
    };
    Ok((whole, next))
}

impl Bundle {
    /// An empty bundle.
    pub fn new(alloc: Global) -> Bundle
        ensures { result ≡ record { code = []; line = 0; maps = [] } }
    {
        Bundle {
            code: String::new(alloc),
            line: 0,
            maps: Vec::new(alloc),
        }
    }

    /// The line at which the next code begins: its column 0 is the end of the code so far.
    pub fn line(&self) -> u32
        ensures line { result ≡ self.now.line }
        ensures stands { StandsAt self.now.code result }
    {
        self.line
    }

    /// The code so far.
    pub fn code(&self) -> &str
        ensures { result.now ≡ self.now.code }
    {
        self.code.as_str()
    }

    /// Appends a text, and a line feed if it does not end in one. Fails with `TooLarge` exactly if the text then has more than 4294967295
    /// UTF-16 units, or a line would be above 4294967295, and with `OutOfMemory`. A failure leaves the bundle unchanged.
    pub fn push_text(&mut self, alloc: Global, text: &str) -> Result<()>
        ensures pushed { OnOk result (IsPushed text.now [] self.old self.new) }
        ensures error { IfErr result (λ e. (e ≢ OutOfMemory)
            → (e ≡ TooLarge) × IsTooLarge self.old.line text.now) }
        ensures unchanged { OnErr result (self.new ≡ self.old) }
    {
        let (whole, line) = ended_text(alloc, self.line, text)?;
        let _before = self.code.as_str();
        self.code.push_str(whole.as_str())?;
        self.line = line;
        Ok(())
    }

    /// Appends a code as `push_text` does, with its errors, and its map at the line where it begins.
    pub fn push_code(
        &mut self,
        alloc: Global,
        code: &str,
        map: SourceMapParts<'static>,
    ) -> Result<()>
        ensures pushed { OnOk result (IsPushed code.now
            ((record_of_parts map.entry, at_line self.old.line) ∷ []) self.old self.new) }
        ensures error { IfErr result (λ e. (e ≢ OutOfMemory)
            → (e ≡ TooLarge) × IsTooLarge self.old.line code.now) }
        ensures unchanged { OnErr result (self.new ≡ self.old) }
    {
        let position = Position {
            line: self.line,
            column: 0,
        };
        let (whole, line) = ended_text(alloc, self.line, code)?;
        let _before = self.code.as_str();
        self.maps.reserve(1)?;
        self.code.push_str(whole.as_str())?;
        let pushed: std::result::Result<_, _> = self.maps.push((map, position));
        pushed.unwrap();
        self.line = line;
        Ok(())
    }

    /// The code, and the join of the maps. Fails with `TooLarge` past the limits of joins, and with `OutOfMemory`.
    pub fn finish(self, alloc: Global) -> Result<(String, SourceMapParts<'static>)>
        ensures code { IfOk result (λ bundle. string_bytes bundle.0 ≡ self.code) }
        ensures map { IfOk result (λ bundle. record_of_parts bundle.1 ≡ joined self.maps) }
        ensures error { IfErr result (λ e. (e ≡ OutOfMemory)
            ⊎ ((e ≡ TooLarge) × ¬ (IsWithinLimits (joined self.maps)))) }
    {
        let Bundle {
            code,
            line: _,
            maps,
        } = self;
        let map = join_owned_parts(alloc, maps)?;
        Ok((code, map))
    }
}
