//! A map shown beside its generated code and sources, for people who test source maps.
ghost use Rattle.std.specs.Prelude.{◌≡◌, ℕ, List, [], map, option_map, string_bytes, Some, None};
ghost use Rattle.std.specs.Prelude.{IfOk, IfSome, OnOk, Ok};
ghost use Rattle.std.specs.Fmt.{AppendsText};
ghost use Rattle.std.specs.Option.{option_or};
ghost use Rattle.oxc_sourcemap_map.specs.Words.{OutOfMemory, Text, counted, map_link, units_of};
ghost use Rattle.oxc_sourcemap_map.specs.Words.{lines_of, text_lines, is_within, dst_end, src_end};
ghost use Rattle.oxc_sourcemap_map.specs.Words.{is_on_source_line, between, part_text};
ghost use Rattle.oxc_sourcemap_map.specs.Words.{position_text, mark, heading, invalid_text};
ghost use Rattle.oxc_sourcemap_map.specs.Words.{parts_text, mapping_text, shown, shown_source};
ghost use Rattle.oxc_sourcemap_map.specs.Words.{visual_token_text, tokens_text, visual_text};
ghost use Rattle.oxc_sourcemap_map.specs.Words.{Answers, OnlyMemory, Pushes, lent_item};

use crate::maps::SourceMap;
use base64::engine::general_purpose::STANDARD;
use oxc_sourcemap_parts::Contents;
use oxc_sourcemap_text::{Lines, utf16_units};
use oxc_sourcemap_tokens::{Error, Memory, Result, Token};
use std::alloc::Global;
use std::fmt::Write;
use std::marker::Model;

/// Shows a map beside its generated code, for people who test source maps: as a text, or as a link to a page that draws both.
///
/// ```rust
/// use oxc_sourcemap::{SourceMap, SourcemapVisualizer};
///
/// let text = r#"{"version":3,"sources":["a.js"],"sourcesContent":["let x;"],"mappings":"AAAA"}"#;
/// let map = SourceMap::from_json_string(alloc, text)?;
/// let shown = SourcemapVisualizer::new("var x;", &map).get_text(alloc)?;
/// assert_eq!(rt; shown.as_str(), "- a.js\n(0:0) \"let x;\" --> (0:0) \"var x;\"\n");
/// ```
#[derive(Drop)]
pub struct SourcemapVisualizer<'a, 'sm> {
    code: &'a str,
    sourcemap: &'a SourceMap<'sm>,
}

impl<'a, 'sm> Model for SourcemapVisualizer<'a, 'sm> {
    ghost use Rattle.oxc_sourcemap_map.specs.VisualText.{CodeAndMap};

    ghost Value = { CodeAndMap };

    ghost view = { λ v. record { code = v.code.now; map = v.sourcemap.now } };
}

impl<'a, 'sm> SourcemapVisualizer<'a, 'sm> {
    /// A visualizer of a generated code and its map. Nothing is checked, and no memory is taken.
    pub fn new(code: &'a str, sourcemap: &'a SourceMap<'sm>) -> SourcemapVisualizer<'a, 'sm>
        ensures { result ≡ record { code = code.now; map = sourcemap.now } }
    {
        SourcemapVisualizer { code, sourcemap }
    }

    /// The link to a page that draws the code and its map: `https://evanw.github.io/source-map-visualization/#`, and in
    /// padded base64 of the standard alphabet the code and then the map's JSON text, each after its length in bytes, which
    /// is written in decimal and ended by a zero byte.
    ///
    /// Fails as `SourceMap::to_json_string` does: with `LineOrder(i)`, `BadChunks(k)`, `TooLarge`, in this order, and with
    /// `OutOfMemory` for want of memory.
    #[tactic(auto, unfolding(crate::specs::Link::map_link))]
    pub fn get_url(&self, alloc: Global) -> Result<String>
        ensures { Answers string_bytes result (map_link self.now.code self.now.map) }
    {
        let json = self.sourcemap.to_json_string(alloc)?;
        let mut parts = String::new(alloc);
        push_counted(self.code, &mut parts)?;
        push_counted(json.as_str(), &mut parts)?;
        let mut url = String::from_str(
            alloc,
            "https://evanw.github.io/source-map-visualization/#",
        )?;
        STANDARD.encode_string(parts.as_bytes(), &mut url)?;
        Ok(url)
    }

    /// The text that shows the source and the generated code of each token: `docs/FORMAT.md`, "The visual text". Lines and
    /// columns count from 0; columns are in UTF-16 code units.
    ///
    /// If all parts of lines that it prints are ASCII, it is exactly that text; past ASCII, which characters the debug form of
    /// a string escapes is the choice of std. Fails only with `OutOfMemory`.
    ///
    /// The code and each content are cut into lines once. A token takes the time of its own parts, and of a walk over the
    /// tokens after it that are on its source line and not at a greater source column. The walk is long only if many tokens in
    /// a row point to one source line and their columns do not grow.
    #[tactic(auto, unfolding(crate::specs::VisualText::visual_text))]
    pub fn get_text(&self, alloc: Global) -> Result<String>
        ensures text { IfOk result (λ text. IfSome (visual_text self.now.code self.now.map)
            (λ shown. string_bytes text ≡ shown)) }
        ensures error { OnlyMemory result }
    {
        let contents = self.sourcemap.get_source_contents();
        if contents.len() == 0 {
            return Ok(String::from_str(alloc, "[no source contents]\n")?);
        }
        let contents = content_units(alloc, contents)?;
        let code = utf16_units(alloc, self.code)?;
        let printer = Printer::new(alloc, self.sourcemap, contents.as_slice(), code.as_slice())?;
        let tokens = self.sourcemap.get_tokens();
        let mut out = String::new(alloc);
        printer.push_tokens(tokens.as_slice(), &mut out)?;
        Ok(out)
    }
}

/// Appends the number of bytes of a text in decimal, a zero byte, and the text.
fn push_counted(text: &str, out: &mut String) -> Result<()>
    ensures text { Pushes result out.old out.new (counted text.now) }
    ensures error { OnlyMemory result }
{
    write!(out, "{}\0{text}", text.len()).map_err(|_| Error::OutOfMemory)
}

/// The lines of each content, as slices of these units. None for a content that is not known.
fn cut_contents<'u>(
    alloc: Global,
    contents: &'u [Option<Vec<u16>>],
) -> Memory<Vec<Option<Lines<'u>>>>
    ensures { IfOk result (λ lines. lines.items
        ≡ map (option_map (λ units. lines_of units.items)) contents.now) }
{
    let mut lines = Vec::with_capacity(alloc, contents.len())?;
    for content in contents {
        match content {
            Some(units) => lines.push(Some(Lines::cut(alloc, units.as_slice())?))?,
            None => lines.push(None)?,
        }
    }
    Ok(lines)
}

/// The UTF-16 units of a content. None if it is not known.
fn units_where_known(alloc: Global, content: Option<&str>) -> Memory<Option<Vec<u16>>>
    ensures { IfOk result (λ units. option_map (λ units. units.items) units
        ≡ option_map units_of (lent_item content.entry)) }
{
    match content {
        Some(text) => Ok(Some(utf16_units(alloc, text)?)),
        None => Ok(None),
    }
}

/// The UTF-16 units of each content. None for a content that is not known.
fn content_units(alloc: Global, contents: Contents<'_, '_>) -> Memory<Vec<Option<Vec<u16>>>>
    ensures { IfOk result (λ units. map (option_map (λ units. units.items)) units.items
        ≡ map (option_map units_of) contents.entry) }
{
    let mut units = Vec::with_capacity(alloc, contents.len())?;
    for content in contents {
        units.push(units_where_known(alloc, content)?)?;
    }
    Ok(units)
}

/// Whether a position is before the end of its line.
fn is_within(lines: &Lines<'_>, line: u32, col: u32) -> bool
    ensures { result ≡ is_within lines.now line col }
{
    (col as usize) < lines.line(line).len()
}

/// The generated column at which the part of a token ends.
fn dst_end(token: &Token, after: &[Token], len: usize) -> usize
    ensures { result ≡ dst_end len token.now after.now }
{
    match after.first() {
        Some(next) if next.get_dst_line() == token.get_dst_line() => next.get_dst_col() as usize,
        _ => len,
    }
}

/// Whether a token has this source id and source line.
fn is_on_source_line(token: &Token, id: u32, line: u32) -> bool
    ensures { result ≡ is_on_source_line id line token.now }
{
    token.get_source_id() == Some(id) && token.get_src_line() == line
}

/// The source column at which the part of a token ends. It looks at the tokens after as long as they are on the same
/// source line and not at a greater column.
fn src_end(id: u32, token: &Token, after: &[Token], len: usize) -> usize
    ensures { result ≡ src_end len id token.now after.now }
{
    for other in after {
        if !is_on_source_line(other, id, token.get_src_line()) {
            return len;
        }
        if other.get_src_col() > token.get_src_col() {
            return other.get_src_col() as usize;
        }
    }
    len
}

/// The part of a line between two columns, whichever is the smaller, cut to the line's length.
fn between(line: &[u16], a: usize, b: usize) -> &[u16]
    ensures { result.now ≡ between line.now a b }
{
    &line[a.min(b).min(line.len())..a.max(b).min(line.len())]
}

/// Appends a part of a line in the debug form of a text, without carriage returns and with U+FFFD for each half of a
/// surrogate pair.
fn push_part(alloc: Global, units: &[u16], out: &mut String) -> Result<()>
    ensures text { OnOk result (AppendsText (string_bytes out.old) (string_bytes out.new)
        (part_text units.now)) }
    ensures error { OnlyMemory result }
{
    let mut part = String::from_utf16_lossy(alloc, units)?;
    part.retain(|ch| ch != '\r');
    write!(out, "{part:?}").map_err(|_| Error::OutOfMemory)
}

/// Appends `(line:column)`.
fn push_position(line: u32, col: u32, out: &mut String) -> Result<()>
    ensures text { Pushes result out.old out.new (position_text line col) }
    ensures error { OnlyMemory result }
{
    write!(out, "({line}:{col})").map_err(|_| Error::OutOfMemory)
}

/// Appends `[invalid]` after a position that is not valid.
fn push_mark(is_valid: bool, out: &mut String) -> Result<()>
    ensures text { Pushes result out.old out.new (mark is_valid) }
    ensures error { OnlyMemory result }
{
    if is_valid {
        return Ok(());
    }
    Ok(out.push_str(" [invalid]")?)
}

/// Appends the line of a token whose source position or generated position is not valid.
fn push_invalid(
    token: &Token,
    is_src_valid: bool,
    is_dst_valid: bool,
    out: &mut String,
) -> Result<()>
    ensures text { Pushes result out.old out.new
        (invalid_text is_src_valid is_dst_valid token.now) }
    ensures error { OnlyMemory result }
{
    push_position(token.get_src_line(), token.get_src_col(), out)?;
    push_mark(is_src_valid, out)?;
    out.push_str(" --> ")?;
    push_position(token.get_dst_line(), token.get_dst_col(), out)?;
    push_mark(is_dst_valid, out)?;
    Ok(out.push('\n')?)
}

/// Appends the line of a token of which both positions are valid, with these parts of its source line and its generated line.
fn push_parts(
    alloc: Global,
    token: &Token,
    src: &[u16],
    dst: &[u16],
    out: &mut String,
) -> Result<()>
    ensures text { OnOk result (AppendsText (string_bytes out.old) (string_bytes out.new)
        (parts_text token.now src.now dst.now)) }
    ensures error { OnlyMemory result }
{
    push_position(token.get_src_line(), token.get_src_col(), out)?;
    out.push(' ')?;
    push_part(alloc, src, out)?;
    out.push_str(" --> ")?;
    push_position(token.get_dst_line(), token.get_dst_col(), out)?;
    out.push(' ')?;
    push_part(alloc, dst, out)?;
    Ok(out.push('\n')?)
}

/// Appends the line of a token with this source id: `src` are the lines of its source's content, `dst` those of the code.
#[tactic(auto, unfolding(crate::specs::VisualText::mapping_text))]
fn push_mapping(
    alloc: Global,
    src: &Lines<'_>,
    dst: &Lines<'_>,
    id: u32,
    token: &Token,
    after: &[Token],
    out: &mut String,
) -> Result<()>
    ensures text { OnOk result (AppendsText (string_bytes out.old) (string_bytes out.new)
        (mapping_text src.now dst.now id token.now after.now)) }
    ensures error { OnlyMemory result }
{
    let (src_col, dst_col) = (token.get_src_col(), token.get_dst_col());
    let is_src_valid = is_within(src, token.get_src_line(), src_col);
    let is_dst_valid = is_within(dst, token.get_dst_line(), dst_col);
    if !is_src_valid || !is_dst_valid {
        return push_invalid(token, is_src_valid, is_dst_valid, out);
    }
    let src_line = src.line(token.get_src_line());
    let dst_line = dst.line(token.get_dst_line());
    let src_end = src_end(id, token, after, src_line.len());
    let dst_end = dst_end(token, after, dst_line.len());
    push_parts(
        alloc,
        token,
        between(src_line, src_col as usize, src_end),
        between(dst_line, dst_col as usize, dst_end),
        out,
    )
}

/// Appends the line of a source, unless it is the last one that was printed.
fn push_heading(last: Option<&str>, source: &str, out: &mut String) -> Result<()>
    ensures text { Pushes result out.old out.new (heading (lent_item last.entry) source.now) }
    ensures error { OnlyMemory result }
{
    if last == Some(source) {
        return Ok(());
    }
    write!(out, "- {source}\n").map_err(|_| Error::OutOfMemory)
}

/// A map with the lines of its contents and of the code, for printing.
#[derive(Drop)]
struct Printer<'s, 'u, 'sm> {
    alloc: Global,
    sourcemap: &'s SourceMap<'sm>,
    sources: Vec<Option<Lines<'u>>>,
    code: Lines<'u>,
}

impl<'s, 'u, 'sm> Printer<'s, 'u, 'sm> {
    /// A map with the lines of these contents and of this code, given by their UTF-16 units.
    fn new(
        alloc: Global,
        sourcemap: &'s SourceMap<'sm>,
        contents: &'u [Option<Vec<u16>>],
        code: &'u [u16],
    ) -> Memory<Printer<'s, 'u, 'sm>>
        ensures sourcemap { IfOk result (λ printer. printer.sourcemap.now ≡ sourcemap.now) }
        ensures sources { IfOk result (λ printer. printer.sources.items
            ≡ map (option_map (λ units. lines_of units.items)) contents.now) }
        ensures code { IfOk result (λ printer. printer.code ≡ lines_of code.now) }
    {
        Ok(Printer {
            alloc,
            sourcemap,
            sources: cut_contents(alloc, contents)?,
            code: Lines::cut(alloc, code)?,
        })
    }

    /// The source id, the source and the lines of the source's content of a token that is shown; None for any other.
    fn shown(&self, token: &Token) -> Option<(u32, &'s str, &Lines<'u>)>
        requires { self.now.sources.items ≡ map
            (option_map text_lines) self.now.sourcemap.now.source_contents }
        ensures shown { option_map {U = Text × List (List ℕ)} (λ s. (s.1.now, s.2.now)) result
            ≡ option_map {U = Text × List (List ℕ)} (λ s. (s.0, text_lines s.1))
            (shown self.now.sourcemap.now token.now) }
        ensures id { IfSome result (λ s. token.now.source_id ≡ Some s.0) }
    {
        let id = token.get_source_id()?;
        let source = self.sourcemap.get_source(id)?;
        let lines = self.sources.get(id as usize)?.as_ref()?;
        Some((id, source, lines))
    }

    /// Appends the text of a token after that of the tokens before, and returns the source that was then printed last.
    fn push_token(
        &self,
        last: Option<&'s str>,
        token: &Token,
        after: &[Token],
        out: &mut String,
    ) -> Result<Option<&'s str>>
        requires { self.now.sources.items ≡ map
            (option_map text_lines) self.now.sourcemap.now.source_contents }
        ensures text { OnOk result (AppendsText (string_bytes out.old) (string_bytes out.new)
            (visual_token_text self.now.code
            (lent_item last.entry) token.now after.now token.now.source_id
            (shown self.now.sourcemap.now token.now))) }
        ensures last { IfOk result (λ source. lent_item source
            ≡ option_or (shown_source self.now.sourcemap.now token.now) (lent_item last.entry)) }
        ensures error { OnlyMemory result }
    {
        let Some((id, source, lines)) = self.shown(token) else {
            return Ok(last);
        };
        push_heading(last, source, out)?;
        push_mapping(self.alloc, lines, &self.code, id, token, after, out)?;
        Ok(Some(source))
    }

    /// Appends the text of each token of the map.
    fn push_tokens(&self, tokens: &[Token], out: &mut String) -> Result<()>
        requires { self.now.sources.items ≡ map
            (option_map text_lines) self.now.sourcemap.now.source_contents }
        ensures text { OnOk result (AppendsText (string_bytes out.old) (string_bytes out.new)
            (tokens_text self.now.code self.now.sourcemap.now [] tokens.now)) }
        ensures error { OnlyMemory result }
    {
        let mut last = None;
        for (i, token) in tokens.iter().enumerate() {
            last = self.push_token(last, token, &tokens[i + 1..], out)?;
        }
        Ok(())
    }
}
