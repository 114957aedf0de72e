//! Compiled maps, taken apart: the parts of the map, whose texts are borrowed from the bytes.
ghost use Rattle.std.specs.Prelude.{◌≡◌, ◌+◌, ◌≤◌, ◌<◌, ◌++◌, ◌↔◌, map, option_map, IfOk, OnOk};
ghost use Rattle.std.specs.Prelude.{IfSome, IsTrue, Some, None, Ok, length};
ghost use Rattle.std.specs.List.{range_with_len};
ghost use Rattle.std.specs.Cow.{cow_str_bytes};
ghost use Rattle.oxc_sourcemap_parts.specs.Words.{text_of, texts_of, contents_of, ids_of};
ghost use Rattle.oxc_sourcemap_parts.specs.Words.{record_of_parts};
ghost use Rattle.oxc_sourcemap_compiled.specs.Words.{IsOpened, text_count, listed_in, optional_in};
ghost use Rattle.oxc_sourcemap_compiled.specs.Words.{utf8_text, checked_text, checked_texts};
ghost use Rattle.oxc_sourcemap_compiled.specs.Words.{checked_contents, entry_tokens, tokens_in};
ghost use Rattle.oxc_sourcemap_compiled.specs.Words.{ignore_list_in, map_in, checked_map};
ghost use Rattle.oxc_sourcemap_compiled.specs.Words.{DoLinesFollow, DoTextsFollow, DoesNotGoBack};

use crate::map::utf8;
use crate::opened::Opened;
use oxc_sourcemap_parts::SourceMapParts;
use oxc_sourcemap_tokens::{Memory, Token};
use std::alloc::Global;
use std::borrow::CowStr;

impl<'a> Opened<'a> {
    /// A text of a list; None if it is not UTF-8.
    fn lent_text(&self, t: usize) -> Option<CowStr<'a>>
        requires opened { IsOpened self.now }
        requires there { t < text_count self.now.header }
        ensures { option_map cow_str_bytes result
            ≡ utf8_text (listed_in self.now.bytes.now self.now.header t) }
    {
        match utf8(self.listed_text(t)) {
            Some(text) => Some(CowStr::Borrowed(text)),
            None => None,
        }
    }

    /// A text that may be absent; None if it is there and not UTF-8.
    fn lent_optional(&self, t: usize) -> Option<Option<CowStr<'a>>>
        requires opened { IsOpened self.now }
        requires there { t < text_count self.now.header }
        ensures { option_map text_of result
            ≡ checked_text (optional_in self.now.bytes.now self.now.header t) }
    {
        match self.optional_text(t) {
            Some(bytes) => match utf8(bytes) {
                Some(text) => Some(Some(CowStr::Borrowed(text))),
                None => None,
            },
            None => Some(None),
        }
    }

    /// The texts of a list; None if one is not UTF-8.
    fn lent_texts(
        &self,
        alloc: Global,
        first: usize,
        count: usize,
    ) -> Memory<Option<Vec<CowStr<'a>>>>
        requires opened { IsOpened self.now }
        requires there { first + count ≤ text_count self.now.header }
        ensures { IfOk result (λ texts. option_map texts_of texts ≡ checked_texts
            (map (λ i. listed_in self.now.bytes.now self.now.header (first + i))
            (range_with_len 0 count))) }
    {
        let mut texts = Vec::with_capacity(alloc, count)?;
        for i in 0..count {
            match self.lent_text(first + i) {
                Some(text) => texts.push(text)?,
                None => return Ok(None),
            }
        }
        Ok(Some(texts))
    }

    /// Contents; None if one is there and not UTF-8.
    fn lent_contents(
        &self,
        alloc: Global,
        first: usize,
        count: usize,
    ) -> Memory<Option<Vec<Option<CowStr<'a>>>>>
        requires opened { IsOpened self.now }
        requires there { first + count ≤ text_count self.now.header }
        ensures { IfOk result (λ texts. option_map contents_of texts ≡ checked_contents
            (map (λ i. optional_in self.now.bytes.now self.now.header (first + i))
            (range_with_len 0 count))) }
    {
        let mut texts = Vec::with_capacity(alloc, count)?;
        for i in 0..count {
            match self.lent_optional(first + i) {
                Some(text) => texts.push(text)?,
                None => return Ok(None),
            }
        }
        Ok(Some(texts))
    }

    /// Appends the tokens of an entry of lines.
    fn push_entry(&self, out: &mut Vec<Token>, k: usize) -> Memory<()>
        requires opened { IsOpened self.now }
        requires there { k < self.now.header.lines }
        ensures { OnOk result (out.new.items
            ≡ out.old.items ++ entry_tokens self.now.bytes.now self.now.header k) }
    {
        let span = self.span(k);
        let line = self.line_of(k);
        for i in span.start..span.end {
            out.push(self.token_on(line, i))?;
        }
        Ok(())
    }

    /// All tokens, entry by entry.
    fn all_tokens(&self, alloc: Global) -> Memory<Vec<Token>>
        requires opened { IsOpened self.now }
        ensures { IfOk result (λ tokens. tokens.items
            ≡ tokens_in self.now.bytes.now self.now.header) }
    {
        let mut tokens = Vec::new(alloc);
        for k in 0..self.header.lines {
            self.push_entry(&mut tokens, k)?;
        }
        Ok(tokens)
    }

    /// The ignore list, if there is one.
    fn ignore_list(&self, alloc: Global) -> Memory<Option<Vec<u32>>>
        requires opened { IsOpened self.now }
        ensures { IfOk result (λ list. ids_of list
            ≡ ignore_list_in self.now.bytes.now self.now.header) }
    {
        if !self.header.has_ignore_list {
            return Ok(None);
        }
        let mut ids = Vec::with_capacity(alloc, self.header.ignored)?;
        for i in 0..self.header.ignored {
            ids.push(self.ignored_at(i))?;
        }
        Ok(Some(ids))
    }

    /// Whether no line's tokens begin before those of the line in front, or, of the last line, end before they begin.
    fn do_lines_follow(&self) -> bool
        requires opened { IsOpened self.now }
        ensures { IsTrue result ↔ DoLinesFollow self.now.bytes.now self.now.header }
    {
        for k in 0..self.header.lines {
            if self.line_start(k) > self.line_start(k + 1) {
                return false;
            }
        }
        true
    }

    /// Whether no text begins before the one in front, and the last one does not end before it begins.
    fn do_texts_follow(&self) -> bool
        requires opened { IsOpened self.now }
        ensures { IsTrue result ↔ DoTextsFollow self.now.bytes.now self.now.header }
    {
        let header = self.header;
        for t in 0..2 * header.sources + header.names + 3 {
            if self.offset(t) > self.offset(t + 1) {
                return false;
            }
        }
        true
    }

    /// The parts of the map; None if lines or texts go back, which takes no memory, or a text is not UTF-8.
    pub(crate) fn parts(&self, alloc: Global) -> Memory<Option<SourceMapParts<'a>>>
        requires opened { IsOpened self.now }
        ensures map { IfOk result (λ parts. IfSome parts (λ made. checked_map
            (map_in self.now.bytes.now self.now.header) ≡ Some (record_of_parts made))) }
        ensures few { IfOk result (λ parts. IfSome parts
            (λ made. length (record_of_parts made).tokens ≤ self.now.header.tokens)) }
        ensures refused { ¬ (DoesNotGoBack self.now.bytes.now self.now.header)
            → result ≡ Ok None }
        ensures none { IfOk result (λ parts. parts ≡ None
            → DoesNotGoBack self.now.bytes.now self.now.header
            → checked_map (map_in self.now.bytes.now self.now.header) ≡ None) }
    {
        if self.do_lines_follow() && self.do_texts_follow() {
            self.all_parts(alloc)
        } else {
            Ok(None)
        }
    }

    /// The parts of the map, with what goes back as often as the bytes have it; None if a text is not UTF-8.
    fn all_parts(&self, alloc: Global) -> Memory<Option<SourceMapParts<'a>>>
        requires opened { IsOpened self.now }
        ensures { IfOk result (λ parts. option_map record_of_parts parts
            ≡ checked_map (map_in self.now.bytes.now self.now.header)) }
    {
        let header = self.header;
        let listed = 2 * header.sources + header.names;
        let Some(sources) = self.lent_texts(alloc, 0, header.sources)? else {
            return Ok(None);
        };
        let Some(names) = self.lent_texts(alloc, 2 * header.sources, header.names)? else {
            return Ok(None);
        };
        let Some(source_contents) = self.lent_contents(alloc, header.sources, header.sources)?
        else {
            return Ok(None);
        };
        let Some(file) = self.lent_optional(listed) else {
            return Ok(None);
        };
        let Some(source_root) = self.lent_optional(listed + 1) else {
            return Ok(None);
        };
        let Some(debug_id) = self.lent_optional(listed + 2) else {
            return Ok(None);
        };
        Ok(Some(SourceMapParts {
            file,
            names,
            source_root,
            sources,
            source_contents,
            tokens: self.all_tokens(alloc)?.into_boxed_slice(),
            token_chunks: None,
            ignore_list: self.ignore_list(alloc)?,
            debug_id,
        }))
    }
}
