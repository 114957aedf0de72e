//! Reading the tokens of a plain JSON text one after the other, with no table of where they begin, which is made for any text. A
//! plain text has no number but 3, and no escape of more than two characters.
ghost use Rattle.std.specs.Prelude.{◌≡◌, ◌+◌, ◌<◌, ◌≤◌, ◌⊎◌, ◌∷◌, [], get_or, length, drop, map};
ghost use Rattle.std.specs.Prelude.{IsTrue, IfSome, IfOk, MatchBool, MatchOption, string_bytes};
ghost use Rattle.std.specs.Str.{IsCharBoundary};
ghost use Rattle.json.specs.Text.{short_escape};
ghost use Rattle.std.specs.List.{prefix_len};
ghost use Rattle.std.specs.Simd.Lanes.{mask_l};
ghost use Rattle.json.specs.Lex.{between, lex, token};
ghost use Rattle.json.specs.Token as spec;
ghost use Rattle.json.specs.Word.{is_space};
ghost use Rattle.oxc_sourcemap_json.specs.PlainReader.{tokens_left, opening, is_stop, is_plain};
ghost use Rattle.oxc_sourcemap_json.specs.PlainReader.{MayBegin};
ghost use Rattle.oxc_sourcemap_json.specs.PlainReader.{MayClose, EndsValue, IsRead};

use oxc_sourcemap_tokens::Memory;
use std::alloc::Global;
use std::simd::prelude::*;

/// What the rules for commas let come next.
#[derive(Clone, Copy, Drop)]
enum Place {
    /// A value, a key or a closing bracket.
    Fresh,
    /// A comma or a closing bracket.
    AfterValue,
    /// A value or a key.
    AfterComma,
}

impl Place {
    fn may_begin(self) -> bool
        ensures { MatchBool result (MayBegin self) (self ≡ Place.AfterValue) }
    {
        !matches!(self, Place::AfterValue)
    }

    fn may_close(self) -> bool
        ensures { IsTrue result → MayClose self }
    {
        !matches!(self, Place::AfterComma)
    }
}

/// What is left of a plain JSON text.
#[derive(Drop)]
pub(crate) struct PlainReader<'a> {
    text: &'a str,
    /// Where in the text the rest begins.
    at: usize,
    place: Place,
}

/// The byte at an index, or a space past the end.
fn byte_at(text: &[u8], index: usize) -> u8
    ensures { result ≡ get_or text.now index 32 }
{
    if index < text.len() {
        text[index]
    } else {
        b' '
    }
}

fn is_blank(byte: u8) -> bool
    ensures { result ≡ is_space byte }
{
    (byte == b' ') | (byte == b'\t') | (byte == b'\n') | (byte == b'\r')
}

/// Where the blanks from an index on end.
fn blanks_end(text: &[u8], from: usize) -> usize
    ensures { lex between (drop result text.now) ≡ lex between (drop from text.now) }
{
    let mut end = from;
    'blanks: while end < text.len() && is_blank(text[end]) {
        end += 1;
    }
    end
}

/// Which of 16 bytes end plain text: a bit for each, the first byte in the lowest.
fn stops_in(bytes: u8x16) -> u64
    ensures { result ≡ mask_l (map is_stop bytes) }
{
    let quotes = bytes.simd_eq(u8x16::splat(b'"'));
    let backslashes = bytes.simd_eq(u8x16::splat(b'\\'));
    let controls = bytes.simd_lt(u8x16::splat(b' '));
    (quotes | backslashes | controls).to_bitmask()
}

/// How many bytes at the front of a block are plain.
fn plain_in(block: u8x16) -> usize
    ensures { result ≡ prefix_len is_plain block }
{
    let found = stops_in(block);
    if found == 0 {
        16
    } else {
        found.trailing_zeros() as usize
    }
}

/// What `plain_end` gives, one byte after the other.
fn plain_end_slowly(text: &[u8], from: usize) -> usize
    requires { from ≤ length text.now }
    ensures { result ≡ from + prefix_len is_plain (drop from text.now) }
{
    let mut end = from;
    'bytes: while end < text.len() && text[end] != b'"' && text[end] != b'\\' && text[end] >= 0x20 {
        end += 1;
    }
    end
}

/// Where the plain text from an index on stops.
#[inline(never)]
fn plain_end(text: &[u8], from: usize) -> usize
    requires { from ≤ length text.now }
    ensures { result ≡ from + prefix_len is_plain (drop from text.now) }
{
    let mut end = from;
    'steps: while text.len() - end >= 16 {
        let plain = plain_in(u8x16::from_slice(&text[end..]));
        if plain < 16 {
            return end + plain;
        }
        end += 16;
    }
    plain_end_slowly(text, end)
}

/// Whether a byte may stand behind a value.
fn ends_value(byte: u8) -> bool
    ensures { IsTrue result → EndsValue byte }
{
    byte == b',' || byte == b']' || byte == b'}'
}

/// The plain text whose quote is at an index, and where what follows it begins.
fn quoted_text<'a>(text: &'a str, at: usize) -> Option<(&'a str, usize)>
    requires { get_or text.now at 32 ≡ 34 }
    ensures { IfSome result (λ found. lex between (drop at text.now)
        ≡ token (spec.string found.0.now) ∷ lex between (drop found.1 text.now)) }
{
    let bytes = text.as_bytes();
    let start = at + 1;
    let stop = plain_end(bytes, start);
    if byte_at(bytes, stop) != b'"' {
        return None;
    }
    Some((&text[start..stop], blanks_end(bytes, stop + 1)))
}

/// The character that a backslash and this byte stand for, if they stand for one by themselves.
fn short_escape(byte: u8) -> Option<char>
    ensures value { result ≡ short_escape byte }
    ensures ascii { IfSome result (λ found. (found < 128) × (byte < 128)) }
{
    match byte {
        b'"' | b'\\' | b'/' => Some(byte as char),
        b'b' => Some('\u{8}'),
        b'f' => Some('\u{c}'),
        b'n' => Some('\n'),
        b'r' => Some('\r'),
        b't' => Some('\t'),
        _ => None,
    }
}

/// A text with escapes has room for so many bytes at first.
const FEW_BYTES: usize = 32;

/// The text that begins at an index, behind its quote, and where what follows it begins. None if an escape is none of two
/// characters.
fn escaped_text(alloc: Global, text: &str, from: usize) -> Memory<Option<(String, usize)>>
    requires { IsCharBoundary text.now from }
    ensures { IfOk result (λ found. IfSome found
        (λ read. IsRead text.now from (string_bytes read.0) read.1)) }
{
    let bytes = text.as_bytes();
    let mut found = String::with_capacity(alloc, FEW_BYTES)?;
    let mut at = from;
    'escapes: loop {
        let stop = plain_end(bytes, at);
        let byte = byte_at(bytes, stop);
        if byte != b'"' && byte != b'\\' {
            return Ok(None);
        }
        found.push_str(&text[at..stop])?;
        if byte == b'"' {
            return Ok(Some((found, blanks_end(bytes, stop + 1))));
        }
        let Some(escape) = short_escape(byte_at(bytes, stop + 1)) else {
            return Ok(None);
        };
        found.push(escape)?;
        at = stop + 2;
    }
}

/// The text whose quote is at an index, and where what follows it begins. None if it has an escape of more than two characters.
fn text_at(alloc: Global, text: &str, at: usize) -> Memory<Option<(String, usize)>>
    requires { get_or text.now at 32 ≡ 34 }
    ensures { IfOk result (λ found. IfSome found (λ read. lex between (drop at text.now)
        ≡ token (spec.string (string_bytes read.0)) ∷ lex between (drop read.1 text.now))) }
{
    match quoted_text(text, at) {
        Some((plain, end)) => Ok(Some((String::from_str(alloc, plain)?, end))),
        None => escaped_text(alloc, text, at + 1),
    }
}

impl<'a> PlainReader<'a> {
    /// Reads a text from its beginning.
    pub(crate) fn new(text: &'a str) -> PlainReader<'a>
        ensures { (result.text.now ≡ text.now) × (result.at ≡ 0) × (result.place ≡ Place.Fresh) }
    {
        PlainReader {
            text,
            at: 0,
            place: Place::Fresh,
        }
    }

    /// The next byte that is no blank, or a space at the end. It passes the comma that may stand before it.
    fn peek(&mut self) -> u8
        ensures same { tokens_left self.new ≡ tokens_left self.old }
        ensures byte { result ≡ get_or self.new.text.now self.new.at 32 }
    {
        let text = self.text.as_bytes();
        self.at = blanks_end(text, self.at);
        let byte = byte_at(text, self.at);
        if byte == b',' && !self.place.may_begin() {
            self.at = blanks_end(text, self.at + 1);
            self.place = Place::AfterComma;
            return byte_at(text, self.at);
        }
        byte
    }

    /// Takes the bracket that opens a list or an object, if it is next.
    pub(crate) fn open(&mut self, bracket: u8) -> bool
        requires { (bracket ≡ 123) ⊎ (bracket ≡ 91) }
        ensures { IsTrue result → tokens_left self.old ≡ opening bracket ∷ tokens_left self.new }
    {
        if self.peek() != bracket || !self.place.may_begin() {
            return false;
        }
        self.at += 1;
        self.place = Place::Fresh;
        true
    }

    /// Takes the bracket that closes a list, if it is next.
    pub(crate) fn take_end_array(&mut self) -> bool
        ensures { MatchBool result (tokens_left self.old ≡ spec.end_array ∷ tokens_left self.new)
            (tokens_left self.new ≡ tokens_left self.old) }
    {
        if self.peek() != b']' || !self.place.may_close() {
            return false;
        }
        self.at += 1;
        self.place = Place::AfterValue;
        true
    }

    /// The key that is next, if it has no escape, or None at the brace that closes an object.
    pub(crate) fn next_key(&mut self) -> Option<Option<&'a str>>
        ensures { IfSome result (λ found. MatchOption found
            (tokens_left self.old ≡ spec.end_object ∷ tokens_left self.new)
            (λ key. tokens_left self.old ≡ spec.key key.now ∷ tokens_left self.new)) }
    {
        let byte = self.peek();
        if byte == b'}' && self.place.may_close() {
            self.at += 1;
            self.place = Place::AfterValue;
            return Some(None);
        }
        if byte != b'"' || !self.place.may_begin() {
            return None;
        }
        let (key, end) = quoted_text(self.text, self.at)?;
        if byte_at(self.text.as_bytes(), end) != b':' {
            return None;
        }
        self.at = end + 1;
        self.place = Place::Fresh;
        Some(Some(key))
    }

    /// The text that is next, if its escapes are of two characters.
    pub(crate) fn next_text(&mut self, alloc: Global) -> Memory<Option<String>>
        ensures { IfOk result (λ found. IfSome found (λ text. tokens_left self.old
            ≡ spec.string (string_bytes text) ∷ tokens_left self.new)) }
    {
        if self.peek() != b'"' || !self.place.may_begin() {
            return Ok(None);
        }
        let Some((text, end)) = text_at(alloc, self.text, self.at)? else {
            return Ok(None);
        };
        if !ends_value(byte_at(self.text.as_bytes(), end)) {
            return Ok(None);
        }
        self.at = end;
        self.place = Place::AfterValue;
        Ok(Some(text))
    }

    /// The text that is next, if it has no escape.
    pub(crate) fn next_str(&mut self) -> Option<&'a str>
        ensures { IfSome result
            (λ text. tokens_left self.old ≡ spec.string text.now ∷ tokens_left self.new) }
    {
        if self.peek() != b'"' || !self.place.may_begin() {
            return None;
        }
        let (text, end) = quoted_text(self.text, self.at)?;
        if !ends_value(byte_at(self.text.as_bytes(), end)) {
            return None;
        }
        self.at = end;
        self.place = Place::AfterValue;
        Some(text)
    }

    /// Takes the number 3, if it is next and what ends a value is behind it.
    pub(crate) fn take_three(&mut self) -> bool
        ensures { IsTrue result
            → tokens_left self.old ≡ spec.number (51 ∷ []) ∷ tokens_left self.new }
    {
        if self.peek() != b'3' || !self.place.may_begin() {
            return false;
        }
        if !ends_value(byte_at(self.text.as_bytes(), self.at + 1)) {
            return false;
        }
        self.at += 1;
        self.place = Place::AfterValue;
        true
    }

    /// Takes null, if it is next and what ends a value is behind it.
    pub(crate) fn take_null(&mut self) -> bool
        ensures { MatchBool result (tokens_left self.old ≡ spec.null ∷ tokens_left self.new)
            (tokens_left self.new ≡ tokens_left self.old) }
    {
        if self.peek() != b'n' || !self.place.may_begin() {
            return false;
        }
        let bytes = self.text.as_bytes();
        let at = self.at;
        if byte_at(bytes, at + 1) != b'u' || byte_at(bytes, at + 2) != b'l' {
            return false;
        }
        if byte_at(bytes, at + 3) != b'l' || !ends_value(byte_at(bytes, at + 4)) {
            return false;
        }
        self.at = at + 4;
        self.place = Place::AfterValue;
        true
    }

    /// Whether nothing is left.
    pub(crate) fn is_at_end(&self) -> bool
        ensures { IsTrue result → tokens_left self.now ≡ [] }
    {
        let bytes = self.text.as_bytes();
        if self.place.may_begin() {
            return false;
        }
        blanks_end(bytes, self.at) >= bytes.len()
    }
}
