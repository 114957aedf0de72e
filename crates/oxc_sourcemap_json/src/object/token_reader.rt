//! The tokens of a JSON text, which is read in one of two ways.
ghost use Rattle.std.specs.Prelude.{◌≡◌, ◌∷◌, [], Some, IsTrue, IfSome, IfOk, MatchBool};
ghost use Rattle.std.specs.Prelude.{option_map, MatchOption, string_bytes};
ghost use Rattle.json.specs.Json.{after_end_array, read_key};
ghost use Rattle.json.specs.Lex.{tokens};
ghost use Rattle.json.specs.Token as spec;

use crate::object::plain::PlainReader;
use json::{Reader, Scratch, Token};
use oxc_sourcemap_tokens::Memory;
use std::alloc::Global;
use std::marker::Model;

/// How a text is read.
#[derive(Drop)]
enum Way<'a> {
    /// Byte by byte, if it is plain.
    Plain(PlainReader<'a>),
    /// Any text.
    Any(Reader<'a>),
}

/// What is left of a JSON text. A clause sees its tokens. After a call that finds something else than what it is asked for, what
/// is left may be anything.
#[derive(Drop)]
pub(crate) struct TokenReader<'a> {
    way: Way<'a>,
}

impl<'a> Model for TokenReader<'a> {
    ghost use Rattle.std.specs.Prelude.{List};
    ghost use Rattle.json.specs.Token.{Token as SpecToken, tokens_code};

    ghost Value = { List SpecToken };

    ghost coded = { tokens_code };

    ghost use Rattle.oxc_sourcemap_json.specs.TokenReader.{tokens_of};

    ghost view = { λ a. tokens_of a.way };
}

impl<'a> TokenReader<'a> {
    /// Reads a text byte by byte, for as long as it is plain.
    pub(crate) fn plain(text: &'a str) -> TokenReader<'a>
        ensures { result ≡ tokens text.now }
    {
        TokenReader {
            way: Way::Plain(PlainReader::new(text)),
        }
    }

    /// Reads any text, with the memory of `scratch`. Fails only for want of memory.
    pub(crate) fn any(text: &'a str, scratch: &'a mut Scratch) -> Memory<TokenReader<'a>>
        ensures { IfOk result (λ reader. reader ≡ tokens text.now) }
    {
        Ok(TokenReader {
            way: Way::Any(Reader::new(text, scratch)?),
        })
    }

    /// Takes the brace that opens an object.
    pub(crate) fn begin_object(&mut self) -> bool
        ensures { IsTrue result → self.old ≡ spec.begin_object ∷ self.new }
    {
        match &mut self.way {
            Way::Plain(reader) => reader.open(b'{'),
            Way::Any(reader) => matches!(reader.next(), Some(Token::BeginObject)),
        }
    }

    /// Takes the bracket that opens a list.
    pub(crate) fn begin_array(&mut self) -> bool
        ensures { IsTrue result → self.old ≡ spec.begin_array ∷ self.new }
    {
        match &mut self.way {
            Way::Plain(reader) => reader.open(b'['),
            Way::Any(reader) => matches!(reader.next(), Some(Token::BeginArray)),
        }
    }

    /// Takes the bracket that closes a list, if it is next.
    pub(crate) fn take_end_array(&mut self) -> bool
        ensures { MatchBool result (after_end_array self.old ≡ Some self.new)
            (self.new ≡ self.old) }
    {
        match &mut self.way {
            Way::Plain(reader) => reader.take_end_array(),
            Way::Any(reader) => reader.take_end_array(),
        }
    }

    /// The next key, or None at the brace that closes an object.
    pub(crate) fn next_key(&mut self) -> Option<Option<&'a str>>
        ensures { IfSome result (λ key. read_key self.old
            ≡ Some (option_map (λ s. s.now) key, self.new)) }
    {
        match &mut self.way {
            Way::Plain(reader) => reader.next_key(),
            Way::Any(reader) => reader.next_key().ok(),
        }
    }

    /// The next value, if it is a text. Fails only for want of memory.
    pub(crate) fn next_text(&mut self, alloc: Global) -> Memory<Option<String>>
        ensures { IfOk result (λ found. IfSome found (λ text. self.old
            ≡ spec.string (string_bytes text) ∷ self.new)) }
    {
        match &mut self.way {
            Way::Plain(reader) => reader.next_text(alloc),
            Way::Any(reader) => match reader.next() {
                Some(Token::String(text)) => Ok(Some(String::from_str(alloc, text)?)),
                _ => Ok(None),
            },
        }
    }

    /// The next value, if it is a text. Read byte by byte, it is none with an escape.
    pub(crate) fn next_str(&mut self) -> Option<&'a str>
        ensures { IfSome result (λ text. self.old ≡ spec.string text.now ∷ self.new) }
    {
        match &mut self.way {
            Way::Plain(reader) => reader.next_str(),
            Way::Any(reader) => match reader.next() {
                Some(Token::String(text)) => Some(text),
                _ => None,
            },
        }
    }

    /// The next value, if it is a text, or None for null. Fails only for want of memory.
    pub(crate) fn next_content(&mut self, alloc: Global) -> Memory<Option<Option<String>>>
        ensures { IfOk result (λ found. IfSome found (λ content.
            MatchOption content (self.old ≡ spec.null ∷ self.new)
            (λ text. self.old ≡ spec.string (string_bytes text) ∷ self.new))) }
    {
        match &mut self.way {
            Way::Plain(reader) => {
                if reader.take_null() {
                    return Ok(Some(None));
                }
                match reader.next_text(alloc)? {
                    Some(text) => Ok(Some(Some(text))),
                    None => Ok(None),
                }
            }
            Way::Any(reader) => match reader.next() {
                Some(Token::String(text)) => Ok(Some(Some(String::from_str(alloc, text)?))),
                Some(Token::Null) => Ok(Some(None)),
                _ => Ok(None),
            },
        }
    }

    /// The digits of the next value, if it is a number. No number but 3 is plain.
    pub(crate) fn next_digits(&mut self) -> Option<&'a str>
        ensures { IfSome result (λ digits. self.old ≡ spec.number digits.now ∷ self.new) }
    {
        match &mut self.way {
            Way::Plain(reader) => {
                if reader.take_three() {
                    return Some("3");
                }
                None
            }
            Way::Any(reader) => match reader.next() {
                Some(Token::Number(digits)) => Some(digits),
                _ => None,
            },
        }
    }

    /// Whether nothing is left.
    pub(crate) fn is_at_end(&mut self) -> bool
        ensures { IsTrue result → self.old ≡ [] }
    {
        match &mut self.way {
            Way::Plain(reader) => reader.is_at_end(),
            Way::Any(reader) => reader.next().is_none(),
        }
    }
}
