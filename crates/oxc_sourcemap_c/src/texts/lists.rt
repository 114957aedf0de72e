//! Lists that C passes: texts as bytes, and numbers.
ghost use Rattle.std.specs.Prelude.{◌≡◌, ◌≢◌, map, get_or, IfOk, IfErr};
ghost use Rattle.oxc_sourcemap_c.specs.Words.{out_of_memory, lent_item, lent_items, token_of};
ghost use Rattle.oxc_sourcemap_c.specs.Words.{AreTexts, IsNotTexts, known_text, known_texts};
ghost use Rattle.oxc_sourcemap_c.specs.Words.{AreContents, IsNotContent, IsNotContents};
ghost use Rattle.oxc_sourcemap_c.specs.Words.{IsContent, id_of};

use crate::numbers::call_error::CallError;
use crate::texts::text::TokenNumbers;
use crate::texts::utf8::text_of;
use oxc_sourcemap_tokens::Token;
use std::alloc::Global;

/// Bytes as texts. Fails with `NotUtf8` for the first that are not UTF-8, or for want of memory.
pub fn texts_of<'t>(alloc: Global, list: &[&'t [u8]]) -> Result<Vec<&'t str>, CallError>
    ensures texts { IfOk result (λ texts. (lent_items texts.items ≡ lent_items list.now)
        × AreTexts (lent_items list.now)) }
    ensures error { IfErr result (λ r. (r ≢ out_of_memory) → IsNotTexts (lent_items list.now) r) }
{
    let mut texts = Vec::with_capacity(alloc, list.len())?;
    for bytes in list {
        texts.push(text_of(bytes)?)?;
    }
    Ok(texts)
}

/// Bytes as a content, None if the flag is 0. Fails with `NotUtf8` if it is known and no text.
fn content_of(bytes: &[u8], known: u8) -> Result<Option<&str>, CallError>
    ensures content { IfOk result (λ content. (lent_item content ≡ known_text bytes.now known)
        × IsContent (known_text bytes.now known)) }
    ensures error { IfErr result (IsNotContent (known_text bytes.now known)) }
{
    if known == 0 {
        return Ok(None);
    }
    Ok(Some(text_of(bytes)?))
}

/// The flag at an index, 0 if there is none.
fn flag_at(flags: &[u8], i: usize) -> u8
    ensures { result ≡ get_or flags.now i 0 }
{
    match flags.get(i) {
        Some(flag) => *flag,
        None => 0,
    }
}

/// Bytes as contents: one whose flag is 0, or has no flag, is not known. Fails with `NotUtf8` for the first known one that is
/// not UTF-8, or for want of memory.
pub fn contents_of<'t>(
    alloc: Global,
    list: &[&'t [u8]],
    known: &[u8],
) -> Result<Vec<Option<&'t str>>, CallError>
    ensures contents { IfOk result (λ contents. (map lent_item contents.items
        ≡ known_texts (lent_items list.now) known.now)
        × AreContents (known_texts (lent_items list.now) known.now)) }
    ensures error { IfErr result (λ r. (r ≢ out_of_memory)
        → IsNotContents (known_texts (lent_items list.now) known.now) r) }
{
    let mut contents = Vec::with_capacity(alloc, list.len())?;
    for i in 0..list.len() {
        contents.push(content_of(list[i], flag_at(known, i))?)?;
    }
    Ok(contents)
}

/// A number as an id; 4294967295 stands for none.
fn id_of(number: u32) -> Option<u32>
    ensures { result ≡ id_of number }
{
    if number == 4294967295 {
        None
    } else {
        Some(number)
    }
}

/// The token of these numbers.
fn token_of(numbers: &TokenNumbers) -> Token
    ensures { result ≡ token_of numbers.now }
{
    Token::new(
        numbers.dst_line,
        numbers.dst_col,
        numbers.src_line,
        numbers.src_col,
        id_of(numbers.source_id),
        id_of(numbers.name_id),
    )
}

/// The tokens of these numbers. Fails only for want of memory.
pub fn tokens_of(alloc: Global, list: &[TokenNumbers]) -> Result<Vec<Token>, CallError>
    ensures tokens { IfOk result (λ tokens. tokens.items ≡ map token_of list.now) }
    ensures error { IfErr result (λ r. r ≡ out_of_memory) }
{
    let mut tokens = Vec::with_capacity(alloc, list.len())?;
    for numbers in list {
        tokens.push(token_of(numbers))?;
    }
    Ok(tokens)
}
