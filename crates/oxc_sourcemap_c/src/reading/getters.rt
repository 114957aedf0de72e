//! What a map in a handle holds: numbers, texts and lists.
ghost use Rattle.std.specs.Prelude.{◌≡◌, [], Some, Ok, Err, map, length, slice_get, MatchOption};
ghost use Rattle.std.specs.Prelude.{MatchResult, option_map, ◌≢◌, drop};
ghost use Rattle.std.specs.Cow.{cow_str_bytes};
ghost use Rattle.std.specs.Option.{unwrap_or};
ghost use Rattle.oxc_sourcemap_c.specs.Words.{are_tokens_sorted, NullHandle, IsSound, held_map};
ghost use Rattle.oxc_sourcemap_c.specs.Words.{held_text, held_loaded, counts_of, numbers_of};
ghost use Rattle.oxc_sourcemap_c.specs.Words.{text_at, flag_of, IsFound, LendsText, filled};
ghost use Rattle.oxc_sourcemap_c.specs.Words.{IsContentText, AreFilled, IsListed, IsListedBy};
ghost use Rattle.oxc_sourcemap_c.specs.Words.{cow_texts, cow_options, bytes_of_texts, capped};
ghost use Rattle.oxc_sourcemap_c.specs.Words.{bytes_of_options, IsFlagOf, IsOptionListed};
ghost use Rattle.oxc_sourcemap_c.specs.Words.{lines_through, last, lent_item, map_bytes};
ghost use Rattle.oxc_sourcemap_c.specs.Words.{token_numbers, code_of, content_at, Found, HoldsText};
ghost use Rattle.oxc_sourcemap_c.specs.Words.{Lists, ListsBy, ListsOption, known_flag, known_flags};

use crate::answers::write_found;
use crate::holding::{Lent, LoadedMap};
use crate::numbers::CallError;
use crate::reading::asked::Asked;
use crate::texts::{Counts, Text, TokenNumbers};
use oxc_sourcemap_map::{OwnedSourceMap, parts_of};
use oxc_sourcemap_tokens::Token;
use std::borrow::CowStr;

/// How many lines there are up to that of the last token.
fn line_count(tokens: &[Token]) -> usize
    ensures { result ≡ lines_through (last tokens.now) }
{
    match tokens.last() {
        Some(token) => token.get_dst_line() as usize + 1,
        None => 0,
    }
}

/// The number of bytes of texts; 18446744073709551615 stands for more.
fn text_bytes(texts: &[CowStr<'_>]) -> usize
    ensures { result ≡ capped (bytes_of_texts (cow_texts texts.now)) }
{
    let mut total: usize = 0;
    for text in texts {
        total = total.saturating_add(text.as_str().len());
    }
    total
}

/// The number of bytes of contents, as far as they are known; 18446744073709551615 stands for more.
fn content_bytes(contents: &[Option<CowStr<'_>>]) -> usize
    ensures { result ≡ capped (bytes_of_options (cow_options contents.now)) }
{
    let mut total: usize = 0;
    for content in contents {
        if let Some(text) = content {
            total = total.saturating_add(text.as_str().len());
        }
    }
    total
}

/// The length of a text, 0 for none.
fn option_bytes(text: Option<&str>) -> usize
    ensures { result ≡ length (unwrap_or (lent_item text.entry) []) }
{
    match text {
        Some(text) => text.len(),
        None => 0,
    }
}

/// The length of a list of ids, 0 for none.
fn id_count(ids: Option<&[u32]>) -> usize
    ensures { result ≡ length (unwrap_or (lent_item ids.entry) []) }
{
    match ids {
        Some(ids) => ids.len(),
        None => 0,
    }
}

/// The number of bytes of memory that a map holds; 18446744073709551615 stands for more.
fn map_bytes(map: &OwnedSourceMap) -> usize
    ensures { result ≡ capped (map_bytes map.now) }
{
    let parts = parts_of(map.as_source_map());
    text_bytes(parts.names.as_slice())
        .saturating_add(text_bytes(parts.sources.as_slice()))
        .saturating_add(content_bytes(parts.source_contents.as_slice()))
        .saturating_add(option_bytes(map.get_file()))
        .saturating_add(option_bytes(map.get_source_root()))
        .saturating_add(option_bytes(map.get_debug_id()))
        .saturating_add(map.get_tokens().len().saturating_mul(24))
        .saturating_add(id_count(map.get_ignore_list()).saturating_mul(4))
}

fn counts_in(loaded: &LoadedMap) -> Counts
    ensures { result ≡ counts_of loaded.now }
{
    let map = loaded.map();
    Counts {
        tokens: map.get_tokens().len(),
        names: map.get_names().len(),
        sources: map.get_sources().len(),
        source_contents: map.get_source_contents().len(),
        ignore_list: id_count(map.get_ignore_list()),
        lines: line_count(loaded.tokens()),
        bytes: map_bytes(map).saturating_add(loaded.index_bytes()),
    }
}

/// The counts of the map in a handle.
fn counts(map: &Lent) -> Result<Counts, CallError>
    ensures found { MatchOption (held_loaded map.now.held) (result ≡ Err NullHandle)
        (λ l. result ≡ Ok (counts_of l)) }
{
    Ok(counts_in(map.map()?))
}

/// The numbers of tokens, names, sources, contents, ignored sources, lines and bytes of a map.
#[unsafe(no_mangle)]
pub extern "C" fn proved_get_counts(map: &Lent, out: &mut Counts) -> u32
    ensures found { MatchOption (held_loaded map.now.held) (result ≡ code_of NullHandle)
        (λ l. (result ≡ 0) × (out.new ≡ counts_of l)) }
    ensures unchanged { result ≢ 0 → out.new ≡ out.old }
{
    write_found(counts(map), out)
}

pub(crate) fn flag(is_so: bool) -> u32
    ensures { result ≡ flag_of is_so }
{
    if is_so { 1 } else { 0 }
}

/// 1 if the tokens of the map in a handle are sorted, else 0.
fn is_sorted(map: &Lent) -> Result<u32, CallError>
    ensures found { IsFound result map.now.held (λ m. Some (flag_of (are_tokens_sorted m.tokens)))
        (λ x is. x ≡ is) }
{
    let loaded = map.map()?;
    Ok(flag(loaded.map().as_source_map().is_sorted()))
}

/// Whether the tokens of a map are sorted: 1 or 0.
#[unsafe(no_mangle)]
pub extern "C" fn proved_is_sorted(map: &Lent, out: &mut u32) -> u32
    ensures found { Found result map.now.held (λ m. Some (flag_of (are_tokens_sorted m.tokens)))
        (λ is. out.new ≡ is) }
    ensures unchanged { result ≢ 0 → out.new ≡ out.old }
{
    write_found(is_sorted(map), out)
}

/// 1 if the map in a handle is sound, else 0.
fn is_sound(map: &Lent) -> Result<u32, CallError>
    ensures found { MatchOption (held_map map.now.held) (result ≡ Err NullHandle)
        (λ m. MatchResult result (IsFlagOf (IsSound m)) (λ _. ⊥)) }
{
    let loaded = map.map()?;
    Ok(flag(loaded.map().as_source_map().is_sound()))
}

/// Whether the tokens of a map are sorted, and its ids in range: 1 or 0.
#[unsafe(no_mangle)]
pub extern "C" fn proved_is_sound(map: &Lent, out: &mut u32) -> u32
    ensures found { MatchOption (held_map map.now.held) (result ≡ code_of NullHandle)
        (λ m. (result ≡ 0) × IsFlagOf (IsSound m) out.new) }
    ensures unchanged { result ≢ 0 → out.new ≡ out.old }
{
    write_found(is_sound(map), out)
}

/// A text of the map in a handle.
fn text_of_map<'c>(map: Lent, asked: Asked) -> Result<Text<'c>, CallError>
    ensures found { IsFound result map.held (λ m. text_at m asked) LendsText }
{
    let loaded = map.into_map()?;
    match asked.text_in(loaded.map()) {
        Some(text) => Ok(Text::of(text)),
        None => Err(CallError::NoEntry),
    }
}

/// The name with this id in a map, borrowed.
#[unsafe(no_mangle)]
pub extern "C" fn proved_get_name<'c>(map: Lent, id: u32, out: &mut Text<'c>) -> u32
    ensures found { Found result map.held (λ m. slice_get m.names id) (LendsText out.new) }
    ensures unchanged { result ≢ 0 → out.new ≡ out.old }
{
    write_found(text_of_map(map, Asked::Name(id)), out)
}

/// The source with this id in a map, borrowed.
#[unsafe(no_mangle)]
pub extern "C" fn proved_get_source<'c>(map: Lent, id: u32, out: &mut Text<'c>) -> u32
    ensures found { Found result map.held (λ m. slice_get m.sources id) (LendsText out.new) }
    ensures unchanged { result ≢ 0 → out.new ≡ out.old }
{
    write_found(text_of_map(map, Asked::Source(id)), out)
}

/// The content listed for the source with this id in a map, borrowed.
#[unsafe(no_mangle)]
pub extern "C" fn proved_get_source_content<'c>(map: Lent, id: u32, out: &mut Text<'c>) -> u32
    ensures found { Found result map.held (λ m. content_at m.source_contents id)
        (LendsText out.new) }
    ensures unchanged { result ≢ 0 → out.new ≡ out.old }
{
    write_found(text_of_map(map, Asked::SourceContent(id)), out)
}

/// The name of the generated file of a map, borrowed.
#[unsafe(no_mangle)]
pub extern "C" fn proved_get_file<'c>(map: Lent, out: &mut Text<'c>) -> u32
    ensures found { Found result map.held (λ m. m.file) (LendsText out.new) }
    ensures unchanged { result ≢ 0 → out.new ≡ out.old }
{
    write_found(text_of_map(map, Asked::File), out)
}

/// The source root of a map, borrowed.
#[unsafe(no_mangle)]
pub extern "C" fn proved_get_source_root<'c>(map: Lent, out: &mut Text<'c>) -> u32
    ensures found { Found result map.held (λ m. m.source_root) (LendsText out.new) }
    ensures unchanged { result ≢ 0 → out.new ≡ out.old }
{
    write_found(text_of_map(map, Asked::SourceRoot), out)
}

/// The debug id of a map, borrowed.
#[unsafe(no_mangle)]
pub extern "C" fn proved_get_debug_id<'c>(map: Lent, out: &mut Text<'c>) -> u32
    ensures found { Found result map.held (λ m. m.debug_id) (LendsText out.new) }
    ensures unchanged { result ≢ 0 → out.new ≡ out.old }
{
    write_found(text_of_map(map, Asked::DebugId), out)
}

/// The text in a handle.
fn written_text<'c>(string: Lent) -> Result<Text<'c>, CallError>
    ensures found { MatchOption (held_text string.held) (result ≡ Err NullHandle)
        (λ text. MatchResult result (λ t. LendsText t text) (λ _. ⊥)) }
{
    let bytes = string.into_text()?;
    Ok(Text::of_bytes(Some(bytes)))
}

/// The text of a string, borrowed.
#[unsafe(no_mangle)]
pub extern "C" fn proved_get_text<'c>(string: Lent, out: &mut Text<'c>) -> u32
    ensures found { HoldsText result string.held out.new }
    ensures unchanged { result ≢ 0 → out.new ≡ out.old }
{
    write_found(written_text(string), out)
}

/// A token of the map in a handle.
fn token(map: &Lent, index: u32) -> Result<TokenNumbers, CallError>
    ensures found { IsFound result map.now.held (λ m. slice_get m.tokens index)
        (λ x token. x ≡ numbers_of token) }
{
    let loaded = map.map()?;
    match loaded.map().get_token(index) {
        Some(token) => Ok(TokenNumbers::of(&token)),
        None => Err(CallError::NoEntry),
    }
}

/// The numbers of a token of a map.
#[unsafe(no_mangle)]
pub extern "C" fn proved_get_token(map: &Lent, index: u32, out: &mut TokenNumbers) -> u32
    ensures found { Found result map.now.held (λ m. slice_get m.tokens index)
        (λ token. out.new ≡ numbers_of token) }
    ensures unchanged { result ≢ 0 → out.new ≡ out.old }
{
    write_found(token(map, index), out)
}

/// Writes the numbers of as many tokens as there is room for.
fn write_tokens(tokens: &[Token], out: &mut [TokenNumbers])
    ensures { out.new ≡ filled (map numbers_of tokens.now) out.old }
{
    for i in 0..tokens.len().min(out.len()) {
        out[i] = TokenNumbers::of(&tokens[i]);
    }
}

/// Writes as many texts as there is room for.
fn write_texts<'c>(texts: &'c [CowStr<'_>], out: &mut [Text<'c>])
    ensures { AreFilled LendsText (cow_texts texts.now) out.old out.new }
{
    for i in 0..texts.len().min(out.len()) {
        out[i] = Text::of(texts[i].as_str());
    }
}

/// A content as it is stored, borrowed; it is empty if it is not known.
fn content_text<'c>(content: &'c Option<CowStr<'_>>) -> Text<'c>
    ensures { IsContentText result (option_map cow_str_bytes content.now) }
{
    match content {
        Some(text) => Text::of(text.as_str()),
        None => Text::of_option(None),
    }
}

/// Writes as many contents as there is room for; those that are not known are empty.
fn write_contents<'c>(contents: &'c [Option<CowStr<'_>>], out: &mut [Text<'c>])
    ensures { AreFilled IsContentText (cow_options contents.now) out.old out.new }
{
    for i in 0..contents.len().min(out.len()) {
        out[i] = content_text(&contents[i]);
    }
}

/// 1 if a content is known, else 0.
fn known_flag(content: &Option<CowStr<'_>>) -> u8
    ensures { result ≡ known_flag (option_map cow_str_bytes content.now) }
{
    if content.is_some() { 1 } else { 0 }
}

/// Writes whether each content is known, of as many as there is room for.
fn write_known(contents: &[Option<CowStr<'_>>], out: &mut [u8])
    ensures { out.new ≡ filled (known_flags (cow_options contents.now)) out.old }
{
    for i in 0..contents.len().min(out.len()) {
        out[i] = known_flag(&contents[i]);
    }
}

/// The contents from this one on.
fn contents_from<'c, 'a>(
    contents: &'c [Option<CowStr<'a>>],
    from: usize,
) -> &'c [Option<CowStr<'a>>]
    ensures { cow_options result.now ≡ drop from (cow_options contents.now) }
{
    &contents[from.min(contents.len())..]
}

/// Writes as many numbers as there is room for.
pub(crate) fn write_numbers(numbers: &[u32], out: &mut [u32])
    ensures { out.new ≡ filled numbers.now out.old }
{
    let count = numbers.len().min(out.len());
    out[..count].copy_from_slice(&numbers[..count]);
}

/// The number of tokens of the map in a handle. Writes as many as there is room for.
fn tokens(map: &Lent, out: &mut [TokenNumbers]) -> Result<usize, CallError>
    ensures found { IsListed result map.now.held token_numbers out.old out.new }
{
    let loaded = map.map()?;
    write_tokens(loaded.tokens(), out);
    Ok(loaded.tokens().len())
}

/// The numbers of all tokens of a map, as many as there is room for, and how many there are.
#[unsafe(no_mangle)]
pub extern "C" fn proved_get_tokens(map: &Lent, out: &mut [TokenNumbers], count: &mut usize) -> u32
    ensures listed { Lists result map.now.held token_numbers out.old out.new
        count.new }
    ensures unchanged { result ≢ 0 → (out.new ≡ out.old) × (count.new ≡ count.old) }
{
    write_found(tokens(map, out), count)
}

/// The number of names of the map in a handle. Writes as many as there is room for.
fn names<'c>(map: Lent, out: &mut [Text<'c>]) -> Result<usize, CallError>
    ensures found { IsListedBy LendsText result map.held (λ m. m.names) out.old out.new }
{
    let loaded = map.into_map()?;
    let names = parts_of(loaded.map().as_source_map()).names.as_slice();
    write_texts(names, out);
    Ok(names.len())
}

/// All names of a map, borrowed, as many as there is room for, and how many there are.
#[unsafe(no_mangle)]
pub extern "C" fn proved_get_names<'c>(map: Lent, out: &mut [Text<'c>], count: &mut usize) -> u32
    ensures listed { ListsBy LendsText result map.held (λ m. m.names)
        out.old out.new count.new }
    ensures unchanged { result ≢ 0 → (out.new ≡ out.old) × (count.new ≡ count.old) }
{
    write_found(names(map, out), count)
}

/// The number of sources of the map in a handle. Writes as many as there is room for.
fn sources<'c>(map: Lent, out: &mut [Text<'c>]) -> Result<usize, CallError>
    ensures found { IsListedBy LendsText result map.held (λ m. m.sources) out.old out.new }
{
    let loaded = map.into_map()?;
    let sources = parts_of(loaded.map().as_source_map()).sources.as_slice();
    write_texts(sources, out);
    Ok(sources.len())
}

/// All sources of a map, borrowed, as many as there is room for, and how many there are.
#[unsafe(no_mangle)]
pub extern "C" fn proved_get_sources<'c>(map: Lent, out: &mut [Text<'c>], count: &mut usize) -> u32
    ensures listed { ListsBy LendsText result map.held (λ m. m.sources)
        out.old out.new count.new }
    ensures unchanged { result ≢ 0 → (out.new ≡ out.old) × (count.new ≡ count.old) }
{
    write_found(sources(map, out), count)
}

/// The number of contents of the map in a handle from this one on. Writes as many as there is room for, and whether each is known.
fn source_contents<'c>(
    map: Lent,
    from: usize,
    out: &mut [Text<'c>],
    known: &mut [u8],
) -> Result<usize, CallError>
    ensures found { IsListedBy IsContentText result map.held (λ m. drop from m.source_contents)
        out.old out.new }
    ensures known { IsListed result map.held
        (λ m. known_flags (drop from m.source_contents)) known.old known.new }
{
    let loaded = map.into_map()?;
    let all = parts_of(loaded.map().as_source_map());
    let contents = contents_from(all.source_contents.as_slice(), from);
    write_contents(contents, out);
    write_known(contents, known);
    Ok(contents.len())
}

/// The contents of a map from one on, borrowed, as many as there is room for, whether each is known (1 or 0), and how many there are from
/// that one on. Those that are not known are empty.
#[unsafe(no_mangle)]
pub extern "C" fn proved_get_source_contents<'c>(
    map: Lent,
    from: usize,
    out: &mut [Text<'c>],
    known: &mut [u8],
    count: &mut usize,
) -> u32
    ensures listed { ListsBy IsContentText result map.held (λ m. drop from m.source_contents)
        out.old out.new count.new }
    ensures known { Lists result map.held
        (λ m. known_flags (drop from m.source_contents)) known.old known.new count.new }
    ensures unchanged { result ≢ 0 → (out.new ≡ out.old) × (known.new ≡ known.old)
        × (count.new ≡ count.old) }
{
    write_found(source_contents(map, from, out, known), count)
}

/// The number of ids in the ignore list of the map in a handle. Writes as many as there is room for. Fails with `NoEntry` if the
/// map has no ignore list.
fn ignore_list(map: &Lent, out: &mut [u32]) -> Result<usize, CallError>
    ensures found { IsOptionListed result map.now.held (λ m. m.ignore_list) out.old out.new }
{
    let loaded = map.map()?;
    let Some(ids) = loaded.map().get_ignore_list() else {
        return Err(CallError::NoEntry);
    };
    write_numbers(ids, out);
    Ok(ids.len())
}

/// The ignore list of a map, as many ids as there is room for, and how many there are. Fails if the map has none.
#[unsafe(no_mangle)]
pub extern "C" fn proved_get_ignore_list(map: &Lent, out: &mut [u32], count: &mut usize) -> u32
    ensures listed { ListsOption result map.now.held (λ m. m.ignore_list)
        out.old out.new count.new }
    ensures unchanged { result ≢ 0 → (out.new ≡ out.old) × (count.new ≡ count.old) }
{
    write_found(ignore_list(map, out), count)
}
