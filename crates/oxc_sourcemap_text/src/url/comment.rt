//! What a comment says of the map.
ghost use Rattle.std.specs.Prelude.{◌≡◌, ◌++◌, ◌∷◌, ℕ, List, false, codes, nat_eq, IfSome, IsNone};
ghost use Rattle.std.specs.Prelude.{Some};
ghost use Rattle.std.specs.Option.{option_map};
ghost use Rattle.std.specs.Char.{is_whitespace};
ghost use Rattle.std.specs.List.{starts_with, list_any};
ghost use Rattle.std.specs.Str.{chars, IsUtf8, skip_leading_whitespace, drop_trailing_whitespace};
ghost use Rattle.oxc_sourcemap_text.specs.Words.{lent_chars, behind_mark, behind_key};
ghost use Rattle.oxc_sourcemap_text.specs.Words.{without_white_space};
ghost use Rattle.oxc_sourcemap_text.specs.Words.{named_url, around_block_end, may_end_another};
ghost use Rattle.oxc_sourcemap_text.specs.Words.{known_after, is_mark, is_quote, url_of};
ghost use Rattle.oxc_sourcemap_text.specs.Words.{IsKnownAfter};

use crate::url::line::strip_char;

/// What is before the first `*/`, and behind it.
pub(crate) fn around_block_end(text: &str) -> Option<(&str, &str)>
    ensures parts { option_map (λ parts. (chars parts.0.now, chars parts.1.now)) result
        ≡ around_block_end (chars text.now) }
    ensures whole { IfSome result (λ parts. text.now ≡ parts.0.now ++ 42 ∷ 47 ∷ parts.1.now) }
    ensures front { IfSome result (λ parts. IsUtf8 parts.0.now) }
    ensures utf8 { IfSome result (λ parts. IsUtf8 parts.1.now) }
{
    match text.split_once("*/") {
        Some((before, after)) => Some((before, after)),
        None => None,
    }
}

/// Whether this is a quote, an apostrophe or a backtick.
fn is_quote(ch: char) -> bool
    ensures { result ≡ is_quote ch }
{
    ch == '"' || (ch == '\'' || ch == '`')
}

/// Whether a text has a quote, an apostrophe or a backtick.
fn has_quote(text: &str) -> bool
    ensures { result ≡ list_any is_quote (chars text.now) }
{
    let mut rest = text.chars();
    while let Some(ch) = rest.next() {
        if is_quote(ch) {
            return true;
        }
    }
    false
}

/// Whether a text has white space.
fn has_white_space(text: &str) -> bool
    ensures { result ≡ list_any is_whitespace (chars text.now) }
{
    let mut rest = text.chars();
    while let Some(ch) = rest.next() {
        if ch.is_whitespace() {
            return true;
        }
    }
    false
}

/// Whether a comment may end a string, a template or a comment that began on an earlier line.
fn may_end_another(comment: &str) -> bool
    ensures { result ≡ may_end_another (chars comment.now) }
{
    has_quote(comment) || around_block_end(comment).is_some()
}

/// Whether this is `#` or the older `@`.
fn is_mark(ch: char) -> bool
    ensures { result ≡ is_mark ch }
{
    ch == '#' || ch == '@'
}

/// What is behind the first character, if that is a mark.
fn behind_mark(comment: &str) -> Option<&str>
    ensures { lent_chars result ≡ behind_mark (chars comment.now) }
{
    let mut rest = comment.chars();
    let first = rest.next()?;
    if is_mark(first) {
        Some(rest.as_str())
    } else {
        None
    }
}

/// What is behind the key, if the text begins with it.
fn strip_key(text: &str) -> Option<&str>
    ensures some { IfSome result (λ rest. chars text.now
        ≡ codes "sourceMappingURL=" ++ chars rest.now) }
    ensures none { IsNone result
        → starts_with nat_eq (chars text.now) (codes "sourceMappingURL=") ≡ false }
{
    match text.strip_prefix("sourceMappingURL=") {
        Some(rest) => Some(rest),
        None => None,
    }
}

/// A text without the white space at its start.
fn trim_start(text: &str) -> &str
    ensures { chars result.now ≡ skip_leading_whitespace (chars text.now) }
{
    text.trim_start()
}

/// A text without the white space at its end.
fn trim_end(text: &str) -> &str
    ensures { chars result.now ≡ drop_trailing_whitespace (chars text.now) }
{
    text.trim_end()
}

/// The text, if it has no white space.
fn without_white_space(text: &str) -> Option<&str>
    ensures { lent_chars result ≡ without_white_space (chars text.now) }
{
    if has_white_space(text) {
        None
    } else {
        Some(text)
    }
}

/// What is behind the key, without white space at its end.
fn behind_key(text: &str) -> Option<&str>
    ensures { lent_chars result ≡ behind_key (chars text.now) }
{
    match strip_key(text) {
        Some(rest) => without_white_space(trim_end(rest)),
        None => None,
    }
}

/// The URL that a comment names.
fn named_url(comment: &str) -> Option<&str>
    ensures { lent_chars result ≡ named_url (chars comment.now) }
{
    match behind_mark(comment) {
        Some(rest) => behind_key(trim_start(rest)),
        None => None,
    }
}

/// Where a comment of a code stands: what is behind its first two characters on its line, what of that is behind the comment, and
/// what is behind the line.
#[derive(Clone, Copy)]
pub(crate) struct Place<'c> {
    pub text: &'c str,
    pub rest: &'c str,
    pub after: &'c str,
}

/// A comment that names a URL.
#[derive(Clone, Copy)]
pub(crate) struct Naming<'c> {
    pub place: Place<'c>,
    pub url: &'c str,
}

/// What is known of the URL after a comment at this place.
pub(crate) fn known_after<'c>(
    known: Option<Naming<'c>>,
    comment: &'c str,
    place: Place<'c>,
) -> Option<Naming<'c>>
    ensures url { url_of result
        ≡ known_after (url_of known.entry) (Some (chars comment.now)) }
    ensures place { IfSome result (IsKnownAfter known.entry (chars comment.now) place.entry) }
{
    if may_end_another(comment) {
        return None;
    }
    match named_url(comment) {
        Some(url) => Some(Naming { place, url }),
        None => known,
    }
}

/// The white space at the end of a comment that ends with its line.
pub(crate) fn space_at_end(text: &str) -> &str
    ensures cut { (inner : List ℕ) × (text.now ≡ inner ++ result.now)
        × (chars inner ≡ drop_trailing_whitespace (chars text.now)) × IsUtf8 inner }
    ensures utf8 { IsUtf8 result.now }
{
    let front = trim_end(text);
    text.split_at(front.len()).1
}
