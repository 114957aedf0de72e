//! The URL that a code names for its map.
ghost use Rattle.std.specs.Prelude.{◌≡◌, ◌++◌, ◌∷◌, ℕ, List, [], fold, length, None, Some, IfSome};
ghost use lib.Utf8.{encode};
ghost use Rattle.std.specs.Option.{option_map};
ghost use Rattle.std.specs.Str.{chars, IsUtf8};
ghost use Rattle.oxc_sourcemap_text.specs.Words.{lent_chars, pieces, known_after, mapping_url};
ghost use Rattle.oxc_sourcemap_text.specs.Words.{IsCommentAt, IsPlaced, IsMappingComment};
ghost use Rattle.oxc_sourcemap_text.specs.Words.{second_of, url_of, url_known, all_pieces, IsQuiet};
ghost use Rattle.oxc_sourcemap_text.specs.Words.{IsLastUpTo, IsLineOf, pieces_left};
ghost use Rattle.oxc_sourcemap_text.specs.Words.{AreReadApart, BeginsOutside, lines_of};

use crate::url::comment::{Naming, Place, around_block_end, known_after, space_at_end};
use crate::url::language::Language;
use crate::url::line::{split_line, strip_char};

/// Whether a comment begins at this character, where this text follows: None if none does; else whether it is one that ends with
/// the line, and what is behind its first two characters.
fn comment_at(ch: char, after: &str, slashes: bool) -> Option<(bool, &str)>
    ensures at { IsCommentAt slashes ch (chars after.now) result }
    ensures bytes { IfSome result (λ found. after.now
        ≡ encode (second_of found.0) ++ found.1.now) }
{
    if ch != '/' {
        return None;
    }
    if let Some(text) = strip_char(after, '*') {
        return Some((false, text));
    }
    if !slashes {
        return None;
    }
    match strip_char(after, '/') {
        Some(text) => Some((true, text)),
        None => None,
    }
}

/// What is known of the URL after a line, where this is known before it, and this text follows it.
fn read_line<'c>(
    line: &'c str,
    after: &'c str,
    slashes: bool,
    before: Option<Naming<'c>>,
) -> Option<Naming<'c>>
    ensures url { url_of result
        ≡ fold known_after (url_of before.entry) (pieces slashes None (chars line.now)) }
    ensures placed { (code front : List ℕ) → code ≡ front ++ line.now ++ after.now → IsUtf8 front
        → AreReadApart slashes (chars front) (chars line.now ++ chars after.now)
        → IsLineOf slashes (chars line.now) (chars after.now)
        → IfSome before.entry (IsPlaced slashes code) → IfSome result (IsPlaced slashes code) }
    ensures last { IsLineOf slashes (chars line.now) (chars after.now)
        → IfSome before.entry
        (IsLastUpTo slashes (pieces_left slashes (chars line.now) (chars after.now)))
        → IfSome result (IsLastUpTo slashes (all_pieces slashes (chars after.now))) }
{
    let mut known = before;
    let mut rest = line.chars();
    while let Some(ch) = rest.next() {
        if ch.is_whitespace() {
            continue;
        }
        let Some((ends_with_line, text)) = comment_at(ch, rest.as_str(), slashes) else {
            known = None;
            continue;
        };
        if ends_with_line {
            let rest = space_at_end(text);
            return known_after(known, text, Place { text, rest, after });
        }
        let (comment, code) = around_block_end(text)?;
        let place = Place {
            text,
            rest: code,
            after,
        };
        known = known_after(known, comment, place);
        rest = code.chars();
    }
    known
}

/// The comment by which a code names its map.
#[tactic(auto, unfolding(crate::specs::MappingUrls::url_known))]
fn naming<'c>(code: &'c str, slashes: bool) -> Option<Naming<'c>>
    ensures url { url_of result ≡ url_known slashes (chars code.now) }
    ensures placed { IfSome result (IsPlaced slashes code.now) }
    ensures last { IfSome result (IsLastUpTo slashes []) }
{
    let mut known = None;
    let mut rest = code;
    while let Some((line, after)) = split_line(rest) {
        known = read_line(line, after, slashes, known);
        rest = after;
    }
    read_line(rest, "", slashes, known)
}

/// The comment by which a code names its map, and what stands around it: `front`, `comment` and `back` are the code.
#[derive(Clone, Copy, Debug, PartialEq, Eq)]
pub struct SourceMappingComment<'c> {
    /// What stands before the comment.
    pub front: &'c str,
    /// The comment. One that ends with its line is without that end, and without white space before it.
    pub comment: &'c str,
    /// The URL in it.
    pub url: &'c str,
    /// What stands behind the comment: white space, and comments that name no URL.
    pub back: &'c str,
}

/// The comment by which a code names its map, with the URL that `source_mapping_url` finds. The comment begins outside of those
/// before it on its line; it and what stands behind it name the URL by themselves. Takes no memory. `front` and `back` together are
/// the code without the comment: they have the URL known before, if any (the law `comment_is_cut`). With a space between them they
/// have as many lines as the code; without it, a carriage return at the end of `front` and a line feed at the beginning of `back`
/// are one end of a line.
///
/// ```rust
/// use oxc_sourcemap::{Language, source_mapping_comment};
///
/// let code = "let a = 1;\n//# sourceMappingURL=a.js.map\n// end\n";
/// if let Some(found) = source_mapping_comment(code, Language::JavaScript) {
///     assert_eq!(rt; found.front, "let a = 1;\n");
///     assert_eq!(rt; found.comment, "//# sourceMappingURL=a.js.map");
///     assert_eq!(rt; found.url, "a.js.map");
///     assert_eq!(rt; found.back, "\n// end\n");
/// }
/// ```
pub fn source_mapping_comment(code: &str, language: Language) -> Option<SourceMappingComment<'_>>
    ensures url { option_map (λ found. chars found.url.now) result
        ≡ mapping_url language (chars code.now) }
    ensures cut { IfSome result (λ found. code.now
        ≡ found.front.now ++ found.comment.now ++ found.back.now) }
    ensures comment { IfSome result (λ found.
        IsMappingComment language (chars found.comment.now) (chars found.url.now)) }
    ensures outside { IfSome result (λ found. BeginsOutside language
        (chars found.front.now) (chars found.comment.now ++ chars found.back.now)) }
    ensures names { IfSome result (λ found. mapping_url language
        (chars found.comment.now ++ chars found.back.now) ≡ Some (chars found.url.now)) }
    ensures last { IfSome result (λ found. IsQuiet language (chars found.back.now)) }
    ensures lines { IfSome result (λ found.
        length (lines_of (chars found.front.now ++ 32 ∷ chars found.back.now))
        ≡ length (lines_of (chars code.now))) }
{
    let Naming { place, url } = naming(code, language.has_line_comments())?;
    let (text, rest, after) = (place.text, place.rest, place.after);
    let (front, from) = code.split_at(code.len() - after.len() - text.len() - 2);
    let (comment, back) = from.split_at(2 + (text.len() - rest.len()));
    Some(SourceMappingComment {
        front,
        comment,
        url,
        back,
    })
}

/// The URL that a code names for its map in a comment `//# sourceMappingURL=URL` or `/*# sourceMappingURL=URL */`, or with `@` in
/// place of `#`; in CSS only the second counts. The code is not parsed (ECMA-426, extraction without parsing): the last such
/// comment counts, if only white space and comments follow it. Takes no memory.
///
/// Lines end as in JavaScript. A comment begins where it is not in another one, also if that place is in a string. The comment is on
/// one line, the URL has no white space, and may be empty. The URL is forgotten at other code, at a comment `/*` that its line does
/// not end, and at a comment with a quote, an apostrophe, a backtick or `*/` in it, since the URL may then be in a string, a
/// template or a longer comment.
///
/// ```rust
/// use oxc_sourcemap::{Language, source_mapping_url};
///
/// let code = "let a = 1;\n//# sourceMappingURL=a.js.map\n";
/// assert_eq!(rt; source_mapping_url(code, Language::JavaScript), Some("a.js.map"));
/// assert_eq!(rt; source_mapping_url("a{}\n//# sourceMappingURL=a.css.map", Language::Css), None);
/// ```
pub fn source_mapping_url(code: &str, language: Language) -> Option<&str>
    ensures { lent_chars result ≡ mapping_url language (chars code.now) }
{
    match naming(code, language.has_line_comments()) {
        Some(naming) => Some(naming.url),
        None => None,
    }
}
