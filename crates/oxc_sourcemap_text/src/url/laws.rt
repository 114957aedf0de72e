//! The law of the comment by which a code names its map.
ghost use Rattle.oxc_sourcemap_text.specs.Words.{AppendedIsFound};

/// A comment that is put behind a code, on a line of its own, is the one by which the code names its map: `source_mapping_url` of
/// `code`, `"\n//# sourceMappingURL="`, `url` and `"\n"` is this URL, whatever the code; in CSS with `"\n/*# sourceMappingURL="` and
/// `" */\n"`. The URL must have no white space, no quote, apostrophe or backtick, and no `*/`.
///
/// ```rust
/// use oxc_sourcemap::{Language, source_mapping_url};
/// use oxc_sourcemap::laws::appended_comment_found;
///
/// appended_comment_found();
/// let code = "let a = `\n//# sourceMappingURL=a.js.map\n`;\n//# sourceMappingURL=b.js.map\n";
/// assert_eq!(rt; source_mapping_url(code, Language::JavaScript), Some("b.js.map"));
/// ```
pub fn appended_comment_found()
    ensures { AppendedIsFound }
{}
