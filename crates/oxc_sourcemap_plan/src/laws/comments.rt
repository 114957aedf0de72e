//! The law of a code without the comment by which it names its map.
ghost use Rattle.oxc_sourcemap_plan.specs.Words.{CommentIsCut, CommentIsCutApart};
ghost use Rattle.oxc_sourcemap_plan.specs.Words.{LineBeginsOutside};

/// A code without the comment that `source_mapping_comment` found has the URL known before, if any: `source_mapping_url` of `front`
/// and `back` together is that of `front` (`cut`), also with a space between them (`apart`). This takes what that call promises: the
/// comment begins outside of others, as each does that begins a line (`outside`), and what is behind it is quiet: white space and
/// comments that name no URL and may not end another text.
///
/// ```rust
/// use oxc_sourcemap::{Language, source_mapping_comment, source_mapping_url};
/// use oxc_sourcemap::laws::comment_is_cut;
///
/// comment_is_cut();
/// let code = "//# sourceMappingURL=a.js.map\n//# sourceMappingURL=b.js.map\n// end\n";
/// let mut kept = String::new(alloc);
/// if let Some(found) = source_mapping_comment(code, Language::JavaScript) {
///     kept.push_str(found.front)?;
///     kept.push_str(found.back)?;
/// }
/// assert_eq!(rt; kept.as_str(), "//# sourceMappingURL=a.js.map\n\n// end\n");
/// assert_eq!(rt; source_mapping_url(&kept, Language::JavaScript), Some("a.js.map"));
/// ```
pub fn comment_is_cut()
    ensures cut { CommentIsCut }
    ensures apart { CommentIsCutApart }
    ensures outside { LineBeginsOutside }
{}
