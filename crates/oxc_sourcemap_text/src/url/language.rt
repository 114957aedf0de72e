//! The languages of codes.

/// The language of a code, by its comments: `//` begins one in JavaScript alone, `/*` in both.
#[derive(Clone, Copy, Debug, PartialEq, Eq)]
pub enum Language {
    JavaScript,
    Css,
}

impl Language {
    ghost use Rattle.std.specs.Prelude.{◌≡◌};
    ghost use Rattle.oxc_sourcemap_text.specs.Words.{has_line_comments};

    /// Whether `//` begins a comment.
    pub(crate) fn has_line_comments(self) -> bool
        ensures { result ≡ has_line_comments self }
    {
        match self {
            Language::JavaScript => true,
            Language::Css => false,
        }
    }
}
