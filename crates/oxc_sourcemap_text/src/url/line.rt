//! The lines of a code, one by one.
ghost use Rattle.std.specs.Prelude.{◌≡◌, ◌<◌, ◌∷◌, ◌++◌, [], false, length, IfSome, IsNone};
ghost use lib.Utf8.{encode};
ghost use Rattle.std.specs.Str.{chars, IsUtf8};
ghost use Rattle.oxc_sourcemap_text.specs.Words.{begins_with, ends_line, lines_of};

/// What is behind this character, if the text begins with it.
pub(crate) fn strip_char(text: &str, ch: char) -> Option<&str>
    ensures some { IfSome result (λ rest. chars text.now ≡ ch ∷ chars rest.now) }
    ensures bytes { IfSome result (λ rest. text.now ≡ encode ch ++ rest.now) }
    ensures none { IsNone result → begins_with ch (chars text.now) ≡ false }
{
    let mut rest = text.chars();
    let first = rest.next()?;
    if first == ch {
        Some(rest.as_str())
    } else {
        None
    }
}

/// Whether a line ends after this character, where this text follows.
fn ends_line(ch: char, after: &str) -> bool
    ensures { result ≡ ends_line ch (chars after.now) }
{
    match ch {
        '\n' | '\u{2028}' | '\u{2029}' => true,
        '\r' => strip_char(after, '\n').is_none(),
        _ => false,
    }
}

/// The first line of a text, with its end, and what follows it. None if no line ends.
pub fn split_line(text: &str) -> Option<(&str, &str)>
    ensures cut { IfSome result (λ parts. lines_of (chars text.now)
        ≡ chars parts.0.now ∷ lines_of (chars parts.1.now)) }
    ensures whole { IfSome result (λ parts. text.now ≡ parts.0.now ++ parts.1.now) }
    ensures front { IfSome result (λ parts. IsUtf8 parts.0.now) }
    ensures utf8 { IfSome result (λ parts. IsUtf8 parts.1.now) }
    ensures shorter { IfSome result (λ parts. length parts.1.now < length text.now) }
    ensures last { IsNone result → lines_of (chars text.now) ≡ chars text.now ∷ [] }
{
    let mut rest = text.chars();
    while let Some(ch) = rest.next() {
        let after = rest.as_str();
        if ends_line(ch, after) {
            return Some(text.split_at(text.len() - after.len()));
        }
    }
    None
}
