//! How texts are shown.
ghost use Rattle.std.specs.Prelude.{◌≡◌, ◌%◌, ◌∷◌, [], chars};
ghost use Rattle.std.specs.Char.{digit_char};
ghost use Rattle.std.specs.List.{list_all};
ghost use Rattle.sourcemap_texts.specs.Words.{OnlyMemory, OnlyAdds, Pushes, is_hidden, shown};
ghost use Rattle.sourcemap_texts.specs.Words.{unicode_escape, visible_char, visible};
ghost use Rattle.sourcemap_texts.specs.Words.{visible_string, is_plain};
ghost use Rattle.sourcemap_texts.specs.Words.{VisibleStringsToldApart};

use oxc_sourcemap_json::push_json_string;
use oxc_sourcemap_tokens::Result;

/// Whether a character is a control character (C0, DEL and C1), or a mark of the direction of text.
pub fn is_hidden(ch: char) -> bool
    ensures { result ≡ is_hidden ch }
{
    matches!(ch, '\0'..='\u{1f}' | '\u{7f}'..='\u{9f}' | '\u{61c}' | '\u{200e}'..='\u{200f}')
        || matches!(ch, '\u{202a}'..='\u{202e}' | '\u{2066}'..='\u{2069}')
}

/// Appends a hexadecimal digit, the lowest one of a number.
fn push_digit(number: u32, out: &mut String) -> Result<()>
    ensures text { Pushes result out.old out.new (digit_char (number % 16) ∷ []) }
    ensures error { OnlyMemory result }
    ensures adds { OnlyAdds out.old out.new }
{
    out.push(char::from_digit(number % 16, 16).unwrap())?;
    Ok(())
}

/// Appends `\u` and the four hexadecimal digits of a character below U+10000.
fn push_unicode_escape(ch: char, out: &mut String) -> Result<()>
    ensures text { Pushes result out.old out.new (unicode_escape ch) }
    ensures error { OnlyMemory result }
    ensures adds { OnlyAdds out.old out.new }
{
    let number = u32::from(ch);
    out.push_str("\\u")?;
    push_digit(number / 4096, out)?;
    push_digit(number / 256, out)?;
    push_digit(number / 16, out)?;
    push_digit(number, out)
}

/// Appends a character: as it is, or escaped if it is hidden.
pub fn push_visible_char(ch: char, out: &mut String) -> Result<()>
    ensures text { Pushes result out.old out.new (visible_char ch) }
    ensures error { OnlyMemory result }
    ensures adds { OnlyAdds out.old out.new }
{
    if is_hidden(ch) {
        return push_unicode_escape(ch, out);
    }
    out.push(ch)?;
    Ok(())
}

/// Appends a text, each hidden character as `\u` and four hexadecimal digits, so that no terminal obeys it.
pub fn push_visible(text: &str, out: &mut String) -> Result<()>
    ensures text { Pushes result out.old out.new (visible text.now) }
    ensures error { OnlyMemory result }
    ensures adds { OnlyAdds out.old out.new }
{
    for ch in text.chars() {
        push_visible_char(ch, out)?;
    }
    Ok(())
}

/// Appends a text as a JSON string, in which hidden characters are escaped also where JSON allows them.
pub fn push_visible_string(text: &str, out: &mut String) -> Result<()>
    ensures text { Pushes result out.old out.new (visible_string text.now) }
    ensures error { OnlyMemory result }
    ensures adds { OnlyAdds out.old out.new }
{
    let mut string = String::new(*out.allocator());
    push_json_string(text, &mut string)?;
    push_visible(string.as_str(), out)
}

/// Strings can be distinguished: equal texts that begin with the strings of two texts, as `push_visible_string` writes them, begin with
/// the string of one text, and continue alike. So a string determines its text and its end, whatever is written behind it.
pub fn visible_strings_told_apart()
    ensures { VisibleStringsToldApart }
{}

/// Whether a path or a name may be printed as it is: no character is hidden or a quote.
fn is_plain(text: &str) -> bool
    ensures { result ≡ list_all is_plain (chars text.now) }
{
    text.chars().all(|ch| ch != '"' && !is_hidden(ch))
}

/// Appends a path or a name: as it is, or as a JSON string if it has a hidden character or a quote.
pub fn push_shown(text: &str, out: &mut String) -> Result<()>
    ensures text { Pushes result out.old out.new (shown text.now) }
    ensures error { OnlyMemory result }
    ensures adds { OnlyAdds out.old out.new }
{
    if !is_plain(text) {
        return push_visible_string(text, out);
    }
    out.push_str(text)?;
    Ok(())
}
