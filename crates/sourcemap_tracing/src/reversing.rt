//! What is generated from an original position, as it is printed.
ghost use Rattle.std.specs.Prelude.{◌≡◌, IfOk};
ghost use Rattle.std.specs.List.{flat_map};
ghost use Rattle.sourcemap_tracing.specs.Words.{OnlyMemory, OnlyAdds, Pushes, all_generated_for};
ghost use Rattle.sourcemap_tracing.specs.Words.{opened_object, generated_text, separator};
ghost use Rattle.sourcemap_tracing.specs.Words.{next_generated, generated_texts, is_there};
ghost use Rattle.sourcemap_tracing.specs.Words.{line_end, reversed_object, reversed_line};

use oxc_sourcemap_map::{IndexTokens, SourceIndex};
use oxc_sourcemap_tokens::{Position, Result, Token};
use sourcemap_run::{
    Style, from_base, push_number, push_number_member, push_number_part, push_text_member,
};
use std::alloc::Global;

/// Appends the beginning of an object, with a line and a column.
fn push_opened(alloc: Global, position: Position, base: u8, out: &mut String) -> Result<()>
    ensures text { Pushes result out.old out.new
        (opened_object base position.line position.column) }
    ensures error { OnlyMemory result }
    ensures adds { OnlyAdds out.old out.new }
{
    out.push_str("{\"line\":")?;
    push_number(alloc, from_base(position.line, base), out)?;
    push_number_member(alloc, "column", from_base(position.column, base), out)
}

/// Appends the generated position of a token.
fn push_token(alloc: Global, token: Token, style: Style, out: &mut String) -> Result<()>
    ensures text { Pushes result out.old out.new (generated_text style token) }
    ensures error { OnlyMemory result }
    ensures adds { OnlyAdds out.old out.new }
{
    let (line, column) = (token.get_dst_line(), token.get_dst_col());
    if style.json {
        push_opened(alloc, Position { line, column }, style.base, out)?;
        out.push_str("}")?;
        return Ok(());
    }
    push_number(alloc, from_base(line, style.base), out)?;
    push_number_part(alloc, column, style.base, out)
}

/// What is between two generated positions.
fn separator(json: bool) -> &'static str
    ensures { result.now ≡ separator json }
{
    if json { "," } else { " " }
}

/// Appends the generated positions of tokens that are behind another one.
fn push_more(alloc: Global, tokens: IndexTokens<'_>, style: Style, out: &mut String) -> Result<()>
    ensures text { Pushes result out.old out.new (flat_map (next_generated style) tokens.entry) }
    ensures error { OnlyMemory result }
    ensures adds { OnlyAdds out.old out.new }
{
    for token in tokens {
        out.push_str(separator(style.json))?;
        push_token(alloc, token, style, out)?;
    }
    Ok(())
}

/// Appends the generated positions of tokens, and returns whether there are any.
fn push_tokens(
    alloc: Global,
    tokens: IndexTokens<'_>,
    style: Style,
    out: &mut String,
) -> Result<bool>
    ensures text { Pushes result out.old out.new (generated_texts style tokens.entry) }
    ensures found { IfOk result (λ found. found ≡ is_there tokens.entry) }
    ensures error { OnlyMemory result }
    ensures adds { OnlyAdds out.old out.new }
{
    let mut tokens = tokens;
    let Some(first) = tokens.next() else {
        return Ok(false);
    };
    push_token(alloc, first, style, out)?;
    push_more(alloc, tokens, style, out)?;
    Ok(true)
}

/// How the line of generated positions ends, or the line for none.
fn line_end(found: bool) -> &'static str
    ensures { result.now ≡ line_end found }
{
    if found { "\n" } else { "nothing\n" }
}

/// Appends the object for an original position of which these tokens are generated.
fn push_reversed_object(
    alloc: Global,
    tokens: IndexTokens<'_>,
    source: &str,
    position: Position,
    style: Style,
    out: &mut String,
) -> Result<bool>
    ensures text { Pushes result out.old out.new
        (reversed_object style source.now position tokens.entry) }
    ensures found { IfOk result (λ found. found ≡ is_there tokens.entry) }
    ensures error { OnlyMemory result }
    ensures adds { OnlyAdds out.old out.new }
{
    push_opened(alloc, position, style.base, out)?;
    push_text_member("source", source, out)?;
    out.push_str(",\"generated\":[")?;
    let found = push_tokens(alloc, tokens, style, out)?;
    out.push_str("]}\n")?;
    Ok(found)
}

/// Appends the line for a position of the source with this id and path: the generated positions of `all_generated_for`. Returns whether
/// there are any.
pub fn push_reversed(
    alloc: Global,
    index: &SourceIndex<'_>,
    id: u32,
    source: &str,
    position: Position,
    style: Style,
    out: &mut String,
) -> Result<bool>
    ensures text { Pushes result out.old out.new (reversed_line style source.now position
        (all_generated_for id position.line position.column index.now)) }
    ensures found { IfOk result (λ found. found
        ≡ is_there (all_generated_for id position.line position.column index.now)) }
    ensures error { OnlyMemory result }
    ensures adds { OnlyAdds out.old out.new }
{
    let tokens = index.all_generated_for(id, position.line, position.column);
    if style.json {
        return push_reversed_object(alloc, tokens, source, position, style, out);
    }
    let found = push_tokens(alloc, tokens, style, out)?;
    out.push_str(line_end(found))?;
    Ok(found)
}
