//! How messages, paths, names and numbers are printed.
ghost use Rattle.std.specs.Prelude.{◌≡◌, ◌+◌, decimal};
ghost use Rattle.sourcemap_run.specs.Words.{OnlyMemory, OnlyAdds, Pushes, lent_item};
ghost use Rattle.sourcemap_run.specs.Words.{number_part, original_text, name_part, original_seen};
ghost use Rattle.sourcemap_run.specs.Words.{number_member, text_member, name_member};
ghost use Rattle.sourcemap_run.specs.Words.{without_comma, object_text};

use crate::tracer::Spot;
use oxc_sourcemap_tokens::Result;
use sourcemap_texts::{push_shown, push_visible_string};
use std::alloc::Global;

/// A line or a column from 0, as it is counted from `base`.
pub fn from_base(number: u32, base: u8) -> u64
    ensures { result ≡ number + base }
{
    u64::from(number) + u64::from(base)
}

/// Appends a number.
pub fn push_number(alloc: Global, number: u64, out: &mut String) -> Result<()>
    ensures text { Pushes result out.old out.new (decimal number) }
    ensures error { OnlyMemory result }
    ensures adds { OnlyAdds out.old out.new }
{
    out.push_str(number.to_string(alloc)?.as_str())?;
    Ok(())
}

/// Appends a colon and a number, counted from `base`.
pub fn push_number_part(alloc: Global, number: u32, base: u8, out: &mut String) -> Result<()>
    ensures text { Pushes result out.old out.new (number_part (number + base)) }
    ensures error { OnlyMemory result }
    ensures adds { OnlyAdds out.old out.new }
{
    out.push(':')?;
    push_number(alloc, from_base(number, base), out)
}

/// Appends a space and a name, if there is one.
pub(crate) fn push_name_part(name: Option<&str>, out: &mut String) -> Result<()>
    ensures text { Pushes result out.old out.new (name_part (lent_item name.entry)) }
    ensures error { OnlyMemory result }
    ensures adds { OnlyAdds out.old out.new }
{
    let Some(name) = name else {
        return Ok(());
    };
    out.push(' ')?;
    push_shown(name, out)
}

/// Appends a place as `SOURCE:LINE:COLUMN`, counted from `base`.
pub fn push_original(alloc: Global, spot: &Spot<'_>, base: u8, out: &mut String) -> Result<()>
    ensures text { Pushes result out.old out.new (original_text base (original_seen spot.now)) }
    ensures error { OnlyMemory result }
    ensures adds { OnlyAdds out.old out.new }
{
    push_shown(spot.source, out)?;
    push_number_part(alloc, spot.line, base, out)?;
    push_number_part(alloc, spot.column, base, out)
}

/// Appends a comma and a member of a JSON object, of a number.
#[tactic(auto, unfolding(crate::specs::Texts::number_member))]
pub fn push_number_member(alloc: Global, key: &str, number: u64, out: &mut String) -> Result<()>
    ensures text { Pushes result out.old out.new (number_member key.now number) }
    ensures error { OnlyMemory result }
    ensures adds { OnlyAdds out.old out.new }
{
    out.push_str(",\"")?;
    out.push_str(key)?;
    out.push_str("\":")?;
    push_number(alloc, number, out)
}

/// Appends a comma and a member of a JSON object, of a text. The key has no character that JSON escapes.
#[tactic(auto, unfolding(crate::specs::Texts::text_member))]
pub fn push_text_member(key: &str, text: &str, out: &mut String) -> Result<()>
    ensures text { Pushes result out.old out.new (text_member key.now text.now) }
    ensures error { OnlyMemory result }
    ensures adds { OnlyAdds out.old out.new }
{
    out.push_str(",\"")?;
    out.push_str(key)?;
    out.push_str("\":")?;
    push_visible_string(text, out)
}

/// Appends the member of a name, if there is one.
pub(crate) fn push_name_member(name: Option<&str>, out: &mut String) -> Result<()>
    ensures text { Pushes result out.old out.new (name_member (lent_item name.entry)) }
    ensures error { OnlyMemory result }
    ensures adds { OnlyAdds out.old out.new }
{
    match name {
        Some(name) => push_text_member("name", name, out),
        None => Ok(()),
    }
}

/// Members without the comma before the first one.
fn without_comma(members: &str) -> &str
    ensures { result.now ≡ without_comma members.now }
{
    match members.strip_prefix(',') {
        Some(rest) => rest,
        None => members,
    }
}

/// Appends the JSON object of members, each of which is behind a comma.
#[tactic(auto, unfolding(crate::specs::Texts::object_text))]
pub fn push_object(members: &str, out: &mut String) -> Result<()>
    ensures text { Pushes result out.old out.new (object_text members.now) }
    ensures error { OnlyMemory result }
    ensures adds { OnlyAdds out.old out.new }
{
    out.push('{')?;
    out.push_str(without_comma(members))?;
    out.push('}')?;
    Ok(())
}
