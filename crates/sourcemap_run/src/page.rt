//! Texts as base64: in a page, a template with a mark where they come, and in a data URL.
ghost use Rattle.std.specs.Prelude.{◌≡◌, string_bytes, codes, IfOk, MatchOption};
ghost use Rattle.sourcemap_run.specs.Words.{IsFilled, HasDataMark};

use base64::engine::general_purpose::STANDARD;
use std::alloc::{AllocError, Global};

/// The mark of a template.
pub const DATA_MARK: &str = "{{data}}";

/// The template with a content in place of its first mark, as base64, which has no character of HTML; None if there is no mark.
pub fn fill_template(
    alloc: Global,
    template: &str,
    content: &str,
) -> Result<Option<String>, AllocError>
    ensures page { IfOk result (λ page. MatchOption page (¬ HasDataMark template.now)
        (λ p. IsFilled template.now content.now (string_bytes p))) }
{
    let Some((front, back)) = template.split_once(DATA_MARK) else {
        return Ok(None);
    };
    let mut page = String::from_str(alloc, front)?;
    page.push_str(STANDARD.encode(alloc, content.as_bytes())?.as_str())?;
    page.push_str(back)?;
    Ok(Some(page))
}

/// The data URL of the text of a map.
pub fn data_url(alloc: Global, text: &str) -> Result<String, AllocError> {
    let mut url = String::from_str(alloc, "data:application/json;charset=utf-8;base64,")?;
    url.push_str(STANDARD.encode(alloc, text.as_bytes())?.as_str())?;
    Ok(url)
}
