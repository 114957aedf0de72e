//! Strings moved out of the lists of a map, in a new order.
ghost use Rattle.std.specs.Prelude.{◌≡◌, ◌+◌, ◌<◌, ◌≤◌, ◌++◌, [], None, map, length, get_or, set};
ghost use Rattle.std.specs.Prelude.{vec_len};
ghost use Rattle.std.specs.List.{AllByRecursion};
ghost use Rattle.std.specs.Vec.{vec_capacity};
ghost use Rattle.oxc_sourcemap_steps.specs.Words.{text_of, texts_of, contents_of, AreApart};

use std::borrow::CowStr;
use std::mem;

/// Moves the texts at these indices behind others, and leaves empty ones in their place. There has to be room for them.
pub(crate) fn move_texts<'a>(
    texts: &mut Vec<CowStr<'a>>,
    order: &[usize],
    moved: &mut Vec<CowStr<'a>>,
)
    requires within { AllByRecursion (λ k. k < length texts.old.items) order.now }
    requires apart { AreApart order.now }
    requires room { vec_len moved.old + length order.now ≤ vec_capacity moved.old }
    ensures { texts_of moved.new ≡ texts_of moved.old
        ++ map (λ k. get_or (texts_of texts.old) k []) order.now }
{
    for k in order {
        moved.push_reserved(mem::replace(&mut texts[*k], CowStr::Borrowed("")));
    }
}

/// Moves the content at an index, if it is known, and leaves an unknown one in its place.
fn move_content<'a>(contents: &mut Vec<Option<CowStr<'a>>>, k: usize) -> Option<CowStr<'a>>
    ensures content { text_of result ≡ get_or (contents_of contents.old) k None }
    ensures others { contents.new.items ≡ set contents.old.items k None }
{
    match contents.get_mut(k) {
        Some(content) => mem::replace(content, None),
        None => None,
    }
}

/// Moves the contents at these indices behind others; those that are not listed are unknown. There has to be room for them.
pub(crate) fn move_contents<'a>(
    contents: &mut Vec<Option<CowStr<'a>>>,
    order: &[usize],
    moved: &mut Vec<Option<CowStr<'a>>>,
)
    requires apart { AreApart order.now }
    requires room { vec_len moved.old + length order.now ≤ vec_capacity moved.old }
    ensures { contents_of moved.new ≡ contents_of moved.old
        ++ map (λ k. get_or (contents_of contents.old) k None) order.now }
{
    for k in order {
        moved.push_reserved(move_content(contents, *k));
    }
}
