//! The sources of a map: where each is listed first, ignored and not.
ghost use Rattle.std.specs.Prelude.{◌≡◌, ◌<◌, map, length, get_or, Some, None, IfOk, if◌then◌else◌};
ghost use Rattle.std.specs.Bool.{beq};
ghost use Rattle.std.specs.List.{AllByRecursion, zip};
ghost use Rattle.oxc_sourcemap_steps.specs.Words.{own_index, ArePlacesOf, source_by, listed_once};

use oxc_sourcemap_tokens::Memory;
use std::alloc::Global;

/// Where the sources that are equal to one are listed first: not ignored, and ignored. And whether it is itself ignored.
#[derive(Clone, Copy)]
pub(crate) struct Source {
    pub(crate) plain: Option<usize>,
    pub(crate) ignored: Option<usize>,
    is_ignored: bool,
}

impl Source {
    /// What is listed at one place, not ignored.
    pub(crate) fn listed_once(k: usize) -> Source
        ensures { result ≡ listed_once k }
    {
        Source {
            plain: Some(k),
            ignored: None,
            is_ignored: false,
        }
    }

    /// Where it is listed first with its own mark.
    pub(crate) fn own_index(&self) -> Option<usize>
        ensures { result ≡ own_index self.now }
    {
        if self.is_ignored {
            self.ignored
        } else {
            self.plain
        }
    }
}

/// An index, if it has this mark.
fn marked_at(flags: &[bool], i: usize, mark: bool) -> Option<usize>
    requires { i < length flags.now }
    ensures { result ≡ (if beq mark (get_or flags.now i mark) then Some i else None) }
{
    if flags[i] == mark { Some(i) } else { None }
}

/// For each index the first one with this mark among those whose first equal one it is.
fn first_marked(
    alloc: Global,
    firsts: &[usize],
    flags: &[bool],
    mark: bool,
) -> Memory<Vec<Option<usize>>>
    requires flags { length flags.now ≡ length firsts.now }
    requires within { AllByRecursion (λ k. k < length firsts.now) firsts.now }
    ensures places { IfOk result (λ places. ArePlacesOf
        (zip firsts.now flags.now) mark places.items) }
    ensures len { IfOk result (λ places. length places.items ≡ length firsts.now) }
{
    let mut places = Vec::with_capacity(alloc, firsts.len())?;
    places.resize(firsts.len(), None)?;
    for (i, first) in firsts.iter().enumerate() {
        places[*first] = places[*first].or(marked_at(flags, i, mark));
    }
    Ok(places)
}

/// All sources of a map, by the index of the first equal one of each, and by whether it is ignored.
pub(crate) fn listed_sources(alloc: Global, firsts: &[usize], flags: &[bool]) -> Memory<Vec<Source>>
    requires flags { length flags.now ≡ length firsts.now }
    requires within { AllByRecursion (λ k. k < length firsts.now) firsts.now }
    ensures { IfOk result (λ sources. sources.items
        ≡ map (source_by (zip firsts.now flags.now)) (zip firsts.now flags.now)) }
{
    let plain = first_marked(alloc, firsts, flags, false)?;
    let ignored = first_marked(alloc, firsts, flags, true)?;
    let mut sources = Vec::with_capacity(alloc, firsts.len())?;
    for (i, first) in firsts.iter().enumerate() {
        sources.push(Source {
            plain: plain[*first],
            ignored: ignored[*first],
            is_ignored: flags[i],
        })?;
    }
    Ok(sources)
}
