//! Makes the sources of maps relative to another folder.
ghost use Rattle.std.specs.Prelude.{◌≡◌, ◌⊎◌, IfOk, OnOk, OnErr};
ghost use Rattle.std.specs.List.{AllZip};
ghost use Rattle.sourcemap_run.specs.Words.{OnlyMemory, written, rooted, IsMoved, IsRebased};
ghost use Rattle.sourcemap_run.specs.Words.{cow_texts, record_of_parts};

use oxc_sourcemap_parts::{SourceMapParts, apply_root, owned_texts, texts_in};
use oxc_sourcemap_tokens::{Memory, Result};
use sourcemap_texts::relative_path;
use std::alloc::Global;
use std::borrow::CowStr;

/// Sources of a map in the folder `from`, relative to the folder `to`.
fn moved_sources(
    alloc: Global,
    sources: &[CowStr<'_>],
    current: &str,
    from: &str,
    to: &str,
) -> Memory<Vec<String>>
    ensures { IfOk result (λ paths. AllZip (IsMoved current.now from.now to.now)
        (cow_texts sources.now) (written paths.items)) }
{
    let mut paths = Vec::new(alloc);
    for source in texts_in(sources) {
        paths.push(relative_path(alloc, current, from, to, source)?)?;
    }
    Ok(paths)
}

/// Makes the sources of a map in the folder `from`, its root applied, relative to the folder `to`, as `relative_path` does. If memory
/// runs out, the map may be as it was, or have its root applied.
pub fn rebase_sources(
    alloc: Global,
    parts: &mut SourceMapParts<'_>,
    current: &str,
    from: &str,
    to: &str,
) -> Result<()>
    ensures rebased { OnOk result (IsRebased current.now from.now to.now
        (record_of_parts parts.old) (record_of_parts parts.new)) }
    ensures error { OnlyMemory result }
    ensures kept { OnErr result ((record_of_parts parts.new ≡ record_of_parts parts.old)
        ⊎ (record_of_parts parts.new ≡ rooted (record_of_parts parts.old))) }
{
    apply_root(alloc, parts)?;
    let paths = moved_sources(alloc, parts.sources.as_slice(), current, from, to)?;
    parts.sources = owned_texts(alloc, paths.into_iter())?;
    Ok(())
}
