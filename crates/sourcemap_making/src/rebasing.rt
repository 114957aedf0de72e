//! Makes the sources of maps relative to another folder.
use oxc_sourcemap_parts::SourceMapParts;
use sourcemap_files::current_folder;
use sourcemap_run::rebase_sources;
use sourcemap_words::Outcome;

/// Makes the sources of a map in the folder `from`, its root applied, relative to the folder `to`. Both end in a slash, or are empty.
pub fn rebase(
    rt: &HostRuntime,
    parts: &mut SourceMapParts<'_>,
    from: &str,
    to: &str,
) -> Outcome<()> {
    let alloc = rt.alloc();
    let current = if from == to {
        String::new(alloc)
    } else {
        current_folder(rt)?
    };
    Ok(rebase_sources(alloc, parts, current.as_str(), from, to)?)
}
