//! How often the lines of originals ran.
ghost use Rattle.std.specs.Prelude.{◌≡◌, ◌++◌, ◌&&◌, ◌==◌, ℕ, List, map, Some, true, OnOk, IfOk};
ghost use Rattle.std.specs.Prelude.{string_bytes, if◌then◌else◌};
ghost use Rattle.std.specs.List.{filter_map};
ghost use Rattle.std.specs.Str.{bytes_eq};
ghost use Rattle.sourcemap_run.specs.Words.{are_tokens_sorted, pieces_of, mark_of, path_at};
ghost use Rattle.sourcemap_run.specs.Words.{raised, original_count, count_at};
ghost use Rattle.sourcemap_run.specs.Words.{missed_ranges, closed, opened};

use oxc_sourcemap_queries::{Piece, pieces_in};
use oxc_sourcemap_tokens::{Memory, Position, Token};
use std::alloc::Global;
use std::collections::BTreeMap;

/// A range of generated code, and how often it ran.
#[derive(Clone, Copy)]
pub struct Block {
    pub start: Position,
    pub end: Position,
    pub count: u64,
}

/// A piece of a block that comes from a line of a source, and how often it ran.
#[derive(Clone, Copy)]
pub struct Mark {
    pub source_id: u32,
    pub line: u32,
    pub count: u64,
    /// Where the piece is in the generated code.
    pub start: Position,
    pub end: Position,
}

/// The mark of a piece of a block; None if the piece comes from no source.
fn mark_of(piece: &Piece, count: u64) -> Option<Mark>
    ensures { result ≡ mark_of count piece.now }
{
    let token = piece.token?;
    Some(Mark {
        source_id: token.get_source_id()?,
        line: token.get_src_line(),
        count,
        start: Position {
            line: piece.line,
            column: piece.col,
        },
        end: Position {
            line: piece.end_line,
            column: piece.end_col,
        },
    })
}

/// Appends the marks of the pieces of a block, for the tokens of a sorted map.
pub fn push_marks(tokens: &[Token], block: Block, marks: &mut Vec<Mark>) -> Memory<()>
    ensures { are_tokens_sorted tokens.now ≡ true → OnOk result (marks.new.items
        ≡ marks.old.items ++ filter_map (mark_of block.count) (pieces_of tokens.now
        block.start.line block.start.column block.end.line block.end.column)) }
{
    for piece in pieces_in(
        tokens,
        block.start.line,
        block.start.column,
        block.end.line,
        block.end.column,
    ) {
        if let Some(mark) = mark_of(&piece, block.count) {
            marks.push(mark)?;
        }
    }
    Ok(())
}

/// How often lines of originals ran in a script, by number and path: fewer paths are compared than by path and number.
pub type LineCounts<'p> = BTreeMap<(u32, &'p str), u64>;

/// The path of a source, of these paths of all sources; empty for a source that is not there.
fn path_at(paths: &[String], id: u32) -> &str
    ensures { result.now ≡ path_at (map string_bytes paths.now) id }
{
    match paths.get(id as usize) {
        Some(path) => path.as_str(),
        None => "",
    }
}

/// Whether a count that may be there need not be raised to this one.
fn reaches(most: Option<u64>, count: u64) -> bool
    ensures { (if result then most else Some count) ≡ Some (raised most count) }
{
    match most {
        Some(most) => most >= count,
        None => false,
    }
}

/// Raises the count of a line of an original to this one.
fn raise<'p>(counts: &mut LineCounts<'p>, path: &'p str, line: u32, count: u64) -> Memory<()>
    ensures { OnOk result ((p : List ℕ) (n : ℕ) → count_at counts.new p n
        ≡ (if bytes_eq path.now p && line == n
        then Some (raised (count_at counts.old p n) count) else count_at counts.old p n)) }
{
    let key = (line, path);
    if reaches(counts.get(&key).copied(), count) {
        return Ok(());
    }
    counts.insert(key, count)?;
    Ok(())
}

/// How often the lines of originals ran, by the marks of a script: each as often as the mark of it that ran most often. `paths` has the
/// path of each source: those with one path are one original. A source that is not there has the empty path.
pub fn count_lines<'p>(alloc: Global, paths: &'p [String], marks: &[Mark]) -> Memory<LineCounts<'p>>
    ensures { IfOk result (λ counts. (path : List ℕ) (line : ℕ) → count_at counts path line
        ≡ original_count (map string_bytes paths.now) marks.now path line) }
{
    let mut counts = BTreeMap::new(alloc);
    for mark in marks {
        raise(
            &mut counts,
            path_at(paths, mark.source_id),
            mark.line,
            mark.count,
        )?;
    }
    Ok(counts)
}

/// Appends a range, if there is one.
fn close(range: Option<(u32, u32)>, ranges: &mut Vec<(u32, u32)>) -> Memory<()>
    ensures { OnOk result (ranges.new.items ≡ ranges.old.items ++ closed range) }
{
    if let Some(range) = range {
        ranges.push(range)?;
    }
    Ok(())
}

/// Extends a range up to this line, or begins one at it.
fn opened(range: Option<(u32, u32)>, number: u32) -> (u32, u32)
    ensures { result ≡ opened range number }
{
    match range {
        Some((first, _)) => (first, number),
        None => (number, number),
    }
}

/// The ranges of lines that did not run, of lines with their counts, in order: each longest run of such lines, by its first and its last
/// line. A number that is not among the lines does not end a range.
pub fn missed_ranges(alloc: Global, lines: &[(u32, u64)]) -> Memory<Vec<(u32, u32)>>
    ensures { IfOk result (λ ranges. ranges.items ≡ missed_ranges lines.now) }
{
    let mut ranges = Vec::new(alloc);
    let mut range = None;
    for line in lines {
        if line.1 == 0 {
            range = Some(opened(range, line.0));
        } else {
            close(range, &mut ranges)?;
            range = None;
        }
    }
    close(range, &mut ranges)?;
    Ok(ranges)
}
