//! The lines of originals as `coverage` prints them.
ghost use Rattle.std.specs.Prelude.{◌≡◌, ◌≢◌, ◌*◌, ◌/◌, ◌<◌, ◌^◌, None, Some, IfOk, codes, decimal};
ghost use Rattle.std.specs.Prelude.{◌+◌, ◌++◌};
ghost use Rattle.std.specs.List.{filter, flat_map, join_by};
ghost use Rattle.sourcemap_run.specs.Words.{OnlyMemory, OnlyAdds, Pushes, is_missed};
ghost use Rattle.sourcemap_run.specs.Words.{ran, range_text, missed_text, lcov_line, lcov_end};
ghost use Rattle.sourcemap_run.specs.Words.{lcov_text, LcovTellsApart, missed_numbers};
ghost use Rattle.sourcemap_run.specs.Words.{covered_members, covered_line, CoveredTellsApart};

use crate::counting::missed_ranges;
use crate::texts::{from_base, push_number, push_number_member, push_object, push_text_member};
use crate::totals::LineTotals;
use oxc_sourcemap_tokens::{Memory, Result};
use std::alloc::Global;

/// The lines of an original with code, in order: their numbers from 0, and how often they ran.
pub fn counted_lines(alloc: Global, totals: &LineTotals) -> Memory<Vec<(u32, u64)>>
    ensures { IfOk result (λ lines. lines.items ≡ totals.now.entries) }
{
    let mut lines = Vec::with_capacity(alloc, totals.len())?;
    for (line, count) in totals {
        lines.push((*line, *count))?;
    }
    Ok(lines)
}

/// How many lines ran.
pub fn ran(lines: &[(u32, u64)]) -> u64
    ensures { result ≡ ran lines.now }
{
    lines.iter().filter(|line| line.1 > 0).count() as u64
}

/// How many of a hundred lines ran, rounded down, if a hundred times as many fit 64 bits; None if there are no lines.
pub fn percent(ran: u64, all: u64) -> Option<u64>
    ensures none { all ≡ 0 → result ≡ None }
    ensures part { all ≢ 0 → ran * 100 < 2 ^ 64 → result ≡ Some ((ran * 100) / all) }
{
    ran.saturating_mul(100).checked_div(all)
}

/// Appends a range of lines, from 1.
fn push_range(alloc: Global, range: (u32, u32), out: &mut String) -> Result<()>
    ensures text { Pushes result out.old out.new (range_text range) }
    ensures error { OnlyMemory result }
    ensures adds { OnlyAdds out.old out.new }
{
    push_number(alloc, from_base(range.0, 1), out)?;
    if range.0 == range.1 {
        return Ok(());
    }
    out.push('-')?;
    push_number(alloc, from_base(range.1, 1), out)
}

/// Appends a range that is behind another one.
fn push_next_range(alloc: Global, range: (u32, u32), out: &mut String) -> Result<()>
    ensures text { Pushes result out.old out.new (codes ", " ++ range_text range) }
    ensures error { OnlyMemory result }
    ensures adds { OnlyAdds out.old out.new }
{
    out.push_str(", ")?;
    push_range(alloc, range, out)
}

/// Appends ranges that are behind another one.
fn push_more_ranges(alloc: Global, ranges: &[(u32, u32)], out: &mut String) -> Result<()>
    ensures text { Pushes result out.old out.new
        (flat_map (λ range. codes ", " ++ range_text range) ranges.now) }
    ensures error { OnlyMemory result }
    ensures adds { OnlyAdds out.old out.new }
{
    for range in ranges {
        push_next_range(alloc, *range, out)?;
    }
    Ok(())
}

/// Appends ranges of lines.
fn push_ranges(alloc: Global, ranges: &[(u32, u32)], out: &mut String) -> Result<()>
    ensures text { Pushes result out.old out.new (join_by range_text (codes ", ") ranges.now) }
    ensures error { OnlyMemory result }
    ensures adds { OnlyAdds out.old out.new }
{
    let Some((first, more)) = ranges.split_first() else {
        return Ok(());
    };
    push_range(alloc, *first, out)?;
    push_more_ranges(alloc, more, out)
}

/// Appends the lines that did not run, from 1, as `3, 7-9`.
pub fn push_missed(alloc: Global, lines: &[(u32, u64)], out: &mut String) -> Result<()>
    ensures text { Pushes result out.old out.new (missed_text lines.now) }
    ensures error { OnlyMemory result }
    ensures adds { OnlyAdds out.old out.new }
{
    let ranges = missed_ranges(alloc, lines)?;
    push_ranges(alloc, ranges.as_slice(), out)
}

/// Appends the record of a line for lcov.
fn push_lcov_line(alloc: Global, line: (u32, u64), out: &mut String) -> Result<()>
    ensures text { Pushes result out.old out.new (lcov_line line) }
    ensures error { OnlyMemory result }
    ensures adds { OnlyAdds out.old out.new }
{
    out.push_str("DA:")?;
    push_number(alloc, from_base(line.0, 1), out)?;
    out.push(',')?;
    push_number(alloc, line.1, out)?;
    out.push('\n')?;
    Ok(())
}

/// Appends the records of lines for lcov.
fn push_lcov_lines(alloc: Global, lines: &[(u32, u64)], out: &mut String) -> Result<()>
    ensures text { Pushes result out.old out.new (flat_map lcov_line lines.now) }
    ensures error { OnlyMemory result }
    ensures adds { OnlyAdds out.old out.new }
{
    for line in lines {
        push_lcov_line(alloc, *line, out)?;
    }
    Ok(())
}

/// Appends how many lines there are and how many ran.
fn push_lcov_end(alloc: Global, lines: &[(u32, u64)], out: &mut String) -> Result<()>
    ensures text { Pushes result out.old out.new (lcov_end lines.now) }
    ensures error { OnlyMemory result }
    ensures adds { OnlyAdds out.old out.new }
{
    out.push_str("LF:")?;
    push_number(alloc, lines.len() as u64, out)?;
    out.push_str("\nLH:")?;
    push_number(alloc, ran(lines), out)?;
    out.push_str("\nend_of_record\n")?;
    Ok(())
}

/// Appends the record of an original for lcov.
pub fn push_lcov(alloc: Global, path: &str, lines: &[(u32, u64)], out: &mut String) -> Result<()>
    ensures text { Pushes result out.old out.new (lcov_text path.now lines.now) }
    ensures error { OnlyMemory result }
    ensures adds { OnlyAdds out.old out.new }
{
    out.push_str("TN:\nSF:")?;
    out.push_str(path)?;
    out.push('\n')?;
    push_lcov_lines(alloc, lines, out)?;
    push_lcov_end(alloc, lines, out)
}

/// The text for lcov distinguishes originals: no two different lists of them, whose paths have no line feed, have the same text.
pub fn lcov_tells_apart()
    ensures { LcovTellsApart }
{}

/// The lines that did not run.
fn missed_lines(alloc: Global, lines: &[(u32, u64)]) -> Memory<Vec<(u32, u64)>>
    ensures { IfOk result (λ missed. missed.items ≡ filter is_missed lines.now) }
{
    let mut missed = Vec::new(alloc);
    for line in lines {
        if line.1 == 0 {
            missed.push(*line)?;
        }
    }
    Ok(missed)
}

/// Appends the number of a line, from 1, that is behind another one.
fn push_next_number(alloc: Global, line: (u32, u64), out: &mut String) -> Result<()>
    ensures text { Pushes result out.old out.new (codes "," ++ decimal (line.0 + 1)) }
    ensures error { OnlyMemory result }
    ensures adds { OnlyAdds out.old out.new }
{
    out.push(',')?;
    push_number(alloc, from_base(line.0, 1), out)
}

/// Appends the numbers of lines, from 1, that are behind another one.
fn push_more_numbers(alloc: Global, lines: &[(u32, u64)], out: &mut String) -> Result<()>
    ensures text { Pushes result out.old out.new
        (flat_map (λ line. codes "," ++ decimal (line.0 + 1)) lines.now) }
    ensures error { OnlyMemory result }
    ensures adds { OnlyAdds out.old out.new }
{
    for line in lines {
        push_next_number(alloc, *line, out)?;
    }
    Ok(())
}

/// Appends the numbers of lines, from 1.
fn push_numbers(alloc: Global, lines: &[(u32, u64)], out: &mut String) -> Result<()>
    ensures text { Pushes result out.old out.new
        (join_by (λ line. decimal (line.0 + 1)) (codes ",") lines.now) }
    ensures error { OnlyMemory result }
    ensures adds { OnlyAdds out.old out.new }
{
    let Some((first, more)) = lines.split_first() else {
        return Ok(());
    };
    push_number(alloc, from_base(first.0, 1), out)?;
    push_more_numbers(alloc, more, out)
}

/// Appends the numbers of the lines that did not run, from 1.
fn push_missed_numbers(alloc: Global, lines: &[(u32, u64)], out: &mut String) -> Result<()>
    ensures text { Pushes result out.old out.new (missed_numbers lines.now) }
    ensures error { OnlyMemory result }
    ensures adds { OnlyAdds out.old out.new }
{
    let missed = missed_lines(alloc, lines)?;
    push_numbers(alloc, missed.as_slice(), out)
}

/// Appends the members of an original.
#[tactic(auto, unfolding(crate::specs::Covered::covered_members))]
fn push_covered_members(
    alloc: Global,
    path: &str,
    lines: &[(u32, u64)],
    out: &mut String,
) -> Result<()>
    ensures text { Pushes result out.old out.new (covered_members path.now lines.now) }
    ensures error { OnlyMemory result }
    ensures adds { OnlyAdds out.old out.new }
{
    let ran = ran(lines);
    push_text_member("source", path, out)?;
    push_number_member(alloc, "ran", ran, out)?;
    push_number_member(
        alloc,
        "missed",
        (lines.len() as u64).saturating_sub(ran),
        out,
    )?;
    out.push_str(",\"lines\":[")?;
    push_missed_numbers(alloc, lines, out)?;
    out.push(']')?;
    Ok(())
}

/// Appends the line of an original, a JSON object.
pub fn push_covered(alloc: Global, path: &str, lines: &[(u32, u64)], out: &mut String) -> Result<()>
    ensures text { Pushes result out.old out.new (covered_line path.now lines.now) }
    ensures error { OnlyMemory result }
    ensures adds { OnlyAdds out.old out.new }
{
    let mut members = String::new(alloc);
    push_covered_members(alloc, path, lines, &mut members)?;
    push_object(members.as_str(), out)?;
    out.push('\n')?;
    Ok(())
}

/// The text of `--json` distinguishes originals: two lists of originals with the same text have the same paths, the same numbers of lines
/// that ran and that did not, and the same missed lines, in order. A path may have any character. The text omits how often a line ran.
pub fn covered_tells_apart()
    ensures { CoveredTellsApart }
{}
