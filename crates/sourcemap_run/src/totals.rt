//! How often the lines of originals ran, over all scripts.
ghost use Rattle.std.specs.Prelude.{◌≡◌, ◌&&◌, ◌==◌, ℕ, List, Some, map, string_bytes, OnOk};
ghost use Rattle.std.specs.Prelude.{option_to_list, if◌then◌else◌};
ghost use Rattle.std.specs.Ordering.{nat_cmp};
ghost use Rattle.std.specs.Str.{bytes_eq};
ghost use Rattle.std.specs.BTreeMap.{get, Updates};
ghost use Rattle.sourcemap_run.specs.Words.{with_count, with_counts, total_at, HaveLines};
ghost use Rattle.sourcemap_run.specs.Words.{count_at, original_count, TotalsAddUp};

use crate::counting::{LineCounts, Mark, count_lines};
use oxc_sourcemap_tokens::Memory;
use std::alloc::Global;
use std::collections::BTreeMap;

/// How often the lines of an original with code ran, by their numbers from 0.
pub type LineTotals = BTreeMap<u32, u64>;

/// The lines of each original, by its path.
pub type Totals = BTreeMap<String, LineTotals>;

/// Adds a count to the total of a line.
fn add_to_line(lines: &mut LineTotals, line: u32, count: u64) -> Memory<()>
    ensures { OnOk result (Updates nat_cmp lines.old lines.new line
        (Some (with_count (get nat_cmp lines.old line) count))) }
{
    let total = match lines.get(&line) {
        Some(total) => total.saturating_add(count),
        None => count,
    };
    lines.insert(line, total)?;
    Ok(())
}

/// Adds a count to the total of a line of an original.
fn add_count(alloc: Global, totals: &mut Totals, path: &str, line: u32, count: u64) -> Memory<()>
    ensures { OnOk result (((p : List ℕ) (n : ℕ) → total_at totals.new p n
        ≡ (if bytes_eq path.now p && line == n
        then Some (with_count (total_at totals.old p n) count) else total_at totals.old p n))
        × (HaveLines totals.old → HaveLines totals.new)) }
{
    if let Some(lines) = totals.get_mut(path) {
        return add_to_line(lines, line, count);
    }
    let mut lines = LineTotals::new(alloc);
    add_to_line(&mut lines, line, count)?;
    totals.insert(String::from_str(alloc, path)?, lines)?;
    Ok(())
}

/// Adds how often lines of originals ran in a script to their totals.
fn add_counts(alloc: Global, totals: &mut Totals, counts: &LineCounts<'_>) -> Memory<()>
    ensures added { OnOk result ((path : List ℕ) (line : ℕ) → total_at totals.new path line
        ≡ with_counts (total_at totals.old path line)
        (option_to_list (count_at counts.now path line))) }
    ensures lined { OnOk result (HaveLines totals.old → HaveLines totals.new) }
{
    for (line, count) in counts {
        add_count(alloc, totals, line.1, line.0, *count)?;
    }
    Ok(())
}

/// Adds how often the lines of originals ran in a script, by its marks, to their totals: of a line the greatest count of its marks.
/// `paths` has the path of each source: those with one path are one original, and a source that is not there has the empty path. An
/// original without a mark is left out. If memory runs out, some counts may be added and others not.
pub fn add_marks(alloc: Global, totals: &mut Totals, paths: &[String], marks: &[Mark]) -> Memory<()>
    ensures added { OnOk result ((path : List ℕ) (line : ℕ) → total_at totals.new path line
        ≡ with_counts (total_at totals.old path line)
        (option_to_list (original_count (map string_bytes paths.now) marks.now path line))) }
    ensures lined { OnOk result (HaveLines totals.old → HaveLines totals.new) }
{
    let counts = count_lines(alloc, paths, marks)?;
    add_counts(alloc, totals, &counts)
}

/// Totals add up: counts of scripts that are added one after the other are added as one list. So the total of a line is the sum of its
/// counts in all scripts, at most 18446744073709551615.
pub fn totals_add_up()
    ensures { TotalsAddUp }
{}
