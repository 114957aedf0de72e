//! Functions and branches of originals, and how often they ran.
use crate::coverage::{Code, block_of, is_space};
use oxc_sourcemap_map::SourceMap;
use oxc_sourcemap_text::utf16_units;
use oxc_sourcemap_tokens::{Position, Token};
use sourcemap_run::{Block, push_number_member, push_object, push_text_member};
use sourcemap_texts::push_visible;
use sourcemap_words::{Called, Outcome, Run, Script};
use std::alloc::{AllocError, Global};
use std::cmp::Ordering;
use std::collections::{BTreeMap, BTreeSet};

/// How many tokens ahead of the first of a function, and from that on, may be the one of its name.
const NEAR: usize = 3;

/// Names of maps with more bytes are passed over: one name may be that of many functions.
const LONGEST_NAME: usize = 4096;

/// A function of an original: the line and the column at which it begins, and its name.
type Function = (u32, u32, String);

/// A branch of an original: the line and the column at which it begins; those of its last token, or of the first if the last points to no
/// source; and how many before it in its code are at the same place.
type Branch = (u32, u32, u32, u32, u32);

/// Where a block of a code is: the number of its original, and of its branch all but the last.
type Place = (usize, u32, u32, u32, u32);

/// How many ran, and how many there are.
#[derive(Clone, Copy, Default)]
pub(crate) struct Tally {
    pub(crate) ran: u64,
    pub(crate) all: u64,
}

impl Tally {
    /// Counts one more that ran so often.
    fn add(&mut self, count: u64) {
        self.all = self.all.saturating_add(1);
        if count > 0 {
            self.ran = self.ran.saturating_add(1);
        }
    }

    /// Adds those of another original.
    pub(crate) fn add_all(&mut self, other: Tally) {
        self.all = self.all.saturating_add(other.all);
        self.ran = self.ran.saturating_add(other.ran);
    }
}

/// The functions and the branches of an original, and how often each ran.
#[derive(Drop)]
pub(crate) struct Parts {
    functions: BTreeMap<Function, u64>,
    branches: BTreeMap<Branch, u64>,
}

/// V8's reports on one code.
#[derive(Drop)]
struct Reports {
    /// The blocks that any of them counts: by where they begin, an outer one before those in it (so the second number is the distance of
    /// the end from the greatest number).
    blocks: BTreeMap<(u32, u32), Place>,
    /// The ranges of each, in the same order.
    ranges: Vec<Vec<Run>>,
}

/// The functions and the branches of originals.
#[derive(Drop)]
pub(crate) struct AllParts {
    alloc: Global,
    /// The numbers of originals, by their paths.
    numbers: BTreeMap<String, usize>,
    parts: Vec<Parts>,
    /// By the paths of codes.
    reports: BTreeMap<String, Reports>,
}

/// A script with its map, and the numbers of its sources' originals.
#[derive(Clone, Copy)]
struct Mapped<'c> {
    code: &'c Code<'c>,
    map: &'c SourceMap<'c>,
    originals: &'c [usize],
}

/// Whether a unit may stand in a name.
fn is_of_name(unit: u16) -> bool {
    let is_word = match u8::try_from(unit) {
        Ok(byte) => byte.is_ascii_alphanumeric() || byte == b'$' || byte == b'_',
        Err(_) => false,
    };
    is_word || unit > 127
}

/// How many tokens are before a position.
fn count_before(tokens: &[Token], at: Position) -> usize {
    let found = tokens.binary_search_by(|token| {
        if (token.get_dst_line(), token.get_dst_col()) < (at.line, at.column) {
            Ordering::Less
        } else {
            Ordering::Greater
        }
    });
    match found {
        Ok(count) | Err(count) => count,
    }
}

/// The tokens that a block needs, for lookups in it: those in it, and those at the last column before it.
pub(crate) fn tokens_around<'t>(tokens: &'t [Token], block: &Block) -> &'t [Token] {
    let mut from = count_before(tokens, block.start);
    if let Some(last) = from.checked_sub(1)
        && let Some(token) = tokens.get(last)
    {
        let (line, column) = (token.get_dst_line(), token.get_dst_col());
        from = count_before(tokens, Position { line, column });
    }
    let end = count_before(tokens, block.end);
    tokens.get(from..end).unwrap_or(&[])
}

/// The index of the first token in a block on the block's first line, or if there is none, of the last one before it on that line.
fn first_in(tokens: &[Token], block: &Block) -> Option<usize> {
    let Position { line, column: _ } = block.start;
    let next = count_before(tokens, block.start);
    let is_in = tokens.get(next).is_some_and(|token| {
        token.get_dst_line() == line
            && (line, token.get_dst_col()) < (block.end.line, block.end.column)
    });
    if is_in {
        return Some(next);
    }
    let before = next.checked_sub(1)?;
    let token = tokens.get(before)?;
    (token.get_dst_line() == line).then(|| before)
}

/// The last token that is not behind a position, on the position's line.
fn last_at(tokens: &[Token], at: Position) -> Option<Token> {
    let behind = Position {
        line: at.line,
        column: at.column.saturating_add(1),
    };
    let token = tokens.get(count_before(tokens, behind).checked_sub(1)?)?;
    (token.get_dst_line() == at.line).then(|| *token)
}

impl<'c> Mapped<'c> {
    fn tokens(&self) -> &'c [Token] {
        self.map.get_tokens().as_slice()
    }

    /// The number of the original that a token points to.
    fn original(&self, token: &Token) -> Option<usize> {
        self.originals.get(token.get_source_id()? as usize).copied()
    }

    /// Whether a name stands in the code where a token is.
    fn is_named(&self, token: &Token, name: &[u16]) -> bool {
        let positions = self.code.positions;
        let Ok(at) = positions.offset(token.get_dst_line(), token.get_dst_col()) else {
            return false;
        };
        let rest = self.code.units.get(at as usize..).unwrap_or(&[]);
        match rest.strip_prefix(name) {
            Some(behind) => !behind.first().is_some_and(|unit| is_of_name(*unit)),
            None => false,
        }
    }

    /// The name that the map has for a function: of one of the tokens near the first one, where its name stands in the code.
    fn name_near(&self, first: usize, name: &[u16]) -> Option<&'c str> {
        let tokens = self.tokens();
        let from = first.saturating_sub(NEAR);
        let (ahead, inner) = (
            tokens.get(from..first).unwrap_or(&[]),
            tokens.get(first..).unwrap_or(&[]),
        );
        let near = inner.iter().take(NEAR).chain(ahead.iter().rev());
        for token in near {
            if let Some(id) = token.get_name_id()
                && self.is_named(token, name)
            {
                let name = self.map.get_name(id)?;
                return (!name.is_empty() && name.len() <= LONGEST_NAME).then(|| name);
            }
        }
        None
    }

    /// The position of the last character before an offset of V8.
    fn last_position(&self, offset: u32) -> Option<(u32, u32)> {
        let (positions, offset) = (self.code.positions, self.code.at(offset));
        match positions.position(offset.saturating_sub(1)) {
            Ok(position) => Some(position),
            Err(_) => positions.position(offset.saturating_sub(2)).ok(),
        }
    }

    /// A range without the white space at its beginning, at which V8's blocks behind a `return` begin.
    fn without_space(&self, run: &Run) -> Run {
        let (start, end) = (self.code.at(run.start), self.code.at(run.end));
        let units = self.code.units.get(start as usize..end as usize);
        let skipped = units
            .and_then(|units| units.iter().position(|unit| !is_space(*unit)))
            .unwrap_or(0);
        Run {
            start: start
                .saturating_add(skipped as u32)
                .saturating_add(self.code.before),
            ..*run
        }
    }

    /// Where a range is in the originals; None if it is in none.
    fn place_of(&self, run: &Run) -> Option<Place> {
        if run.start >= run.end {
            return None;
        }
        let tokens = self.tokens();
        let block = block_of(self.code, &self.without_space(run))?;
        let first = tokens.get(first_in(tokens, &block)?)?;
        let original = self.original(first)?;
        let (line, column) = self.last_position(run.end)?;
        let last = last_at(tokens, Position { line, column })
            .filter(|last| last.get_source_id().is_some())
            .unwrap_or(*first);
        Some((
            original,
            first.get_src_line(),
            first.get_src_col(),
            last.get_src_line(),
            last.get_src_col(),
        ))
    }
}

/// Adds a count to that of a function.
fn add_function(parts: &mut Parts, function: Function, count: u64) -> Result<(), AllocError> {
    let old = parts.functions.get(&function).map_or(0, |old| *old);
    let _ = parts.functions.insert(function, old.saturating_add(count))?;
    Ok(())
}

/// Adds a count to that of a branch.
fn add_branch(parts: &mut Parts, branch: Branch, count: u64) -> Result<(), AllocError> {
    let old = parts.branches.get(&branch).map_or(0, |old| *old);
    let _ = parts.branches.insert(branch, old.saturating_add(count))?;
    Ok(())
}

/// The ranges of a report around the block that is reached, the innermost last, and those behind.
#[derive(Drop)]
struct Around<'r> {
    open: Vec<Run>,
    behind: &'r [Run],
}

impl Around<'_> {
    /// Leaves the ranges that end at or before an offset.
    fn leave(&mut self, offset: u32) {
        for _ in 0..self.open.len() {
            match self.open.as_slice().last() {
                Some(range) if range.end <= offset => {
                    let _ = self.open.pop();
                }
                _ => break,
            }
        }
    }

    /// Advances to a block.
    fn go_to(&mut self, block: &Run) -> Result<(), AllocError> {
        for _ in 0..self.behind.len() {
            match self.behind.split_first() {
                Some((range, rest)) if (range.start, block.end) <= (block.start, range.end) => {
                    self.leave(range.start);
                    self.open.push(*range)?;
                    self.behind = rest;
                }
                _ => break,
            }
        }
        self.leave(block.start);
        Ok(())
    }

    /// The count of the innermost range around a block that was reached.
    fn count(&self, block: &Run) -> u64 {
        let around = self.open.iter().rev().find(|range| range.end >= block.end);
        around.map_or(0, |range| range.count)
    }
}

/// Adds to the count of each of some blocks that of the innermost range around it: V8 leaves out a block that ran as often as that.
fn add_counts(alloc: Global, ranges: &[Run], blocks: &mut [Run]) -> Result<(), AllocError> {
    let mut around = Around {
        open: Vec::new(alloc),
        behind: ranges,
    };
    for block in blocks {
        around.go_to(block)?;
        block.count = block.count.saturating_add(around.count(block));
    }
    Ok(())
}

impl Reports {
    /// The blocks, with how often they ran by all reports.
    fn counted(&self, alloc: Global) -> Result<Vec<Run>, AllocError> {
        let mut blocks = Vec::new(alloc);
        for (start, distance) in self.blocks.keys() {
            blocks.push(Run {
                start: *start,
                end: u32::MAX - *distance,
                count: 0,
            })?;
        }
        for ranges in &self.ranges {
            add_counts(alloc, ranges.as_slice(), blocks.as_mut_slice())?;
        }
        Ok(blocks)
    }

    /// Adds the blocks to the branches of their originals.
    fn add_to(&self, alloc: Global, parts: &mut [Parts]) -> Result<(), AllocError> {
        let mut met: BTreeMap<Place, u32> = BTreeMap::new(alloc);
        let blocks = self.counted(alloc)?;
        for (place, block) in self.blocks.values().zip(blocks.iter()) {
            let number = met.get(place).map_or(0, |number| *number);
            let _ = met.insert(*place, number.saturating_add(1))?;
            let (original, line, column, last_line, last_column) = *place;
            if let Some(parts) = parts.get_mut(original) {
                let branch = (line, column, last_line, last_column, number);
                add_branch(parts, branch, block.count)?;
            }
        }
        Ok(())
    }
}

impl AllParts {
    pub(crate) fn new(alloc: Global) -> AllParts {
        AllParts {
            alloc,
            numbers: BTreeMap::new(alloc),
            parts: Vec::new(alloc),
            reports: BTreeMap::new(alloc),
        }
    }

    /// Those of the original with this path.
    pub(crate) fn get(&self, path: &str) -> Option<&Parts> {
        self.parts.get(*self.numbers.get(path)?)
    }

    /// The number of the original with this path.
    fn number_of(&mut self, path: &str) -> Result<usize, AllocError> {
        if let Some(number) = self.numbers.get(path) {
            return Ok(*number);
        }
        let number = self.parts.len();
        self.parts.push(Parts {
            functions: BTreeMap::new(self.alloc),
            branches: BTreeMap::new(self.alloc),
        })?;
        let _ = self
            .numbers
            .insert(String::from_str(self.alloc, path)?, number)?;
        Ok(number)
    }

    /// Adds a function that was called, if an original has it.
    fn add_called(&mut self, mapped: Mapped<'_>, called: &Called<'_>) -> Result<(), AllocError> {
        let tokens = mapped.tokens();
        let block = block_of(mapped.code, &called.run);
        let Some(first) = block.and_then(|block| first_in(tokens, &block)) else {
            return Ok(());
        };
        let units = utf16_units(self.alloc, called.name)?;
        let name = mapped
            .name_near(first, units.as_slice())
            .unwrap_or(called.name);
        if let Some(token) = tokens.get(first)
            && let Some(original) = mapped.original(token)
            && let Some(parts) = self.parts.get_mut(original)
        {
            let name = String::from_str(self.alloc, name)?;
            let function = (token.get_src_line(), token.get_src_col(), name);
            add_function(parts, function, called.run.count)?;
        }
        Ok(())
    }

    /// Adds the blocks of a report with these ranges on a code.
    fn add_blocks(
        &mut self,
        path: &str,
        mapped: Mapped<'_>,
        script: &Script,
        ranges: Vec<Run>,
    ) -> Result<(), AllocError> {
        if !self.reports.contains_key(path) {
            let reports = Reports {
                blocks: BTreeMap::new(self.alloc),
                ranges: Vec::new(self.alloc),
            };
            let _ = self
                .reports
                .insert(String::from_str(self.alloc, path)?, reports)?;
        }
        let Some(reports) = self.reports.get_mut(path) else {
            return Ok(());
        };
        reports.ranges.push(ranges)?;
        for block in &script.blocks(self.alloc)? {
            if let Some(place) = mapped.place_of(block) {
                let key = (block.start, u32::MAX - block.end);
                let _ = reports.blocks.insert(key, place)?;
            }
        }
        Ok(())
    }

    /// Adds a report with these ranges (`ranges_of`) on the code in a file. `paths` has the path of each source of its map.
    pub(crate) fn add(
        &mut self,
        path: &str,
        paths: &[String],
        code: &Code<'_>,
        map: &SourceMap<'_>,
        script: &Script,
        ranges: Vec<Run>,
    ) -> Outcome<()> {
        let mut originals = Vec::new(self.alloc);
        for path in paths {
            originals.push(self.number_of(path.as_str())?)?;
        }
        let mapped = Mapped {
            code,
            map,
            originals: originals.as_slice(),
        };
        for called in &script.called(self.alloc)? {
            self.add_called(mapped, called)?;
        }
        Ok(self.add_blocks(path, mapped, script, ranges)?)
    }

    /// Counts the branches, once all reports are added.
    pub(crate) fn finish(&mut self) -> Outcome<()> {
        for reports in self.reports.values() {
            reports.add_to(self.alloc, self.parts.as_mut_slice())?;
        }
        self.reports = BTreeMap::new(self.alloc);
        Ok(())
    }
}

/// Appends the name of a function for lcov, which tells functions of one file apart by their names: so one whose name was met has its line
/// and column too.
fn push_name(
    alloc: Global,
    function: &Function,
    met: &BTreeSet<&str>,
    out: &mut String,
) -> Outcome<()> {
    let (line, column, name) = function;
    push_visible(name.as_str(), out)?;
    if met.contains(name.as_str()) {
        let (line, column) = (u64::from(*line) + 1, u64::from(*column) + 1);
        out.push_str(format!(in alloc; ":{line}:{column}")?.as_str())?;
    }
    Ok(out.push('\n')?)
}

impl Parts {
    /// How many functions ran.
    pub(crate) fn functions(&self) -> Tally {
        let mut tally = Tally::default();
        for count in self.functions.values() {
            tally.add(*count);
        }
        tally
    }

    /// How many branches ran.
    pub(crate) fn branches(&self) -> Tally {
        let mut tally = Tally::default();
        for count in self.branches.values() {
            tally.add(*count);
        }
        tally
    }

    /// The lines and the names of the functions that did not run.
    pub(crate) fn missed_functions(&self, alloc: Global) -> Result<Vec<(u32, &str)>, AllocError> {
        let mut missed = Vec::new(alloc);
        for ((line, _, name), count) in &self.functions {
            if *count == 0 {
                missed.push((*line, name.as_str()))?;
            }
        }
        Ok(missed)
    }

    /// The lines of the branches that did not run.
    pub(crate) fn missed_branches(&self, alloc: Global) -> Result<Vec<u32>, AllocError> {
        let mut missed = Vec::new(alloc);
        for ((line, _, _, _, _), count) in &self.branches {
            if *count == 0 {
                missed.push(*line)?;
            }
        }
        Ok(missed)
    }

    /// Appends the functions as lcov reads them.
    fn push_lcov_functions(&self, alloc: Global, out: &mut String) -> Outcome<()> {
        let mut met = BTreeSet::new(alloc);
        let mut counts = String::new(alloc);
        for (function, count) in &self.functions {
            let line = u64::from(function.0) + 1;
            out.push_str(format!(in alloc; "FN:{line},")?.as_str())?;
            push_name(alloc, function, &met, out)?;
            counts.push_str(format!(in alloc; "FNDA:{count},")?.as_str())?;
            push_name(alloc, function, &met, &mut counts)?;
            let _ = met.insert(function.2.as_str())?;
        }
        out.push_str(counts.as_str())?;
        let Tally { ran, all } = self.functions();
        out.push_str(format!(in alloc; "FNF:{all}\nFNH:{ran}\n")?.as_str())?;
        Ok(())
    }

    /// Appends the branches as lcov reads them.
    fn push_lcov_branches(&self, alloc: Global, out: &mut String) -> Outcome<()> {
        let mut number = 0u64;
        for ((line, _, _, _, _), count) in &self.branches {
            let line = u64::from(*line) + 1;
            out.push_str(format!(in alloc; "BRDA:{line},{number},0,{count}\n")?.as_str())?;
            number = number.saturating_add(1);
        }
        let Tally { ran, all } = self.branches();
        out.push_str(format!(in alloc; "BRF:{all}\nBRH:{ran}\n")?.as_str())?;
        Ok(())
    }

    /// Appends the functions and the branches as lcov reads them, if there are any.
    pub(crate) fn push_lcov(&self, alloc: Global, out: &mut String) -> Outcome<()> {
        if self.functions.is_empty() && self.branches.is_empty() {
            return Ok(());
        }
        self.push_lcov_functions(alloc, out)?;
        self.push_lcov_branches(alloc, out)
    }

    /// Appends the entries of the member `functions`.
    fn push_functions(&self, alloc: Global, out: &mut String) -> Outcome<()> {
        let mut is_first = true;
        for ((line, _, name), count) in &self.functions {
            let mut members = String::new(alloc);
            push_number_member(alloc, "line", u64::from(*line) + 1, &mut members)?;
            push_number_member(alloc, "count", *count, &mut members)?;
            push_text_member("name", name.as_str(), &mut members)?;
            if !is_first {
                out.push(',')?;
            }
            is_first = false;
            push_object(members.as_str(), out)?;
        }
        Ok(())
    }

    /// Appends the entries of the member `branches`.
    fn push_branches(&self, alloc: Global, out: &mut String) -> Outcome<()> {
        let mut is_first = true;
        for ((line, _, _, _, _), count) in &self.branches {
            let mut members = String::new(alloc);
            push_number_member(alloc, "line", u64::from(*line) + 1, &mut members)?;
            push_number_member(alloc, "count", *count, &mut members)?;
            if !is_first {
                out.push(',')?;
            }
            is_first = false;
            push_object(members.as_str(), out)?;
        }
        Ok(())
    }

    /// Appends the members `functions` and `branches` of a JSON object.
    pub(crate) fn push_members(&self, alloc: Global, out: &mut String) -> Outcome<()> {
        out.push_str(",\"functions\":[")?;
        self.push_functions(alloc, out)?;
        out.push_str("],\"branches\":[")?;
        self.push_branches(alloc, out)?;
        Ok(out.push(']')?)
    }
}
