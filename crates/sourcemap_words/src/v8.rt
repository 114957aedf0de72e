//! V8's block coverage, as blocks that do not overlap.
use serde::Deserialize;
use std::alloc::{AllocError, Global};

/// What Node writes for NODE_V8_COVERAGE.
#[derive(Drop, Deserialize)]
pub struct Report {
    pub result: Vec<Script>,
}

/// V8's report of one script.
#[derive(Drop, Deserialize)]
pub struct Script {
    pub url: String,
    functions: Vec<Function>,
}

#[derive(Drop, Deserialize)]
#[serde(rename_all = "camelCase")]
struct Function {
    /// Empty or missing if it has no name.
    function_name: Option<String>,
    /// The first is that of the whole function.
    ranges: Vec<Range>,
    /// Whether the other ranges are its blocks.
    #[serde(default)]
    is_block_coverage: bool,
}

/// How often the code between two offsets ran, in UTF-16 units. Of two ranges one is in the other, or they do not overlap.
#[derive(Clone, Copy, Deserialize)]
#[serde(rename_all = "camelCase")]
struct Range {
    start_offset: u32,
    end_offset: u32,
    count: u64,
}

/// A range of the code, or a part of it in which no range begins or ends, and how often it ran.
#[derive(Clone, Copy)]
pub struct Run {
    pub start: u32,
    pub end: u32,
    pub count: u64,
}

/// A function that has a name, and how often it was called.
#[derive(Clone, Copy)]
pub struct Called<'s> {
    pub name: &'s str,
    pub run: Run,
}

impl Range {
    fn as_run(&self) -> Run {
        Run {
            start: self.start_offset,
            end: self.end_offset,
            count: self.count,
        }
    }
}

impl Script {
    /// The functions that have a name, in V8's order.
    pub fn called(&self, alloc: Global) -> Result<Vec<Called<'_>>, AllocError> {
        let mut called = Vec::new(alloc);
        for function in &self.functions {
            if let Some(range) = function.ranges.as_slice().first()
                && let Some(name) = &function.function_name
                && !name.is_empty()
            {
                called.push(Called {
                    name: name.as_str(),
                    run: range.as_run(),
                })?;
            }
        }
        Ok(called)
    }

    /// The blocks that V8 counts by themselves, each whole function that ran among them, in V8's order.
    pub fn blocks(&self, alloc: Global) -> Result<Vec<Run>, AllocError> {
        let mut blocks = Vec::new(alloc);
        for function in &self.functions {
            if function.is_block_coverage {
                for range in &function.ranges {
                    blocks.push(range.as_run())?;
                }
            }
        }
        Ok(blocks)
    }
}

/// The order in which the ranges are met: by where they begin, the longest first, so that an outer one is before those in it.
fn is_before(a: &Run, b: &Run) -> std::cmp::Ordering {
    a.start.cmp(&b.start).then(b.end.cmp(&a.end))
}

/// The ranges of a script, by where they begin, an outer one before those in it. Empty ones are left out.
pub fn ranges_of(alloc: Global, script: &Script) -> Result<Vec<Run>, AllocError> {
    let mut ranges = Vec::new(alloc);
    for function in &script.functions {
        for range in &function.ranges {
            if range.start_offset < range.end_offset {
                ranges.push(range.as_run())?;
            }
        }
    }
    ranges.sort_by(is_before)?;
    Ok(ranges)
}

/// The ranges around the place that is reached, the innermost last.
#[derive(Drop)]
struct Around {
    open: Vec<Run>,
    at: u32,
    runs: Vec<Run>,
}

impl Around {
    /// Advances to an offset: the code before it has the count of the innermost range.
    fn go_to(&mut self, offset: u32) -> Result<(), AllocError> {
        if let Some(range) = self.open.as_slice().last()
            && self.at < offset
        {
            self.runs.push(Run {
                start: self.at,
                end: offset,
                count: range.count,
            })?;
        }
        self.at = self.at.max(offset);
        Ok(())
    }

    /// Leaves the ranges that end at or before an offset.
    fn leave(&mut self, offset: u32) -> Result<(), AllocError> {
        for _ in 0..self.open.len() {
            match self.open.as_slice().last() {
                Some(range) if range.end <= offset => {
                    let end = range.end;
                    self.go_to(end)?;
                    let _ = self.open.pop();
                }
                _ => break,
            }
        }
        Ok(())
    }
}

/// The runs of a script with these ranges (`ranges_of`), from left to right: each part has the count of the innermost range around it.
pub fn runs_of(alloc: Global, ranges: &[Run]) -> Result<Vec<Run>, AllocError> {
    let mut around = Around {
        open: Vec::new(alloc),
        at: 0,
        runs: Vec::new(alloc),
    };
    for range in ranges {
        around.leave(range.start)?;
        around.go_to(range.start)?;
        around.open.push(*range)?;
    }
    around.leave(u32::MAX)?;
    let Around {
        open: _,
        at: _,
        runs,
    } = around;
    Ok(runs)
}
