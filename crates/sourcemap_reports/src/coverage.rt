//! `coverage`: lines, functions and branches of originals that ran, by V8's block coverage.
ghost use Rattle.std.specs.Prelude.{◌≡◌, ◌*◌, nat_lt};

use crate::functions::{AllParts, Tally, tokens_around};
use crate::html::{Contents, add_content, page_of};
use oxc_sourcemap_map::SourceMap;
use oxc_sourcemap_text::{TextPositions, utf16_units};
use oxc_sourcemap_tokens::Position;
use sourcemap_files::{
    Asked, CodeFile, InputPrefix, Lookup, MapText, Places, Progress, Sought, SourceNames, Status,
    files_below, find_code, is_file, is_in_root, map_of_code, names_folder, path_of_url, print,
    read_map, read_text, shown_name, tell, warn,
};
use sourcemap_run::{
    Block, Mark, Totals, add_marks, counted_lines, percent, push_covered, push_lcov, push_marks,
    push_missed, ran,
};
use sourcemap_texts::{is_hidden, push_shown};
use sourcemap_words::{Failure, Outcome, Report, Run, Script, failure_of, ranges_of, runs_of};
use std::alloc::{AllocError, Global};
use std::collections::BTreeMap;
use std::env;

/// How many of the codes that are left out are reported one by one; the others are counted.
const FEW: usize = 8;

/// V8's report, by source.
#[derive(Drop)]
struct Coverage {
    alloc: Global,
    names: SourceNames,
    /// What is before the paths of codes in the root.
    input: InputPrefix,
    sources: Totals,
    parts: AllParts,
    /// The contents of sources, if they are to be printed.
    contents: Option<Contents>,
    /// The codes that are left out, and the reports on them.
    left_out: BTreeMap<String, String>,
}

/// The code of a script, without a byte order mark, and its positions.
#[derive(Clone, Copy)]
pub(crate) struct Code<'c> {
    pub(crate) units: &'c [u16],
    pub(crate) positions: &'c TextPositions<'c>,
    /// How many units V8 saw before it.
    pub(crate) before: u32,
}

impl Code<'_> {
    /// What is at an offset of V8.
    pub(crate) fn at(&self, offset: u32) -> u32 {
        offset.saturating_sub(self.before)
    }
}

/// Whether a unit is white space.
pub(crate) fn is_space(unit: u16) -> bool {
    matches!(unit, 9..=13 | 32 | 0xa0 | 0x2028 | 0x2029 | 0xfeff)
}

/// Whether a unit is code of some line. White space and punctuation that a generator puts in or leaves out is of no line, and blocks
/// begin and end at it.
fn is_code(unit: u16) -> bool {
    let is_mark = b"()[]{},:;".iter().any(|mark| u16::from(*mark) == unit);
    !is_space(unit) && !is_mark
}

/// Whether there is code in a piece. A piece that goes past the end of its line ends with it.
fn has_code(code: &Code<'_>, mark: &Mark) -> bool {
    let Ok(start) = code.positions.offset(mark.start.line, mark.start.column) else {
        return false;
    };
    let end = code
        .positions
        .offset(mark.end.line, mark.end.column)
        .or_else(|_| code.positions.offset(mark.end.line.saturating_add(1), 0));
    let end = match end {
        Ok(end) => end as usize,
        Err(_) => code.units.len(),
    };
    let part = code.units.get(start as usize..end).unwrap_or(&[]);
    part.iter().any(|unit| is_code(*unit))
}

/// The positions of a run; None if V8's report is of another code.
pub(crate) fn block_of(code: &Code<'_>, run: &Run) -> Option<Block> {
    let (line, column) = code.positions.position(code.at(run.start)).ok()?;
    let (end_line, end_column) = code.positions.position(code.at(run.end)).ok()?;
    Some(Block {
        start: Position { line, column },
        end: Position {
            line: end_line,
            column: end_column,
        },
        count: run.count,
    })
}

/// What all pieces of a script say of lines.
fn marks_of(
    alloc: Global,
    map: &SourceMap<'_>,
    code: &Code<'_>,
    runs: &[Run],
) -> Result<Vec<Mark>, AllocError> {
    let mut marks = Vec::new(alloc);
    for run in runs {
        if let Some(block) = block_of(code, run) {
            let tokens = tokens_around(map.get_tokens().as_slice(), &block);
            push_marks(tokens, block, &mut marks)?;
        }
    }
    Ok(marks)
}

/// What the pieces of a script that have code say of lines.
fn code_marks_of(
    alloc: Global,
    code: &Code<'_>,
    map: &SourceMap<'_>,
    runs: &[Run],
) -> Outcome<Vec<Mark>> {
    let mut marks = marks_of(alloc, map, code, runs)?;
    marks.retain(|mark| has_code(code, mark));
    // Of pieces that follow one another and say the same one counts as much as all.
    marks.dedup_by_key(|mark| (mark.source_id, mark.line, mark.count));
    Ok(marks)
}

impl Coverage {
    fn new(asked: &Asked<'_, '_>) -> Outcome<Coverage> {
        let alloc = asked.alloc();
        Ok(Coverage {
            alloc,
            names: SourceNames::from_here(asked.rt)?,
            input: asked.input_prefix()?,
            sources: Totals::new(alloc),
            parts: AllParts::new(alloc),
            contents: asked.has("html").then(|| Contents::new(alloc)),
            left_out: BTreeMap::new(alloc),
        })
    }

    /// The paths of the sources of a map in a folder.
    fn paths_of(&self, map: &SourceMap<'_>, folder: &str) -> Outcome<Vec<String>> {
        let mut paths = Vec::new(self.alloc);
        for source in map.get_sources() {
            paths.push(self.names.name(folder, source)?)?;
        }
        Ok(paths)
    }

    /// Keeps the contents of the sources of a map, if they are to be printed.
    fn keep_contents(&mut self, map: &SourceMap<'_>, paths: &[String]) -> Outcome<()> {
        let Some(contents) = &mut self.contents else {
            return Ok(());
        };
        for (path, content) in paths.iter().zip(map.get_source_contents()) {
            if let Some(content) = content {
                add_content(self.alloc, contents, path.as_str(), content)?;
            }
        }
        Ok(())
    }

    fn leave_out(&mut self, code: &str, why: String) -> Outcome<()> {
        let _ = self
            .left_out
            .insert(String::from_str(self.alloc, code)?, why)?;
        Ok(())
    }

    /// Leaves out a code of which V8 saw another build.
    fn leave_out_other(&mut self, path: &str, len: usize, seen: usize) -> Outcome<()> {
        let why = format!(in self.alloc;
            "{path} is of another build: V8 saw {seen} UTF-16 units, and it has {len}"
        )?;
        self.leave_out(path, why)
    }

    /// Adds V8's report of a script with the code in this file and this map.
    fn add_mapped(
        &mut self,
        asked: &Asked<'_, '_>,
        script: &Script,
        path: &str,
        code: &str,
        text: &MapText,
    ) -> Outcome<()> {
        let mut map = SourceMap::from_parts(read_map(asked.rt, text)?);
        map.apply_source_root(self.alloc)?;
        let ranges = ranges_of(self.alloc, script)?;
        let rest = code.strip_prefix('\u{feff}');
        let code = rest.unwrap_or(code);
        let positions = TextPositions::new(self.alloc, code)?;
        let units = utf16_units(self.alloc, code)?;
        // Node removes a byte order mark from modules, but not from scripts.
        let end = end_of(ranges.as_slice());
        let before = u32::from(rest.is_some() && end > units.len());
        let len = units.len().saturating_add(before as usize);
        if is_other_build(self.alloc, len, script, ranges.as_slice())? {
            return self.leave_out_other(path, len, end);
        }
        let code = Code {
            units: units.as_slice(),
            positions: &positions,
            before,
        };
        let runs = runs_of(self.alloc, ranges.as_slice())?;
        let marks = code_marks_of(self.alloc, &code, &map, runs.as_slice())?;
        let paths = self.paths_of(&map, text.folder.as_str())?;
        add_marks(
            self.alloc,
            &mut self.sources,
            paths.as_slice(),
            marks.as_slice(),
        )?;
        self.keep_contents(&map, paths.as_slice())?;
        self.parts
            .add(path, paths.as_slice(), &code, &map, script, ranges)
    }

    /// The code of a script, if it is there.
    fn code_of(&mut self, asked: &Asked<'_, '_>, url: &str) -> Outcome<Option<CodeFile>> {
        let found = match find_code(asked.rt, url, asked.places(), &mut self.input)? {
            Sought::Code(found) => found,
            _sought => return Ok(None),
        };
        if is_file(asked.rt, found.path.as_str()) {
            Ok(Some(found))
        } else {
            Ok(None)
        }
    }

    /// Adds V8's report of a script, if its code is found and has a map.
    fn add_script(&mut self, asked: &Asked<'_, '_>, script: &Script) -> Outcome<()> {
        let url = script.url.as_str();
        if is_of_engine(url) {
            return Ok(());
        }
        match self.code_of(asked, url)? {
            Some(found) => self.add_code(asked, script, found),
            None => {
                let why = format!(in self.alloc;
                    "{url} is not in the root: name its folder by --root"
                )?;
                self.leave_out(url, why)
            }
        }
    }

    /// Adds V8's report of a script with this code, if that has a map.
    fn add_code(&mut self, asked: &Asked<'_, '_>, script: &Script, found: CodeFile) -> Outcome<()> {
        let rt = asked.rt;
        let path = found.path.as_str();
        let places = Places {
            root: found.folder.as_str(),
            ..asked.places()
        };
        if !is_in_root(rt, path, places) {
            let why = format!(in self.alloc;
                "{path} is a link out of the root: allow it by --outside"
            )?;
            return self.leave_out(path, why);
        }
        let code = read_text(rt, path)?;
        match map_of_code(rt, path, code.as_str(), places)? {
            Lookup::Map(text) => self.add_mapped(asked, script, path, code.as_str(), &text),
            Lookup::None(why) => self.leave_out(path, why),
        }
    }

    /// Reports which codes are left out, or how many if they are not few, and that nothing is found.
    fn tell_left_out(&self, rt: &HostRuntime) -> Outcome<()> {
        let count = self.left_out.len();
        for why in self.left_out.values().take(FEW) {
            warn(rt, "left out", why.as_str());
        }
        if count > FEW {
            let more = count.saturating_sub(FEW);
            let codes = if more == 1 { "code is" } else { "codes are" };
            let text = format!(in self.alloc; "{more} more {codes} left out")?;
            tell(rt, text.as_str());
        }
        if self.sources.is_empty() {
            tell(rt, "no line of an original is found in V8's coverage");
        }
        Ok(())
    }
}

/// Where the last of some ranges ends.
fn end_of(ranges: &[Run]) -> usize {
    let end = ranges.iter().map(|range| range.end as usize).max();
    end.unwrap_or(0)
}

/// Whether V8 saw a code of another length than this: if a range ends behind it, or the range of the whole code ends before it. A report may
/// lack the range of the whole code: then each range from 0 to the last end is that of a function with a name.
fn is_other_build(
    alloc: Global,
    len: usize,
    script: &Script,
    ranges: &[Run],
) -> Result<bool, AllocError> {
    let end = end_of(ranges);
    let is_whole = |run: &Run| run.start == 0 && run.end as usize == end;
    let called = script.called(alloc)?;
    let named = called.iter().filter(|called| is_whole(&called.run)).count();
    let all = ranges.iter().filter(|run| is_whole(run)).count();
    Ok(end > len || end < len && all > named)
}

/// Whether V8 names a script that is no file: of Node, or of a text that was evaluated.
fn is_of_engine(url: &str) -> bool {
    url.is_empty() || url.starts_with("node:") || url.starts_with("evalmachine.")
}

/// Adds the files that a word stands for: of a folder those in it and below it that are named `*.json`.
fn push_files(asked: &Asked<'_, '_>, word: &str, files: &mut Vec<String>) -> Outcome<()> {
    let alloc = asked.alloc();
    if !names_folder(asked.rt, word) {
        return Ok(files.push(String::from_str(alloc, word)?)?);
    }
    let count = files.len();
    let listed = files_below(asked.rt, word)?;
    for path in listed.files {
        if path.as_str().ends_with(".json") {
            files.push(path)?;
        }
    }
    if let Some(failure) = listed.failures.as_slice().first() {
        return Err(failure_of(alloc, word, failure.as_str()));
    }
    if files.len() == count {
        return Err(failure_of(alloc, word, "no file *.json is in this folder or below it"));
    }
    Ok(())
}

/// Adds the report in a file of V8.
fn add_file(asked: &Asked<'_, '_>, file: &str, coverage: &mut Coverage) -> Outcome<()> {
    let alloc = asked.alloc();
    let text = read_text(asked.rt, file)?;
    let report: Report = match serde_json::from_str(alloc, text.as_str()) {
        Ok(report) => report,
        Err(error) => {
            let text = format!(in alloc;
                "is no coverage of V8, as Node writes it for NODE_V8_COVERAGE: {error}"
            )?;
            return Err(failure_of(alloc, shown_name(file), text.as_str()));
        }
    };
    for script in &report.result {
        coverage.add_script(asked, script)?;
    }
    Ok(())
}

/// Adds the reports in files. Returns the last file that could not be read, which is reported if it is not the only one.
fn add_files<'f>(
    asked: &Asked<'_, '_>,
    files: &'f [String],
    coverage: &mut Coverage,
) -> Outcome<Option<&'f str>> {
    let mut progress = Progress::new(asked.rt, files.len());
    let mut trouble = None;
    for file in files {
        progress.begin(asked.rt, file.as_str());
        match add_file(asked, file.as_str(), coverage) {
            Ok(()) => {}
            Err(Failure::Told(why)) if files.len() > 1 => {
                progress.clear(asked.rt);
                tell(asked.rt, why.as_str());
                trouble = Some(file.as_str());
            }
            Err(failure) => return Err(failure),
        }
    }
    progress.clear(asked.rt);
    Ok(trouble)
}

/// Appends a row: the percentage, of how many of these things, and which.
fn push_row(
    alloc: Global,
    tally: Tally,
    things: &str,
    source: &str,
    missed: &str,
    out: &mut String,
) -> Outcome<()> {
    let Tally { ran, all } = tally;
    let Some(percent) = percent(ran, all) else {
        return Ok(out.push_str(format!(in alloc; "no {things}\n")?.as_str())?);
    };
    let tail = if missed.is_empty() { "" } else { "  missed: " };
    let row = format!(in alloc; "{percent:>3} %  {ran:>6} of {all:>6} {things}  ")?;
    out.push_str(row.as_str())?;
    push_shown(source, out)?;
    out.push_str(format!(in alloc; "{tail}{missed}\n")?.as_str())?;
    Ok(())
}

/// What `--check` measures.
#[derive(Clone, Copy)]
enum Measure {
    Lines,
    Functions,
    Branches,
}

impl Measure {
    fn name(self) -> &'static str {
        match self {
            Measure::Lines => "lines",
            Measure::Functions => "functions",
            Measure::Branches => "branches",
        }
    }

    /// The measure of this name, if there is one.
    fn of_name(name: &str) -> Option<Measure> {
        match name {
            "lines" => Some(Measure::Lines),
            "functions" => Some(Measure::Functions),
            "branches" => Some(Measure::Branches),
            _ => None,
        }
    }
}

impl Coverage {
    /// How many lines of all originals ran.
    fn all_lines(&self) -> Outcome<Tally> {
        let mut tally = Tally::default();
        for lines in self.sources.values() {
            let lines = counted_lines(self.alloc, lines)?;
            tally.add_all(Tally {
                ran: ran(lines.as_slice()),
                all: lines.len() as u64,
            });
        }
        Ok(tally)
    }

    /// How many functions and how many branches of the originals that have lines ran.
    fn all_parts(&self) -> (Tally, Tally) {
        let mut all = (Tally::default(), Tally::default());
        for source in self.sources.keys() {
            if let Some(parts) = self.parts.get(source.as_str()) {
                all.0.add_all(parts.functions());
                all.1.add_all(parts.branches());
            }
        }
        all
    }

    fn tally(&self, measure: Measure) -> Outcome<Tally> {
        match measure {
            Measure::Lines => self.all_lines(),
            Measure::Functions => Ok(self.all_parts().0),
            Measure::Branches => Ok(self.all_parts().1),
        }
    }

    /// The table: a row for each original, and one of all for each measure, but for functions and branches if there are none.
    fn table(&self) -> Outcome<String> {
        let alloc = self.alloc;
        let mut out = String::new(alloc);
        for (source, lines) in &self.sources {
            let lines = counted_lines(alloc, lines)?;
            let tally = Tally {
                ran: ran(lines.as_slice()),
                all: lines.len() as u64,
            };
            let mut missed = String::new(alloc);
            push_missed(alloc, lines.as_slice(), &mut missed)?;
            push_row(
                alloc,
                tally,
                "lines",
                source.as_str(),
                missed.as_str(),
                &mut out,
            )?;
        }
        push_row(alloc, self.all_lines()?, "lines", "all", "", &mut out)?;
        for measure in [Measure::Functions, Measure::Branches] {
            let tally = self.tally(measure)?;
            if tally.all > 0 {
                push_row(alloc, tally, measure.name(), "all", "", &mut out)?;
            }
        }
        Ok(out)
    }

    /// Appends the record of an original for lcov: in it the functions and branches are ahead of the lines.
    fn push_record(&self, source: &str, lines: &[(u32, u64)], out: &mut String) -> Outcome<()> {
        let mut record = String::new(self.alloc);
        push_lcov(self.alloc, source, lines, &mut record)?;
        let start = "TN:\nSF:\n".len().saturating_add(source.len());
        let (front, rest) = (record.as_str().get(..start), record.as_str().get(start..));
        out.push_str(front.unwrap_or(""))?;
        if let Some(parts) = self.parts.get(source) {
            parts.push_lcov(self.alloc, out)?;
        }
        Ok(out.push_str(rest.unwrap_or(""))?)
    }

    /// What lcov reads. There a line feed in a path would be the end of it.
    fn lcov(&self, rt: &HostRuntime) -> Outcome<String> {
        let mut out = String::new(self.alloc);
        for (source, lines) in &self.sources {
            if source.as_str().chars().any(|ch| is_hidden(ch)) {
                let mut shown = String::new(self.alloc);
                push_shown(source.as_str(), &mut shown)?;
                let why = "has a hidden character in its path, and is left out";
                warn(rt, shown.as_str(), why);
                continue;
            }
            let lines = counted_lines(self.alloc, lines)?;
            self.push_record(source.as_str(), lines.as_slice(), &mut out)?;
        }
        Ok(out)
    }

    /// An object a line, for each original: that of its lines, with more members at its end.
    fn objects(&self) -> Outcome<String> {
        let mut out = String::new(self.alloc);
        for (source, lines) in &self.sources {
            let lines = counted_lines(self.alloc, lines)?;
            let mut object = String::new(self.alloc);
            push_covered(self.alloc, source.as_str(), lines.as_slice(), &mut object)?;
            let object = object.as_str();
            out.push_str(object.strip_suffix("}\n").unwrap_or(object))?;
            if let Some(parts) = self.parts.get(source.as_str()) {
                parts.push_members(self.alloc, &mut out)?;
            } else {
                out.push_str(",\"functions\":[],\"branches\":[]")?;
            }
            out.push_str("}\n")?;
        }
        Ok(out)
    }

    /// What is printed.
    fn text(&self, asked: &Asked<'_, '_>) -> Outcome<String> {
        match &self.contents {
            Some(contents) => page_of(self.alloc, &self.sources, &self.parts, contents),
            None if asked.has("json") => self.objects(),
            None if asked.has("lcov") => self.lcov(asked.rt),
            None => self.table(),
        }
    }
}

/// The measure and the percentage in a word of `--check`, as `lines=80`; None if it is no such word.
fn check_of(word: &str) -> Option<(Measure, u64)> {
    let (name, digits) = word.split_once('=')?;
    let measure = Measure::of_name(name)?;
    if !digits.bytes().all(|byte| byte.is_ascii_digit()) {
        return None;
    }
    match digits.parse::<u64>() {
        Ok(percent) if percent <= 100 => Some((measure, percent)),
        _ => None,
    }
}

/// The percentages that `--check` asks for.
fn checks_of(asked: &Asked<'_, '_>) -> Outcome<Vec<(Measure, u64)>> {
    let alloc = asked.alloc();
    let mut checks = Vec::new(alloc);
    for word in &asked.words("check")? {
        let Some(check) = check_of(word) else {
            let text = format!(in alloc;
                "{word:?} is no measure with a percentage: write lines=PERCENT, functions=PERCENT or branches=PERCENT, with a whole number from 0 to 100"
            )?;
            return Err(failure_of(alloc, "--check", text.as_str()));
        };
        checks.push(check)?;
    }
    Ok(checks)
}

/// Whether a lower percentage ran than a check asks for. If there are none, no check is missed.
fn are_missed(check: u64, ran: u64, all: u64) -> bool
    ensures { result ≡ nat_lt (ran * 100) (check * all) }
{
    u128::from(ran) * 100 < u128::from(check) * u128::from(all)
}

/// Whether as many ran as all checks ask for. Those are reported for which fewer did.
fn are_met(rt: &HostRuntime, coverage: &Coverage, checks: &[(Measure, u64)]) -> Outcome<bool> {
    let alloc = rt.alloc();
    let mut met = true;
    for (measure, check) in checks {
        let Tally { ran, all } = coverage.tally(*measure)?;
        if are_missed(*check, ran, all) {
            let (name, percent) = (measure.name(), percent(ran, all).unwrap_or(0));
            let text = format!(in alloc;
                "{percent} % of the {name} ran, and --check asks for {check} %"
            )?;
            tell(rt, text.as_str());
            met = false;
        }
    }
    Ok(met)
}

/// Runs the command `coverage`.
pub fn run(asked: &Asked<'_, '_>) -> Outcome<Status> {
    let checks = checks_of(asked)?;
    let mut files = Vec::new(asked.alloc());
    for word in &asked.words("V8.json")? {
        push_files(asked, word, &mut files)?;
    }
    let mut coverage = Coverage::new(asked)?;
    let trouble = add_files(asked, files.as_slice(), &mut coverage)?;
    coverage.parts.finish()?;
    coverage.tell_left_out(asked.rt)?;
    print(asked.rt, coverage.text(asked)?.as_str())?;
    let met = are_met(asked.rt, &coverage, checks.as_slice())?;
    match trouble {
        Some(file) => Err(failure_of(asked.alloc(), file, "was not read to its end, see above")),
        None => Ok(Status::of(met && !coverage.sources.is_empty())),
    }
}
