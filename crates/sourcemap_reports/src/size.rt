//! `size`: how many bytes of codes come from each source.
use crate::gzip::{divide, gzip_len};
use crate::page::read_code;
use crate::template::{Template, push_list, refuse_two_texts};
use oxc_sourcemap_map::SourceMap;
use sourcemap_files::{
    Asked, Lookup, Progress, SourceNames, Status, map_of_code, plain_path, print, read_map_alone,
    refuse_overwriting, shown_name, tell, usage, warn,
};
use sourcemap_run::{
    percent, push_number_member, push_object, push_text_member, sizes_of, starts_of,
};
use sourcemap_texts::{push_shown, stands_by_itself};
use sourcemap_words::{Failure, Outcome, failure_of};
use std::alloc::{AllocError, Global};
use std::cmp::Ordering;
use std::collections::BTreeMap;

/// The separator of the parts of a path.
const SLASHES: [char; 2] = ['/', '\\'];

/// The name of a source that has none.
const UNKNOWN: &str = "<unknown>";

/// The template of the page.
const PAGE: Template = Template {
    variable: "SOURCEMAP_SIZE",
    beside: "../share/sourcemap/size.html",
};

/// What bytes are reported for.
#[derive(Clone, Copy)]
enum Kind {
    Source,
    Folder,
    Package,
    /// Code of no package.
    Own,
    /// Code of no source.
    Unmapped,
}

impl Kind {
    /// The one that `--by` names.
    fn of_word(word: &str) -> Kind {
        match word {
            "folder" => Kind::Folder,
            "package" => Kind::Package,
            _ => Kind::Source,
        }
    }

    fn word(self) -> &'static str {
        match self {
            Kind::Source => "source",
            Kind::Folder => "folder",
            Kind::Package => "package",
            Kind::Own => "own",
            Kind::Unmapped => "unmapped",
        }
    }

    /// Whether what it is has a name.
    fn is_named(self) -> bool {
        !matches!(self, Kind::Own | Kind::Unmapped)
    }
}

/// The bytes of codes.
#[derive(Drop)]
struct Sizes {
    alloc: Global,
    /// What is named: sources, folders or packages.
    kind: Kind,
    /// Their bytes, by their names. Code of no package has an empty name.
    named: BTreeMap<String, u64>,
    /// Of folders, the bytes of sources by the number of `..` that their paths begin with.
    above: BTreeMap<usize, u64>,
    unmapped: u64,
    all: u64,
    codes: u32,
    /// The files that were read, or were to be read.
    files: Vec<String>,
}

/// The name of the package whose files have paths that begin so: up to the first slash, or, in a scope, up to the second one.
fn package_in(path: &str) -> &str {
    let slashes = SLASHES.as_slice();
    let mut end = path.find(slashes).unwrap_or(path.len());
    if path.starts_with('@') {
        let behind = end.saturating_add(1);
        let name = path.get(behind..).unwrap_or("");
        end = behind.saturating_add(name.find(slashes).unwrap_or(name.len()));
    }
    path.get(..end).unwrap_or(path)
}

/// The package of a source, by the last part `node_modules` of its path; empty if there is none.
fn package_of(source: &str) -> &str {
    let mut behind = source.len();
    let mut at = 0usize;
    for part in source.split(SLASHES.as_slice()) {
        at = at.saturating_add(part.len()).saturating_add(1);
        if part == "node_modules" {
            behind = at;
        }
    }
    package_in(source.get(behind..).unwrap_or(""))
}

/// How many `..` a path begins with, and what is behind them.
fn climb(path: &str) -> (usize, &str) {
    let mut rest = path;
    let mut count = 0usize;
    for _ in 0..path.len() {
        match rest.strip_prefix("../") {
            Some(behind) => rest = behind,
            None => break,
        }
        count = count.saturating_add(1);
    }
    (count, rest)
}

/// The folder that is `count` folders above the one that paths begin in.
fn outer_folder(alloc: Global, count: usize) -> Result<String, AllocError> {
    if count == 0 {
        return String::from_str(alloc, "./");
    }
    "../".repeat(alloc, count)
}

/// Whether the front of a path, with a slash at its end, is a folder: where several slashes follow, as behind a scheme, up to the last one.
fn is_folder(front: &str, rest: &str) -> bool {
    !rest.starts_with('/') && !front.ends_with("/./")
}

impl Sizes {
    fn new(alloc: Global, kind: Kind) -> Sizes {
        Sizes {
            alloc,
            kind,
            named: BTreeMap::new(alloc),
            above: BTreeMap::new(alloc),
            unmapped: 0,
            all: 0,
            codes: 0,
            files: Vec::new(alloc),
        }
    }

    fn add_to(&mut self, name: &str, bytes: u64) -> Outcome<()> {
        if let Some(sum) = self.named.get_mut(name) {
            *sum = (*sum).saturating_add(bytes);
            return Ok(());
        }
        let _ = self
            .named
            .insert(String::from_str(self.alloc, name)?, bytes)?;
        Ok(())
    }

    /// Adds the bytes of a source to each folder that its path names behind the first `from` bytes.
    fn add_to_fronts(&mut self, source: &str, from: usize, bytes: u64) -> Outcome<()> {
        for (at, _) in source.match_indices('/') {
            let end = at.saturating_add(1);
            let front = source.get(..end).unwrap_or(source);
            if end > from && is_folder(front, source.get(end..).unwrap_or("")) {
                self.add_to(front, bytes)?;
            }
        }
        Ok(())
    }

    /// Adds the bytes of a source to each folder that it is in, but for those above it that its path does not name (`add_outer`).
    fn add_to_folders(&mut self, source: &str, bytes: u64) -> Outcome<()> {
        if stands_by_itself(source) && source.contains('/') {
            return self.add_to_fronts(source, 0, bytes);
        }
        let (count, rest) = climb(source);
        let sum = self.above.get(&count).copied().unwrap_or(0);
        let _ = self.above.insert(count, sum.saturating_add(bytes))?;
        let from = source.len().saturating_sub(rest.len());
        self.add_to_fronts(source, from, bytes)
    }

    /// The bytes of sources whose paths begin with no more than `count` parts `..`.
    fn bytes_within(&self, count: usize) -> u64 {
        let mut sum = 0u64;
        for (above, bytes) in &self.above {
            if *above <= count {
                sum = sum.saturating_add(*bytes);
            }
        }
        sum
    }

    /// Adds the folders that are these numbers of folders above the one that paths begin in: each has the bytes of all sources below it.
    fn add_outer(&mut self, counts: &[usize]) -> Outcome<()> {
        for count in counts {
            let bytes = self.bytes_within(*count);
            let folder = outer_folder(self.alloc, *count)?;
            self.add_to(folder.as_str(), bytes)?;
        }
        Ok(())
    }

    fn add_source(&mut self, source: &str, bytes: u64) -> Outcome<()> {
        match self.kind {
            Kind::Folder => self.add_to_folders(source, bytes),
            Kind::Package => {
                let package = package_of(source).replace(self.alloc, '\\', "/")?;
                self.add_to(package.as_str(), bytes)
            }
            _kind => self.add_to(source, bytes),
        }
    }

    /// Adds the bytes of a code: how many come from each of its sources, and, behind those, how many from none.
    fn add_code(&mut self, sources: &[String], sizes: &[usize]) -> Outcome<()> {
        for (source, bytes) in sources.iter().zip(sizes.iter()) {
            if *bytes > 0 {
                self.add_source(source.as_str(), *bytes as u64)?;
            }
        }
        let unmapped = sizes.last().copied().unwrap_or(0);
        self.unmapped = self.unmapped.saturating_add(unmapped as u64);
        self.codes = self.codes.saturating_add(1);
        Ok(())
    }

    fn bytes_of(&self, name: &str) -> u64 {
        self.named.get(name).copied().unwrap_or(0)
    }

    /// What a name stands for.
    fn kind_of(&self, name: &str) -> Kind {
        match self.kind {
            Kind::Package if name.is_empty() => Kind::Own,
            kind => kind,
        }
    }
}

/// The numbers of `..` with which paths of either begin, each once.
fn outer_counts(alloc: Global, old: &Sizes, new: &Sizes) -> Result<Vec<usize>, AllocError> {
    let mut counts = Vec::new(alloc);
    for (count, _) in &old.above {
        counts.push(*count)?;
    }
    for (count, _) in &new.above {
        if !old.above.contains_key(count) {
            counts.push(*count)?;
        }
    }
    Ok(counts)
}

/// How many bytes something has in new codes, and had in old ones.
#[derive(Clone, Copy)]
struct Row<'s> {
    kind: Kind,
    name: &'s str,
    old: u64,
    new: u64,
}

/// The greatest change first, and those that are equal by their names.
fn is_before(a: &Row<'_>, b: &Row<'_>) -> Ordering {
    let (first, second) = (a.new.abs_diff(a.old), b.new.abs_diff(b.old));
    second.cmp(&first).then(a.name.cmp(b.name))
}

/// What has another number of bytes in new codes than in old ones.
fn rows_of<'s>(alloc: Global, old: &'s Sizes, new: &'s Sizes) -> Result<Vec<Row<'s>>, AllocError> {
    let mut rows = Vec::new(alloc);
    for (name, bytes) in &new.named {
        rows.push(Row {
            kind: new.kind_of(name.as_str()),
            name: name.as_str(),
            old: old.bytes_of(name.as_str()),
            new: *bytes,
        })?;
    }
    for (name, bytes) in &old.named {
        if new.bytes_of(name.as_str()) == 0 {
            rows.push(Row {
                kind: old.kind_of(name.as_str()),
                name: name.as_str(),
                old: *bytes,
                new: 0,
            })?;
        }
    }
    rows.push(Row {
        kind: Kind::Unmapped,
        name: "",
        old: old.unmapped,
        new: new.unmapped,
    })?;
    rows.retain(|row| row.old != row.new);
    rows.sort_by(is_before)?;
    Ok(rows)
}

/// The sign of a change, and how great it is.
fn change_of(old: u64, new: u64) -> (&'static str, u64) {
    let sign = match new.cmp(&old) {
        Ordering::Less => "-",
        Ordering::Equal => "",
        Ordering::Greater => "+",
    };
    (sign, new.abs_diff(old))
}

/// Appends how many bytes there are, and how many percent, rounded down to a tenth.
fn push_bytes(alloc: Global, bytes: u64, all: u64, out: &mut String) -> Result<(), AllocError> {
    let tenths = percent(bytes.saturating_mul(10), all).unwrap_or(0);
    let (whole, tenth) = (tenths / 10, tenths % 10);
    out.push_str(format!(in alloc; "{bytes:>10}  {whole:>3}.{tenth} %  ")?.as_str())?;
    Ok(())
}

/// Appends how many bytes more or less there are, and how many there were and are.
fn push_change(alloc: Global, old: u64, new: u64, out: &mut String) -> Result<(), AllocError> {
    let (sign, change) = change_of(old, new);
    let change = format!(in alloc; "{sign}{change}")?;
    let change = change.as_str();
    out.push_str(format!(in alloc; "{change:>10}  {old:>10} to {new:>10}  ")?.as_str())?;
    Ok(())
}

/// Appends what a row is of.
fn push_name(row: &Row<'_>, out: &mut String) -> Outcome<()> {
    if row.kind.is_named() {
        push_shown(row.name, out)?;
    } else {
        out.push('[')?;
        out.push_str(row.kind.word())?;
        out.push(']')?;
    }
    Ok(out.push('\n')?)
}

/// The table: of a difference, or of the new codes alone.
fn table(old: Option<&Sizes>, new: &Sizes, rows: &[Row<'_>]) -> Outcome<String> {
    let alloc = new.alloc;
    let mut out = String::new(alloc);
    for row in rows {
        match old {
            Some(_) => push_change(alloc, row.old, row.new, &mut out)?,
            None => push_bytes(alloc, row.new, new.all, &mut out)?,
        }
        push_name(row, &mut out)?;
    }
    match old {
        Some(old) => push_change(alloc, old.all, new.all, &mut out)?,
        None => push_bytes(alloc, new.all, new.all, &mut out)?,
    }
    out.push_str("total\n")?;
    Ok(out)
}

/// Appends the members of a row of a difference.
fn push_change_members(alloc: Global, row: &Row<'_>, members: &mut String) -> Outcome<()> {
    push_number_member(alloc, "old", row.old, members)?;
    push_number_member(alloc, "new", row.new, members)?;
    let (sign, change) = change_of(row.old, row.new);
    let sign = if sign == "-" { sign } else { "" };
    members.push_str(format!(in alloc; ",\"change\":{sign}{change}")?.as_str())?;
    Ok(())
}

/// The object of a row: of a difference, or of the new codes alone, which have this number of bytes.
fn push_row_object(
    alloc: Global,
    row: &Row<'_>,
    all: Option<u64>,
    out: &mut String,
) -> Outcome<()> {
    let mut members = String::new(alloc);
    push_text_member("kind", row.kind.word(), &mut members)?;
    if row.kind.is_named() {
        push_text_member("name", row.name, &mut members)?;
    }
    match all {
        Some(all) => {
            push_number_member(alloc, "bytes", row.new, &mut members)?;
            push_number_member(alloc, "of", all, &mut members)?;
        }
        None => push_change_members(alloc, row, &mut members)?,
    }
    push_object(members.as_str(), out)?;
    Ok(out.push('\n')?)
}

fn objects(old: Option<&Sizes>, new: &Sizes, rows: &[Row<'_>]) -> Outcome<String> {
    let all = if old.is_some() { None } else { Some(new.all) };
    let mut out = String::new(new.alloc);
    for row in rows {
        push_row_object(new.alloc, row, all, &mut out)?;
    }
    Ok(out)
}

/// Prints rows.
fn print_rows(
    asked: &Asked<'_, '_>,
    old: Option<&Sizes>,
    new: &Sizes,
    rows: &[Row<'_>],
) -> Outcome<()> {
    let text = if asked.has("json") {
        objects(old, new, rows)?
    } else {
        table(old, new, rows)?
    };
    print(asked.rt, text.as_str())
}

/// The names of the sources of a map in a folder: their paths from the current folder, or, without that, as the map has them.
fn names_of(
    alloc: Global,
    map: &SourceMap<'_>,
    folder: &str,
    shown: Option<&SourceNames>,
) -> Outcome<Vec<String>> {
    let mut names = Vec::new(alloc);
    for source in map.get_sources() {
        names.push(match shown {
            _shown if source.is_empty() => String::from_str(alloc, UNKNOWN)?,
            Some(shown) => shown.name(folder, source)?,
            None => plain_path(alloc, "", source)?,
        })?;
    }
    Ok(names)
}

/// Adds the bytes of a code. If it has no map, adds nothing and returns why.
fn add_file(
    asked: &Asked<'_, '_>,
    code: &str,
    shown: Option<&SourceNames>,
    sizes: &mut Sizes,
) -> Outcome<Option<String>> {
    let (rt, alloc) = (asked.rt, asked.alloc());
    sizes.files.push(String::from_str(alloc, code)?)?;
    let text = read_code(rt, code, "name its code")?;
    let held = match map_of_code(rt, code, text.as_str(), asked.places())? {
        Lookup::Map(held) => held,
        Lookup::None(why) => return Ok(Some(why)),
    };
    sizes
        .files
        .push(String::from_str(alloc, held.name.as_str())?)?;
    let mut map = SourceMap::from_parts(read_map_alone(rt, &held)?);
    map.apply_source_root(alloc)?;
    let names = names_of(alloc, &map, held.folder.as_str(), shown)?;
    let tokens = map.get_tokens();
    let body = text
        .as_str()
        .strip_prefix('\u{feff}')
        .unwrap_or(text.as_str());
    let starts = starts_of(alloc, body, tokens.as_slice(), u32::MAX)?;
    let mut bytes = sizes_of(alloc, body.len(), names.len(), starts.as_slice())?;
    if let Some(unmapped) = bytes.last_mut() {
        *unmapped = unmapped.saturating_add(text.len().saturating_sub(body.len()));
    }
    let mut len = text.len();
    if asked.has("gzip") {
        len = gzip_len(asked, code, text.as_str())?;
        divide(bytes.as_mut_slice(), len);
    }
    sizes.add_code(names.as_slice(), bytes.as_slice())?;
    sizes.all = sizes.all.saturating_add(len as u64);
    Ok(None)
}

/// Adds the bytes of codes. Reports what is wrong with a code or its map, and returns the last one with which something is wrong.
fn add_files<'c>(
    asked: &Asked<'_, '_>,
    codes: &[&'c str],
    sizes: &mut Sizes,
) -> Outcome<Option<&'c str>> {
    let rt = asked.rt;
    let shown = SourceNames::from_here(rt)?;
    let mut progress = Progress::new(rt, codes.len());
    let mut trouble = None;
    for code in codes {
        progress.begin(rt, code);
        let added = add_file(asked, code, Some(&shown), sizes);
        progress.clear(rt);
        match added {
            Ok(None) => {}
            Ok(Some(why)) => warn(rt, "left out", why.as_str()),
            Err(Failure::Told(text)) => {
                tell(rt, text.as_str());
                trouble = Some(*code);
            }
            Err(failure) => return Err(failure),
        }
    }
    Ok(trouble)
}

/// The data of a page, which may be of gzip files.
fn data_of(sizes: &Sizes, rows: &[Row<'_>], is_gzip: bool) -> Outcome<String> {
    let mut members = String::new(sizes.alloc);
    push_text_member("by", sizes.kind.word(), &mut members)?;
    push_number_member(sizes.alloc, "bytes", sizes.all, &mut members)?;
    if is_gzip {
        members.push_str(",\"gzip\":true")?;
    }
    members.push_str(",\"sizes\":")?;
    push_list(objects(None, sizes, rows)?.as_str(), &mut members)?;
    let mut data = String::new(sizes.alloc);
    push_object(members.as_str(), &mut data)?;
    Ok(data)
}

/// Refuses to write the page over a file that was read.
fn check_output(asked: &Asked<'_, '_>, output: &str, files: &[String]) -> Outcome<()> {
    for file in files {
        if output != "-" {
            refuse_overwriting(asked, file.as_str(), output)?;
        }
    }
    Ok(())
}

/// Prints what bytes come from, or writes the page of it, where `--json` prints it too.
fn show(asked: &Asked<'_, '_>, sizes: &Sizes, rows: &[Row<'_>]) -> Outcome<()> {
    if let Some(output) = asked.matches.get_str("output") {
        check_output(asked, output, sizes.files.as_slice())?;
        let _ = PAGE.write(asked, data_of(sizes, rows, asked.has("gzip"))?.as_str())?;
        if !asked.has("json") {
            return Ok(());
        }
    }
    print_rows(asked, None, sizes, rows)
}

/// Reports what bytes come from.
fn run_sizes(asked: &Asked<'_, '_>, codes: &[&str], kind: Kind) -> Outcome<Status> {
    let alloc = asked.alloc();
    let (none, mut sizes) = (Sizes::new(alloc, kind), Sizes::new(alloc, kind));
    let trouble = add_files(asked, codes, &mut sizes)?;
    if sizes.codes > 0 {
        let counts = outer_counts(alloc, &none, &sizes)?;
        sizes.add_outer(counts.as_slice())?;
        let rows = rows_of(alloc, &none, &sizes)?;
        show(asked, &sizes, rows.as_slice())?;
    }
    match trouble {
        Some(code) => Err(failure_of(alloc, shown_name(code), "was not counted, see above")),
        None => Ok(Status::of(sizes.codes > 0)),
    }
}

/// The bytes of a code that has to have a map.
fn sizes_of_build(asked: &Asked<'_, '_>, code: &str, kind: Kind) -> Outcome<Sizes> {
    let mut sizes = Sizes::new(asked.alloc(), kind);
    match add_file(asked, code, None, &mut sizes)? {
        None => Ok(sizes),
        Some(why) => Err(failure_of(asked.alloc(), shown_name(code), why.as_str())),
    }
}

/// Reports what has another number of bytes in a code than in another one.
fn run_diff(asked: &Asked<'_, '_>, codes: &[&str], kind: Kind) -> Outcome<Status> {
    let (Some(old), Some(new), None) = (codes.first(), codes.get(1), codes.get(2)) else {
        return Err(usage(
            asked.rt,
            "--diff compares two codes: name the old one and the new one",
        ));
    };
    let mut old = sizes_of_build(asked, old, kind)?;
    let mut new = sizes_of_build(asked, new, kind)?;
    let counts = outer_counts(asked.alloc(), &old, &new)?;
    old.add_outer(counts.as_slice())?;
    new.add_outer(counts.as_slice())?;
    let rows = rows_of(asked.alloc(), &old, &new)?;
    print_rows(asked, Some(&old), &new, rows.as_slice())?;
    Ok(Status::of(rows.is_empty()))
}

/// Refuses words that are wrong together.
fn check_words(asked: &Asked<'_, '_>) -> Outcome<()> {
    let has_page = asked.matches.get_str("output").is_some();
    if has_page && asked.has("diff") {
        return Err(usage(asked.rt, "--diff has no page: leave out -o"));
    }
    if !has_page && asked.matches.get_str("template").is_some() {
        return Err(usage(
            asked.rt,
            "the template is that of a page: name the page by -o",
        ));
    }
    refuse_two_texts(asked)
}

/// Runs the command `size`.
pub fn run(asked: &Asked<'_, '_>) -> Outcome<Status> {
    check_words(asked)?;
    let codes = asked.words("CODE")?;
    let kind = Kind::of_word(asked.word("by"));
    if asked.has("diff") {
        run_diff(asked, codes.as_slice(), kind)
    } else {
        run_sizes(asked, codes.as_slice(), kind)
    }
}
