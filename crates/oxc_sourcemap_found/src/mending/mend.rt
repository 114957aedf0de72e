//! What was mended in a map that was found.
ghost use Rattle.std.specs.Prelude.{◌≡◌, ◌++◌, codes, Some};
ghost use Rattle.std.specs.Fmt.{WritesOnOk, decimal};
ghost use Rattle.oxc_sourcemap_found.specs.Words.{kind_text, mend_text};

use std::fmt;

/// One thing that was mended in a map that was found: what, and in which section if the map is an indexed map. `Display` writes it
/// as one line.
///
/// ```rust
/// use oxc_sourcemap::{Mend, MendKind};
///
/// let mend = Mend { section: Some(2), kind: MendKind::NullSource(0) };
/// assert_eq!(rt; format!(in alloc; "{mend}")?.as_str(), "section 2: source 0 is null, and is read as an empty text");
/// ```
#[derive(Clone, Copy, Debug, PartialEq, Eq)]
pub struct Mend {
    /// The index of the section, None for a map by itself and for what is outside of sections.
    pub section: Option<usize>,
    /// What was mended.
    pub kind: MendKind,
}

/// What was mended (docs/FORMAT.md, "Maps as they are found"). Entries of lists count from 0.
#[derive(Clone, Copy, Debug, PartialEq, Eq)]
pub enum MendKind {
    /// The text begins with a byte order mark (U+FEFF), which is passed over.
    ByteOrderMark,
    /// The first line begins with `)]}'`, and is passed over.
    JsonPrefix,
    /// The text is a data URL of JSON, and the text in it is read.
    DataUrl,
    /// `version` is the number 3.0 or the text `3`, and is read as 3.
    Version,
    /// `sources` is missing, and is read as an empty list.
    NoSources,
    /// This source is null, and is read as an empty text.
    NullSource(usize),
    /// `sourcesContent` is no list, and is read as missing.
    NoContents,
    /// This entry of `sourcesContent` is neither a text nor null, and is read as null.
    BadContent(usize),
    /// `names` is null, and is read as missing.
    NullNames,
    /// `ignoreList` is no list, and is read as missing.
    NoIgnoreList,
    /// This entry of `ignoreList` is not the id of a source, and is left out.
    BadIgnoredId(usize),
    /// `x_google_ignoreList` is no list, and is read as missing.
    NoGoogleIgnoreList,
    /// This entry of `x_google_ignoreList` is not the id of a source, and is left out.
    BadGoogleIgnoredId(usize),
    /// So many tokens have a source id that is not below the number of sources, and are read as unmapped.
    SourceIds(usize),
    /// So many tokens have a name id that is not below the number of names, and are read without a name.
    NameIds(usize),
    /// The tokens of the map, sections joined, are not in order of generated line and column, and are sorted. Told last.
    Unsorted,
    /// So many tokens of the section, the last one listed among them, are behind the beginning of the next one, and are left out.
    Cut(usize),
}

/// Writes that a member is no list.
fn write_no_list<W: fmt::Write>(member: &str, f: &mut fmt::Formatter<W>) -> fmt::Result
    ensures { WritesOnOk W.write_str_gives f.old result
        (member.now ++ codes " is no list, and is read as missing") f.new }
{
    write!(f, "{member} is no list, and is read as missing")
}

/// Writes that an entry of a list is not the id of a source.
fn write_bad_id<W: fmt::Write>(k: usize, list: &str, f: &mut fmt::Formatter<W>) -> fmt::Result
    ensures { WritesOnOk W.write_str_gives f.old result
        (codes "entry " ++ decimal k
        ++ (codes " of " ++ list.now ++ codes " is no id of a source, and is left out")) f.new }
{
    write!(
        f,
        "entry {k} of {list} is no id of a source, and is left out"
    )
}

/// Writes how many tokens have an id out of range, and how they are read.
fn write_out_of_range<W: fmt::Write>(
    id: &str,
    read: &str,
    count: usize,
    f: &mut fmt::Formatter<W>,
) -> fmt::Result
    ensures { WritesOnOk W.write_str_gives f.old result
        (codes "tokens with a " ++ id.now ++ codes " id out of range, which are read "
        ++ read.now ++ codes ": " ++ decimal count) f.new }
{
    write!(
        f,
        "tokens with a {id} id out of range, which are read {read}: {count}"
    )
}

impl fmt::Display for MendKind {
    ghost output = { λ kind. Some (kind_text kind) };

    fn fmt<W: fmt::Write>(&self, f: &mut fmt::Formatter<W>) -> fmt::Result {
        match self {
            MendKind::ByteOrderMark => { write!(f, "the byte order mark in front is passed over") }
            MendKind::JsonPrefix => {
                write!(f, "the first line, which begins with )]}}', is passed over")
            }
            MendKind::DataUrl => { write!(f, "the text is a data URL, and the text in it is read") }
            MendKind::Version => write!(f, "version is 3.0 or the text 3, and is read as 3"),
            MendKind::NoSources => write!(f, "sources is missing, and is read as an empty list"),
            MendKind::NullSource(k) => {
                write!(f, "source {k} is null, and is read as an empty text")
            }
            MendKind::NoContents => write_no_list("sourcesContent", f),
            MendKind::BadContent(k) => {
                write!(
                    f,
                    "content {k} is neither a text nor null, and is read as null"
                )
            }
            MendKind::NullNames => write!(f, "names is null, and is read as missing"),
            MendKind::NoIgnoreList => write_no_list("ignoreList", f),
            MendKind::BadIgnoredId(k) => write_bad_id(*k, "ignoreList", f),
            MendKind::NoGoogleIgnoreList => write_no_list("x_google_ignoreList", f),
            MendKind::BadGoogleIgnoredId(k) => write_bad_id(*k, "x_google_ignoreList", f),
            MendKind::SourceIds(count) => write_out_of_range("source", "as unmapped", *count, f),
            MendKind::NameIds(count) => write_out_of_range("name", "without a name", *count, f),
            MendKind::Unsorted => write!(f, "the tokens are not in order, and are sorted"),
            MendKind::Cut(count) => {
                write!(
                    f,
                    "tokens behind the beginning of the next section, which are left out: {count}"
                )
            }
        }
    }
}

impl fmt::Display for Mend {
    ghost output = { λ mend. Some (mend_text mend) };

    fn fmt<W: fmt::Write>(&self, f: &mut fmt::Formatter<W>) -> fmt::Result {
        let kind = &self.kind;
        match self.section {
            Some(section) => write!(f, "section {section}: {kind}"),
            None => write!(f, "{kind}"),
        }
    }
}
