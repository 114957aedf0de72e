//! What kinds of findings `check` has: a code for each, by which programs tell them apart, and how much it matters. The help of `check`
//! lists them.
use oxc_sourcemap_found::{Mend, MendKind};
use oxc_sourcemap_scopes::ScopesError;
use oxc_sourcemap_tokens::{Error, JsonFault};

/// How much a finding matters.
#[derive(Clone, Copy, PartialEq, Eq)]
pub enum Level {
    /// It is told, and nothing is wrong.
    Note,
    /// Something was mended, and lookups are right.
    Warning,
    /// The map is wrong, or a lookup may be.
    Error,
}

impl Level {
    /// The level of this name; Warning of any other word.
    pub fn of_name(name: &str) -> Level {
        match name {
            "error" => Level::Error,
            "note" => Level::Note,
            _ => Level::Warning,
        }
    }

    /// Its name, as `--level` and `--json` have it.
    pub fn name(self) -> &'static str {
        match self {
            Level::Note => "note",
            Level::Warning => "warning",
            Level::Error => "error",
        }
    }

    /// What a finding of this level is called, as `kind` in `--json`: a note, or something wrong.
    pub fn kind(self) -> &'static str {
        match self {
            Level::Note => "note",
            Level::Warning | Level::Error => "wrong",
        }
    }

    /// Whether it is this level or one above it.
    pub fn is_from(self, least: Level) -> bool {
        match least {
            Level::Note => true,
            Level::Warning => self != Level::Note,
            Level::Error => self == Level::Error,
        }
    }
}

/// A kind of finding: its word, which stays the same in later versions, and its level.
#[derive(Clone, Copy)]
pub struct Code(pub &'static str, pub Level);

pub const BAD_COMPILED: Code = Code("bad-compiled", Level::Error);

pub const DEBUG_IDS: Code = Code("debug-id-mismatch", Level::Error);

pub const DIFFERENT_COMPILED: Code = Code("different-compiled", Level::Error);

pub const CONTENT_DIFFERS: Code = Code("content-differs", Level::Note);

pub const INSIDE_WORDS: Code = Code("inside-words", Level::Warning);

pub const MISSING_CONTENT: Code = Code("missing-content", Level::Note);

pub const NAME_DIFFERS: Code = Code("name-differs", Level::Note);

pub const SHIFTED: Code = Code("shifted", Level::Warning);

pub const NO_MAP: Code = Code("no-map", Level::Error);

pub const PAST_CODE: Code = Code("past-code", Level::Error);

pub const PAST_CONTENT: Code = Code("past-content", Level::Error);

pub const SCOPES_SOURCE: Code = Code("scopes-source-out-of-range", Level::Error);

pub const STALE_BESIDE: Code = Code("stale-beside", Level::Note);

pub const STALE_COMPILED: Code = Code("stale-compiled", Level::Error);

pub const UNCOMPARED: Code = Code("uncompared", Level::Note);

pub const UNNEEDED: Code = Code("unneeded", Level::Note);

pub const UNREADABLE: Code = Code("unreadable", Level::Error);

pub const UNREADABLE_BESIDE: Code = Code("unreadable-beside", Level::Note);

pub const UNSORTED: Code = Code("unsorted", Level::Error);

const NAME_ID: Code = Code("name-out-of-range", Level::Error);

const SOURCE_ID: Code = Code("source-out-of-range", Level::Error);

/// The code of what the exact reader refuses.
pub fn code_of_error(error: Error) -> Code {
    match error {
        Error::BadJson(JsonFault::Reading) => Code("no-json", Level::Error),
        Error::BadJson(JsonFault::Shape(_)) => Code("bad-member", Level::Error),
        Error::BadJson(JsonFault::Version(_)) => Code("wrong-version", Level::Error),
        Error::VlqLeftover | Error::VlqNoValues | Error::VlqOverflow | Error::BadSegmentSize(_) =>
            Code("bad-segment", Level::Error),
        Error::BadSourceReference(_) => SOURCE_ID,
        Error::BadNameReference(_) => NAME_ID,
        Error::SectionOrder(_) => Code("section-order", Level::Error),
        Error::TooLarge => Code("too-large", Level::Error),
        _ => UNREADABLE,
    }
}

/// The code of what the tolerant reader mends. Where it gives up tokens or what they point to, or puts them in order, the map is wrong.
pub fn code_of_mend(kind: MendKind) -> Code {
    let name = match kind {
        MendKind::SourceIds(_) => return SOURCE_ID,
        MendKind::NameIds(_) => return NAME_ID,
        MendKind::Unsorted => return UNSORTED,
        MendKind::Cut(_) => return Code("cut-section", Level::Error),
        MendKind::ByteOrderMark => "byte-order-mark",
        MendKind::JsonPrefix => "json-prefix",
        MendKind::DataUrl => "data-url",
        MendKind::Version => "version-form",
        MendKind::NoSources => "no-sources",
        MendKind::NullSource(_) => "null-source",
        MendKind::NoContents => "bad-contents",
        MendKind::BadContent(_) => "bad-content",
        MendKind::NullNames => "null-names",
        MendKind::NoIgnoreList | MendKind::NoGoogleIgnoreList => "bad-ignore-list",
        MendKind::BadIgnoredId(_) | MendKind::BadGoogleIgnoredId(_) => "bad-ignored-id",
    };
    Code(name, Level::Warning)
}

/// The code of what the exact reader refuses; of an id in an ignore list, that of its mend.
pub fn code_of_refused(error: Error, mends: &[Mend]) -> Code {
    let has_bad_id = mends
        .iter()
        .any(|mend| matches!(mend.kind, MendKind::SourceIds(_)));
    let ignored = mends.iter().find(|mend| {
        matches!(
            mend.kind,
            MendKind::BadIgnoredId(_) | MendKind::BadGoogleIgnoredId(_)
        )
    });
    match (error, ignored) {
        (Error::BadSourceReference(_), Some(mend)) if !has_bad_id => code_of_mend(mend.kind),
        _ => code_of_error(error),
    }
}

/// The code of why scopes are not read.
pub fn code_of_scopes(error: ScopesError) -> Code {
    match error {
        ScopesError::Indexed => Code("unread-scopes", Level::Note),
        _ => Code("bad-scopes", Level::Error),
    }
}
