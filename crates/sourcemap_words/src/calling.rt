//! The names of functions in frames, and the rows that frames are in.
use crate::views::{Row, View, is_whole};

/// The words that begin names of two words in Firefox and Safari, as `get x` and `global code`.
const NAMES_OF_TWO: [&str; 5] = ["get", "set", "global", "module", "eval"];
/// The words that begin causes of two words in Firefox, as `promise callback`.
const CAUSES_OF_TWO: [&str; 3] = ["promise", "setTimeout", "setInterval"];

/// How a frame names its function and its place.
#[derive(Clone, Copy)]
pub enum FrameForm {
    /// `at NAME (PLACE)`, without a name `at PLACE`.
    Call,
    /// `NAME@PLACE`, without a name `@PLACE`, or in Safari `PLACE`.
    AtSign,
    /// `❯ NAME PLACE`, without a name `❯ PLACE`.
    Arrow,
}

/// How a frame names its function. Numbers are of bytes of its line.
#[derive(Clone, Copy)]
pub struct Calling {
    pub form: FrameForm,
    /// Where the frame's text before the name begins: `async`, `new`, or the cause of the call.
    pub lead: usize,
    /// Where the name begins and ends; where it would be, if the frame has no name.
    pub start: usize,
    pub end: usize,
    /// Where the frame ends, with the bracket behind its place.
    pub close: usize,
    /// The text in place of the name of a function without one.
    pub unnamed: &'static str,
    /// The row that the frame is in, if it is the only one there.
    pub row: Option<Row>,
}

/// A name in the text that is in front of a place: where what belongs to it begins, where it begins, and the name.
#[derive(Clone, Copy)]
struct Name<'t> {
    form: FrameForm,
    lead: usize,
    start: usize,
    text: &'t str,
    unnamed: &'static str,
}

impl<'t> Name<'t> {
    /// A name, with what it and all behind it are in the text that is in front of a place.
    fn new(form: FrameForm, front: &str, rest: &str, text: &'t str) -> Name<'t> {
        let start = front.len().saturating_sub(rest.len());
        Name {
            form,
            lead: start,
            start,
            text,
            unnamed: "",
        }
    }
}

/// What is behind the last word `at` of a text.
fn behind_at(text: &str) -> Option<&str> {
    if let Some((_, rest)) = text.rsplit_once(" at ") {
        return Some(rest);
    }
    if let Some((_, rest)) = text.rsplit_once("\tat ") {
        return Some(rest);
    }
    text.strip_prefix("at ")
}

/// A text without the bracket in front of a place at its end.
fn without_bracket(front: &str) -> Option<&str> {
    match front.strip_suffix("(address at ") {
        Some(head) => Some(head),
        None => front.strip_suffix('('),
    }
}

/// The name in front of a bracket, as in `at async f (` and `at new f (`, or none, as in `at async `.
fn name_of_call(front: &str) -> Option<Name<'_>> {
    let bracket = without_bracket(front);
    let head = bracket.unwrap_or(front);
    let all = behind_at(head)?;
    let rest = all.strip_prefix("async ").unwrap_or(all);
    let (rest, unnamed) = match rest.strip_prefix("new ") {
        Some(rest) => (rest, "<anonymous>"),
        None => (rest, ""),
    };
    let text = rest.trim_end();
    if text.is_empty() == bracket.is_some() {
        return None;
    }
    Some(Name {
        lead: head.len().saturating_sub(all.len()),
        unnamed,
        ..Name::new(FrameForm::Call, head, rest, text)
    })
}

/// The last word of a text, or the last two, if the last but one is one of these.
fn last_word<'t>(text: &'t str, firsts: &[&str]) -> &'t str {
    let ends = [' ', '\t', '*'];
    let word = text.rsplit(ends.as_slice()).next().unwrap_or("");
    let before = text.strip_suffix(word).unwrap_or("");
    let before = before.strip_suffix(' ').unwrap_or("");
    let first = before.rsplit(ends.as_slice()).next().unwrap_or("");
    if !firsts.iter().any(|it| *it == first) {
        return word;
    }
    let start = before.len().saturating_sub(first.len());
    text.get(start..).unwrap_or(word)
}

/// The name in front of `@`. The cause of the call is in front of it, with a star.
fn name_of_at_sign(head: &str) -> Name<'_> {
    let text = last_word(head, &NAMES_OF_TWO);
    let name = Name::new(FrameForm::AtSign, head, text, text);
    let before = head.strip_suffix(text).unwrap_or("");
    let Some(cause) = before.strip_suffix('*') else {
        return name;
    };
    let cause = last_word(cause, &CAUSES_OF_TWO);
    Name {
        lead: name.start.saturating_sub(cause.len()).saturating_sub(1),
        ..name
    }
}

/// The name in the text that is in front of a place.
fn name_in(front: &str) -> Option<Name<'_>> {
    if front.contains("(eval at ") {
        return None;
    }
    if front.trim().is_empty() {
        return Some(Name::new(FrameForm::AtSign, front, "", ""));
    }
    if let Some(head) = front.strip_suffix('@') {
        return Some(name_of_at_sign(head));
    }
    if let Some((_, rest)) = front.rsplit_once("❯ ") {
        return Some(Name::new(FrameForm::Arrow, front, rest, rest.trim_end()));
    }
    name_of_call(front)
}

/// How a frame names its function. In the text of a view `front` is in front of its place, from byte `from` on, and the place ends at byte
/// `end`. If the frame is alone in its row, that is `row`.
pub fn calling_of(
    view: &View,
    (from, front): (usize, &str),
    end: usize,
    row: Option<(usize, usize)>,
) -> Option<Calling> {
    let name = name_in(front)?;
    if !is_whole(name.text) {
        return None; // (what is taken for a name goes over the end of a string or of a row of an unknown one)
    }
    let lead = from.saturating_add(name.lead);
    let start = from.saturating_add(name.start);
    let (name_start, name_end) = view.place(start, start.saturating_add(name.text.len()));
    let is_call = matches!(name.form, FrameForm::Call) && !name.text.is_empty();
    let is_closed = is_call && view.text.as_str().get(end..)?.starts_with(')');
    let close = if is_closed {
        end
    } else {
        end.saturating_sub(1)
    };
    Some(Calling {
        form: name.form,
        lead: view.place(lead, start).0,
        start: name_start,
        end: if name.text.is_empty() {
            name_start
        } else {
            name_end
        },
        close: view.behind(close),
        unnamed: name.unnamed,
        row: row.map(|(first, last)| view.row(first, last)),
    })
}
