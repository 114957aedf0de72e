//! The report of `check` on one file: its findings, each with its level and its code.
use crate::codes::{Code, Level};
use sourcemap_run::{push_object, push_text_member};
use sourcemap_texts::push_visible;
use sourcemap_words::Outcome;
use std::alloc::{AllocError, Global};

/// The report on one file, as it is printed.
#[derive(Drop)]
pub struct Report {
    pub alloc: Global,
    pub file: String,
    pub json: bool,
    pub out: String,
    /// The least level of a finding at which something is wrong.
    pub least: Level,
    pub is_wrong: bool,
}

impl Report {
    /// Tells of a finding.
    pub fn tell(&mut self, code: Code, text: &str) -> Outcome<()> {
        let Code(_, level) = code;
        self.is_wrong |= level.is_from(self.least);
        if self.json {
            self.push_object(Some(code), text)
        } else {
            self.push_finding(code, text)
        }
    }

    /// Tells what the map has.
    pub fn tell_summary(&mut self, text: &str) -> Outcome<()> {
        if self.json {
            self.push_object(None, text)
        } else {
            let line = format!(in self.alloc; "{}: {text}", self.file)?;
            self.push_line(line.as_str())
        }
    }

    /// Appends a line: the file, the level of a finding, the text, and the code in brackets.
    fn push_finding(&mut self, code: Code, text: &str) -> Outcome<()> {
        let (file, Code(code, level)) = (&self.file, code);
        let level = level.name();
        let line = format!(in self.alloc; "{file}: {level}: {text} [{code}]")?;
        self.push_line(line.as_str())
    }

    fn push_line(&mut self, line: &str) -> Outcome<()> {
        push_visible(line, &mut self.out)?;
        Ok(self.out.push('\n')?)
    }

    /// Appends a line with an object, of a finding with its code.
    fn push_object(&mut self, code: Option<Code>, text: &str) -> Outcome<()> {
        let kind = match code {
            Some(Code(_, level)) => level.kind(),
            None => "summary",
        };
        let mut members = String::new(self.alloc);
        push_text_member("file", self.file.as_str(), &mut members)?;
        push_text_member("kind", kind, &mut members)?;
        push_text_member("text", text, &mut members)?;
        if let Some(Code(name, level)) = code {
            push_text_member("code", name, &mut members)?;
            push_text_member("level", level.name(), &mut members)?;
        }
        push_object(members.as_str(), &mut self.out)?;
        Ok(self.out.push('\n')?)
    }
}

/// A number of things, as `1 line` and `2 lines`.
pub fn count_of(alloc: Global, count: u64, what: &str) -> Result<String, AllocError> {
    let end = if count == 1 { "" } else { "s" };
    format!(in alloc; "{count} {what}{end}")
}
