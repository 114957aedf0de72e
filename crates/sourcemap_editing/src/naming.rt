//! Names of sources in one message: the first ones, and how many more there are.
use sourcemap_files::warn;
use sourcemap_texts::push_shown;
use sourcemap_words::Outcome;
use std::alloc::Global;

/// How many sources are named.
const FEW: usize = 8;

/// Sources that are named together.
#[derive(Drop)]
pub struct Names {
    alloc: Global,
    pub count: usize,
    text: String,
}

impl Names {
    pub fn new(alloc: Global) -> Names {
        Names {
            alloc,
            count: 0,
            text: String::new(alloc),
        }
    }

    /// Adds a source, with its file, if that is given.
    pub fn push(&mut self, source: &str, file: &str) -> Outcome<()> {
        self.count = self.count.saturating_add(1);
        if self.count > FEW {
            return Ok(());
        }
        self.text
            .push_str(if self.count == 1 { ": " } else { ", " })?;
        if source.is_empty() {
            self.text.push_str("\"\"")?;
        }
        push_shown(source, &mut self.text)?;
        if !file.is_empty() {
            self.text.push_str(" as ")?;
            push_shown(file, &mut self.text)?;
        }
        Ok(())
    }

    /// Reports them behind the message `what`, if there are any.
    pub fn tell(&self, rt: &HostRuntime, subject: &str, what: &str) -> Outcome<()> {
        if self.count == 0 {
            return Ok(());
        }
        let text = self.text.as_str();
        let more = self.count.saturating_sub(FEW);
        let message = if more == 0 {
            format!(in self.alloc; "{what}{text}")?
        } else {
            format!(in self.alloc; "{what}{text} and {more} more")?
        };
        warn(rt, subject, message.as_str());
        Ok(())
    }
}
