//! The progress of a long run, on a terminal's standard error.
use sourcemap_texts::push_visible;
use std::io::IsTerminal;

/// A run over at most this number of files shows no progress.
const FEW: usize = 8;

/// The progress of a run over several files.
#[derive(Clone, Copy)]
pub struct Progress {
    total: usize,
    begun: usize,
    is_shown: bool,
}

impl Progress {
    pub fn new(rt: &HostRuntime, total: usize) -> Progress {
        Progress {
            total,
            begun: 0,
            is_shown: total > FEW && rt.stderr().is_terminal(),
        }
    }

    /// Shows that a file is begun.
    pub fn begin(&mut self, rt: &HostRuntime, file: &str) {
        self.begun = self.begun.saturating_add(1);
        let mut visible = String::new(rt.alloc());
        if self.is_shown && push_visible(file, &mut visible).is_ok() {
            let (begun, total) = (self.begun, self.total);
            let _ = eprint!(rt; "\r\u{1b}[K{begun} of {total}: {visible}");
        }
    }

    /// Clears the line for other output.
    pub fn clear(&self, rt: &HostRuntime) {
        if self.is_shown {
            let _ = eprint!(rt; "\r\u{1b}[K");
        }
    }
}
