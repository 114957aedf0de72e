//! How many frames of an input are resolved, and why the others are not.
use crate::maps::{REASONS, Reason};
use sourcemap_files::{Asked, warn};
use sourcemap_words::Outcome;

/// How many frames were seen, how many were resolved, how many of those were left out, and why the others stayed.
#[derive(Clone, Copy)]
pub struct Count {
    frames: u64,
    pub resolved: u64,
    left_out: u64,
    stayed: [u64; REASONS.len()],
}

/// The text for frames that stay for a reason, for one and for several.
fn short(reason: Reason) -> (&'static str, &'static str) {
    match reason {
        Reason::NotThere => (
            "names a file that is not here: see --root and --prefix",
            "name files that are not here: see --root and --prefix",
        ),
        Reason::NoMap => (
            "has no map that can be read: see --maps",
            "have no map that can be read: see --maps",
        ),
        Reason::PastEnd => (
            "is past the end of a code, which is of another build",
            "are past the end of a code, which is of another build",
        ),
        Reason::NotMapped => (
            "is at a position without an original",
            "are at positions without an original",
        ),
        Reason::Elsewhere => ("is the engine's own", "are the engine's own"),
    }
}

/// A number of frames, with their verb.
fn are(count: u64) -> &'static str {
    if count == 1 { "frame is" } else { "frames are" }
}

impl Count {
    pub const NONE: Count = Count {
        frames: 0,
        resolved: 0,
        left_out: 0,
        stayed: [0; REASONS.len()],
    };

    /// Counts a frame that is resolved.
    pub fn resolve(&mut self) {
        self.frames = self.frames.saturating_add(1);
        self.resolved = self.resolved.saturating_add(1);
    }

    /// Counts a frame that the source does not have, whose row is left out.
    pub fn leave_out(&mut self) {
        self.resolve();
        self.left_out = self.left_out.saturating_add(1);
    }

    /// Counts a frame that stays as it is.
    pub fn stay(&mut self, reason: Reason) {
        self.frames = self.frames.saturating_add(1);
        for (count, other) in self.stayed.iter_mut().zip(REASONS.iter()) {
            if *other == reason {
                *count = count.saturating_add(1);
            }
        }
    }

    /// The commonest reason, and how many frames stayed for it.
    fn commonest(&self) -> (u64, Reason) {
        let mut most = (0, Reason::NotThere);
        for (count, reason) in self.stayed.iter().zip(REASONS.iter()) {
            if *count > most.0 {
                most = (*count, *reason);
            }
        }
        most
    }

    /// Reports how many frames are resolved, and the commonest reason why others are not.
    fn tell_resolved(&self, asked: &Asked<'_, '_>, more: &str) -> Outcome<()> {
        let alloc = asked.alloc();
        let Count {
            frames,
            resolved,
            ..
        } = *self;
        if frames == 0 {
            warn(asked.rt, "resolve", "the input has no frames");
            return Ok(());
        }
        let mut text = format!(in alloc; "{resolved} of {frames} {} resolved", are(frames))?;
        if resolved < frames {
            let (count, reason) = self.commonest();
            let (one, several) = short(reason);
            let why = if count == 1 { one } else { several };
            write!(text, "; {count} {why}{more}")?;
        }
        warn(asked.rt, "resolve", text.as_str());
        Ok(())
    }

    /// Reports how many frames were left out.
    fn tell_left_out(&self, asked: &Asked<'_, '_>, more: &str) -> Outcome<()> {
        let left_out = self.left_out;
        if left_out == 0 {
            return Ok(());
        }
        let text = format!(in asked.alloc();
            "{left_out} {} left out, since the source has none there{more}",
            are(left_out)
        )?;
        warn(asked.rt, "resolve", text.as_str());
        Ok(())
    }

    /// Reports on standard error how many frames are resolved, and left out.
    pub fn tell(&self, asked: &Asked<'_, '_>) -> Outcome<()> {
        let more = if asked.has("explain") {
            ""
        } else {
            " (--explain says more)"
        };
        self.tell_resolved(asked, more)?;
        self.tell_left_out(asked, more)
    }
}
